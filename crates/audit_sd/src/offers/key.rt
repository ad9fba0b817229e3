//! What tells offers apart.
ghost use Rattle.audit_sd.specs.offers.OfferOrder.{exact_offers};

use someip_tables::Key;

/// What tells offers apart: by rising service, then instance, then major version.
#[derive(Clone, Copy, Debug, PartialEq, Eq, PartialOrd, Ord, Hash)]
pub struct OfferKey {
    /// Service ID.
    pub service: u16,
    /// Instance ID.
    pub instance: u16,
    /// Major version.
    pub major: u8,
}

impl Key for OfferKey {
    ghost exact = { exact_offers };
}
