//! What tells offers apart, and how something is offered.
ghost use Rattle.audit_services.specs.OfferedOrder.{exact_offered, exact_terms};

use crate::placed::Placed;
use someip_tables::Key;
use std::net::{Ipv4Addr, SocketAddrV4};

/// What is offered, and by whom: by rising service, then instance, then major version, then sender (SOME/IP Service
/// Discovery Protocol, "Offer Service entry").
#[derive(Clone, Copy, Debug, PartialEq, Eq, PartialOrd, Ord)]
pub struct Offered {
    /// Service ID.
    pub service: u16,
    /// Instance ID.
    pub instance: u16,
    /// Major version.
    pub major: u8,
    /// The address that the Offer came from.
    pub sender: Ipv4Addr,
}

impl Key for Offered {
    ghost exact = { exact_offered };
}

/// An offer is at its sender's address.
impl Placed<Ipv4Addr> for Offered {
    ghost use Rattle.audit_services.specs.OfferedKeys.{places_of_offered};

    ghost places = { places_of_offered };

    fn places(&self) -> ((Ipv4Addr, Ipv4Addr), (Ipv4Addr, Ipv4Addr)) {
        let sender = self.sender;
        ((sender, sender), (sender, sender))
    }
}

/// How something is offered. Where this changes, it has moved.
#[derive(Clone, Copy, Debug, PartialEq, Eq, PartialOrd, Ord)]
pub struct OfferTerms {
    /// Minor version.
    pub minor: u32,
    /// Where it is offered: the first IPv4 UDP endpoint option of the Offer.
    pub endpoint: SocketAddrV4,
}

impl Key for OfferTerms {
    ghost exact = { exact_terms };
}
