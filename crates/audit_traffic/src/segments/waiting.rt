//! Messages that have come in part, by their timeouts.
use someip_tables::Waits;
use someip_tables::hashed::Numbers;

/// A message that has come in part.
#[derive(Clone, Copy)]
pub(crate) struct Waiting {
    /// The numbers of the datagram with its first segment.
    pub(crate) numbers: Numbers,
    /// Its timeout after its last segment, in milliseconds.
    pub(crate) until: u64,
}

impl Waits for Waiting {
    ghost use Rattle.audit_traffic.specs.segments.SegmentWaits.{waits_of};

    ghost moment = { waits_of };

    fn waits_for(&self) -> Option<u64> {
        Some(self.until)
    }
}
