//! A session of an event that is missing, or a run of them.
use crate::events::EventFlow;
use crate::gaps::key::MissingEvent;
use audit_index::Owned;
use someip_tables::Waits;
use someip_tables::hashed::Numbers;
use std::net::Ipv4Addr;

/// A session of an event that is missing and may still come, or a run of them.
#[derive(Clone, Copy, Debug, PartialEq, Eq)]
pub struct Awaited {
    /// The event that skipped it.
    pub shown_by: EventFlow,
    /// The numbers of that event's datagram.
    pub numbers: Numbers,
    /// Until when it may come, in milliseconds.
    pub until: u64,
}

/// It waits for the moment at which it is lost.
impl Waits for Awaited {
    ghost use Rattle.audit_traffic.specs.gaps.GapRules.{waits_until};

    ghost moment = { waits_until };

    fn waits_for(&self) -> Option<u64> {
        Some(self.until)
    }
}

/// The address of its sender owns it.
impl Owned<MissingEvent> for Awaited {
    ghost use Rattle.audit_traffic.specs.gaps.MissingKeys.{owners_of};

    ghost owners = { owners_of };

    fn owners(&self, key: &MissingEvent) -> (Ipv4Addr, Ipv4Addr) {
        let sender = *key.sender.ip();
        (sender, sender)
    }
}
