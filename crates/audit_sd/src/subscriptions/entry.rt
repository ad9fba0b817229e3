//! A Subscribe of a recording, and its answer.
use crate::subscriptions::key::SubscriptionKey;
use audit_index::Owned;
use someip_tables::Waits;
use someip_tables::hashed::Origin;
use std::net::Ipv4Addr;

/// The two kinds of entries of eventgroups.
#[derive(Clone, Copy, Debug, PartialEq, Eq)]
pub enum EntryKind {
    /// From the client to the server: with a TTL above 0 a Subscribe, else a StopSubscribe.
    Subscribe,
    /// From the server to the client: with a TTL above 0 an Ack, else a Nack.
    Answer,
}

/// An entry of an eventgroup (SOME/IP Service Discovery Protocol, "Subscribe Eventgroup entry", "Stop
/// Subscribe Eventgroup entry", "Subscribe Eventgroup Acknowledgement entry", "Subscribe Eventgroup
/// Negative Acknowledgement entry").
#[derive(Clone, Copy, Debug, PartialEq, Eq)]
pub struct SubscribeEntry {
    /// The subscription that it is of.
    pub key: SubscriptionKey,
    /// Its kind.
    pub kind: EntryKind,
    /// TTL in seconds.
    pub ttl: u32,
    /// The datagram that it came in.
    pub origin: Origin,
}

/// A Subscribe that waits for its answer.
#[derive(Clone, Copy, Debug, PartialEq, Eq)]
pub struct Asked {
    /// The datagram that it came in.
    pub origin: Origin,
    /// Until when it waits, in milliseconds.
    pub until: u64,
}

/// A Subscribe waits for the moment at which it has waited too long.
impl Waits for Asked {
    ghost use Rattle.audit_sd.specs.subscriptions.SubscribeRules.{waits_until};

    ghost moment = { waits_until };

    fn waits_for(&self) -> Option<u64> {
        Some(self.until)
    }
}

/// It is the client's and the server's.
impl Owned<SubscriptionKey> for Asked {
    ghost use Rattle.audit_sd.specs.subscriptions.SubscribeRules.{owners_of};

    ghost owners = { owners_of };

    fn owners(&self, key: &SubscriptionKey) -> (Ipv4Addr, Ipv4Addr) {
        (key.client, key.server)
    }
}
