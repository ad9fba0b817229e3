//! An Offer or a StopOffer of a recording, and what stands by it.
use crate::offers::key::OfferKey;
use audit_index::Owned;
use someip_tables::hashed::Origin;
use someip_tables::{Deadline, Waits};
use std::net::{Ipv4Addr, SocketAddrV4};

/// An Offer, or a StopOffer, whose TTL is 0 (SOME/IP Service Discovery Protocol, "Offer Service entry",
/// "Stop Offer Service entry").
#[derive(Clone, Copy, Debug, PartialEq, Eq)]
pub struct OfferEntry {
    /// What is offered, or no longer is.
    pub key: OfferKey,
    /// Where it is offered: the first IPv4 UDP endpoint option. An Offer without one is passed over; of
    /// a StopOffer it is not looked at.
    pub endpoint: Option<SocketAddrV4>,
    /// TTL in seconds; FFFFFF lasts until the next reboot.
    pub ttl: u32,
    /// The datagram that it came in.
    pub origin: Origin,
}

/// An offer that stands.
#[derive(Clone, Copy, Debug, PartialEq, Eq)]
pub struct Standing {
    /// Where it is offered.
    pub endpoint: SocketAddrV4,
    /// The datagram of the newest Offer, from which its TTL counts.
    pub origin: Origin,
    /// Until when it stands.
    pub until: Deadline,
}

/// An offer waits for the moment at which its TTL has passed.
impl Waits for Standing {
    ghost use Rattle.audit_sd.specs.offers.OfferRules.{passes_at};

    ghost moment = { passes_at };

    fn waits_for(&self) -> Option<u64> {
        match self.until {
            Deadline::At(at) => Some(at),
            Deadline::Never => None,
        }
    }
}

/// An offer is its sender's.
impl Owned<OfferKey> for Standing {
    ghost use Rattle.audit_sd.specs.offers.OfferRules.{owners_of};

    ghost owners = { owners_of };

    fn owners(&self, _key: &OfferKey) -> (Ipv4Addr, Ipv4Addr) {
        let sender = *self.origin.from.ip();
        (sender, sender)
    }
}
