//! What a recording shows of subscriptions.
ghost use Rattle.audit_sd.specs.receivers.PlaceOrder.{exact_offers};

use crate::subscriptions::{EntryKind, SubscriptionKey};
use audit_index::compare_addresses;
use someip_tables::Key;
use std::cmp::Ordering;
use std::net::{Ipv4Addr, SocketAddrV4};

/// An entry of an eventgroup: with a TTL above 0 a Subscribe or an Ack, else a StopSubscribe or a Nack
/// (SOME/IP Service Discovery Protocol, "Subscribe Eventgroup entry", "Subscribe Eventgroup
/// Acknowledgement entry").
#[derive(Clone, Copy, Debug, PartialEq, Eq)]
pub struct ReceiverEntry {
    /// The subscription that it is of.
    pub key: SubscriptionKey,
    /// Whether it comes from the client or is the server's answer.
    pub kind: EntryKind,
    /// TTL in seconds; FFFFFF lasts until the next reboot.
    pub ttl: u32,
    /// Of a Subscribe, where the events go: its first IPv4 UDP endpoint option. One without is passed
    /// over; of the others it is not looked at.
    pub endpoint: Option<SocketAddrV4>,
}

/// An offer that its server withdrew by a StopOffer: by rising address of the server, and then by the numbers.
#[derive(Clone, Copy, Debug, PartialEq, Eq)]
pub struct WithdrawnOffer {
    /// The address that offered.
    pub server: Ipv4Addr,
    /// Service ID.
    pub service: u16,
    /// Instance ID.
    pub instance: u16,
    /// Major version.
    pub major: u8,
}

impl Key for WithdrawnOffer {
    ghost exact = { exact_offers };
}

impl PartialOrd for WithdrawnOffer {
    ghost use Rattle.std.specs.Prelude.{Some, refl};
    ghost use Rattle.std.specs.Cmp.{partial_order_from_agreeing_total};
    ghost use Rattle.audit_sd.specs.receivers.ReceiverPlaces.{withdrawn_cmp};
    ghost use Rattle.audit_sd.specs.receivers.PlaceOrder.{offers_total};
    ghost use Rattle.std.specs.Cmp.Rules.{comparing};
    ghost use Rattle.std.proofs.Common.{rules};

    ghost partial_cmp = { λ x y. Some (withdrawn_cmp x y) };

    ghost laws = { partial_order_from_agreeing_total withdrawn_cmp offers_total (λ x y. refl) (Prim.search (comparing, rules)) };

    fn partial_cmp(&self, other: &WithdrawnOffer) -> Option<Ordering> {
        Some(self.cmp(other))
    }
}

/// The address is compared as a number: octet by octet takes longer.
impl Ord for WithdrawnOffer {
    ghost use Rattle.std.specs.Cmp.Rules.{comparing};
    ghost use Rattle.std.proofs.Common.{rules};
    ghost use Rattle.audit_sd.specs.receivers.ReceiverPlaces.{withdrawn_cmp};
    ghost use Rattle.audit_sd.specs.receivers.PlaceOrder.{offers_total};

    ghost cmp = { withdrawn_cmp };

    ghost total = { offers_total };

    ghost matches_partial_cmp = { Prim.search (comparing, rules) };

    ghost matches_eq = { Prim.search (comparing, rules) };

    fn cmp(&self, other: &WithdrawnOffer) -> Ordering {
        match compare_addresses(&self.server, &other.server) {
            Ordering::Equal => {}
            different => return different,
        }
        match self.service.cmp(&other.service) {
            Ordering::Equal => {}
            different => return different,
        }
        match self.instance.cmp(&other.instance) {
            Ordering::Equal => self.major.cmp(&other.major),
            different => different,
        }
    }
}
