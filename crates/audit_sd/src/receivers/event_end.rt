//! Where the events of a service go.
ghost use Rattle.std.specs.Prelude.{◌≡◌};
ghost use Rattle.audit_sd.specs.receivers.PlaceOrder.{exact_ends};
ghost use Rattle.audit_sd.specs.receivers.ReceiverPlaces.{end_at, end_of};

use crate::receivers::delivery::Delivery;
use crate::subscriptions::SubscriptionKey;
use audit_index::compare_addresses;
use someip_tables::Key;
use someip_tables::hashed::compare_endpoints;
use std::cmp::Ordering;
use std::net::{Ipv4Addr, SocketAddrV4};

/// The endpoint to which the events of a service go from a server.
#[derive(Clone, Copy, Debug, PartialEq, Eq)]
pub(crate) struct EventEnd {
    /// The address that they come from.
    pub(crate) server: Ipv4Addr,
    /// Service ID.
    pub(crate) service: u16,
    /// The endpoint that they go to.
    pub(crate) endpoint: SocketAddrV4,
}

impl Key for EventEnd {
    ghost exact = { exact_ends };
}

impl PartialOrd for EventEnd {
    ghost use Rattle.std.specs.Prelude.{Some, refl};
    ghost use Rattle.std.specs.Cmp.{partial_order_from_agreeing_total};
    ghost use Rattle.audit_sd.specs.receivers.ReceiverPlaces.{end_cmp};
    ghost use Rattle.audit_sd.specs.receivers.PlaceOrder.{ends_total};
    ghost use Rattle.std.specs.Cmp.Rules.{comparing};
    ghost use Rattle.std.proofs.Common.{rules};

    ghost partial_cmp = { λ x y. Some (end_cmp x y) };

    ghost laws = { partial_order_from_agreeing_total end_cmp ends_total (λ x y. refl) (Prim.search (comparing, rules)) };

    fn partial_cmp(&self, other: &EventEnd) -> Option<Ordering> {
        Some(self.cmp(other))
    }
}

/// The address and the endpoint are compared as numbers: octet by octet takes longer.
impl Ord for EventEnd {
    ghost use Rattle.std.specs.Cmp.Rules.{comparing};
    ghost use Rattle.std.proofs.Common.{rules};
    ghost use Rattle.audit_sd.specs.receivers.ReceiverPlaces.{end_cmp};
    ghost use Rattle.audit_sd.specs.receivers.PlaceOrder.{ends_total};

    ghost cmp = { end_cmp };

    ghost total = { ends_total };

    ghost matches_partial_cmp = { Prim.search (comparing, rules) };

    ghost matches_eq = { Prim.search (comparing, rules) };

    fn cmp(&self, other: &EventEnd) -> Ordering {
        match compare_addresses(&self.server, &other.server) {
            Ordering::Equal => {}
            different => return different,
        }
        match self.service.cmp(&other.service) {
            Ordering::Equal => compare_endpoints(&self.endpoint, &other.endpoint),
            different => different,
        }
    }
}

impl EventEnd {
    /// Where the events of a subscription with this endpoint go.
    pub(crate) fn at(key: &SubscriptionKey, endpoint: SocketAddrV4) -> EventEnd
        ensures { result ≡ end_at key.now endpoint }
    {
        EventEnd {
            server: key.server,
            service: key.service,
            endpoint,
        }
    }

    /// Where an event went.
    pub(crate) fn of(delivery: &Delivery) -> EventEnd
        ensures { result ≡ end_of delivery.now }
    {
        EventEnd {
            server: delivery.server,
            service: delivery.service,
            endpoint: delivery.endpoint,
        }
    }
}
