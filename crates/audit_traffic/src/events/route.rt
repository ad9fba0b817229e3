//! The addresses between which flows of a service go.
ghost use Rattle.audit_traffic.specs.events.PlaceOrder.{exact_routes};

use audit_index::compare_addresses;
use someip_tables::Key;
use std::cmp::Ordering;
use std::net::Ipv4Addr;

/// The addresses between which flows of a service go. All multicast groups are one receiver: a subscription that
/// begins or ends may change what goes to any of them.
#[derive(Clone, Copy, Debug, PartialEq, Eq)]
pub(crate) struct Route {
    /// The address that they come from.
    pub(crate) server: Ipv4Addr,
    /// Service ID.
    pub(crate) service: u16,
    /// The address that they go to.
    pub(crate) receiver: Ipv4Addr,
}

impl Key for Route {
    ghost exact = { exact_routes };
}

impl PartialOrd for Route {
    ghost use Rattle.std.specs.Prelude.{Some, refl};
    ghost use Rattle.std.specs.Cmp.{partial_order_from_agreeing_total};
    ghost use Rattle.audit_traffic.specs.events.FlowPlaces.{route_cmp};
    ghost use Rattle.audit_traffic.specs.events.PlaceOrder.{routes_total};
    ghost use Rattle.std.specs.Cmp.Rules.{comparing};
    ghost use Rattle.std.proofs.Common.{rules};

    ghost partial_cmp = { λ x y. Some (route_cmp x y) };

    ghost laws = { partial_order_from_agreeing_total route_cmp routes_total (λ x y. refl) (Prim.search (comparing, rules)) };

    fn partial_cmp(&self, other: &Route) -> Option<Ordering> {
        Some(self.cmp(other))
    }
}

/// The addresses are compared as numbers: octet by octet takes longer, and each look at an index of flows compares
/// many.
impl Ord for Route {
    ghost use Rattle.std.specs.Cmp.Rules.{comparing};
    ghost use Rattle.std.proofs.Common.{rules};
    ghost use Rattle.audit_traffic.specs.events.FlowPlaces.{route_cmp};
    ghost use Rattle.audit_traffic.specs.events.PlaceOrder.{routes_total};

    ghost cmp = { route_cmp };

    ghost total = { routes_total };

    ghost matches_partial_cmp = { Prim.search (comparing, rules) };

    ghost matches_eq = { Prim.search (comparing, rules) };

    fn cmp(&self, other: &Route) -> Ordering {
        match compare_addresses(&self.server, &other.server) {
            Ordering::Equal => match self.service.cmp(&other.service) {
                Ordering::Equal => compare_addresses(&self.receiver, &other.receiver),
                different => different,
            },
            different => different,
        }
    }
}
