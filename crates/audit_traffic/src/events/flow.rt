//! The flow of an event from its sender to one receiver.
ghost use Rattle.audit_traffic.specs.events.FlowOrder.{exact_flows};

use someip_tables::Key;
use someip_tables::hashed::{compare_endpoints, number_of_endpoint};
use std::cmp::Ordering;
use std::hash::{Hash, Hasher};
use std::net::SocketAddrV4;

/// An event of a service, from one sender to one receiver: by rising sender, then by the numbers, and
/// then by the receiver.
#[derive(Clone, Copy, Debug)]
pub struct EventFlow {
    /// The endpoint that it comes from.
    pub sender: SocketAddrV4,
    /// Service ID.
    pub service: u16,
    /// Event ID.
    pub event: u16,
    /// The endpoint that it goes to: one client's, or a multicast group's.
    pub receiver: SocketAddrV4,
}

impl Key for EventFlow {
    ghost exact = { exact_flows };
}

/// By the order, which compares numbers: octet by octet takes longer.
impl PartialEq for EventFlow {
    ghost use Rattle.std.specs.Ordering.{eq_by_cmp};
    ghost use Rattle.std.specs.Cmp.{partial_equiv_from_equiv, eq_by_cmp_equiv};
    ghost use Rattle.audit_traffic.specs.events.FlowKeys.{flow_cmp};
    ghost use Rattle.audit_traffic.specs.events.FlowOrder.{flows_total};

    ghost eq = { eq_by_cmp flow_cmp };

    ghost laws = { partial_equiv_from_equiv (eq_by_cmp_equiv flows_total) };

    fn eq(&self, other: &EventFlow) -> bool {
        self.cmp(other).is_eq()
    }
}

impl Eq for EventFlow {
    ghost use Rattle.std.specs.Cmp.{eq_by_cmp_equiv};
    ghost use Rattle.audit_traffic.specs.events.FlowOrder.{flows_total};

    ghost laws = { eq_by_cmp_equiv flows_total };
}

impl PartialOrd for EventFlow {
    ghost use Rattle.std.specs.Prelude.{Some, refl};
    ghost use Rattle.std.specs.Cmp.{partial_order_from_agreeing_total};
    ghost use Rattle.audit_traffic.specs.events.FlowKeys.{flow_cmp};
    ghost use Rattle.audit_traffic.specs.events.FlowOrder.{flows_total};

    ghost partial_cmp = { λ x y. Some (flow_cmp x y) };

    ghost laws = { partial_order_from_agreeing_total flow_cmp flows_total (λ x y. refl) (λ x y. refl) };

    fn partial_cmp(&self, other: &EventFlow) -> Option<Ordering> {
        Some(self.cmp(other))
    }
}

/// The endpoints are compared as numbers: octet by octet takes longer.
impl Ord for EventFlow {
    ghost use Rattle.std.specs.Cmp.Rules.{comparing};
    ghost use Rattle.std.proofs.Common.{rules};
    ghost use Rattle.audit_traffic.specs.events.FlowKeys.{flow_cmp};
    ghost use Rattle.audit_traffic.specs.events.FlowOrder.{flows_total};

    ghost cmp = { flow_cmp };

    ghost total = { flows_total };

    ghost matches_partial_cmp = { Prim.search (comparing, rules) };

    ghost matches_eq = { Prim.search (comparing, rules) };

    fn cmp(&self, other: &EventFlow) -> Ordering {
        match compare_endpoints(&self.sender, &other.sender) {
            Ordering::Equal => {}
            different => return different,
        }
        match self.service.cmp(&other.service) {
            Ordering::Equal => {}
            different => return different,
        }
        match self.event.cmp(&other.event) {
            Ordering::Equal => compare_endpoints(&self.receiver, &other.receiver),
            different => different,
        }
    }
}

impl Hash for EventFlow {
    ghost use Rattle.std.proofs.Common.{ap};
    ghost use Rattle.someip_tables.proofs.DueLemmas.{test_is_true};
    ghost use Rattle.someip_tables.proofs.Entries.{same_by_test};
    ghost use Rattle.audit_traffic.specs.events.FlowKeys.{flow_fed};
    ghost use Rattle.audit_traffic.specs.events.FlowOrder.{exact_flows};

    ghost hash_input = { flow_fed };

    ghost respects_eq = { λ x y same. ap flow_fed (same_by_test exact_flows x y (test_is_true same)) };

    fn hash<H: Hasher>(&self, state: &mut H) {
        state.write_u64(number_of_endpoint(&self.sender));
        state.write_u64(u64::from(self.service) * 65536 + u64::from(self.event));
        state.write_u64(number_of_endpoint(&self.receiver));
    }
}
