//! What tells figures apart. Keys are compared by numbers: octet by octet it takes longer.
ghost use Rattle.std.specs.Prelude.{◌≡◌, ◌<◌, ◌^◌};
ghost use Rattle.audit_stats.specs.KeyNumbers.{IsIds, ids_cmp, ids_number};
ghost use Rattle.audit_stats.specs.KeyOrder.{exact_flows, exact_ways};

use someip_tables::Key;
use someip_tables::hashed::{compare_endpoints, number_of_endpoint};
use std::cmp::Ordering;
use std::hash::{Hash, Hasher};
use std::net::SocketAddrV4;

/// The flow of calls or events: by rising service, then method or event, then the endpoint that calls or sends,
/// and then the one that is called or receives. The two IDs stand here from the last to the first, so that on most
/// machines they are read as one number.
#[derive(Clone, Copy, Debug, PartialEq, Eq)]
pub struct Flow {
    /// Method ID or Event ID.
    pub method: u16,
    /// Service ID.
    pub service: u16,
    /// The endpoint that calls, or the one that sends events.
    pub from: SocketAddrV4,
    /// The endpoint that is called, or the one that receives events: one client's, or a multicast group's.
    pub to: SocketAddrV4,
}

impl Key for Flow {
    ghost exact = { exact_flows };
}

impl PartialOrd for Flow {
    ghost use Rattle.std.specs.Prelude.{Some, refl};
    ghost use Rattle.std.specs.Cmp.{partial_order_from_agreeing_total};
    ghost use Rattle.std.specs.Cmp.Rules.{comparing};
    ghost use Rattle.std.proofs.Common.{rules};
    ghost use Rattle.audit_stats.specs.Keys.{flow_cmp};
    ghost use Rattle.audit_stats.specs.KeyOrder.{flows_total};

    ghost partial_cmp = { λ x y. Some (flow_cmp x y) };

    ghost laws = { partial_order_from_agreeing_total flow_cmp flows_total (λ x y. refl) (Prim.search (comparing, rules)) };

    fn partial_cmp(&self, other: &Flow) -> Option<Ordering> {
        Some(self.cmp(other))
    }
}

impl Ord for Flow {
    ghost use Rattle.std.specs.Cmp.Rules.{comparing};
    ghost use Rattle.std.proofs.Common.{rules};
    ghost use Rattle.audit_stats.specs.Keys.{flow_cmp};
    ghost use Rattle.audit_stats.specs.KeyOrder.{flows_total};

    ghost cmp = { flow_cmp };

    ghost total = { flows_total };

    ghost matches_partial_cmp = { Prim.search (comparing, rules) };

    ghost matches_eq = { Prim.search (comparing, rules) };

    fn cmp(&self, other: &Flow) -> Ordering {
        match compare_ids(self, other) {
            Ordering::Equal => {}
            different => return different,
        }
        match compare_endpoints(&self.from, &other.from) {
            Ordering::Equal => compare_endpoints(&self.to, &other.to),
            different => different,
        }
    }
}

/// From which endpoint messages go to which one: by rising endpoint that they come from, and then by the one that
/// they go to.
#[derive(Clone, Copy, Debug, PartialEq, Eq)]
pub struct Way {
    /// Where messages come from.
    pub from: SocketAddrV4,
    /// Where they go to.
    pub to: SocketAddrV4,
}

impl Key for Way {
    ghost exact = { exact_ways };
}

impl PartialOrd for Way {
    ghost use Rattle.std.specs.Prelude.{Some, refl};
    ghost use Rattle.std.specs.Cmp.{partial_order_from_agreeing_total};
    ghost use Rattle.std.specs.Cmp.Rules.{comparing};
    ghost use Rattle.std.proofs.Common.{rules};
    ghost use Rattle.audit_stats.specs.Keys.{way_cmp};
    ghost use Rattle.audit_stats.specs.KeyOrder.{ways_total};

    ghost partial_cmp = { λ x y. Some (way_cmp x y) };

    ghost laws = { partial_order_from_agreeing_total way_cmp ways_total (λ x y. refl) (Prim.search (comparing, rules)) };

    fn partial_cmp(&self, other: &Way) -> Option<Ordering> {
        Some(self.cmp(other))
    }
}

impl Ord for Way {
    ghost use Rattle.std.specs.Cmp.Rules.{comparing};
    ghost use Rattle.std.proofs.Common.{rules};
    ghost use Rattle.audit_stats.specs.Keys.{way_cmp};
    ghost use Rattle.audit_stats.specs.KeyOrder.{ways_total};

    ghost cmp = { way_cmp };

    ghost total = { ways_total };

    ghost matches_partial_cmp = { Prim.search (comparing, rules) };

    ghost matches_eq = { Prim.search (comparing, rules) };

    fn cmp(&self, other: &Way) -> Ordering {
        match compare_endpoints(&self.from, &other.from) {
            Ordering::Equal => compare_endpoints(&self.to, &other.to),
            different => different,
        }
    }
}

/// A call that an answer is for: its flow, and its Request ID (SOME/IP Protocol, "Request ID"). Two calls are one
/// where these are equal, part by part.
#[derive(Clone, Copy)]
pub(crate) struct Call {
    /// The method, who calls it, and where.
    pub(crate) flow: Flow,
    /// Client ID.
    pub(crate) client: u16,
    /// Session ID.
    pub(crate) session: u16,
}

impl PartialEq for Call {
    ghost use Rattle.std.specs.Cmp.{partial_equiv_from_equiv, eq_by_cmp_equiv};
    ghost use Rattle.std.specs.Ordering.{eq_by_cmp};
    ghost use Rattle.audit_stats.specs.Keys.{call_cmp};
    ghost use Rattle.audit_stats.specs.KeyOrder.{calls_total};

    ghost eq = { eq_by_cmp call_cmp };

    ghost laws = { partial_equiv_from_equiv (eq_by_cmp_equiv calls_total) };

    fn eq(&self, other: &Call) -> bool {
        let ids = self
            .client
            .cmp(&other.client)
            .then(self.session.cmp(&other.session));
        self.flow.cmp(&other.flow).then(ids).is_eq()
    }
}

impl Eq for Call {
    ghost use Rattle.std.specs.Cmp.{eq_by_cmp_equiv};
    ghost use Rattle.audit_stats.specs.KeyOrder.{calls_total};

    ghost laws = { eq_by_cmp_equiv calls_total };
}

/// By the IDs as one number, and then by the endpoints.
impl Hash for Call {
    ghost use Rattle.std.proofs.Common.{ap};
    ghost use Rattle.someip_tables.proofs.DueLemmas.{test_is_true};
    ghost use Rattle.someip_tables.proofs.Entries.{same_by_test};
    ghost use Rattle.audit_stats.specs.KeyNumbers.{call_fed};
    ghost use Rattle.audit_stats.specs.KeyOrder.{exact_calls};

    ghost hash_input = { call_fed };

    ghost respects_eq = { λ x y same. ap call_fed (same_by_test exact_calls x y (test_is_true same)) };

    fn hash<H: Hasher>(&self, state: &mut H) {
        let call = u64::from(self.client) * 65536 + u64::from(self.session);
        state.write_u64(number_of_ids(&self.flow) * 65536 * 65536 + call);
        state.write_u64(number_of_endpoint(&self.flow.from));
        state.write_u64(number_of_endpoint(&self.flow.to));
    }
}

/// The IDs of two flows, in order.
fn compare_ids(flow: &Flow, other: &Flow) -> Ordering
    ensures { result ≡ ids_cmp flow.now other.now }
{
    number_of_ids(flow).cmp(&number_of_ids(other))
}

/// The service and the method or event of a flow as a number.
fn number_of_ids(flow: &Flow) -> u64
    ensures number { result ≡ ids_number flow.now }
    ensures valid { IsIds flow.now }
    ensures fits { result < 2 ^ 32 }
{
    u64::from(flow.service) * 65536 + u64::from(flow.method)
}
