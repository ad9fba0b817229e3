//! What tells sessions of events that are missing apart, and runs of them.
ghost use Rattle.audit_traffic.specs.gaps.MissingOrder.{exact_missing};
ghost use Rattle.std.specs.Prelude.{◌≡◌};
ghost use Rattle.audit_traffic.specs.gaps.MissingKeys.{missing_of, run_of};

use crate::events::EventFlow;
use someip_tables::Key;
use someip_tables::hashed::{compare_endpoints, number_of_endpoint};
use std::cmp::Ordering;
use std::hash::{Hash, Hasher};
use std::net::SocketAddrV4;

/// A session of an event that one sender gave, or a run of them: by rising sender, then by the numbers. Whoever gets
/// it, it is the same.
#[derive(Clone, Copy, Debug)]
pub struct MissingEvent {
    /// The endpoint that it comes from.
    pub sender: SocketAddrV4,
    /// Service ID.
    pub service: u16,
    /// Event ID.
    pub event: u16,
    /// The session, or the first of a run.
    pub session: u16,
    /// The last session of a run, and else the session itself.
    pub last: u16,
}

impl MissingEvent {
    /// A session of the event of a flow.
    pub fn of(flow: &EventFlow, session: u16) -> MissingEvent
        ensures { result ≡ missing_of flow.now session }
    {
        MissingEvent {
            sender: flow.sender,
            service: flow.service,
            event: flow.event,
            session,
            last: session,
        }
    }

    /// The sessions of the event of a flow from one to another, which are told as one run.
    pub fn run(flow: &EventFlow, first: u16, last: u16) -> MissingEvent
        ensures { result ≡ run_of flow.now first last }
    {
        MissingEvent {
            sender: flow.sender,
            service: flow.service,
            event: flow.event,
            session: first,
            last,
        }
    }
}

impl Key for MissingEvent {
    ghost exact = { exact_missing };
}

/// By the order, which compares numbers: octet by octet takes longer.
impl PartialEq for MissingEvent {
    ghost use Rattle.std.specs.Ordering.{eq_by_cmp};
    ghost use Rattle.std.specs.Cmp.{partial_equiv_from_equiv, eq_by_cmp_equiv};
    ghost use Rattle.audit_traffic.specs.gaps.MissingKeys.{missing_cmp};
    ghost use Rattle.audit_traffic.specs.gaps.MissingOrder.{missing_total};

    ghost eq = { eq_by_cmp missing_cmp };

    ghost laws = { partial_equiv_from_equiv (eq_by_cmp_equiv missing_total) };

    fn eq(&self, other: &MissingEvent) -> bool {
        self.cmp(other).is_eq()
    }
}

impl Eq for MissingEvent {
    ghost use Rattle.std.specs.Cmp.{eq_by_cmp_equiv};
    ghost use Rattle.audit_traffic.specs.gaps.MissingOrder.{missing_total};

    ghost laws = { eq_by_cmp_equiv missing_total };
}

impl PartialOrd for MissingEvent {
    ghost use Rattle.std.specs.Prelude.{Some, refl};
    ghost use Rattle.std.specs.Cmp.{partial_order_from_agreeing_total};
    ghost use Rattle.audit_traffic.specs.gaps.MissingKeys.{missing_cmp};
    ghost use Rattle.audit_traffic.specs.gaps.MissingOrder.{missing_total};

    ghost partial_cmp = { λ x y. Some (missing_cmp x y) };

    ghost laws = { partial_order_from_agreeing_total missing_cmp missing_total (λ x y. refl) (λ x y. refl) };

    fn partial_cmp(&self, other: &MissingEvent) -> Option<Ordering> {
        Some(self.cmp(other))
    }
}

/// The endpoint is compared as a number: octet by octet takes longer.
impl Ord for MissingEvent {
    ghost use Rattle.std.specs.Cmp.Rules.{comparing};
    ghost use Rattle.std.proofs.Common.{rules};
    ghost use Rattle.audit_traffic.specs.gaps.MissingKeys.{missing_cmp};
    ghost use Rattle.audit_traffic.specs.gaps.MissingOrder.{missing_total};

    ghost cmp = { missing_cmp };

    ghost total = { missing_total };

    ghost matches_partial_cmp = { Prim.search (comparing, rules) };

    ghost matches_eq = { Prim.search (comparing, rules) };

    fn cmp(&self, other: &MissingEvent) -> Ordering {
        match compare_endpoints(&self.sender, &other.sender) {
            Ordering::Equal => {}
            different => return different,
        }
        match self.service.cmp(&other.service) {
            Ordering::Equal => {}
            different => return different,
        }
        match self.event.cmp(&other.event) {
            Ordering::Equal => {}
            different => return different,
        }
        match self.session.cmp(&other.session) {
            Ordering::Equal => self.last.cmp(&other.last),
            different => different,
        }
    }
}

impl Hash for MissingEvent {
    ghost use Rattle.std.proofs.Common.{ap};
    ghost use Rattle.someip_tables.proofs.DueLemmas.{test_is_true};
    ghost use Rattle.someip_tables.proofs.Entries.{same_by_test};
    ghost use Rattle.audit_traffic.specs.gaps.MissingKeys.{missing_fed};
    ghost use Rattle.audit_traffic.specs.gaps.MissingOrder.{exact_missing};

    ghost hash_input = { missing_fed };

    ghost respects_eq = { λ x y same. ap missing_fed (same_by_test exact_missing x y (test_is_true same)) };

    fn hash<H: Hasher>(&self, state: &mut H) {
        state.write_u64(number_of_endpoint(&self.sender));
        let event = u64::from(self.service) * 65536 + u64::from(self.event);
        let session = event * 65536 + u64::from(self.session);
        state.write_u64(session * 65536 + u64::from(self.last));
    }
}
