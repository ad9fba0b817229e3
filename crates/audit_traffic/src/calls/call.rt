//! What tells the calls of a recording apart.
//!
//! Calls that are due at one moment are told by Message ID and Request ID first, then by their endpoints
//! and the Interface Version: the IDs tell most calls apart, and are compared as one number.
ghost use Rattle.std.specs.Prelude.{◌≡◌};
ghost use Rattle.audit_traffic.specs.calls.AuditedCalls.{asked_call, answered_call, ids_cmp};
ghost use Rattle.audit_traffic.specs.calls.CallNumbers.{IsIds, ids_number};

use someip_tables::hashed::{compare_endpoints, number_of_endpoint};
use someip_wire::Header;
use std::cmp::Ordering;
use std::hash::{Hash, Hasher};
use std::net::SocketAddrV4;

/// What tells the calls of a recording apart: who asks whom, the Message ID, the Request ID and the
/// Interface Version (SOME/IP Protocol, "Message ID" and "Request ID").
///
/// Calls are ordered by Message ID and Request ID, then by the endpoints, and then by Interface Version.
/// The four IDs stand here from the last to the first, so that on most machines they are read as one number.
#[derive(Clone, Copy, Debug)]
pub struct AuditedCall {
    /// Session ID, the second half of the Request ID.
    pub session: u16,
    /// Client ID, the first half of the Request ID.
    pub client: u16,
    /// Method ID, the second half of the Message ID.
    pub method: u16,
    /// Service ID, the first half of the Message ID.
    pub service: u16,
    /// The endpoint that asks.
    pub from: SocketAddrV4,
    /// The endpoint that is asked.
    pub to: SocketAddrV4,
    /// Interface Version.
    pub interface: u8,
}

impl AuditedCall {
    /// The call that a REQUEST with this header opens, from one endpoint to another.
    pub fn asked(from: SocketAddrV4, to: SocketAddrV4, header: &Header) -> AuditedCall
        ensures { result ≡ asked_call from to header.now }
    {
        AuditedCall {
            from,
            to,
            service: header.service,
            method: header.method,
            client: header.client,
            session: header.session,
            interface: header.interface,
        }
    }

    /// The call that an answer with this header answers: the answer goes from the endpoint that was
    /// asked to the one that asked.
    pub fn answered(from: SocketAddrV4, to: SocketAddrV4, header: &Header) -> AuditedCall
        ensures { result ≡ answered_call from to header.now }
    {
        AuditedCall::asked(to, from, header)
    }
}

/// By the order, which compares numbers: octet by octet takes longer.
impl PartialEq for AuditedCall {
    ghost use Rattle.std.specs.Ordering.{eq_by_cmp};
    ghost use Rattle.std.specs.Cmp.{partial_equiv_from_equiv, eq_by_cmp_equiv};
    ghost use Rattle.audit_traffic.specs.calls.AuditedCalls.{call_cmp};
    ghost use Rattle.audit_traffic.specs.calls.CallOrder.{calls_total};

    ghost eq = { eq_by_cmp call_cmp };

    ghost laws = { partial_equiv_from_equiv (eq_by_cmp_equiv calls_total) };

    fn eq(&self, other: &AuditedCall) -> bool {
        self.cmp(other).is_eq()
    }
}

impl Eq for AuditedCall {
    ghost use Rattle.std.specs.Cmp.{eq_by_cmp_equiv};
    ghost use Rattle.audit_traffic.specs.calls.CallOrder.{calls_total};

    ghost laws = { eq_by_cmp_equiv calls_total };
}

impl PartialOrd for AuditedCall {
    ghost use Rattle.std.specs.Prelude.{Some, refl};
    ghost use Rattle.std.specs.Cmp.{partial_order_from_agreeing_total};
    ghost use Rattle.audit_traffic.specs.calls.AuditedCalls.{call_cmp};
    ghost use Rattle.audit_traffic.specs.calls.CallOrder.{calls_total};

    ghost partial_cmp = { λ x y. Some (call_cmp x y) };

    ghost laws = { partial_order_from_agreeing_total call_cmp calls_total (λ x y. refl) (λ x y. refl) };

    fn partial_cmp(&self, other: &AuditedCall) -> Option<Ordering> {
        Some(self.cmp(other))
    }
}

/// The IDs are compared first, as one number: they tell nearly all calls apart, and most of what a look at a
/// table takes is this comparison.
impl Ord for AuditedCall {
    ghost use Rattle.std.specs.Cmp.Rules.{comparing};
    ghost use Rattle.std.proofs.Common.{rules};
    ghost use Rattle.audit_traffic.specs.calls.AuditedCalls.{call_cmp};
    ghost use Rattle.audit_traffic.specs.calls.CallOrder.{calls_total};

    ghost cmp = { call_cmp };

    ghost total = { calls_total };

    ghost matches_partial_cmp = { Prim.search (comparing, rules) };

    ghost matches_eq = { Prim.search (comparing, rules) };

    fn cmp(&self, other: &AuditedCall) -> Ordering {
        match compare_ids(self, other) {
            Ordering::Equal => {}
            different => return different,
        }
        match compare_endpoints(&self.from, &other.from) {
            Ordering::Equal => {}
            different => return different,
        }
        match compare_endpoints(&self.to, &other.to) {
            Ordering::Equal => self.interface.cmp(&other.interface),
            different => different,
        }
    }
}

/// By all but the Interface Version, which tells hardly any calls apart.
impl Hash for AuditedCall {
    ghost use Rattle.std.proofs.Common.{ap};
    ghost use Rattle.someip_tables.proofs.DueLemmas.{test_is_true};
    ghost use Rattle.someip_tables.proofs.Entries.{same_by_test};
    ghost use Rattle.audit_traffic.specs.calls.CallNumbers.{call_fed};
    ghost use Rattle.audit_traffic.specs.calls.CallOrder.{exact_calls};

    ghost hash_input = { call_fed };

    ghost respects_eq = { λ x y same. ap call_fed (same_by_test exact_calls x y (test_is_true same)) };

    fn hash<H: Hasher>(&self, state: &mut H) {
        state.write_u64(number_of_ids(self));
        state.write_u64(number_of_endpoint(&self.from));
        state.write_u64(number_of_endpoint(&self.to));
    }
}

/// The IDs of two calls, in order.
fn compare_ids(call: &AuditedCall, other: &AuditedCall) -> Ordering
    ensures { result ≡ ids_cmp call.now other.now }
{
    number_of_ids(call).cmp(&number_of_ids(other))
}

/// Message ID and Request ID as a number.
fn number_of_ids(call: &AuditedCall) -> u64
    ensures number { result ≡ ids_number call.now }
    ensures valid { IsIds call.now }
{
    let message = u64::from(call.service) * 65536 + u64::from(call.method);
    (message * 65536 + u64::from(call.client)) * 65536 + u64::from(call.session)
}
