//! Reassembly keys as keys of tables.
ghost use Rattle.std.specs.Prelude.{◌≡◌};
ghost use Rattle.someip_reassembly.specs.Keys.{key_numbers};
ghost use Rattle.audit_traffic.specs.segments.MessageKeys.{message_cmp, messages_total, exact_messages};

use someip_reassembly::ReassemblyKey;
use someip_tables::Key;
use someip_tables::hashed::compare_endpoints;
use std::cmp::Ordering;
use std::hash::{Hash, Hasher};

/// A reassembly key, with its order: by source, destination, Message ID, Request ID, Interface Version,
/// type and Return Code.
#[derive(Clone, Copy)]
pub(crate) struct MessageKey(pub(crate) ReassemblyKey);

impl PartialEq for MessageKey {
    ghost use Rattle.std.specs.Cmp.{partial_equiv_from_equiv, eq_by_cmp_equiv};
    ghost use Rattle.std.specs.Ordering.{eq_by_cmp};

    ghost eq = { eq_by_cmp message_cmp };

    ghost laws = { partial_equiv_from_equiv (eq_by_cmp_equiv messages_total) };

    fn eq(&self, other: &MessageKey) -> bool {
        self.cmp(other).is_eq()
    }
}

impl Eq for MessageKey {
    ghost use Rattle.std.specs.Cmp.{eq_by_cmp_equiv};

    ghost laws = { eq_by_cmp_equiv messages_total };
}

impl PartialOrd for MessageKey {
    ghost use Rattle.std.specs.Prelude.{Some, refl};
    ghost use Rattle.std.specs.Cmp.{partial_order_from_agreeing_total};

    ghost partial_cmp = { λ x y. Some (message_cmp x y) };

    ghost laws = { partial_order_from_agreeing_total message_cmp messages_total (λ x y. refl) (λ x y. refl) };

    fn partial_cmp(&self, other: &MessageKey) -> Option<Ordering> {
        Some(self.cmp(other))
    }
}

/// The endpoints are compared as numbers: octet by octet takes longer.
impl Ord for MessageKey {
    ghost use Rattle.std.specs.Cmp.Rules.{comparing};
    ghost use Rattle.std.proofs.Common.{rules};

    ghost cmp = { message_cmp };

    ghost total = { messages_total };

    ghost matches_partial_cmp = { Prim.search (comparing, rules) };

    ghost matches_eq = { Prim.search (comparing, rules) };

    fn cmp(&self, other: &MessageKey) -> Ordering {
        match compare_endpoints(&self.0.source, &other.0.source) {
            Ordering::Equal => {}
            different => return different,
        }
        match compare_endpoints(&self.0.destination, &other.0.destination) {
            Ordering::Equal => numbers(&self.0).cmp(&numbers(&other.0)),
            different => different,
        }
    }
}

/// By the endpoints and the IDs.
impl Hash for MessageKey {
    ghost use Rattle.std.proofs.Common.{ap};
    ghost use Rattle.someip_tables.proofs.DueLemmas.{test_is_true};
    ghost use Rattle.someip_tables.proofs.Entries.{same_by_test};
    ghost use Rattle.audit_traffic.specs.segments.MessageKeys.{message_fed};

    ghost hash_input = { message_fed };

    ghost respects_eq = { λ x y same. ap message_fed (same_by_test exact_messages x y (test_is_true same)) };

    fn hash<H: Hasher>(&self, state: &mut H) {
        state.write(&self.0.source.ip().octets());
        state.write(&self.0.destination.ip().octets());
        state.write_u16(self.0.source.port());
        state.write_u16(self.0.destination.port());
        state.write_u16(self.0.service);
        state.write_u16(self.0.method);
        state.write_u16(self.0.client);
        state.write_u16(self.0.session);
    }
}

impl Key for MessageKey {
    ghost exact = { exact_messages };
}

/// What a key has beside its endpoints.
fn numbers(key: &ReassemblyKey) -> [u16; 7]
    ensures { result ≡ key_numbers key.now }
{
    [
        key.service,
        key.method,
        key.client,
        key.session,
        u16::from(key.interface),
        u16::from(key.kind.number()),
        u16::from(key.code.0),
    ]
}
