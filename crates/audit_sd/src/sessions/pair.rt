//! A sender and a destination.
ghost use Rattle.std.specs.Prelude.{◌≡◌};
ghost use Rattle.std.specs.Ordering.{eq_by_cmp};
ghost use Rattle.someip_tables.specs.Endpoints.{address_cmp};

use audit_index::compare_addresses;
use someip_tables::hashed::is_same_address;
use std::cmp::Ordering;
use std::marker::Model;
use std::net::Ipv4Addr;

/// A sender and a destination: by rising sender, and then by rising destination.
#[derive(Clone, Copy)]
pub(crate) struct Pair {
    /// The address that messages come from.
    pub(crate) sender: Ipv4Addr,
    /// The address that they go to.
    pub(crate) destination: Ipv4Addr,
}

impl Model for Pair {
    ghost use Rattle.std.specs.declared.net.ipv4_addr.Ipv4Addr.{Ipv4Addr};

    ghost Value = { Ipv4Addr × Ipv4Addr };

    ghost view = { λ p. (p.sender, p.destination) };

    ghost inverse = { λ pair. record { sender = pair.0; destination = pair.1 } };
}

impl Pair {
    /// Whether it is the sender's.
    pub(crate) fn is_from(&self, sender: &Ipv4Addr) -> bool
        ensures { result ≡ eq_by_cmp address_cmp self.now.0 sender.now }
    {
        is_same_address(&self.sender, sender)
    }
}

impl PartialEq for Pair {
    ghost use Rattle.std.specs.Ordering.{eq_by_cmp};
    ghost use Rattle.std.specs.Cmp.{partial_equiv_from_equiv, eq_by_cmp_equiv};
    ghost use Rattle.audit_sd.specs.sessions.SessionBooks.{pair_cmp};
    ghost use Rattle.audit_sd.specs.sessions.PairOrder.{pairs_total};

    ghost eq = { eq_by_cmp pair_cmp };

    ghost laws = { partial_equiv_from_equiv (eq_by_cmp_equiv pairs_total) };

    fn eq(&self, other: &Pair) -> bool {
        self.cmp(other).is_eq()
    }
}

impl Eq for Pair {
    ghost use Rattle.std.specs.Cmp.{eq_by_cmp_equiv};
    ghost use Rattle.audit_sd.specs.sessions.PairOrder.{pairs_total};

    ghost laws = { eq_by_cmp_equiv pairs_total };
}

impl PartialOrd for Pair {
    ghost use Rattle.std.specs.Prelude.{Some, refl};
    ghost use Rattle.std.specs.Cmp.{partial_order_from_agreeing_total};
    ghost use Rattle.audit_sd.specs.sessions.SessionBooks.{pair_cmp};
    ghost use Rattle.audit_sd.specs.sessions.PairOrder.{pairs_total};

    ghost partial_cmp = { λ x y. Some (pair_cmp x y) };

    ghost laws = { partial_order_from_agreeing_total pair_cmp pairs_total (λ x y. refl) (λ x y. refl) };

    fn partial_cmp(&self, other: &Pair) -> Option<Ordering> {
        Some(self.cmp(other))
    }
}

/// The addresses are compared as numbers: octet by octet takes longer, and each message looks for its pair.
impl Ord for Pair {
    ghost use Rattle.std.specs.Cmp.Rules.{comparing};
    ghost use Rattle.std.proofs.Common.{rules};
    ghost use Rattle.audit_sd.specs.sessions.SessionBooks.{pair_cmp};
    ghost use Rattle.audit_sd.specs.sessions.PairOrder.{pairs_total};

    ghost cmp = { pair_cmp };

    ghost total = { pairs_total };

    ghost matches_partial_cmp = { Prim.search (comparing, rules) };

    ghost matches_eq = { Prim.search (comparing, rules) };

    fn cmp(&self, other: &Pair) -> Ordering {
        match compare_addresses(&self.sender, &other.sender) {
            Ordering::Equal => compare_addresses(&self.destination, &other.destination),
            different => different,
        }
    }
}
