//! From which endpoint to which one messages go.
ghost use Rattle.audit_traffic.specs.ways.WayOrder.{exact_ways};

use someip_tables::Key;
use someip_tables::hashed::compare_endpoints;
use std::cmp::Ordering;
use std::net::SocketAddrV4;

/// From one endpoint to another: by rising endpoint that messages come from, and then by the one that they
/// go to.
#[derive(Clone, Copy, Debug, PartialEq, Eq)]
pub struct Way {
    /// Where messages come from.
    pub from: SocketAddrV4,
    /// Where they go to.
    pub to: SocketAddrV4,
}

impl Key for Way {
    ghost exact = { exact_ways };
}

impl PartialOrd for Way {
    ghost use Rattle.std.specs.Prelude.{Some, refl};
    ghost use Rattle.std.specs.Cmp.{partial_order_from_agreeing_total};
    ghost use Rattle.audit_traffic.specs.ways.WayKeys.{way_cmp};
    ghost use Rattle.audit_traffic.specs.ways.WayOrder.{ways_total};
    ghost use Rattle.std.specs.Cmp.Rules.{comparing};
    ghost use Rattle.std.proofs.Common.{rules};

    ghost partial_cmp = { λ x y. Some (way_cmp x y) };

    ghost laws = { partial_order_from_agreeing_total way_cmp ways_total (λ x y. refl) (Prim.search (comparing, rules)) };

    fn partial_cmp(&self, other: &Way) -> Option<Ordering> {
        Some(self.cmp(other))
    }
}

/// The endpoints are compared as numbers: octet by octet takes longer, and each message looks at the ways.
impl Ord for Way {
    ghost use Rattle.std.specs.Cmp.Rules.{comparing};
    ghost use Rattle.std.proofs.Common.{rules};
    ghost use Rattle.audit_traffic.specs.ways.WayKeys.{way_cmp};
    ghost use Rattle.audit_traffic.specs.ways.WayOrder.{ways_total};

    ghost cmp = { way_cmp };

    ghost total = { ways_total };

    ghost matches_partial_cmp = { Prim.search (comparing, rules) };

    ghost matches_eq = { Prim.search (comparing, rules) };

    fn cmp(&self, other: &Way) -> Ordering {
        match compare_endpoints(&self.from, &other.from) {
            Ordering::Equal => compare_endpoints(&self.to, &other.to),
            different => different,
        }
    }
}

/// A way that messages went, while none came back.
#[derive(Clone, Copy, Debug, PartialEq, Eq)]
pub struct OneWay {
    /// The way.
    pub way: Way,
    /// How many messages went it.
    pub messages: usize,
}
