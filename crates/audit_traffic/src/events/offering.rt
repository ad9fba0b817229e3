//! A service at an address.
ghost use Rattle.audit_traffic.specs.events.PlaceOrder.{exact_offerings};

use audit_index::compare_addresses;
use someip_tables::Key;
use std::cmp::Ordering;
use std::net::Ipv4Addr;

/// A service at an address.
#[derive(Clone, Copy, Debug, PartialEq, Eq)]
pub(crate) struct Offering {
    /// The address that offers it.
    pub(crate) server: Ipv4Addr,
    /// Service ID.
    pub(crate) service: u16,
}

impl Key for Offering {
    ghost exact = { exact_offerings };
}

impl PartialOrd for Offering {
    ghost use Rattle.std.specs.Prelude.{Some, refl};
    ghost use Rattle.std.specs.Cmp.{partial_order_from_agreeing_total};
    ghost use Rattle.audit_traffic.specs.events.FlowPlaces.{offering_cmp};
    ghost use Rattle.audit_traffic.specs.events.PlaceOrder.{offerings_total};
    ghost use Rattle.std.specs.Cmp.Rules.{comparing};
    ghost use Rattle.std.proofs.Common.{rules};

    ghost partial_cmp = { λ x y. Some (offering_cmp x y) };

    ghost laws = { partial_order_from_agreeing_total offering_cmp offerings_total (λ x y. refl) (Prim.search (comparing, rules)) };

    fn partial_cmp(&self, other: &Offering) -> Option<Ordering> {
        Some(self.cmp(other))
    }
}

/// The address is compared as a number: octet by octet takes longer.
impl Ord for Offering {
    ghost use Rattle.std.specs.Cmp.Rules.{comparing};
    ghost use Rattle.std.proofs.Common.{rules};
    ghost use Rattle.audit_traffic.specs.events.FlowPlaces.{offering_cmp};
    ghost use Rattle.audit_traffic.specs.events.PlaceOrder.{offerings_total};

    ghost cmp = { offering_cmp };

    ghost total = { offerings_total };

    ghost matches_partial_cmp = { Prim.search (comparing, rules) };

    ghost matches_eq = { Prim.search (comparing, rules) };

    fn cmp(&self, other: &Offering) -> Ordering {
        match compare_addresses(&self.server, &other.server) {
            Ordering::Equal => self.service.cmp(&other.service),
            different => different,
        }
    }
}
