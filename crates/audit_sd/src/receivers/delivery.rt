//! An event that went to one endpoint.
ghost use Rattle.audit_sd.specs.receivers.DeliveryOrder.{exact_deliveries};

use audit_index::compare_addresses;
use someip_tables::Key;
use someip_tables::hashed::{compare_endpoints, number_of_address, number_of_endpoint};
use std::cmp::Ordering;
use std::hash::{Hash, Hasher};
use std::net::{Ipv4Addr, SocketAddrV4};

/// An event that a server sent to one endpoint: by rising server, then by the numbers, and then by the
/// endpoint.
#[derive(Clone, Copy, Debug)]
pub struct Delivery {
    /// The address that it came from.
    pub server: Ipv4Addr,
    /// Service ID.
    pub service: u16,
    /// Event ID.
    pub event: u16,
    /// The endpoint that it went to.
    pub endpoint: SocketAddrV4,
}

impl Key for Delivery {
    ghost exact = { exact_deliveries };
}

/// By the order, which compares numbers: octet by octet takes longer.
impl PartialEq for Delivery {
    ghost use Rattle.std.specs.Ordering.{eq_by_cmp};
    ghost use Rattle.std.specs.Cmp.{partial_equiv_from_equiv, eq_by_cmp_equiv};
    ghost use Rattle.audit_sd.specs.receivers.DeliveryKeys.{delivery_cmp};
    ghost use Rattle.audit_sd.specs.receivers.DeliveryOrder.{deliveries_total};

    ghost eq = { eq_by_cmp delivery_cmp };

    ghost laws = { partial_equiv_from_equiv (eq_by_cmp_equiv deliveries_total) };

    fn eq(&self, other: &Delivery) -> bool {
        self.cmp(other).is_eq()
    }
}

impl Eq for Delivery {
    ghost use Rattle.std.specs.Cmp.{eq_by_cmp_equiv};
    ghost use Rattle.audit_sd.specs.receivers.DeliveryOrder.{deliveries_total};

    ghost laws = { eq_by_cmp_equiv deliveries_total };
}

impl PartialOrd for Delivery {
    ghost use Rattle.std.specs.Prelude.{Some, refl};
    ghost use Rattle.std.specs.Cmp.{partial_order_from_agreeing_total};
    ghost use Rattle.audit_sd.specs.receivers.DeliveryKeys.{delivery_cmp};
    ghost use Rattle.audit_sd.specs.receivers.DeliveryOrder.{deliveries_total};

    ghost partial_cmp = { λ x y. Some (delivery_cmp x y) };

    ghost laws = { partial_order_from_agreeing_total delivery_cmp deliveries_total (λ x y. refl) (λ x y. refl) };

    fn partial_cmp(&self, other: &Delivery) -> Option<Ordering> {
        Some(self.cmp(other))
    }
}

/// The address and the endpoint are compared as numbers: octet by octet takes longer.
impl Ord for Delivery {
    ghost use Rattle.std.specs.Cmp.Rules.{comparing};
    ghost use Rattle.std.proofs.Common.{rules};
    ghost use Rattle.audit_sd.specs.receivers.DeliveryKeys.{delivery_cmp};
    ghost use Rattle.audit_sd.specs.receivers.DeliveryOrder.{deliveries_total};

    ghost cmp = { delivery_cmp };

    ghost total = { deliveries_total };

    ghost matches_partial_cmp = { Prim.search (comparing, rules) };

    ghost matches_eq = { Prim.search (comparing, rules) };

    fn cmp(&self, other: &Delivery) -> Ordering {
        match compare_addresses(&self.server, &other.server) {
            Ordering::Equal => {}
            different => return different,
        }
        match self.service.cmp(&other.service) {
            Ordering::Equal => {}
            different => return different,
        }
        match self.event.cmp(&other.event) {
            Ordering::Equal => compare_endpoints(&self.endpoint, &other.endpoint),
            different => different,
        }
    }
}

impl Hash for Delivery {
    ghost use Rattle.std.proofs.Common.{ap};
    ghost use Rattle.someip_tables.proofs.DueLemmas.{test_is_true};
    ghost use Rattle.someip_tables.proofs.Entries.{same_by_test};
    ghost use Rattle.audit_sd.specs.receivers.DeliveryKeys.{delivery_fed};
    ghost use Rattle.audit_sd.specs.receivers.DeliveryOrder.{exact_deliveries};

    ghost hash_input = { delivery_fed };

    ghost respects_eq = { λ x y same. ap delivery_fed (same_by_test exact_deliveries x y (test_is_true same)) };

    fn hash<H: Hasher>(&self, state: &mut H) {
        let source = number_of_address(&self.server) * 65536 + u64::from(self.service);
        state.write_u64(source * 65536 + u64::from(self.event));
        state.write_u64(number_of_endpoint(&self.endpoint));
    }
}
