//! What tells subscriptions apart.
ghost use Rattle.audit_sd.specs.subscriptions.SubscriptionOrder.{exact_subscriptions};

use audit_index::compare_addresses;
use someip_tables::Key;
use std::cmp::Ordering;
use std::net::Ipv4Addr;

/// What tells subscriptions apart: by rising address of the client, then of the server, and then by the
/// numbers.
#[derive(Clone, Copy, Debug, PartialEq, Eq, Hash)]
pub struct SubscriptionKey {
    /// The address that subscribes.
    pub client: Ipv4Addr,
    /// The address that offers the service.
    pub server: Ipv4Addr,
    /// Service ID.
    pub service: u16,
    /// Instance ID.
    pub instance: u16,
    /// Major version.
    pub major: u8,
    /// Eventgroup ID.
    pub eventgroup: u16,
    /// The counter, which tells the subscriptions of one client to one eventgroup apart.
    pub counter: u8,
}

impl Key for SubscriptionKey {
    ghost exact = { exact_subscriptions };
}

impl PartialOrd for SubscriptionKey {
    ghost use Rattle.std.specs.Prelude.{Some, refl};
    ghost use Rattle.std.specs.Cmp.{partial_order_from_agreeing_total};
    ghost use Rattle.audit_sd.specs.subscriptions.SubscriptionKeys.{subscription_cmp};
    ghost use Rattle.audit_sd.specs.subscriptions.SubscriptionOrder.{subscriptions_total};
    ghost use Rattle.std.specs.Cmp.Rules.{comparing};
    ghost use Rattle.std.proofs.Common.{rules};

    ghost partial_cmp = { λ x y. Some (subscription_cmp x y) };

    ghost laws = { partial_order_from_agreeing_total subscription_cmp subscriptions_total (λ x y. refl) (Prim.search (comparing, rules)) };

    fn partial_cmp(&self, other: &SubscriptionKey) -> Option<Ordering> {
        Some(self.cmp(other))
    }
}

/// The addresses are compared as numbers: octet by octet takes longer, and each look at a table of subscriptions
/// compares many.
impl Ord for SubscriptionKey {
    ghost use Rattle.std.specs.Cmp.Rules.{comparing};
    ghost use Rattle.std.proofs.Common.{rules};
    ghost use Rattle.audit_sd.specs.subscriptions.SubscriptionKeys.{subscription_cmp};
    ghost use Rattle.audit_sd.specs.subscriptions.SubscriptionOrder.{subscriptions_total};

    ghost cmp = { subscription_cmp };

    ghost total = { subscriptions_total };

    ghost matches_partial_cmp = { Prim.search (comparing, rules) };

    ghost matches_eq = { Prim.search (comparing, rules) };

    fn cmp(&self, other: &SubscriptionKey) -> Ordering {
        match compare_addresses(&self.client, &other.client) {
            Ordering::Equal => {}
            different => return different,
        }
        match compare_addresses(&self.server, &other.server) {
            Ordering::Equal => {}
            different => return different,
        }
        let group = self
            .eventgroup
            .cmp(&other.eventgroup)
            .then(self.counter.cmp(&other.counter));
        let version = self.major.cmp(&other.major).then(group);
        let instance = self.instance.cmp(&other.instance).then(version);
        self.service.cmp(&other.service).then(instance)
    }
}
