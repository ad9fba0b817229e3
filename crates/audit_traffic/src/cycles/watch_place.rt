//! Where the watch of a flow is found, by what may end it.
ghost use Rattle.std.specs.Prelude.{◌≡◌, None, Some};
ghost use Rattle.std.specs.Option.{option_cmp};
ghost use Rattle.someip_tables.specs.Endpoints.{address_cmp};
ghost use Rattle.audit_traffic.specs.cycles.PlaceOrder.{exact_places};
ghost use Rattle.audit_traffic.specs.cycles.WatchPlaces.{at_address, at_service, at_subscription, is_at};
ghost use Rattle.audit_traffic.specs.cycles.WatchPlaces.{receiver_place, sender_place, service_place};
ghost use Rattle.audit_traffic.specs.cycles.WatchPlaces.{subscription_place};

use crate::events::EventFlow;
use audit_index::compare_addresses;
use someip_tables::{Key, is_same_key};
use std::cmp::Ordering;
use std::net::Ipv4Addr;

/// A place at which the watches of flows are found: an address from which or to which they go, a service at the
/// address that they come from, or an address to which the events of such a service go.
#[derive(Clone, Copy, Debug)]
pub(crate) struct WatchPlace {
    /// The address.
    pub(crate) address: Ipv4Addr,
    /// Service ID, of a service at the address.
    pub(crate) service: Option<u16>,
    /// The address to which the events of the service go.
    pub(crate) receiver: Option<Ipv4Addr>,
}

impl Key for WatchPlace {
    ghost exact = { exact_places };
}

impl PartialEq for WatchPlace {
    ghost use Rattle.std.specs.Ordering.{eq_by_cmp};
    ghost use Rattle.std.specs.Cmp.{partial_equiv_from_equiv, eq_by_cmp_equiv};
    ghost use Rattle.audit_traffic.specs.cycles.WatchPlaces.{place_cmp};
    ghost use Rattle.audit_traffic.specs.cycles.PlaceOrder.{places_total};

    ghost eq = { eq_by_cmp place_cmp };

    ghost laws = { partial_equiv_from_equiv (eq_by_cmp_equiv places_total) };

    fn eq(&self, other: &WatchPlace) -> bool {
        self.cmp(other).is_eq()
    }
}

impl Eq for WatchPlace {
    ghost use Rattle.std.specs.Cmp.{eq_by_cmp_equiv};
    ghost use Rattle.audit_traffic.specs.cycles.PlaceOrder.{places_total};

    ghost laws = { eq_by_cmp_equiv places_total };
}

impl PartialOrd for WatchPlace {
    ghost use Rattle.std.specs.Prelude.{Some, refl};
    ghost use Rattle.std.specs.Cmp.{partial_order_from_agreeing_total};
    ghost use Rattle.audit_traffic.specs.cycles.WatchPlaces.{place_cmp};
    ghost use Rattle.audit_traffic.specs.cycles.PlaceOrder.{places_total};

    ghost partial_cmp = { λ x y. Some (place_cmp x y) };

    ghost laws = { partial_order_from_agreeing_total place_cmp places_total (λ x y. refl) (λ x y. refl) };

    fn partial_cmp(&self, other: &WatchPlace) -> Option<Ordering> {
        Some(self.cmp(other))
    }
}

/// The addresses are compared as numbers: octet by octet takes longer.
impl Ord for WatchPlace {
    ghost use Rattle.std.specs.Cmp.Rules.{comparing};
    ghost use Rattle.std.proofs.Common.{rules};
    ghost use Rattle.audit_traffic.specs.cycles.WatchPlaces.{place_cmp};
    ghost use Rattle.audit_traffic.specs.cycles.PlaceOrder.{places_total};

    ghost cmp = { place_cmp };

    ghost total = { places_total };

    ghost matches_partial_cmp = { Prim.search (comparing, rules) };

    ghost matches_eq = { Prim.search (comparing, rules) };

    fn cmp(&self, other: &WatchPlace) -> Ordering {
        match compare_addresses(&self.address, &other.address) {
            Ordering::Equal => {}
            different => return different,
        }
        match self.service.cmp(&other.service) {
            Ordering::Equal => compare_receivers(&self.receiver, &other.receiver),
            different => different,
        }
    }
}

/// Two addresses that may be missing, in order: none comes first.
fn compare_receivers(receiver: &Option<Ipv4Addr>, other: &Option<Ipv4Addr>) -> Ordering
    ensures { result ≡ option_cmp address_cmp receiver.now other.now }
{
    match (receiver, other) {
        (Some(receiver), Some(other)) => compare_addresses(receiver, other),
        (Some(_), None) => Ordering::Greater,
        (None, Some(_)) => Ordering::Less,
        (None, None) => Ordering::Equal,
    }
}

impl WatchPlace {
    /// Of what goes from or to an address.
    pub(crate) fn of_address(address: Ipv4Addr) -> WatchPlace
        ensures { result ≡ at_address address }
    {
        WatchPlace {
            address,
            service: None,
            receiver: None,
        }
    }

    /// Of the events of a service at an address.
    pub(crate) fn of_service(server: Ipv4Addr, service: u16) -> WatchPlace
        ensures { result ≡ at_service server service }
    {
        WatchPlace {
            address: server,
            service: Some(service),
            receiver: None,
        }
    }

    /// Of the events of a service at an address that go to another one.
    pub(crate) fn of_subscription(server: Ipv4Addr, service: u16, receiver: Ipv4Addr) -> WatchPlace
        ensures { result ≡ at_subscription server service receiver }
    {
        WatchPlace {
            address: server,
            service: Some(service),
            receiver: Some(receiver),
        }
    }
}

/// The place of a flow by its sender.
pub(crate) fn sender_place(flow: &EventFlow) -> WatchPlace
    ensures { result ≡ sender_place flow.now }
{
    WatchPlace::of_address(*flow.sender.ip())
}

/// The place of a flow by its receiver.
pub(crate) fn receiver_place(flow: &EventFlow) -> WatchPlace
    ensures { result ≡ receiver_place flow.now }
{
    WatchPlace::of_address(*flow.receiver.ip())
}

/// The place of a flow by its service.
pub(crate) fn service_place(flow: &EventFlow) -> WatchPlace
    ensures { result ≡ service_place flow.now }
{
    WatchPlace::of_service(*flow.sender.ip(), flow.service)
}

/// The place of a flow by the subscriptions by which it may go.
pub(crate) fn subscription_place(flow: &EventFlow) -> WatchPlace
    ensures { result ≡ subscription_place flow.now }
{
    WatchPlace::of_subscription(*flow.sender.ip(), flow.service, *flow.receiver.ip())
}

/// Whether a flow is at a place.
pub(crate) fn is_at(place: &WatchPlace, flow: &EventFlow) -> bool
    ensures { result ≡ is_at place.now flow.now }
{
    is_same_key(&sender_place(flow), place)
        || is_same_key(&receiver_place(flow), place)
        || is_same_key(&service_place(flow), place)
        || is_same_key(&subscription_place(flow), place)
}
