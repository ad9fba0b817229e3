//! Flows are found by their addresses, and forgotten with them.
ghost use Rattle.std.specs.Prelude.{◌≡◌, ◌≢◌, ◌≤◌, length, not, true};
ghost use Rattle.std.specs.FinMap as finite;
ghost use Rattle.someip_tables.specs.Endpoints.{address_cmp};
ghost use Rattle.someip_tables.specs.Tables.{map_of};
ghost use Rattle.audit_index.specs.Places.{AreOnTheWay};
ghost use Rattle.audit_index.specs.Slots.{stands};
ghost use Rattle.audit_traffic.specs.events.EventRules.{is_at};
ghost use Rattle.audit_traffic.specs.events.FlowKeys.{flow_cmp};
ghost use Rattle.audit_traffic.specs.events.FlowPlaces.{AreFound, AreFoundBut, becomes_forgotten, offering_cmp, offering_of};
ghost use Rattle.audit_traffic.specs.events.FlowPlaces.{receiver_of, route_cmp, route_of, sender_of};
ghost use Rattle.audit_traffic.specs.declared.events.flow.EventFlow.{EventFlow};
ghost use Rattle.audit_traffic.specs.declared.events.offering.Offering.{Offering};
ghost use Rattle.audit_traffic.specs.declared.events.route.Route.{Route};

use crate::events::flow::EventFlow;
use crate::events::flow_place::FlowPlace;
use crate::events::flow_table::FlowTable;
use crate::events::offering::Offering;
use crate::events::route::Route;
use crate::events::steady::put_steady;
use audit_index::Index;
use someip_tables::hashed::is_same_address;
use std::net::Ipv4Addr;

/// Puts a flow at its addresses and at its other places, and says whether there was memory for it.
pub(crate) fn put_flow(
    ends: &mut Index<Ipv4Addr, EventFlow>,
    routes: &mut Index<Route, EventFlow>,
    offerings: &mut Index<Offering, EventFlow>,
    flow: &EventFlow,
) -> bool
    ensures sender { result ≡ true → stands address_cmp flow_cmp ends.new (sender_of flow.now) flow.now ≡ true }
    ensures receiver { result ≡ true → stands address_cmp flow_cmp ends.new (receiver_of flow.now) flow.now ≡ true }
    ensures route { result ≡ true → stands route_cmp flow_cmp routes.new (route_of flow.now) flow.now ≡ true }
    ensures offering { result ≡ true
        → stands offering_cmp flow_cmp offerings.new (offering_of flow.now) flow.now ≡ true }
    ensures ends { (address : Ipv4Addr) (other : EventFlow)
        → stands address_cmp flow_cmp ends.old address other ≡ true
        → stands address_cmp flow_cmp ends.new address other ≡ true }
    ensures routes { (route : Route) (other : EventFlow)
        → stands route_cmp flow_cmp routes.old route other ≡ true
        → stands route_cmp flow_cmp routes.new route other ≡ true }
    ensures offerings { (offering : Offering) (other : EventFlow)
        → stands offering_cmp flow_cmp offerings.old offering other ≡ true
        → stands offering_cmp flow_cmp offerings.new offering other ≡ true }
{
    put_ends(ends, flow) && put_steady(routes, offerings, flow)
}

/// Puts a flow at its addresses, and says whether there was memory for it.
fn put_ends(ends: &mut Index<Ipv4Addr, EventFlow>, flow: &EventFlow) -> bool
    ensures sender { result ≡ true → stands address_cmp flow_cmp ends.new (sender_of flow.now) flow.now ≡ true }
    ensures receiver { result ≡ true → stands address_cmp flow_cmp ends.new (receiver_of flow.now) flow.now ≡ true }
    ensures kept { (address : Ipv4Addr) (other : EventFlow)
        → stands address_cmp flow_cmp ends.old address other ≡ true
        → stands address_cmp flow_cmp ends.new address other ≡ true }
{
    put_end(ends, *flow.sender.ip(), flow) && put_end(ends, *flow.receiver.ip(), flow)
}

/// Puts a flow at an address, and says whether there was memory for it.
fn put_end(ends: &mut Index<Ipv4Addr, EventFlow>, address: Ipv4Addr, flow: &EventFlow) -> bool
    ensures put { result ≡ true → stands address_cmp flow_cmp ends.new address flow.now ≡ true }
    ensures kept { (place : Ipv4Addr) (other : EventFlow)
        → stands address_cmp flow_cmp ends.old place other ≡ true
        → stands address_cmp flow_cmp ends.new place other ≡ true }
{
    match ends.put(address, *flow) {
        Ok(()) => true,
        Err(_) => false,
    }
}

/// Takes a flow out of all its places.
fn take_out(
    ends: &mut Index<Ipv4Addr, EventFlow>,
    routes: &mut Index<Route, EventFlow>,
    offerings: &mut Index<Offering, EventFlow>,
    flow: &EventFlow,
)
    ensures ends { (address : Ipv4Addr) (other : EventFlow) → other ≢ flow.now
        → stands address_cmp flow_cmp ends.old address other ≡ true
        → stands address_cmp flow_cmp ends.new address other ≡ true }
    ensures routes { (route : Route) (other : EventFlow) → other ≢ flow.now
        → stands route_cmp flow_cmp routes.old route other ≡ true
        → stands route_cmp flow_cmp routes.new route other ≡ true }
    ensures offerings { (offering : Offering) (other : EventFlow) → other ≢ flow.now
        → stands offering_cmp flow_cmp offerings.old offering other ≡ true
        → stands offering_cmp flow_cmp offerings.new offering other ≡ true }
    ensures fewer { length ends.new ≤ length ends.old }
{
    ends.remove(*flow.sender.ip(), *flow);
    ends.remove(*flow.receiver.ip(), *flow);
    routes.remove(Route::of_flow(flow), *flow);
    offerings.remove(Offering::of_flow(flow), *flow);
}

/// Forgets the flows from an address and to it. It looks at these alone.
pub(crate) fn forget_at(
    flows: &mut FlowTable,
    ends: &mut Index<Ipv4Addr, EventFlow>,
    routes: &mut Index<Route, EventFlow>,
    offerings: &mut Index<Offering, EventFlow>,
    address: Ipv4Addr,
)
    requires { AreFound (stands address_cmp flow_cmp ends.old) (stands route_cmp flow_cmp routes.old)
        (stands offering_cmp flow_cmp offerings.old) (map_of flow_cmp flows.old) }
    ensures after { map_of flow_cmp flows.new
        ≡ finite.retain_keys (map_of flow_cmp flows.old) (λ flow. not (is_at address flow)) }
    ensures found { AreFound (stands address_cmp flow_cmp ends.new) (stands route_cmp flow_cmp routes.new)
        (stands offering_cmp flow_cmp offerings.new) (map_of flow_cmp flows.new) }
{
    while let Some(flow) = ends.take(address) {
        forget_if_at(flows, ends, routes, offerings, &address, &flow);
    }
}

/// A flow that is no longer at an address is forgotten, if the address is one of its own.
fn forget_if_at(
    flows: &mut FlowTable,
    ends: &mut Index<Ipv4Addr, EventFlow>,
    routes: &mut Index<Route, EventFlow>,
    offerings: &mut Index<Offering, EventFlow>,
    address: &Ipv4Addr,
    flow: &EventFlow,
)
    requires { AreFoundBut address.now flow.now (stands address_cmp flow_cmp ends.old)
        (stands route_cmp flow_cmp routes.old) (stands offering_cmp flow_cmp offerings.old)
        (map_of flow_cmp flows.old) }
    ensures way { AreOnTheWay (becomes_forgotten address.now) (map_of flow_cmp flows.old)
        (map_of flow_cmp flows.new) }
    ensures found { AreFound (stands address_cmp flow_cmp ends.new) (stands route_cmp flow_cmp routes.new)
        (stands offering_cmp flow_cmp offerings.new) (map_of flow_cmp flows.new) }
    ensures fewer { length ends.new ≤ length ends.old }
{
    if is_at(flow, address) {
        flows.forget_one(flow);
        take_out(ends, routes, offerings, flow);
    }
}

/// Whether a flow is from an address or to it.
fn is_at(flow: &EventFlow, address: &Ipv4Addr) -> bool
    ensures { result ≡ is_at address.now flow.now }
{
    is_same_address(flow.sender.ip(), address) || is_same_address(flow.receiver.ip(), address)
}
