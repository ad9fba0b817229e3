//! The flows that are not disturbed, in order beside the table of all.
ghost use Rattle.std.specs.Prelude.{◌≡◌, ◌≢◌, Some, true};
ghost use Rattle.std.specs.FinMap as finite;
ghost use Rattle.someip_tables.specs.Changed.{each_changed};
ghost use Rattle.someip_tables.specs.Tables.{map_of};
ghost use Rattle.audit_index.specs.Places.{AreAt, AreOnTheWay};
ghost use Rattle.audit_index.specs.Slots.{stands};
ghost use Rattle.audit_traffic.specs.events.FlowKeys.{flow_cmp};
ghost use Rattle.audit_traffic.specs.events.FlowPlaces.{becomes_disturbed, is_steady, offering_cmp, offering_of};
ghost use Rattle.audit_traffic.specs.events.FlowPlaces.{once_disturbed_at, route_cmp, route_of};
ghost use Rattle.audit_traffic.specs.declared.events.flow.EventFlow.{EventFlow};
ghost use Rattle.audit_traffic.specs.declared.events.last_event.LastEvent.{LastEvent};
ghost use Rattle.audit_traffic.specs.declared.events.offering.Offering.{Offering};
ghost use Rattle.audit_traffic.specs.declared.events.route.Route.{Route};

use crate::events::flow::EventFlow;
use crate::events::flow_place::FlowPlace;
use crate::events::flow_table::FlowTable;
use crate::events::offering::Offering;
use crate::events::route::Route;
use audit_index::Index;
use someip_tables::is_same_key;

/// Puts a flow at its places, and says whether there was memory for it.
pub(crate) fn put_steady(
    routes: &mut Index<Route, EventFlow>,
    offerings: &mut Index<Offering, EventFlow>,
    flow: &EventFlow,
) -> bool
    ensures route { result ≡ true → stands route_cmp flow_cmp routes.new (route_of flow.now) flow.now ≡ true }
    ensures offering { result ≡ true
        → stands offering_cmp flow_cmp offerings.new (offering_of flow.now) flow.now ≡ true }
    ensures routes { (route : Route) (other : EventFlow)
        → stands route_cmp flow_cmp routes.old route other ≡ true
        → stands route_cmp flow_cmp routes.new route other ≡ true }
    ensures offerings { (offering : Offering) (other : EventFlow)
        → stands offering_cmp flow_cmp offerings.old offering other ≡ true
        → stands offering_cmp flow_cmp offerings.new offering other ≡ true }
{
    put_at(routes, flow) && put_at(offerings, flow)
}

/// Puts a flow at its place, and says whether there was memory for it.
fn put_at<P: FlowPlace>(places: &mut Index<P, EventFlow>, flow: &EventFlow) -> bool
    ensures put { result ≡ true → stands P.cmp flow_cmp places.new (P.place_of flow.now) flow.now ≡ true }
    ensures kept { (place : P) (other : EventFlow) → stands P.cmp flow_cmp places.old place other ≡ true
        → stands P.cmp flow_cmp places.new place other ≡ true }
{
    match places.put(P::of_flow(flow), *flow) {
        Ok(()) => true,
        Err(_) => false,
    }
}

/// Disturbs the flows at a place. It looks at those alone that are not disturbed yet.
pub(crate) fn disturb_at<P: FlowPlace>(
    flows: &mut FlowTable,
    places: &mut Index<P, EventFlow>,
    place: P,
)
    requires { AreAt (λ flow _. P.place_of flow) is_steady (stands P.cmp flow_cmp places.old)
        (map_of flow_cmp flows.old) }
    ensures after { map_of flow_cmp flows.new
        ≡ each_changed (once_disturbed_at P.cmp P.place_of place) (map_of flow_cmp flows.old) }
    ensures found { AreAt (λ flow _. P.place_of flow) is_steady (stands P.cmp flow_cmp places.new)
        (map_of flow_cmp flows.new) }
{
    while let Some(flow) = places.take(place) {
        disturb_if_at(flows, &place, &flow);
    }
}

/// Disturbs a flow, if it is at a place.
fn disturb_if_at<P: FlowPlace>(flows: &mut FlowTable, place: &P, flow: &EventFlow)
    ensures way { AreOnTheWay (becomes_disturbed P.cmp P.place_of place.now)
        (map_of flow_cmp flows.old) (map_of flow_cmp flows.new) }
    ensures settled { (other : EventFlow) (last : LastEvent)
        → finite.get (map_of flow_cmp flows.new) other ≡ Some last → is_steady other last ≡ true
        → (finite.get (map_of flow_cmp flows.old) other ≡ Some last)
        × (other ≡ flow.now → P.place_of other ≢ place.now) }
{
    if is_same_key(&P::of_flow(flow), place) {
        flows.disturb_one(flow);
    }
}
