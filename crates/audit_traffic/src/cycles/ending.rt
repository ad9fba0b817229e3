//! Several watches end at once: those at a place.
ghost use Rattle.std.specs.Prelude.{◌≡◌, ◌≤◌, length, not};
ghost use Rattle.std.specs.FinMap as finite;
ghost use Rattle.someip_tables.specs.Tables.{map_of};
ghost use Rattle.audit_index.specs.Places.{AreOnTheWay};
ghost use Rattle.audit_index.specs.Slots.{stands};
ghost use Rattle.audit_traffic.specs.events.FlowKeys.{flow_cmp};
ghost use Rattle.audit_traffic.specs.cycles.WatchPlaces.{AreFound, AreFoundBut, becomes_ended, is_at, place_cmp};

use crate::cycles::watch_place::{WatchPlace, is_at};
use crate::cycles::watching::{Places, Watches, drop_one};
use crate::events::EventFlow;

/// Ends the watches at a place. It looks at these alone.
pub(crate) fn end_all(watches: &mut Watches, places: &mut Places, place: WatchPlace)
    requires { AreFound (stands place_cmp flow_cmp places.old) (map_of flow_cmp watches.old) }
    ensures left { map_of flow_cmp watches.new
        ≡ finite.retain_keys (map_of flow_cmp watches.old) (λ flow. not (is_at place flow)) }
    ensures found { AreFound (stands place_cmp flow_cmp places.new) (map_of flow_cmp watches.new) }
{
    while let Some(flow) = places.take(place) {
        end_if_at(watches, places, &place, &flow);
    }
}

/// Ends the watch of a flow that is no longer found at a place, if the flow is at it.
fn end_if_at(watches: &mut Watches, places: &mut Places, place: &WatchPlace, flow: &EventFlow)
    requires { AreFoundBut place.now flow.now (stands place_cmp flow_cmp places.old) (map_of flow_cmp watches.old) }
    ensures way { AreOnTheWay (becomes_ended place.now) (map_of flow_cmp watches.old) (map_of flow_cmp watches.new) }
    ensures found { AreFound (stands place_cmp flow_cmp places.new) (map_of flow_cmp watches.new) }
    ensures fewer { length places.new ≤ length places.old }
{
    if is_at(place, flow) {
        drop_one(watches, places, flow);
    }
}
