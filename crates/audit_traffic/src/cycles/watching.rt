//! The places of watches, in order beside their table.
ghost use Rattle.std.specs.Prelude.{◌≡◌, ◌≤◌, OnErr, OnOk, length, true, false};
ghost use Rattle.std.specs.FinMap as finite;
ghost use Rattle.someip_tables.specs.Tables.{map_of};
ghost use Rattle.audit_index.specs.Slots.{stands};
ghost use Rattle.audit_traffic.specs.events.FlowKeys.{flow_cmp};
ghost use Rattle.audit_traffic.specs.cycles.CycleTables.{FallsSilent};
ghost use Rattle.audit_traffic.specs.cycles.WatchPlaces.{AllStay, IsFound, OthersStay, place_cmp};
ghost use Rattle.audit_traffic.specs.cycles.WatchPlaces.{receiver_place, sender_place, service_place};
ghost use Rattle.audit_traffic.specs.cycles.WatchPlaces.{subscription_place};

use crate::cycles::finding::SilentEvent;
use crate::cycles::watch::Watch;
use crate::cycles::watch_place::{
    WatchPlace, receiver_place, sender_place, service_place, subscription_place,
};
use crate::events::EventFlow;
use audit_index::Index;
use someip_tables::Moment;
use someip_tables::hashed::DueTable;
use std::alloc::AllocError;

/// The flows that are watched.
pub(crate) type Watches = DueTable<EventFlow, Watch>;

/// The places at which they are found.
pub(crate) type Places = Index<WatchPlace, EventFlow>;

/// Puts a flow at its places, unless it is watched, and so there.
pub(crate) fn enter_unless(
    places: &mut Places,
    flow: EventFlow,
    is_watched: bool,
) -> Result<(), AllocError>
    ensures found { OnOk result (is_watched ≡ false → IsFound (stands place_cmp flow_cmp places.new) flow) }
    ensures stay { AllStay places.old places.new }
    ensures grows { OnErr result (is_watched ≡ false) }
{
    if is_watched {
        return Ok(());
    }
    enter(places, flow)
}

/// Puts a flow at its places.
fn enter(places: &mut Places, flow: EventFlow) -> Result<(), AllocError>
    ensures found { OnOk result (IsFound (stands place_cmp flow_cmp places.new) flow) }
    ensures stay { AllStay places.old places.new }
{
    enter_addresses(places, flow)?;
    enter_services(places, flow)
}

/// Puts a flow at the places of its addresses.
fn enter_addresses(places: &mut Places, flow: EventFlow) -> Result<(), AllocError>
    ensures sender { OnOk result (stands place_cmp flow_cmp places.new (sender_place flow) flow ≡ true) }
    ensures receiver { OnOk result (stands place_cmp flow_cmp places.new (receiver_place flow) flow ≡ true) }
    ensures stay { AllStay places.old places.new }
{
    put_at(places, sender_place(&flow), flow)?;
    put_at(places, receiver_place(&flow), flow)
}

/// Puts a flow at the places of its service.
fn enter_services(places: &mut Places, flow: EventFlow) -> Result<(), AllocError>
    ensures service { OnOk result (stands place_cmp flow_cmp places.new (service_place flow) flow ≡ true) }
    ensures subscription { OnOk result
        (stands place_cmp flow_cmp places.new (subscription_place flow) flow ≡ true) }
    ensures stay { AllStay places.old places.new }
{
    put_at(places, service_place(&flow), flow)?;
    put_at(places, subscription_place(&flow), flow)
}

/// Puts a flow at a place.
fn put_at(places: &mut Places, place: WatchPlace, flow: EventFlow) -> Result<(), AllocError>
    ensures put { OnOk result (stands place_cmp flow_cmp places.new place flow ≡ true) }
    ensures stay { AllStay places.old places.new }
{
    places.put(place, flow)?;
    Ok(())
}

/// Takes a flow out of its places.
fn leave(places: &mut Places, flow: &EventFlow)
    ensures stay { OthersStay flow.now places.old places.new }
    ensures fewer { length places.new ≤ length places.old }
{
    places.remove(sender_place(flow), *flow);
    places.remove(receiver_place(flow), *flow);
    places.remove(service_place(flow), *flow);
    places.remove(subscription_place(flow), *flow);
}

/// Ends the watch of a flow, and takes it out of its places.
pub(crate) fn drop_one(watches: &mut Watches, places: &mut Places, flow: &EventFlow)
    ensures gone { map_of flow_cmp watches.new ≡ finite.remove (map_of flow_cmp watches.old) flow.now }
    ensures stay { OthersStay flow.now places.old places.new }
    ensures fewer { length places.new ≤ length places.old }
{
    watches.remove(flow);
    leave(places, flow);
}

/// The event that fell silent first, if one did.
pub(crate) fn first_silent(watches: &Watches, now: Moment) -> Option<SilentEvent>
    ensures { FallsSilent now (map_of flow_cmp watches.now) result }
{
    let Some(due) = watches.first_due() else {
        return None;
    };
    if now.as_millis() < due.at {
        return None;
    }
    match watches.get(&due.key) {
        Some(watch) => Some(SilentEvent {
            at: watch.until,
            flow: due.key,
            silent_ms: watch.silent_ms,
            numbers: watch.numbers,
        }),
        None => None,
    }
}
