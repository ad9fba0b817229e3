//! Events that were told, found by where they went.
ghost use Rattle.std.specs.Prelude.{◌≡◌, ◌≢◌, Some, not, true};
ghost use Rattle.std.specs.FinMap as finite;
ghost use Rattle.std.specs.Ordering.{eq_by_cmp};
ghost use Rattle.someip_tables.specs.Tables.{map_of};
ghost use Rattle.audit_index.specs.Places.{AreAt, AreOnTheWay};
ghost use Rattle.audit_index.specs.Slots.{stands};
ghost use Rattle.audit_sd.specs.receivers.DeliveryKeys.{delivery_cmp};
ghost use Rattle.audit_sd.specs.receivers.NotedEvents.{becomes_untold, is_noted};
ghost use Rattle.audit_sd.specs.receivers.ReceiverPlaces.{end_cmp, end_of};
ghost use Rattle.audit_sd.specs.declared.receivers.delivery.Delivery.{Delivery};
ghost use Rattle.audit_sd.specs.declared.receivers.event_end.EventEnd.{EventEnd};
ghost use Rattle.audit_sd.specs.declared.receivers.untelling.Noted.{Noted};

use crate::receivers::delivery::Delivery;
use crate::receivers::event_end::EventEnd;
use audit_index::Index;
use someip_tables::hashed::DueTable;
use someip_tables::{Waits, is_same_key};

/// That an event was told. It waits for nothing.
#[derive(Clone, Copy)]
pub(crate) struct Noted;

impl Waits for Noted {
    ghost use Rattle.audit_sd.specs.receivers.NotedEvents.{noted_waits};

    ghost moment = { noted_waits };

    fn waits_for(&self) -> Option<u64> {
        None
    }
}

/// Puts an event where it went, and says whether there was memory for it.
pub(crate) fn put_at(ends: &mut Index<EventEnd, Delivery>, delivery: &Delivery) -> bool
    ensures put { result ≡ true → stands end_cmp delivery_cmp ends.new (end_of delivery.now) delivery.now ≡ true }
    ensures stay { (end : EventEnd) (other : Delivery) → stands end_cmp delivery_cmp ends.old end other ≡ true
        → stands end_cmp delivery_cmp ends.new end other ≡ true }
{
    match ends.put(EventEnd::of(delivery), *delivery) {
        Ok(()) => true,
        Err(_) => false,
    }
}

/// Untells the events that went to an end. It looks at these alone.
pub(crate) fn untell_at(
    held: &mut DueTable<Delivery, Noted>,
    ends: &mut Index<EventEnd, Delivery>,
    end: EventEnd,
)
    requires { AreAt (λ delivery _. end_of delivery) is_noted (stands end_cmp delivery_cmp ends.old)
        (map_of delivery_cmp held.old) }
    ensures left { map_of delivery_cmp held.new ≡ finite.retain_keys (map_of delivery_cmp held.old)
        (λ delivery. not (eq_by_cmp end_cmp end (end_of delivery))) }
    ensures found { AreAt (λ delivery _. end_of delivery) is_noted (stands end_cmp delivery_cmp ends.new)
        (map_of delivery_cmp held.new) }
{
    while let Some(delivery) = ends.take(end) {
        untell_if_at(held, &end, &delivery);
    }
}

/// Untells an event, if it went to an end.
fn untell_if_at(held: &mut DueTable<Delivery, Noted>, end: &EventEnd, delivery: &Delivery)
    ensures way { AreOnTheWay (becomes_untold end.now) (map_of delivery_cmp held.old) (map_of delivery_cmp held.new) }
    ensures settled { (other : Delivery) (noted : Noted)
        → finite.get (map_of delivery_cmp held.new) other ≡ Some noted → is_noted other noted ≡ true
        → (finite.get (map_of delivery_cmp held.old) other ≡ Some noted)
        × (other ≡ delivery.now → end_of other ≢ end.now) }
{
    if is_same_key(end, &EventEnd::of(delivery)) {
        held.remove(delivery);
    }
}
