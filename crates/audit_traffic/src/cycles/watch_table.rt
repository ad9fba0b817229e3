//! The flows that are watched, found by what may end their watches.
ghost use Rattle.std.specs.Prelude.{◌≡◌, OnErr, OnOk, not};
ghost use Rattle.std.specs.FinMap as finite;
ghost use Rattle.someip_tables.specs.Tables.{map_of};
ghost use Rattle.someip_tables.specs.hashed.Dues.{IsFirstDue, WantsMemory};
ghost use Rattle.audit_traffic.specs.events.FlowKeys.{flow_cmp};
ghost use Rattle.audit_traffic.specs.cycles.CycleRules.{falls_silent_at};
ghost use Rattle.audit_traffic.specs.cycles.CycleTables.{FallsSilent};
ghost use Rattle.audit_traffic.specs.cycles.WatchPlaces.{is_at};

use crate::cycles::ending::end_all;
use crate::cycles::finding::SilentEvent;
use crate::cycles::watch::Watch;
use crate::cycles::watch_place::WatchPlace;
use crate::cycles::watching::{Places, Watches, drop_one, enter_unless, first_silent};
use crate::events::EventFlow;
use audit_index::Index;
use someip_tables::Moment;
use someip_tables::hashed::{Due, DueTable};
use std::alloc::{AllocError, Global};
use std::marker::Model;

/// The flows that are watched. They are found by their addresses, their services and their receivers, without a
/// look at the rest.
#[derive(Drop)]
pub(crate) struct WatchTable {
    watches: Watches,
    places: Places,
}

impl Model for WatchTable {
    ghost use Rattle.std.specs.Prelude.{List};
    ghost use Rattle.someip_tables.specs.Tables.{map_of};
    ghost use Rattle.audit_index.specs.Slots.{stands};
    ghost use Rattle.audit_traffic.specs.declared.cycles.watch.Watch.{Watch};
    ghost use Rattle.audit_traffic.specs.declared.events.flow.EventFlow.{EventFlow};
    ghost use Rattle.audit_traffic.specs.events.FlowKeys.{flow_cmp};
    ghost use Rattle.audit_traffic.specs.cycles.WatchPlaces.{AreFound, place_cmp};

    ghost Value = { List (EventFlow × Watch) };

    ghost view = { λ t. t.watches };

    ghost invariant = { λ t. AreFound (stands place_cmp flow_cmp t.places) (map_of flow_cmp t.watches) };
}

impl WatchTable {
    /// None. It takes no memory.
    pub(crate) fn new(alloc: Global) -> WatchTable
        ensures { map_of flow_cmp result ≡ finite.empty }
    {
        WatchTable {
            watches: DueTable::new(alloc),
            places: Index::new(alloc),
        }
    }

    /// How many there are.
    pub(crate) fn len(&self) -> usize
        ensures { result ≡ finite.len (map_of flow_cmp self.now) }
    {
        self.watches.len()
    }

    /// The watch of a flow.
    pub(crate) fn get(&self, flow: &EventFlow) -> Option<Watch>
        ensures { result ≡ finite.get (map_of flow_cmp self.now) flow.now }
    {
        self.watches.get(flow)
    }

    /// A flow is watched, in place of an earlier watch of it. Memory is taken only where it was not watched, or
    /// for another moment, and where it is refused all is as it was.
    pub(crate) fn insert(&mut self, flow: EventFlow, watch: Watch) -> Result<(), AllocError>
        ensures ok { OnOk result
            (map_of flow_cmp self.new ≡ finite.insert (map_of flow_cmp self.old) flow watch) }
        ensures err { OnErr result (self.new ≡ self.old) }
        ensures grows { OnErr result (WantsMemory falls_silent_at
            (finite.get (map_of flow_cmp self.old) flow) (falls_silent_at watch)) }
    {
        let is_watched = self.watches.get(&flow).is_some();
        enter_unless(&mut self.places, flow, is_watched)?;
        self.watches.insert(flow, watch)?;
        Ok(())
    }

    /// The watch of a flow ends.
    pub(crate) fn remove(&mut self, flow: &EventFlow)
        ensures { map_of flow_cmp self.new ≡ finite.remove (map_of flow_cmp self.old) flow.now }
    {
        drop_one(&mut self.watches, &mut self.places, flow);
    }

    /// The watches at a place end.
    pub(crate) fn end(&mut self, place: WatchPlace)
        ensures { map_of flow_cmp self.new
            ≡ finite.retain_keys (map_of flow_cmp self.old) (λ flow. not (is_at place flow)) }
    {
        end_all(&mut self.watches, &mut self.places, place);
    }

    /// The event that fell silent first, if one did.
    pub(crate) fn first_silent(&self, now: Moment) -> Option<SilentEvent>
        ensures { FallsSilent now (map_of flow_cmp self.now) result }
    {
        first_silent(&self.watches, now)
    }

    /// The flow that falls silent first, by moment and then by flow, if one is watched.
    pub(crate) fn first_due(&self) -> Option<Due<EventFlow>>
        ensures { IsFirstDue falls_silent_at (map_of flow_cmp self.now) result }
    {
        self.watches.first_due()
    }
}
