//! The flows of events that come in cycles.
ghost use Rattle.std.specs.Prelude.{◌≡◌, ◌≢◌, ◌≤◌, IfOk, OnErr, true, false};
ghost use Rattle.std.specs.FinMap as finite;
ghost use Rattle.someip_tables.specs.Waits.{HoldsFrom, due_by};
ghost use Rattle.someip_tables.specs.hashed.Dues.{WantsMemory};
ghost use Rattle.someip_tables.specs.hashed.Rooms.{may_hold};
ghost use Rattle.audit_traffic.specs.cycles.CycleRules.{falls_silent_at, watch_from};
ghost use Rattle.audit_traffic.specs.cycles.CycleTables.{FallsSilent, after_event, after_silent, told_by};
ghost use Rattle.audit_traffic.specs.cycles.CycleTables.{without, without_service, without_subscribed};

use crate::cycles::finding::{Finding, SilentEvent};
use crate::cycles::watch::Watch;
use crate::cycles::watch_place::WatchPlace;
use crate::cycles::watch_table::WatchTable;
use crate::events::EventFlow;
use someip_tables::Moment;
use someip_tables::hashed::{Numbers, Room};
use std::alloc::{AllocError, Global};
use std::marker::Model;
use std::net::Ipv4Addr;

/// The flows of events that come in cycles, each watched from its last event on.
#[derive(Drop)]
pub struct CycleBook {
    room: Room,
    watched: WatchTable,
}

impl Model for CycleBook {
    ghost use Rattle.std.specs.Prelude.{◌≤◌};
    ghost use Rattle.std.specs.FinMap as finite;
    ghost use Rattle.someip_tables.specs.Tables.{map_of};
    ghost use Rattle.audit_traffic.specs.events.FlowKeys.{flow_cmp};
    ghost use Rattle.audit_traffic.specs.cycles.CycleTables.{Cycles, coded_cycles};

    ghost Value = { Cycles };

    ghost coded = { coded_cycles };

    ghost view = { λ b. record {
      limit = b.room.limit;
      watched = map_of flow_cmp b.watched;
      told_full = b.room.told_full;
    } };

    ghost invariant = { λ b. finite.len (map_of flow_cmp b.watched) ≤ b.room.limit };
}

impl CycleBook {
    /// A book that watches at most so many flows, and none yet. It takes no memory.
    pub fn new(alloc: Global, limit: usize) -> CycleBook
        ensures { result ≡ record { limit = limit; watched = finite.empty; told_full = false } }
    {
        CycleBook {
            room: Room::new(limit),
            watched: WatchTable::new(alloc),
        }
    }

    /// Takes note of an event whose next one is to come so many milliseconds later, in a datagram with these
    /// numbers: its flow is watched from now on. Says where there is no room for that. What fell silent before
    /// is told by [`CycleBook::due`] alone. Memory is taken for a flow that was not watched, or for a new
    /// moment, and what is refused for want of it leaves the book as it was.
    pub fn came(
        &mut self,
        now: Moment,
        flow: EventFlow,
        cycle_ms: u32,
        numbers: Numbers,
    ) -> Result<Option<Finding>, AllocError>
        ensures told { IfOk result (λ told. told ≡ told_by flow self.old) }
        ensures after { IfOk result (λ told. self.new ≡ after_event now flow cycle_ms numbers self.old) }
        ensures err { OnErr result (self.new ≡ self.old) }
        ensures room { OnErr result (may_hold self.old.limit self.old.watched flow ≡ true) }
        ensures grows { OnErr result (WantsMemory falls_silent_at (finite.get self.old.watched flow)
            (falls_silent_at (watch_from now cycle_ms numbers))) }
    {
        let is_held = self.watched.get(&flow).is_some();
        if !self.room.may_hold(is_held, self.watched.len()) {
            return Ok(self.room.tell_full(Finding::Full));
        }
        self.watched
            .insert(flow, Watch::from(now, cycle_ms, numbers))?;
        Ok(None)
    }

    /// A subscription of a client to a service at an address ended: the events of the service from there to the
    /// client's address are watched no more, each until it comes again. It looks at these alone, and takes no
    /// memory.
    pub fn unsubscribed(&mut self, server: Ipv4Addr, service: u16, client: Ipv4Addr)
        ensures { self.new ≡ without_subscribed server service client self.old }
    {
        self.watched
            .end(WatchPlace::of_subscription(server, service, client));
    }

    /// A server withdrew an offer of a service: the events of the service at its address are watched no more,
    /// each until it comes again. It looks at these alone, and takes no memory.
    pub fn withdraw(&mut self, server: Ipv4Addr, service: u16)
        ensures { self.new ≡ without_service server service self.old }
    {
        self.watched.end(WatchPlace::of_service(server, service));
    }

    /// An address began again: the events from it and to it are watched no more, each until it comes again. It
    /// looks at these alone, and takes no memory.
    pub fn forget(&mut self, address: Ipv4Addr)
        ensures { self.new ≡ without address self.old }
    {
        self.watched.end(WatchPlace::of_address(address));
    }

    /// The event that fell silent first, by deadline and then by flow, if one did. It is watched no more until
    /// it comes again. Whoever goes over a recording asks until nothing is left, before each datagram, with the
    /// last moment at which no subscription had expired. It takes no memory.
    pub fn due(&mut self, now: Moment) -> Option<SilentEvent>
        ensures told { FallsSilent now self.old.watched result }
        ensures after { self.new ≡ after_silent result self.old }
    {
        let told = self.watched.first_silent(now);
        if let Some(silent) = told {
            self.watched.remove(&silent.flow);
        }
        told
    }

    /// When [`CycleBook::due`] next tells an event, in milliseconds: the first deadline, if one is watched.
    pub fn next_due(&self) -> Option<u64>
        ensures { HoldsFrom result (λ now. due_by falls_silent_at now self.now.watched ≢ finite.empty) }
    {
        match self.watched.first_due() {
            Some(due) => Some(due.at),
            None => None,
        }
    }

    /// How many flows are watched: no more than the book's limit.
    pub fn len(&self) -> usize
        ensures count { result ≡ finite.len self.now.watched }
        ensures few { result ≤ self.now.limit }
    {
        self.watched.len()
    }
}
