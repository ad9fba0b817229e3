//! The last event of each flow.
ghost use Rattle.std.specs.Prelude.{◌≡◌, ◌<◌, IfOk, OnErr, true, false};
ghost use Rattle.std.specs.FinMap as finite;
ghost use Rattle.audit_traffic.specs.events.EventTables.{after_change, after_event, after_withdrawal};
ghost use Rattle.audit_traffic.specs.events.EventTables.{has_room, needs_memory, told_by, without};

use crate::events::finding::Finding;
use crate::events::flow::EventFlow;
use crate::events::found_flows::FoundFlows;
use crate::events::notification::Notification;
use crate::events::steps::{judge, renewed};
use someip_tables::hashed::Room;
use std::alloc::{AllocError, Global};
use std::marker::Model;
use std::net::Ipv4Addr;

/// The most receivers of one event of one sender: each event of it looks at them all.
const MOST_RECEIVERS: usize = 256;

/// The last event of each flow, as far as a recording was read.
#[derive(Drop)]
pub struct EventBook {
    room: Room,
    flows: FoundFlows,
}

impl Model for EventBook {
    ghost use Rattle.someip_tables.specs.Tables.{map_of};
    ghost use Rattle.audit_traffic.specs.events.FlowKeys.{flow_cmp};
    ghost use Rattle.audit_traffic.specs.events.EventTables.{Events, coded_events};

    ghost Value = { Events };

    ghost coded = { coded_events };

    ghost view = { λ b. record {
      limit = b.room.limit;
      flows = map_of flow_cmp b.flows;
      told_full = b.room.told_full;
    } };
}

impl EventBook {
    /// A book that holds at most so many flows, of one event of one sender 256, and none yet. It takes no
    /// memory.
    pub fn new(alloc: Global, limit: usize) -> EventBook
        ensures { result ≡ record { limit = limit; flows = finite.empty; told_full = false } }
    {
        EventBook {
            room: Room::new(limit),
            flows: FoundFlows::new(alloc),
        }
    }

    /// Takes note of an event, and says what it shows.
    ///
    /// One without a session shows nothing, nor does the first of a flow. One with the session of the
    /// last one is repeated, and one up to 64 sessions behind is behind: both leave the last one. One with
    /// neither of these nor the next session shows a gap, where nothing came since the last one by which
    /// events may have gone to nobody, and no other receiver got a session between; and it is the last
    /// one, whether a gap is told or not. Memory is taken for a new flow alone, and what is refused for want of it leaves the book as it was.
    pub fn saw(&mut self, event: Notification) -> Result<Option<Finding>, AllocError>
        ensures told { IfOk result (λ told. told ≡ told_by event self.old) }
        ensures after { IfOk result (λ told. self.new ≡ after_event event self.old) }
        ensures err { OnErr result (self.new ≡ self.old) }
        ensures grows { OnErr result (needs_memory event self.old ≡ true) }
    {
        if event.session == 0 {
            return Ok(None);
        }
        if let Some(last) = self.flows.came(&event) {
            return Ok(judge(!self.room.told_full, Some(last), event.session));
        }
        if !self.has_room(&event.flow) {
            return Ok(self.room.tell_full(Finding::Full));
        }
        self.flows.add(&event.flow, renewed(event.session, None))?;
        self.flows.came(&event);
        Ok(None)
    }

    /// Takes note that a subscription of a client to a service at a server began, by a Subscribe or an Ack, or
    /// ended, by a StopSubscribe or a Nack, or because it expired. No gap is told of the next event of that
    /// service from the server to that client, or to a multicast group. It takes no memory, and looks at these
    /// flows alone, unless memory was refused before.
    pub fn disturb(&mut self, client: Ipv4Addr, server: Ipv4Addr, service: u16)
        ensures { self.new ≡ after_change client server service self.old }
    {
        self.flows.disturb(client, server, service);
    }

    /// Takes note that a server withdrew an offer of a service by a StopOffer: no gap is told of the next
    /// event of each flow of that service. It takes no memory, and looks at these flows alone, unless memory
    /// was refused before.
    pub fn withdraw(&mut self, server: Ipv4Addr, service: u16)
        ensures { self.new ≡ after_withdrawal server service self.old }
    {
        self.flows.withdraw(server, service);
    }

    /// Forgets the flows from an address that began again, and those to it: the next event of each is
    /// the first. It takes no memory, and looks at these flows alone, unless memory was refused before.
    pub fn forget(&mut self, address: Ipv4Addr)
        ensures { self.new ≡ without address self.old }
    {
        self.flows.forget(address);
    }

    /// Whether there is room for a flow.
    fn has_room(&self, flow: &EventFlow) -> bool
        ensures room { result ≡ has_room self.now.limit flow.now self.now.flows }
        ensures fits { result ≡ true → finite.len self.now.flows < usize.MAX }
    {
        self.flows.len() < self.room.limit && self.flows.receivers(flow) < MOST_RECEIVERS
    }

    /// How many flows there are.
    pub fn len(&self) -> usize
        ensures { result ≡ finite.len self.now.flows }
    {
        self.flows.len()
    }
}
