//! The figures of a recording.
ghost use Rattle.std.specs.Prelude.{◌≡◌, IfOk, OnErr, OnOk, true};
ghost use Rattle.std.specs.FinMap as finite;
ghost use Rattle.std.specs.Map.Iter.{ShowsInOrder, deref_pair};
ghost use Rattle.someip_wire.specs.View.{view};
ghost use Rattle.audit_stats.specs.declared.discovery.DiscoveryFigures.{DiscoveryFigures};
ghost use Rattle.audit_stats.specs.declared.events.EventFigures.{EventFigures};
ghost use Rattle.audit_stats.specs.declared.keys.Flow.{Flow};
ghost use Rattle.audit_stats.specs.declared.keys.Way.{Way};
ghost use Rattle.audit_stats.specs.declared.methods.MethodFigures.{MethodFigures};
ghost use Rattle.audit_stats.specs.Stats.{BeganAgain, Came, Discovered, Lost, after_fact, fact_takes, has_told, no_stats, told_of_fact};

use crate::calls::{MethodTable, answered, called};
use crate::discovery::{DiscoveryChange, DiscoveryFigures};
use crate::events::{EventChange, EventFigures};
use crate::full::{FigureLimits, Full};
use crate::keys::{Flow, Way};
use crate::methods::MethodFigures;
use crate::sight::{Sight, sight_of};
use crate::table::Table;
use crate::wait_table::WaitTable;
use someip_wire::Message;
use std::alloc::{AllocError, Global};
use std::collections::btree_map;
use std::marker::Model;
use std::net::SocketAddrV4;

/// The figures of a recording, as far as it was read.
#[derive(Drop)]
pub struct Figures {
    methods: MethodTable,
    events: Table<Flow, EventFigures>,
    discovery: Table<Way, DiscoveryFigures>,
    waiting: WaitTable,
}

impl Model for Figures {
    ghost use Rattle.audit_stats.specs.Keys.{call_cmp, flow_cmp, way_cmp};
    ghost use Rattle.audit_stats.specs.Stats.{Stats, coded_stats};
    ghost use Rattle.audit_stats.specs.Tables.{held_by};

    ghost Value = { Stats };

    ghost coded = { coded_stats };

    ghost view = { λ f. record {
      methods = held_by flow_cmp f.methods;
      events = held_by flow_cmp f.events;
      discovery = held_by way_cmp f.discovery;
      waiting = held_by call_cmp f.waiting;
    } };
}

impl Figures {
    /// Figures that keep at most so much, and nothing yet. They take no memory.
    pub fn new(alloc: Global, limits: FigureLimits) -> Figures
        ensures { result ≡ no_stats limits }
    {
        Figures {
            methods: Table::new(alloc, limits.keys),
            events: Table::new(alloc, limits.keys),
            discovery: Table::new(alloc, limits.keys),
            waiting: WaitTable::new(alloc, limits.calls),
        }
    }

    /// Takes note of a message that is none of Service Discovery, or of a segment, at a moment in microseconds, and
    /// tells if there is no room for it. Moments never fall; after one that does, times count as 0. Memory is taken
    /// for a new key, for a call more that waits, and for a new bucket alone. What is refused for want of it leaves
    /// the figures as they were.
    pub fn saw(
        &mut self,
        now_us: u64,
        from: SocketAddrV4,
        to: SocketAddrV4,
        message: &Message<'_>,
    ) -> Result<Option<Full>, AllocError>
        ensures told { IfOk result (λ told. told ≡ told_of_fact (Came now_us from to (view message.now)) self.old) }
        ensures after { OnOk result (self.new ≡ after_fact (Came now_us from to (view message.now)) self.old) }
        ensures err { OnErr result (self.new ≡ self.old) }
        ensures grows { OnErr result (fact_takes (Came now_us from to (view message.now)) self.old ≡ true) }
    {
        match sight_of(from, to, message) {
            Sight::Nothing => Ok(None),
            Sight::Called(call, asks) => {
                called(&mut self.methods, &mut self.waiting, now_us, call, asks)
            }
            Sight::Answered(call, fails) => {
                answered(&mut self.methods, &mut self.waiting, now_us, call, fails)
            }
            Sight::Event(flow, load) => {
                let change = EventChange::Came(now_us, load);
                self.events.came(flow, change, Full::Events)
            }
        }
    }

    /// Takes note of a message of Service Discovery, and tells if there is no room for its way. What is refused for
    /// want of memory leaves the figures as they were.
    pub fn saw_discovery(&mut self, way: Way) -> Result<Option<Full>, AllocError>
        ensures told { IfOk result (λ told. told ≡ told_of_fact (Discovered way) self.old) }
        ensures after { OnOk result (self.new ≡ after_fact (Discovered way) self.old) }
        ensures err { OnErr result (self.new ≡ self.old) }
        ensures grows { OnErr result (fact_takes (Discovered way) self.old ≡ true) }
    {
        self.discovery
            .came(way, DiscoveryChange::Came, Full::Discovery)
    }

    /// Takes note that so many sessions of an event were told as lost, and tells if there is no room for it. What is
    /// refused for want of memory leaves the figures as they were.
    pub fn lost(&mut self, flow: Flow, number: u64) -> Result<Option<Full>, AllocError>
        ensures told { IfOk result (λ told. told ≡ told_of_fact (Lost flow number) self.old) }
        ensures after { OnOk result (self.new ≡ after_fact (Lost flow number) self.old) }
        ensures err { OnErr result (self.new ≡ self.old) }
        ensures grows { OnErr result (fact_takes (Lost flow number) self.old ≡ true) }
    {
        self.events
            .came(flow, EventChange::Lost(number), Full::Events)
    }

    /// Takes note that the sender of a way was told to have begun again, and tells if there is no room for the way.
    /// What is refused for want of memory leaves the figures as they were.
    pub fn began_again(&mut self, way: Way) -> Result<Option<Full>, AllocError>
        ensures told { IfOk result (λ told. told ≡ told_of_fact (BeganAgain way) self.old) }
        ensures after { OnOk result (self.new ≡ after_fact (BeganAgain way) self.old) }
        ensures err { OnErr result (self.new ≡ self.old) }
        ensures grows { OnErr result (fact_takes (BeganAgain way) self.old ≡ true) }
    {
        self.discovery
            .came(way, DiscoveryChange::BeganAgain, Full::Discovery)
    }

    /// Whether it was told that there is no room for something.
    pub fn has_told(&self, full: Full) -> bool
        ensures { result ≡ has_told full self.now }
    {
        match full {
            Full::Methods => self.methods.told_full(),
            Full::Events => self.events.told_full(),
            Full::Discovery => self.discovery.told_full(),
            Full::Calls => self.waiting.told_full(),
        }
    }

    /// The figures of methods, by rising flow.
    pub fn methods(&self) -> btree_map::Iter<'_, Flow, MethodFigures>
        ensures rest { result ≡ finite.entries self.now.methods.values }
        ensures runs { ShowsInOrder (deref_pair {K = Flow} {X = MethodFigures}) }
    {
        self.methods.iter()
    }

    /// The figures of events, by rising flow.
    pub fn events(&self) -> btree_map::Iter<'_, Flow, EventFigures>
        ensures rest { result ≡ finite.entries self.now.events.values }
        ensures runs { ShowsInOrder (deref_pair {K = Flow} {X = EventFigures}) }
    {
        self.events.iter()
    }

    /// The figures of Service Discovery, by rising way.
    pub fn discovery(&self) -> btree_map::Iter<'_, Way, DiscoveryFigures>
        ensures rest { result ≡ finite.entries self.now.discovery.values }
        ensures runs { ShowsInOrder (deref_pair {K = Way} {X = DiscoveryFigures}) }
    {
        self.discovery.iter()
    }
}
