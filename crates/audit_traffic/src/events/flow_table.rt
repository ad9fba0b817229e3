//! The last event of each flow.
ghost use Rattle.std.specs.Prelude.{◌≡◌, ◌<◌, IfNone, IfSome, OnErr, OnOk, None, not};
ghost use Rattle.std.specs.FinMap as finite;
ghost use Rattle.someip_tables.specs.Changed.{changed_at, each_changed};
ghost use Rattle.someip_tables.specs.Tables.{map_of};
ghost use Rattle.audit_traffic.specs.events.EventRules.{disturbed, is_at};
ghost use Rattle.audit_traffic.specs.events.EventTables.{receivers_of};
ghost use Rattle.audit_traffic.specs.events.FlowGroups.{once_came, once_changed, once_withdrawn};
ghost use Rattle.audit_traffic.specs.events.FlowKeys.{flow_cmp};

use crate::events::flow::EventFlow;
use crate::events::groups;
use crate::events::groups::Groups;
use crate::events::last_event::LastEvent;
use crate::events::notification::Notification;
use crate::events::source::EventSource;
use std::alloc::{AllocError, Global};
use std::collections::HashMap;
use std::marker::Model;
use std::net::Ipv4Addr;

/// The last event of each flow. The receivers of one event of one sender stand together, and are found by its
/// hash, so that an event of a known flow takes one look, and two steps at most for each receiver.
#[derive(Drop)]
pub(crate) struct FlowTable {
    alloc: Global,
    groups: Groups,
    len: usize,
}

impl Model for FlowTable {
    ghost use Rattle.std.specs.Prelude.{◌≡◌, List, length};
    ghost use Rattle.audit_traffic.specs.events.FlowGroups.{AreFlows, flows_in};
    ghost use Rattle.audit_traffic.specs.declared.events.flow.EventFlow.{EventFlow};
    ghost use Rattle.audit_traffic.specs.declared.events.last_event.LastEvent.{LastEvent};

    ghost Value = { List (EventFlow × LastEvent) };

    ghost view = { λ t. flows_in t.groups.entries };

    ghost invariant = { λ t. AreFlows t.groups.entries × (t.len ≡ length (flows_in t.groups.entries)) };
}

impl FlowTable {
    /// A table without a flow. It takes no memory.
    pub(crate) fn new(alloc: Global) -> FlowTable
        ensures { map_of flow_cmp result ≡ finite.empty }
    {
        FlowTable {
            alloc,
            groups: HashMap::new(alloc),
            len: 0,
        }
    }

    /// How many flows there are.
    pub(crate) fn len(&self) -> usize
        ensures { result ≡ finite.len (map_of flow_cmp self.now) }
    {
        self.len
    }

    /// To how many receivers the event of a flow goes.
    pub(crate) fn receivers(&self, flow: &EventFlow) -> usize
        ensures { result ≡ receivers_of flow.now (map_of flow_cmp self.now) }
    {
        groups::receivers(&self.groups, flow)
    }

    /// An event came: it is the last of its flow, and the other receivers of its source are told, if its flow is
    /// known. Says what the last event was before.
    pub(crate) fn came(&mut self, event: &Notification) -> Option<LastEvent>
        ensures had { result ≡ finite.get (map_of flow_cmp self.old) event.now.flow }
        ensures known { IfSome result (λ last. map_of flow_cmp self.new
            ≡ each_changed (once_came event.now) (map_of flow_cmp self.old)) }
        ensures none { IfNone result (map_of flow_cmp self.new ≡ map_of flow_cmp self.old) }
    {
        groups::came(&mut self.groups, event)
    }

    /// Adds a flow that is new, with its last event.
    pub(crate) fn add(&mut self, flow: &EventFlow, last: LastEvent) -> Result<(), AllocError>
        requires new { finite.get (map_of flow_cmp self.old) flow.now ≡ None }
        requires room { finite.len (map_of flow_cmp self.old) < usize.MAX }
        ensures ok { OnOk result (map_of flow_cmp self.new
            ≡ finite.insert (map_of flow_cmp self.old) flow.now last) }
        ensures err { OnErr result (map_of flow_cmp self.new ≡ map_of flow_cmp self.old) }
    {
        groups::add(&mut self.groups, self.alloc, flow, last)?;
        self.len += 1;
        Ok(())
    }

    /// A flow is disturbed, if it is known.
    pub(crate) fn disturb_one(&mut self, flow: &EventFlow)
        ensures { map_of flow_cmp self.new ≡ changed_at flow.now disturbed (map_of flow_cmp self.old) }
    {
        groups::disturb_one(&mut self.groups, flow);
    }

    /// A flow is forgotten.
    pub(crate) fn forget_one(&mut self, flow: &EventFlow)
        ensures { map_of flow_cmp self.new ≡ finite.remove (map_of flow_cmp self.old) flow.now }
    {
        let was_known = groups::forget_one(&mut self.groups, flow);
        groups::drop_empty(&mut self.groups, &EventSource::of(flow));
        if was_known {
            self.len -= 1;
        }
    }

    /// A subscription of a client to a service at a server began or ended.
    pub(crate) fn disturb(&mut self, client: Ipv4Addr, server: Ipv4Addr, service: u16)
        ensures { map_of flow_cmp self.new ≡ each_changed (once_changed client server service) (map_of flow_cmp self.old) }
    {
        groups::disturb(&mut self.groups, client, server, service);
    }

    /// A server withdrew an offer of a service.
    pub(crate) fn withdraw(&mut self, server: Ipv4Addr, service: u16)
        ensures { map_of flow_cmp self.new
            ≡ each_changed (once_withdrawn server service) (map_of flow_cmp self.old) }
    {
        groups::withdraw(&mut self.groups, server, service);
    }

    /// An address began again: the flows from it and to it are forgotten.
    pub(crate) fn forget(&mut self, address: Ipv4Addr)
        ensures { map_of flow_cmp self.new
            ≡ finite.retain_keys (map_of flow_cmp self.old) (λ flow. not (is_at address flow)) }
    {
        groups::forget(&mut self.groups, address);
        self.len = groups::count(&self.groups);
    }
}
