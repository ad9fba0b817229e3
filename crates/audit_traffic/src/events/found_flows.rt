//! The last event of each flow, and where it is found by what may disturb it.
ghost use Rattle.std.specs.Prelude.{◌≡◌, ◌<◌, IfNone, IfSome, OnErr, OnOk, None, not};
ghost use Rattle.std.specs.FinMap as finite;
ghost use Rattle.someip_tables.specs.Changed.{each_changed};
ghost use Rattle.someip_tables.specs.Tables.{map_of};
ghost use Rattle.audit_traffic.specs.events.EventRules.{is_at};
ghost use Rattle.audit_traffic.specs.events.EventTables.{receivers_of};
ghost use Rattle.audit_traffic.specs.events.FlowGroups.{once_came, once_changed, once_withdrawn};
ghost use Rattle.audit_traffic.specs.events.FlowKeys.{flow_cmp};

use crate::events::flow::EventFlow;
use crate::events::flow_place::all_groups;
use crate::events::flow_table::FlowTable;
use crate::events::forgetting::{forget_at, put_flow};
use crate::events::last_event::LastEvent;
use crate::events::notification::Notification;
use crate::events::offering::Offering;
use crate::events::route::Route;
use crate::events::steady::{disturb_at, put_steady};
use audit_index::Index;
use std::alloc::{AllocError, Global};
use std::marker::Model;
use std::net::Ipv4Addr;

/// The last event of each flow. Those that are not disturbed are found by what may disturb them, so that each
/// is disturbed once, and looked at no more until an event comes. Where memory for this was refused, all are
/// looked at from then on.
#[derive(Drop)]
pub(crate) struct FoundFlows {
    flows: FlowTable,
    ends: Index<Ipv4Addr, EventFlow>,
    routes: Index<Route, EventFlow>,
    offerings: Index<Offering, EventFlow>,
    is_whole: bool,
}

impl Model for FoundFlows {
    ghost use Rattle.std.specs.Prelude.{◌≡◌, List, true};
    ghost use Rattle.someip_tables.specs.Endpoints.{address_cmp};
    ghost use Rattle.someip_tables.specs.Tables.{map_of};
    ghost use Rattle.audit_index.specs.Slots.{stands};
    ghost use Rattle.audit_traffic.specs.events.FlowKeys.{flow_cmp};
    ghost use Rattle.audit_traffic.specs.events.FlowPlaces.{AreFound, offering_cmp, route_cmp};
    ghost use Rattle.audit_traffic.specs.declared.events.flow.EventFlow.{EventFlow};
    ghost use Rattle.audit_traffic.specs.declared.events.last_event.LastEvent.{LastEvent};

    ghost Value = { List (EventFlow × LastEvent) };

    ghost view = { λ f. f.flows };

    ghost invariant = { λ f. f.is_whole ≡ true
        → AreFound (stands address_cmp flow_cmp f.ends) (stands route_cmp flow_cmp f.routes)
        (stands offering_cmp flow_cmp f.offerings) (map_of flow_cmp f.flows) };
}

impl FoundFlows {
    /// No flow. It takes no memory.
    pub(crate) fn new(alloc: Global) -> FoundFlows
        ensures { map_of flow_cmp result ≡ finite.empty }
    {
        FoundFlows {
            flows: FlowTable::new(alloc),
            ends: Index::new(alloc),
            routes: Index::new(alloc),
            offerings: Index::new(alloc),
            is_whole: true,
        }
    }

    /// How many flows there are.
    pub(crate) fn len(&self) -> usize
        ensures { result ≡ finite.len (map_of flow_cmp self.now) }
    {
        self.flows.len()
    }

    /// To how many receivers the event of a flow goes.
    pub(crate) fn receivers(&self, flow: &EventFlow) -> usize
        ensures { result ≡ receivers_of flow.now (map_of flow_cmp self.now) }
    {
        self.flows.receivers(flow)
    }

    /// An event came: it is the last of its flow, and the other receivers of its source are told, if its flow is
    /// known. Says what the last event was before.
    pub(crate) fn came(&mut self, event: &Notification) -> Option<LastEvent>
        ensures had { result ≡ finite.get (map_of flow_cmp self.old) event.now.flow }
        ensures known { IfSome result (λ last. map_of flow_cmp self.new
            ≡ each_changed (once_came event.now) (map_of flow_cmp self.old)) }
        ensures none { IfNone result (map_of flow_cmp self.new ≡ map_of flow_cmp self.old) }
    {
        let last = self.flows.came(event)?;
        if last.is_disturbed && !put_steady(&mut self.routes, &mut self.offerings, &event.flow) {
            self.is_whole = false;
        }
        Some(last)
    }

    /// Adds a flow that is new, with its last event.
    pub(crate) fn add(&mut self, flow: &EventFlow, last: LastEvent) -> Result<(), AllocError>
        requires new { finite.get (map_of flow_cmp self.old) flow.now ≡ None }
        requires room { finite.len (map_of flow_cmp self.old) < usize.MAX }
        ensures ok { OnOk result (map_of flow_cmp self.new
            ≡ finite.insert (map_of flow_cmp self.old) flow.now last) }
        ensures err { OnErr result (map_of flow_cmp self.new ≡ map_of flow_cmp self.old) }
    {
        self.flows.add(flow, last)?;
        if !put_flow(&mut self.ends, &mut self.routes, &mut self.offerings, flow) {
            self.is_whole = false;
        }
        Ok(())
    }

    /// A subscription of a client to a service at a server began or ended.
    pub(crate) fn disturb(&mut self, client: Ipv4Addr, server: Ipv4Addr, service: u16)
        ensures { map_of flow_cmp self.new ≡ each_changed (once_changed client server service) (map_of flow_cmp self.old) }
    {
        if !self.is_whole {
            self.flows.disturb(client, server, service);
            return;
        }
        let to_client = Route {
            server,
            service,
            receiver: client,
        };
        let to_groups = Route {
            server,
            service,
            receiver: all_groups(),
        };
        disturb_at(&mut self.flows, &mut self.routes, to_client);
        disturb_at(&mut self.flows, &mut self.routes, to_groups);
    }

    /// A server withdrew an offer of a service.
    pub(crate) fn withdraw(&mut self, server: Ipv4Addr, service: u16)
        ensures { map_of flow_cmp self.new
            ≡ each_changed (once_withdrawn server service) (map_of flow_cmp self.old) }
    {
        if !self.is_whole {
            self.flows.withdraw(server, service);
            return;
        }
        let offering = Offering { server, service };
        disturb_at(&mut self.flows, &mut self.offerings, offering);
    }

    /// An address began again: the flows from it and to it are forgotten.
    pub(crate) fn forget(&mut self, address: Ipv4Addr)
        ensures { map_of flow_cmp self.new
            ≡ finite.retain_keys (map_of flow_cmp self.old) (λ flow. not (is_at address flow)) }
    {
        if !self.is_whole {
            self.flows.forget(address);
            return;
        }
        forget_at(
            &mut self.flows,
            &mut self.ends,
            &mut self.routes,
            &mut self.offerings,
            address,
        );
    }
}
