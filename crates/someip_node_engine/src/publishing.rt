//! The events that the application publishes.
ghost use Rattle.std.specs.Prelude.{◌≡◌, ◌≤◌, ◌++◌, length, IfOk, OnOk};
ghost use Rattle.std.specs.List.{flat_map};
ghost use Rattle.someip_wire.specs.View.{view};
ghost use Rattle.someip_tables.specs.Lastings.{unexpired};
ghost use Rattle.sd_core.specs.SubscriberTables.{endpoints_of};
ghost use Rattle.someip_node_rules.specs.rules.Publishing.{eventgroups_of, subscriber_at};
ghost use Rattle.someip_node_engine.specs.Handled.{Handled};
ghost use Rattle.someip_node_rules.specs.rules.Inputs as input;
ghost use Rattle.someip_node_rules.specs.forms.Outputs.{datagrams_of};
ghost use Rattle.someip_node_engine.specs.Publishings.{Publishes, PublishesTo};
ghost use Rattle.someip_node_rules.specs.histories.Tables.{is_up};
ghost use Rattle.someip_node_rules.specs.forms.GoodConfigs.{greatest_message_limit};

use crate::engine::Engine;
use crate::message_sending::send;
use crate::outputs::Giving;
use sd_core::{InstanceId, Subscribers};
use someip_node_rules::{NodeError, OfferedService, Output};
use someip_rpc::{Publication, RpcError, ServerCore, Subscriber};
use someip_tables::Moment;
use someip_tp::Reassembly;
use std::alloc::{AllocError, Global};
use std::collections::BTreeSet;
use std::net::SocketAddrV4;

/// What a publication is bound by.
#[derive(Clone, Copy)]
struct Settings {
    alloc: Global,
    /// The instance that publishes.
    instance: InstanceId,
    /// Whether it is offered.
    is_up: bool,
    /// The greatest payload of a message, in bytes.
    limit: usize,
}

/// An event that is to be published.
#[derive(Clone, Copy)]
struct ToPublish<'p> {
    /// What its publication is bound by.
    settings: Settings,
    /// The event's ID.
    event: u16,
    payload: &'p [u8],
}

impl<R: Reassembly> Engine<R> {
    /// Publishes an event to each live endpoint of its eventgroups.
    pub fn publish(
        &mut self,
        instance: InstanceId,
        event: u16,
        payload: &[u8],
        giving: &mut Giving,
    ) -> Result<(), NodeError>
        ensures handled { Handled (input.Publish instance event payload.now)
            self.old giving.old result self.new giving.new }
        ensures config { self.new.config ≡ self.old.config }
    {
        let settings = self.settings(instance);
        let asked = ToPublish {
            settings,
            event,
            payload,
        };
        let Some(service) = self.config.offers.get(&instance) else {
            return Err(NodeError::Rpc(RpcError::NotOffered));
        };
        publish_by(
            &mut self.server,
            &self.subscribers,
            self.clock,
            service,
            asked,
            &mut giving.outputs,
        )
    }

    /// Publishes an event to one endpoint that is subscribed to an eventgroup.
    pub fn publish_to(
        &mut self,
        instance: InstanceId,
        eventgroup: u16,
        endpoint: SocketAddrV4,
        event: u16,
        payload: &[u8],
        giving: &mut Giving,
    ) -> Result<(), NodeError>
        ensures handled { Handled (input.PublishTo instance eventgroup endpoint event payload.now)
            self.old giving.old result self.new giving.new }
        ensures config { self.new.config ≡ self.old.config }
    {
        let settings = self.settings(instance);
        let asked = ToPublish {
            settings,
            event,
            payload,
        };
        let subscriber = self.subscriber_at(instance, eventgroup, endpoint);
        let Some(service) = self.config.offers.get(&instance) else {
            return Err(NodeError::Rpc(RpcError::NotOffered));
        };
        publish_to_by(
            &mut self.server,
            service,
            asked,
            subscriber,
            &mut giving.outputs,
        )
    }

    /// What a publication of an instance is bound by.
    fn settings(&self, instance: InstanceId) -> Settings
        ensures instance { result.instance ≡ instance }
        ensures up { result.is_up ≡ is_up self.now instance }
        ensures limit { result.limit ≡ self.now.config.common.message_limit }
        ensures bound { result.limit ≤ greatest_message_limit }
    {
        Settings {
            alloc: self.alloc,
            instance,
            is_up: self.offers.is_up(instance),
            limit: self.config.common.message_limit,
        }
    }

    /// An endpoint, and whether it has a live subscription to an eventgroup.
    fn subscriber_at(
        &self,
        instance: InstanceId,
        eventgroup: u16,
        endpoint: SocketAddrV4,
    ) -> Subscriber
        ensures { result ≡ subscriber_at instance eventgroup endpoint self.now }
    {
        Subscriber {
            eventgroup,
            endpoint,
            is_live: self
                .subscribers
                .is_live(instance, eventgroup, endpoint, self.clock),
        }
    }
}

/// Publishes an event to each live endpoint of its eventgroups.
fn publish_by(
    server: &mut ServerCore,
    subscribers: &Subscribers,
    now: Moment,
    service: &OfferedService,
    asked: ToPublish<'_>,
    outputs: &mut Vec<Output>,
) -> Result<(), NodeError>
    requires { asked.settings.limit ≤ greatest_message_limit }
    ensures { Publishes service.now.rules asked.entry.settings.is_up asked.entry.settings.limit asked.entry.event asked.entry.payload.now
        (endpoints_of asked.entry.settings.instance (eventgroups_of service.now asked.entry.event)
        (unexpired now subscribers.now)) server.old outputs.old.items result server.new outputs.new.items }
{
    let publication = server.publish(
        &service.rules,
        asked.settings.is_up,
        asked.settings.limit,
        asked.event,
        asked.payload,
    )?;
    let endpoints = live_endpoints(subscribers, now, service, asked)?;
    send_all(asked.settings.alloc, &publication, &endpoints, outputs)?;
    Ok(())
}

/// Publishes an event to one endpoint.
fn publish_to_by(
    server: &mut ServerCore,
    service: &OfferedService,
    asked: ToPublish<'_>,
    subscriber: Subscriber,
    outputs: &mut Vec<Output>,
) -> Result<(), NodeError>
    requires { asked.settings.limit ≤ greatest_message_limit }
    ensures { PublishesTo service.now.rules asked.entry.settings.is_up asked.entry.settings.limit subscriber asked.entry.event
        asked.entry.payload.now server.old outputs.old.items result server.new outputs.new.items }
{
    let sent = server.publish_to(
        &service.rules,
        asked.settings.is_up,
        asked.settings.limit,
        &subscriber,
        asked.event,
        asked.payload,
    )?;
    send(
        asked.settings.alloc,
        sent.from,
        sent.to,
        &sent.message,
        outputs,
    )?;
    Ok(())
}

/// The endpoints that an event of an instance goes to.
fn live_endpoints(
    subscribers: &Subscribers,
    now: Moment,
    service: &OfferedService,
    asked: ToPublish<'_>,
) -> Result<BTreeSet<SocketAddrV4>, AllocError>
    ensures { IfOk result (λ endpoints. endpoints.keys ≡ endpoints_of asked.entry.settings.instance
        (eventgroups_of service.now asked.entry.event) (unexpired now subscribers.now)) }
{
    let eventgroups = eventgroups_of(asked.settings.alloc, service, asked.event)?;
    subscribers.live(asked.settings.instance, &eventgroups, now)
}

/// The eventgroups that an event belongs to.
fn eventgroups_of(
    alloc: Global,
    service: &OfferedService,
    event: u16,
) -> Result<Vec<u16>, AllocError>
    ensures { IfOk result (λ eventgroups. eventgroups.items ≡ eventgroups_of service.now event) }
{
    match service.rules.events.get(&event) {
        Some(eventgroups) => eventgroups.iter().copied().collect(alloc),
        None => Ok(Vec::new(alloc)),
    }
}

/// Sends an event to each endpoint.
fn send_all(
    alloc: Global,
    publication: &Publication<'_>,
    endpoints: &BTreeSet<SocketAddrV4>,
    outputs: &mut Vec<Output>,
) -> Result<(), AllocError>
    requires { length publication.now.message.payload.now ≤ greatest_message_limit }
    ensures { OnOk result (outputs.new.items ≡ outputs.old.items ++ flat_map
        (λ to. datagrams_of publication.now.from to (view publication.now.message))
        endpoints.now.keys) }
{
    for to in endpoints {
        let sent = publication.to(*to);
        send(alloc, sent.from, sent.to, &sent.message, outputs)?;
    }
    Ok(())
}
