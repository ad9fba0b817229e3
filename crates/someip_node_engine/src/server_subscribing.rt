//! What a server does with Subscribes and StopSubscribes that come.
ghost use Rattle.std.specs.Prelude.{◌≡◌, ◌++◌, ◌∷◌, [], map, None, IfOk, OnOk, OnErr};
ghost use Rattle.std.specs.List.{flat_map, fold};
ghost use Rattle.sd_wire.specs.contents.Values.{view_entry};
ghost use Rattle.sd_core.specs.SubscriberTables.{nack_cause};
ghost use Rattle.someip_node_rules.specs.declared.output.Output.TheVariants.{Accepted, Nacked};
ghost use Rattle.someip_node_rules.specs.forms.Entries.{ack_entry};
ghost use Rattle.someip_node_rules.specs.histories.Items.{changed};
ghost use Rattle.someip_node_rules.specs.rules.Learning.{eventgroup_in};
ghost use Rattle.someip_node_rules.specs.forms.Outputs.{written};
ghost use Rattle.someip_node_rules.specs.rules.Plans.{act, plain, run, TakesStopSubscribe, TakesSubscribe};
ghost use Rattle.someip_node_rules.specs.forms.Setups.{has_eventgroup, offered_as};
ghost use Rattle.someip_node_rules.specs.rules.ServerSubscribing.{rules_by, rules_for, subscribe_by, subscribe_in};
ghost use Rattle.someip_node_rules.specs.histories.Tables.{live_subscribers};
ghost use Rattle.someip_node_engine.specs.Working.{working};

use crate::engine::Engine;
use crate::entry_making::ack_entry;
use crate::outputs::Giving;
use sd_core::{
    Cause, Eventgroup, InstanceId, Subscribe, SubscribeError, SubscribeRules, Subscription,
};
use sd_wire::{EventgroupEntry, Ttl};
use someip_node_rules::{Config, DropReason, OfferedService, Output};
use someip_tp::Reassembly;
use std::alloc::{AllocError, Global};
use std::net::{Ipv4Addr, SocketAddrV4};

impl<R: Reassembly> Engine<R> {
    /// A Subscribe comes, with this endpoint.
    pub(crate) fn subscribe_came(
        &mut self,
        peer: Ipv4Addr,
        head: &EventgroupEntry,
        endpoint: Option<SocketAddrV4>,
        giving: &mut Giving,
    ) -> Result<(), AllocError>
        ensures work { OnOk result (working self.new giving.new
            ≡ run plain (act (TakesSubscribe peer head.now endpoint))
            (working self.old giving.old)) }
        ensures config { self.new.config ≡ self.old.config }
    {
        let refusal = self.admit(peer, head, endpoint)?;
        tell_answer(self.alloc, peer, head, endpoint, refusal, giving)
    }

    /// Accepts a Subscribe, or gives the cause of its Nack. Memory runs out only where there is none.
    fn admit(
        &mut self,
        peer: Ipv4Addr,
        head: &EventgroupEntry,
        endpoint: Option<SocketAddrV4>,
    ) -> Result<Option<Cause>, AllocError>
        ensures refusal { IfOk result (λ refusal. refusal ≡ nack_cause (rules_for head.now self.old)
            (subscribe_in peer head.now endpoint) (live_subscribers self.old)) }
        ensures accepted { IfOk result (λ refusal. self.new ≡ fold changed self.old
            (subscribe_by head.now (subscribe_in peer head.now endpoint) refusal).items) }
        ensures wanting { OnErr result (nack_cause (rules_for head.now self.old)
            (subscribe_in peer head.now endpoint) (live_subscribers self.old) ≡ None) }
        ensures config { self.new.config ≡ self.old.config }
    {
        let rules = self.rules_for(head);
        let request = subscribe_in(peer, head, endpoint);
        match self.subscribers.subscribe(rules, request, self.clock) {
            Ok(()) => Ok(None),
            Err(SubscribeError::Nack(cause)) => Ok(Some(cause)),
            Err(SubscribeError::OutOfMemory) => Err(AllocError),
        }
    }

    /// What is known of the instance and the eventgroup that a Subscribe asks for.
    fn rules_for(&self, head: &EventgroupEntry) -> SubscribeRules
        ensures { result ≡ rules_for head.now self.now }
    {
        let up = self.offers.is_up(eventgroup_in(head).instance);
        rules_by(&self.config, head, up)
    }

    /// A StopSubscribe comes, with this endpoint.
    pub(crate) fn stop_subscribe_came(
        &mut self,
        peer: Ipv4Addr,
        head: &EventgroupEntry,
        endpoint: Option<SocketAddrV4>,
        giving: &mut Giving,
    ) -> Result<(), AllocError>
        ensures work { OnOk result (working self.new giving.new
            ≡ run plain (act (TakesStopSubscribe peer head.now endpoint))
            (working self.old giving.old)) }
        ensures config { self.new.config ≡ self.old.config }
    {
        let Some(endpoint) = endpoint else {
            return giving.dropped(DropReason::NoEndpoint);
        };
        let subscription = Subscription {
            instance: eventgroup_in(head).instance,
            eventgroup: head.eventgroup,
            peer,
            endpoint,
            counter: head.counter,
        };
        self.subscribers.stop(subscription, self.clock);
        Ok(())
    }
}

/// The eventgroup that an entry is about.
pub(crate) fn eventgroup_in(head: &EventgroupEntry) -> Eventgroup
    ensures { result ≡ eventgroup_in head.now }
{
    Eventgroup {
        instance: InstanceId {
            service: head.service,
            instance: head.instance,
        },
        id: head.eventgroup,
    }
}

/// A Subscribe of a peer, with this endpoint.
fn subscribe_in(peer: Ipv4Addr, head: &EventgroupEntry, endpoint: Option<SocketAddrV4>) -> Subscribe
    ensures { result ≡ subscribe_in peer head.now endpoint }
{
    Subscribe {
        instance: eventgroup_in(head).instance,
        eventgroup: head.eventgroup,
        peer,
        endpoint,
        counter: head.counter,
        ttl: head.ttl,
    }
}

/// What is known of the instance and the eventgroup that a Subscribe asks for.
fn rules_by(config: &Config, head: &EventgroupEntry, up: bool) -> SubscribeRules
    ensures { result
        ≡ rules_by head.now up (offered_as config.now (eventgroup_in head.now).instance) }
{
    match config.offers.get(&eventgroup_in(head).instance) {
        Some(service) => SubscribeRules {
            is_offered: up,
            is_same_major: service.rules.major == head.major,
            is_known_eventgroup: has_eventgroup(service, head.eventgroup),
            limit: service.subscribers,
        },
        None => SubscribeRules {
            is_offered: false,
            is_same_major: false,
            is_known_eventgroup: false,
            limit: 0,
        },
    }
}

/// Whether an event that an instance offers belongs to an eventgroup.
fn has_eventgroup(service: &OfferedService, eventgroup: u16) -> bool
    ensures { result ≡ has_eventgroup service.now eventgroup }
{
    service
        .rules
        .events
        .iter()
        .any(|(_, groups)| groups.contains(&eventgroup))
}

/// Tells that a Subscribe is accepted, or refused for this cause, and answers it by an Ack or a
/// Nack.
fn tell_answer(
    alloc: Global,
    peer: Ipv4Addr,
    head: &EventgroupEntry,
    endpoint: Option<SocketAddrV4>,
    refusal: Option<Cause>,
    giving: &mut Giving,
) -> Result<(), AllocError>
    ensures outputs { OnOk result (giving.new.outputs.items ≡ giving.old.outputs.items
        ++ flat_map written
        (subscribe_by head.now (subscribe_in peer head.now endpoint) refusal).given) }
    ensures replies { OnOk result (map view_entry giving.new.replies.items
        ≡ map view_entry giving.old.replies.items
        ++ (subscribe_by head.now (subscribe_in peer head.now endpoint) refusal).replies) }
{
    match refusal {
        Some(cause) => nack(alloc, head, cause, giving),
        None => match endpoint {
            Some(endpoint) => ack(alloc, head, endpoint, giving),
            None => Ok(()),
        },
    }
}

/// Tells that a Subscribe is accepted, and answers it by an Ack.
fn ack(
    alloc: Global,
    head: &EventgroupEntry,
    endpoint: SocketAddrV4,
    giving: &mut Giving,
) -> Result<(), AllocError>
    ensures outputs { OnOk result (giving.new.outputs.items ≡ giving.old.outputs.items
        ++ Accepted (eventgroup_in head.now) endpoint head.now.counter ∷ []) }
    ensures replies { OnOk result (map view_entry giving.new.replies.items
        ≡ map view_entry giving.old.replies.items ++ ack_entry head.now head.now.ttl ∷ []) }
{
    giving.outputs.push(Output::Accepted {
        eventgroup: eventgroup_in(head),
        endpoint,
        counter: head.counter,
    })?;
    giving.replies.push(ack_entry(alloc, head, head.ttl))?;
    Ok(())
}

/// Tells that a Subscribe is refused, and answers it by a Nack.
fn nack(
    alloc: Global,
    head: &EventgroupEntry,
    cause: Cause,
    giving: &mut Giving,
) -> Result<(), AllocError>
    ensures outputs { OnOk result (giving.new.outputs.items
        ≡ giving.old.outputs.items ++ Nacked (eventgroup_in head.now) cause ∷ []) }
    ensures replies { OnOk result (map view_entry giving.new.replies.items
        ≡ map view_entry giving.old.replies.items ++ ack_entry head.now 0 ∷ []) }
{
    giving.outputs.push(Output::Nacked {
        eventgroup: eventgroup_in(head),
        cause,
    })?;
    giving.replies.push(ack_entry(alloc, head, Ttl::ZERO))?;
    Ok(())
}
