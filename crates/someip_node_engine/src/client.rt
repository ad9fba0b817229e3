//! Messages that come to the node's client.
ghost use Rattle.std.specs.Prelude.{◌≡◌, ◌++◌, false, OnOk};
ghost use Rattle.std.specs.Option.{option_map_or};
ghost use Rattle.std.specs.Ordering.{eq_by_cmp};
ghost use Rattle.someip_tables.specs.Endpoints.{endpoint_cmp};
ghost use Rattle.someip_node_engine.specs.Arrivals.{payload_bytes, given_of_answer, given_of_event};
ghost use Rattle.someip_node_rules.specs.rules.Messages.{is_subscribed_by, publisher, is_event_of, takes_event};
ghost use Rattle.someip_node_rules.specs.rules.Plans.{act, plain, run, TakesAnswer, TakesEvent};
ghost use Rattle.someip_node_rules.specs.histories.Tables.{known_endpoint};
ghost use Rattle.someip_node_engine.specs.Working.{working};

use crate::engine::Engine;
use crate::outputs::Giving;
use crate::own_config::client_rules;
use crate::received_payload::ReceivedPayload;
use sd_core::{Eventgroup, InstanceId};
use someip_node_rules::{DropReason, Output, WantedService};
use someip_rpc::{CallKey, DropCause};
use someip_tables::is_same_key;
use someip_tp::Reassembly;
use someip_wire::Header;
use std::alloc::{AllocError, Global};
use std::collections::BTreeSet;
use std::net::SocketAddrV4;

impl<R: Reassembly> Engine<R> {
    /// Takes a message that comes to the client as the answer to a call.
    pub(crate) fn answer_came(
        &mut self,
        from: SocketAddrV4,
        header: &Header,
        payload: ReceivedPayload<'_>,
        giving: &mut Giving,
    ) -> Result<(), AllocError>
        ensures work { OnOk result (working self.new giving.new
            ≡ run plain (act (TakesAnswer from header.now (payload_bytes payload.entry)))
            (working self.old giving.old)) }
        ensures config { self.new.config ≡ self.old.config }
    {
        let rules = client_rules(&self.config);
        let answered = self.client.on_answer(&rules, from, header, self.clock);
        give_answer(self.alloc, answered, header, payload, &mut giving.outputs)
    }

    /// Takes a message that comes to the client as an event.
    pub(crate) fn event_came(
        &mut self,
        from: SocketAddrV4,
        header: &Header,
        payload: ReceivedPayload<'_>,
        giving: &mut Giving,
    ) -> Result<(), AllocError>
        ensures work { OnOk result (working self.new giving.new
            ≡ run plain (act (TakesEvent from header.now (payload_bytes payload.entry)))
            (working self.old giving.old)) }
        ensures config { self.new.config ≡ self.old.config }
    {
        let publisher = self.publisher(from, header);
        give_event(self.alloc, publisher, header, payload, &mut giving.outputs)
    }

    /// The instance that an event is of: the first one, by rising instance.
    fn publisher(&self, from: SocketAddrV4, header: &Header) -> Option<InstanceId>
        ensures { result ≡ publisher self.now from header.now }
    {
        for (instance, want) in &self.config.wants {
            if self.is_event_of(from, header, instance, want) {
                return Some(*instance);
            }
        }
        None
    }

    /// Whether an event is one of a wanted instance.
    fn is_event_of(
        &self,
        from: SocketAddrV4,
        header: &Header,
        instance: &InstanceId,
        want: &WantedService,
    ) -> bool
        ensures { result ≡ is_event_of self.now from header.now (instance.now, want.now) }
    {
        instance.service == header.service
            && want.major == header.interface
            && self.is_known_at(*instance, from)
            && self.takes_event(*instance, want, header.method)
    }

    /// Whether the offer that is known of an instance has this endpoint.
    fn is_known_at(&self, instance: InstanceId, from: SocketAddrV4) -> bool
        ensures { result ≡ option_map_or (λ endpoint. eq_by_cmp endpoint_cmp endpoint from)
            (known_endpoint self.now instance) false }
    {
        match self.seeker.known(instance, self.clock) {
            Some(known) => is_same_key(&known.endpoint, &from),
            None => false,
        }
    }

    /// Whether the client is subscribed to an eventgroup of an instance that has the event.
    fn takes_event(&self, instance: InstanceId, want: &WantedService, event: u16) -> bool
        ensures { result ≡ takes_event self.now instance want.now event }
    {
        for (id, events) in &want.groups {
            if self.is_subscribed_by(instance, *id, events, event) {
                return true;
            }
        }
        false
    }

    /// Whether the client is subscribed to an eventgroup, and the eventgroup has the event.
    fn is_subscribed_by(
        &self,
        instance: InstanceId,
        id: u16,
        events: &BTreeSet<u16>,
        event: u16,
    ) -> bool
        ensures { result ≡ is_subscribed_by self.now instance event (id, events.now) }
    {
        events.contains(&event)
            && self
                .subscriptions
                .is_subscribed(&Eventgroup { instance, id }, self.clock)
    }
}

/// Gives an answer that came, or says why it is dropped.
fn give_answer(
    alloc: Global,
    answered: Result<CallKey, DropCause>,
    header: &Header,
    payload: ReceivedPayload<'_>,
    outputs: &mut Vec<Output>,
) -> Result<(), AllocError>
    ensures { OnOk result (outputs.new.items
        ≡ outputs.old.items ++ given_of_answer header.now (payload_bytes payload.entry) answered) }
{
    let output = match answered {
        Ok(call) => Output::Answered {
            message: call.message,
            session: call.session,
            code: header.code,
            payload: payload.into_payload(alloc)?,
        },
        Err(cause) => Output::Dropped {
            reason: DropReason::Answer(cause),
        },
    };
    outputs.push(output)?;
    Ok(())
}

/// Gives an event that came, or says that the client is not subscribed to it.
fn give_event(
    alloc: Global,
    publisher: Option<InstanceId>,
    header: &Header,
    payload: ReceivedPayload<'_>,
    outputs: &mut Vec<Output>,
) -> Result<(), AllocError>
    ensures { OnOk result (outputs.new.items
        ≡ outputs.old.items ++ given_of_event header.now (payload_bytes payload.entry) publisher) }
{
    let output = match publisher {
        Some(instance) => Output::Event {
            instance,
            event: header.method,
            payload: payload.into_payload(alloc)?,
        },
        None => Output::Dropped {
            reason: DropReason::NotSubscribed,
        },
    };
    outputs.push(output)?;
    Ok(())
}
