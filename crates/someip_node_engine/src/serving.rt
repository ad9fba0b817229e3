//! Messages that come to an instance.
//!
//! A message that is no Service Discovery is told by its header (Message ID, version, type) and not by its
//! Service ID alone: a REQUEST that claims the service FFFF at an instance's port is answered by an ERROR
//! of that service.
ghost use Rattle.std.specs.Prelude.{◌≡◌, ◌++◌, ◌∷◌, [], IfOk, OnOk};
ghost use Rattle.std.specs.List.{flat_map};
ghost use Rattle.someip_rpc.specs.Requests.{BecomesOf, asked, request_fault};
ghost use Rattle.someip_rpc.specs.Servers.{after_arrival};
ghost use Rattle.someip_node_engine.specs.Arrivals.{payload_bytes, given_of};
ghost use Rattle.someip_node_rules.specs.rules.Messages.{handed_up};
ghost use Rattle.someip_node_rules.specs.forms.Outputs.{datagrams_of, written};
ghost use Rattle.someip_node_rules.specs.rules.Plans.{act, plain, run, TakesRequest};
ghost use Rattle.someip_node_engine.specs.Working.{working};

use crate::engine::Engine;
use crate::message_sending::send;
use crate::outputs::{Giving, tell_dropped};
use crate::received_payload::ReceivedPayload;
use sd_core::InstanceId;
use someip_node_rules::{DropReason, Output};
use someip_rpc::{Arrived, Outgoing, ServerCore, ServiceRules};
use someip_tp::Reassembly;
use someip_wire::{Header, Message};
use std::alloc::{AllocError, Global};
use std::net::SocketAddrV4;

impl<R: Reassembly> Engine<R> {
    /// Takes a message that comes to an instance.
    pub(crate) fn request_came(
        &mut self,
        instance: InstanceId,
        from: SocketAddrV4,
        header: &Header,
        payload: ReceivedPayload<'_>,
        giving: &mut Giving,
    ) -> Result<(), AllocError>
        ensures work { OnOk result (working self.new giving.new
            ≡ run plain (act (TakesRequest instance from header.now (payload_bytes payload.entry)))
            (working self.old giving.old)) }
        ensures config { self.new.config ≡ self.old.config }
    {
        let is_up = self.offers.is_up(instance);
        match self.config.offers.get(&instance) {
            Some(service) => {
                let arrived = arrive(&mut self.server, &service.rules, is_up, from, header)?;
                give_arrived(
                    self.alloc,
                    instance,
                    header,
                    payload,
                    arrived,
                    &mut giving.outputs,
                )
            }
            None => Ok(()),
        }
    }
}

/// Takes a message that comes to an instance, and says what becomes of it.
fn arrive(
    server: &mut ServerCore,
    rules: &ServiceRules,
    is_up: bool,
    from: SocketAddrV4,
    header: &Header,
) -> Result<Arrived, AllocError>
    ensures becomes { IfOk result (λ arrived. BecomesOf (asked rules.now from header.now)
        server.old.next header.now.kind
        (request_fault rules.now is_up header.now server.old.requests server.old.next) arrived) }
    ensures waits { IfOk result (λ arrived. server.new
        ≡ after_arrival (asked rules.now from header.now) arrived server.old) }
{
    match server.on_request(rules, is_up, from, header) {
        Ok(arrived) => Ok(arrived),
        Err(_) => Err(AllocError),
    }
}

/// Gives what became of a message that came to an instance.
fn give_arrived(
    alloc: Global,
    instance: InstanceId,
    header: &Header,
    payload: ReceivedPayload<'_>,
    arrived: Arrived,
    outputs: &mut Vec<Output>,
) -> Result<(), AllocError>
    ensures { OnOk result (outputs.new.items ≡ outputs.old.items
        ++ flat_map written (given_of instance header.now (payload_bytes payload.entry) arrived)) }
{
    match arrived {
        Arrived::Request(token) => {
            hand_up(alloc, instance, Some(token), header, payload, outputs)
        }
        Arrived::Oneway => hand_up(alloc, instance, None, header, payload, outputs),
        Arrived::Refused(answer) => refuse(alloc, &answer, outputs),
        Arrived::Dropped(fault) => tell_dropped(outputs, DropReason::Request(fault)),
    }
}

/// Sends the ERROR that refuses a request: without payload.
fn refuse(alloc: Global, answer: &Outgoing<'_>, outputs: &mut Vec<Output>) -> Result<(), AllocError>
    ensures { OnOk result (outputs.new.items ≡ outputs.old.items ++ datagrams_of answer.now.from
        answer.now.to (record { header = answer.now.message.header; payload = [] })) }
{
    let message = Message {
        header: answer.message.header,
        payload: &[],
    };
    send(alloc, answer.from, answer.to, &message, outputs)
}

/// Hands up a request, with a token where it waits for its answer.
fn hand_up(
    alloc: Global,
    instance: InstanceId,
    token: Option<u64>,
    header: &Header,
    payload: ReceivedPayload<'_>,
    outputs: &mut Vec<Output>,
) -> Result<(), AllocError>
    ensures { OnOk result (outputs.new.items
        ≡ outputs.old.items ++ handed_up instance token header.now (payload_bytes payload.entry) ∷ []) }
{
    let payload = payload.into_payload(alloc)?;
    outputs.push(Output::Request {
        token,
        instance,
        method: header.method,
        payload,
    })?;
    Ok(())
}
