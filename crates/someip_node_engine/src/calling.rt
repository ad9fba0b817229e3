//! The calls of the application, and their messages.
ghost use Rattle.std.specs.Prelude.{◌≡◌, ◌≤◌, ◌++◌, ◌∷◌, length, IfOk, IfErr, OnOk, OnErr, None, Some};
ghost use Rattle.someip_node_rules.specs.rules.Calling.{call_of, call_refusal_of, session_of, wanted_major};
ghost use Rattle.someip_node_rules.specs.forms.Outputs.{datagrams_of};
ghost use Rattle.someip_node_rules.specs.declared.output.Output.TheVariants as output;
ghost use Rattle.someip_wire.specs.View.{view};
ghost use Rattle.someip_node_engine.specs.Handled.{Handled, or_no_memory};
ghost use Rattle.someip_node_rules.specs.rules.Inputs as input;
ghost use Rattle.someip_node_rules.specs.histories.Items.{changed, Called};
ghost use Rattle.someip_node_rules.specs.forms.Setups.{client_endpoint};
ghost use Rattle.someip_node_rules.specs.histories.Tables.{known_endpoint};
ghost use Rattle.someip_rpc.specs.Calls.{call_header};
ghost use Rattle.someip_node_rules.specs.forms.GoodConfigs.{greatest_message_limit};

use crate::engine::Engine;
use crate::message_sending::send;
use crate::outputs::Giving;
use crate::own_config::client_rules;
use sd_core::InstanceId;
use someip_node_rules::{NodeError, Output};
use someip_rpc::{Call, CallKind, MessageId, Outgoing};
use someip_tp::Reassembly;
use std::alloc::AllocError;
use std::net::SocketAddrV4;

impl<R: Reassembly> Engine<R> {
    /// Calls a method of an instance.
    pub fn call(
        &mut self,
        kind: CallKind,
        instance: InstanceId,
        method: u16,
        payload: &[u8],
        giving: &mut Giving,
    ) -> Result<(), NodeError>
        ensures handled { Handled (input.Call kind instance method payload.now)
            self.old giving.old result self.new giving.new }
        ensures config { self.new.config ≡ self.old.config }
    {
        let call = self.call_of(kind, instance, method);
        let sent = self.begin_call(call, instance, payload)?;
        self.send_call(call.message, &sent, giving)?;
        Ok(())
    }

    /// What is called, in the wanted major version.
    fn call_of(&self, kind: CallKind, instance: InstanceId, method: u16) -> Call
        ensures { result ≡ call_of kind instance method self.now }
    {
        Call {
            kind,
            message: MessageId {
                service: instance.service,
                method,
            },
            interface: self.wanted_major(instance),
        }
    }

    /// The major version in which an instance is wanted, or 0.
    fn wanted_major(&self, instance: InstanceId) -> u8
        ensures { result ≡ wanted_major self.now.config instance }
    {
        match self.config.wants.get(&instance) {
            Some(want) => want.major,
            None => 0,
        }
    }

    /// Where an instance is reached, if an offer of it is known.
    pub(crate) fn known_endpoint(&self, instance: InstanceId) -> Option<SocketAddrV4>
        ensures { result ≡ known_endpoint self.now instance }
    {
        match self.seeker.known(instance, self.clock) {
            Some(known) => Some(known.endpoint),
            None => None,
        }
    }

    /// Lets a call begin, at the endpoint of the known offer.
    fn begin_call<'a>(
        &mut self,
        call: Call,
        instance: InstanceId,
        payload: &'a [u8],
    ) -> Result<Outgoing<'a>, NodeError>
        ensures accepted { OnOk result
            (call_refusal_of call.kind instance (length payload.now) self.old ≡ None) }
        ensures to { IfOk result (λ sent. known_endpoint self.old instance ≡ Some sent.to) }
        ensures from { IfOk result (λ sent. sent.from ≡ client_endpoint self.old.config) }
        ensures session { IfOk result (λ sent.
            sent.message.header.session ≡ session_of call self.old) }
        ensures header { IfOk result (λ sent. sent.message.header
            ≡ call_header self.old.config.client_id call (session_of call self.old)) }
        ensures payload { IfOk result (λ sent. sent.message.payload.now ≡ payload.now) }
        ensures short { OnOk result (length payload.now ≤ greatest_message_limit) }
        ensures called { IfOk result (λ sent. self.new
            ≡ changed self.old (Called call sent.to (session_of call self.old))) }
        ensures refused { IfErr result (λ error. error
            ≡ or_no_memory (call_refusal_of call.kind instance (length payload.now) self.old)) }
        ensures unchanged { OnErr result (self.new ≡ self.old) }
        ensures config { self.new.config ≡ self.old.config }
    {
        let rules = client_rules(&self.config);
        let offer = self.known_endpoint(instance);
        // Its contract says that few calls wait: so a session is free, and the next free one is taken.
        let _ = self.client.pending_calls();
        let sent = self.client.call(&rules, call, payload, offer, self.clock)?;
        Ok(sent)
    }

    /// Tells a call, and sends its message.
    fn send_call(
        &self,
        message: MessageId,
        sent: &Outgoing<'_>,
        giving: &mut Giving,
    ) -> Result<(), AllocError>
        requires { length sent.now.message.payload.now ≤ greatest_message_limit }
        ensures outputs { OnOk result (giving.new.outputs.items ≡ giving.old.outputs.items
            ++ output.Called message sent.now.message.header.session
            ∷ datagrams_of sent.now.from sent.now.to (view sent.now.message)) }
        ensures replies { giving.new.replies ≡ giving.old.replies }
    {
        giving.outputs.push(Output::Called {
            message,
            session: sent.message.header.session,
        })?;
        send(
            self.alloc,
            sent.from,
            sent.to,
            &sent.message,
            &mut giving.outputs,
        )
    }
}
