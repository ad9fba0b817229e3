//! Datagrams that come.
//!
//! That no message of the application reaches Service Discovery, or nothing, is a condition of the
//! functions of `someip_node_engine` that take one (`is_of_application`), which their callers show; the
//! definitions of plans keep one type for all targets.
ghost use Rattle.std.specs.Prelude.{◌≡◌, OnOk};
ghost use Rattle.someip_wire.specs.View.{view, view_item};
ghost use Rattle.someip_node_engine.specs.Arrivals.{payload_bytes, reached_item_plan, target_at};
ghost use Rattle.someip_node_rules.specs.rules.Handling.{datagram_plan, instance_target, message_plan};
ghost use Rattle.someip_node_rules.specs.rules.Handling.{own_target, target_of, whole_plan};
ghost use Rattle.someip_node_engine.specs.Handled.{Handled};
ghost use Rattle.someip_node_rules.specs.rules.Inputs as input;
ghost use Rattle.someip_node_rules.specs.rules.Plans.{plain, run};
ghost use Rattle.someip_node_rules.specs.forms.Setups.{instance_at};
ghost use Rattle.someip_node_engine.specs.Working.{working};

use crate::arrival::{Addressee, Arrival, Reached, reached_from};
use crate::engine::Engine;
use crate::outputs::Giving;
use crate::received_payload::ReceivedPayload;
use sd_core::InstanceId;
use sd_session::Channel;
use someip_node_rules::{Config, DropReason, NodeError, Target};
use someip_tables::is_same_key;
use someip_tp::Reassembly;
use someip_wire::{Header, Message, MessageType, Messages, WireError};
use std::alloc::AllocError;
use std::net::SocketAddrV4;

impl<R: Reassembly> Engine<R> {
    /// Takes a datagram.
    pub fn take_datagram(
        &mut self,
        from: SocketAddrV4,
        to: SocketAddrV4,
        bytes: &[u8],
        giving: &mut Giving,
    ) -> Result<(), NodeError>
        ensures handled { Handled (input.Datagram from to bytes.now)
            self.old giving.old result self.new giving.new }
        ensures config { self.new.config ≡ self.old.config }
    {
        self.datagram(from, to, bytes, giving)?;
        Ok(())
    }

    /// Takes a datagram that comes from an endpoint to another: its messages one after the other, and the
    /// fault that ends it.
    fn datagram(
        &mut self,
        from: SocketAddrV4,
        to: SocketAddrV4,
        bytes: &[u8],
        giving: &mut Giving,
    ) -> Result<(), AllocError>
        ensures work { OnOk result (working self.new giving.new
            ≡ run plain (datagram_plan from to bytes.now) (working self.old giving.old)) }
        ensures config { self.new.config ≡ self.old.config }
    {
        if is_same_key(from.ip(), &self.config.address) {
            return giving.dropped(DropReason::Own);
        }
        let Some(reached) = reached_from(from, to, self.target_of(to)) else {
            return giving.dropped(DropReason::NoPort);
        };
        for item in Messages::new(bytes) {
            self.item(&reached, &item, giving)?;
        }
        Ok(())
    }

    /// What is reached at an endpoint.
    fn target_of(&self, to: SocketAddrV4) -> Target
        ensures { result ≡ target_of self.now.config to }
    {
        if is_same_key(to.ip(), &self.config.address) {
            self.own_target(to.port())
        } else if is_same_key(to.ip(), &self.config.common.group)
            && to.port() == Config::DISCOVERY_PORT
        {
            Target::Discovery(Channel::Multicast)
        } else {
            Target::Nowhere
        }
    }

    /// What is reached at a port of the node.
    fn own_target(&self, port: u16) -> Target
        ensures { result ≡ own_target self.now.config port }
    {
        if port == Config::DISCOVERY_PORT {
            Target::Discovery(Channel::Unicast)
        } else if port == self.config.client_port {
            Target::Client
        } else {
            instance_target(self.instance_at(port))
        }
    }

    /// The instance at a port.
    fn instance_at(&self, port: u16) -> Option<InstanceId>
        ensures { result ≡ instance_at self.now.config port }
    {
        self.ports.get(&port).copied()
    }

    /// Takes a message of a datagram by what this reached, or the fault that ends it.
    fn item(
        &mut self,
        reached: &Reached,
        item: &Result<Message<'_>, WireError>,
        giving: &mut Giving,
    ) -> Result<(), AllocError>
        ensures work { OnOk result (working self.new giving.new
            ≡ run plain (reached_item_plan reached.now (view_item item.now))
            (working self.old giving.old)) }
        ensures config { self.new.config ≡ self.old.config }
    {
        let message = match item {
            Ok(message) => message,
            Err(fault) => return giving.dropped(DropReason::Wire(*fault)),
        };
        match reached {
            Reached::Discovery(peer, channel) => {
                self.discovery_came(*peer, *channel, message, giving)
            }
            Reached::Application(arrival) => self.message(arrival, message, giving),
        }
    }

    /// Takes a message of the application: whole, or as a segment.
    fn message(
        &mut self,
        arrival: &Arrival,
        message: &Message<'_>,
        giving: &mut Giving,
    ) -> Result<(), AllocError>
        ensures work { OnOk result (working self.new giving.new
            ≡ run plain (message_plan (target_at arrival.now.addressee) arrival.now.from
            arrival.now.to (view message.now)) (working self.old giving.old)) }
        ensures config { self.new.config ≡ self.old.config }
    {
        if message.header.kind.has_tp_flag() {
            self.segment(arrival, &message.header, message.payload, giving)
        } else {
            let payload = ReceivedPayload::Lent(message.payload);
            self.whole(arrival, &message.header, payload, giving)
        }
    }

    /// Takes a whole message of the application: a request comes to an instance, and to the client an
    /// event, or else an answer.
    pub(crate) fn whole(
        &mut self,
        arrival: &Arrival,
        header: &Header,
        payload: ReceivedPayload<'_>,
        giving: &mut Giving,
    ) -> Result<(), AllocError>
        ensures work { OnOk result (working self.new giving.new
            ≡ run plain (whole_plan (target_at arrival.now.addressee) arrival.now.from header.now
            (payload_bytes payload.entry)) (working self.old giving.old)) }
        ensures config { self.new.config ≡ self.old.config }
    {
        let from = arrival.from;
        match (arrival.addressee, header.kind) {
            (Addressee::Instance(instance), _) => {
                self.request_came(instance, from, header, payload, giving)
            }
            (Addressee::Client, MessageType::Notification) => {
                self.event_came(from, header, payload, giving)
            }
            (Addressee::Client, _) => self.answer_came(from, header, payload, giving),
        }
    }
}

/// What is reached where an instance is, if there is one.
fn instance_target(instance: Option<InstanceId>) -> Target
    ensures { result ≡ instance_target instance }
{
    match instance {
        Some(instance) => Target::Instance(instance),
        None => Target::Nowhere,
    }
}
