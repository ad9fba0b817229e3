//! A node whose outputs are taken one after the other.
ghost use Rattle.std.specs.Prelude.{◌≡◌, ◌≢◌, ◌≤◌, ◌<◌, ◌++◌, [], true, false, drop, length, slice_get, None, Some, IfOk, IfErr, IfSome, IfNone, OnOk};
ghost use Rattle.std.specs.Option.{option_copied};
ghost use Rattle.someip_node.specs.Refusals.{is_call_refusal};
ghost use Rattle.someip_node_rules.specs.forms.GoodConfigs.{is_good, is_good_delay};
ghost use Rattle.someip_node_rules.specs.histories.History.{History, start_of};
ghost use Rattle.someip_node_rules.specs.rules.Inputs as input;
ghost use Rattle.someip_node_rules.specs.steps.Steps.{StandsFor};
ghost use Rattle.someip_node_rules.specs.steps.Waking.{IsNextDue, NothingIsDue};
ghost use Rattle.someip_c_node.specs.Endpoints.{TellsEndpoint, endpoints_of, told_at};
ghost use Rattle.someip_c_node.specs.Calls.{Calls, Keeps, NeedsNoMemory, Restarts, Takes};
ghost use Rattle.someip_c_node.specs.declared.outcome.Outcome.TheVariants as outcome;

use crate::endpoint::Endpoint;
use crate::outcome::{Outcome, refusal};
use crate::own_endpoint::own_endpoint;
use crate::putting::copy_to_front;
use crate::record::OutputRecord;
use crate::record_of::{payload_of, record_of};
use sd_core::{Eventgroup, InstanceId};
use someip_node::Node;
use someip_node_rules::{Config, NodeError, Output};
use someip_rpc::{CallKind, Reply};
use someip_tp::IntervalPool;
use std::alloc::Global;
use std::marker::Model;
use std::net::SocketAddrV4;

/// A node, with what it gave and was not taken yet. What a call gives has to be taken before the next
/// call: so no output is lost, and none is mixed with those of another call.
#[derive(Drop)]
pub struct CNode {
    node: Node<IntervalPool>,
    outputs: Vec<Output>,
    taken: usize,
}

impl Model for CNode {
    ghost use Rattle.std.specs.Prelude.{◌≤◌, drop, length};
    ghost use Rattle.someip_c_node.specs.Calls.{CNodeView};
    ghost use Rattle.someip_c_node.specs.Views.{coded_view};

    ghost Value = { CNodeView };

    ghost coded = { coded_view };

    ghost view = { λ c. record { node = c.node; waiting = drop c.taken c.outputs.items } };

    ghost invariant = { λ c. c.taken ≤ length c.outputs.items };
}

impl CNode {
    /// A node with a configuration that a setup gave, whose first Offers and Finds go out so many
    /// milliseconds after the start. No outputs wait.
    ///
    /// It is refused as `BadDelay` or `OutOfMemory`.
    pub(crate) fn start(alloc: Global, config: Config, delay: u32) -> Result<CNode, Outcome>
        requires { is_good config ≡ true }
        ensures ok { IfOk result (λ c. (c.waiting ≡ []) × StandsFor c.node (start_of config delay)) }
        ensures good { OnOk result (is_good_delay config delay ≡ true) }
        ensures bad_delay { is_good_delay config delay ≡ false
            → IfErr result (λ e. e ≡ outcome.BadDelay) }
        ensures memory { is_good_delay config delay ≡ true
            → IfErr result (λ e. e ≡ outcome.OutOfMemory) }
    {
        match Node::start(alloc, config, delay) {
            Ok(node) => Ok(CNode {
                node,
                outputs: Vec::new(alloc),
                taken: 0,
            }),
            Err(NodeError::BadDelay) => Err(Outcome::BadDelay),
            Err(_) => Err(Outcome::OutOfMemory),
        }
    }

    /// Starts the node again with its configuration: its clock begins anew, and the first Offers and
    /// Finds go out so many milliseconds after this. A node that failed works again.
    ///
    /// It is refused as `OutputsWait`, and as `BadDelay` where the delay is outside the range that the
    /// setup gives.
    pub fn restart(&mut self, delay: u32) -> Outcome
        ensures { Restarts delay self.old result self.new }
    {
        if self.has_outputs() {
            return Outcome::OutputsWait;
        }
        match self.node.restart(delay) {
            Ok(()) => Outcome::Done,
            Err(_) => Outcome::BadDelay,
        }
    }

    /// Whether outputs of an earlier call wait.
    #[tactic(auto, using(crate::proofs::TakingLemmas::some_left))]
    pub fn has_outputs(&self) -> bool
        ensures some { result ≡ true → self.now.waiting ≢ [] }
        ensures none { result ≡ false → self.now.waiting ≡ [] }
    {
        self.taken < self.outputs.len()
    }

    /// After how many milliseconds a tick next gives something. `None` where no tick does, or the node
    /// has failed.
    pub fn next_due(&self) -> Option<u64>
        ensures due { IfSome result
            (λ ms. (h : History) → StandsFor self.now.node h → IsNextDue h ms) }
        ensures none { IfNone result
            ((h : History) → StandsFor self.now.node h → NothingIsDue h) }
        ensures failed { self.now.node.tables ≡ None → result ≡ None }
    {
        self.node.next_due()
    }

    /// Takes a datagram that came from an endpoint to another.
    ///
    /// As every call that gives outputs it is refused as `OutputsWait` while outputs wait, and as
    /// `Failed` where the node has failed; `OutOfMemory` says that it failed now.
    pub fn on_datagram(&mut self, from: SocketAddrV4, to: SocketAddrV4, bytes: &[u8]) -> Outcome
        ensures { Calls (input.Datagram from to bytes.now) self.old result self.new }
    {
        if self.has_outputs() {
            return Outcome::OutputsWait;
        }
        let given = self.node.on_datagram(from, to, bytes);
        self.keep(given)
    }

    /// Lets the node's clock go on by so many milliseconds. It is refused as `ClockPast` where the
    /// clock would go past 2^63 - 1 milliseconds.
    pub fn tick(&mut self, ms: u64) -> Outcome
        ensures done { Calls (input.Tick ms) self.old result self.new }
        ensures quiet { NeedsNoMemory (input.Tick ms) self.old result }
    {
        if self.has_outputs() {
            return Outcome::OutputsWait;
        }
        let given = self.node.tick(ms);
        self.keep(given)
    }

    /// Calls a method of an instance that the node wants. It is refused as `NotOffered`, `TooLong` or
    /// `Busy`.
    pub fn call(
        &mut self,
        kind: CallKind,
        instance: InstanceId,
        method: u16,
        payload: &[u8],
    ) -> Outcome
        ensures { Calls (input.Call kind instance method payload.now) self.old result self.new }
    {
        if self.has_outputs() {
            return Outcome::OutputsWait;
        }
        let given = self.node.call(kind, instance, method, payload);
        self.keep(given)
    }

    /// Answers the request of a token. It is refused as `UnknownToken`, `BadErrorCode` or `TooLong`.
    pub fn answer(&mut self, token: u64, reply: Reply, payload: &[u8]) -> Outcome
        ensures { Calls (input.Answer token reply payload.now) self.old result self.new }
    {
        if self.has_outputs() {
            return Outcome::OutputsWait;
        }
        let given = self.node.answer(token, reply, payload);
        self.keep(given)
    }

    /// Publishes an event of an instance that the node offers. It is refused as `NotOffered`,
    /// `UnknownEvent` or `TooLong`.
    pub fn publish(&mut self, instance: InstanceId, event: u16, payload: &[u8]) -> Outcome
        ensures { Calls (input.Publish instance event payload.now) self.old result self.new }
    {
        if self.has_outputs() {
            return Outcome::OutputsWait;
        }
        let given = self.node.publish(instance, event, payload);
        self.keep(given)
    }

    /// Publishes an event to one endpoint that is subscribed to an eventgroup. It is refused as
    /// `NotOffered`, `UnknownEvent`, `TooLong` or `NotSubscribed`.
    pub fn publish_to(
        &mut self,
        eventgroup: Eventgroup,
        endpoint: SocketAddrV4,
        event: u16,
        payload: &[u8],
    ) -> Outcome
        ensures { Calls
            (input.PublishTo eventgroup.instance eventgroup.id endpoint event payload.now)
            self.old result self.new }
    {
        if self.has_outputs() {
            return Outcome::OutputsWait;
        }
        let given = self.node.publish_to(
            eventgroup.instance,
            eventgroup.id,
            endpoint,
            event,
            payload,
        );
        self.keep(given)
    }

    /// Wishes an eventgroup of an instance that the node wants. It is refused as `NotWanted`.
    pub fn subscribe(&mut self, eventgroup: Eventgroup) -> Outcome
        ensures { Calls (input.Subscribe eventgroup) self.old result self.new }
    {
        if self.has_outputs() {
            return Outcome::OutputsWait;
        }
        let given = self.node.subscribe(eventgroup);
        self.keep(given)
    }

    /// Takes the wish of an eventgroup back. It is refused as `NotWanted`.
    pub fn unsubscribe(&mut self, eventgroup: Eventgroup) -> Outcome
        ensures { Calls (input.Unsubscribe eventgroup) self.old result self.new }
    {
        if self.has_outputs() {
            return Outcome::OutputsWait;
        }
        let given = self.node.unsubscribe(eventgroup);
        self.keep(given)
    }

    /// Stops the offer of an instance until the next restart. It is refused as `NotOffered`.
    pub fn stop_offer(&mut self, instance: InstanceId) -> Outcome
        ensures { Calls (input.StopOffer instance) self.old result self.new }
    {
        if self.has_outputs() {
            return Outcome::OutputsWait;
        }
        let given = self.node.stop_offer(instance);
        self.keep(given)
    }

    /// Takes the next output: what it tells goes to the record, and its bytes to the front of the
    /// buffer. It is refused as `NothingLeft`, and as `BufferTooSmall` where its bytes do not fit: then
    /// the record tells how many there are, and the output waits on.
    pub fn take(&mut self, told: &mut OutputRecord, buffer: &mut [u8]) -> Outcome
        ensures { Takes self.old told.old buffer.old result self.new told.new buffer.new }
    {
        let Some(output) = self.outputs.as_slice().get(self.taken) else {
            return Outcome::NothingLeft;
        };
        *told = record_of(output);
        if !copy_to_front(payload_of(output), buffer) {
            return Outcome::BufferTooSmall;
        }
        self.taken += 1;
        Outcome::Done
    }

    /// Tells the endpoint at a place among those of the node, counted from 0, what is there, and of an
    /// instance its service and instance, 0 else. They are Service Discovery, the client, the instances by
    /// rising service and instance, and the multicast group. It is refused as `NothingLeft`.
    pub fn tell_endpoint(
        &self,
        place: usize,
        endpoint: &mut Endpoint,
        kind: &mut u32,
        service: &mut u16,
        instance: &mut u16,
    ) -> Outcome
        ensures { TellsEndpoint (slice_get (endpoints_of self.now.node.config) place)
            (told_at endpoint.old kind.old service.old instance.old) result
            (told_at endpoint.new kind.new service.new instance.new) }
    {
        match own_endpoint(self.config(), place) {
            Some(own) => {
                *endpoint = Endpoint::of(&own.socket);
                *kind = own.kind.number();
                *service = own.instance.service;
                *instance = own.instance.instance;
                Outcome::Done
            }
            None => Outcome::NothingLeft,
        }
    }

    /// What the node is set up with.
    pub(crate) fn config(&self) -> &Config
        ensures { result.now ≡ self.now.node.config }
    {
        self.node.config()
    }

    /// The output that is taken next.
    pub(crate) fn next_output(&self) -> Option<&Output>
        ensures { option_copied result ≡ slice_get self.now.waiting 0 }
    {
        self.outputs.as_slice().get(self.taken)
    }

    /// Keeps what a call gave, so that it can be taken. Nothing waited before.
    fn keep(&mut self, given: Result<Vec<Output>, NodeError>) -> Outcome
        requires none { self.old.waiting ≡ [] }
        requires refusal { IfErr given (λ error. is_call_refusal error ≡ true) }
        ensures { Keeps given self.old result self.new }
    {
        match given {
            Ok(outputs) => {
                self.outputs = outputs;
                self.taken = 0;
                Outcome::Done
            }
            Err(error) => refusal(error),
        }
    }
}
