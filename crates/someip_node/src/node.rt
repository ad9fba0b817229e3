//! A node: its tables, unless memory ran out.
ghost use Rattle.std.specs.Prelude.{◌≡◌, OnOk, OnErr, IfOk, IfErr, IfSome, IfNone, Err, None, [], true, false};
ghost use Rattle.someip_node.specs.Finishings.{given_or_error, is_fatal};
ghost use Rattle.someip_node.specs.Refusals.{is_call_refusal};
ghost use Rattle.someip_node_rules.specs.forms.GoodConfigs.{is_good, is_good_delay};
ghost use Rattle.someip_node_rules.specs.histories.History.{History, answers_of, start_of};
ghost use Rattle.someip_node_rules.specs.steps.Limits.{HoldsWithinLimits};
ghost use Rattle.someip_node_rules.specs.rules.Inputs as input;
ghost use Rattle.someip_node_rules.specs.steps.Steps.{Reacts, StandsFor, StaysFailed, TakesNoMemory};
ghost use Rattle.someip_node_rules.specs.steps.Waking.{IsNextDue, NothingIsDue};
ghost use Rattle.someip_node_rules.specs.steps.SubscriberLimits.{AreWithinLimits};
ghost use Rattle.someip_node_rules.specs.histories.SubscriberQuestions.{subscribers_in};
ghost use Rattle.someip_node_rules.specs.declared.error.NodeError.TheVariants as fault;

use sd_core::{Eventgroup, InstanceId};
use someip_node_engine::{Engine, Giving, is_good_delay};
use someip_node_rules::{Config, NodeError, Output};
use someip_rpc::{CallKind, Reply};
use someip_tp::Reassembly;
use std::alloc::Global;
use std::marker::Model;
use std::net::SocketAddrV4;

/// A node. It stands for the history of what it met since its start, unless memory ran out: then it
/// has failed, keeps its configuration alone, and stands for no history until it is restarted.
#[derive(Drop)]
pub struct Node<R: Reassembly> {
    alloc: Global,
    failed: bool,
    engine: Engine<R>,
}

impl<R: Reassembly> Model for Node<R> {
    ghost use Rattle.std.specs.Prelude.{◌≡◌, false, if◌then◌else◌, None, Some};
    ghost use Rattle.std.specs.Coded.{codes};
    ghost use Rattle.someip_node_rules.specs.contracts.config.Config as config_row;
    ghost use Rattle.someip_reassembly.specs.Parts.{coded_parts};
    ghost use Rattle.someip_node_rules.specs.steps.Steps.{NodeView};
    ghost use Rattle.someip_node_rules.specs.steps.SubscriberLimits.{AreWithinLimits};
    ghost use Rattle.someip_node_rules.specs.histories.Tables.{coded_held, coded_stamps_to};
    ghost use Rattle.sd_core.specs.OfferTables.{coded_offers};
    ghost use Rattle.sd_core.specs.SeekTables.{coded_seek};
    ghost use Rattle.sd_core.specs.SubscriberTables.{coded_subscribers};
    ghost use Rattle.sd_core.specs.WishTables.{coded_wishes};
    ghost use Rattle.someip_rpc.specs.Calls.{coded_client};
    ghost use Rattle.someip_rpc.specs.Servers.{coded_server};

    ghost Value = { NodeView };

    ghost coded = { Prim.hlevel (
      codes,
      config_row.the_row.coded,
      coded_parts,
      coded_held,
      coded_stamps_to,
      coded_offers,
      coded_seek,
      coded_subscribers,
      coded_wishes,
      coded_client,
      coded_server,
    ) };

    ghost view = { λ n. record { config = n.engine.config; tables = if n.failed then None else Some n.engine } };

    ghost invariant = { λ n. n.failed ≡ false → AreWithinLimits n.engine.config n.engine.subscribers };
}

impl<R: Reassembly> Node<R> {
    /// A node with this configuration, all of whose instances are offered and searched for. Its first
    /// Offers and Finds go out so many milliseconds after the start (SOME/IP Service Discovery Protocol,
    /// "Startup behavior").
    ///
    /// It is refused as `BadConfig` where a value of the configuration is outside its range or two of
    /// them clash, and else as `BadDelay` where the delay is outside the range that the configuration
    /// gives. Neither takes memory.
    pub fn start(alloc: Global, config: Config, delay: u32) -> Result<Node<R>, NodeError>
        ensures ok { IfOk result (λ node. StandsFor node (start_of config delay)) }
        ensures good { OnOk result
            ((is_good config ≡ true) × (is_good_delay config delay ≡ true)) }
        ensures bad_config { is_good config ≡ false → result ≡ Err fault.BadConfig }
        ensures bad_delay { is_good config ≡ true → is_good_delay config delay ≡ false
            → result ≡ Err fault.BadDelay }
        ensures memory { is_good config ≡ true → is_good_delay config delay ≡ true
            → IfErr result (λ error. error ≡ fault.OutOfMemory) }
    {
        let engine = Engine::<R>::start(alloc, config, delay)?;
        Ok(Node {
            alloc,
            failed: false,
            engine,
        })
    }

    /// What the node is set up with.
    pub fn config(&self) -> &Config
        ensures { result.now ≡ self.now.config }
    {
        self.engine.config()
    }

    /// Whatever a node met, it keeps no more peers than its configuration allows, at most 1024 calls and
    /// 1024 requests wait for their answers, and no eventgroup has more live subscriptions than the
    /// configuration allows. This does nothing: its contract says so.
    pub fn holds_within_limits(&self)
        ensures held { (h : History) → StandsFor self.now h → HoldsWithinLimits (answers_of h) }
        ensures subscribers { (h : History) → StandsFor self.now h
            → AreWithinLimits h.config (subscribers_in h.items) }
    {
        self.engine.holds_within_limits();
    }

    /// Starts the node again with its configuration: it forgets all that it met, its sessions of Service
    /// Discovery begin at 1 with the Reboot flag, and the first Offers and Finds go out so many
    /// milliseconds after this (SOME/IP Service Discovery Protocol, "Startup behavior", "Detection of
    /// reboots"). A node that failed works again. It takes no memory.
    ///
    /// It is refused as `BadDelay` where the delay is outside the range that the configuration gives.
    pub fn restart(&mut self, delay: u32) -> Result<(), NodeError>
        ensures ok { OnOk result (StandsFor self.new (start_of self.old.config delay)) }
        ensures good { OnOk result (is_good_delay self.old.config delay ≡ true) }
        ensures bad_delay { IfErr result (λ error. (error ≡ fault.BadDelay)
            × (is_good_delay self.old.config delay ≡ false)) }
        ensures unchanged { OnErr result (self.new ≡ self.old) }
    {
        if !is_good_delay(self.engine.config(), delay) {
            return Err(NodeError::BadDelay);
        }
        self.engine.restart(delay);
        self.failed = false;
        Ok(())
    }

    /// Takes a datagram that came from an endpoint to another, and gives what it brings: datagrams to
    /// send, and what the application is told. A datagram is never refused: what cannot be taken is
    /// dropped, and the reason is told.
    pub fn on_datagram(
        &mut self,
        from: SocketAddrV4,
        to: SocketAddrV4,
        bytes: &[u8],
    ) -> Result<Vec<Output>, NodeError>
        ensures reacts { Reacts self.old (input.Datagram from to bytes.now) result self.new }
        ensures errors { IfErr result (λ error. is_call_refusal error ≡ true) }
        ensures failed { StaysFailed self.old result self.new }
        ensures config { self.new.config ≡ self.old.config }
    {
        let mut giving = begin(self.failed, self.alloc)?;
        let done = self.engine.take_datagram(from, to, bytes, &mut giving);
        finish(&mut self.failed, done, giving)
    }

    /// Lets the node's clock go on by so many milliseconds. Offers, subscriptions, calls and messages
    /// in part end whose time has passed, and then the Offers and Finds go out that are due (SOME/IP
    /// Service Discovery Protocol, "Startup behavior").
    ///
    /// It is refused as `ClockPast` where the clock would go past 2^63 - 1 milliseconds. Where it gives
    /// nothing it takes no memory.
    pub fn tick(&mut self, ms: u64) -> Result<Vec<Output>, NodeError>
        ensures reacts { Reacts self.old (input.Tick ms) result self.new }
        ensures quiet { TakesNoMemory self.old (input.Tick ms) result }
        ensures errors { IfErr result (λ error. is_call_refusal error ≡ true) }
        ensures failed { StaysFailed self.old result self.new }
        ensures config { self.new.config ≡ self.old.config }
    {
        let mut giving = begin(self.failed, self.alloc)?;
        let done = self.engine.take_tick(ms, &mut giving);
        finish(&mut self.failed, done, giving)
    }

    /// After how many milliseconds a tick next gives something, if nothing else happens before: an Offer or
    /// a Find, a call that timed out, or the end of a known offer or of a subscription of the client. A
    /// tick of fewer milliseconds gives nothing. `None` where no tick gives anything, since nothing will
    /// happen by itself or its moment lies past 2^63 - 1 milliseconds, and where the node has failed.
    ///
    /// What ends without being told, as a message in part or a subscription at the server, is left out. It
    /// looks at the first moment of each table alone, and takes no memory.
    pub fn next_due(&self) -> Option<u64>
        ensures due { IfSome result
            (λ ms. (h : History) → StandsFor self.now h → IsNextDue h ms) }
        ensures none { IfNone result ((h : History) → StandsFor self.now h → NothingIsDue h) }
        ensures failed { self.now.tables ≡ None → result ≡ None }
    {
        if self.failed {
            return None;
        }
        self.engine.next_due()
    }

    /// Calls a method of an instance that the node wants, at the endpoint of the offer that it knows.
    /// A call that waits for its answer waits as long as the configuration says. A payload of more
    /// than 1400 bytes goes out in segments (SOME/IP Protocol, "Request/Response communication",
    /// "SOME/IP-TP").
    ///
    /// It is refused, by the first that holds, as `NotOffered` where no offer of the instance is known,
    /// `TooLong` where the payload is longer than the message limit, and `Busy` where it would wait for
    /// an answer and no further call can.
    pub fn call(
        &mut self,
        kind: CallKind,
        instance: InstanceId,
        method: u16,
        payload: &[u8],
    ) -> Result<Vec<Output>, NodeError>
        ensures reacts { Reacts self.old (input.Call kind instance method payload.now)
            result self.new }
        ensures errors { IfErr result (λ error. is_call_refusal error ≡ true) }
        ensures failed { StaysFailed self.old result self.new }
        ensures config { self.new.config ≡ self.old.config }
    {
        let mut giving = begin(self.failed, self.alloc)?;
        let done = self
            .engine
            .call(kind, instance, method, payload, &mut giving);
        finish(&mut self.failed, done, giving)
    }

    /// Answers the request that waits under a token, which then waits no longer (SOME/IP Protocol,
    /// "Request/Response communication", "Error handling").
    ///
    /// It is refused, by the first that holds, as `UnknownToken` where no request waits under the token,
    /// `BadErrorCode` where an ERROR has the code E_OK, and `TooLong` where the payload is longer than
    /// the message limit.
    pub fn answer(
        &mut self,
        token: u64,
        reply: Reply,
        payload: &[u8],
    ) -> Result<Vec<Output>, NodeError>
        ensures reacts { Reacts self.old (input.Answer token reply payload.now) result self.new }
        ensures errors { IfErr result (λ error. is_call_refusal error ≡ true) }
        ensures failed { StaysFailed self.old result self.new }
        ensures config { self.new.config ≡ self.old.config }
    {
        let mut giving = begin(self.failed, self.alloc)?;
        let done = self.engine.answer(token, reply, payload, &mut giving);
        finish(&mut self.failed, done, giving)
    }

    /// Publishes an event of an instance that the node offers: one message to each endpoint that has a
    /// live subscription to one of the event's eventgroups (SOME/IP Protocol, "Notification Events").
    ///
    /// It is refused, by the first that holds, as `NotOffered` where the instance is not up,
    /// `UnknownEvent` where it has no such event, and `TooLong` where the payload is longer than the
    /// message limit.
    pub fn publish(
        &mut self,
        instance: InstanceId,
        event: u16,
        payload: &[u8],
    ) -> Result<Vec<Output>, NodeError>
        ensures reacts { Reacts self.old (input.Publish instance event payload.now) result self.new }
        ensures errors { IfErr result (λ error. is_call_refusal error ≡ true) }
        ensures failed { StaysFailed self.old result self.new }
        ensures config { self.new.config ≡ self.old.config }
    {
        let mut giving = begin(self.failed, self.alloc)?;
        let done = self.engine.publish(instance, event, payload, &mut giving);
        finish(&mut self.failed, done, giving)
    }

    /// Publishes an event to one endpoint that has a live subscription to an eventgroup, as for the
    /// value of a field when a subscription begins (SOME/IP Protocol, "Fields").
    ///
    /// It is refused, by the first that holds, as `NotOffered` where the instance is not up,
    /// `UnknownEvent` where the eventgroup has no such event, `TooLong` where the payload is longer than
    /// the message limit, and `NotSubscribed` where the endpoint has no such subscription.
    pub fn publish_to(
        &mut self,
        instance: InstanceId,
        eventgroup: u16,
        endpoint: SocketAddrV4,
        event: u16,
        payload: &[u8],
    ) -> Result<Vec<Output>, NodeError>
        ensures reacts { Reacts self.old
            (input.PublishTo instance eventgroup endpoint event payload.now) result self.new }
        ensures errors { IfErr result (λ error. is_call_refusal error ≡ true) }
        ensures failed { StaysFailed self.old result self.new }
        ensures config { self.new.config ≡ self.old.config }
    {
        let mut giving = begin(self.failed, self.alloc)?;
        let done = self.engine.publish_to(
            instance,
            eventgroup,
            endpoint,
            event,
            payload,
            &mut giving,
        );
        finish(&mut self.failed, done, giving)
    }

    /// Wishes an eventgroup of an instance that the node wants. A Subscribe goes out at once where an
    /// offer of the instance is known, and with each further Offer; a wish that stands already sends
    /// one too (SOME/IP Service Discovery Protocol, "Subscribe Eventgroup entry").
    ///
    /// `NotWanted` where the configuration has no such eventgroup.
    pub fn subscribe(&mut self, eventgroup: Eventgroup) -> Result<Vec<Output>, NodeError>
        ensures reacts { Reacts self.old (input.Subscribe eventgroup) result self.new }
        ensures errors { IfErr result (λ error. is_call_refusal error ≡ true) }
        ensures failed { StaysFailed self.old result self.new }
        ensures config { self.new.config ≡ self.old.config }
    {
        let mut giving = begin(self.failed, self.alloc)?;
        let done = self.engine.subscribe_to(eventgroup, &mut giving);
        finish(&mut self.failed, done, giving)
    }

    /// Takes the wish of an eventgroup back. The server of the subscription that stands is told by a
    /// StopSubscribe; without a wish nothing happens (SOME/IP Service Discovery Protocol, "Stop
    /// Subscribe Eventgroup entry").
    ///
    /// `NotWanted` where the configuration has no such eventgroup.
    pub fn unsubscribe(&mut self, eventgroup: Eventgroup) -> Result<Vec<Output>, NodeError>
        ensures reacts { Reacts self.old (input.Unsubscribe eventgroup) result self.new }
        ensures errors { IfErr result (λ error. is_call_refusal error ≡ true) }
        ensures failed { StaysFailed self.old result self.new }
        ensures config { self.new.config ≡ self.old.config }
    {
        let mut giving = begin(self.failed, self.alloc)?;
        let done = self.engine.unsubscribe_from(eventgroup, &mut giving);
        finish(&mut self.failed, done, giving)
    }

    /// Stops the offer of an instance until the next restart: all nodes are told by a StopOffer, and its
    /// subscriptions end. Requests that wait may still be answered (SOME/IP Service Discovery Protocol,
    /// "Stop Offer Service entry").
    ///
    /// `NotOffered` where the instance is not offered.
    pub fn stop_offer(&mut self, instance: InstanceId) -> Result<Vec<Output>, NodeError>
        ensures reacts { Reacts self.old (input.StopOffer instance) result self.new }
        ensures errors { IfErr result (λ error. is_call_refusal error ≡ true) }
        ensures failed { StaysFailed self.old result self.new }
        ensures config { self.new.config ≡ self.old.config }
    {
        let mut giving = begin(self.failed, self.alloc)?;
        let done = self.engine.stop_offering(instance, &mut giving);
        finish(&mut self.failed, done, giving)
    }
}

/// Begins a call, which has given nothing yet. A node that failed takes none.
fn begin(failed: bool, alloc: Global) -> Result<Giving, NodeError>
    ensures works { OnOk result (failed ≡ false) }
    ensures outputs { IfOk result (λ giving. giving.outputs.items ≡ []) }
    ensures replies { IfOk result (λ giving. giving.replies.items ≡ []) }
    ensures failed { IfErr result (λ error. (error ≡ fault.Failed) × (failed ≡ true)) }
{
    if failed {
        return Err(NodeError::Failed);
    }
    Ok(Giving::new(alloc))
}

/// Ends a call: what it gives, or its error. Once memory ran out the node has failed.
fn finish(
    failed: &mut bool,
    done: Result<(), NodeError>,
    giving: Giving,
) -> Result<Vec<Output>, NodeError>
    ensures failed { failed.new ≡ is_fatal done }
    ensures given { result ≡ given_or_error done giving }
{
    *failed = is_fatal(&done);
    done?;
    Ok(giving.outputs)
}

/// Whether memory ran out.
fn is_fatal(done: &Result<(), NodeError>) -> bool
    ensures { result ≡ is_fatal done.now }
{
    matches!(done, Err(NodeError::OutOfMemory))
}
