//! What is done at a node in a step.
//!
//! A step that can't happen is told even where memory is short, as it takes none to see that. Only what a
//! node does, and the trace, take memory.
//!
//! Delivered to the group is what was sent to its address, whatever the port; each node has the port of
//! Service Discovery alone there.
ghost use Rattle.std.specs.Prelude.{◌≡◌, ◌||◌, if◌then◌else◌, None, Some, Ok};
ghost use Rattle.someip_node_rules.specs.forms.GoodConfigs.{is_good_delay};
ghost use Rattle.someip_node_rules.specs.rules.Handling.{same_address};
ghost use Rattle.someip_node_rules.specs.histories.History.{History};
ghost use Rattle.someip_node_rules.specs.rules.Inputs as input;
ghost use Rattle.someip_node_rules.specs.steps.Steps.{StandsFor};
ghost use Rattle.someip_world_rules.specs.Datagrams.{datagram_at};
ghost use Rattle.someip_world_rules.specs.Deeds.{deed_of, delivery, restart_deed, tick_deed, unless_long};
ghost use Rattle.someip_world.specs.Performing.{Lends, Performs, as_given};

use crate::log::Log;
use sd_core::{Eventgroup, InstanceId};
use someip_node::{Config, Node, NodeError, Output, Payload};
use someip_rpc::{CallKind, Reply};
use someip_tables::is_same_key;
use someip_tp::Reassembly;
use someip_world_rules::StepFault;
use someip_world_schedule::{MethodId, Step, StepPayload};
use std::alloc::{AllocError, Global};
use std::net::{Ipv4Addr, SocketAddrV4};

/// Why a step gave no outputs.
pub(crate) enum StepError {
    /// It can't happen.
    Bad(StepFault),
    /// The node refused it.
    Refused(NodeError),
    /// Memory ran out.
    OutOfMemory,
}

impl From<AllocError> for StepError {
    ghost use Rattle.someip_world.specs.declared.performing.StepError.TheVariants.{OutOfMemory};

    ghost from_gives = { λ _ error. error ≡ OutOfMemory };

    fn from(_error: AllocError) -> StepError {
        StepError::OutOfMemory
    }
}

/// Does at a node what a step says, after the lines of the steps before it.
pub(crate) fn perform<R: Reassembly>(
    alloc: Global,
    node: &mut Node<R>,
    log: &Log,
    step: &Step,
) -> Result<Vec<Output>, StepError>
    ensures performs { (h : History) → StandsFor node.old h
        → Performs h (deed_of h log.now step.now) result node.new }
    ensures config { node.new.config ≡ node.old.config }
{
    match step {
        Step::Tick { ms, .. } => tick(node, *ms),
        Step::Deliver { number, .. } => deliver(node, log, *number),
        Step::Call {
            kind,
            instance,
            method,
            payload,
            ..
        } => call(alloc, node, *kind, *instance, *method, payload),
        Step::Answer {
            token,
            reply,
            payload,
            ..
        } => answer(alloc, node, *token, *reply, payload),
        Step::Publish {
            instance,
            event,
            payload,
            ..
        } => publish(alloc, node, *instance, *event, payload),
        Step::PublishTo {
            eventgroup,
            to,
            event,
            payload,
            ..
        } => publish_to(alloc, node, *eventgroup, *to, *event, payload),
        Step::Subscribe { eventgroup, .. } => given(node.subscribe(*eventgroup)),
        Step::Unsubscribe { eventgroup, .. } => given(node.unsubscribe(*eventgroup)),
        Step::StopOffer { instance, .. } => given(node.stop_offer(*instance)),
        Step::Restart { delay, .. } => restart(alloc, node, *delay),
        Step::Inject { .. } => Err(StepError::Bad(StepFault::NotLiar)),
    }
}

/// What a node gave, or why it gave nothing.
fn given(done: Result<Vec<Output>, NodeError>) -> Result<Vec<Output>, StepError>
    ensures { result ≡ as_given done }
{
    match done {
        Ok(outputs) => Ok(outputs),
        Err(NodeError::OutOfMemory) => Err(StepError::OutOfMemory),
        Err(refusal) => Err(StepError::Refused(refusal)),
    }
}

/// Lets the node's clock go on.
fn tick<R: Reassembly>(node: &mut Node<R>, ms: u64) -> Result<Vec<Output>, StepError>
    ensures performs { (h : History) → StandsFor node.old h → Performs h (tick_deed h ms) result node.new }
    ensures config { node.new.config ≡ node.old.config }
{
    match node.tick(ms) {
        Err(NodeError::ClockPast) => Err(StepError::Bad(StepFault::ClockPast)),
        done => given(done),
    }
}

/// Whether a datagram that was sent to an address may be delivered to a node.
fn is_addressed(config: &Config, to: Ipv4Addr) -> bool
    ensures { result ≡ (same_address to config.now.address
        || same_address to config.now.common.group) }
{
    is_same_key(&to, &config.address) || is_same_key(&to, &config.common.group)
}

/// Delivers a datagram that was sent.
fn deliver<R: Reassembly>(
    node: &mut Node<R>,
    log: &Log,
    number: u64,
) -> Result<Vec<Output>, StepError>
    ensures performs { (h : History) → StandsFor node.old h
        → Performs h (delivery h.config (datagram_at log.now number)) result node.new }
    ensures config { node.new.config ≡ node.old.config }
{
    let Some(datagram) = log.datagram(number) else {
        return Err(StepError::Bad(StepFault::NoSuchDatagram));
    };
    if !is_addressed(node.config(), *datagram.to.ip()) {
        return Err(StepError::Bad(StepFault::NotAddressed));
    }
    given(node.on_datagram(datagram.from, datagram.to, datagram.bytes))
}

/// The bytes of a payload, if a message may be so long.
fn payload_within(
    alloc: Global,
    config: &Config,
    payload: &StepPayload,
) -> Result<Payload, StepError>
    ensures { Lends config.now payload.now result }
{
    if config.common.message_limit < payload.len() {
        return Err(StepError::Bad(StepFault::PayloadTooLong));
    }
    let bytes = payload.to_payload(alloc)?;
    Ok(bytes)
}

/// Calls a method.
fn call<R: Reassembly>(
    alloc: Global,
    node: &mut Node<R>,
    kind: CallKind,
    instance: InstanceId,
    method: MethodId,
    payload: &StepPayload,
) -> Result<Vec<Output>, StepError>
    ensures performs { (h : History) → StandsFor node.old h → Performs h
        (unless_long h.config payload.now (input.Call kind instance method payload.now))
        result node.new }
    ensures config { node.new.config ≡ node.old.config }
{
    let payload = payload_within(alloc, node.config(), payload)?;
    given(node.call(kind, instance, method.id(), payload.as_slice()))
}

/// Answers a request.
fn answer<R: Reassembly>(
    alloc: Global,
    node: &mut Node<R>,
    token: u64,
    reply: Reply,
    payload: &StepPayload,
) -> Result<Vec<Output>, StepError>
    ensures performs { (h : History) → StandsFor node.old h → Performs h
        (unless_long h.config payload.now (input.Answer token reply payload.now))
        result node.new }
    ensures config { node.new.config ≡ node.old.config }
{
    let payload = payload_within(alloc, node.config(), payload)?;
    given(node.answer(token, reply, payload.as_slice()))
}

/// Publishes an event to all that are subscribed to it.
fn publish<R: Reassembly>(
    alloc: Global,
    node: &mut Node<R>,
    instance: InstanceId,
    event: u16,
    payload: &StepPayload,
) -> Result<Vec<Output>, StepError>
    ensures performs { (h : History) → StandsFor node.old h → Performs h
        (unless_long h.config payload.now (input.Publish instance event payload.now))
        result node.new }
    ensures config { node.new.config ≡ node.old.config }
{
    let payload = payload_within(alloc, node.config(), payload)?;
    given(node.publish(instance, event, payload.as_slice()))
}

/// Publishes an event to one subscriber.
fn publish_to<R: Reassembly>(
    alloc: Global,
    node: &mut Node<R>,
    eventgroup: Eventgroup,
    to: SocketAddrV4,
    event: u16,
    payload: &StepPayload,
) -> Result<Vec<Output>, StepError>
    ensures performs { (h : History) → StandsFor node.old h → Performs h
        (unless_long h.config payload.now
        (input.PublishTo eventgroup.instance eventgroup.id to event payload.now))
        result node.new }
    ensures config { node.new.config ≡ node.old.config }
{
    let payload = payload_within(alloc, node.config(), payload)?;
    given(node.publish_to(
        eventgroup.instance,
        eventgroup.id,
        to,
        event,
        payload.as_slice(),
    ))
}

/// Starts the node again.
fn restart<R: Reassembly>(
    alloc: Global,
    node: &mut Node<R>,
    delay: u64,
) -> Result<Vec<Output>, StepError>
    ensures performs { (h : History) → StandsFor node.old h
        → Performs h (restart_deed h.config delay) result node.new }
    ensures config { node.new.config ≡ node.old.config }
{
    let Some(delay) = delay_within(node.config(), delay) else {
        return Err(StepError::Bad(StepFault::BadDelay));
    };
    match node.restart(delay) {
        Ok(()) => Ok(Vec::new(alloc)),
        Err(_) => Err(StepError::Bad(StepFault::BadDelay)),
    }
}

/// A delay, if it is in the range that the configuration gives.
fn delay_within(config: &Config, delay: u64) -> Option<u32>
    ensures { result ≡ (if is_good_delay config.now delay then Some delay else None) }
{
    let least = u64::from(config.common.initial_min_ms);
    let most = u64::from(config.common.initial_max_ms);
    if least <= delay && delay <= most {
        Some(delay as u32)
    } else {
        None
    }
}
