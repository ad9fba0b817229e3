//! What the application does.
ghost use Rattle.std.specs.Prelude.{◌≡◌};
ghost use Rattle.someip_node_rules.specs.rules.Inputs as input;
ghost use Rattle.someip_c_node.specs.Acts.{Acts};
ghost use Rattle.someip_c_node.specs.Calls.{Calls};
ghost use Rattle.someip_c_node.specs.Records.{socket_of};
ghost use Rattle.someip_c.specs.Handles.{OnNode, call_kind, group_of, instance_of, reply_of};

use crate::handle::Handle;
use crate::on_node::on_node;
use sd_core::{Eventgroup, InstanceId};
use someip_c_node::{Endpoint, Outcome};
use someip_rpc::{CallKind, Reply};
use someip_wire::ReturnCode;
use std::alloc::Global;

/// Does the step of a schedule that a line spells without its node.
#[unsafe(no_mangle)]
pub extern "C" fn someip_do(alloc: Global, handle: &mut Handle, line: &[u8]) -> u32
    ensures done { OnNode handle.old.place.value (Acts line.now) result handle.new.place.value }
{
    on_node!(handle, alloc, |node| node.act(alloc, line))
}

/// Calls a method of an instance that the node wants; with `waits`, an answer is awaited.
#[unsafe(no_mangle)]
pub extern "C" fn someip_call(
    alloc: Global,
    handle: &mut Handle,
    waits: bool,
    service: u16,
    instance: u16,
    method: u16,
    payload: &[u8],
) -> u32
    ensures done { OnNode handle.old.place.value
        (Calls (input.Call (call_kind waits) (instance_of service instance) method payload.now)) result handle.new.place.value }
{
    on_node!(
        handle,
        alloc,
        |node| node.call(
            kind_of(waits),
            InstanceId { service, instance },
            method,
            payload,
        )
    )
}

/// Answers the request of a token, by a RESPONSE or, with `is_error`, by an ERROR.
#[unsafe(no_mangle)]
pub extern "C" fn someip_answer(
    alloc: Global,
    handle: &mut Handle,
    token: u64,
    is_error: bool,
    code: u8,
    payload: &[u8],
) -> u32
    ensures done { OnNode handle.old.place.value
        (Calls (input.Answer token (reply_of is_error code) payload.now)) result handle.new.place.value }
{
    on_node!(
        handle,
        alloc,
        |node| node.answer(token, reply(is_error, code), payload)
    )
}

/// Publishes an event of an instance that the node offers.
#[unsafe(no_mangle)]
pub extern "C" fn someip_publish(
    alloc: Global,
    handle: &mut Handle,
    service: u16,
    instance: u16,
    event: u16,
    payload: &[u8],
) -> u32
    ensures done { OnNode handle.old.place.value
        (Calls (input.Publish (instance_of service instance) event payload.now)) result handle.new.place.value }
{
    on_node!(
        handle,
        alloc,
        |node| node.publish(InstanceId { service, instance }, event, payload)
    )
}

/// Publishes an event to one endpoint that is subscribed to an eventgroup.
#[unsafe(no_mangle)]
pub extern "C" fn someip_publish_to(
    alloc: Global,
    handle: &mut Handle,
    service: u16,
    instance: u16,
    eventgroup: u16,
    endpoint: &Endpoint,
    event: u16,
    payload: &[u8],
) -> u32
    ensures done { OnNode handle.old.place.value
        (Calls (input.PublishTo (instance_of service instance) eventgroup (socket_of endpoint.now) event
        payload.now)) result handle.new.place.value }
{
    on_node!(
        handle,
        alloc,
        |node| node.publish_to(
            group(service, instance, eventgroup),
            endpoint.socket(),
            event,
            payload,
        )
    )
}

/// Wishes an eventgroup of an instance that the node wants.
#[unsafe(no_mangle)]
pub extern "C" fn someip_subscribe(
    alloc: Global,
    handle: &mut Handle,
    service: u16,
    instance: u16,
    eventgroup: u16,
) -> u32
    ensures done { OnNode handle.old.place.value
        (Calls (input.Subscribe (group_of service instance eventgroup))) result handle.new.place.value }
{
    on_node!(
        handle,
        alloc,
        |node| node.subscribe(group(service, instance, eventgroup))
    )
}

/// Takes the wish of an eventgroup back.
#[unsafe(no_mangle)]
pub extern "C" fn someip_unsubscribe(
    alloc: Global,
    handle: &mut Handle,
    service: u16,
    instance: u16,
    eventgroup: u16,
) -> u32
    ensures done { OnNode handle.old.place.value
        (Calls (input.Unsubscribe (group_of service instance eventgroup))) result handle.new.place.value }
{
    on_node!(
        handle,
        alloc,
        |node| node.unsubscribe(group(service, instance, eventgroup))
    )
}

/// Stops the offer of an instance until the next restart.
#[unsafe(no_mangle)]
pub extern "C" fn someip_stop_offer(
    alloc: Global,
    handle: &mut Handle,
    service: u16,
    instance: u16,
) -> u32
    ensures done { OnNode handle.old.place.value
        (Calls (input.StopOffer (instance_of service instance))) result handle.new.place.value }
{
    on_node!(
        handle,
        alloc,
        |node| node.stop_offer(InstanceId { service, instance })
    )
}

/// Whether a call waits.
fn kind_of(waits: bool) -> CallKind
    ensures { result ≡ call_kind waits }
{
    if waits {
        CallKind::Request
    } else {
        CallKind::RequestNoReturn
    }
}

/// How a request is answered.
fn reply(is_error: bool, code: u8) -> Reply
    ensures { result ≡ reply_of is_error code }
{
    if is_error {
        Reply::Error(ReturnCode(code))
    } else {
        Reply::Response(ReturnCode(code))
    }
}

/// An eventgroup, by its numbers.
fn group(service: u16, instance: u16, id: u16) -> Eventgroup
    ensures { result ≡ group_of service instance id }
{
    Eventgroup {
        instance: InstanceId { service, instance },
        id,
    }
}
