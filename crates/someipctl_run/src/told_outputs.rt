//! What the lines of a trace tell, field by field.
ghost use Rattle.std.specs.Prelude.{◌≡◌, ◌∷◌, ℕ, [], codes, map};
ghost use Rattle.someipctl_io.specs.ToldItems.{told};
ghost use Rattle.someipctl_io.specs.ToldLines.{field, id as id_content, number as number_content};
ghost use Rattle.someipctl_io.specs.ToldViews.{view_field, view_said};
ghost use Rattle.someipctl_run.specs.ToldOutputs.{call_ids, eventgroup_ids, instance_ids, line_told, next_field};
ghost use Rattle.someipctl_run.specs.ToldOutputs.{output_told, token_told};
ghost use Rattle.someipctl_run.specs.TraceViews.{view_trace_line};

use crate::told_line::TraceLine;
use sd_core::{Cause, Eventgroup, InstanceId};
use sd_wire::SubscriptionCounter;
use someip_node::Output;
use someip_rpc::MessageId;
use someip_wire::ReturnCode;
use someip_world::Told;
use someipctl_io::{Field, Said};
use std::net::SocketAddrV4;

/// What a line tells, where the next datagram has a number.
pub(crate) fn told_line<'t>(number: usize, told: &'t Told) -> TraceLine<'t>
    ensures { view_trace_line result ≡ line_told number told.now }
{
    match told {
        Told::Gave(output) => told_output(number, output),
        Told::Refused(refusal) => one("refused", "name", Said::Text(refusal.name())),
    }
}

/// What an output tells, where the next datagram has a number.
fn told_output<'o>(number: usize, output: &'o Output) -> TraceLine<'o>
    ensures { view_trace_line result ≡ output_told number output.now }
{
    match output {
        Output::Sent { from, to, bytes } => sent(number, *from, *to, bytes.as_slice()),
        Output::Called { message, session } => of_call("call", *message, *session),
        Output::TimedOut { message, session } => of_call("timeout", *message, *session),
        Output::Answered {
            message,
            session,
            code,
            payload,
        } => answer(*message, *session, *code, payload.as_slice()),
        Output::Request {
            token,
            instance,
            method,
            payload,
        } => request(*token, *instance, *method, payload.as_slice()),
        Output::Event {
            instance,
            event,
            payload,
        } => event_of(*instance, *event, payload.as_slice()),
        Output::Known { instance, endpoint } => known(*instance, *endpoint),
        Output::Gone { instance } => TraceLine::two("gone", instance_ids(*instance)),
        Output::Subscribed {
            eventgroup,
            counter,
        } => subscribed(*eventgroup, *counter),
        Output::Unsubscribed { eventgroup } => {
            TraceLine::three("unsubscribed", eventgroup_ids(*eventgroup))
        }
        Output::Accepted {
            eventgroup,
            endpoint,
            counter,
        } => accepted(*eventgroup, *endpoint, *counter),
        Output::Nacked { eventgroup, cause } => nacked(*eventgroup, cause),
        Output::Rebooted { peer } => one("reboot", "address", Said::Address(*peer)),
        Output::Dropped { reason } => one("dropped", "name", Said::Text(reason.name())),
    }
}

/// A datagram that is sent, with its number.
fn sent<'b>(number: usize, from: SocketAddrV4, to: SocketAddrV4, bytes: &'b [u8]) -> TraceLine<'b>
    ensures { view_trace_line result ≡ output_told number (Output.Sent from to bytes.now) }
{
    let fields = [
        next_field("datagram", Said::Number(number)),
        next_field("from", Said::Endpoint(from)),
        next_field("to", Said::Endpoint(to)),
        next_field("payload", Said::Bytes(bytes)),
    ];
    TraceLine::four("sent", fields)
}

/// A request that came, and the token for its answer, where it waits for one.
fn request<'p>(
    token: Option<u64>,
    instance: InstanceId,
    method: u16,
    payload: &'p [u8],
) -> TraceLine<'p>
    ensures { (number : ℕ) → view_trace_line result
        ≡ output_told number (Output.Request token instance method payload.now) }
{
    let [service, instance] = instance_ids(instance);
    let fields = [
        next_field("token", said_token(token)),
        service,
        instance,
        next_field("method", Said::Id(method)),
        next_field("payload", Said::Bytes(payload)),
    ];
    TraceLine::five("request", fields)
}

/// An answer that came.
fn answer<'p>(
    message: MessageId,
    session: u16,
    code: ReturnCode,
    payload: &'p [u8],
) -> TraceLine<'p>
    ensures { (number : ℕ) → view_trace_line result
        ≡ output_told number (Output.Answered message session code payload.now) }
{
    let [service, method, session] = call_ids(message, session);
    let fields = [
        service,
        method,
        session,
        next_field("code", Said::Byte(code.0)),
        next_field("payload", Said::Bytes(payload)),
    ];
    TraceLine::five("answer", fields)
}

/// An event that came.
fn event_of<'p>(instance: InstanceId, event: u16, payload: &'p [u8]) -> TraceLine<'p>
    ensures { (number : ℕ) → view_trace_line result
        ≡ output_told number (Output.Event instance event payload.now) }
{
    let [service, instance] = instance_ids(instance);
    let fields = [
        service,
        instance,
        next_field("event", Said::Id(event)),
        next_field("payload", Said::Bytes(payload)),
    ];
    TraceLine::four("event", fields)
}

/// An instance that is known.
fn known(instance: InstanceId, endpoint: SocketAddrV4) -> TraceLine<'static>
    ensures { (number : ℕ) → view_trace_line result
        ≡ output_told number (Output.Known instance endpoint) }
{
    let [service, instance] = instance_ids(instance);
    let fields = [
        service,
        instance,
        next_field("endpoint", Said::Endpoint(endpoint)),
    ];
    TraceLine::three("known", fields)
}

/// A Subscribe that was accepted.
fn accepted(
    eventgroup: Eventgroup,
    endpoint: SocketAddrV4,
    counter: SubscriptionCounter,
) -> TraceLine<'static>
    ensures { (number : ℕ) → view_trace_line result
        ≡ output_told number (Output.Accepted eventgroup endpoint counter) }
{
    let [service, instance, group] = eventgroup_ids(eventgroup);
    let fields = [
        service,
        instance,
        group,
        next_field("endpoint", Said::Endpoint(endpoint)),
        counter_field(counter),
    ];
    TraceLine::five("accepted", fields)
}

/// A line of a call.
fn of_call(kind: &'static str, message: MessageId, session: u16) -> TraceLine<'static>
    ensures { view_trace_line result ≡ told kind.now (call_ids message session) }
{
    TraceLine::three(kind, call_ids(message, session))
}

/// A subscription to an eventgroup that was acknowledged.
fn subscribed(eventgroup: Eventgroup, counter: SubscriptionCounter) -> TraceLine<'static>
    ensures { (number : ℕ) → view_trace_line result
        ≡ output_told number (Output.Subscribed eventgroup counter) }
{
    let [service, instance, group] = eventgroup_ids(eventgroup);
    TraceLine::four(
        "subscribed",
        [service, instance, group, counter_field(counter)],
    )
}

/// A Subscribe that was answered by a Nack.
fn nacked(eventgroup: Eventgroup, cause: &Cause) -> TraceLine<'static>
    ensures { (number : ℕ) → view_trace_line result
        ≡ output_told number (Output.Nacked eventgroup cause.now) }
{
    let [service, instance, group] = eventgroup_ids(eventgroup);
    let cause = next_field("cause", Said::Text(cause.name()));
    TraceLine::four("nacked", [service, instance, group, cause])
}

/// A line with one field.
fn one<'s>(kind: &'static str, key: &'static str, said: Said<'s>) -> TraceLine<'s>
    ensures { view_trace_line result ≡ told kind.now (next_field key.now (view_said said.entry) ∷ []) }
{
    TraceLine::one(kind, [next_field(key, said)])
}

/// The IDs of a call: of its method, and its Session ID.
fn call_ids(message: MessageId, session: u16) -> [Field<'static>; 3]
    ensures { map view_field result ≡ call_ids message session }
{
    [
        next_field("service", Said::Id(message.service)),
        id_behind_dot("method", message.method),
        next_field("session", Said::Id(session)),
    ]
}

/// The IDs of an instance.
fn instance_ids(instance: InstanceId) -> [Field<'static>; 2]
    ensures { map view_field result ≡ instance_ids instance }
{
    [
        next_field("service", Said::Id(instance.service)),
        id_behind_dot("instance", instance.instance),
    ]
}

/// The IDs of an eventgroup: of its instance, and its own.
fn eventgroup_ids(eventgroup: Eventgroup) -> [Field<'static>; 3]
    ensures { map view_field result ≡ eventgroup_ids eventgroup }
{
    let [service, instance] = instance_ids(eventgroup.instance);
    [
        service,
        instance,
        next_field("group", Said::Id(eventgroup.id)),
    ]
}

/// The counter of a subscription.
fn counter_field(counter: SubscriptionCounter) -> Field<'static>
    ensures { view_field result ≡ next_field (codes "counter") (number_content counter) }
{
    next_field("counter", Said::Number(counter.number() as usize))
}

/// The number of a token, if there is one.
fn said_token(token: Option<u64>) -> Said<'static>
    ensures { view_said result ≡ token_told token }
{
    match token {
        Some(token) => Said::Number(token as usize),
        None => Said::Nothing,
    }
}

/// A field behind a space.
pub(crate) fn next_field<'f>(key: &'static str, said: Said<'f>) -> Field<'f>
    ensures { view_field result ≡ next_field key.now (view_said said.entry) }
{
    Field {
        lead: " ",
        key,
        said,
    }
}

/// An ID behind a dot.
fn id_behind_dot(key: &'static str, id: u16) -> Field<'static>
    ensures { view_field result ≡ field (codes ".") key.now (id_content id) }
{
    Field {
        lead: ".",
        key,
        said: Said::Id(id),
    }
}
