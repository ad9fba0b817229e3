//! Outputs as records.
ghost use Rattle.std.specs.Prelude.{◌≡◌};
ghost use Rattle.someip_c_node.specs.Records.{discovery_record, payload_of, record_of};

use crate::drops::{cause_number, detail_of, drop_number};
use crate::record::OutputRecord;
use someip_node_rules::Output;

/// The bytes that come with an output: a datagram or a payload. None come with the other kinds.
pub(crate) fn payload_of(output: &Output) -> &[u8]
    ensures { result.now ≡ payload_of output.now }
{
    match output {
        Output::Sent { bytes, .. } => bytes.as_slice(),
        Output::Request { payload, .. }
        | Output::Answered { payload, .. }
        | Output::Event { payload, .. } => payload.as_slice(),
        _ => &[],
    }
}

/// What an output tells beside its bytes.
pub(crate) fn record_of(output: &Output) -> OutputRecord
    ensures { result ≡ record_of output.now }
{
    let length = payload_of(output).len();
    match output {
        Output::Sent { from, to, .. } => OutputRecord::blank(1).with_ends(from, to),
        Output::Called { message, session } => {
            OutputRecord::blank(2).with_message(message, *session)
        }
        Output::Request {
            token,
            instance,
            method,
            ..
        } => OutputRecord::blank(3)
            .with_token(token)
            .with_instance(instance)
            .with_member(*method),
        Output::Answered {
            message,
            session,
            code,
            ..
        } => OutputRecord::blank(4)
            .with_message(message, *session)
            .with_code(code),
        Output::TimedOut { message, session } => {
            OutputRecord::blank(5).with_message(message, *session)
        }
        Output::Event {
            instance,
            event,
            ..
        } => OutputRecord::blank(6)
            .with_instance(instance)
            .with_member(*event),
        other => discovery_record(other),
    }
    .with_payload(length)
}

/// What an output of Service Discovery tells, or a drop. Others tell nothing here.
fn discovery_record(output: &Output) -> OutputRecord
    ensures { result ≡ discovery_record output.now }
{
    match output {
        Output::Known { instance, endpoint } => OutputRecord::blank(7)
            .with_instance(instance)
            .with_endpoint(endpoint),
        Output::Gone { instance } => OutputRecord::blank(8).with_instance(instance),
        Output::Subscribed {
            eventgroup,
            counter,
        } => OutputRecord::blank(9)
            .with_eventgroup(eventgroup)
            .with_counter(counter),
        Output::Unsubscribed { eventgroup } => {
            OutputRecord::blank(10).with_eventgroup(eventgroup)
        }
        Output::Accepted {
            eventgroup,
            endpoint,
            counter,
        } => OutputRecord::blank(11)
            .with_eventgroup(eventgroup)
            .with_endpoint(endpoint)
            .with_counter(counter),
        Output::Nacked { eventgroup, cause } => OutputRecord::blank(12)
            .with_eventgroup(eventgroup)
            .with_reason(cause_number(cause), 0),
        Output::Rebooted { peer } => OutputRecord::blank(13).with_peer(peer),
        Output::Dropped { reason } => {
            OutputRecord::blank(14).with_reason(drop_number(reason), detail_of(reason))
        }
        _ => OutputRecord::blank(0),
    }
}
