//! What a node gave, in plain numbers.
ghost use Rattle.std.specs.Prelude.{◌≡◌};
ghost use Rattle.someip_c_node.specs.Records.{blank, with_ends, with_instance, with_message, with_member, with_eventgroup, with_endpoint, with_payload, with_token, with_code, with_counter, with_reason, with_peer};

use crate::endpoint::Endpoint;
use sd_core::{Eventgroup, InstanceId};
use sd_wire::SubscriptionCounter;
use someip_rpc::MessageId;
use someip_wire::ReturnCode;
use std::net::{Ipv4Addr, SocketAddrV4};

/// One output of a node. What an output of a kind does not have is 0.
///
/// | kind | output | fields |
/// |---|---|---|
/// | 1 | `Sent` | `from`, `to`; the payload is the datagram |
/// | 2 | `Called` | `service`, `member` (the method), `session` |
/// | 3 | `Request` | `has_token`, `token`, `service`, `instance`, `member` (the method), payload |
/// | 4 | `Answered` | `service`, `member` (the method), `session`, `code`, payload |
/// | 5 | `TimedOut` | `service`, `member` (the method), `session` |
/// | 6 | `Event` | `service`, `instance`, `member` (the event), payload |
/// | 7 | `Known` | `service`, `instance`, `to` (where it is reached) |
/// | 8 | `Gone` | `service`, `instance` |
/// | 9 | `Subscribed` | `service`, `instance`, `eventgroup`, `counter` |
/// | 10 | `Unsubscribed` | `service`, `instance`, `eventgroup` |
/// | 11 | `Accepted` | `service`, `instance`, `eventgroup`, `to` (where the events go), `counter` |
/// | 12 | `Nacked` | `service`, `instance`, `eventgroup`, `reason` |
/// | 13 | `Rebooted` | `from` (the peer's address; its port is 0) |
/// | 14 | `Dropped` | `reason`, `detail` |
#[repr(C)]
#[derive(Clone, Copy, PartialEq, Eq)]
pub struct OutputRecord {
    /// Which output it is, from 1 to 14.
    pub kind: u32,
    /// Why a subscription was refused, from 1 to 5, or something dropped, from 1 to 14.
    pub reason: u32,
    /// Which fault it was, in the order of the reason's own faults from 1; 0 where it has none.
    pub detail: u32,
    /// Whether an answer is awaited: 1 or 0.
    pub has_token: u32,
    /// What the answer to a request names.
    pub token: u64,
    /// How many bytes the payload has.
    pub payload_length: usize,
    /// Where a datagram is sent from, or who rebooted.
    pub from: Endpoint,
    /// Where a datagram or an event goes, or an instance is reached.
    pub to: Endpoint,
    /// Service ID.
    pub service: u16,
    /// Instance ID.
    pub instance: u16,
    /// Method ID or Event ID.
    pub member: u16,
    /// Eventgroup ID.
    pub eventgroup: u16,
    /// Session ID of a call.
    pub session: u16,
    /// Return Code of an answer.
    pub code: u16,
    /// The counter of a subscription.
    pub counter: u16,
}

impl OutputRecord {
    /// A record of a kind, without anything else.
    pub(crate) fn blank(kind: u32) -> OutputRecord
        ensures { result ≡ blank kind }
    {
        OutputRecord {
            kind,
            reason: 0,
            detail: 0,
            has_token: 0,
            token: 0,
            payload_length: 0,
            from: Endpoint::NONE,
            to: Endpoint::NONE,
            service: 0,
            instance: 0,
            member: 0,
            eventgroup: 0,
            session: 0,
            code: 0,
            counter: 0,
        }
    }

    /// The same, between two endpoints.
    pub(crate) fn with_ends(self, from: &SocketAddrV4, to: &SocketAddrV4) -> OutputRecord
        ensures { result ≡ with_ends from.now to.now self }
    {
        OutputRecord {
            from: Endpoint::of(from),
            to: Endpoint::of(to),
            ..self
        }
    }

    /// The same, to an endpoint.
    pub(crate) fn with_endpoint(self, endpoint: &SocketAddrV4) -> OutputRecord
        ensures { result ≡ with_endpoint endpoint.now self }
    {
        OutputRecord {
            to: Endpoint::of(endpoint),
            ..self
        }
    }

    /// The same, of an instance.
    pub(crate) fn with_instance(self, instance: &InstanceId) -> OutputRecord
        ensures { result ≡ with_instance instance.now self }
    {
        OutputRecord {
            service: instance.service,
            instance: instance.instance,
            ..self
        }
    }

    /// The same, of a method or an event.
    pub(crate) fn with_member(self, member: u16) -> OutputRecord
        ensures { result ≡ with_member member self }
    {
        OutputRecord { member, ..self }
    }

    /// The same, of a call.
    pub(crate) fn with_message(self, message: &MessageId, session: u16) -> OutputRecord
        ensures { result ≡ with_message message.now session self }
    {
        OutputRecord {
            service: message.service,
            member: message.method,
            session,
            ..self
        }
    }

    /// The same, of an eventgroup.
    pub(crate) fn with_eventgroup(self, eventgroup: &Eventgroup) -> OutputRecord
        ensures { result ≡ with_eventgroup eventgroup.now self }
    {
        OutputRecord {
            service: eventgroup.instance.service,
            instance: eventgroup.instance.instance,
            eventgroup: eventgroup.id,
            ..self
        }
    }

    /// The same, with a payload of so many bytes.
    pub(crate) fn with_payload(self, payload_length: usize) -> OutputRecord
        ensures { result ≡ with_payload payload_length self }
    {
        OutputRecord {
            payload_length,
            ..self
        }
    }

    /// The same, with what the answer to a request names, if an answer is awaited.
    pub(crate) fn with_token(self, token: &Option<u64>) -> OutputRecord
        ensures { result ≡ with_token token.now self }
    {
        match token {
            Some(token) => OutputRecord {
                has_token: 1,
                token: *token,
                ..self
            },
            None => self,
        }
    }

    /// The same, with a Return Code.
    pub(crate) fn with_code(self, code: &ReturnCode) -> OutputRecord
        ensures { result ≡ with_code code.now self }
    {
        OutputRecord {
            code: u16::from(code.0),
            ..self
        }
    }

    /// The same, with the counter of a subscription.
    pub(crate) fn with_counter(self, counter: &SubscriptionCounter) -> OutputRecord
        ensures { result ≡ with_counter counter.now self }
    {
        OutputRecord {
            counter: u16::from(counter.number()),
            ..self
        }
    }

    /// The same, with a reason and which of its faults it was.
    pub(crate) fn with_reason(self, reason: u32, detail: u32) -> OutputRecord
        ensures { result ≡ with_reason reason detail self }
    {
        OutputRecord {
            reason,
            detail,
            ..self
        }
    }

    /// The same, of a peer.
    pub(crate) fn with_peer(self, peer: &Ipv4Addr) -> OutputRecord
        ensures { result ≡ with_peer peer.now self }
    {
        OutputRecord {
            from: Endpoint {
                address: peer.octets(),
                port: 0,
            },
            ..self
        }
    }
}
