//! What a node gives.

use crate::drops::DropReason;
use crate::payload::Payload;
use sd_core::{Cause, Eventgroup, InstanceId};
use sd_wire::SubscriptionCounter;
use someip_rpc::MessageId;
use someip_wire::ReturnCode;
use std::net::{Ipv4Addr, SocketAddrV4};

/// What a node gives to whoever carries its datagrams and uses its services, one after the other.
#[derive(Drop)]
pub enum Output {
    /// A datagram is to be sent.
    Sent {
        /// Where it is sent from.
        from: SocketAddrV4,
        /// Where it is to arrive.
        to: SocketAddrV4,
        /// Its bytes.
        bytes: Payload,
    },
    /// A call was accepted. Its datagrams follow.
    Called {
        /// What is called.
        message: MessageId,
        /// The Session ID of the call.
        session: u16,
    },
    /// A request came to an instance.
    Request {
        /// What its answer names, where it waits for one.
        token: Option<u64>,
        /// The instance.
        instance: InstanceId,
        /// Method ID.
        method: u16,
        /// The payload.
        payload: Payload,
    },
    /// The answer to a call came.
    Answered {
        /// What was called.
        message: MessageId,
        /// The Session ID of the call.
        session: u16,
        /// The Return Code.
        code: ReturnCode,
        /// The payload.
        payload: Payload,
    },
    /// No answer to a call came in time.
    TimedOut {
        /// What was called.
        message: MessageId,
        /// The Session ID of the call.
        session: u16,
    },
    /// An event of a subscribed eventgroup came.
    Event {
        /// The instance that published it.
        instance: InstanceId,
        /// Event ID.
        event: u16,
        /// The payload.
        payload: Payload,
    },
    /// An offer of a wanted instance is known that was not, or its endpoint changed.
    Known {
        /// The instance.
        instance: InstanceId,
        /// Where it is reached.
        endpoint: SocketAddrV4,
    },
    /// A known offer ended.
    Gone {
        /// The instance.
        instance: InstanceId,
    },
    /// The node is subscribed to an eventgroup, and was not before.
    Subscribed {
        /// The eventgroup.
        eventgroup: Eventgroup,
        /// The counter of the subscription.
        counter: SubscriptionCounter,
    },
    /// A subscription that was begun ended, whether it was acknowledged or not.
    Unsubscribed {
        /// The eventgroup.
        eventgroup: Eventgroup,
    },
    /// The Subscribe of a client was accepted, for the first time or as a renewal.
    Accepted {
        /// The eventgroup.
        eventgroup: Eventgroup,
        /// Where the events go.
        endpoint: SocketAddrV4,
        /// The counter of the subscription.
        counter: SubscriptionCounter,
    },
    /// The Subscribe of a client was answered by a Nack.
    Nacked {
        /// The eventgroup.
        eventgroup: Eventgroup,
        /// The reason.
        cause: Cause,
    },
    /// A peer began again.
    Rebooted {
        /// Its address.
        peer: Ipv4Addr,
    },
    /// Something that came was dropped.
    Dropped {
        /// The reason.
        reason: DropReason,
    },
}
