//! The steps of a schedule.
ghost use Rattle.std.specs.Prelude.{◌≡◌};
ghost use Rattle.someip_world_schedule.specs.StepNodes.{node_of};

use crate::step_method::MethodId;
use crate::step_name::NodeName;
use crate::step_payload::StepPayload;
use crate::step_port::SourcePort;
use sd_core::{Eventgroup, InstanceId};
use someip_rpc::{CallKind, Reply};
use std::net::SocketAddrV4;

/// A step of a schedule: what is done in a world of nodes.
#[derive(Drop)]
pub enum Step {
    /// The clock of a node goes on:
    /// `tick NODE MS`.
    Tick {
        /// The node.
        node: NodeName,
        /// By how many milliseconds.
        ms: u64,
    },
    /// A datagram that was sent is delivered:
    /// `deliver N NODE`.
    Deliver {
        /// Its number: those that were sent count from 1.
        number: u64,
        /// The node that it is delivered to.
        node: NodeName,
    },
    /// A node calls a method:
    /// `call NODE SI METHOD PAYLOAD` or `oneway NODE SI METHOD PAYLOAD`.
    Call {
        /// The node.
        node: NodeName,
        /// Whether it waits for an answer.
        kind: CallKind,
        /// The instance that it calls.
        instance: InstanceId,
        /// The method.
        method: MethodId,
        /// The payload.
        payload: StepPayload,
    },
    /// A node answers a request:
    /// `answer NODE T CODE PAYLOAD` or `error NODE T CODE PAYLOAD`.
    Answer {
        /// The node.
        node: NodeName,
        /// What the request named for its answer.
        token: u64,
        /// Whether it is a RESPONSE or an ERROR, and its Return Code.
        reply: Reply,
        /// The payload.
        payload: StepPayload,
    },
    /// A node publishes an event to those that subscribed to it:
    /// `publish NODE SI EVENT PAYLOAD`.
    Publish {
        /// The node.
        node: NodeName,
        /// The instance whose event it is.
        instance: InstanceId,
        /// Event ID.
        event: u16,
        /// The payload.
        payload: StepPayload,
    },
    /// A node publishes an event to one subscriber:
    /// `publish_to NODE SI GROUP EP EVENT PAYLOAD`.
    PublishTo {
        /// The node.
        node: NodeName,
        /// The eventgroup that the subscriber subscribed to.
        eventgroup: Eventgroup,
        /// The subscriber's endpoint.
        to: SocketAddrV4,
        /// Event ID.
        event: u16,
        /// The payload.
        payload: StepPayload,
    },
    /// A node subscribes to an eventgroup:
    /// `subscribe NODE SI GROUP`.
    Subscribe {
        /// The node.
        node: NodeName,
        /// The eventgroup.
        eventgroup: Eventgroup,
    },
    /// A node gives up its subscription to an eventgroup:
    /// `unsubscribe NODE SI GROUP`.
    Unsubscribe {
        /// The node.
        node: NodeName,
        /// The eventgroup.
        eventgroup: Eventgroup,
    },
    /// A node no longer offers an instance:
    /// `stop_offer NODE SI`.
    StopOffer {
        /// The node.
        node: NodeName,
        /// The instance.
        instance: InstanceId,
    },
    /// A node starts anew:
    /// `restart NODE DELAY`.
    Restart {
        /// The node.
        node: NodeName,
        /// The delay before its first Offers and Finds, in milliseconds.
        delay: u64,
    },
    /// A liar sends a datagram of any bytes from a port of its address:
    /// `inject NODE PORT EP PAYLOAD`.
    Inject {
        /// The liar.
        node: NodeName,
        /// The port that it sends from.
        port: SourcePort,
        /// The endpoint that it sends to.
        to: SocketAddrV4,
        /// The bytes.
        payload: StepPayload,
    },
}

impl Step {
    /// The node that the step names.
    pub fn node(&self) -> &NodeName
        ensures { result.now ≡ node_of self.now }
    {
        match self {
            Step::Tick { node, .. }
            | Step::Deliver { node, .. }
            | Step::Call { node, .. }
            | Step::Answer { node, .. }
            | Step::Publish { node, .. }
            | Step::PublishTo { node, .. }
            | Step::Subscribe { node, .. }
            | Step::Unsubscribe { node, .. }
            | Step::StopOffer { node, .. }
            | Step::Restart { node, .. }
            | Step::Inject { node, .. } => node,
        }
    }
}
