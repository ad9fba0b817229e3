//! Why something that came is dropped.
//!
//! The names `WrongType` and `NotPending` come from two tables each: a drop holds the reason of the core
//! that judged (`DropReason::Answer`, `DropReason::Request`), and its text is the name.
ghost use Rattle.std.specs.Prelude.{◌≡◌};
ghost use Rattle.someip_node_rules.specs.rules.DropNames.{drop_name};

use sd_wire::SdError;
use someip_reassembly::TpError;
use someip_rpc::{DropCause, RequestFault};
use someip_wire::WireError;
use thiserror::Error;

/// Why a datagram, a message, a segment or an entry that came is dropped. Nothing is changed by it, but
/// that a segment that contradicts its message ends that message, and that with any segment the messages
/// in part end whose time is over.
#[derive(Clone, Copy, Debug, PartialEq, Eq, Error)]
pub enum DropReason {
    /// The datagram has the node's own address as its source.
    #[error("Own")]
    Own,
    /// Nothing of the node is reached at the datagram's destination.
    #[error("NoPort")]
    NoPort,
    /// The message came to the port of Service Discovery, and is none of its messages.
    #[error("NotSd")]
    NotSd,
    /// The message of Service Discovery is of a new peer, and the node has as many as it may.
    #[error("PeersFull")]
    PeersFull,
    /// A run of the entry passes the options of the message, and the entry is no Subscribe.
    #[error("BadRun")]
    BadRun,
    /// The Offer or StopSubscribe has no IPv4 endpoint option over UDP.
    #[error("NoEndpoint")]
    NoEndpoint,
    /// The Offer is of an instance of which another peer's offer is known.
    #[error("OtherPeer")]
    OtherPeer,
    /// The Ack or Nack answers no subscription that stands.
    #[error("NotPending")]
    NotPending,
    /// The event belongs to no eventgroup that the client is subscribed to, comes from another endpoint
    /// than that of the known offer, or has another Interface Version than the wanted major version.
    #[error("NotSubscribed")]
    NotSubscribed,
    /// The message that came to the client answers no call, or is none that a client takes.
    #[error("{0}")]
    Answer(DropCause),
    /// The message that came to an instance is no request, or a REQUEST_NO_RETURN that fails a check.
    #[error("{0}")]
    Request(RequestFault),
    /// The rest of the datagram is no message.
    #[error("{}", .0.name())]
    Wire(WireError),
    /// The message of Service Discovery is none.
    #[error("{}", .0.name())]
    Sd(SdError),
    /// The segment is refused.
    #[error("{}", .0.name())]
    Tp(TpError),
}

impl DropReason {
    /// The name of the reason, as a trace tells it.
    pub fn name(&self) -> &'static str
        ensures { result.now ≡ drop_name self.now }
    {
        match self {
            DropReason::Own => "Own",
            DropReason::NoPort => "NoPort",
            DropReason::NotSd => "NotSd",
            DropReason::PeersFull => "PeersFull",
            DropReason::BadRun => "BadRun",
            DropReason::NoEndpoint => "NoEndpoint",
            DropReason::OtherPeer => "OtherPeer",
            DropReason::NotPending => "NotPending",
            DropReason::NotSubscribed => "NotSubscribed",
            DropReason::Answer(cause) => cause.name(),
            DropReason::Request(fault) => fault.name(),
            DropReason::Wire(fault) => fault.name(),
            DropReason::Sd(fault) => fault.name(),
            DropReason::Tp(fault) => fault.name(),
        }
    }
}
