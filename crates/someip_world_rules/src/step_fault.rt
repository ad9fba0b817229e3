//! Why a step is bad.

use thiserror::Error;

/// Why a step can't happen, in the order in which the causes are tested.
#[derive(Clone, Copy, Debug, PartialEq, Eq, Error)]
pub enum StepFault {
    /// The setup has no node of the name.
    #[error("UnknownNode")]
    UnknownNode,
    /// The step is an `inject`, and names a node that is no liar.
    #[error("NotLiar")]
    NotLiar,
    /// The step names a liar, and is no `inject`.
    #[error("IsLiar")]
    IsLiar,
    /// No datagram of the number was sent yet.
    #[error("NoSuchDatagram")]
    NoSuchDatagram,
    /// The datagram was sent neither to the node's address nor to the multicast group.
    #[error("NotAddressed")]
    NotAddressed,
    /// The node's clock would go past 2^63 - 1 milliseconds.
    #[error("ClockPast")]
    ClockPast,
    /// The payload is longer than the setup's message limit, or what a liar sends is longer than 65507
    /// bytes (RFC 791, 3.1 "Total Length"; RFC 768, "Length": 65535 without headers of 20 and 8 bytes).
    #[error("PayloadTooLong")]
    PayloadTooLong,
    /// The delay is outside the setup's range.
    #[error("BadDelay")]
    BadDelay,
}
