//! What a client calls, and what it sends.
use crate::ids::MessageId;
use someip_wire::Message;
use std::net::SocketAddrV4;

/// The settings of a client.
#[derive(Clone, Copy, Debug, PartialEq, Eq)]
pub struct ClientRules {
    /// The Client ID of its calls.
    pub client: u16,
    /// The endpoint from which it calls, and at which the answers come.
    pub endpoint: SocketAddrV4,
    /// The greatest payload of a message, in bytes.
    pub message_limit: usize,
    /// For how many milliseconds a call waits for its answer.
    pub call_timeout_ms: u32,
}

/// Whether a call waits for an answer.
#[derive(Clone, Copy, Debug, PartialEq, Eq)]
pub enum CallKind {
    /// It does (type 00, REQUEST).
    Request,
    /// It does not (type 01, REQUEST_NO_RETURN).
    RequestNoReturn,
}

/// What a client calls.
#[derive(Clone, Copy, Debug, PartialEq, Eq)]
pub struct Call {
    /// Whether it waits for an answer.
    pub kind: CallKind,
    /// The method.
    pub message: MessageId,
    /// The wanted major version of the service: the Interface Version.
    pub interface: u8,
}

/// From whom the answer to a call is awaited.
#[derive(Clone, Copy, Debug, PartialEq, Eq)]
pub struct Awaited {
    /// The endpoint that was called.
    pub peer: SocketAddrV4,
    /// The Interface Version of the call.
    pub interface: u8,
}

/// A message that is to be sent. Its payload is where it was lent from.
#[derive(Clone, Copy, Debug, PartialEq, Eq)]
pub struct Outgoing<'a> {
    /// The endpoint that sends.
    pub from: SocketAddrV4,
    /// The endpoint that it goes to.
    pub to: SocketAddrV4,
    /// The message.
    pub message: Message<'a>,
}
