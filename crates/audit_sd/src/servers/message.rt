//! A message, as far as its server goes.
use crate::servers::key::ServerKey;

/// A message to a server or from it.
#[derive(Clone, Copy, Debug, PartialEq, Eq)]
pub struct ServerMessage {
    /// The server: that at its destination for a REQUEST or REQUEST_NO_RETURN, and else that at its source.
    pub server: ServerKey,
    /// Its Interface Version.
    pub interface: u8,
    /// Whether it is a REQUEST, which wants an answer.
    pub is_request: bool,
}
