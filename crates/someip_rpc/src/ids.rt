//! What tells methods, events and calls apart.

/// A Message ID: a service, and one of its methods or events (SOME/IP Protocol, "Message ID").
#[derive(Clone, Copy, Debug, PartialEq, Eq, PartialOrd, Ord)]
pub struct MessageId {
    /// Service ID.
    pub service: u16,
    /// Method ID. The top bit is set for an event.
    pub method: u16,
}

/// A call of a client: its Message ID, and its session. The Client ID is the client's own.
#[derive(Clone, Copy, Debug, PartialEq, Eq, PartialOrd, Ord)]
pub struct CallKey {
    /// What is called.
    pub message: MessageId,
    /// Session ID.
    pub session: u16,
}

/// An event of a service instance.
#[derive(Clone, Copy, Debug, PartialEq, Eq, PartialOrd, Ord)]
pub struct EventId {
    /// Service ID.
    pub service: u16,
    /// Instance ID.
    pub instance: u16,
    /// Event ID: the second half of the Message ID, whose top bit is set.
    pub event: u16,
}
