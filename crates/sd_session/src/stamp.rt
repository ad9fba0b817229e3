//! What each message of Service Discovery carries of its sender's sessions.

/// The session and the Reboot flag of a message of Service Discovery (SOME/IP Service Discovery
/// Protocol, "Session ID", "Reboot flag").
#[derive(Clone, Copy, Debug, PartialEq, Eq)]
pub struct Stamp {
    /// The Session ID, from 1 to FFFF; after FFFF comes 1.
    pub session: u16,
    /// The Reboot flag: set from the sender's start until its sessions have wrapped.
    pub reboot: bool,
}

/// The two kinds of messages that a sender counts apart, told by the destination.
#[derive(Clone, Copy, Debug, PartialEq, Eq)]
pub enum Channel {
    /// Sent to the multicast group.
    Multicast,
    /// Sent to one node.
    Unicast,
}
