//! Who messages of Service Discovery go to.

use std::net::Ipv4Addr;

/// Who messages of Service Discovery go to.
#[derive(Clone, Copy, Debug, PartialEq, Eq)]
pub enum Receiver {
    /// All nodes: the multicast group.
    Group,
    /// One peer.
    Peer(Ipv4Addr),
}
