//! Where something in a recording comes from.
use std::net::SocketAddrV4;

/// The numbers of a datagram of a recording, each counted from 1.
#[derive(Clone, Copy, Debug, PartialEq, Eq)]
pub struct Numbers {
    /// Its number among the datagrams.
    pub datagram: u64,
    /// The number of its packet among the packets. Of a datagram that came in fragments this is the packet
    /// that completed it.
    pub frame: u64,
}

/// The datagram of a recording that something came in.
#[derive(Clone, Copy, Debug, PartialEq, Eq)]
pub struct Origin {
    /// Its numbers in the recording.
    pub numbers: Numbers,
    /// The endpoint that it was sent from; its address is the sender.
    pub from: SocketAddrV4,
    /// The endpoint that it was sent to.
    pub to: SocketAddrV4,
}
