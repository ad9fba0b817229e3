//! An Offer of a recording, as far as it names a server.
use crate::servers::key::ServerKey;
use std::net::Ipv4Addr;

/// What a server offers of its service.
#[derive(Clone, Copy, Debug, PartialEq, Eq)]
pub struct Served {
    /// Instance ID.
    pub instance: u16,
    /// Major version.
    pub major: u8,
}

/// An Offer with an IPv4 UDP endpoint (SOME/IP Service Discovery Protocol, "Offer Service entry").
#[derive(Clone, Copy, Debug, PartialEq, Eq)]
pub struct ServerOffer {
    /// The server that it names.
    pub server: ServerKey,
    /// What it offers there.
    pub served: Served,
    /// TTL in seconds; FFFFFF lasts until the next reboot.
    pub ttl: u32,
    /// The address that it was sent from.
    pub sender: Ipv4Addr,
}
