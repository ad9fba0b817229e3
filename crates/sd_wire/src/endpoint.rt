//! Endpoints in options (SOME/IP Service Discovery, "IPv4 Endpoint Option" and "IPv6 Endpoint
//! Option").

use std::net::{Ipv6Addr, SocketAddrV4};

/// The transport protocol of an endpoint. Numbers without a name are kept.
#[derive(Clone, Copy, Debug, PartialEq, Eq)]
pub struct Protocol(pub u8);

impl Protocol {
    /// TCP.
    pub const TCP: Protocol = Protocol(0x06);
    /// UDP.
    pub const UDP: Protocol = Protocol(0x11);
}

/// An IPv4 address, a transport protocol and a port.
#[derive(Clone, Copy, Debug, PartialEq, Eq)]
pub struct Ipv4Endpoint {
    /// Address and port.
    pub socket: SocketAddrV4,
    /// Transport protocol.
    pub protocol: Protocol,
}

/// An IPv6 address, a transport protocol and a port.
#[derive(Clone, Copy, Debug, PartialEq, Eq)]
pub struct Ipv6Endpoint {
    /// Address.
    pub address: Ipv6Addr,
    /// Port.
    pub port: u16,
    /// Transport protocol.
    pub protocol: Protocol,
}
