//! What a recording gives of each packet.

use crate::time::Time;

/// A packet as it was captured, whose bytes lie in the recording's.
#[derive(Clone, Copy, Debug, PartialEq, Eq)]
pub struct Record<'a> {
    /// When it was recorded. None where the file does not say: a simple packet block of pcapng.
    pub time: Option<Time>,
    /// The number of its interface: in pcapng that of its section's descriptions, from 0; in classic
    /// pcap 0.
    pub interface: usize,
    /// The type of its link layer, as `LINKTYPE_ETHERNET`, 1.
    pub link: u16,
    /// How many bytes it had before it was captured.
    pub original: u32,
    /// The bytes that were captured, from the header of the link layer on.
    pub bytes: &'a [u8],
}

/// An IPv4 address and a UDP port.
#[derive(Clone, Copy, Debug, PartialEq, Eq)]
pub struct Endpoint {
    /// The four bytes of the address, as in `[192, 168, 0, 1]`.
    pub ip: [u8; 4],
    /// The port.
    pub port: u16,
}

/// A whole UDP datagram.
#[derive(Clone, Copy, Debug, PartialEq, Eq)]
pub struct Datagram<'a> {
    /// When it was recorded. None where the file does not say.
    pub time: Option<Time>,
    /// Where it came from.
    pub from: Endpoint,
    /// Where it went to.
    pub to: Endpoint,
    /// The bytes that the UDP Length counts after the header. What Ethernet pads is none of them.
    pub payload: &'a [u8],
}

/// Why a packet carries no datagram, and no fragment of one: the first of these that holds.
#[derive(Clone, Copy, Debug, PartialEq, Eq)]
pub enum Skipped {
    /// The link type is none that is read: neither Ethernet, Linux cooked nor raw IPv4.
    LinkType,
    /// It is no IPv4: another protocol of the link layer, as IPv6, or too short for the headers, or a
    /// version that is not 4, or a header length below 20.
    NotIpv4,
    /// It is IPv4, and the protocol is not UDP.
    NotUdp,
    /// The recorder cut it: the header or the Total Length passes the bytes that were captured.
    Cut,
    /// The Total Length has no room for a UDP header, or the UDP Length is below 8 or passes it.
    BadUdpLength,
}
