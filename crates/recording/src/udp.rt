//! The datagram in an IPv4 packet (RFC 768).
//!
//! Bytes between the UDP Length and the end of the IPv4 packet are dropped.
ghost use Rattle.std.specs.Prelude.{◌≡◌, true};
ghost use Rattle.recording.specs.Packets.{carried_by, carried_in, datagram_of, is_udp};
ghost use Rattle.recording.specs.View.{view_carried, view_datagram, view_ipv4};

use crate::ipv4::{Ipv4Packet, UDP};
use crate::number::network_u16_at;
use crate::record::{Datagram, Endpoint, Record, Skipped};
use crate::time::Time;

/// What a packet carries.
#[derive(Clone, Copy, Debug, PartialEq, Eq)]
pub enum Carried<'a> {
    /// A whole datagram.
    Datagram(Datagram<'a>),
    /// A fragment of one.
    Fragment,
    /// Neither, and why.
    Nothing(Skipped),
}

impl<'a> Record<'a> {
    /// What the packet carries.
    pub fn carried(&self) -> Carried<'a>
        ensures { view_carried result ≡ carried_in self.now.time self.now.link self.now.bytes.now }
    {
        match self.ipv4() {
            Ok(packet) => packet.carried(self.time),
            Err(skipped) => Carried::Nothing(skipped),
        }
    }
}

impl<'a> Ipv4Packet<'a> {
    /// What the packet carries, recorded at this time.
    pub fn carried(&self, time: Option<Time>) -> Carried<'a>
        ensures { view_carried result ≡ carried_by time (view_ipv4 self.now) }
    {
        if self.protocol != UDP {
            Carried::Nothing(Skipped::NotUdp)
        } else if self.is_fragment() {
            Carried::Fragment
        } else if is_udp(self.payload) {
            Carried::Datagram(datagram_of(time, self))
        } else {
            Carried::Nothing(Skipped::BadUdpLength)
        }
    }
}

/// Whether the bytes hold a datagram: with its header it is no longer than they.
fn is_udp(payload: &[u8]) -> bool
    ensures { result ≡ is_udp payload.now }
{
    if payload.len() < 8 {
        return false;
    }
    let size = network_u16_at(payload, 4) as usize;
    8 <= size && size <= payload.len()
}

/// The datagram, recorded at this time.
fn datagram_of<'a>(time: Option<Time>, packet: &Ipv4Packet<'a>) -> Datagram<'a>
    requires { is_udp packet.now.payload.now ≡ true }
    ensures { view_datagram result ≡ datagram_of time (view_ipv4 packet.now) }
{
    let size = network_u16_at(packet.payload, 4) as usize;
    Datagram {
        time,
        from: Endpoint {
            ip: packet.source,
            port: network_u16_at(packet.payload, 0),
        },
        to: Endpoint {
            ip: packet.destination,
            port: network_u16_at(packet.payload, 2),
        },
        payload: &packet.payload[8..size],
    }
}
