//! The IPv4 packet in a captured packet (RFC 791, section 3.1).
ghost use Rattle.std.specs.Prelude.{◌≡◌, ◌≤◌, Some, None, Ok, Err, length, IfOk, IfErr, OnOk};
ghost use Rattle.recording.specs.Packets.{header_len, ipv4_at, ipv4_fault, ipv4_in, ipv4_of, is_cut, is_fragment};
ghost use Rattle.recording.specs.View.{view_ipv4};

use crate::link::network_place;
use crate::number::network_u16_at;
use crate::record::{Record, Skipped};

/// The number of UDP among the protocols that IPv4 carries.
pub(crate) const UDP: u8 = 17;

/// A whole IPv4 packet, without what the link layer has before and after it.
#[derive(Clone, Copy, Debug, PartialEq, Eq)]
pub struct Ipv4Packet<'a> {
    /// The four bytes of the source address.
    pub source: [u8; 4],
    /// The four bytes of the destination address.
    pub destination: [u8; 4],
    /// Identification, which the fragments of a packet share.
    pub identification: u16,
    /// The field of the flags and the fragment offset: Reserved, Don't Fragment, More Fragments, and 13
    /// bits of offset in groups of 8 bytes.
    pub fragment: u16,
    /// The number of the protocol that it carries.
    pub protocol: u8,
    /// The bytes after the header, up to the Total Length.
    pub payload: &'a [u8],
}

impl<'a> Record<'a> {
    /// The whole IPv4 packet that was captured, or the first reason for which there is none. Of one that
    /// the recorder cut it is still told whether it carried UDP.
    pub fn ipv4(&self) -> Result<Ipv4Packet<'a>, Skipped>
        ensures ok { IfOk result (λ p. ipv4_in self.now.link self.now.bytes.now ≡ Ok (view_ipv4 p)) }
        ensures err { IfErr result (λ skipped. ipv4_in self.now.link self.now.bytes.now ≡ Err skipped) }
    {
        let place = network_place(self.link, self.bytes)?;
        ipv4_at(&self.bytes[place..])
    }
}

impl<'a> Ipv4Packet<'a> {
    /// Whether it is a fragment: More Fragments is set, or the fragment offset is not 0.
    pub fn is_fragment(&self) -> bool
        ensures { result ≡ is_fragment (view_ipv4 self.now) }
    {
        self.fragment % 0x4000 != 0
    }
}

/// The packet in the bytes that IPv4 begins with.
fn ipv4_at(ip: &[u8]) -> Result<Ipv4Packet<'_>, Skipped>
    ensures ok { IfOk result (λ p. ipv4_at ip.now ≡ Ok (view_ipv4 p)) }
    ensures err { IfErr result (λ skipped. ipv4_at ip.now ≡ Err skipped) }
{
    check_ipv4(ip)?;
    Ok(ipv4_of(ip))
}

/// Whether the bytes are a whole IPv4 packet.
fn check_ipv4(ip: &[u8]) -> Result<(), Skipped>
    ensures ok { OnOk result (ipv4_fault ip.now ≡ None) }
    ensures err { IfErr result (λ skipped. ipv4_fault ip.now ≡ Some skipped) }
{
    if ip.len() < 20 || ip[0] / 16 != 4 || header_len(ip) < 20 {
        return Err(Skipped::NotIpv4);
    }
    if !is_cut(ip) {
        return Ok(());
    }
    if ip[9] == UDP {
        Err(Skipped::Cut)
    } else {
        Err(Skipped::NotUdp)
    }
}

/// Whether the recorder cut the packet.
fn is_cut(ip: &[u8]) -> bool
    requires { 20 ≤ length ip.now }
    ensures { result ≡ is_cut ip.now }
{
    ip.len() < header_len(ip) || ip.len() < network_u16_at(ip, 2) as usize
}

/// The packet, where the bytes are a whole one.
fn ipv4_of(ip: &[u8]) -> Ipv4Packet<'_>
    requires { ipv4_fault ip.now ≡ None }
    ensures { view_ipv4 result ≡ ipv4_of ip.now }
{
    Ipv4Packet {
        source: [ip[12], ip[13], ip[14], ip[15]],
        destination: [ip[16], ip[17], ip[18], ip[19]],
        identification: network_u16_at(ip, 4),
        fragment: network_u16_at(ip, 6),
        protocol: ip[9],
        payload: payload_of(ip),
    }
}

/// The bytes after the header, up to the Total Length, where the bytes are a whole packet.
fn payload_of(ip: &[u8]) -> &[u8]
    requires { ipv4_fault ip.now ≡ None }
    ensures { result.now ≡ (ipv4_of ip.now).payload }
{
    let header = header_len(ip);
    let total = network_u16_at(ip, 2) as usize;
    if total < header {
        return &[];
    }
    &ip[header..total]
}

/// How many bytes the header of IPv4 has.
fn header_len(ip: &[u8]) -> usize
    requires { 1 ≤ length ip.now }
    ensures { result ≡ header_len ip.now }
{
    (ip[0] % 16) as usize * 4
}
