//! The header of the link layer: where IPv4 begins, and the VLAN IDs.
ghost use Rattle.std.specs.Prelude.{◌≡◌, ◌≤◌, ◌+◌, ◌⊎◌, Ok, Err, length, IfOk, IfErr};
ghost use Rattle.recording.specs.Packets.{after_tag, ethernet_protocol, inner_vlan, network_at, network_place};
ghost use Rattle.recording.specs.Packets.{outer_vlan, vlan_at};

use crate::number::network_u16_at;
use crate::record::{Record, Skipped};

const ETHERNET: u16 = 1;

const RAW: u16 = 101;

const COOKED: u16 = 113;

const IPV4: u16 = 228;

const COOKED_2: u16 = 276;

impl<'a> Record<'a> {
    /// The VLAN ID of the first tag of an Ethernet frame, if it has one (IEEE 802.1Q).
    pub fn outer_vlan(&self) -> Option<u16>
        ensures { result ≡ outer_vlan self.now.link self.now.bytes.now }
    {
        if self.link == ETHERNET {
            vlan_at(self.bytes, 12)
        } else {
            None
        }
    }

    /// The VLAN ID of the second tag, if it has two.
    pub fn inner_vlan(&self) -> Option<u16>
        ensures { result ≡ inner_vlan self.now.link self.now.bytes.now }
    {
        if self.link == ETHERNET {
            vlan_at(self.bytes, after_tag(self.bytes, 12))
        } else {
            None
        }
    }
}

/// The VLAN ID of the tag at a place, if there is one.
fn vlan_at(packet: &[u8], place: usize) -> Option<u16>
    requires { place ≤ 16 }
    ensures { result ≡ vlan_at packet.now place }
{
    if after_tag(packet, place) == place {
        None
    } else {
        Some(network_u16_at(packet, place + 2) % 0x1000)
    }
}

/// Where the bytes of IPv4 begin, if the link layer says that they are.
pub(crate) fn network_place(link: u16, packet: &[u8]) -> Result<usize, Skipped>
    ensures ok { IfOk result (λ place. network_place link packet.now ≡ Ok place) }
    ensures err { IfErr result (λ skipped. network_place link packet.now ≡ Err skipped) }
    ensures within { IfOk result (λ place. place ≤ length packet.now) }
{
    if link == ETHERNET {
        let protocol = ethernet_protocol(packet);
        network_at(packet, protocol, protocol + 2)
    } else if link == COOKED {
        network_at(packet, 14, 16)
    } else if link == COOKED_2 {
        network_at(packet, 0, 20)
    } else if link == RAW || link == IPV4 {
        Ok(0)
    } else {
        Err(Skipped::LinkType)
    }
}

/// The place of the data, if the number in the field of the protocol is that of IPv4.
fn network_at(packet: &[u8], protocol: usize, start: usize) -> Result<usize, Skipped>
    requires { protocol + 2 ≤ start }
    ensures ok { IfOk result (λ place. network_at packet.now protocol start ≡ Ok place) }
    ensures err { IfErr result (λ skipped. network_at packet.now protocol start ≡ Err skipped) }
    ensures within { IfOk result (λ place. place ≤ length packet.now) }
{
    if packet.len() < start || network_u16_at(packet, protocol) != 0x0800 {
        return Err(Skipped::NotIpv4);
    }
    Ok(start)
}

/// Where the number of the protocol stands in an Ethernet frame: after up to two VLAN tags.
fn ethernet_protocol(packet: &[u8]) -> usize
    ensures value { result ≡ ethernet_protocol packet.now }
    ensures most { result ≤ 20 }
{
    after_tag(packet, after_tag(packet, 12))
}

/// The place after the VLAN tag at a place, or that place where there is none.
fn after_tag(packet: &[u8], place: usize) -> usize
    requires { place ≤ 16 }
    ensures value { result ≡ after_tag packet.now place }
    ensures most { result ≤ place + 4 }
    ensures tag { result ≡ place ⊎ (place + 4 ≤ length packet.now) }
{
    if packet.len() < place + 4 {
        return place;
    }
    let kind = network_u16_at(packet, place);
    if kind == 0x8100 || kind == 0x88a8 || kind == 0x9100 {
        place + 4
    } else {
        place
    }
}
