//! The bytes of options.
ghost use Rattle.std.specs.Prelude.{◌≡◌, ◌<◌, ◌≤◌, ◌^◌, ◌+◌, ◌++◌, ℕ, length, slice_index, OnOk};
ghost use Rattle.std.specs.Net.Addr.{ipv4_octets, ipv6_octets, IsIpv4Addr, IsIpv6Addr};
ghost use Rattle.sd_wire.specs.layout.Fields.{IsBytes};
ghost use Rattle.sd_wire.specs.layout.Spelling.{ipv4_bytes, ipv6_bytes, option_bytes, Ipv4Fits, Ipv6Fits, RawFits, OptionFits};
ghost use Rattle.sd_wire.specs.declared.option.SdOption.TheVariants.{LoadBalancing, Raw};

use crate::endpoint::{Ipv4Endpoint, Ipv6Endpoint, Protocol};
use crate::option::{RawOption, SdOption};
use std::alloc::AllocError;
use std::net::{Ipv4Addr, Ipv6Addr};

/// Adds a load balancing option.
fn put_load(priority: u16, weight: u16, out: &mut Vec<u8>) -> Result<(), AllocError>
    ensures { OnOk result (out.new.items
        ≡ out.old.items ++ option_bytes 0 0 (LoadBalancing priority weight)) }
{
    let [a, b] = priority.to_be_bytes();
    let [c, d] = weight.to_be_bytes();
    out.extend_from_slice(&[0, 5, 0x02, 0, a, b, c, d])?;
    Ok(())
}

/// Does nothing: its contract says what the type of four octets says of them.
fn are_octets(octets: &[u8])
    requires { length octets.now ≡ 4 }
    ensures len { length octets.now ≡ 4 }
    ensures fit { IsBytes octets.now }
{}

/// Does nothing: its contract says what the type of eight segments says of them.
fn are_segments(segments: &[u16])
    requires { length segments.now ≡ 8 }
    ensures len { length segments.now ≡ 8 }
    ensures fit { (i : ℕ) → slice_index segments.now i < 2 ^ 16 }
{}

/// The octets of an IPv4 address.
fn ipv4_octets(address: &Ipv4Addr) -> [u8; 4]
    ensures value { result ≡ ipv4_octets address.now }
    ensures fits { IsIpv4Addr address.now }
{
    let octets = address.octets();
    are_octets(&octets);
    octets
}

/// The octets of an IPv6 address.
fn ipv6_octets(address: &Ipv6Addr) -> [u8; 16]
    ensures value { result ≡ ipv6_octets address.now }
    ensures fits { IsIpv6Addr address.now }
{
    are_segments(&address.segments());
    address.octets()
}

/// The number of a protocol.
fn protocol_byte(protocol: Protocol) -> u8
    ensures value { result ≡ protocol.0 }
    ensures fits { protocol.0 < 2 ^ 8 }
{
    protocol.0
}

/// Adds an IPv4 option of the type.
fn put_ipv4(kind: u8, endpoint: &Ipv4Endpoint, out: &mut Vec<u8>) -> Result<(), AllocError>
    ensures text { OnOk result (out.new.items ≡ out.old.items ++ ipv4_bytes kind 0 0 endpoint.now) }
    ensures fits { OnOk result (Ipv4Fits endpoint.now) }
{
    let [high, low] = endpoint.socket.port().to_be_bytes();
    let octets = ipv4_octets(endpoint.socket.ip());
    let protocol = protocol_byte(endpoint.protocol);
    out.extend_from_slice(&[0, 9, kind, 0])?;
    out.extend_from_slice(&octets)?;
    out.extend_from_slice(&[0, protocol, high, low])?;
    Ok(())
}

/// Adds an IPv6 option of the type.
fn put_ipv6(kind: u8, endpoint: &Ipv6Endpoint, out: &mut Vec<u8>) -> Result<(), AllocError>
    ensures text { OnOk result (out.new.items ≡ out.old.items ++ ipv6_bytes kind 0 0 endpoint.now) }
    ensures fits { OnOk result (Ipv6Fits endpoint.now) }
{
    let [high, low] = endpoint.port.to_be_bytes();
    let octets = ipv6_octets(&endpoint.address);
    let protocol = protocol_byte(endpoint.protocol);
    out.extend_from_slice(&[0, 21, kind, 0])?;
    out.extend_from_slice(&octets)?;
    out.extend_from_slice(&[0, protocol, high, low])?;
    Ok(())
}

/// Adds an option without a layout.
fn put_raw(option: &RawOption, out: &mut Vec<u8>) -> Result<(), AllocError>
    ensures text { OnOk result (out.new.items
        ≡ out.old.items ++ option_bytes 0 0 (Raw option.now)) }
    ensures fits { OnOk result (RawFits option.now) }
{
    let kind = option.kind();
    let bytes = option.bytes();
    let [high, low] = (bytes.len() as u16).to_be_bytes();
    out.extend_from_slice(&[high, low, kind])?;
    out.extend_from_slice(bytes)?;
    Ok(())
}

/// Adds an option.
pub(crate) fn put_option(option: &SdOption, out: &mut Vec<u8>) -> Result<(), AllocError>
    ensures text { OnOk result (out.new.items ≡ out.old.items ++ option_bytes 0 0 option.now) }
    ensures fits { OnOk result (OptionFits option.now) }
{
    match option {
        SdOption::LoadBalancing { priority, weight } => put_load(*priority, *weight, out),
        SdOption::Endpoint4(endpoint) => put_ipv4(0x04, endpoint, out),
        SdOption::Multicast4(endpoint) => put_ipv4(0x14, endpoint, out),
        SdOption::SdEndpoint4(endpoint) => put_ipv4(0x24, endpoint, out),
        SdOption::Endpoint6(endpoint) => put_ipv6(0x06, endpoint, out),
        SdOption::Multicast6(endpoint) => put_ipv6(0x16, endpoint, out),
        SdOption::SdEndpoint6(endpoint) => put_ipv6(0x26, endpoint, out),
        SdOption::Raw(raw) => put_raw(raw, out),
    }
}

/// How many bytes an option has.
pub(crate) fn option_len(option: &SdOption) -> usize
    ensures len { result ≡ length (option_bytes 0 0 option.now) }
    ensures most { result ≤ 65538 }
{
    match option {
        SdOption::LoadBalancing { .. } => 8,
        SdOption::Endpoint4(endpoint) => ipv4_len(endpoint),
        SdOption::Multicast4(endpoint) => ipv4_len(endpoint),
        SdOption::SdEndpoint4(endpoint) => ipv4_len(endpoint),
        SdOption::Endpoint6(endpoint) => ipv6_len(endpoint),
        SdOption::Multicast6(endpoint) => ipv6_len(endpoint),
        SdOption::SdEndpoint6(endpoint) => ipv6_len(endpoint),
        SdOption::Raw(raw) => 3 + raw.bytes().len(),
    }
}

/// How many bytes an IPv4 option has.
fn ipv4_len(endpoint: &Ipv4Endpoint) -> usize
    ensures len { result ≡ length (ipv4_bytes 0 0 0 endpoint.now) }
    ensures most { result ≤ 65538 }
{
    8 + ipv4_octets(endpoint.socket.ip()).len()
}

/// How many bytes an IPv6 option has.
fn ipv6_len(endpoint: &Ipv6Endpoint) -> usize
    ensures len { result ≡ length (ipv6_bytes 0 0 0 endpoint.now) }
    ensures most { result ≤ 65538 }
{
    8 + ipv6_octets(&endpoint.address).len()
}
