//! Options from bytes.
ghost use Rattle.std.specs.Prelude.{◌≡◌, ◌≤◌, ◌<◌, ◌+◌, ◌^◌, ◌==◌, true, false, length, slice_index, IfOk, IfErr, IfSome};
ghost use Rattle.sd_wire.specs.declared.error.SdError.TheVariants.{OutOfMemory};
ghost use Rattle.sd_wire.specs.contents.Raw.{has_layout};
ghost use Rattle.sd_wire.specs.decoding.Steps.{Gives, IsReadingError};
ghost use Rattle.sd_wire.specs.decoding.Faults.{has_len, option_size};
ghost use Rattle.sd_wire.specs.decoding.Program.{HasOption, ipv4_in, ipv6_in, option_in, options_from};

use crate::endpoint::{Ipv4Endpoint, Ipv6Endpoint, Protocol};
use crate::error::SdError;
use crate::fields::u16_at;
use crate::option::{RawOption, SdOption, layout_len};
use std::alloc::Global;
use std::net::{Ipv4Addr, Ipv6Addr, SocketAddrV4};
use std::rc::Rc;

/// Options of the type may have this length.
fn has_len(kind: u8, len: usize) -> bool
    ensures { result ≡ has_len kind len }
{
    match layout_len(kind) {
        Some(n) => len == n,
        None => true,
    }
}

/// How many bytes the option at the front has, if there is one.
fn size_at(bytes: &[u8]) -> Option<usize>
    ensures size { result ≡ option_size bytes.now }
    ensures option { IfSome result (λ size. HasOption bytes.now size) }
{
    if bytes.len() < 3 {
        return None;
    }
    let len = usize::from(u16_at(bytes, 0));
    if len == 0 {
        return None;
    }
    if bytes.len() < len + 3 {
        return None;
    }
    if has_len(bytes[2], len) {
        Some(len + 3)
    } else {
        None
    }
}

/// The IPv4 address, the protocol and the port in an option.
fn ipv4(bytes: &[u8]) -> Ipv4Endpoint
    requires { 12 ≤ length bytes.now }
    ensures { result ≡ ipv4_in bytes.now }
{
    let mut octets = [0; 4];
    octets.copy_from_slice(&bytes[4..8]);
    Ipv4Endpoint {
        socket: SocketAddrV4::new(Ipv4Addr::from_octets(octets), u16_at(bytes, 10)),
        protocol: Protocol(bytes[9]),
    }
}

/// The IPv6 address, the protocol and the port in an option.
fn ipv6(bytes: &[u8]) -> Ipv6Endpoint
    requires { 24 ≤ length bytes.now }
    ensures { result ≡ ipv6_in bytes.now }
{
    let mut octets = [0; 16];
    octets.copy_from_slice(&bytes[4..20]);
    Ipv6Endpoint {
        address: Ipv6Addr::from_octets(octets),
        port: u16_at(bytes, 22),
        protocol: Protocol(bytes[21]),
    }
}

/// An option without a layout.
fn raw(alloc: Global, kind: u8, bytes: &[u8], size: usize) -> Result<SdOption, SdError>
    requires option { HasOption bytes.now size }
    requires kind { kind ≡ slice_index bytes.now 2 }
    requires unknown { has_layout kind ≡ false }
    ensures value { IfOk result (λ option. option ≡ option_in bytes.now) }
    ensures errors { IfErr result (λ e. e ≡ OutOfMemory) }
{
    let content = Vec::from_slice(alloc, &bytes[3..size])?;
    let content = Rc::new(alloc, content)?;
    Ok(SdOption::Raw(RawOption::kept(kind, content)))
}

/// The option at the front.
fn option(alloc: Global, bytes: &[u8], size: usize) -> Result<SdOption, SdError>
    requires { HasOption bytes.now size }
    ensures value { IfOk result (λ option. option ≡ option_in bytes.now) }
    ensures errors { IfErr result (λ e. e ≡ OutOfMemory) }
{
    match bytes[2] {
        0x02 => Ok(SdOption::LoadBalancing {
            priority: u16_at(bytes, 4),
            weight: u16_at(bytes, 6),
        }),
        0x04 => Ok(SdOption::Endpoint4(ipv4(bytes))),
        0x14 => Ok(SdOption::Multicast4(ipv4(bytes))),
        0x24 => Ok(SdOption::SdEndpoint4(ipv4(bytes))),
        0x06 => Ok(SdOption::Endpoint6(ipv6(bytes))),
        0x16 => Ok(SdOption::Multicast6(ipv6(bytes))),
        0x26 => Ok(SdOption::SdEndpoint6(ipv6(bytes))),
        kind => raw(alloc, kind, bytes, size),
    }
}

/// All options, the first of which stands at the place.
pub(crate) fn read_options(
    alloc: Global,
    place: usize,
    bytes: &[u8],
) -> Result<Vec<SdOption>, SdError>
    requires { place + length bytes.now < 2 ^ 64 }
    ensures gives { Gives (λ pool. pool.items) result (options_from place bytes.now) }
    ensures errors { IfErr result IsReadingError }
{
    let mut pool = Vec::new(alloc);
    let mut rest = bytes;
    let mut at = place;
    while !rest.is_empty() {
        let Some(size) = size_at(rest) else {
            return Err(SdError::OptionLength(at));
        };
        pool.push(option(alloc, rest, size)?)?;
        rest = &rest[size..];
        at += size;
    }
    Ok(pool)
}
