//! What tells one message that comes in segments from another.
ghost use Rattle.std.specs.Prelude.{◌≡◌, ◌↔◌, ◌&&◌, ◌==◌, true};
ghost use Rattle.someip_reassembly.specs.Keys.{segment_key, same_key, key_numbers};

use someip_wire::{Header, MessageType, ReturnCode};
use std::net::SocketAddrV4;

/// The reassembly key: the segments of one message agree in all of it (SOME/IP Protocol,
/// "SOME/IP-TP", reassembly). Senders should see to it that two messages which are on their way at
/// once differ in some of it; segments of messages that do not are taken for those of one.
#[derive(Clone, Copy, Debug, PartialEq, Eq)]
pub struct ReassemblyKey {
    /// The endpoint that sent the segments.
    pub source: SocketAddrV4,
    /// The endpoint that they were sent to.
    pub destination: SocketAddrV4,
    /// Service ID, the first half of the Message ID.
    pub service: u16,
    /// Method ID, the second half of the Message ID.
    pub method: u16,
    /// Client ID, the first half of the Request ID.
    pub client: u16,
    /// Session ID, the second half of the Request ID.
    pub session: u16,
    /// Interface Version.
    pub interface: u8,
    /// Message Type.
    pub kind: MessageType,
    /// Return Code.
    pub code: ReturnCode,
}

impl ReassemblyKey {
    /// The key of the segments with this header that are sent from one endpoint to another.
    pub fn new(source: SocketAddrV4, destination: SocketAddrV4, header: &Header) -> ReassemblyKey
        ensures { result ≡ segment_key source destination header.now }
    {
        ReassemblyKey {
            source,
            destination,
            service: header.service,
            method: header.method,
            client: header.client,
            session: header.session,
            interface: header.interface,
            kind: header.kind,
            code: header.code,
        }
    }
}

/// Whether the two are one key.
pub(crate) fn is_same(a: &ReassemblyKey, b: &ReassemblyKey) -> bool
    ensures { result ≡ same_key a.now b.now }
{
    same_endpoints(a, b) && same_numbers(a, b)
}

fn same_endpoints(a: &ReassemblyKey, b: &ReassemblyKey) -> bool
    ensures { (result ≡ true) ↔ ((a.now.source ≡ b.now.source) × (a.now.destination ≡ b.now.destination)) }
{
    same_endpoint(&a.source, &b.source) && same_endpoint(&a.destination, &b.destination)
}

fn same_endpoint(a: &SocketAddrV4, b: &SocketAddrV4) -> bool
    ensures { (result ≡ true) ↔ (a.now ≡ b.now) }
{
    a == b
}

/// Whether all but the endpoints is the same.
fn same_numbers(a: &ReassemblyKey, b: &ReassemblyKey) -> bool
    ensures { (result ≡ true) ↔ (key_numbers a.now ≡ key_numbers b.now) }
{
    same_ids(a, b)
        && a.interface == b.interface
        && same_kind(a.kind, b.kind)
        && a.code.0 == b.code.0
}

fn same_ids(a: &ReassemblyKey, b: &ReassemblyKey) -> bool
    ensures { result ≡ ((a.now.service == b.now.service) && (a.now.method == b.now.method)) && ((a.now.client == b.now.client) && (a.now.session == b.now.session)) }
{
    a.service == b.service && a.method == b.method && a.client == b.client && a.session == b.session
}

fn same_kind(a: MessageType, b: MessageType) -> bool
    ensures { (result ≡ true) ↔ (a ≡ b) }
{
    a == b
}
