//! One message: its header and its payload (SOME/IP Protocol, "Header" and "Payload").
ghost use Rattle.std.specs.Prelude.{◌≡◌, ◌≤◌, ◌+◌, ◌↔◌, ℕ, length, slice_range, slice_index, drop};
ghost use Rattle.std.specs.Prelude.{OnOk, IfOk, IfErr, IsOkAnd, Some, None};
ghost use Rattle.std.specs.Int.{w16, w32, from_be_bytes};
ghost use Rattle.someip_wire.specs.declared.error.WireError.{WireError};
ghost use Rattle.someip_wire.specs.Kinds.{kind_of};
ghost use Rattle.someip_wire.specs.Spelling.{MessageValue, BeginsWith};
ghost use Rattle.someip_wire.specs.Faults.{fault_at, length_field};
ghost use Rattle.someip_wire.specs.Reading.{header_in, message_in};
ghost use Rattle.someip_wire.specs.View.{view};

use crate::error::WireError;
use crate::header::{Header, MessageType, ReturnCode, kind_of_byte};

/// A message, whose payload lies in the datagram that it was read from.
#[derive(Clone, Copy, Debug, PartialEq, Eq)]
pub struct Message<'a> {
    /// The header, but for the Length field and the Protocol Version.
    pub header: Header,
    /// The bytes after the header. The Length field is 8 more than there are.
    pub payload: &'a [u8],
}

/// The message that the bytes begin with, and how many bytes it has.
///
/// The bytes after it are not looked at. An error is the first fault of the message; places count
/// from its first byte, and no bytes at all are `Truncated(0)`.
///
/// ```text
/// 12340421 00000008 00010001 01010000    a REQUEST without a payload, 16 bytes
/// 12340421 00000007 00010001 01010000    LengthTooSmall(4)
/// ```
pub fn read_message(bytes: &[u8]) -> Result<(Message<'_>, usize), WireError>
    // What is read is what the bytes begin with.
    ensures found { IfOk result (λ (message, size). BeginsWith (view message) size bytes.now) }
    // What the bytes begin with is read.
    ensures only { (message : MessageValue) (size : ℕ) → BeginsWith message size bytes.now
        → IsOkAnd result (λ (read, end). (view read ≡ message) × (end ≡ size)) }
    // A fault is answered exactly where the bytes have it first.
    ensures fault { (fault : WireError) → (result ≡ Err fault) ↔ (fault_at 0 bytes.now ≡ Some fault) }
{
    message_at(bytes, 0)
}

/// The message at a place of a datagram, and the place where it ends.
pub(crate) fn message_at(datagram: &[u8], place: usize) -> Result<(Message<'_>, usize), WireError>
    requires { place ≤ length datagram.now }
    ensures fault { IfErr result (λ e. fault_at place (drop place datagram.now) ≡ Some e) }
    ensures none { OnOk result (fault_at place (drop place datagram.now) ≡ None) }
    ensures message { IfOk result (λ r. view r.0 ≡ message_in (drop place datagram.now)) }
    ensures end { IfOk result (λ r.
        (r.1 ≡ place + (length_field (drop place datagram.now) + 8)) × (r.1 ≤ length datagram.now)) }
{
    let rest = &datagram[place..];
    if rest.len() < 16 {
        return Err(WireError::Truncated(datagram.len()));
    }
    let length = u32_at(rest, 4) as usize;
    if length < 8 {
        return Err(WireError::LengthTooSmall(place + 4));
    }
    if rest[12] != 1 {
        return Err(WireError::WrongProtocolVersion(place + 12));
    }
    let Some(kind) = kind_of_byte(rest[14]) else {
        return Err(WireError::UnknownMessageType(place + 14));
    };
    if rest.len() < length + 8 {
        return Err(WireError::Truncated(datagram.len()));
    }
    let message = Message {
        header: header_of(rest, kind),
        payload: &rest[16..length + 8],
    };
    Ok((message, place + (length + 8)))
}

fn header_of(bytes: &[u8], kind: MessageType) -> Header
    requires length { 16 ≤ length bytes.now }
    requires kind { kind_of (slice_index bytes.now 14) ≡ Some kind }
    ensures { result ≡ header_in bytes.now }
{
    Header {
        service: u16_at(bytes, 0),
        method: u16_at(bytes, 2),
        client: u16_at(bytes, 8),
        session: u16_at(bytes, 10),
        interface: bytes[13],
        kind,
        code: ReturnCode(bytes[15]),
    }
}

fn u16_at(bytes: &[u8], i: usize) -> u16
    requires { i + 2 ≤ length bytes.now }
    ensures { result ≡ from_be_bytes w16 (slice_range bytes.now i (i + 2)) }
{
    u16::from_be_bytes([bytes[i], bytes[i + 1]])
}

fn u32_at(bytes: &[u8], i: usize) -> u32
    requires { i + 4 ≤ length bytes.now }
    ensures { result ≡ from_be_bytes w32 (slice_range bytes.now i (i + 4)) }
{
    u32::from_be_bytes([bytes[i], bytes[i + 1], bytes[i + 2], bytes[i + 3]])
}
