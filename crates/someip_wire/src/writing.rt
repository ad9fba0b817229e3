//! The bytes of a message (SOME/IP Protocol, "Header" and "Payload").
ghost use Rattle.std.specs.Prelude.{◌≡◌, ◌≤◌, ◌<◌, ◌+◌, ◌^◌, ◌++◌, ◌∷◌, length, drop};
ghost use Rattle.std.specs.Int.{w16, to_be_bytes};
ghost use Rattle.someip_wire.specs.Kinds.{kind_byte};
ghost use Rattle.someip_wire.specs.Spelling.{spelling, header_bytes};
ghost use Rattle.someip_wire.specs.View.{view};

use crate::header::Header;
use crate::message::Message;
use byteorder::{BigEndian, ByteOrder};

/// How many bytes the message has: 16, and its payload.
pub fn written_len(message: &Message<'_>) -> usize
    ensures { result ≡ length (spelling (view message.now)) }
{
    Header::LEN + message.payload.len()
}

/// Writes the message to the front of the bytes, and says how many bytes it has. The bytes after
/// it stay as they are.
///
/// ```text
/// 1234.0421, client 1, session 1, interface 1, REQUEST, E_OK, payload 2a
/// 12340421 00000009 00010001 01010000 2a    17 bytes
/// ```
pub fn write_message(message: &Message<'_>, out: &mut [u8]) -> usize
    requires fits { 8 + length message.now.payload.now < 2 ^ 32 }
    requires room { length (spelling (view message.now)) ≤ length out.old }
    ensures written { out.new ≡ spelling (view message.now) ++ drop result out.old }
    ensures size { result ≡ length (spelling (view message.now)) }
{
    let size = written_len(message);
    write_header(&message.header, message.payload.len() as u32, out);
    out[Header::LEN..size].copy_from_slice(message.payload);
    size
}

/// The 16 bytes that stand in front of a payload of so many bytes, which may be kept in pieces.
///
/// ```text
/// 1234.0421, client 1, session 1, interface 1, REQUEST, E_OK, 1 byte of payload
/// 12340421 00000009 00010001 01010000
/// ```
pub fn header_bytes(header: &Header, payload_len: u32) -> [u8; 16]
    requires { 8 + payload_len < 2 ^ 32 }
    ensures { result ≡ header_bytes header.now payload_len }
{
    let mut bytes = [0; Header::LEN];
    write_header(header, payload_len, &mut bytes);
    bytes
}

/// Writes the header of a message with so many bytes of payload to the front of the bytes.
fn write_header(header: &Header, payload_len: u32, out: &mut [u8])
    requires fits { 8 + payload_len < 2 ^ 32 }
    requires room { 16 ≤ length out.old }
    ensures { out.new ≡ header_bytes header.now payload_len ++ drop 16 out.old }
{
    write_ids(header.service, header.method, out);
    BigEndian::write_u32(&mut out[4..], 8 + payload_len);
    write_ids(header.client, header.session, &mut out[8..]);
    write_kind(header, &mut out[12..]);
}

/// Writes two IDs, as a Message ID or a Request ID has them.
fn write_ids(first: u16, second: u16, out: &mut [u8])
    requires room { 4 ≤ length out.old }
    ensures { out.new ≡ to_be_bytes w16 first ++ to_be_bytes w16 second ++ drop 4 out.old }
{
    BigEndian::write_u16(out, first);
    BigEndian::write_u16(&mut out[2..], second);
}

/// Writes the four bytes after the Request ID.
fn write_kind(header: &Header, out: &mut [u8])
    requires room { 4 ≤ length out.old }
    ensures { out.new
        ≡ 1 ∷ header.now.interface ∷ kind_byte header.now.kind ∷ header.now.code.0 ∷ drop 4 out.old }
{
    out[0] = 1;
    out[1] = header.interface;
    out[2] = header.kind.number();
    out[3] = header.code.0;
}
