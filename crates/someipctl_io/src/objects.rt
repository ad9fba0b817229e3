//! The parts of a JSON object.
ghost use Rattle.std.specs.Prelude.{◌≡◌, ◌++◌, OnOk, OnErr, codes, map};
ghost use Rattle.std.specs.List.{flat_map, list_all};
ghost use Rattle.std.specs.Net.Addr.{ipv4_octets};
ghost use Rattle.std.specs.Net.Text.{ipv4_text, socket_v4_text};
ghost use Rattle.hex.specs.Hex.{encode_lower};
ghost use Rattle.json.specs.Print.{escape, escape_byte, escape_letter, quoted};
ghost use Rattle.json.specs.Run.{is_plain};
ghost use Rattle.someip_texts.specs.Words.{hex2, hex4};
ghost use Rattle.someipctl_io.specs.Parts.{part_text, seconds_text};
ghost use Rattle.someipctl_io.specs.Sending.{Sends, Stops};
ghost use Rattle.someipctl_io.specs.JsonTexts.{json_text, key_text, truth_text};
ghost use Rattle.someipctl_io.specs.ToldLines.{content_json, fields_text};
ghost use Rattle.someipctl_io.specs.ToldViews.{view_field, view_said};

use crate::form::Form;
use crate::output::{Buffer, CannotWrite};
use crate::parts::{Part, put_parts};
use crate::told::{LineHead, Said, address_between, endpoint_between, put_fields, time_between};
use std::io::Write;
use std::net::{Ipv4Addr, SocketAddrV4};

/// Prints an object up to the fields of its line: its kind, and its head.
pub(crate) fn put_begin_of_object<W: Write>(
    buffer: &mut Buffer,
    writer: &mut W,
    head: &LineHead<'_>,
    kind: &str,
) -> Result<(), CannotWrite>
    ensures ok { OnOk result (Sends (W.contents writer.old) buffer.old (W.contents writer.new) buffer.new
        ((codes "{\"kind\":" ++ quoted kind.now) ++ (fields_text Form.Json (map view_field head.now.number.now)
        ++ (fields_text Form.Json (map view_field head.now.origin.now)
        ++ fields_text Form.Json (map view_field head.now.place.now))))) }
    ensures err { OnErr result (Stops (W.contents writer.old) buffer.old (W.contents writer.new)
        ((codes "{\"kind\":" ++ quoted kind.now) ++ (fields_text Form.Json (map view_field head.now.number.now)
        ++ (fields_text Form.Json (map view_field head.now.origin.now)
        ++ fields_text Form.Json (map view_field head.now.place.now))))) }
{
    put_kind(buffer, writer, kind)?;
    put_fields(buffer, writer, Form::Json, head.number)?;
    put_fields(buffer, writer, Form::Json, head.origin)?;
    put_fields(buffer, writer, Form::Json, head.place)
}

fn put_kind<W: Write>(buffer: &mut Buffer, writer: &mut W, kind: &str) -> Result<(), CannotWrite>
    ensures ok { OnOk result (Sends (W.contents writer.old) buffer.old
        (W.contents writer.new) buffer.new (codes "{\"kind\":" ++ quoted kind.now)) }
    ensures err { OnErr result (Stops (W.contents writer.old) buffer.old
        (W.contents writer.new) (codes "{\"kind\":" ++ quoted kind.now)) }
{
    buffer.put(writer, b"{\"kind\":")?;
    put_quoted(buffer, writer, kind)
}

/// Prints a member of an object behind others.
pub(crate) fn put_member<W: Write>(
    buffer: &mut Buffer,
    writer: &mut W,
    key: &str,
    said: Said<'_>,
) -> Result<(), CannotWrite>
    ensures ok { OnOk result (Sends (W.contents writer.old) buffer.old (W.contents writer.new) buffer.new
        (codes "," ++ (key_text key.now ++ json_text (content_json (view_said said.entry))))) }
    ensures err { OnErr result (Stops (W.contents writer.old) buffer.old (W.contents writer.new)
        (codes "," ++ (key_text key.now ++ json_text (content_json (view_said said.entry))))) }
{
    put_key(buffer, writer, key)?;
    put_said(buffer, writer, said)
}

/// Prints a comma, and a key with its colon.
pub(crate) fn put_key<W: Write>(
    buffer: &mut Buffer,
    writer: &mut W,
    key: &str,
) -> Result<(), CannotWrite>
    ensures ok { OnOk result (Sends (W.contents writer.old) buffer.old
        (W.contents writer.new) buffer.new (codes "," ++ key_text key.now)) }
    ensures err { OnErr result (Stops (W.contents writer.old) buffer.old
        (W.contents writer.new) (codes "," ++ key_text key.now)) }
{
    buffer.put(writer, b",\"")?;
    put_escaped(buffer, writer, key.as_bytes())?;
    buffer.put(writer, b"\":")
}

/// Prints what is told as a JSON value.
fn put_said<W: Write>(
    buffer: &mut Buffer,
    writer: &mut W,
    said: Said<'_>,
) -> Result<(), CannotWrite>
    ensures ok { OnOk result (Sends (W.contents writer.old) buffer.old (W.contents writer.new) buffer.new
        (json_text (content_json (view_said said.entry)))) }
    ensures err { OnErr result (Stops (W.contents writer.old) buffer.old (W.contents writer.new)
        (json_text (content_json (view_said said.entry)))) }
{
    match said {
        Said::Text(text) => put_quoted(buffer, writer, text),
        Said::Number(number) => put_parts(buffer, writer, &[Part::Number(number)]),
        Said::Millis(millis) => put_parts(buffer, writer, &[Part::Number(millis)]),
        Said::Id(id) => put_parts(buffer, writer, &quoted_id(id)),
        Said::Byte(byte) => put_parts(buffer, writer, &quoted_byte(byte)),
        Said::Bytes(bytes) => put_parts(buffer, writer, &quoted_bytes(bytes)),
        Said::Flag(flag) => put_parts(buffer, writer, &[Part::Text(truth(flag))]),
        Said::Mark => put_parts(buffer, writer, &[Part::Text("true")]),
        Said::Nothing => put_parts(buffer, writer, &[Part::Text("null")]),
        Said::Address(address) => put_quoted_address(buffer, writer, address),
        Said::Endpoint(endpoint) => put_quoted_endpoint(buffer, writer, endpoint),
        Said::Time {
            seconds,
            nanoseconds,
        } => put_quoted_time(buffer, writer, seconds, nanoseconds),
    }
}

/// Prints an address between quotes. It stands apart, as the next two do, since room for many parts is cleared
/// where it is taken.
#[inline(never)]
fn put_quoted_address<W: Write>(
    buffer: &mut Buffer,
    writer: &mut W,
    address: Ipv4Addr,
) -> Result<(), CannotWrite>
    ensures ok { OnOk result (Sends (W.contents writer.old) buffer.old (W.contents writer.new) buffer.new
        (quoted (ipv4_text (ipv4_octets address)))) }
    ensures err { OnErr result (Stops (W.contents writer.old) buffer.old (W.contents writer.new)
        (quoted (ipv4_text (ipv4_octets address)))) }
{
    put_parts(buffer, writer, &quoted_address(address))
}

/// Prints an endpoint between quotes.
#[inline(never)]
fn put_quoted_endpoint<W: Write>(
    buffer: &mut Buffer,
    writer: &mut W,
    endpoint: SocketAddrV4,
) -> Result<(), CannotWrite>
    ensures ok { OnOk result (Sends (W.contents writer.old) buffer.old (W.contents writer.new) buffer.new
        (quoted (socket_v4_text endpoint))) }
    ensures err { OnErr result (Stops (W.contents writer.old) buffer.old (W.contents writer.new)
        (quoted (socket_v4_text endpoint))) }
{
    put_parts(buffer, writer, &quoted_endpoint(endpoint))
}

/// Prints a time between quotes.
#[inline(never)]
fn put_quoted_time<W: Write>(
    buffer: &mut Buffer,
    writer: &mut W,
    seconds: u64,
    nanoseconds: u32,
) -> Result<(), CannotWrite>
    ensures ok { OnOk result (Sends (W.contents writer.old) buffer.old (W.contents writer.new) buffer.new
        (quoted (seconds_text seconds nanoseconds))) }
    ensures err { OnErr result (Stops (W.contents writer.old) buffer.old (W.contents writer.new)
        (quoted (seconds_text seconds nanoseconds))) }
{
    put_parts(buffer, writer, &quoted_time(seconds, nanoseconds))
}

/// An ID between quotes.
fn quoted_id(id: u16) -> [Part<'static>; 3]
    ensures { flat_map part_text result ≡ quoted (hex4 id) }
{
    [Part::Text("\""), Part::Id(id), Part::Text("\"")]
}

/// A byte between quotes.
fn quoted_byte(byte: u8) -> [Part<'static>; 3]
    ensures { flat_map part_text result ≡ quoted (hex2 byte) }
{
    [Part::Text("\""), Part::Byte(byte), Part::Text("\"")]
}

/// Bytes in hex between quotes.
fn quoted_bytes(bytes: &[u8]) -> [Part<'_>; 3]
    ensures { flat_map part_text result ≡ quoted (encode_lower bytes.now) }
{
    [Part::Text("\""), Part::Hex(bytes), Part::Text("\"")]
}

/// An address between quotes.
fn quoted_address(address: Ipv4Addr) -> [Part<'static>; 9]
    ensures { flat_map part_text result ≡ quoted (ipv4_text (ipv4_octets address)) }
{
    address_between("\"", address)
}

/// An endpoint between quotes.
fn quoted_endpoint(endpoint: SocketAddrV4) -> [Part<'static>; 11]
    ensures { flat_map part_text result ≡ quoted (socket_v4_text endpoint) }
{
    endpoint_between("\"", endpoint)
}

/// A time between quotes.
fn quoted_time(seconds: u64, nanoseconds: u32) -> [Part<'static>; 5]
    ensures { flat_map part_text result ≡ quoted (seconds_text seconds nanoseconds) }
{
    time_between("\"", seconds, nanoseconds)
}

fn truth(flag: bool) -> &'static str
    ensures { result.now ≡ truth_text flag }
{
    if flag { "true" } else { "false" }
}

/// Prints a text between quotes.
fn put_quoted<W: Write>(buffer: &mut Buffer, writer: &mut W, text: &str) -> Result<(), CannotWrite>
    ensures ok { OnOk result (Sends (W.contents writer.old) buffer.old
        (W.contents writer.new) buffer.new (quoted text.now)) }
    ensures err { OnErr result (Stops (W.contents writer.old) buffer.old
        (W.contents writer.new) (quoted text.now)) }
{
    buffer.put(writer, b"\"")?;
    put_escaped(buffer, writer, text.as_bytes())?;
    buffer.put(writer, b"\"")
}

/// Prints what stands between quotes. Most texts have nothing to escape.
#[inline(always)]
fn put_escaped<W: Write>(
    buffer: &mut Buffer,
    writer: &mut W,
    text: &[u8],
) -> Result<(), CannotWrite>
    ensures ok { OnOk result (Sends (W.contents writer.old) buffer.old
        (W.contents writer.new) buffer.new (escape text.now)) }
    ensures err { OnErr result (Stops (W.contents writer.old) buffer.old
        (W.contents writer.new) (escape text.now)) }
{
    if is_plain(text) {
        return buffer.put(writer, text);
    }
    put_each_escaped(buffer, writer, text)
}

/// Whether no byte of a text is escaped.
fn is_plain(text: &[u8]) -> bool
    ensures { result ≡ list_all is_plain text.now }
{
    text.iter().all(|b| !(*b == b'"' || *b == b'\\' || *b < 32))
}

#[cold]
#[inline(never)]
fn put_each_escaped<W: Write>(
    buffer: &mut Buffer,
    writer: &mut W,
    text: &[u8],
) -> Result<(), CannotWrite>
    ensures ok { OnOk result (Sends (W.contents writer.old) buffer.old
        (W.contents writer.new) buffer.new (escape text.now)) }
    ensures err { OnErr result (Stops (W.contents writer.old) buffer.old
        (W.contents writer.new) (escape text.now)) }
{
    for byte in text {
        put_escaped_byte(buffer, writer, *byte)?;
    }
    Ok(())
}

fn put_escaped_byte<W: Write>(
    buffer: &mut Buffer,
    writer: &mut W,
    byte: u8,
) -> Result<(), CannotWrite>
    ensures ok { OnOk result (Sends (W.contents writer.old) buffer.old
        (W.contents writer.new) buffer.new (escape_byte byte)) }
    ensures err { OnErr result (Stops (W.contents writer.old) buffer.old
        (W.contents writer.new) (escape_byte byte)) }
{
    let letter = escape_letter(byte);
    if letter > 0 {
        buffer.put(writer, &[b'\\', letter])
    } else if byte < 32 {
        put_parts(buffer, writer, &[Part::Text("\\u00"), Part::Byte(byte)])
    } else {
        buffer.put(writer, &[byte])
    }
}

/// The letter of the short escape of a byte, or 0 where it has none.
fn escape_letter(byte: u8) -> u8
    ensures { result ≡ escape_letter byte }
{
    match byte {
        b'"' | b'\\' => byte,
        8 => b'b',
        9 => b't',
        10 => b'n',
        12 => b'f',
        13 => b'r',
        _ => 0,
    }
}
