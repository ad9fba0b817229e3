//! Lines as a list of fields, and how one is printed in either form.
//!
//! A line has a kind, a head and fields of its own. The head numbers what the line is about (`datagram`), and
//! says where that came from. Plain a line is its origin, its number, its place, the word for its kind, and its
//! fields, each behind its lead. In JSON it is one object: `kind`, the number, the origin, the place, and the
//! fields, each under its key.
ghost use Rattle.std.specs.Prelude.{◌≡◌, ◌<◌, ◌++◌, OnOk, OnErr, codes, map, option_map};
ghost use Rattle.std.specs.Net.Addr.{ipv4_octets};
ghost use Rattle.std.specs.Net.Socket.{v4_ip, v4_port};
ghost use Rattle.std.specs.Net.Text.{ipv4_text, socket_v4_text};
ghost use Rattle.hex.specs.Hex.{IsBytes};
ghost use Rattle.std.specs.List.{flat_map};
ghost use Rattle.someipctl_io.specs.Parts.{part_text, seconds_text};
ghost use Rattle.someipctl_io.specs.Sending.{Sends, Stops};
ghost use Rattle.someipctl_io.specs.ToldLines.{begin_text, content_text, end_text, field_text, fields_text, line_text, origin_text};
ghost use Rattle.someipctl_io.specs.ToldLines.{word_part};
ghost use Rattle.someipctl_io.specs.ToldViews.{view_field, view_head, view_line, view_said};

use crate::form::Form;
use crate::lines::{digit_of_flag, payload_part};
use crate::objects::{put_begin_of_object, put_member};
use crate::output::{Buffer, CannotWrite};
use crate::parts::{Part, put_parts};
use std::io::Write;
use std::net::{Ipv4Addr, SocketAddrV4};

/// What is told under a key.
#[derive(Clone, Copy)]
pub enum Said<'s> {
    /// Text as it is.
    Text(&'s str),
    /// A number in decimal digits.
    Number(usize),
    /// So many milliseconds: plain with `ms` behind them.
    Millis(usize),
    /// An ID of 16 bits as four lower-case hex digits.
    Id(u16),
    /// A byte as two lower-case hex digits.
    Byte(u8),
    /// Bytes in hex: plain `-` where there are none.
    Bytes(&'s [u8]),
    /// A flag: plain a digit.
    Flag(bool),
    /// What holds where it stands: plain its lead says so, in JSON it is `true`.
    Mark,
    /// What is not there: plain `-`, in JSON `null`.
    Nothing,
    /// An address with dots.
    Address(Ipv4Addr),
    /// An address and a port.
    Endpoint(SocketAddrV4),
    /// A time in seconds, with nine digits after the dot.
    Time { seconds: u64, nanoseconds: u32 },
}

/// A field of a line.
#[derive(Clone, Copy)]
pub struct Field<'f> {
    /// What stands before it in a plain line.
    pub lead: &'f str,
    /// Its key in an object.
    pub key: &'f str,
    /// What is told.
    pub said: Said<'f>,
}

/// The form of lines, and what tells where they stand.
#[derive(Clone, Copy)]
pub struct LineHead<'h> {
    /// How they are printed.
    pub form: Form,
    /// Which one they are about, as `datagram`.
    pub number: &'h [Field<'h>],
    /// Where that came from, as `frame` and `time`: in a plain line before the number, with a space behind
    /// each.
    pub origin: &'h [Field<'h>],
    /// Where it stands, as `from` and `to`: in a plain line behind the number.
    pub place: &'h [Field<'h>],
}

/// A line behind its head.
#[derive(Clone, Copy)]
pub struct Line<'l> {
    /// Its kind in an object.
    pub kind: &'l str,
    /// The word for its kind in a plain line, where there is one.
    pub word: Option<&'l str>,
    /// What it tells.
    pub fields: &'l [Field<'l>],
}

/// Prints a line in the form that is asked for.
pub fn put_line<W: Write>(
    buffer: &mut Buffer,
    writer: &mut W,
    head: &LineHead<'_>,
    line: &Line<'_>,
) -> Result<(), CannotWrite>
    ensures ok { OnOk result (Sends (W.contents writer.old) buffer.old (W.contents writer.new) buffer.new
        (line_text head.now.form (view_head head.now) (view_line line.now))) }
    ensures err { OnErr result (Stops (W.contents writer.old) buffer.old (W.contents writer.new)
        (line_text head.now.form (view_head head.now) (view_line line.now))) }
{
    put_begin(buffer, writer, head, line.kind, line.word)?;
    put_fields(buffer, writer, head.form, line.fields)?;
    put_end_of_line(buffer, writer, head.form)
}

/// Prints a line up to its fields.
pub fn put_begin<W: Write>(
    buffer: &mut Buffer,
    writer: &mut W,
    head: &LineHead<'_>,
    kind: &str,
    word: Option<&str>,
) -> Result<(), CannotWrite>
    ensures ok { OnOk result (Sends (W.contents writer.old) buffer.old (W.contents writer.new) buffer.new
        (begin_text head.now.form (view_head head.now) kind.now (option_map (λ w. w.now) word.entry))) }
    ensures err { OnErr result (Stops (W.contents writer.old) buffer.old (W.contents writer.new)
        (begin_text head.now.form (view_head head.now) kind.now (option_map (λ w. w.now) word.entry))) }
{
    match head.form {
        Form::Plain => put_plain_begin(buffer, writer, head, word),
        Form::Json => put_begin_of_object(buffer, writer, head, kind),
    }
}

/// Prints a plain line up to its fields.
fn put_plain_begin<W: Write>(
    buffer: &mut Buffer,
    writer: &mut W,
    head: &LineHead<'_>,
    word: Option<&str>,
) -> Result<(), CannotWrite>
    ensures ok { OnOk result (Sends (W.contents writer.old) buffer.old (W.contents writer.new) buffer.new
        (origin_text (map view_field head.now.origin.now) ++ (fields_text Form.Plain (map view_field head.now.number.now)
        ++ (fields_text Form.Plain (map view_field head.now.place.now) ++ word_part (option_map (λ w. w.now) word.entry))))) }
    ensures err { OnErr result (Stops (W.contents writer.old) buffer.old (W.contents writer.new)
        (origin_text (map view_field head.now.origin.now) ++ (fields_text Form.Plain (map view_field head.now.number.now)
        ++ (fields_text Form.Plain (map view_field head.now.place.now) ++ word_part (option_map (λ w. w.now) word.entry))))) }
{
    put_origin(buffer, writer, head.origin)?;
    put_fields(buffer, writer, Form::Plain, head.number)?;
    put_fields(buffer, writer, Form::Plain, head.place)?;
    put_parts(buffer, writer, &word_parts(word))
}

/// Prints what stands before the number of a plain line: fields, with a space behind each.
fn put_origin<W: Write>(
    buffer: &mut Buffer,
    writer: &mut W,
    fields: &[Field<'_>],
) -> Result<(), CannotWrite>
    ensures ok { OnOk result (Sends (W.contents writer.old) buffer.old (W.contents writer.new) buffer.new
        (origin_text (map view_field fields.now))) }
    ensures err { OnErr result (Stops (W.contents writer.old) buffer.old (W.contents writer.new)
        (origin_text (map view_field fields.now))) }
{
    for field in fields {
        put_spaced_field(buffer, writer, field)?;
    }
    Ok(())
}

/// Prints a field of a plain line with a space behind it.
fn put_spaced_field<W: Write>(
    buffer: &mut Buffer,
    writer: &mut W,
    field: &Field<'_>,
) -> Result<(), CannotWrite>
    ensures ok { OnOk result (Sends (W.contents writer.old) buffer.old (W.contents writer.new) buffer.new
        (field_text Form.Plain (view_field field.now) ++ codes " ")) }
    ensures err { OnErr result (Stops (W.contents writer.old) buffer.old (W.contents writer.new)
        (field_text Form.Plain (view_field field.now) ++ codes " ")) }
{
    put_field(buffer, writer, Form::Plain, field)?;
    put_parts(buffer, writer, &[Part::Text(" ")])
}

/// A word behind a space.
fn word_parts<'w>(word: Option<&'w str>) -> [Part<'w>; 2]
    ensures { flat_map part_text result ≡ word_part (option_map (λ w. w.now) word.entry) }
{
    match word {
        Some(word) => [Part::Text(" "), Part::Text(word)],
        None => [Part::Text(""), Part::Text("")],
    }
}

/// Prints fields, one after the other.
pub fn put_fields<W: Write>(
    buffer: &mut Buffer,
    writer: &mut W,
    form: Form,
    fields: &[Field<'_>],
) -> Result<(), CannotWrite>
    ensures ok { OnOk result (Sends (W.contents writer.old) buffer.old (W.contents writer.new) buffer.new
        (fields_text form (map view_field fields.now))) }
    ensures err { OnErr result (Stops (W.contents writer.old) buffer.old (W.contents writer.new)
        (fields_text form (map view_field fields.now))) }
{
    for field in fields {
        put_field(buffer, writer, form, field)?;
    }
    Ok(())
}

fn put_field<W: Write>(
    buffer: &mut Buffer,
    writer: &mut W,
    form: Form,
    field: &Field<'_>,
) -> Result<(), CannotWrite>
    ensures ok { OnOk result (Sends (W.contents writer.old) buffer.old (W.contents writer.new) buffer.new
        (field_text form (view_field field.now))) }
    ensures err { OnErr result (Stops (W.contents writer.old) buffer.old (W.contents writer.new)
        (field_text form (view_field field.now))) }
{
    match form {
        Form::Plain => put_plain_field(buffer, writer, field.lead, field.said),
        Form::Json => put_member(buffer, writer, field.key, field.said),
    }
}

fn put_plain_field<W: Write>(
    buffer: &mut Buffer,
    writer: &mut W,
    lead: &str,
    said: Said<'_>,
) -> Result<(), CannotWrite>
    ensures ok { OnOk result (Sends (W.contents writer.old) buffer.old (W.contents writer.new) buffer.new
        (lead.now ++ content_text (view_said said.entry))) }
    ensures err { OnErr result (Stops (W.contents writer.old) buffer.old (W.contents writer.new)
        (lead.now ++ content_text (view_said said.entry))) }
{
    buffer.put(writer, lead.as_bytes())?;
    put_plain_said(buffer, writer, said)
}

/// Prints what is told in a plain line.
fn put_plain_said<W: Write>(
    buffer: &mut Buffer,
    writer: &mut W,
    said: Said<'_>,
) -> Result<(), CannotWrite>
    ensures ok { OnOk result (Sends (W.contents writer.old) buffer.old (W.contents writer.new) buffer.new
        (content_text (view_said said.entry))) }
    ensures err { OnErr result (Stops (W.contents writer.old) buffer.old (W.contents writer.new)
        (content_text (view_said said.entry))) }
{
    match said {
        Said::Text(text) => put_parts(buffer, writer, &[Part::Text(text)]),
        Said::Number(number) => put_parts(buffer, writer, &[Part::Number(number)]),
        Said::Millis(millis) => put_parts(
            buffer,
            writer,
            &[Part::Number(millis), Part::Text(" ms")],
        ),
        Said::Id(id) => put_parts(buffer, writer, &[Part::Id(id)]),
        Said::Byte(byte) => put_parts(buffer, writer, &[Part::Byte(byte)]),
        Said::Bytes(bytes) => put_parts(buffer, writer, &[payload_part(bytes)]),
        Said::Flag(flag) => put_parts(buffer, writer, &[Part::Text(digit_of_flag(flag))]),
        Said::Mark => Ok(()),
        Said::Nothing => put_parts(buffer, writer, &[Part::Text("-")]),
        Said::Address(address) => put_address(buffer, writer, address),
        Said::Endpoint(endpoint) => put_endpoint(buffer, writer, endpoint),
        Said::Time {
            seconds,
            nanoseconds,
        } => put_time(buffer, writer, seconds, nanoseconds),
    }
}

/// Prints an address. It stands apart, as the next two do, since room for many parts is cleared where it is
/// taken.
#[inline(never)]
fn put_address<W: Write>(
    buffer: &mut Buffer,
    writer: &mut W,
    address: Ipv4Addr,
) -> Result<(), CannotWrite>
    ensures ok { OnOk result (Sends (W.contents writer.old) buffer.old (W.contents writer.new) buffer.new
        (ipv4_text (ipv4_octets address))) }
    ensures err { OnErr result (Stops (W.contents writer.old) buffer.old (W.contents writer.new)
        (ipv4_text (ipv4_octets address))) }
{
    put_parts(buffer, writer, &address_between("", address))
}

/// Prints an endpoint.
#[inline(never)]
fn put_endpoint<W: Write>(
    buffer: &mut Buffer,
    writer: &mut W,
    endpoint: SocketAddrV4,
) -> Result<(), CannotWrite>
    ensures ok { OnOk result (Sends (W.contents writer.old) buffer.old (W.contents writer.new) buffer.new
        (socket_v4_text endpoint)) }
    ensures err { OnErr result (Stops (W.contents writer.old) buffer.old (W.contents writer.new)
        (socket_v4_text endpoint)) }
{
    put_parts(buffer, writer, &endpoint_between("", endpoint))
}

/// Prints a time.
#[inline(never)]
fn put_time<W: Write>(
    buffer: &mut Buffer,
    writer: &mut W,
    seconds: u64,
    nanoseconds: u32,
) -> Result<(), CannotWrite>
    ensures ok { OnOk result (Sends (W.contents writer.old) buffer.old (W.contents writer.new) buffer.new
        (seconds_text seconds nanoseconds)) }
    ensures err { OnErr result (Stops (W.contents writer.old) buffer.old (W.contents writer.new)
        (seconds_text seconds nanoseconds)) }
{
    put_parts(buffer, writer, &time_between("", seconds, nanoseconds))
}

/// A time between two texts.
pub(crate) fn time_between(
    quote: &'static str,
    seconds: u64,
    nanoseconds: u32,
) -> [Part<'static>; 5]
    ensures { flat_map part_text result ≡ quote.now ++ (seconds_text seconds nanoseconds ++ quote.now) }
{
    [
        Part::Text(quote),
        Part::Number(seconds as usize),
        Part::Text("."),
        Part::Nine(nanoseconds),
        Part::Text(quote),
    ]
}

/// An address between two texts.
pub(crate) fn address_between(quote: &'static str, address: Ipv4Addr) -> [Part<'static>; 9]
    ensures text { flat_map part_text result ≡ quote.now ++ (ipv4_text (ipv4_octets address) ++ quote.now) }
    ensures octets { IsBytes (ipv4_octets address) }
{
    let octets = address.octets();
    [
        Part::Text(quote),
        Part::Number(octets[0] as usize),
        Part::Text("."),
        Part::Number(octets[1] as usize),
        Part::Text("."),
        Part::Number(octets[2] as usize),
        Part::Text("."),
        Part::Number(octets[3] as usize),
        Part::Text(quote),
    ]
}

/// An endpoint between two texts.
pub(crate) fn endpoint_between(quote: &'static str, endpoint: SocketAddrV4) -> [Part<'static>; 11]
    ensures text { flat_map part_text result ≡ quote.now ++ (socket_v4_text endpoint ++ quote.now) }
    ensures octets { IsBytes (ipv4_octets (v4_ip endpoint)) }
    ensures port { v4_port endpoint < 65536 }
{
    let octets = endpoint.ip().octets();
    [
        Part::Text(quote),
        Part::Number(octets[0] as usize),
        Part::Text("."),
        Part::Number(octets[1] as usize),
        Part::Text("."),
        Part::Number(octets[2] as usize),
        Part::Text("."),
        Part::Number(octets[3] as usize),
        Part::Text(":"),
        Part::Number(endpoint.port() as usize),
        Part::Text(quote),
    ]
}

/// Prints the end of a line.
pub fn put_end_of_line<W: Write>(
    buffer: &mut Buffer,
    writer: &mut W,
    form: Form,
) -> Result<(), CannotWrite>
    ensures ok { OnOk result (Sends (W.contents writer.old) buffer.old
        (W.contents writer.new) buffer.new (end_text form)) }
    ensures err { OnErr result (Stops (W.contents writer.old) buffer.old
        (W.contents writer.new) (end_text form)) }
{
    buffer.put(writer, form.end().as_bytes())
}
