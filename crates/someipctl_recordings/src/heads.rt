//! Lines with the number of their packet, or the time and the endpoints of their datagram, before each.
//!
//! The head of a line is put before the lines of `show` and not into them, so that what is printed is
//! defined by what `show` prints, and other programs can cut it off: it is the first words. Objects have the
//! same as fields.
ghost use Rattle.std.specs.Prelude.{◌≡◌, ◌∷◌, ◌++◌, [], OnOk, OnErr, drop, map, take, true};
ghost use Rattle.recording.specs.View.{view_datagram};
ghost use Rattle.recording_packets.specs.View.{view_arrival};
ghost use Rattle.someipctl_io.specs.Sending.{Sends, Stops};
ghost use Rattle.someipctl_io.specs.ToldLines.{field};
ghost use Rattle.someipctl_io.specs.ToldViews.{view_field, view_said};
ghost use Rattle.someipctl_recordings.specs.Gathered.{socket_of};
ghost use Rattle.someipctl_recordings.specs.Origins.{endpoint_fields, fields_if, frame_field, said_of_time};
ghost use Rattle.someipctl_recordings.specs.RecordedText.{endpoint_text, frame_text, head_text, line_head};
ghost use Rattle.someipctl_recordings.specs.RecordedText.{text_if, time_text, with_heads};
ghost use Rattle.someipctl_recordings.specs.Heads.{line_len};
ghost use Rattle.someip_texts.specs.Words.{word_text};

use crate::asked::Heads;
use crate::reassembly::socket_of;
use recording::{Datagram, Time};
use recording_packets::Arrival;
use someipctl_io::{Buffer, CannotWrite, Field, Part, Said, Word, put_parts, put_words};
use std::io::Write;

/// Prints the text of a datagram with what is asked for before each line.
pub(crate) fn put_with_heads<W: Write>(
    buffer: &mut Buffer,
    writer: &mut W,
    heads: Heads,
    arrival: &Arrival<'_>,
    text: &[u8],
) -> Result<(), CannotWrite>
    ensures ok { OnOk result (Sends (W.contents writer.old) buffer.old (W.contents writer.new)
        buffer.new (with_heads (line_head heads (view_arrival arrival.now)) true text.now)) }
    ensures err { OnErr result (Stops (W.contents writer.old) buffer.old (W.contents writer.new)
        (with_heads (line_head heads (view_arrival arrival.now)) true text.now)) }
{
    let mut rest = text;
    while !rest.is_empty() {
        let (line, others) = rest.split_at(line_len(rest));
        put_line_head(buffer, writer, heads, arrival)?;
        buffer.put(writer, line)?;
        rest = others;
    }
    Ok(())
}

/// Prints what is asked for before a line.
fn put_line_head<W: Write>(
    buffer: &mut Buffer,
    writer: &mut W,
    heads: Heads,
    arrival: &Arrival<'_>,
) -> Result<(), CannotWrite>
    ensures ok { OnOk result (Sends (W.contents writer.old) buffer.old (W.contents writer.new)
        buffer.new (line_head heads (view_arrival arrival.now))) }
    ensures err { OnErr result (Stops (W.contents writer.old) buffer.old (W.contents writer.new)
        (line_head heads (view_arrival arrival.now))) }
{
    put_frame(buffer, writer, heads.frame, arrival.frame)?;
    put_endpoints(buffer, writer, heads.endpoints, &arrival.datagram)
}

/// Prints the number of a packet, where it is asked for.
pub(crate) fn put_frame<W: Write>(
    buffer: &mut Buffer,
    writer: &mut W,
    is_asked: bool,
    frame: usize,
) -> Result<(), CannotWrite>
    ensures ok { OnOk result (Sends (W.contents writer.old) buffer.old (W.contents writer.new)
        buffer.new (text_if is_asked (frame_text frame))) }
    ensures err { OnErr result (Stops (W.contents writer.old) buffer.old (W.contents writer.new)
        (text_if is_asked (frame_text frame))) }
{
    if !is_asked {
        return Ok(());
    }
    put_parts(
        buffer,
        writer,
        &[Part::Text("#"), Part::Number(frame), Part::Text(" ")],
    )
}

/// Prints the time and the endpoints of a datagram, where they are asked for.
fn put_endpoints<W: Write>(
    buffer: &mut Buffer,
    writer: &mut W,
    is_asked: bool,
    datagram: &Datagram<'_>,
) -> Result<(), CannotWrite>
    ensures ok { OnOk result (Sends (W.contents writer.old) buffer.old (W.contents writer.new)
        buffer.new (text_if is_asked (head_text (view_datagram datagram.now)))) }
    ensures err { OnErr result (Stops (W.contents writer.old) buffer.old (W.contents writer.new)
        (text_if is_asked (head_text (view_datagram datagram.now)))) }
{
    if !is_asked {
        return Ok(());
    }
    put_head(buffer, writer, datagram)
}

/// How many bytes the first line has, with the line feed that ends it.
fn line_len(text: &[u8]) -> usize
    ensures { result ≡ line_len text.now }
{
    let mut len = 0;
    for byte in text {
        len += 1;
        if *byte == b'\n' {
            break;
        }
    }
    len
}

/// Prints what stands before each line of a datagram.
fn put_head<W: Write>(
    buffer: &mut Buffer,
    writer: &mut W,
    datagram: &Datagram<'_>,
) -> Result<(), CannotWrite>
    ensures ok { OnOk result (Sends (W.contents writer.old) buffer.old (W.contents writer.new)
        buffer.new (head_text (view_datagram datagram.now))) }
    ensures err { OnErr result (Stops (W.contents writer.old) buffer.old (W.contents writer.new)
        (head_text (view_datagram datagram.now))) }
{
    put_time(buffer, writer, datagram.time)?;
    put_words(buffer, writer, &endpoint_words(datagram))?;
    put_parts(buffer, writer, &[Part::Text(" ")])
}

/// Where a datagram came from, and where it went to.
fn endpoint_words(datagram: &Datagram<'_>) -> [Word<'static>; 2]
    ensures { map word_text result ≡ endpoint_text datagram.now.from ∷ endpoint_text datagram.now.to ∷ [] }
{
    [
        Word::Endpoint(socket_of(datagram.from)),
        Word::Endpoint(socket_of(datagram.to)),
    ]
}

/// Prints a time in seconds, with nine digits after the dot, or `-` where there is none.
pub fn put_time<W: Write>(
    buffer: &mut Buffer,
    writer: &mut W,
    time: Option<Time>,
) -> Result<(), CannotWrite>
    ensures ok { OnOk result (Sends (W.contents writer.old) buffer.old (W.contents writer.new)
        buffer.new (time_text time)) }
    ensures err { OnErr result (Stops (W.contents writer.old) buffer.old (W.contents writer.new)
        (time_text time)) }
{
    match time {
        Some(time) => put_parts(
            buffer,
            writer,
            &[
                Part::Number(time.seconds as usize),
                Part::Text("."),
                Part::Nine(time.nanoseconds),
            ],
        ),
        None => put_parts(buffer, writer, &[Part::Text("-")]),
    }
}

/// The fields that say where a datagram came from: the number of its packet, its time and its endpoints.
pub(crate) fn origin_fields(arrival: &Arrival<'_>) -> [Field<'static>; 4]
    ensures { map view_field result ≡ frame_field arrival.now.frame
        ∷ endpoint_fields (view_datagram arrival.now.datagram) }
{
    let datagram = &arrival.datagram;
    [
        field_of("#", "frame", Said::Number(arrival.frame)),
        field_of("", "time", said_of_time(datagram.time)),
        field_of("", "from", Said::Endpoint(socket_of(datagram.from))),
        field_of("", "to", Said::Endpoint(socket_of(datagram.to))),
    ]
}

/// Those of them that are asked for.
pub(crate) fn asked_fields<'f>(heads: Heads, fields: &'f [Field<'f>; 4]) -> &'f [Field<'f>]
    ensures { result.now ≡ fields_if heads.frame (take 1 fields.now) ++ fields_if heads.endpoints (drop 1 fields.now) }
{
    match (heads.frame, heads.endpoints) {
        (true, true) => fields,
        (true, false) => &fields[..1],
        (false, true) => &fields[1..],
        (false, false) => &[],
    }
}

/// A field.
pub fn field_of<'f>(lead: &'f str, key: &'f str, said: Said<'f>) -> Field<'f>
    ensures { view_field result ≡ field lead.now key.now (view_said said.entry) }
{
    Field { lead, key, said }
}

/// A time, which may not be there.
pub fn said_of_time(time: Option<Time>) -> Said<'static>
    ensures { view_said result ≡ said_of_time time }
{
    match time {
        Some(time) => Said::Time {
            seconds: time.seconds,
            nanoseconds: time.nanoseconds,
        },
        None => Said::Nothing,
    }
}
