//! The lines of messages, segments and faults in the form that is asked for: their fields, of which either
//! form is made.
ghost use Rattle.std.specs.Prelude.{◌≡◌, ◌&&◌, OnOk, OnErr, IfOk, map};
ghost use Rattle.someip_wire.specs.Kinds.{has_tp_flag};
ghost use Rattle.someip_wire.specs.View.{view};
ghost use Rattle.someipctl_io.specs.Sending.{Sends, Stops};
ghost use Rattle.someipctl_io.specs.Lines.{has_no_tp_header};
ghost use Rattle.someipctl_io.specs.ToldLines.{field, line_text, lines_text};
ghost use Rattle.someipctl_io.specs.ToldViews.{view_field, view_head, view_line, view_said};
ghost use Rattle.someipctl_io.specs.ToldItems.{dropped_told, empty_told, fault_told, message_fields, message_told};
ghost use Rattle.someipctl_io.specs.ToldItems.{segment_fields, segments_told, told, whole_told};

use crate::form::Form;
use crate::lines::name_of_type;
use crate::message_objects::put_message_object;
use crate::output::{Buffer, CannotWrite};
use crate::told::{Field, Line, LineHead, Said, put_line};
use someip_reassembly::read_segment;
use someip_wire::Message;
use std::io::Write;

/// Prints the line of a datagram that has no bytes.
pub fn put_empty_in<W: Write>(
    buffer: &mut Buffer,
    writer: &mut W,
    head: &LineHead<'_>,
) -> Result<(), CannotWrite>
    ensures ok { OnOk result (Sends (W.contents writer.old) buffer.old (W.contents writer.new) buffer.new
        (line_text head.now.form (view_head head.now) empty_told)) }
    ensures err { OnErr result (Stops (W.contents writer.old) buffer.old (W.contents writer.new)
        (line_text head.now.form (view_head head.now) empty_told)) }
{
    put_line(buffer, writer, head, &line("empty", &[]))
}

/// Prints the line of a message.
pub(crate) fn put_message_in<W: Write>(
    buffer: &mut Buffer,
    writer: &mut W,
    head: &LineHead<'_>,
    message: &Message<'_>,
) -> Result<(), CannotWrite>
    ensures ok { OnOk result (Sends (W.contents writer.old) buffer.old (W.contents writer.new) buffer.new
        (line_text head.now.form (view_head head.now) (message_told (view message.now)))) }
    ensures err { OnErr result (Stops (W.contents writer.old) buffer.old (W.contents writer.new)
        (line_text head.now.form (view_head head.now) (message_told (view message.now)))) }
{
    match head.form {
        Form::Plain => put_line(
            buffer,
            writer,
            head,
            &line("message", &message_fields(message)),
        ),
        Form::Json => put_message_object(buffer, writer, head, "message", message),
    }
}

/// Prints the line of a message, without the TP flag, that a segment made whole.
pub fn put_whole_in<W: Write>(
    buffer: &mut Buffer,
    writer: &mut W,
    head: &LineHead<'_>,
    message: &Message<'_>,
) -> Result<(), CannotWrite>
    ensures ok { OnOk result (Sends (W.contents writer.old) buffer.old (W.contents writer.new) buffer.new
        (line_text head.now.form (view_head head.now) (whole_told (view message.now)))) }
    ensures err { OnErr result (Stops (W.contents writer.old) buffer.old (W.contents writer.new)
        (line_text head.now.form (view_head head.now) (whole_told (view message.now)))) }
{
    match head.form {
        Form::Plain => put_line(
            buffer,
            writer,
            head,
            &line("whole", &message_fields(message)),
        ),
        Form::Json => put_message_object(buffer, writer, head, "whole", message),
    }
}

/// Prints the line of a segment that is not put together.
pub fn put_dropped_in<W: Write>(
    buffer: &mut Buffer,
    writer: &mut W,
    head: &LineHead<'_>,
    name: &str,
) -> Result<(), CannotWrite>
    ensures ok { OnOk result (Sends (W.contents writer.old) buffer.old (W.contents writer.new) buffer.new
        (line_text head.now.form (view_head head.now) (dropped_told name.now))) }
    ensures err { OnErr result (Stops (W.contents writer.old) buffer.old (W.contents writer.new)
        (line_text head.now.form (view_head head.now) (dropped_told name.now))) }
{
    let fields = [told(" ", "name", Said::Text(name))];
    put_line(buffer, writer, head, &line("dropped", &fields))
}

/// Prints the line of a fault: its name, and its place.
pub fn put_fault_in<W: Write>(
    buffer: &mut Buffer,
    writer: &mut W,
    head: &LineHead<'_>,
    name: &str,
    place: usize,
) -> Result<(), CannotWrite>
    ensures ok { OnOk result (Sends (W.contents writer.old) buffer.old (W.contents writer.new) buffer.new
        (line_text head.now.form (view_head head.now) (fault_told name.now place))) }
    ensures err { OnErr result (Stops (W.contents writer.old) buffer.old (W.contents writer.new)
        (line_text head.now.form (view_head head.now) (fault_told name.now place))) }
{
    let fields = [
        told(" ", "name", Said::Text(name)),
        told(" at ", "at", Said::Number(place)),
    ];
    put_line(buffer, writer, head, &line("fault", &fields))
}

/// Prints what stands behind the line of a message whose payload begins at a place of its datagram: what the
/// TP header of a segment says, or the fault that there is no room for it, or nothing where the message is no
/// segment. Says whether it was the fault.
pub(crate) fn put_segment_in<W: Write>(
    buffer: &mut Buffer,
    writer: &mut W,
    head: &LineHead<'_>,
    place: usize,
    message: &Message<'_>,
) -> Result<bool, CannotWrite>
    ensures ok { OnOk result (Sends (W.contents writer.old) buffer.old (W.contents writer.new) buffer.new
        (lines_text head.now.form (view_head head.now) (segments_told place (view message.now)))) }
    ensures faulty { IfOk result (λ faulty. faulty
        ≡ (has_tp_flag message.now.header.kind && has_no_tp_header message.now.payload.now)) }
    ensures err { OnErr result (Stops (W.contents writer.old) buffer.old (W.contents writer.new)
        (lines_text head.now.form (view_head head.now) (segments_told place (view message.now)))) }
{
    if !message.header.kind.has_tp_flag() {
        return Ok(false);
    }
    let Ok((offset, more, slice)) = read_segment(message.payload) else {
        put_fault_in(buffer, writer, head, "NoHeader", place)?;
        return Ok(true);
    };
    let fields = segment_fields(offset as usize, more, slice.len());
    put_line(buffer, writer, head, &line("segment", &fields))?;
    Ok(false)
}

/// What a segment says: its offset, whether more come, and how many bytes it has.
fn segment_fields(offset: usize, more: bool, bytes: usize) -> [Field<'static>; 3]
    ensures { map view_field result ≡ segment_fields offset more bytes }
{
    [
        told(" offset ", "offset", Said::Number(offset)),
        told(" more ", "more", Said::Flag(more)),
        told(" bytes ", "bytes", Said::Number(bytes)),
    ]
}

/// What a message says.
fn message_fields<'m>(message: &Message<'m>) -> [Field<'m>; 9]
    ensures { map view_field result ≡ message_fields (view message.now) }
{
    let header = message.header;
    [
        told(" ", "service", Said::Id(header.service)),
        told(".", "method", Said::Id(header.method)),
        told(
            " length ",
            "length",
            Said::Number(8 + message.payload.len()),
        ),
        told(" client ", "client", Said::Id(header.client)),
        told(" session ", "session", Said::Id(header.session)),
        told(" interface ", "interface", Said::Byte(header.interface)),
        told(" type ", "type", Said::Text(name_of_type(header.kind))),
        told(" code ", "code", Said::Byte(header.code.0)),
        told(" payload ", "payload", Said::Bytes(message.payload)),
    ]
}

/// A field.
pub(crate) fn told<'f>(lead: &'f str, key: &'f str, said: Said<'f>) -> Field<'f>
    ensures { view_field result ≡ field lead.now key.now (view_said said.entry) }
{
    Field { lead, key, said }
}

/// A line whose word is its kind.
pub(crate) fn line<'l>(kind: &'l str, fields: &'l [Field<'l>]) -> Line<'l>
    ensures { view_line result ≡ told kind.now (map view_field fields.now) }
{
    Line {
        kind,
        word: Some(kind),
        fields,
    }
}
