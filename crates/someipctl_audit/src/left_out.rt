//! How many packets gave no datagram, as the summary of an audit tells it.
ghost use Rattle.std.specs.Prelude.{◌≡◌, IfOk, OnErr, OnOk, map, true};
ghost use Rattle.someipctl_io.specs.Sending.{Sends, Stops};
ghost use Rattle.someipctl_io.specs.ToldViews.{view_field};
ghost use Rattle.someipctl_io.specs.declared.form.Form.TheVariants.{Plain};
ghost use Rattle.someipctl_audit.specs.Unjudged.{is_still_first, kind_text, kinds_told, left_kinds, left_out_line, left_out_text};
ghost use Rattle.someipctl_audit.specs.Unjudged.{left_out_told, left_words};

use crate::summary::put_object;
use recording_packets::LeftOut;
use someipctl_io::{Buffer, CannotWrite, Field, Form, Part, Said, put_parts};
use someipctl_recordings::heads::field_of;
use std::io::Write;

/// Prints how many packets gave no datagram, if there were any.
pub(crate) fn put_left_out<W: Write>(
    buffer: &mut Buffer,
    writer: &mut W,
    form: Form,
    left_out: &LeftOut,
) -> Result<(), CannotWrite>
    ensures ok { OnOk result (Sends (W.contents writer.old) buffer.old (W.contents writer.new)
        buffer.new (left_out_text form left_out.now)) }
    ensures err { OnErr result (Stops (W.contents writer.old) buffer.old (W.contents writer.new)
        (left_out_text form left_out.now)) }
{
    if left_out.is_empty() {
        return Ok(());
    }
    put_line_of(buffer, writer, form, left_out)
}

/// Prints how many packets gave no datagram.
fn put_line_of<W: Write>(
    buffer: &mut Buffer,
    writer: &mut W,
    form: Form,
    left_out: &LeftOut,
) -> Result<(), CannotWrite>
    ensures ok { OnOk result (Sends (W.contents writer.old) buffer.old (W.contents writer.new)
        buffer.new (left_out_line form left_out.now)) }
    ensures err { OnErr result (Stops (W.contents writer.old) buffer.old (W.contents writer.new)
        (left_out_line form left_out.now)) }
{
    match form {
        Form::Plain => put_plain(buffer, writer, left_out),
        Form::Json => put_object(buffer, writer, "left-out", &fields_of(left_out)),
    }
}

/// Prints the plain line of packets that gave no datagram.
fn put_plain<W: Write>(
    buffer: &mut Buffer,
    writer: &mut W,
    left_out: &LeftOut,
) -> Result<(), CannotWrite>
    ensures ok { OnOk result (Sends (W.contents writer.old) buffer.old (W.contents writer.new)
        buffer.new (left_out_line Plain left_out.now)) }
    ensures err { OnErr result (Stops (W.contents writer.old) buffer.old (W.contents writer.new)
        (left_out_line Plain left_out.now)) }
{
    put_parts(buffer, writer, &[Part::Text("left out")])?;
    put_kinds(buffer, writer, &kinds_of(left_out))
}

/// The kinds of packets that gave no datagram, in words, and how many of each there were.
fn kinds_of(left_out: &LeftOut) -> [(&'static str, usize); 8]
    ensures { kinds_told result ≡ left_kinds left_out.now }
{
    [
        ("of another link type", left_out.link_type),
        ("not IPv4", left_out.not_ipv4),
        ("not UDP", left_out.not_udp),
        ("cut short", left_out.cut),
        ("with a bad UDP length", left_out.bad_udp_length),
        ("copies", left_out.copies),
        (
            "fragments without the rest",
            left_out.fragments_without_rest,
        ),
        ("fragments that differ", left_out.fragments_that_differ),
    ]
}

/// Prints those of these kinds that there were, and the end of the line.
fn put_kinds<W: Write>(
    buffer: &mut Buffer,
    writer: &mut W,
    kinds: &[(&'static str, usize)],
) -> Result<(), CannotWrite>
    ensures ok { OnOk result (Sends (W.contents writer.old) buffer.old (W.contents writer.new)
        buffer.new (left_words true (kinds_told kinds.now))) }
    ensures err { OnErr result (Stops (W.contents writer.old) buffer.old (W.contents writer.new)
        (left_words true (kinds_told kinds.now))) }
{
    let mut is_first = true;
    for kind in kinds {
        is_first = put_kind(buffer, writer, is_first, kind)?;
    }
    put_parts(buffer, writer, &[Part::Text("\n")])
}

/// Prints how many there were of a kind, if there were any. Says whether the next one is the first still.
fn put_kind<W: Write>(
    buffer: &mut Buffer,
    writer: &mut W,
    is_first: bool,
    kind: &(&'static str, usize),
) -> Result<bool, CannotWrite>
    ensures first { IfOk result (λ first. first ≡ is_still_first is_first (kind.now.0.now, kind.now.1)) }
    ensures ok { OnOk result (Sends (W.contents writer.old) buffer.old (W.contents writer.new)
        buffer.new (kind_text is_first (kind.now.0.now, kind.now.1))) }
    ensures err { OnErr result (Stops (W.contents writer.old) buffer.old (W.contents writer.new)
        (kind_text is_first (kind.now.0.now, kind.now.1))) }
{
    let (words, count) = *kind;
    if count == 0 {
        return Ok(is_first);
    }
    let parts = [
        Part::Text(if is_first { " " } else { ", " }),
        Part::Number(count),
        Part::Text(" "),
        Part::Text(words),
    ];
    put_parts(buffer, writer, &parts)?;
    Ok(false)
}

/// What the object of packets that gave no datagram tells.
fn fields_of(left_out: &LeftOut) -> [Field<'static>; 8]
    ensures { map view_field result ≡ (left_out_told left_out.now).fields }
{
    [
        field_of("", "linktype", Said::Number(left_out.link_type)),
        field_of("", "notipv4", Said::Number(left_out.not_ipv4)),
        field_of("", "notudp", Said::Number(left_out.not_udp)),
        field_of("", "cut", Said::Number(left_out.cut)),
        field_of("", "badlength", Said::Number(left_out.bad_udp_length)),
        field_of("", "copies", Said::Number(left_out.copies)),
        field_of(
            "",
            "incomplete",
            Said::Number(left_out.fragments_without_rest),
        ),
        field_of(
            "",
            "differing",
            Said::Number(left_out.fragments_that_differ),
        ),
    ]
}
