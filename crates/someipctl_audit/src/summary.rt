//! The summary of an audit.
ghost use Rattle.std.specs.Prelude.{◌≡◌, ◌++◌, List, OnErr, OnOk, codes, decimal, map};
ghost use Rattle.std.specs.List.{flat_map};
ghost use Rattle.someip_audit.specs.Audits.{Report};
ghost use Rattle.someipctl_io.specs.Parts.{part_text};
ghost use Rattle.someipctl_io.specs.Sending.{Sends, Stops};
ghost use Rattle.someipctl_io.specs.ToldLines.{line_text};
ghost use Rattle.someipctl_io.specs.ToldViews.{view_field};
ghost use Rattle.someipctl_io.specs.declared.form.Form.TheVariants.{Json, Plain};
ghost use Rattle.someipctl_show.specs.VerdictForms.{no_head, wordless};
ghost use Rattle.someipctl_audit.specs.AuditText.{Looked, audited_told, counted_line, kind_line, summary_text};
ghost use Rattle.audit_rules.specs.Kinds.{all_kinds, kind_words};
ghost use Rattle.someipctl_audit.specs.Tallies.{Counts, looked_in, tally_kinds, tally_line};

use crate::tally::Tally;
use audit_rules::{KIND_COUNT, Kind, kinds};
use someipctl_io::{
    Buffer, CannotWrite, Field, Form, Line, LineHead, Part, Said, put_line, put_parts,
};
use someipctl_recordings::heads::field_of;
use std::io::Write;

/// Prints the summary of what was counted.
pub(crate) fn put_summary<W: Write>(
    buffer: &mut Buffer,
    writer: &mut W,
    form: Form,
    tally: &Tally,
) -> Result<(), CannotWrite>
    ensures ok { (reports : List Report) (looked : Looked) → Counts tally.now reports looked
        → OnOk result (Sends (W.contents writer.old) buffer.old (W.contents writer.new)
        buffer.new (summary_text form looked reports)) }
    ensures err { (reports : List Report) (looked : Looked) → Counts tally.now reports looked
        → OnErr result (Stops (W.contents writer.old) buffer.old (W.contents writer.new)
        (summary_text form looked reports)) }
{
    put_tally(buffer, writer, form, tally)
}

/// Prints what was counted.
fn put_tally<W: Write>(
    buffer: &mut Buffer,
    writer: &mut W,
    form: Form,
    tally: &Tally,
) -> Result<(), CannotWrite>
    ensures ok { OnOk result (Sends (W.contents writer.old) buffer.old (W.contents writer.new)
        buffer.new (tally_line form tally.now ++ tally_kinds form tally.now.kinds all_kinds)) }
    ensures err { OnErr result (Stops (W.contents writer.old) buffer.old (W.contents writer.new)
        (tally_line form tally.now ++ tally_kinds form tally.now.kinds all_kinds)) }
{
    put_audited(buffer, writer, form, tally)?;
    put_kinds(buffer, writer, form, &tally.kinds, &kinds())
}

/// Prints the first line of a summary.
fn put_audited<W: Write>(
    buffer: &mut Buffer,
    writer: &mut W,
    form: Form,
    tally: &Tally,
) -> Result<(), CannotWrite>
    ensures ok { OnOk result (Sends (W.contents writer.old) buffer.old (W.contents writer.new)
        buffer.new (tally_line form tally.now)) }
    ensures err { OnErr result (Stops (W.contents writer.old) buffer.old (W.contents writer.new)
        (tally_line form tally.now)) }
{
    match form {
        Form::Plain => put_parts(buffer, writer, &audited_parts(tally)),
        Form::Json => put_object(buffer, writer, "audited", &audited_fields(tally)),
    }
}

/// The first line of a plain summary.
fn audited_parts(tally: &Tally) -> [Part<'static>; 7]
    ensures { flat_map part_text result ≡ tally_line Plain tally.now }
{
    [
        Part::Text("audited "),
        Part::Number(tally.datagrams),
        Part::Text(" datagrams, "),
        Part::Number(tally.messages),
        Part::Text(" messages, "),
        Part::Number(tally.findings),
        Part::Text(" findings\n"),
    ]
}

/// What the first line tells.
fn audited_fields(tally: &Tally) -> [Field<'static>; 3]
    ensures { map view_field result ≡ (audited_told (looked_in tally.now) tally.now.findings).fields }
{
    [
        field_of("", "datagrams", Said::Number(tally.datagrams)),
        field_of("", "messages", Said::Number(tally.messages)),
        field_of("", "findings", Said::Number(tally.findings)),
    ]
}

/// Prints an object of a kind.
pub(crate) fn put_object<'l, W: Write>(
    buffer: &mut Buffer,
    writer: &mut W,
    kind: &'l str,
    fields: &'l [Field<'l>],
) -> Result<(), CannotWrite>
    ensures ok { OnOk result (Sends (W.contents writer.old) buffer.old (W.contents writer.new)
        buffer.new (line_text Json no_head (wordless kind.now (map view_field fields.now)))) }
    ensures err { OnErr result (Stops (W.contents writer.old) buffer.old (W.contents writer.new)
        (line_text Json no_head (wordless kind.now (map view_field fields.now)))) }
{
    let head = LineHead {
        form: Form::Json,
        number: &[],
        origin: &[],
        place: &[],
    };
    let line = Line {
        kind,
        word: None,
        fields,
    };
    put_line(buffer, writer, &head, &line)
}

/// Prints how many findings of each of these kinds were told.
fn put_kinds<W: Write>(
    buffer: &mut Buffer,
    writer: &mut W,
    form: Form,
    numbers: &[usize; KIND_COUNT],
    kinds: &[Kind],
) -> Result<(), CannotWrite>
    ensures ok { OnOk result (Sends (W.contents writer.old) buffer.old (W.contents writer.new)
        buffer.new (tally_kinds form numbers.now kinds.now)) }
    ensures err { OnErr result (Stops (W.contents writer.old) buffer.old (W.contents writer.new)
        (tally_kinds form numbers.now kinds.now)) }
{
    for kind in kinds {
        put_kind(buffer, writer, form, *kind, numbers[kind.number()])?;
    }
    Ok(())
}

/// Prints how many findings of a kind were told, if any were.
fn put_kind<W: Write>(
    buffer: &mut Buffer,
    writer: &mut W,
    form: Form,
    kind: Kind,
    number: usize,
) -> Result<(), CannotWrite>
    ensures ok { OnOk result (Sends (W.contents writer.old) buffer.old (W.contents writer.new)
        buffer.new (kind_line form kind number)) }
    ensures err { OnErr result (Stops (W.contents writer.old) buffer.old (W.contents writer.new)
        (kind_line form kind number)) }
{
    if number == 0 {
        return Ok(());
    }
    put_counted(buffer, writer, form, kind, number)
}

/// Prints how many findings of a kind were told.
fn put_counted<W: Write>(
    buffer: &mut Buffer,
    writer: &mut W,
    form: Form,
    kind: Kind,
    number: usize,
) -> Result<(), CannotWrite>
    ensures ok { OnOk result (Sends (W.contents writer.old) buffer.old (W.contents writer.new)
        buffer.new (counted_line form kind number)) }
    ensures err { OnErr result (Stops (W.contents writer.old) buffer.old (W.contents writer.new)
        (counted_line form kind number)) }
{
    match form {
        Form::Plain => put_parts(buffer, writer, &kind_parts(kind, number)),
        Form::Json => {
            let fields = [field_of("", "count", Said::Number(number))];
            put_object(buffer, writer, kind.name(), &fields)
        }
    }
}

/// The words of a kind, and a number.
fn kind_parts(kind: Kind, number: usize) -> [Part<'static>; 4]
    ensures { flat_map part_text result ≡ kind_words kind ++ (codes " " ++ (decimal number ++ codes "\n")) }
{
    [
        Part::Text(kind.words()),
        Part::Text(" "),
        Part::Number(number),
        Part::Text("\n"),
    ]
}
