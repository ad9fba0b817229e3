//! How many more findings of each group there were than are shown, as the summary tells it.
ghost use Rattle.std.specs.Prelude.{◌≡◌, ◌++◌, ◌∷◌, [], IfErr, OnErr, OnOk, codes, map};
ghost use Rattle.someipctl_io.specs.declared.Fault.TheVariants.{CannotRead};
ghost use Rattle.someipctl_io.specs.Sending.{Sends, Stops};
ghost use Rattle.someipctl_io.specs.ToldLines.{field, line_text, mark, text};
ghost use Rattle.someipctl_show.specs.VerdictForms.{head_of, wordless};
ghost use Rattle.someipctl_io.specs.ToldViews.{view_field, view_said};
ghost use Rattle.someipctl_io.specs.declared.form.Form.TheVariants.{Plain};
ghost use Rattle.someipctl_audit.specs.Groupings.{group_fields, grouped_line, grouped_lines, groups_text};
ghost use Rattle.someipctl_audit.specs.Groupings.{id_or_nothing, line_of_kind, lines_of_kind};
ghost use Rattle.audit_rules.specs.Kinds.{kind_words};

use crate::summary::put_object;
use audit_rules::{Kind, kinds};
use someip_audit::groups::{GroupBook, Grouped};
use someipctl_io::{Buffer, CannotWrite, Fault, Field, Form, Line, LineHead, Said, put_line};
use someipctl_recordings::heads::field_of;
use std::convert::Infallible;
use std::io::Write;

/// Prints how many more findings of each group there were than are shown, if findings are grouped.
pub(crate) fn put_groups<W: Write>(
    buffer: &mut Buffer,
    writer: &mut W,
    form: Form,
    groups: &Option<GroupBook>,
) -> Result<(), Fault<Infallible>>
    ensures ok { OnOk result (Sends (W.contents writer.old) buffer.old (W.contents writer.new)
        buffer.new (groups_text form groups.now)) }
    ensures err { OnErr result (Stops (W.contents writer.old) buffer.old (W.contents writer.new)
        (groups_text form groups.now)) }
    ensures read { IfErr result (λ fault. fault ≡ CannotRead → ⊥) }
{
    let Some(book) = groups else {
        return Ok(());
    };
    let groups = book.more()?;
    put_kinds(buffer, writer, form, &groups, &kinds())?;
    Ok(())
}

/// Prints the groups of each of these kinds.
fn put_kinds<W: Write>(
    buffer: &mut Buffer,
    writer: &mut W,
    form: Form,
    groups: &[Grouped],
    kinds: &[Kind],
) -> Result<(), CannotWrite>
    ensures ok { OnOk result (Sends (W.contents writer.old) buffer.old (W.contents writer.new)
        buffer.new (grouped_lines form groups.now kinds.now)) }
    ensures err { OnErr result (Stops (W.contents writer.old) buffer.old (W.contents writer.new)
        (grouped_lines form groups.now kinds.now)) }
{
    for kind in kinds {
        put_groups_of(buffer, writer, form, *kind, groups)?;
    }
    Ok(())
}

/// Prints those of these groups that are of a kind.
fn put_groups_of<W: Write>(
    buffer: &mut Buffer,
    writer: &mut W,
    form: Form,
    kind: Kind,
    groups: &[Grouped],
) -> Result<(), CannotWrite>
    ensures ok { OnOk result (Sends (W.contents writer.old) buffer.old (W.contents writer.new)
        buffer.new (lines_of_kind form groups.now kind)) }
    ensures err { OnErr result (Stops (W.contents writer.old) buffer.old (W.contents writer.new)
        (lines_of_kind form groups.now kind)) }
{
    for one in groups {
        put_group_of(buffer, writer, form, kind, one)?;
    }
    Ok(())
}

/// Prints a group, if it is of a kind.
fn put_group_of<W: Write>(
    buffer: &mut Buffer,
    writer: &mut W,
    form: Form,
    kind: Kind,
    one: &Grouped,
) -> Result<(), CannotWrite>
    ensures ok { OnOk result (Sends (W.contents writer.old) buffer.old (W.contents writer.new)
        buffer.new (line_of_kind form kind one.now)) }
    ensures err { OnErr result (Stops (W.contents writer.old) buffer.old (W.contents writer.new)
        (line_of_kind form kind one.now)) }
{
    if one.key.kind != kind.code() {
        return Ok(());
    }
    put_group(buffer, writer, form, kind, one)
}

/// Prints a group of a kind.
fn put_group<W: Write>(
    buffer: &mut Buffer,
    writer: &mut W,
    form: Form,
    kind: Kind,
    one: &Grouped,
) -> Result<(), CannotWrite>
    ensures ok { OnOk result (Sends (W.contents writer.old) buffer.old (W.contents writer.new)
        buffer.new (grouped_line form kind one.now)) }
    ensures err { OnErr result (Stops (W.contents writer.old) buffer.old (W.contents writer.new)
        (grouped_line form kind one.now)) }
{
    match form {
        Form::Plain => put_plain_group(buffer, writer, kind, one),
        Form::Json => put_object(buffer, writer, kind.name(), &group_fields(one)),
    }
}

/// Prints the plain line of a group of a kind.
fn put_plain_group<W: Write>(
    buffer: &mut Buffer,
    writer: &mut W,
    kind: Kind,
    one: &Grouped,
) -> Result<(), CannotWrite>
    ensures ok { OnOk result (Sends (W.contents writer.old) buffer.old (W.contents writer.new)
        buffer.new (grouped_line Plain kind one.now)) }
    ensures err { OnErr result (Stops (W.contents writer.old) buffer.old (W.contents writer.new)
        (grouped_line Plain kind one.now)) }
{
    put_behind(
        buffer,
        writer,
        &kind_fields(kind),
        kind.name(),
        &plain_fields(one),
    )
}

/// Prints a plain line of a kind, which begins with these fields.
pub(crate) fn put_behind<'l, W: Write>(
    buffer: &mut Buffer,
    writer: &mut W,
    number: &'l [Field<'l>],
    kind: &'l str,
    fields: &'l [Field<'l>],
) -> Result<(), CannotWrite>
    ensures ok { OnOk result (Sends (W.contents writer.old) buffer.old (W.contents writer.new) buffer.new
        (line_text Plain (head_of (map view_field number.now)) (wordless kind.now (map view_field fields.now)))) }
    ensures err { OnErr result (Stops (W.contents writer.old) buffer.old (W.contents writer.new)
        (line_text Plain (head_of (map view_field number.now)) (wordless kind.now (map view_field fields.now)))) }
{
    let head = LineHead {
        form: Form::Plain,
        number,
        origin: &[],
        place: &[],
    };
    let line = Line {
        kind,
        word: None,
        fields,
    };
    put_line(buffer, writer, &head, &line)
}

/// What a plain line begins with.
pub(crate) fn kind_fields(kind: Kind) -> [Field<'static>; 1]
    ensures { map view_field result ≡ field [] (codes "kind") (text (kind_words kind)) ∷ [] }
{
    [field_of("", "kind", Said::Text(kind.words()))]
}

/// What the object of a group tells behind its kind.
fn group_fields(one: &Grouped) -> [Field<'static>; 5]
    ensures { map view_field result ≡ group_fields one.now }
{
    let key = &one.key;
    [
        field_of(" ", "service", id_or_nothing(key.service)),
        field_of(".", "method", id_or_nothing(key.method)),
        field_of(" ", "from", Said::Endpoint(key.from)),
        field_of(" ", "to", Said::Endpoint(key.to)),
        field_of(" ", "more", Said::Number(one.more)),
    ]
}

/// What a plain line tells of it.
fn plain_fields(one: &Grouped) -> [Field<'static>; 6]
    ensures { map view_field result ≡ group_fields one.now ++ field (codes " more") (codes "rest") mark ∷ [] }
{
    let [service, method, from, to, more] = group_fields(one);
    [
        service,
        method,
        from,
        to,
        more,
        field_of(" more", "rest", Said::Mark),
    ]
}

/// An ID of 16 bits, if there is one.
pub(crate) fn id_or_nothing(id: Option<u16>) -> Said<'static>
    ensures { view_said result ≡ id_or_nothing id }
{
    match id {
        Some(id) => Said::Id(id),
        None => Said::Nothing,
    }
}
