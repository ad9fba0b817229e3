//! How many findings are allowed, and of which kinds more came than may, as the summary tells it.
ghost use Rattle.std.specs.Prelude.{◌≡◌, ◌∷◌, [], IfErr, OnErr, OnOk, codes, map};
ghost use Rattle.audit_rules.specs.Kinds.{all_kinds, kind_words};
ghost use Rattle.audit_rules.specs.Weighing.{exceeded};
ghost use Rattle.someipctl_io.specs.declared.Fault.TheVariants.{CannotRead};
ghost use Rattle.someipctl_io.specs.Sending.{Sends, Stops};
ghost use Rattle.someipctl_io.specs.ToldLines.{field, text};
ghost use Rattle.someipctl_io.specs.ToldViews.{view_field};
ghost use Rattle.someipctl_audit.specs.Notes.{all_of_kind, allowed_fields, allowed_line, allowed_text, exceeded_fields};
ghost use Rattle.someipctl_audit.specs.Notes.{exceeded_line, exceeded_lines, exceeded_of_kind, weights_text};

use crate::groups::{id_or_nothing, kind_fields, put_behind};
use crate::summary::put_object;
use audit_rules::{Exceeded, Kind, WeightBook, kinds};
use someipctl_io::{Buffer, CannotWrite, Fault, Field, Form, Said};
use someipctl_recordings::heads::field_of;
use std::alloc::Global;
use std::convert::Infallible;
use std::io::Write;

/// Prints how many findings are allowed, and of which kinds more came than may.
pub(crate) fn put_weights<W: Write>(
    buffer: &mut Buffer,
    writer: &mut W,
    form: Form,
    alloc: Global,
    weights: &WeightBook,
) -> Result<(), Fault<Infallible>>
    ensures ok { OnOk result (Sends (W.contents writer.old) buffer.old (W.contents writer.new)
        buffer.new (weights_text form weights.now)) }
    ensures err { OnErr result (Stops (W.contents writer.old) buffer.old (W.contents writer.new)
        (weights_text form weights.now)) }
    ensures read { IfErr result (λ fault. fault ≡ CannotRead → ⊥) }
{
    put_allowed(buffer, writer, form, weights.allowed())?;
    put_all_exceeded(buffer, writer, form, alloc, weights)
}

/// Prints of which kinds more came than may.
fn put_all_exceeded<W: Write>(
    buffer: &mut Buffer,
    writer: &mut W,
    form: Form,
    alloc: Global,
    weights: &WeightBook,
) -> Result<(), Fault<Infallible>>
    ensures ok { OnOk result (Sends (W.contents writer.old) buffer.old (W.contents writer.new)
        buffer.new (exceeded_lines form (exceeded weights.now) all_kinds)) }
    ensures err { OnErr result (Stops (W.contents writer.old) buffer.old (W.contents writer.new)
        (exceeded_lines form (exceeded weights.now) all_kinds)) }
    ensures read { IfErr result (λ fault. fault ≡ CannotRead → ⊥) }
{
    let list = weights.exceeded(alloc)?;
    put_kinds(buffer, writer, form, &list, &kinds())?;
    Ok(())
}

/// Prints how many findings are allowed, if any are.
fn put_allowed<W: Write>(
    buffer: &mut Buffer,
    writer: &mut W,
    form: Form,
    number: usize,
) -> Result<(), CannotWrite>
    ensures ok { OnOk result (Sends (W.contents writer.old) buffer.old (W.contents writer.new)
        buffer.new (allowed_text form number)) }
    ensures err { OnErr result (Stops (W.contents writer.old) buffer.old (W.contents writer.new)
        (allowed_text form number)) }
{
    if number == 0 {
        return Ok(());
    }
    put_allowed_line(buffer, writer, form, number)
}

/// Prints how many findings are allowed.
fn put_allowed_line<W: Write>(
    buffer: &mut Buffer,
    writer: &mut W,
    form: Form,
    number: usize,
) -> Result<(), CannotWrite>
    ensures ok { OnOk result (Sends (W.contents writer.old) buffer.old (W.contents writer.new)
        buffer.new (allowed_line form number)) }
    ensures err { OnErr result (Stops (W.contents writer.old) buffer.old (W.contents writer.new)
        (allowed_line form number)) }
{
    let fields = allowed_fields(number);
    match form {
        Form::Plain => put_behind(buffer, writer, &allowed_head(), "allowed", &fields),
        Form::Json => put_object(buffer, writer, "allowed", &fields),
    }
}

/// What a plain line of those that are allowed begins with.
fn allowed_head() -> [Field<'static>; 1]
    ensures { map view_field result ≡ field [] (codes "kind") (text (codes "allowed")) ∷ [] }
{
    [field_of("", "kind", Said::Text("allowed"))]
}

/// How many are allowed.
fn allowed_fields(number: usize) -> [Field<'static>; 1]
    ensures { map view_field result ≡ allowed_fields number }
{
    [field_of(" ", "count", Said::Number(number))]
}

/// Prints those of each of these kinds.
fn put_kinds<W: Write>(
    buffer: &mut Buffer,
    writer: &mut W,
    form: Form,
    list: &[Exceeded],
    kinds: &[Kind],
) -> Result<(), CannotWrite>
    ensures ok { OnOk result (Sends (W.contents writer.old) buffer.old (W.contents writer.new)
        buffer.new (exceeded_lines form list.now kinds.now)) }
    ensures err { OnErr result (Stops (W.contents writer.old) buffer.old (W.contents writer.new)
        (exceeded_lines form list.now kinds.now)) }
{
    for kind in kinds {
        put_all_of(buffer, writer, form, *kind, list)?;
    }
    Ok(())
}

/// Prints those that are of a kind.
fn put_all_of<W: Write>(
    buffer: &mut Buffer,
    writer: &mut W,
    form: Form,
    kind: Kind,
    list: &[Exceeded],
) -> Result<(), CannotWrite>
    ensures ok { OnOk result (Sends (W.contents writer.old) buffer.old (W.contents writer.new)
        buffer.new (all_of_kind form list.now kind)) }
    ensures err { OnErr result (Stops (W.contents writer.old) buffer.old (W.contents writer.new)
        (all_of_kind form list.now kind)) }
{
    for one in list {
        put_one_of(buffer, writer, form, kind, one)?;
    }
    Ok(())
}

/// Prints one, if it is of a kind.
fn put_one_of<W: Write>(
    buffer: &mut Buffer,
    writer: &mut W,
    form: Form,
    kind: Kind,
    one: &Exceeded,
) -> Result<(), CannotWrite>
    ensures ok { OnOk result (Sends (W.contents writer.old) buffer.old (W.contents writer.new)
        buffer.new (exceeded_of_kind form kind one.now)) }
    ensures err { OnErr result (Stops (W.contents writer.old) buffer.old (W.contents writer.new)
        (exceeded_of_kind form kind one.now)) }
{
    if one.kind != kind.number() {
        return Ok(());
    }
    put_exceeded(buffer, writer, form, kind, one)
}

/// Prints that more came of a kind than may.
fn put_exceeded<W: Write>(
    buffer: &mut Buffer,
    writer: &mut W,
    form: Form,
    kind: Kind,
    one: &Exceeded,
) -> Result<(), CannotWrite>
    ensures ok { OnOk result (Sends (W.contents writer.old) buffer.old (W.contents writer.new)
        buffer.new (exceeded_line form kind one.now)) }
    ensures err { OnErr result (Stops (W.contents writer.old) buffer.old (W.contents writer.new)
        (exceeded_line form kind one.now)) }
{
    let fields = exceeded_fields(one);
    match form {
        Form::Plain => put_behind(buffer, writer, &kind_fields(kind), kind.name(), &fields),
        Form::Json => put_object(buffer, writer, kind.name(), &fields),
    }
}

/// What is told of it.
fn exceeded_fields(one: &Exceeded) -> [Field<'static>; 4]
    ensures { map view_field result ≡ exceeded_fields one.now }
{
    [
        field_of(" ", "service", id_or_nothing(one.service)),
        field_of(".", "method", id_or_nothing(one.method)),
        field_of(" at most ", "most", Said::Number(one.most)),
        field_of(" came ", "came", Said::Number(one.came)),
    ]
}
