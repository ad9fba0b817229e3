//! What of a recording could not be judged, as the summary of its audit tells it.
ghost use Rattle.std.specs.Prelude.{◌≡◌, IfErr, IfOk, List, OnErr, OnOk, codes, decimal, map, ◌++◌};
ghost use Rattle.std.specs.List.{flat_map};
ghost use Rattle.someipctl_io.specs.declared.Fault.TheVariants.{CannotRead};
ghost use Rattle.someipctl_io.specs.Parts.{part_text};
ghost use Rattle.someipctl_io.specs.Sending.{Sends, Stops};
ghost use Rattle.someipctl_io.specs.ToldLines.{line_text};
ghost use Rattle.someipctl_io.specs.ToldViews.{view_field};
ghost use Rattle.someipctl_io.specs.declared.form.Form.TheVariants.{Plain};
ghost use Rattle.someipctl_show.specs.VerdictForms.{no_head, wordless};
ghost use Rattle.someipctl_audit.specs.Unjudged.{no_offer_line, offer_text, one_way_told, one_ways_text, passed_line};
ghost use Rattle.someipctl_audit.specs.Unjudged.{passed_text, scope_text, unjudged_text, was_offered, ways_alone};

use crate::left_out::put_left_out;
use crate::summary::put_object;
use audit_traffic::ways::OneWay;
use recording_packets::LeftOut;
use someip_audit::Audit;
use someip_reassembly::Reassembly;
use someipctl_io::{
    Buffer, CannotWrite, Fault, Field, Form, Line, LineHead, Part, Said, put_line, put_parts,
};
use someipctl_recordings::heads::field_of;
use std::alloc::{AllocError, Global};
use std::convert::Infallible;
use std::io::Write;

/// Prints what could not be judged, where these packets gave no datagram, so many datagrams were not looked at, and
/// the audit is this one at its end, if it began.
pub(crate) fn put_unjudged<S: Reassembly + Drop, W: Write>(
    buffer: &mut Buffer,
    writer: &mut W,
    form: Form,
    alloc: Global,
    left_out: &LeftOut,
    passed: usize,
    audit: &Option<Audit<S>>,
) -> Result<(), Fault<Infallible>>
    ensures ok { OnOk result (Sends (W.contents writer.old) buffer.old (W.contents writer.new)
        buffer.new (unjudged_text form left_out.now passed audit.now)) }
    ensures err { OnErr result (Stops (W.contents writer.old) buffer.old (W.contents writer.new)
        (unjudged_text form left_out.now passed audit.now)) }
    ensures read { IfErr result (λ fault. fault ≡ CannotRead → ⊥) }
{
    put_left_out(buffer, writer, form, left_out)?;
    put_datagrams(buffer, writer, form, alloc, passed, audit)
}

/// Prints how many datagrams were not looked at, whether an Offer was seen, and the ways that messages went alone.
fn put_datagrams<S: Reassembly + Drop, W: Write>(
    buffer: &mut Buffer,
    writer: &mut W,
    form: Form,
    alloc: Global,
    passed: usize,
    audit: &Option<Audit<S>>,
) -> Result<(), Fault<Infallible>>
    ensures ok { OnOk result (Sends (W.contents writer.old) buffer.old (W.contents writer.new)
        buffer.new (scope_text form passed (was_offered audit.now) ++ one_ways_text form (ways_alone audit.now))) }
    ensures err { OnErr result (Stops (W.contents writer.old) buffer.old (W.contents writer.new)
        (scope_text form passed (was_offered audit.now) ++ one_ways_text form (ways_alone audit.now))) }
    ensures read { IfErr result (λ fault. fault ≡ CannotRead → ⊥) }
{
    put_scope(buffer, writer, form, passed, was_offered(audit))?;
    put_ways_alone(buffer, writer, form, alloc, audit)
}

/// Prints how many datagrams were not looked at, if there were any, and that no Offer was seen, unless one was.
fn put_scope<W: Write>(
    buffer: &mut Buffer,
    writer: &mut W,
    form: Form,
    passed: usize,
    is_offered: bool,
) -> Result<(), CannotWrite>
    ensures ok { OnOk result (Sends (W.contents writer.old) buffer.old (W.contents writer.new)
        buffer.new (scope_text form passed is_offered)) }
    ensures err { OnErr result (Stops (W.contents writer.old) buffer.old (W.contents writer.new)
        (scope_text form passed is_offered)) }
{
    put_passed(buffer, writer, form, passed)?;
    put_offer(buffer, writer, form, is_offered)
}

/// Prints the ways that messages went alone.
fn put_ways_alone<S: Reassembly + Drop, W: Write>(
    buffer: &mut Buffer,
    writer: &mut W,
    form: Form,
    alloc: Global,
    audit: &Option<Audit<S>>,
) -> Result<(), Fault<Infallible>>
    ensures ok { OnOk result (Sends (W.contents writer.old) buffer.old (W.contents writer.new)
        buffer.new (one_ways_text form (ways_alone audit.now))) }
    ensures err { OnErr result (Stops (W.contents writer.old) buffer.old (W.contents writer.new)
        (one_ways_text form (ways_alone audit.now))) }
    ensures read { IfErr result (λ fault. fault ≡ CannotRead → ⊥) }
{
    let ways = ways_alone(alloc, audit)?;
    put_one_ways(buffer, writer, form, &ways)?;
    Ok(())
}

/// Whether an Offer was seen.
fn was_offered<S: Reassembly + Drop>(audit: &Option<Audit<S>>) -> bool
    ensures { result ≡ was_offered audit.now }
{
    match audit {
        Some(audit) => audit.is_offered(),
        None => false,
    }
}

/// The ways that messages went alone.
fn ways_alone<S: Reassembly + Drop>(
    alloc: Global,
    audit: &Option<Audit<S>>,
) -> Result<Vec<OneWay>, AllocError>
    ensures { IfOk result (λ ways. ways.items ≡ ways_alone audit.now) }
{
    match audit {
        Some(audit) => audit.one_ways(),
        None => Ok(Vec::new(alloc)),
    }
}

/// Prints how many datagrams were not looked at, if there were any.
fn put_passed<W: Write>(
    buffer: &mut Buffer,
    writer: &mut W,
    form: Form,
    passed: usize,
) -> Result<(), CannotWrite>
    ensures ok { OnOk result (Sends (W.contents writer.old) buffer.old (W.contents writer.new)
        buffer.new (passed_text form passed)) }
    ensures err { OnErr result (Stops (W.contents writer.old) buffer.old (W.contents writer.new)
        (passed_text form passed)) }
{
    if passed == 0 {
        return Ok(());
    }
    put_some_passed(buffer, writer, form, passed)
}

/// Prints how many datagrams were not looked at.
fn put_some_passed<W: Write>(
    buffer: &mut Buffer,
    writer: &mut W,
    form: Form,
    passed: usize,
) -> Result<(), CannotWrite>
    ensures ok { OnOk result (Sends (W.contents writer.old) buffer.old (W.contents writer.new)
        buffer.new (passed_line form passed)) }
    ensures err { OnErr result (Stops (W.contents writer.old) buffer.old (W.contents writer.new)
        (passed_line form passed)) }
{
    match form {
        Form::Plain => put_parts(buffer, writer, &passed_parts(passed)),
        Form::Json => {
            let fields = [field_of("", "datagrams", Said::Number(passed))];
            put_object(buffer, writer, "not-looked-at", &fields)
        }
    }
}

/// The plain line of datagrams that were not looked at.
fn passed_parts(passed: usize) -> [Part<'static>; 3]
    ensures { flat_map part_text result ≡ passed_line Plain passed }
{
    [
        Part::Text("not looked at "),
        Part::Number(passed),
        Part::Text(" datagrams\n"),
    ]
}

/// Prints that no Offer was seen, unless one was.
fn put_offer<W: Write>(
    buffer: &mut Buffer,
    writer: &mut W,
    form: Form,
    is_offered: bool,
) -> Result<(), CannotWrite>
    ensures ok { OnOk result (Sends (W.contents writer.old) buffer.old (W.contents writer.new)
        buffer.new (offer_text form is_offered)) }
    ensures err { OnErr result (Stops (W.contents writer.old) buffer.old (W.contents writer.new)
        (offer_text form is_offered)) }
{
    if is_offered {
        return Ok(());
    }
    put_no_offer(buffer, writer, form)
}

/// Prints that no Offer was seen.
fn put_no_offer<W: Write>(
    buffer: &mut Buffer,
    writer: &mut W,
    form: Form,
) -> Result<(), CannotWrite>
    ensures ok { OnOk result (Sends (W.contents writer.old) buffer.old (W.contents writer.new)
        buffer.new (no_offer_line form)) }
    ensures err { OnErr result (Stops (W.contents writer.old) buffer.old (W.contents writer.new)
        (no_offer_line form)) }
{
    match form {
        Form::Plain => put_parts(buffer, writer, &[Part::Text("no Offer was seen\n")]),
        Form::Json => put_object(buffer, writer, "no-offer", &[]),
    }
}

/// Prints the ways that messages went alone.
fn put_one_ways<W: Write>(
    buffer: &mut Buffer,
    writer: &mut W,
    form: Form,
    ways: &[OneWay],
) -> Result<(), CannotWrite>
    ensures ok { OnOk result (Sends (W.contents writer.old) buffer.old (W.contents writer.new)
        buffer.new (one_ways_text form ways.now)) }
    ensures err { OnErr result (Stops (W.contents writer.old) buffer.old (W.contents writer.new)
        (one_ways_text form ways.now)) }
{
    for way in ways {
        put_one_way(buffer, writer, form, way)?;
    }
    Ok(())
}

/// Prints a way that messages went alone.
fn put_one_way<W: Write>(
    buffer: &mut Buffer,
    writer: &mut W,
    form: Form,
    way: &OneWay,
) -> Result<(), CannotWrite>
    ensures ok { OnOk result (Sends (W.contents writer.old) buffer.old (W.contents writer.new)
        buffer.new (line_text form no_head (one_way_told way.now))) }
    ensures err { OnErr result (Stops (W.contents writer.old) buffer.old (W.contents writer.new)
        (line_text form no_head (one_way_told way.now))) }
{
    put_headless(buffer, writer, form, "one-way", &one_way_fields(way))
}

/// Prints a line of a kind, which has no head, in the form that is asked for.
pub fn put_headless<'l, W: Write>(
    buffer: &mut Buffer,
    writer: &mut W,
    form: Form,
    kind: &'l str,
    fields: &'l [Field<'l>],
) -> Result<(), CannotWrite>
    ensures ok { OnOk result (Sends (W.contents writer.old) buffer.old (W.contents writer.new)
        buffer.new (line_text form no_head (wordless kind.now (map view_field fields.now)))) }
    ensures err { OnErr result (Stops (W.contents writer.old) buffer.old (W.contents writer.new)
        (line_text form no_head (wordless kind.now (map view_field fields.now)))) }
{
    let head = LineHead {
        form,
        number: &[],
        origin: &[],
        place: &[],
    };
    let line = Line {
        kind,
        word: None,
        fields,
    };
    put_line(buffer, writer, &head, &line)
}

/// What is told of a way that messages went alone.
fn one_way_fields(way: &OneWay) -> [Field<'static>; 3]
    ensures { map view_field result ≡ (one_way_told way.now).fields }
{
    [
        field_of("one way ", "from", Said::Endpoint(way.way.from)),
        field_of(" ", "to", Said::Endpoint(way.way.to)),
        field_of(" ", "messages", Said::Number(way.messages)),
    ]
}
