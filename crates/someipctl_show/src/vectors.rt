//! The command `vectors`: whether what is printed of datagrams and payloads is what a file says.
//!
//! A file is judged before anything is written. The list of the results is small, and so nothing is written
//! where memory runs out, as with `show`.
//!
//! The expected text is one text, its lines each with a line feed, and is compared whole: which line
//! differs is not told.
//!
//! A vector that differs is a fault that was shown: the outcome and the exit status are the same.
ghost use Rattle.std.specs.Prelude.{◌≡◌, ◌≢◌, ◌++◌, [], Some, Err, OnOk, OnErr, IfOk, IfErr, codes, map};
ghost use Rattle.std.specs.Io.KnownBytes.{Appends};
ghost use Rattle.someip_texts.specs.Lines.{lines_of};
ghost use Rattle.someipctl_io.specs.Sending.{Sends, Stops};
ghost use Rattle.someipctl_io.specs.ToldLines.{field, line_text, number};
ghost use Rattle.someipctl_io.specs.ToldViews.{view_field};
ghost use Rattle.someipctl_show.specs.VectorLines.{AreSaid, asked_by, has_vector, said_by};
ghost use Rattle.someipctl_show.specs.Vectors.{AreJudged, IsJudged, IsPrintedOf, Judges, RefusesLines, RefusesVectors};
ghost use Rattle.someipctl_show.specs.Vectors.{count_passed, expected_text, vectors_in};
ghost use Rattle.someipctl_show.specs.VerdictForms.{JudgesIn, RefusesVectorsIn, head_of, no_head, result_field, summary_told, vector_head};
ghost use Rattle.someipctl_show.specs.VerdictForms.{verdict_lines_in, verdict_told, verdicts_text_in, wordless};

use crate::payload::read_text;
use crate::show::text_of_datagram;
use crate::vector_lines::{LineFault, Question, VectorLine, line_of};
use someipctl_io::{
    Buffer, CannotWrite, Fault, Field, Form, Line, LineHead, Outcome, Said, put_line, read_all,
};
use std::alloc::{AllocError, Global};
use std::io::{Read, Write};
use thiserror::Error;

/// The line of this number, counted from 1, is no line of a file of vectors.
#[derive(Clone, Copy, Debug, PartialEq, Eq, Error)]
#[error("line {}: {}", .0, LineFault::Bad)]
pub struct BadVectorLine(pub usize);

/// Reads a file of vectors whole, checks every line, compares what is printed of each vector with
/// what it expects, and then writes for each whether they are equal, and how many are.
pub fn vectors<R: Read, W: Write>(
    alloc: Global,
    reader: &mut R,
    writer: &mut W,
) -> Result<Outcome, Fault<BadVectorLine>>
    // Every vector was judged and its line written, and the outcome says whether one differs.
    ensures judged { IfOk result (λ outcome. Judges (R.remaining reader.old) outcome
        (W.contents writer.old) (W.contents writer.new)) }
    // An error names the first bad line, and leaves nothing written, but for one of writing: that
    // leaves a beginning of the text.
    ensures refused { IfErr result (λ error. RefusesVectors (R.remaining reader.old) error
        (W.contents writer.old) (W.contents writer.new)) }
{
    vectors_in(alloc, Form::Plain, reader, writer)
}

/// The same, with lines in the form that is asked for. The text that a vector expects is plain.
pub fn vectors_in<R: Read, W: Write>(
    alloc: Global,
    form: Form,
    reader: &mut R,
    writer: &mut W,
) -> Result<Outcome, Fault<BadVectorLine>>
    ensures judged { IfOk result (λ outcome. JudgesIn form (R.remaining reader.old) outcome
        (W.contents writer.old) (W.contents writer.new)) }
    ensures refused { IfErr result (λ error. RefusesVectorsIn form (R.remaining reader.old) error
        (W.contents writer.old) (W.contents writer.new)) }
{
    let text = read_all(alloc, reader)?;
    judge_vectors_in(alloc, form, &text, writer)
}

/// Checks every line of a file of vectors, and then judges them, as `vectors` does.
pub fn judge_vectors<W: Write>(
    alloc: Global,
    text: &[u8],
    writer: &mut W,
) -> Result<Outcome, Fault<BadVectorLine>>
    ensures judged { IfOk result (λ outcome. Judges (Some text.now) outcome
        (W.contents writer.old) (W.contents writer.new)) }
    ensures refused { IfErr result (λ error. RefusesVectors (Some text.now) error
        (W.contents writer.old) (W.contents writer.new)) }
    // A file that is there cannot fail to be read.
    ensures there { result ≢ Err Fault.CannotRead }
{
    judge_vectors_in(alloc, Form::Plain, text, writer)
}

/// The same, with lines in the form that is asked for.
pub fn judge_vectors_in<W: Write>(
    alloc: Global,
    form: Form,
    text: &[u8],
    writer: &mut W,
) -> Result<Outcome, Fault<BadVectorLine>>
    ensures judged { IfOk result (λ outcome. JudgesIn form (Some text.now) outcome
        (W.contents writer.old) (W.contents writer.new)) }
    ensures refused { IfErr result (λ error. RefusesVectorsIn form (Some text.now) error
        (W.contents writer.old) (W.contents writer.new)) }
    ensures there { result ≢ Err Fault.CannotRead }
{
    let lines = read_lines(alloc, text)?;
    let results = judge(alloc, &lines)?;
    let mut buffer = Buffer::new(alloc)?;
    write_verdicts(&mut buffer, writer, form, &results)?;
    Ok(Outcome::of(results.contains(&false)))
}

/// What the lines of a file say that are not left out, or the number of the first bad one.
fn read_lines<'t>(
    alloc: Global,
    text: &'t [u8],
) -> Result<Vec<VectorLine<'t>>, Fault<BadVectorLine>>
    ensures said { IfOk result (λ lines. AreSaid (lines_of text.now) (map said_by lines.items)) }
    ensures refused { IfErr result (RefusesLines text.now) }
{
    let mut lines = Vec::new(alloc);
    for (i, line) in text.split(|b| *b == b'\n').enumerate() {
        match line_of(alloc, line) {
            Ok(None) => {}
            Ok(Some(said)) => {
                if !has_vector(&lines, &said) {
                    return Err(Fault::Refused(BadVectorLine(i + 1)));
                }
                lines.push(said)?;
            }
            Err(LineFault::Bad) => return Err(Fault::Refused(BadVectorLine(i + 1))),
            Err(LineFault::OutOfMemory) => return Err(Fault::OutOfMemory),
        }
    }
    Ok(lines)
}

/// Whether a line after others belongs to a vector: it begins one, or there is one before it.
fn has_vector(lines: &[VectorLine<'_>], said: &VectorLine<'_>) -> bool
    ensures { result ≡ has_vector (map said_by lines.now) (said_by said.now) }
{
    match said {
        VectorLine::Asks(_) => true,
        VectorLine::Expects(_) => !lines.is_empty(),
    }
}

/// Whether each vector passes, in order.
fn judge(alloc: Global, lines: &[VectorLine<'_>]) -> Result<Vec<bool>, AllocError>
    ensures { IfOk result (λ results. AreJudged (vectors_in (map said_by lines.now)) results.items) }
{
    let mut results = Vec::new(alloc);
    for (i, line) in lines.iter().enumerate() {
        let VectorLine::Asks(question) = line else {
            continue;
        };
        let passed = passes(alloc, question, &lines[i + 1..])?;
        results.push(passed)?;
    }
    Ok(results)
}

/// Whether a vector passes that asks this, where these lines follow.
fn passes(alloc: Global, question: &Question, lines: &[VectorLine<'_>]) -> Result<bool, AllocError>
    ensures { IfOk result (IsJudged (record {
      asked = asked_by question.now;
      expected = expected_text (map said_by lines.now);
    })) }
{
    let expected = expected_by(alloc, lines)?;
    let text = answer(alloc, question)?;
    Ok(text == expected)
}

/// The text that is expected by the lines in front of the next vector.
fn expected_by(alloc: Global, lines: &[VectorLine<'_>]) -> Result<Vec<u8>, AllocError>
    ensures { IfOk result (λ text. text.items ≡ expected_text (map said_by lines.now)) }
{
    let mut text = Vec::new(alloc);
    for line in lines {
        match line {
            VectorLine::Asks(_) => break,
            VectorLine::Expects(expected) => push_line(&mut text, expected)?,
        }
    }
    Ok(text)
}

/// Appends a line, with the line feed that ends it.
fn push_line(text: &mut Vec<u8>, line: &str) -> Result<(), AllocError>
    ensures { OnOk result (text.new.items ≡ text.old.items ++ (line.now ++ codes "\n")) }
{
    text.extend_from_slice(line.as_bytes())?;
    text.push(b'\n')?;
    Ok(())
}

/// The text that is printed of what a vector asks for.
fn answer(alloc: Global, question: &Question) -> Result<Vec<u8>, AllocError>
    ensures { IfOk result (λ text. IsPrintedOf (asked_by question.now) text.items) }
{
    match question {
        Question::Datagram(datagram) => text_of_datagram(alloc, datagram),
        Question::Payload(shape, bytes) => {
            let (text, _) = read_text(alloc, shape, bytes)?;
            Ok(text.into_bytes())
        }
    }
}

/// Writes the line of each vector and the last line through an empty buffer.
fn write_verdicts<W: Write>(
    buffer: &mut Buffer,
    writer: &mut W,
    form: Form,
    results: &[bool],
) -> Result<(), CannotWrite>
    requires { buffer.old ≡ [] }
    ensures ok { OnOk result (Appends (W.contents writer.old)
        (W.contents writer.new) (verdicts_text_in form results.now)) }
    ensures err { OnErr result (Stops (W.contents writer.old) []
        (W.contents writer.new) (verdicts_text_in form results.now)) }
{
    put_verdicts(buffer, writer, form, results)?;
    put_summary(buffer, writer, form, results)?;
    buffer.flush(writer)
}

/// Prints the line of each vector.
fn put_verdicts<W: Write>(
    buffer: &mut Buffer,
    writer: &mut W,
    form: Form,
    results: &[bool],
) -> Result<(), CannotWrite>
    ensures ok { OnOk result (Sends (W.contents writer.old) buffer.old
        (W.contents writer.new) buffer.new (verdict_lines_in form 1 results.now)) }
    ensures err { OnErr result (Stops (W.contents writer.old) buffer.old
        (W.contents writer.new) (verdict_lines_in form 1 results.now)) }
{
    for (i, passed) in results.iter().enumerate() {
        put_verdict(buffer, writer, form, i + 1, *passed)?;
    }
    Ok(())
}

/// Prints whether the k-th vector passed.
fn put_verdict<W: Write>(
    buffer: &mut Buffer,
    writer: &mut W,
    form: Form,
    k: usize,
    passed: bool,
) -> Result<(), CannotWrite>
    ensures ok { OnOk result (Sends (W.contents writer.old) buffer.old
        (W.contents writer.new) buffer.new (line_text form (vector_head k) (verdict_told passed))) }
    ensures err { OnErr result (Stops (W.contents writer.old) buffer.old
        (W.contents writer.new) (line_text form (vector_head k) (verdict_told passed))) }
{
    put_told(
        buffer,
        writer,
        form,
        &[number_field("", "vector", k)],
        "vector",
        &[result_field(passed)],
    )
}

/// Prints a line of a kind, of which a plain line says no word.
fn put_told<'l, W: Write>(
    buffer: &mut Buffer,
    writer: &mut W,
    form: Form,
    number: &'l [Field<'l>],
    kind: &'l str,
    fields: &'l [Field<'l>],
) -> Result<(), CannotWrite>
    ensures ok { OnOk result (Sends (W.contents writer.old) buffer.old (W.contents writer.new) buffer.new
        (line_text form (head_of (map view_field number.now)) (wordless kind.now (map view_field fields.now)))) }
    ensures err { OnErr result (Stops (W.contents writer.old) buffer.old (W.contents writer.new)
        (line_text form (head_of (map view_field number.now)) (wordless kind.now (map view_field fields.now)))) }
{
    let head = LineHead {
        form,
        number,
        origin: &[],
        place: &[],
    };
    let line = Line {
        kind,
        word: None,
        fields,
    };
    put_line(buffer, writer, &head, &line)
}

fn number_field<'f>(lead: &'f str, key: &'f str, n: usize) -> Field<'f>
    ensures { view_field result ≡ field lead.now key.now (number n) }
{
    Field {
        lead,
        key,
        said: Said::Number(n),
    }
}

/// Whether a vector passed.
fn result_field(passed: bool) -> Field<'static>
    ensures { view_field result ≡ result_field passed }
{
    let result = if passed { "ok" } else { "differs" };
    Field {
        lead: " ",
        key: "result",
        said: Said::Text(result),
    }
}

/// Prints how many vectors passed, and how many there are.
fn put_summary<W: Write>(
    buffer: &mut Buffer,
    writer: &mut W,
    form: Form,
    results: &[bool],
) -> Result<(), CannotWrite>
    ensures ok { OnOk result (Sends (W.contents writer.old) buffer.old
        (W.contents writer.new) buffer.new (line_text form no_head (summary_told results.now))) }
    ensures err { OnErr result (Stops (W.contents writer.old) buffer.old
        (W.contents writer.new) (line_text form no_head (summary_told results.now))) }
{
    let fields = [
        number_field("passed ", "passed", count_passed(results)),
        number_field(" of ", "of", results.len()),
    ];
    put_told(buffer, writer, form, &[], "passed", &fields)
}

fn count_passed(results: &[bool]) -> usize
    ensures { result ≡ count_passed results.now }
{
    results.iter().filter(|passed| **passed).count()
}
