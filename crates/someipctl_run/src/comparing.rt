//! Comparing the trace of a schedule with the one that is expected.
ghost use Rattle.std.specs.Prelude.{◌≡◌, ◌≢◌, ◌≤◌, [], None, IfOk, IfErr, OnOk, OnErr, MatchOption};
ghost use Rattle.std.specs.Prelude.{ℕ, List, ◌++◌, true, false, codes, length};
ghost use Rattle.std.specs.Option.{option_map_or};
ghost use Rattle.std.specs.Io.KnownBytes.{Appends};
ghost use Rattle.someipctl_io.specs.Sending.{Sends, Stops};
ghost use Rattle.someipctl_run.specs.Comparing.{ComparedFrom, IsLineTaken, view_mismatch};
ghost use Rattle.someipctl_run.specs.Expected.{Compares, ComparesInput, EndsOtherwise, FirstDiffer};
ghost use Rattle.someipctl_run.specs.Expected.{IsExpected, RefusesComparing};
ghost use Rattle.someipctl_run.specs.declared.form.Extent.TheVariants.{Beginning};
ghost use Rattle.someipctl_run.specs.Expected.{RefusesInputComparing, line_left, line_len};
ghost use Rattle.someipctl_run.specs.Expected.{line_or_dash, mismatch_text, printed_text};
ghost use Rattle.someipctl_run.specs.FormedTraces.{lines_before_verdict, lines_in_form};
ghost use Rattle.someipctl_run.specs.Traces.{marked_line, marked_verdict, pointed};

use crate::error::ScheduleRefusal;
use crate::form::{Extent, FormedTrace, TraceForm};
use crate::running::run_of_text;
use crate::step_lines::line_of_step;
use crate::trace_lines::{came_by_part, number_after, put_marked_line, put_verdict};
use someip_world::{Line, Reuse, Setup, SetupNode};
use someipctl_io::{Buffer, CannotWrite, Fault, Outcome, Part, put_parts, read_all};
use std::alloc::{AllocError, Global};
use std::io::{Read, Write};

/// The first difference between a trace and the text that is expected. Of what has ended there is no
/// line.
#[derive(Drop)]
pub(crate) struct Mismatch<'e> {
    /// The expected line, without its line feed.
    expected: Option<&'e [u8]>,
    /// The line of the trace, with its line feed.
    got: Option<Vec<u8>>,
    /// The line of the schedule by which that came. The verdict came by none.
    came_by: Option<usize>,
}

/// What a line of a trace leaves of an expected text.
#[derive(Drop)]
pub(crate) enum Compared<'e> {
    /// The text went on with it, and this is what is left.
    Same(&'e [u8]),
    /// The text, which is that of a beginning, ended within it.
    Ended,
    /// Neither.
    Differs(Mismatch<'e>),
}

/// Reads a schedule whole, runs it over a setup, compares the trace in a form with the text that is
/// expected of all of it or of its beginning, and writes the first difference, if there is one.
pub fn compare_schedule<R: Read, W: Write>(
    alloc: Global,
    setup: &Setup,
    form: TraceForm,
    extent: Extent,
    expected: &[u8],
    reader: &mut R,
    writer: &mut W,
) -> Result<Outcome, Fault<ScheduleRefusal>>
    // `Done` says that the trace is that text, or begins with it, byte for byte, and nothing was
    // written; `FaultShown` that the first difference was.
    ensures compared { IfOk result (λ outcome. ComparesInput extent form setup.now.nodes expected.now
        (R.remaining reader.old) outcome (W.contents writer.old) (W.contents writer.new)) }
    // An error names the first bad line or the first step that can't happen, and leaves nothing
    // written, but for one of writing: that leaves a beginning of the text.
    ensures refused { IfErr result (λ fault. RefusesInputComparing extent form setup.now.nodes expected.now
        (R.remaining reader.old) fault (W.contents writer.old) (W.contents writer.new)) }
{
    let text = read_all(alloc, reader)?;
    compare_text(alloc, setup, form, extent, expected, &text, writer)
}

/// Runs the schedule that a text spells over a setup, and compares its trace.
fn compare_text<W: Write>(
    alloc: Global,
    setup: &Setup,
    form: TraceForm,
    extent: Extent,
    expected: &[u8],
    text: &[u8],
    writer: &mut W,
) -> Result<Outcome, Fault<ScheduleRefusal>>
    ensures compared { IfOk result (λ outcome. Compares extent form setup.now.nodes expected.now
        text.now outcome (W.contents writer.old) (W.contents writer.new)) }
    ensures refused { IfErr result (λ fault. RefusesComparing extent form setup.now.nodes expected.now
        text.now fault (W.contents writer.old) (W.contents writer.new)) }
{
    let ran = run_of_text(alloc, setup, text)?;
    let mut buffer = Buffer::new(alloc)?;
    let trace = FormedTrace {
        form,
        step_lines: &ran.step_lines,
        nodes: setup.nodes(),
        lines: &ran.trace.lines,
        verdict: ran.trace.verdict,
    };
    let found = first_mismatch(alloc, &mut buffer, &trace, extent, expected)?;
    match found {
        None => Ok(Outcome::Done),
        Some(mismatch) => {
            write_mismatch(&mut buffer, writer, &mismatch)?;
            Ok(Outcome::FaultShown)
        }
    }
}

/// The first difference between a trace in a form and what is expected of it, through an empty buffer.
fn first_mismatch<'e>(
    alloc: Global,
    buffer: &mut Buffer,
    trace: &FormedTrace<'_>,
    extent: Extent,
    expected: &'e [u8],
) -> Result<Option<Mismatch<'e>>, AllocError>
    requires { buffer.old ≡ [] }
    ensures empty { OnOk result (buffer.new ≡ []) }
    ensures found { IfOk result (λ found. MatchOption found
        (IsExpected extent expected.now (printed_text (lines_in_form trace.now)))
        (λ mismatch. FirstDiffer extent (lines_in_form trace.now) expected.now (view_mismatch mismatch))) }
{
    let rest = match compare_lines(alloc, buffer, trace, extent, expected)? {
        Compared::Same(rest) => rest,
        Compared::Ended => return Ok(None),
        Compared::Differs(mismatch) => return Ok(Some(mismatch)),
    };
    let text = text_of_verdict(
        alloc,
        buffer,
        trace.form.shown(trace.step_lines),
        trace.verdict,
    )?;
    match take_line(extent, rest, None, text) {
        Compared::Same(rest) => Ok(left_over(rest)),
        Compared::Ended => Ok(None),
        Compared::Differs(mismatch) => Ok(Some(mismatch)),
    }
}

/// What the lines of a trace leave of a text, or the first difference, through an empty buffer.
fn compare_lines<'e>(
    alloc: Global,
    buffer: &mut Buffer,
    trace: &FormedTrace<'_>,
    extent: Extent,
    expected: &'e [u8],
) -> Result<Compared<'e>, AllocError>
    requires { buffer.old ≡ [] }
    ensures empty { OnOk result (buffer.new ≡ []) }
    ensures compared { IfOk result
        (ComparedFrom extent (lines_before_verdict trace.now) expected.now) }
{
    let lines = trace.lines;
    let mut number = 1;
    let mut rest = expected;
    for line in lines {
        let step_lines = trace.form.shown(trace.step_lines);
        let text = text_of_line(alloc, buffer, step_lines, trace.nodes, number, line)?;
        match take_line(
            extent,
            rest,
            line_of_step(trace.step_lines, line.step),
            text,
        ) {
            Compared::Same(others) => rest = others,
            Compared::Ended => return Ok(Compared::Ended),
            Compared::Differs(mismatch) => return Ok(Compared::Differs(mismatch)),
        }
        number = number_after(number, line);
    }
    Ok(Compared::Same(rest))
}

/// What a line leaves of a text.
fn take_line<'e>(
    extent: Extent,
    rest: &'e [u8],
    came_by: Option<usize>,
    text: Vec<u8>,
) -> Compared<'e>
    ensures { IsLineTaken extent rest.now came_by text.items result }
{
    if let Some(others) = rest.strip_prefix(text.as_slice()) {
        return Compared::Same(others);
    }
    if ends_within(extent, rest, text.as_slice()) {
        return Compared::Ended;
    }
    Compared::Differs(Mismatch {
        expected: line_left(rest),
        got: Some(text),
        came_by,
    })
}

/// Whether a text is that of a beginning, and ends within a line.
fn ends_within(extent: Extent, rest: &[u8], line: &[u8]) -> bool
    ensures yes { result ≡ true
        → (extent ≡ Beginning) × ((more : List ℕ) × (line.now ≡ rest.now ++ more)) }
    ensures no { result ≡ false → EndsOtherwise extent line.now rest.now }
{
    match extent {
        Extent::Whole => false,
        Extent::Beginning => match line.strip_prefix(rest) {
            Some(_left) => true,
            None => false,
        },
    }
}

/// The difference where a text goes on after the last line of a trace.
fn left_over<'e>(rest: &'e [u8]) -> Option<Mismatch<'e>>
    ensures { MatchOption result (rest.now ≡ [])
        (λ mismatch. (rest.now ≢ []) × (view_mismatch mismatch
        ≡ record { expected = line_left rest.now; got = None; came_by = None })) }
{
    match line_left(rest) {
        None => None,
        expected => Some(Mismatch {
            expected,
            got: None,
            came_by: None,
        }),
    }
}

/// The first line of what is left of a text.
fn line_left(rest: &[u8]) -> Option<&[u8]>
    ensures { pointed result ≡ line_left rest.now }
{
    if rest.is_empty() {
        return None;
    }
    Some(&rest[..line_len(rest)])
}

/// How many bytes stand before the first line feed of a text.
fn line_len(text: &[u8]) -> usize
    ensures counted { result ≡ line_len text.now }
    ensures bound { result ≤ length text.now }
{
    let mut end = 0;
    for byte in text {
        if *byte == b'\n' {
            return end;
        }
        end += 1;
    }
    end
}

/// The text of a line of a trace, through an empty buffer.
fn text_of_line(
    alloc: Global,
    buffer: &mut Buffer,
    step_lines: Option<&[usize]>,
    nodes: &[SetupNode],
    number: usize,
    line: &Line,
) -> Result<Vec<u8>, AllocError>
    requires { buffer.old ≡ [] }
    ensures empty { OnOk result (buffer.new ≡ []) }
    ensures text { IfOk result (λ text.
        text.items ≡ marked_line (pointed step_lines.entry) nodes.now number line.now) }
{
    let mut text = Vec::new(alloc);
    put_marked_line(buffer, &mut text, step_lines, nodes, number, line).map_err(|_| AllocError)?;
    buffer.flush(&mut text).map_err(|_| AllocError)?;
    Ok(text)
}

/// The text of the verdict, through an empty buffer.
fn text_of_verdict(
    alloc: Global,
    buffer: &mut Buffer,
    step_lines: Option<&[usize]>,
    verdict: Reuse,
) -> Result<Vec<u8>, AllocError>
    requires { buffer.old ≡ [] }
    ensures empty { OnOk result (buffer.new ≡ []) }
    ensures text { IfOk result (λ text.
        text.items ≡ marked_verdict (pointed step_lines.entry) verdict) }
{
    let mut text = Vec::new(alloc);
    put_verdict(buffer, &mut text, step_lines, verdict).map_err(|_| AllocError)?;
    buffer.flush(&mut text).map_err(|_| AllocError)?;
    Ok(text)
}

/// Writes a difference through an empty buffer.
fn write_mismatch<W: Write>(
    buffer: &mut Buffer,
    writer: &mut W,
    mismatch: &Mismatch<'_>,
) -> Result<(), CannotWrite>
    requires empty { buffer.old ≡ [] }
    ensures ok { OnOk result (Appends (W.contents writer.old) (W.contents writer.new)
        (mismatch_text (view_mismatch mismatch.now))) }
    ensures err { OnErr result (Stops (W.contents writer.old) [] (W.contents writer.new)
        (mismatch_text (view_mismatch mismatch.now))) }
{
    put_mismatch(buffer, writer, mismatch)?;
    buffer.flush(writer)
}

/// Prints a difference.
fn put_mismatch<W: Write>(
    buffer: &mut Buffer,
    writer: &mut W,
    mismatch: &Mismatch<'_>,
) -> Result<(), CannotWrite>
    ensures ok { OnOk result (Sends (W.contents writer.old) buffer.old (W.contents writer.new) buffer.new
        (mismatch_text (view_mismatch mismatch.now))) }
    ensures err { OnErr result (Stops (W.contents writer.old) buffer.old (W.contents writer.new)
        (mismatch_text (view_mismatch mismatch.now))) }
{
    put_parts(buffer, writer, &[Part::Text("expected ")])?;
    buffer.put(writer, expected_or_dash(mismatch))?;
    put_parts(buffer, writer, &[Part::Text("\ngot ")])?;
    buffer.put(writer, got_or_dash(mismatch))?;
    put_parts(
        buffer,
        writer,
        &[
            Part::Text("line "),
            came_by_part(mismatch.came_by),
            Part::Text("\n"),
        ],
    )
}

/// The expected line, or `-`.
fn expected_or_dash<'m>(mismatch: &'m Mismatch<'_>) -> &'m [u8]
    ensures { result.now ≡ option_map_or (λ line. line) (view_mismatch mismatch.now).expected (codes "-") }
{
    match mismatch.expected {
        Some(line) => line,
        None => b"-",
    }
}

/// The line of the trace, or `-` and a line feed.
fn got_or_dash<'m>(mismatch: &'m Mismatch<'_>) -> &'m [u8]
    ensures { result.now ≡ line_or_dash (view_mismatch mismatch.now).got }
{
    match &mismatch.got {
        Some(text) => text,
        None => b"-\n",
    }
}
