//! A trace as JSON objects: one for each line, and one for the verdict.
ghost use Rattle.std.specs.Prelude.{◌≡◌, ◌∷◌, [], MatchOption, None, OnOk, OnErr, codes, map};
ghost use Rattle.someipctl_io.specs.Sending.{Sends, Stops};
ghost use Rattle.someipctl_io.specs.ToldLines.{field, line_text, text};
ghost use Rattle.someipctl_io.specs.ToldViews.{view_field, view_head, view_line, view_said};
ghost use Rattle.someipctl_run.specs.ToldTraces.{came_by_told, origin_told, reuse_text, reuse_told, step_told};
ghost use Rattle.someipctl_run.specs.ToldTraces.{trace_line, trace_lines};
ghost use Rattle.someipctl_run.specs.FormedTraces.{objects_in_form};
ghost use Rattle.someipctl_run.specs.Traces.{node_name, pointed};

use crate::form::FormedTrace;
use crate::told_outputs::{next_field, told_line};
use crate::trace_lines::{node_name, number_after, shown_line_of};
use someip_world::{Line, Reuse, SetupNode};
use someipctl_io::{Buffer, CannotWrite, Field, Form, Line as ToldLine, LineHead, Said, put_line};
use std::io::Write;

/// Prints a trace as objects.
pub(crate) fn put_objects<W: Write>(
    buffer: &mut Buffer,
    writer: &mut W,
    trace: &FormedTrace<'_>,
) -> Result<(), CannotWrite>
    ensures ok { OnOk result (Sends (W.contents writer.old) buffer.old (W.contents writer.new) buffer.new
        (objects_in_form trace.now)) }
    ensures err { OnErr result (Stops (W.contents writer.old) buffer.old (W.contents writer.new)
        (objects_in_form trace.now)) }
{
    let step_lines = trace.form.shown(trace.step_lines);
    put_line_objects(buffer, writer, step_lines, trace.nodes, trace.lines)?;
    put_verdict_object(buffer, writer, step_lines, trace.verdict)
}

/// Prints lines over the nodes of a setup. The datagrams that they tell of are numbered from 1.
fn put_line_objects<W: Write>(
    buffer: &mut Buffer,
    writer: &mut W,
    step_lines: Option<&[usize]>,
    nodes: &[SetupNode],
    lines: &[Line],
) -> Result<(), CannotWrite>
    ensures ok { OnOk result (Sends (W.contents writer.old) buffer.old (W.contents writer.new) buffer.new
        (trace_lines Form.Json (pointed step_lines.entry) nodes.now 1 lines.now)) }
    ensures err { OnErr result (Stops (W.contents writer.old) buffer.old (W.contents writer.new)
        (trace_lines Form.Json (pointed step_lines.entry) nodes.now 1 lines.now)) }
{
    let mut number = 1;
    for line in lines {
        put_line_object(buffer, writer, step_lines, nodes, number, line)?;
        number = number_after(number, line);
    }
    Ok(())
}

/// Prints a line, where the next datagram has a number.
fn put_line_object<W: Write>(
    buffer: &mut Buffer,
    writer: &mut W,
    step_lines: Option<&[usize]>,
    nodes: &[SetupNode],
    number: usize,
    line: &Line,
) -> Result<(), CannotWrite>
    ensures ok { OnOk result (Sends (W.contents writer.old) buffer.old (W.contents writer.new) buffer.new
        (trace_line Form.Json (pointed step_lines.entry) nodes.now number line.now)) }
    ensures err { OnErr result (Stops (W.contents writer.old) buffer.old (W.contents writer.new)
        (trace_line Form.Json (pointed step_lines.entry) nodes.now number line.now)) }
{
    let step = step_fields(nodes, line);
    let origin = origin_field(step_lines, shown_line_of(step_lines, line.step));
    let head = LineHead {
        form: Form::Json,
        number: &step,
        origin: origin.as_slice(),
        place: &[],
    };
    put_line(
        buffer,
        writer,
        &head,
        &told_line(number, &line.told).as_line(),
    )
}

/// Prints the verdict. It came by no line of the schedule.
fn put_verdict_object<W: Write>(
    buffer: &mut Buffer,
    writer: &mut W,
    step_lines: Option<&[usize]>,
    verdict: Reuse,
) -> Result<(), CannotWrite>
    ensures ok { OnOk result (Sends (W.contents writer.old) buffer.old (W.contents writer.new) buffer.new
        (reuse_text Form.Json (pointed step_lines.entry) verdict)) }
    ensures err { OnErr result (Stops (W.contents writer.old) buffer.old (W.contents writer.new)
        (reuse_text Form.Json (pointed step_lines.entry) verdict)) }
{
    let origin = origin_field(step_lines, None);
    let head = LineHead {
        form: Form::Json,
        number: &[],
        origin: origin.as_slice(),
        place: &[],
    };
    put_reuse(buffer, writer, &head, verdict)
}

/// Prints the verdict behind a head.
fn put_reuse<W: Write>(
    buffer: &mut Buffer,
    writer: &mut W,
    head: &LineHead<'_>,
    verdict: Reuse,
) -> Result<(), CannotWrite>
    ensures ok { OnOk result (Sends (W.contents writer.old) buffer.old (W.contents writer.new) buffer.new
        (line_text head.now.form (view_head head.now) (reuse_told verdict))) }
    ensures err { OnErr result (Stops (W.contents writer.old) buffer.old (W.contents writer.new)
        (line_text head.now.form (view_head head.now) (reuse_told verdict))) }
{
    match verdict {
        Reuse::Clean => put_line(buffer, writer, head, &reuse(&[result_field("clean")])),
        Reuse::Broken(step) => {
            let at = Field {
                lead: " at ",
                key: "at",
                said: Said::Number(step),
            };
            put_line(buffer, writer, head, &reuse(&[result_field("broken"), at]))
        }
    }
}

/// The line of the verdict.
fn reuse<'f>(fields: &'f [Field<'f>]) -> ToldLine<'f>
    ensures { view_line result ≡ record { kind = codes "reuse"; word = None; fields = map view_field fields.now } }
{
    ToldLine {
        kind: "reuse",
        word: None,
        fields,
    }
}

/// The verdict in a word.
fn result_field(word: &'static str) -> Field<'static>
    ensures { view_field result ≡ field (codes "reuse ") (codes "result") (text word.now) }
{
    Field {
        lead: "reuse ",
        key: "result",
        said: Said::Text(word),
    }
}

/// The index of a line's step and the name of its node.
fn step_fields<'n>(nodes: &'n [SetupNode], line: &Line) -> [Field<'n>; 2]
    ensures { map view_field result ≡ step_told line.now.step (node_name nodes.now line.now.node) }
{
    [
        Field {
            lead: "",
            key: "step",
            said: Said::Number(line.step),
        },
        next_field("node", Said::Text(node_name(nodes, line.node))),
    ]
}

/// Where the lines of the schedule are shown, the one by which a line came.
fn origin_field(step_lines: Option<&[usize]>, came_by: Option<usize>) -> Option<Field<'static>>
    ensures { MatchOption result (origin_told (pointed step_lines.entry) came_by ≡ [])
        (λ field. origin_told (pointed step_lines.entry) came_by ≡ view_field field ∷ []) }
{
    step_lines?;
    Some(Field {
        lead: "",
        key: "line",
        said: said_came_by(came_by),
    })
}

/// The number of a line of the schedule, if there is one.
fn said_came_by(came_by: Option<usize>) -> Said<'static>
    ensures { view_said result ≡ came_by_told came_by }
{
    match came_by {
        Some(line) => Said::Number(line),
        None => Said::Nothing,
    }
}
