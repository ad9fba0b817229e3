//! The lines of a trace, and the verdict on it.
//!
//! What a line of a trace tells is words, each after a space, so its definition names the words as RUNNING
//! lists them. Addresses and endpoints have the texts that std defines.
ghost use Rattle.std.specs.Prelude.{◌≡◌, ◌<◌, OnOk, OnErr, is_some};
ghost use Rattle.someip_world_rules.specs.Datagrams.{datagram_in};
ghost use Rattle.std.specs.List.{flat_map};
ghost use Rattle.someipctl_io.specs.Parts.{part_text};
ghost use Rattle.someipctl_io.specs.Sending.{Sends, Stops};
ghost use Rattle.someipctl_run.specs.Traces.{came_by_text, line_head, line_text, margin, marked_line};
ghost use Rattle.someipctl_run.specs.Traces.{marked_lines, marked_verdict, node_name, number_after};
ghost use Rattle.someipctl_run.specs.Traces.{pointed, reuse_line, shown_line_of};

use crate::outputs::put_told;
use crate::step_lines::line_of_step;
use someip_node::Output;
use someip_world::{Line, Reuse, SetupNode, Told};
use someipctl_io::{Buffer, CannotWrite, Part, put_parts};
use std::io::Write;

/// Prints lines over the nodes of a setup, each after the line of the schedule by which it came, where
/// those are shown. The datagrams that they tell of are numbered from 1.
pub(crate) fn put_lines<W: Write>(
    buffer: &mut Buffer,
    writer: &mut W,
    step_lines: Option<&[usize]>,
    nodes: &[SetupNode],
    lines: &[Line],
) -> Result<(), CannotWrite>
    ensures ok { OnOk result (Sends (W.contents writer.old) buffer.old
        (W.contents writer.new) buffer.new
        (marked_lines (pointed step_lines.entry) nodes.now 1 lines.now)) }
    ensures err { OnErr result (Stops (W.contents writer.old) buffer.old
        (W.contents writer.new) (marked_lines (pointed step_lines.entry) nodes.now 1 lines.now)) }
{
    let mut number = 1;
    for line in lines {
        put_marked_line(buffer, writer, step_lines, nodes, number, line)?;
        number = number_after(number, line);
    }
    Ok(())
}

/// Prints the verdict. It came by no line of the schedule.
pub(crate) fn put_verdict<W: Write>(
    buffer: &mut Buffer,
    writer: &mut W,
    step_lines: Option<&[usize]>,
    verdict: Reuse,
) -> Result<(), CannotWrite>
    ensures ok { OnOk result (Sends (W.contents writer.old) buffer.old
        (W.contents writer.new) buffer.new (marked_verdict (pointed step_lines.entry) verdict)) }
    ensures err { OnErr result (Stops (W.contents writer.old) buffer.old
        (W.contents writer.new) (marked_verdict (pointed step_lines.entry) verdict)) }
{
    put_margin(buffer, writer, step_lines, None)?;
    put_reuse(buffer, writer, verdict)
}

/// Prints the words of the verdict.
fn put_reuse<W: Write>(
    buffer: &mut Buffer,
    writer: &mut W,
    verdict: Reuse,
) -> Result<(), CannotWrite>
    ensures ok { OnOk result (Sends (W.contents writer.old) buffer.old
        (W.contents writer.new) buffer.new (reuse_line verdict)) }
    ensures err { OnErr result (Stops (W.contents writer.old) buffer.old
        (W.contents writer.new) (reuse_line verdict)) }
{
    match verdict {
        Reuse::Clean => put_parts(buffer, writer, &[Part::Text("reuse clean\n")]),
        Reuse::Broken(step) => put_parts(
            buffer,
            writer,
            &[
                Part::Text("reuse broken at "),
                Part::Number(step),
                Part::Text("\n"),
            ],
        ),
    }
}

/// Prints a line, where the next datagram has a number, after the line of the schedule by which it came.
pub(crate) fn put_marked_line<W: Write>(
    buffer: &mut Buffer,
    writer: &mut W,
    step_lines: Option<&[usize]>,
    nodes: &[SetupNode],
    number: usize,
    line: &Line,
) -> Result<(), CannotWrite>
    ensures ok { OnOk result (Sends (W.contents writer.old) buffer.old
        (W.contents writer.new) buffer.new
        (marked_line (pointed step_lines.entry) nodes.now number line.now)) }
    ensures err { OnErr result (Stops (W.contents writer.old) buffer.old
        (W.contents writer.new) (marked_line (pointed step_lines.entry) nodes.now number line.now)) }
{
    put_margin(
        buffer,
        writer,
        step_lines,
        shown_line_of(step_lines, line.step),
    )?;
    put_line(buffer, writer, nodes, number, line)
}

/// Prints what stands before a line that came by a line of the schedule.
fn put_margin<W: Write>(
    buffer: &mut Buffer,
    writer: &mut W,
    step_lines: Option<&[usize]>,
    came_by: Option<usize>,
) -> Result<(), CannotWrite>
    ensures ok { OnOk result (Sends (W.contents writer.old) buffer.old
        (W.contents writer.new) buffer.new (margin (pointed step_lines.entry) came_by)) }
    ensures err { OnErr result (Stops (W.contents writer.old) buffer.old
        (W.contents writer.new) (margin (pointed step_lines.entry) came_by)) }
{
    match step_lines {
        None => Ok(()),
        Some(_) => put_parts(buffer, writer, &[came_by_part(came_by), Part::Text(" ")]),
    }
}

/// The line of the schedule by which a line of a step came, where those are shown.
pub(crate) fn shown_line_of(step_lines: Option<&[usize]>, step: usize) -> Option<usize>
    ensures { result ≡ shown_line_of (pointed step_lines.entry) step }
{
    match step_lines {
        None => None,
        Some(step_lines) => line_of_step(step_lines, step),
    }
}

/// The number of a line of the schedule, or `-` for none.
pub(crate) fn came_by_part(came_by: Option<usize>) -> Part<'static>
    ensures { part_text result ≡ came_by_text came_by }
{
    match came_by {
        None => Part::Text("-"),
        Some(line) => Part::Number(line),
    }
}

/// The number of the next datagram after a line.
pub(crate) fn number_after(number: usize, line: &Line) -> usize
    requires { number < usize.MAX }
    ensures { result ≡ number_after number line.now }
{
    if is_datagram(line) {
        number + 1
    } else {
        number
    }
}

/// Whether a line tells of a datagram.
fn is_datagram(line: &Line) -> bool
    ensures { result ≡ is_some (datagram_in line.now) }
{
    matches!(&line.told, Told::Gave(Output::Sent { .. }))
}

/// Prints a line, where the next datagram has a number.
fn put_line<W: Write>(
    buffer: &mut Buffer,
    writer: &mut W,
    nodes: &[SetupNode],
    number: usize,
    line: &Line,
) -> Result<(), CannotWrite>
    ensures ok { OnOk result (Sends (W.contents writer.old) buffer.old
        (W.contents writer.new) buffer.new (line_text nodes.now number line.now)) }
    ensures err { OnErr result (Stops (W.contents writer.old) buffer.old
        (W.contents writer.new) (line_text nodes.now number line.now)) }
{
    put_parts(buffer, writer, &head_parts(nodes, line))?;
    put_told(buffer, writer, number, &line.told)
}

/// The index of a line's step and the name of its node.
fn head_parts<'n>(nodes: &'n [SetupNode], line: &Line) -> [Part<'n>; 3]
    ensures { flat_map part_text result ≡ line_head nodes.now line.now }
{
    [
        Part::Number(line.step),
        Part::Text(" "),
        Part::Text(node_name(nodes, line.node)),
    ]
}

/// The name of the node at a place.
pub(crate) fn node_name(nodes: &[SetupNode], place: usize) -> &str
    ensures { result.now ≡ node_name nodes.now place }
{
    match nodes.get(place) {
        Some(node) => node.name.as_str(),
        None => "",
    }
}
