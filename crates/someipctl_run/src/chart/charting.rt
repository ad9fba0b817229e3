//! Running a schedule, and drawing its trace. The picture is made whole before the first byte is written:
//! where memory runs out, nothing is.
ghost use Rattle.std.specs.Prelude.{IfErr, OnOk};
ghost use Rattle.someipctl_run.specs.Commands.{RefusesTrace};
ghost use Rattle.someipctl_run.specs.chart.Charts.{Charts, ChartsInput, HasTrace, RefusesChart};
ghost use Rattle.someipctl_run.specs.chart.Charts.{RefusesInputChart};

use crate::chart::datagrams::{deliveries_in, sent_in};
use crate::chart::drawing::{Picture, svg_of};
use crate::chart::rows::{Rows, step_texts};
use crate::error::{ScheduleRefusal, fault_of_run, fault_of_schedule};
use someip_tp::IntervalPool;
use someip_world::{Setup, Step, Trace, read_schedule, run};
use someipctl_io::{Fault, read_all, write_text};
use std::alloc::{AllocError, Global};
use std::io::{Read, Write};

/// Reads a schedule whole, runs it over a setup, and then writes a picture of its trace: an SVG with a
/// lane for each node.
pub fn chart_schedule<R: Read, W: Write>(
    alloc: Global,
    setup: &Setup,
    reader: &mut R,
    writer: &mut W,
) -> Result<(), Fault<ScheduleRefusal>>
    // The schedule has a trace, and a picture was written.
    ensures charted { OnOk result (ChartsInput setup.now.nodes (R.remaining reader.old)
        (W.contents writer.old) (W.contents writer.new)) }
    // An error names the first bad line or the first step that can't happen, and leaves nothing
    // written, but for one of writing: that leaves a beginning of the picture.
    ensures refused { IfErr result (λ fault. RefusesInputChart setup.now.nodes
        (R.remaining reader.old) fault (W.contents writer.old) (W.contents writer.new)) }
{
    let text = read_all(alloc, reader)?;
    chart_text(alloc, setup, &text, writer)
}

/// Runs the schedule that a text spells over a setup, and then writes a picture of its trace.
fn chart_text<W: Write>(
    alloc: Global,
    setup: &Setup,
    text: &[u8],
    writer: &mut W,
) -> Result<(), Fault<ScheduleRefusal>>
    ensures charted { OnOk result (Charts setup.now.nodes text.now
        (W.contents writer.old) (W.contents writer.new)) }
    ensures refused { IfErr result (λ fault. RefusesChart setup.now.nodes text.now fault
        (W.contents writer.old) (W.contents writer.new)) }
{
    let svg = picture_of(alloc, setup, text)?;
    write_text(writer, svg.as_bytes())?;
    Ok(())
}

/// The picture of the trace of the schedule that a text spells.
fn picture_of(alloc: Global, setup: &Setup, text: &[u8]) -> Result<String, Fault<ScheduleRefusal>>
    ensures ok { OnOk result (HasTrace setup.now.nodes text.now) }
    ensures err { IfErr result (RefusesTrace setup.now.nodes text.now) }
{
    let steps = read_schedule(alloc, text).map_err(fault_of_schedule)?;
    let trace = run::<IntervalPool>(alloc, setup, &steps).map_err(fault_of_run)?;
    let svg = drawn(alloc, setup, text, &steps, &trace)?;
    Ok(svg)
}

/// The picture of a trace.
fn drawn(
    alloc: Global,
    setup: &Setup,
    text: &[u8],
    steps: &[Step],
    trace: &Trace,
) -> Result<String, AllocError> {
    let texts = step_texts(alloc, text)?;
    let rows = Rows::new(alloc, steps.len(), &trace.lines)?;
    let sent = sent_in(alloc, &rows, &trace.lines)?;
    let deliveries = deliveries_in(alloc, setup.nodes(), steps, &rows, &sent)?;
    let picture = Picture {
        nodes: setup.nodes(),
        steps,
        texts: &texts,
        lines: &trace.lines,
        rows: &rows,
        sent: &sent,
        deliveries: &deliveries,
    };
    svg_of(alloc, &picture, trace.verdict)
}
