//! Running a schedule.
ghost use Rattle.std.specs.Prelude.{◌≡◌, [], IfOk, IfErr, OnOk, OnErr};
ghost use Rattle.std.specs.Io.KnownBytes.{Appends};
ghost use Rattle.someip_world_schedule.specs.Schedule.{lines_of_steps};
ghost use Rattle.someipctl_io.specs.Sending.{Sends, Stops};
ghost use Rattle.someipctl_run.specs.Commands.{IsTraceOf, RanInForm, RanInput, RanInputInForm};
ghost use Rattle.someipctl_run.specs.Commands.{RefusesInputRun, RefusesInputRunInForm, RefusesRunInForm};
ghost use Rattle.someipctl_run.specs.Commands.{RanAsObjects, RanInputAsObjects, RefusesInputRunAsObjects};
ghost use Rattle.someipctl_run.specs.Commands.{RefusesRunAsObjects, RefusesTrace};
ghost use Rattle.someipctl_run.specs.FormedTraces.{objects_in_form, trace_in_form};

use crate::error::{ScheduleRefusal, fault_of_run, fault_of_schedule};
use crate::form::{FormedTrace, TraceForm};
use crate::objects::put_objects;
use crate::trace_lines::{put_lines, put_verdict};
use someip_tp::IntervalPool;
use someip_world::{Setup, Trace, read_numbered_schedule, run};
use someipctl_io::{Buffer, CannotWrite, Fault, read_all};
use std::alloc::Global;
use std::io::{Read, Write};

/// Reads a schedule whole, runs it over a setup, and then writes the trace, with the verdict as its last line.
pub fn run_schedule<R: Read, W: Write>(
    alloc: Global,
    setup: &Setup,
    reader: &mut R,
    writer: &mut W,
) -> Result<(), Fault<ScheduleRefusal>>
    // The trace of the schedule was written, byte for byte, and the verdict on it.
    ensures ran { OnOk result (RanInput setup.now.nodes (R.remaining reader.old)
        (W.contents writer.old) (W.contents writer.new)) }
    // An error names the first bad line or the first step that can't happen, and leaves nothing
    // written, but for one of writing: that leaves a beginning of the text.
    ensures refused { IfErr result (λ fault. RefusesInputRun setup.now.nodes
        (R.remaining reader.old) fault (W.contents writer.old) (W.contents writer.new)) }
{
    run_schedule_in_form(alloc, setup, TraceForm::Plain, reader, writer)
}

/// Reads a schedule whole, runs it over a setup, and then writes the trace in a form, with the verdict
/// as its last line.
pub fn run_schedule_in_form<R: Read, W: Write>(
    alloc: Global,
    setup: &Setup,
    form: TraceForm,
    reader: &mut R,
    writer: &mut W,
) -> Result<(), Fault<ScheduleRefusal>>
    // The trace of the schedule was written in the form, byte for byte, and the verdict on it.
    ensures ran { OnOk result (RanInputInForm form setup.now.nodes (R.remaining reader.old)
        (W.contents writer.old) (W.contents writer.new)) }
    // An error names the first bad line or the first step that can't happen, and leaves nothing
    // written, but for one of writing: that leaves a beginning of the text.
    ensures refused { IfErr result (λ fault. RefusesInputRunInForm form setup.now.nodes
        (R.remaining reader.old) fault (W.contents writer.old) (W.contents writer.new)) }
{
    let text = read_all(alloc, reader)?;
    run_text(alloc, setup, form, &text, writer)
}

/// Runs the schedule that a text spells over a setup, and then writes the trace in a form.
fn run_text<W: Write>(
    alloc: Global,
    setup: &Setup,
    form: TraceForm,
    text: &[u8],
    writer: &mut W,
) -> Result<(), Fault<ScheduleRefusal>>
    ensures ran { OnOk result (RanInForm form setup.now.nodes text.now
        (W.contents writer.old) (W.contents writer.new)) }
    ensures refused { IfErr result (λ fault. RefusesRunInForm form setup.now.nodes text.now fault
        (W.contents writer.old) (W.contents writer.new)) }
{
    let ran = run_of_text(alloc, setup, text)?;
    let mut buffer = Buffer::new(alloc)?;
    let trace = FormedTrace {
        form,
        step_lines: &ran.step_lines,
        nodes: setup.nodes(),
        lines: &ran.trace.lines,
        verdict: ran.trace.verdict,
    };
    write_trace(&mut buffer, writer, &trace)?;
    Ok(())
}

/// Reads a schedule whole, runs it over a setup, and then writes the trace as JSON objects, one for each line
/// of the trace in a form. The verdict is the last one.
pub fn run_schedule_objects<R: Read, W: Write>(
    alloc: Global,
    setup: &Setup,
    form: TraceForm,
    reader: &mut R,
    writer: &mut W,
) -> Result<(), Fault<ScheduleRefusal>>
    // The objects of the schedule's trace were written, byte for byte, and that of the verdict on it.
    ensures ran { OnOk result (RanInputAsObjects form setup.now.nodes (R.remaining reader.old)
        (W.contents writer.old) (W.contents writer.new)) }
    // An error names the first bad line or the first step that can't happen, and leaves nothing
    // written, but for one of writing: that leaves a beginning of the text.
    ensures refused { IfErr result (λ fault. RefusesInputRunAsObjects form setup.now.nodes
        (R.remaining reader.old) fault (W.contents writer.old) (W.contents writer.new)) }
{
    let text = read_all(alloc, reader)?;
    run_text_as_objects(alloc, setup, form, &text, writer)
}

/// Runs the schedule that a text spells over a setup, and then writes the trace as objects.
fn run_text_as_objects<W: Write>(
    alloc: Global,
    setup: &Setup,
    form: TraceForm,
    text: &[u8],
    writer: &mut W,
) -> Result<(), Fault<ScheduleRefusal>>
    ensures ran { OnOk result (RanAsObjects form setup.now.nodes text.now
        (W.contents writer.old) (W.contents writer.new)) }
    ensures refused { IfErr result (λ fault. RefusesRunAsObjects form setup.now.nodes text.now fault
        (W.contents writer.old) (W.contents writer.new)) }
{
    let ran = run_of_text(alloc, setup, text)?;
    let mut buffer = Buffer::new(alloc)?;
    let trace = FormedTrace {
        form,
        step_lines: &ran.step_lines,
        nodes: setup.nodes(),
        lines: &ran.trace.lines,
        verdict: ran.trace.verdict,
    };
    write_objects(&mut buffer, writer, &trace)?;
    Ok(())
}

/// What a schedule gave.
#[derive(Drop)]
pub(crate) struct ScheduleRun {
    /// Its trace.
    pub(crate) trace: Trace,
    /// The numbers of the lines of the schedule on which its steps stand, in order.
    pub(crate) step_lines: Vec<usize>,
}

/// What the schedule that a text spells gives over a setup.
pub(crate) fn run_of_text(
    alloc: Global,
    setup: &Setup,
    text: &[u8],
) -> Result<ScheduleRun, Fault<ScheduleRefusal>>
    ensures ok { IfOk result
        (λ ran. IsTraceOf setup.now.nodes text.now ran.trace.lines.items ran.trace.verdict) }
    ensures lines { IfOk result (λ ran. ran.step_lines.items ≡ lines_of_steps text.now) }
    ensures err { IfErr result (RefusesTrace setup.now.nodes text.now) }
{
    let read = read_numbered_schedule(alloc, text).map_err(fault_of_schedule)?;
    let trace = run::<IntervalPool>(alloc, setup, &read.steps).map_err(fault_of_run)?;
    Ok(ScheduleRun {
        trace,
        step_lines: read.lines,
    })
}

/// Writes a trace through an empty buffer.
fn write_trace<W: Write>(
    buffer: &mut Buffer,
    writer: &mut W,
    trace: &FormedTrace<'_>,
) -> Result<(), CannotWrite>
    requires empty { buffer.old ≡ [] }
    ensures ok { OnOk result (Appends (W.contents writer.old) (W.contents writer.new)
        (trace_in_form trace.now)) }
    ensures err { OnErr result (Stops (W.contents writer.old) [] (W.contents writer.new)
        (trace_in_form trace.now)) }
{
    put_trace(buffer, writer, trace)?;
    buffer.flush(writer)
}

/// Writes a trace as objects through an empty buffer.
fn write_objects<W: Write>(
    buffer: &mut Buffer,
    writer: &mut W,
    trace: &FormedTrace<'_>,
) -> Result<(), CannotWrite>
    requires empty { buffer.old ≡ [] }
    ensures ok { OnOk result (Appends (W.contents writer.old) (W.contents writer.new)
        (objects_in_form trace.now)) }
    ensures err { OnErr result (Stops (W.contents writer.old) [] (W.contents writer.new)
        (objects_in_form trace.now)) }
{
    put_objects(buffer, writer, trace)?;
    buffer.flush(writer)
}

/// Prints a trace.
fn put_trace<W: Write>(
    buffer: &mut Buffer,
    writer: &mut W,
    trace: &FormedTrace<'_>,
) -> Result<(), CannotWrite>
    ensures ok { OnOk result (Sends (W.contents writer.old) buffer.old (W.contents writer.new) buffer.new
        (trace_in_form trace.now)) }
    ensures err { OnErr result (Stops (W.contents writer.old) buffer.old (W.contents writer.new)
        (trace_in_form trace.now)) }
{
    let step_lines = trace.form.shown(trace.step_lines);
    put_lines(buffer, writer, step_lines, trace.nodes, trace.lines)?;
    put_verdict(buffer, writer, step_lines, trace.verdict)
}
