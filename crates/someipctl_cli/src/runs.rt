//! The commands over setups and schedules: `run` and `chart`.
ghost use Rattle.std.specs.Prelude.{◌≡◌, true, false};
ghost use Rattle.someipctl_run.specs.declared.form.TraceForm.TheVariants.{Plain, WithLines};

use crate::failure::{Failure, Refusal};
use crate::source::open_file;
use someip_world::Setup;
use someipctl_io::{Form, Outcome};
use someipctl_run::chart::chart_schedule;
use someipctl_run::{
    Extent, TraceForm, compare_schedule, read_expected, read_setup, run_schedule_in_form,
    run_schedule_objects,
};
use std::io;
use std::rt::Files;

/// How a trace is printed.
#[derive(Clone, Copy)]
pub(crate) struct RunForm {
    /// The form of its lines.
    pub(crate) form: Form,
    /// Whether each has the line of the schedule.
    pub(crate) trace: TraceForm,
}

/// The form of a trace, by whether the lines of the schedule are shown.
pub(crate) fn form_of(lines: bool) -> TraceForm
    ensures with_lines { lines ≡ true → result ≡ WithLines }
    ensures plain { lines ≡ false → result ≡ Plain }
{
    if lines {
        TraceForm::WithLines
    } else {
        TraceForm::Plain
    }
}

/// The file that says what is expected of a run, and how much of the trace it is.
pub(crate) fn wanted_of<'p>(
    expect: Option<&'p str>,
    begins: Option<&'p str>,
    json: bool,
) -> Result<Option<(&'p str, Extent)>, Failure<'p>> {
    match (expect, begins) {
        (Some(_), Some(_)) => Err(Failure::ExpectAndBegins),
        (Some(_), None) if json => Err(Failure::JsonAndExpected("--expect")),
        (None, Some(_)) if json => Err(Failure::JsonAndExpected("--begins")),
        (Some(trace), None) => Ok(Some((trace, Extent::Whole))),
        (None, Some(trace)) => Ok(Some((trace, Extent::Beginning))),
        (None, None) => Ok(None),
    }
}

/// Runs a schedule over a setup, and compares the trace where one is expected. Whatever is wrong with the
/// setup is told before the other files are looked at, and whatever is wrong with the expected trace
/// before the schedule.
pub(crate) fn run_files<'p, R: Files + Print + AllocGlobal>(
    rt: &R,
    setup: &'p str,
    schedule: &'p str,
    wanted: Option<(&'p str, Extent)>,
    asked: RunForm,
) -> Result<Outcome, Failure<'p>> {
    let network = setup_at(rt, setup)?;
    if let Some((trace, extent)) = wanted {
        return compare_files(rt, &network, schedule, trace, extent, asked.trace);
    }
    let mut file = open_file(rt, schedule)?;
    let mut writer = io::writer(rt);
    let ran = match asked.form {
        Form::Plain => run_schedule_in_form(
            rt.alloc(),
            &network,
            asked.trace,
            &mut file,
            &mut writer,
        ),
        Form::Json => run_schedule_objects(
            rt.alloc(),
            &network,
            asked.trace,
            &mut file,
            &mut writer,
        ),
    };
    match ran {
        Ok(()) => Ok(Outcome::Done),
        Err(fault) => Err(Failure::of(fault.map(Refusal::Schedule), schedule)),
    }
}

/// Runs a schedule over a setup, and compares its trace with the one that a file expects.
fn compare_files<'p, R: Files + Print + AllocGlobal>(
    rt: &R,
    network: &Setup,
    schedule: &'p str,
    trace: &'p str,
    extent: Extent,
    form: TraceForm,
) -> Result<Outcome, Failure<'p>> {
    let mut file = open_file(rt, trace)?;
    let expected = read_expected(rt.alloc(), extent, &mut file).map_err(|fault| Failure::of(
        fault.map(Refusal::Trace),
        trace,
    ))?;
    let mut file = open_file(rt, schedule)?;
    compare_schedule(
        rt.alloc(),
        network,
        form,
        extent,
        &expected,
        &mut file,
        &mut io::writer(rt),
    )
    .map_err(|fault| Failure::of(fault.map(Refusal::Schedule), schedule))
}

/// Draws a schedule over a setup.
pub(crate) fn chart_files<'p, R: Files + Print + AllocGlobal>(
    rt: &R,
    setup: &'p str,
    schedule: &'p str,
) -> Result<Outcome, Failure<'p>> {
    let network = setup_at(rt, setup)?;
    let mut file = open_file(rt, schedule)?;
    match chart_schedule(rt.alloc(), &network, &mut file, &mut io::writer(rt)) {
        Ok(()) => Ok(Outcome::Done),
        Err(fault) => Err(Failure::of(fault.map(Refusal::Schedule), schedule)),
    }
}

/// The setup of the file at a path.
pub(crate) fn setup_at<'p, R: Files + AllocGlobal>(
    rt: &R,
    path: &'p str,
) -> Result<Setup, Failure<'p>> {
    let mut file = open_file(rt, path)?;
    read_setup(rt.alloc(), &mut file).map_err(|fault| Failure::of(fault.map(Refusal::Setup), path))
}
