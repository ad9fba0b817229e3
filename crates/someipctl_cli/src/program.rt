//! What the program does with its words: the command that they ask for, over the files that they name,
//! and how it ends.
ghost use Rattle.std.specs.Prelude.{◌≡◌};
ghost use Rattle.someipctl_cli.specs.Failures.{status_of_failure};

use crate::explorations::explore_files;
use crate::failure::{Failure, Refusal};
use crate::help::answer_error;
use crate::options::{line_form, services_of};
use crate::recordings::{
    audit_recorded, extract_recorded, services_recorded, show_recorded, stats_recorded,
};
use crate::runs::{RunForm, chart_files, form_of, run_files, wanted_of};
use crate::source::{open_file, types_at};
use someipctl_io::{Form, Outcome};
use someipctl_show::encode::encode;
use someipctl_show::payload::payload;
use someipctl_show::show::show_in;
use someipctl_show::vectors::vectors_in;
use someipctl_words::{Command, command_of};
use std::io::ErrorKind;
use std::rt::{Env, Files};
use std::{env, io};

/// How `show` is used.
const SHOW_USAGE: &str = "show [OPTIONS] <CAPTURE>";

/// The program: does what its arguments ask for, tells on standard error what kept it from that, and gives the
/// exit status.
pub fn answer<R: Env + Files + Print + Eprint + Input + AllocGlobal>(rt: &R) -> u8 {
    match words_of(rt) {
        Ok(words) => answer_words(rt, &words),
        Err(failure) => report(rt, failure),
    }
}

/// The same of these words, of which the first is the program's name.
fn answer_words<R: Files + Print + Eprint + Input + AllocGlobal>(rt: &R, words: &[String]) -> u8 {
    match run(rt, words) {
        Ok(outcome) => outcome.status(),
        Err(failure) => report(rt, failure),
    }
}

/// Prints why the program failed, and gives its exit status.
pub fn report<R: Eprint>(rt: &R, failure: Failure<'_>) -> u8
    ensures { result ≡ status_of_failure failure.entry }
{
    let status = failure.status();
    // Where standard error can't be written, the status is all that is left to say.
    let _ = match &failure {
        // The text of a usage fault is whole lines.
        Failure::Usage(error) => eprint!(rt; "{error}"),
        other => rt.eprintln(other),
    };
    status
}

/// The arguments, the program's name among them.
pub fn words_of<R: Env + AllocGlobal>(rt: &R) -> Result<Vec<String>, Failure<'static>> {
    match env::args(rt) {
        Ok(words) => words.collect(rt.alloc()).map_err(|_| Failure::OutOfMemory),
        Err(error) => match error.kind() {
            ErrorKind::OutOfMemory => Err(Failure::OutOfMemory),
            _ => Err(Failure::NotText),
        },
    }
}

/// Does what the words ask for, of which the first is the program's name.
pub fn run<'w, R: Files + Print + Eprint + Input + AllocGlobal>(
    rt: &R,
    words: &'w [String],
) -> Result<Outcome, Failure<'w>> {
    match command_of(rt.alloc(), words) {
        Ok(command) => run_command(rt, command),
        Err(error) => answer_error(error, &mut io::writer(rt)),
    }
}

fn run_command<'w, R: Files + Print + Eprint + Input + AllocGlobal>(
    rt: &R,
    command: Command<'w>,
) -> Result<Outcome, Failure<'w>> {
    match command {
        Command::Show {
            capture,
            service,
            types,
            json,
        } => show_file(rt, capture, service, types, line_form(json)),
        Command::Payload { shape, hex } => {
            let told = payload(rt.alloc(), shape, hex, &mut io::writer(rt));
            // No file is read, so none is named.
            told.map_err(|fault| Failure::of(fault.map(Refusal::Payload), ""))
        }
        Command::Encode { shape, value } => {
            let told = encode(rt.alloc(), shape, value, &mut io::writer(rt));
            told.map_err(|fault| Failure::of(fault.map(Refusal::Payload), ""))
        }
        Command::Vectors { file, json } => judge_file(rt, file, line_form(json)),
        Command::Run {
            setup,
            schedule,
            expect,
            begins,
            lines,
            json,
        } => {
            let wanted = wanted_of(expect, begins, json)?;
            let asked = RunForm {
                form: line_form(json),
                trace: form_of(lines),
            };
            run_files(rt, setup, schedule, wanted, asked)
        }
        Command::Chart { setup, schedule } => chart_files(rt, setup, schedule),
        Command::Recording { files, options } => show_recorded(rt, &files, options),
        Command::Audit { files, options } => audit_recorded(rt, &files, options),
        Command::Explore {
            setup,
            moves,
            goal,
            options,
        } => explore_files(rt, setup, moves, goal, &options),
        Command::Extract { files, options } => extract_recorded(rt, &files, options),
        Command::Services { files, options } => services_recorded(rt, &files, options),
        Command::Stats { files, options } => stats_recorded(rt, &files, options),
    }
}

fn show_file<'p, R: Files + Print + AllocGlobal>(
    rt: &R,
    path: &'p str,
    service: Option<&'p str>,
    types: Option<&'p str>,
    form: Form,
) -> Result<Outcome, Failure<'p>> {
    let services = services_of(rt, service, SHOW_USAGE)?;
    let types = types_at(rt, types)?;
    let mut file = open_file(rt, path)?;
    let asked = services.as_deref();
    let shown = show_in(
        rt.alloc(),
        form,
        &mut file,
        asked,
        &types,
        &mut io::writer(rt),
    );
    shown.map_err(|fault| Failure::of(fault.map(Refusal::Capture), path))
}

fn judge_file<'p, R: Files + Print + AllocGlobal>(
    rt: &R,
    path: &'p str,
    form: Form,
) -> Result<Outcome, Failure<'p>> {
    let mut file = open_file(rt, path)?;
    vectors_in(rt.alloc(), form, &mut file, &mut io::writer(rt)).map_err(|fault| Failure::of(
        fault.map(Refusal::Vectors),
        path,
    ))
}
