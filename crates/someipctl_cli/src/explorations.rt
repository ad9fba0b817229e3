//! The command `explore`, over the files that it names.
ghost use Rattle.std.specs.Prelude.{◌≡◌, true, false};
ghost use Rattle.someipctl_explore.specs.declared.notes.Progress.TheVariants.{Lines, Silent};

use crate::error_writer::ErrorWriter;
use crate::failure::{Failure, OptionName, Refusal};
use crate::runs::setup_at;
use crate::source::open_file;
use someip_explore::{Limits, Move};
use someip_world::Setup;
use someipctl_explore::{Notes, Progress, explore_schedules, goal_in, read_moves};
use someipctl_io::{Fault, Outcome, read_all};
use someipctl_recordings::number_within;
use someipctl_words::ExploreOptions;
use std::io;
use std::rt::Files;

/// How the command is used.
const EXPLORE_USAGE: &str = "explore [OPTIONS] <SETUP> <MOVES> <GOAL>";

/// The most moves of a schedule that may be asked for, and how many it has without the option.
const MOST_STEPS: u64 = 16;

const STEPS: u64 = 6;

/// The most schedules that may be asked for, and how many are judged without the option.
const MOST_SCHEDULES: u64 = 1_000_000_000_000;

const SCHEDULES: u64 = 10_000_000;

/// Tries the schedules of some moves over a setup. Whatever is wrong with the options is told before a file is
/// looked at, and whatever is wrong with the setup before the moves. Then come the words of the goal, and the
/// schedule that all begin with.
pub(crate) fn explore_files<'p, R: Files + Print + Eprint + AllocGlobal>(
    rt: &R,
    setup: &'p str,
    moves: &'p str,
    goal: &'p str,
    options: &ExploreOptions<'p>,
) -> Result<Outcome, Failure<'p>> {
    let limits = limits_of(options)?;
    let network = setup_at(rt, setup)?;
    let moves = moves_at(rt, &network, moves)?;
    explore_moves(rt, &network, &moves, goal, options, limits)
}

/// The same, where setup, moves and limits are right.
fn explore_moves<'p, R: Files + Print + Eprint + AllocGlobal>(
    rt: &R,
    network: &Setup,
    moves: &[Move],
    goal: &'p str,
    options: &ExploreOptions<'p>,
    limits: Limits,
) -> Result<Outcome, Failure<'p>> {
    let once = options.once.as_slice();
    let never = options.never.as_slice();
    let goal = match goal_in(rt.alloc(), network.nodes(), goal, once, never) {
        Ok(goal) => goal,
        Err(fault) => return Err(Failure::of(fault.map(Refusal::Goal), "")),
    };
    let text = beginning_at(rt, options.after)?;
    // Where standard error can't be written, the search goes on all the same.
    let mut notes = Notes {
        alloc: rt.alloc(),
        progress: progress_of(options.progress),
        writer: ErrorWriter::new(rt),
    };
    explore_schedules(
        rt.alloc(),
        network,
        &text,
        moves,
        &goal,
        limits,
        &mut notes,
        &mut io::writer(rt),
    )
    .map_err(|fault| Failure::of(fault.map(Refusal::Schedule), ""))
}

/// Whether it is told how far the search has come.
fn progress_of(progress: bool) -> Progress
    ensures lines { progress ≡ true → result ≡ Lines }
    ensures silent { progress ≡ false → result ≡ Silent }
{
    if progress {
        Progress::Lines
    } else {
        Progress::Silent
    }
}

/// How far the search goes.
fn limits_of<'p>(options: &ExploreOptions<'p>) -> Result<Limits, Failure<'p>> {
    let steps = number_of(OptionName::Steps, options.steps, (0, MOST_STEPS), STEPS)?;
    let schedules = number_of(
        OptionName::Most,
        options.most,
        (1, MOST_SCHEDULES),
        SCHEDULES,
    )?;
    // Both are in the range that limits have, so these are there.
    match Limits::new(steps as usize, schedules) {
        Some(limits) => Ok(limits),
        None => Err(Failure::BadOption(OptionName::Most, "", EXPLORE_USAGE)),
    }
}

/// The number that an option names, which lies between these, and another where it is not given.
fn number_of<'p>(
    option: OptionName,
    text: Option<&'p str>,
    (low, high): (u64, u64),
    without: u64,
) -> Result<u64, Failure<'p>> {
    let Some(text) = text else {
        return Ok(without);
    };
    match number_within(text, low, high) {
        Some(number) => Ok(number),
        None => Err(Failure::BadOption(option, text, EXPLORE_USAGE)),
    }
}

/// The moves of the file at a path.
fn moves_at<'p, R: Files + AllocGlobal>(
    rt: &R,
    network: &Setup,
    path: &'p str,
) -> Result<Vec<Move>, Failure<'p>> {
    let mut file = open_file(rt, path)?;
    read_moves(rt.alloc(), network.nodes(), &mut file).map_err(|fault| Failure::of(
        fault.map(Refusal::Moves),
        path,
    ))
}

/// The text of the schedule at a path, and an empty one where there is none.
fn beginning_at<'p, R: Files + AllocGlobal>(
    rt: &R,
    path: Option<&'p str>,
) -> Result<Vec<u8>, Failure<'p>> {
    let Some(path) = path else {
        return Ok(Vec::new(rt.alloc()));
    };
    let mut file = open_file(rt, path)?;
    read_all(rt.alloc(), &mut file).map_err(|fault| Failure::of(Fault::from(fault), path))
}
