//! What is printed of a search.
ghost use Rattle.std.specs.Prelude.{◌≡◌, IfOk, OnOk, drop, take};
ghost use Rattle.someipctl_run.specs.Commands.{SpellsSteps};
ghost use Rattle.someipctl_explore.specs.ResultTexts.{IsReadAs, exploration_text, found_text, judged_line, none_line};
ghost use Rattle.someipctl_explore.specs.ResultTexts.{outcome_of, stopped_line};

use crate::step_lines::{line_text, put_steps};
use crate::whole_steps::steps_are_whole;
use someip_explore::{Exploration, Limits};
use someip_world::Step;
use someipctl_io::{Outcome, Word};
use std::alloc::{AllocError, Global};

/// The comment with the number of schedules that were judged.
fn judged_line(alloc: Global, judged: u64) -> Result<Vec<u8>, AllocError>
    ensures { IfOk result (λ text. text.items ≡ judged_line judged) }
{
    let words = [
        Word::Text("judged"),
        Word::Number(judged as usize),
        Word::Text("schedules"),
    ];
    line_text(alloc, "#", &words)
}

/// The line that tells that no schedule reaches the goal.
fn none_line(alloc: Global, steps: usize, judged: u64) -> Result<Vec<u8>, AllocError>
    ensures { IfOk result (λ text. text.items ≡ none_line steps judged) }
{
    let words = [
        Word::Text("within"),
        Word::Number(steps),
        Word::Text("steps,"),
        Word::Number(judged as usize),
        Word::Text("schedules"),
    ];
    line_text(alloc, "none", &words)
}

/// The line that tells that the search was stopped.
fn stopped_line(alloc: Global, covered: usize, most: u64) -> Result<Vec<u8>, AllocError>
    ensures { IfOk result (λ text. text.items ≡ stopped_line covered most) }
{
    let words = [
        Word::Text("of up to"),
        Word::Number(covered),
        Word::Text("steps, stopped after"),
        Word::Number(most as usize),
        Word::Text("schedules"),
    ];
    line_text(alloc, "none", &words)
}

/// The steps that a schedule begins with, and the others.
fn cut(schedule: &[Step], done: usize) -> (&[Step], &[Step])
    ensures { (result.0.now ≡ take done schedule.now) × (result.1.now ≡ drop done schedule.now) }
{
    if done < schedule.len() {
        schedule.split_at(done)
    } else {
        (schedule, &[])
    }
}

/// A schedule that was found: the steps that it begins with, a comment, and the others. It reads as the
/// schedule.
fn found_text(
    alloc: Global,
    done: usize,
    judged: u64,
    schedule: &[Step],
) -> Result<Vec<u8>, AllocError>
    ensures is { IfOk result (λ text. text.items ≡ found_text done judged schedule.now) }
    ensures read { OnOk result (SpellsSteps (found_text done judged schedule.now) schedule.now) }
{
    steps_are_whole(alloc, schedule)?;
    let (beginning, more) = cut(schedule, done);
    let mut text = Vec::new(alloc);
    put_steps(alloc, beginning, &mut text)?;
    let line = judged_line(alloc, judged)?;
    text.extend_from_slice(line.as_slice())?;
    put_steps(alloc, more, &mut text)?;
    Ok(text)
}

/// What is printed of a search among schedules that begin with so many steps.
pub(crate) fn exploration_text(
    alloc: Global,
    done: usize,
    limits: Limits,
    found: &Exploration,
) -> Result<Vec<u8>, AllocError>
    ensures is { IfOk result (λ text. text.items ≡ exploration_text done limits found.now) }
    ensures read { IfOk result (λ text. IsReadAs text.items found.now) }
{
    match found {
        Exploration::Found { schedule, judged } => {
            found_text(alloc, done, *judged, schedule.as_slice())
        }
        Exploration::None { judged } => none_line(alloc, limits.steps(), *judged),
        Exploration::Stopped { covered } => stopped_line(alloc, *covered, limits.schedules()),
    }
}

/// How the command ended: a goal that is not reached is nothing wrong, where all were tried.
pub(crate) fn outcome_of(found: &Exploration) -> Outcome
    ensures { result ≡ outcome_of found.now }
{
    match found {
        Exploration::None { .. } => Outcome::Done,
        _ => Outcome::FaultShown,
    }
}
