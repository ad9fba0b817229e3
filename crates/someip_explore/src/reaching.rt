//! Whether a run reaches a goal.
ghost use Rattle.std.specs.Prelude.{◌≡◌, IfOk, Ok, map, string_bytes};
ghost use Rattle.someip_explore.specs.Goals.{asks_for_verdict, begins_with, run_reaches, verdict_reaches};
ghost use Rattle.someip_explore.specs.Goals.{verdict_words};
ghost use Rattle.someip_explore.specs.GoalViews.{goal_of};
ghost use Rattle.someip_explore.specs.Traces.{trace_of, verdict_of};

use crate::goal::{Goal, may_reach, reaches};
use crate::traced::verdict_traced;
use crate::words::begins_with;
use someip_texts::Word;
use someip_world::{Line, Reuse, Setup, Step};
use std::alloc::{AllocError, Global};

/// Whether the line of a verdict has some words.
fn has_verdict_words(alloc: Global, words: &[String], verdict: Reuse) -> Result<bool, AllocError>
    ensures { IfOk result (λ has. has ≡ begins_with (map string_bytes words.now) (verdict_words verdict)) }
{
    match verdict {
        Reuse::Clean => begins_with(alloc, words, &[Word::Text("reuse"), Word::Text("clean")]),
        Reuse::Broken(at) => {
            let told = [
                Word::Text("reuse"),
                Word::Text("broken"),
                Word::Text("at"),
                Word::Number(at),
            ];
            begins_with(alloc, words, &told)
        }
    }
}

/// Whether the line of a verdict may have some words.
fn asks_for_verdict(words: &[String]) -> bool
    ensures { result ≡ asks_for_verdict (map string_bytes words.now) }
{
    match words {
        [first, ..] => "reuse" == first.as_str(),
        [] => true,
    }
}

/// Whether the line of the verdict on a schedule reaches a goal, behind all lines of its trace. The verdict is
/// made only where the goal asks for it.
fn verdict_reaches(
    alloc: Global,
    setup: &Setup,
    steps: &[Step],
    goal: &Goal,
    lines: &[Line],
) -> Result<bool, AllocError>
    requires { trace_of setup.now.nodes steps.now ≡ Ok lines.now }
    ensures { IfOk result (λ does. does ≡ verdict_reaches setup.now.nodes (goal_of goal.now) lines.now
        (verdict_of setup.now.nodes steps.now lines.now)) }
{
    if !asks_for_verdict(goal.words.as_slice()) {
        return Ok(false);
    }
    let verdict = verdict_traced(alloc, setup, steps, lines)?;
    if !has_verdict_words(alloc, goal.words.as_slice(), verdict)? {
        return Ok(false);
    }
    may_reach(alloc, setup.nodes(), goal, lines)
}

/// Whether a schedule whose trace has these lines reaches a goal after so many steps: a line of a later step
/// does, or that of the verdict.
pub(crate) fn run_reaches(
    alloc: Global,
    setup: &Setup,
    steps: &[Step],
    goal: &Goal,
    done: usize,
    lines: &[Line],
) -> Result<bool, AllocError>
    requires { trace_of setup.now.nodes steps.now ≡ Ok lines.now }
    ensures { IfOk result (λ does. does ≡ run_reaches setup.now.nodes (goal_of goal.now) done lines.now
        (verdict_of setup.now.nodes steps.now lines.now)) }
{
    if reaches(alloc, setup.nodes(), goal, done, lines)? {
        return Ok(true);
    }
    verdict_reaches(alloc, setup, steps, goal, lines)
}
