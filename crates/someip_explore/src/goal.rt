//! Goals: what a schedule is to bring about.
ghost use Rattle.std.specs.Prelude.{◌≡◌, IfOk, map, string_bytes};
ghost use Rattle.std.specs.List.{list_all, list_any};
ghost use Rattle.someip_explore.specs.Goals.{line_reaches, may_reach, next_number, reaches, some_has};
ghost use Rattle.someip_explore.specs.GoalViews.{goal_of, words_of};

use crate::numbers::number_after;
use crate::words::has_words;
use someip_world::{Line, SetupNode};
use std::alloc::{AllocError, Global};

/// What a schedule is to bring about: a line of its trace has some words. They are the name of the node, and
/// then what it tells, as a trace tells it. A line has words where its first words are these. Behind all
/// lines stands that of the verdict on the whole schedule: `reuse clean`, or `reuse broken at` and the index of
/// the first step that broke it.
#[derive(Drop)]
pub struct Goal {
    /// The words that the line has.
    pub words: Vec<String>,
    /// Each of these words an earlier line has.
    pub once: Vec<Vec<String>>,
    /// None of these words an earlier line has.
    pub never: Vec<Vec<String>>,
}

/// Whether one of some lines has some words. Their datagrams have numbers from 1.
fn some_has(
    alloc: Global,
    nodes: &[SetupNode],
    words: &[String],
    lines: &[Line],
) -> Result<bool, AllocError>
    ensures { IfOk result (λ has. has ≡ some_has nodes.now (map string_bytes words.now) 1 lines.now) }
{
    let mut number = 1;
    for line in lines {
        if has_words(alloc, nodes, words, number, line)? {
            return Ok(true);
        }
        number = number_after(number, line);
    }
    Ok(false)
}

/// Whether some lines have each of some words.
fn have_each(
    alloc: Global,
    nodes: &[SetupNode],
    once: &[Vec<String>],
    lines: &[Line],
) -> Result<bool, AllocError>
    ensures { IfOk result (λ have. have ≡ list_all (λ words. some_has nodes.now words 1 lines.now)
        (map words_of once.now)) }
{
    for words in once {
        if !some_has(alloc, nodes, words.as_slice(), lines)? {
            return Ok(false);
        }
    }
    Ok(true)
}

/// Whether some lines have one of some words.
fn have_one(
    alloc: Global,
    nodes: &[SetupNode],
    never: &[Vec<String>],
    lines: &[Line],
) -> Result<bool, AllocError>
    ensures { IfOk result (λ have. have ≡ list_any (λ words. some_has nodes.now words 1 lines.now)
        (map words_of never.now)) }
{
    for words in never {
        if some_has(alloc, nodes, words.as_slice(), lines)? {
            return Ok(true);
        }
    }
    Ok(false)
}

/// Whether the lines before a line are as a goal asks.
pub(crate) fn may_reach(
    alloc: Global,
    nodes: &[SetupNode],
    goal: &Goal,
    before: &[Line],
) -> Result<bool, AllocError>
    ensures { IfOk result (λ may. may ≡ may_reach nodes.now (goal_of goal.now) before.now) }
{
    if !have_each(alloc, nodes, goal.once.as_slice(), before)? {
        return Ok(false);
    }
    Ok(!have_one(alloc, nodes, goal.never.as_slice(), before)?)
}

/// Whether a line after others, of which the next datagram has a number, reaches a goal: it is one of a step
/// after so many.
fn line_reaches(
    alloc: Global,
    nodes: &[SetupNode],
    goal: &Goal,
    done: usize,
    before: &[Line],
    number: usize,
    line: &Line,
) -> Result<bool, AllocError>
    requires { number ≡ next_number before.now }
    ensures { IfOk result (λ does. does
        ≡ line_reaches nodes.now (goal_of goal.now) done before.now line.now) }
{
    if line.step <= done {
        return Ok(false);
    }
    if !has_words(alloc, nodes, goal.words.as_slice(), number, line)? {
        return Ok(false);
    }
    may_reach(alloc, nodes, goal, before)
}

/// Whether a trace reaches a goal after so many steps: a line of a later step does.
pub(crate) fn reaches(
    alloc: Global,
    nodes: &[SetupNode],
    goal: &Goal,
    done: usize,
    lines: &[Line],
) -> Result<bool, AllocError>
    ensures { IfOk result (λ does. does ≡ reaches nodes.now (goal_of goal.now) done lines.now) }
{
    let mut number = 1;
    for (place, line) in lines.iter().enumerate() {
        if line_reaches(alloc, nodes, goal, done, &lines[..place], number, line)? {
            return Ok(true);
        }
        number = number_after(number, line);
    }
    Ok(false)
}
