//! The goal that texts spell.
ghost use Rattle.std.specs.Prelude.{◌≡◌, None, IfErr, IfOk, OnOk, map, string_bytes};
ghost use Rattle.someip_world_schedule.specs.Steps.{words_in};
ghost use Rattle.someip_explore.specs.GoalViews.{goal_of, words_of};
ghost use Rattle.someipctl_explore.specs.GoalTexts.{RefusesGoal, begins_verdict, fault_of_goal, first_fault};
ghost use Rattle.someipctl_explore.specs.GoalTexts.{goal_fault, goal_in, is_told, is_verdict, texts_at};
ghost use Rattle.someipctl_explore.specs.GoalTexts.{unknown_fault, words_fault};

use crate::error::GoalRefusal;
use someip_explore::Goal;
use someip_world::SetupNode;
use someip_world_rules::place_of;
use someipctl_io::Fault;
use std::alloc::{AllocError, Global};

/// The goal that texts spell, over the nodes of a setup: words with single spaces between. The first that can
/// stand in no trace is told: those of the goal come first, then those of `once`, then those of `never`.
pub fn goal_in(
    alloc: Global,
    nodes: &[SetupNode],
    words: &str,
    once: &[&str],
    never: &[&str],
) -> Result<Goal, Fault<GoalRefusal>>
    // Its words are those of the texts, and each may stand in a trace.
    ensures said { IfOk result (λ goal. goal_of goal ≡ goal_in words.now (texts_at once.now) (texts_at never.now)) }
    ensures known { OnOk result (fault_of_goal nodes.now
        (goal_in words.now (texts_at once.now) (texts_at never.now)) ≡ None) }
    // An error tells the first that may not.
    ensures refused { IfErr result (RefusesGoal nodes.now
        (goal_in words.now (texts_at once.now) (texts_at never.now))) }
{
    let goal = Goal {
        words: words_of(alloc, words)?,
        once: words_of_each(alloc, once)?,
        never: words_of_each(alloc, never)?,
    };
    match fault_of_goal(nodes, &goal) {
        Some(fault) => Err(Fault::Refused(fault)),
        None => Ok(goal),
    }
}

/// The words of a text, where they lie.
fn parts_of<'t>(alloc: Global, text: &'t str) -> Result<Vec<&'t str>, AllocError>
    ensures { IfOk result (λ words. texts_at words.items ≡ words_in text.now) }
{
    text.split(' ').collect(alloc)
}

/// The words of a text.
fn words_of(alloc: Global, text: &str) -> Result<Vec<String>, AllocError>
    ensures { IfOk result (λ words. words_of words ≡ words_in text.now) }
{
    let parts = parts_of(alloc, text)?;
    let mut words = Vec::new(alloc);
    for part in parts.as_slice() {
        let word = String::from_str(alloc, part)?;
        words.push(word)?;
    }
    Ok(words)
}

/// The words of each text.
fn words_of_each(alloc: Global, texts: &[&str]) -> Result<Vec<Vec<String>>, AllocError>
    ensures { IfOk result (λ all. map words_of all.items ≡ map words_in (texts_at texts.now)) }
{
    let mut all = Vec::new(alloc);
    for text in texts {
        let words = words_of(alloc, text)?;
        all.push(words)?;
    }
    Ok(all)
}

/// Whether a line of a trace may tell so.
fn is_told(word: &str) -> bool
    ensures { result ≡ is_told word.now }
{
    matches!(
        word,
        "sent"
            | "call"
            | "request"
            | "answer"
            | "timeout"
            | "event"
            | "known"
            | "gone"
            | "subscribed"
            | "unsubscribed"
            | "accepted"
            | "nacked"
            | "reboot"
            | "dropped"
            | "refused"
    )
}

/// Whether a verdict tells so.
fn is_verdict(word: &str) -> bool
    ensures { result ≡ is_verdict word.now }
{
    word == "clean" || word == "broken"
}

/// What is wrong with words of which the first is no node.
fn unknown_fault(name: &str, others: &[String]) -> GoalRefusal
    ensures { result ≡ unknown_fault name.now (map string_bytes others.now) }
{
    match others {
        [word, ..] if name == "reuse" && !is_verdict(word.as_str()) => GoalRefusal::UnknownWord,
        _ => GoalRefusal::UnknownNode,
    }
}

/// Why no line of a trace over these nodes begins with some words.
fn words_fault(nodes: &[SetupNode], words: &[String]) -> Option<GoalRefusal>
    ensures { result ≡ words_fault nodes.now (map string_bytes words.now) }
{
    let [name, others @ ..] = words else {
        return None;
    };
    if place_of(nodes, name.as_str()).is_none() {
        return Some(unknown_fault(name.as_str(), others));
    }
    match others {
        [word, ..] if !is_told(word.as_str()) => Some(GoalRefusal::UnknownWord),
        _ => None,
    }
}

/// Whether the line of a verdict may begin with some words.
fn begins_verdict(words: &[String]) -> bool
    ensures { result ≡ begins_verdict (map string_bytes words.now) }
{
    let [name, others @ ..] = words else {
        return false;
    };
    let [word, ..] = others else {
        return name.as_str() == "reuse";
    };
    name.as_str() == "reuse" && is_verdict(word.as_str())
}

/// Why no line begins with the words of a goal, that of the verdict too.
fn goal_fault(nodes: &[SetupNode], words: &[String]) -> Option<GoalRefusal>
    ensures { result ≡ goal_fault nodes.now (map string_bytes words.now) }
{
    if begins_verdict(words) {
        return None;
    }
    words_fault(nodes, words)
}

/// The first fault of all these words.
fn first_fault(nodes: &[SetupNode], all: &[Vec<String>]) -> Option<GoalRefusal>
    ensures { result ≡ first_fault nodes.now (map words_of all.now) }
{
    for words in all {
        if let Some(fault) = words_fault(nodes, words.as_slice()) {
            return Some(fault);
        }
    }
    None
}

/// The first fault of a goal.
fn fault_of_goal(nodes: &[SetupNode], goal: &Goal) -> Option<GoalRefusal>
    ensures { result ≡ fault_of_goal nodes.now (goal_of goal.now) }
{
    if let Some(fault) = goal_fault(nodes, goal.words.as_slice()) {
        return Some(fault);
    }
    if let Some(fault) = first_fault(nodes, goal.once.as_slice()) {
        return Some(fault);
    }
    first_fault(nodes, goal.never.as_slice())
}
