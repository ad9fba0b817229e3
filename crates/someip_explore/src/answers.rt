//! The answers to what was handed up.
ghost use Rattle.std.specs.Prelude.{◌≡◌, ◌++◌, IfOk, OnOk};
ghost use Rattle.std.specs.List.{flat_map, list_any};
ghost use Rattle.someip_world_schedule.specs.StepNodes.{node_of};
ghost use Rattle.someip_explore.specs.Moves.{answer_to, lives_on, present_token, restarts, told_token, with_token};

use crate::plain_move::PlainMove;
use crate::words::node_name;
use someip_node_rules::Output;
use someip_world::{Line, SetupNode, Step, Told};
use std::alloc::{AllocError, Global};

/// Whether a step restarts the node of a name.
fn restarts(name: &str, step: &Step) -> bool
    ensures { result ≡ restarts name.now step.now }
{
    match step {
        Step::Restart { node, .. } => node.as_str() == name,
        _ => false,
    }
}

/// Whether one of some steps restarts the node of a name.
fn one_restarts(name: &str, steps: &[Step]) -> bool
    ensures { result ≡ list_any (restarts name.now) steps.now }
{
    for step in steps {
        if restarts(name, step) {
            return true;
        }
    }
    false
}

/// Whether the node of a name lives on behind the step of an index, counted from 1: none restarts it.
fn lives_on(steps: &[Step], name: &str, index: usize) -> bool
    ensures { result ≡ lives_on steps.now name.now index }
{
    match steps.get(index..) {
        Some(later) => !one_restarts(name, later),
        None => true,
    }
}

/// The token under which a request is handed up.
fn told_token(told: &Told) -> Option<u64>
    ensures { result ≡ told_token told.now }
{
    match told {
        Told::Gave(Output::Request { token, .. }) => *token,
        _ => None,
    }
}

/// The token that a line hands up at the node of a name, in the present life of that.
fn present_token(nodes: &[SetupNode], steps: &[Step], name: &str, line: &Line) -> Option<u64>
    ensures { result ≡ present_token nodes.now steps.now name.now line.now }
{
    if node_name(nodes, line.node) == name && lives_on(steps, name, line.step) {
        told_token(&line.told)
    } else {
        None
    }
}

/// An answer, given to another token.
fn with_token(token: u64, answer: Step) -> Step
    ensures { result ≡ with_token token answer }
{
    match answer {
        Step::Answer {
            node,
            reply,
            payload,
            ..
        } => Step::Answer {
            node,
            token,
            reply,
            payload,
        },
        other => other,
    }
}

/// Adds an answer to a token, if there is one.
fn put_answer(
    alloc: Global,
    answer: &PlainMove,
    token: Option<u64>,
    choices: &mut Vec<Step>,
) -> Result<(), AllocError>
    ensures { OnOk result (choices.new.items ≡ choices.old.items ++ answer_to answer.now token) }
{
    match token {
        Some(token) => {
            let step = answer.copy(alloc)?;
            choices.push(with_token(token, step))?;
            Ok(())
        }
        None => Ok(()),
    }
}

/// Adds an answer to the token that a line hands up at its node, in the present life of that.
fn put_answer_in(
    alloc: Global,
    nodes: &[SetupNode],
    steps: &[Step],
    line: &Line,
    answer: &PlainMove,
    choices: &mut Vec<Step>,
) -> Result<(), AllocError>
    ensures { OnOk result (choices.new.items ≡ choices.old.items ++ answer_to answer.now
        (present_token nodes.now steps.now (node_of answer.now) line.now)) }
{
    let token = present_token(nodes, steps, answer.step().node().as_str(), line);
    put_answer(alloc, answer, token, choices)
}

/// Adds an answer to each token that lines hand up at its node, in the present life of that.
pub(crate) fn put_answers(
    alloc: Global,
    nodes: &[SetupNode],
    steps: &[Step],
    lines: &[Line],
    answer: &PlainMove,
    choices: &mut Vec<Step>,
) -> Result<(), AllocError>
    ensures { OnOk result (choices.new.items ≡ choices.old.items ++ flat_map (λ line. answer_to answer.now
        (present_token nodes.now steps.now (node_of answer.now) line)) lines.now) }
{
    for line in lines {
        put_answer_in(alloc, nodes, steps, line, answer, choices)?;
    }
    Ok(())
}
