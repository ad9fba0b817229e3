//! Moves: the steps by which a schedule may go on.
ghost use Rattle.std.specs.Prelude.{◌≡◌, ◌++◌, IfOk, OnOk};
ghost use Rattle.std.specs.List.{flat_map};
ghost use Rattle.someip_explore.specs.Moves.{stands_for};

use crate::answers::put_answers;
use crate::deliveries::{put_all_deliveries, put_deliveries};
use crate::numbers::next_number;
use crate::plain_move::PlainMove;
use someip_world::{Line, NodeName, SetupNode, Step};
use std::alloc::{AllocError, Global};

/// By which steps a schedule may go on.
#[derive(Drop)]
pub enum Move {
    /// By this step.
    Plain(PlainMove),
    /// By the delivery of each datagram that was sent so far to a node, by rising number:
    /// `deliver * NODE`.
    DeliverAnyTo(NodeName),
    /// By the delivery of each datagram that was sent so far, by rising number, to each node that it may be
    /// delivered to and that is no liar, in the order of the setup:
    /// `deliver * *`.
    DeliverAny,
    /// By this answer to each request that its node handed up with a token since it was last restarted,
    /// answered ones too, in the order of the tokens:
    /// `answer NODE * CODE PAYLOAD` or `error NODE * CODE PAYLOAD`. The token that it has here is 0.
    AnswerAny(PlainMove),
}

/// Adds the steps for which a move stands after some steps, of which these lines tell.
fn put_steps(
    alloc: Global,
    nodes: &[SetupNode],
    steps: &[Step],
    lines: &[Line],
    one: &Move,
    choices: &mut Vec<Step>,
) -> Result<(), AllocError>
    ensures { OnOk result (choices.new.items
        ≡ choices.old.items ++ stands_for nodes.now steps.now lines.now one.now) }
{
    match one {
        Move::Plain(step) => {
            choices.push(step.copy(alloc)?)?;
            Ok(())
        }
        Move::DeliverAnyTo(node) => put_deliveries(alloc, next_number(lines) - 1, node, choices),
        Move::DeliverAny => put_all_deliveries(alloc, nodes, lines, choices),
        Move::AnswerAny(answer) => put_answers(alloc, nodes, steps, lines, answer, choices),
    }
}

/// The steps for which moves stand after some steps, of which these lines tell, in the order of the moves.
pub(crate) fn steps_after(
    alloc: Global,
    nodes: &[SetupNode],
    steps: &[Step],
    lines: &[Line],
    moves: &[Move],
) -> Result<Vec<Step>, AllocError>
    ensures { IfOk result (λ found. found.items
        ≡ flat_map (stands_for nodes.now steps.now lines.now) moves.now) }
{
    let mut choices = Vec::new(alloc);
    for one in moves {
        put_steps(alloc, nodes, steps, lines, one, &mut choices)?;
    }
    Ok(choices)
}
