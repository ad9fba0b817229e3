//! Reading moves.
ghost use Rattle.std.specs.Prelude.{◌≡◌, Some, None, IfErr, IfOk, OnOk, map};
ghost use Rattle.someip_world_schedule.specs.Schedule.{lines_of_steps};
ghost use Rattle.someipctl_run.specs.Commands.{OfInput};
ghost use Rattle.someipctl_explore.specs.MovesTexts.{AreMovesOf, IsMoveOf, RefusesInputMoves, RefusesLines, RefusesMoves};
ghost use Rattle.someipctl_explore.specs.MovesTexts.{first_bad_move, first_misfit, moves_of};

use crate::error::MovesRefusal;
use someip_explore::Move;
use someip_texts::{is_left_out, text_of};
use someip_world::{SetupNode, StepFault};
use someip_world_schedule::WordFault;
use someipctl_io::{Fault, read_all};
use std::alloc::Global;
use std::io::Read;

/// The moves of a text, and the lines on which they stand.
#[derive(Drop)]
struct NumberedMoves {
    /// The moves, in order.
    moves: Vec<Move>,
    /// The number of the line of each. Lines count from 1, those that are left out too.
    lines: Vec<usize>,
}

/// Reads a file of moves whole, over the nodes of a setup: one move a line, lines left out as in schedules.
/// Whatever is wrong with a line is told before it is looked whether there are moves, and whether they can
/// happen.
pub fn read_moves<R: Read>(
    alloc: Global,
    nodes: &[SetupNode],
    reader: &mut R,
) -> Result<Vec<Move>, Fault<MovesRefusal>>
    // They are those that the lines spell, in order; no line is bad; and each fits the setup.
    ensures said { IfOk result (λ moves. OfInput (R.remaining reader.old) (AreMovesOf nodes.now moves.items)) }
    // An error names the first bad line, or says that there is no move, or names the first that does not fit.
    ensures refused { IfErr result (RefusesInputMoves nodes.now (R.remaining reader.old)) }
{
    let text = read_all(alloc, reader)?;
    moves_of(alloc, nodes, &text)
}

/// The moves of a text.
fn moves_of(
    alloc: Global,
    nodes: &[SetupNode],
    text: &[u8],
) -> Result<Vec<Move>, Fault<MovesRefusal>>
    ensures said { IfOk result (λ moves. AreMovesOf nodes.now moves.items text.now) }
    ensures refused { IfErr result (RefusesMoves nodes.now text.now) }
{
    let read = numbered_moves(alloc, text)?;
    if read.moves.is_empty() {
        return Err(Fault::Refused(MovesRefusal::NoMove));
    }
    match first_misfit(nodes, &read.moves, &read.lines) {
        Some((line, fault)) => Err(Fault::Refused(MovesRefusal::Misfit(line, fault))),
        None => Ok(read.moves),
    }
}

/// Reads moves, with the number of the line on which each stands.
fn numbered_moves(alloc: Global, text: &[u8]) -> Result<NumberedMoves, Fault<MovesRefusal>>
    ensures found { IfOk result (λ read. map (λ m. Some m) read.moves.items ≡ moves_of text.now) }
    ensures lines { IfOk result (λ read. read.lines.items ≡ lines_of_steps text.now) }
    ensures only { OnOk result (first_bad_move text.now ≡ None) }
    ensures fault { IfErr result (RefusesLines text.now) }
{
    let mut moves = Vec::new(alloc);
    let mut lines = Vec::new(alloc);
    for (i, line) in text.split(|b| *b == b'\n').enumerate() {
        let one = match move_of(alloc, line) {
            Ok(Some(one)) => one,
            Ok(None) => continue,
            Err(WordFault::Bad) => return Err(Fault::Refused(MovesRefusal::BadLine(i + 1))),
            Err(WordFault::OutOfMemory) => return Err(Fault::OutOfMemory),
        };
        moves.push(one)?;
        lines.push(i + 1)?;
    }
    Ok(NumberedMoves { moves, lines })
}

/// The move that a line spells, if it is not left out.
fn move_of(alloc: Global, line: &[u8]) -> Result<Option<Move>, WordFault>
    ensures { IsMoveOf line.now result }
{
    let Some(text) = text_of(line) else {
        return Err(WordFault::Bad);
    };
    if is_left_out(line) {
        return Ok(None);
    }
    let one = Move::read(alloc, text)?;
    Ok(Some(one))
}

/// The first of some moves that can't happen over the nodes of a setup, with the line on which it stands.
fn first_misfit(nodes: &[SetupNode], moves: &[Move], lines: &[usize]) -> Option<(usize, StepFault)>
    ensures { result ≡ first_misfit nodes.now moves.now lines.now }
{
    let mut left = moves;
    let mut numbers = lines;
    while let [one, others @ ..] = left {
        let [line, more @ ..] = numbers else {
            return None;
        };
        if let Some(fault) = one.misfit(nodes) {
            return Some((*line, fault));
        }
        left = others;
        numbers = more;
    }
    None
}
