//! Why moves or a goal are refused.

use someip_world::StepFault;
use thiserror::Error;

/// Why a text has no moves for the nodes of a setup.
#[derive(Clone, Copy, Debug, PartialEq, Eq, Error)]
pub enum MovesRefusal {
    /// The line of this number, counted from 1, is not left out and spells no move.
    #[error("line {0}: bad move")]
    BadLine(usize),
    /// No line spells a move.
    #[error("no move")]
    NoMove,
    /// The move of the line of this number can't happen over the nodes of the setup.
    #[error("line {0}: {1}")]
    Misfit(usize, StepFault),
}

/// Why the words of a goal can stand in no trace.
#[derive(Clone, Copy, Debug, PartialEq, Eq, Error)]
pub enum GoalRefusal {
    /// The first word is no node of the setup, and the words are none of a verdict where one may stand.
    #[error("goal: UnknownNode")]
    UnknownNode,
    /// The second word is none that a line of a trace has there, or a verdict where `reuse` is the first.
    #[error("goal: UnknownWord")]
    UnknownWord,
}
