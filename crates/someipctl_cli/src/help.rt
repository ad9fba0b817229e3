//! The answer to words that give no command.
ghost use Rattle.someipctl_cli.specs.Failures.{Answers};

use crate::failure::Failure;
use someipctl_io::{CannotWrite, Outcome, write_text};
use someipctl_words::LineError;
use std::io::Write;

/// Prints the help that was asked for. Other words without a command are a failure, and nothing is
/// printed.
pub fn answer_error<W: Write>(error: LineError, writer: &mut W) -> Result<Outcome, Failure<'static>>
    ensures { Answers error result (W.contents writer.old) (W.contents writer.new) }
{
    match error {
        LineError::Help(text) => match write_text(writer, text.as_bytes()) {
            Ok(()) => Ok(Outcome::Done),
            Err(CannotWrite) => Err(Failure::CannotWrite),
        },
        LineError::Usage(error) => Err(Failure::Usage(error)),
        LineError::OutOfMemory => Err(Failure::OutOfMemory),
    }
}
