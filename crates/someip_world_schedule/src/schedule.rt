//! Schedules: one step a line.
//!
//! ```text
//! # The clock goes on, a client calls, and the server answers.
//! tick server 100
//! call client 1234.0001 0421 12ff
//! deliver 1 server
//! answer server 1 00 aa*4
//! ```
//!
//! A line ends at byte 0a or at the text's end, and its words are parted by one space (byte 20). Empty
//! lines, and lines of UTF-8 that begin with `#`, are skipped. [`Step`] tells the forms of the others.
//! In these
//!
//! - NODE is one to 16 letters from `a` to `z` and digits;
//! - SI is `SERVICE.INSTANCE`, each of four hex digits, as METHOD, EVENT and GROUP; CODE has two;
//! - numbers are decimal, below 2^64, without a sign or leading zeros;
//! - EP is `A.B.C.D:PORT`; a PORT of its own is from 1 to 65535;
//! - PAYLOAD is pairs of hex digits, `-` for none, or `HH*N` for N times one byte, N at most 1048576.
ghost use Rattle.std.specs.Prelude.{◌≡◌, Some, None, IfErr, IfOk, OnOk, IsOk, [], map};
ghost use Rattle.someip_world_schedule.specs.Schedule.{IsFoundOf, RefusesSchedule, first_bad};
ghost use Rattle.someip_world_schedule.specs.Schedule.{lines_of_steps, steps_of};

use crate::error::ScheduleError;
use crate::{Step, WordFault, step_of_line};
use someip_texts::{is_left_out, text_of};
use std::alloc::Global;

/// The steps of a schedule, and the lines on which they stand.
#[derive(Drop)]
pub struct NumberedSteps {
    /// The steps, in order.
    pub steps: Vec<Step>,
    /// The number of the line of each. Lines count from 1, skipped ones too.
    pub lines: Vec<usize>,
}

/// Reads a schedule: the steps of its lines, in order. Lines count from 1, skipped ones too.
///
/// Its time grows with the length of the text alone, however often `HH*N` repeats a byte.
pub fn read_schedule(alloc: Global, text: &[u8]) -> Result<Vec<Step>, ScheduleError>
    // The steps are those that the lines spell, in order, and no line is bad.
    ensures found { IfOk result (λ steps. map (λ s. Some s) steps.items ≡ steps_of text.now) }
    ensures only { OnOk result (first_bad text.now ≡ None) }

    // The error names the first bad line.
    ensures fault { IfErr result (RefusesSchedule text.now) }

    // A text with no line to read needs no memory.
    ensures idle { steps_of text.now ≡ [] → IsOk result }
{
    let read = read_numbered_schedule(alloc, text)?;
    Ok(read.steps)
}

/// The same, with the number of the line on which each step stands.
pub fn read_numbered_schedule(alloc: Global, text: &[u8]) -> Result<NumberedSteps, ScheduleError>
    ensures found { IfOk result (λ read. map (λ s. Some s) read.steps.items ≡ steps_of text.now) }
    ensures lines { IfOk result (λ read. read.lines.items ≡ lines_of_steps text.now) }
    ensures only { OnOk result (first_bad text.now ≡ None) }
    ensures fault { IfErr result (RefusesSchedule text.now) }
    ensures idle { steps_of text.now ≡ [] → IsOk result }
{
    let mut steps = Vec::new(alloc);
    let mut lines = Vec::new(alloc);
    for (i, line) in text.split(|b| *b == b'\n').enumerate() {
        let step = match step_of(alloc, line) {
            Ok(Some(step)) => step,
            Ok(None) => continue,
            Err(WordFault::Bad) => return Err(ScheduleError::BadLine(i + 1)),
            Err(WordFault::OutOfMemory) => return Err(ScheduleError::OutOfMemory),
        };
        steps.push(step)?;
        lines.push(i + 1)?;
    }
    Ok(NumberedSteps { steps, lines })
}

/// The step that a line spells, if it is not skipped.
fn step_of(alloc: Global, line: &[u8]) -> Result<Option<Step>, WordFault>
    ensures { IsFoundOf line.now result }
{
    let Some(text) = text_of(line) else {
        return Err(WordFault::Bad);
    };
    if is_left_out(line) {
        return Ok(None);
    }
    let step = step_of_line(alloc, text)?;
    Ok(Some(step))
}
