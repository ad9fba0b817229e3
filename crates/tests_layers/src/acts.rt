//! Rows of a layer: acts, and what each of them answers.
//!
//! A table is a text. A line is an act: a moment in milliseconds, where the layer knows time, a verb, its numbers or a
//! text, and after ` -> ` the answer, if there is one. A new subject stands at the head of each table. Empty lines
//! and lines that begin with `#` are skipped.
use std::alloc::{AllocError, Global};
use std::fmt;
use std::fmt::{Debug, Write};

/// What acts are done with.
pub(crate) trait Subject: Drop {
    /// A new one, with which no act was done yet.
    fn make(alloc: Global) -> Result<Self, AllocError>;

    /// Does an act, and writes down its answer.
    fn perform(&mut self, act: &Act<'_>, told: &mut Told) -> fmt::Result;
}

/// An act, as a line says it.
#[derive(Clone, Copy)]
pub(crate) struct Act<'a> {
    /// The moment, in milliseconds.
    pub(crate) at: u64,
    pub(crate) verb: &'a str,
    /// What stands behind the verb.
    pub(crate) rest: &'a str,
    numbers: [u64; 8],
    /// What is answered.
    pub(crate) wanted: &'a str,
}

impl<'a> Act<'a> {
    /// The act of a line, if it has one.
    pub(crate) fn read(line: &'a str) -> Option<Act<'a>> {
        if line.is_empty() || line.starts_with('#') {
            return None;
        }
        let (said, wanted) = line.split_once(" -> ").unwrap_or((line, ""));
        let (at, said) = timed(said);
        let (verb, rest) = said.split_once(' ').unwrap_or((said, ""));
        let mut numbers = [0; 8];
        for (place, word) in numbers.iter_mut().zip(rest.split_whitespace()) {
            *place = number(word);
        }
        Some(Act {
            at,
            verb,
            rest,
            numbers,
            wanted,
        })
    }

    /// The number at a place, or 0.
    pub(crate) fn long(&self, place: usize) -> u64 {
        self.numbers.get(place).copied().unwrap_or(0)
    }

    /// The same of 32 bits.
    pub(crate) fn word(&self, place: usize) -> u32 {
        u32::try_from(self.long(place)).unwrap_or(0)
    }

    /// The same of 16 bits.
    pub(crate) fn short(&self, place: usize) -> u16 {
        u16::try_from(self.long(place)).unwrap_or(0)
    }

    /// The same of eight bits.
    pub(crate) fn byte(&self, place: usize) -> u8 {
        u8::try_from(self.long(place)).unwrap_or(0)
    }

    /// Whether it is 1.
    pub(crate) fn is(&self, place: usize) -> bool {
        self.long(place) == 1
    }
}

/// The moment at the head of a line, or 0, and the rest.
fn timed(said: &str) -> (u64, &str) {
    match said.split_once(' ') {
        Some((first, rest)) => match first.parse::<u64>() {
            Ok(at) => (at, rest),
            Err(_) => (0, said),
        },
        None => (0, said),
    }
}

/// The number that a word writes, in hex digits after `0x`, or 0.
fn number(word: &str) -> u64 {
    match word.strip_prefix("0x") {
        Some(digits) => u64::from_str_radix(digits, 16).unwrap_or(0),
        None => word.parse::<u64>().unwrap_or(0),
    }
}

/// So many bytes of an answer find room.
const ROOM: usize = 20_000;

/// The text of an answer, in room that never grows.
#[derive(Drop)]
pub(crate) struct Told {
    text: Vec<u8>,
}

impl Told {
    /// No answer yet, with room for one.
    pub(crate) fn new(alloc: Global) -> Result<Told, AllocError> {
        Ok(Told {
            text: Vec::with_capacity(alloc, ROOM)?,
        })
    }

    pub(crate) fn clear(&mut self) {
        self.text.clear();
    }

    pub(crate) fn bytes(&self) -> &[u8] {
        &self.text
    }

    /// Whether it is a refusal that says that memory ran out.
    pub(crate) fn is_of_memory(&self) -> bool {
        matches!(self.bytes(), b"OutOfMemory" | b"AllocError")
    }
}

impl fmt::Write for Told {
    fn write_str(&mut self, text: &str) -> fmt::Result {
        let has_room = ROOM.saturating_sub(self.text.len()) >= text.len();
        if has_room && self.text.extend_from_slice(text.as_bytes()).is_ok() {
            Ok(())
        } else {
            Err(fmt::Error)
        }
    }
}

/// Writes down what a call answered.
pub(crate) fn tell<T: Debug, E: Debug>(told: &mut Told, outcome: &Result<T, E>) -> fmt::Result {
    match outcome {
        Ok(value) => write!(told, "{value:?}"),
        Err(refusal) => write!(told, "{refusal:?}"),
    }
}

/// Writes down a refusal, and nothing of a call that succeeded.
pub(crate) fn tell_refusal<T, E: Debug>(told: &mut Told, outcome: &Result<T, E>) -> fmt::Result {
    match outcome {
        Ok(_) => Ok(()),
        Err(refusal) => write!(told, "{refusal:?}"),
    }
}

/// Writes down bytes in hex digits.
pub(crate) fn tell_bytes(told: &mut Told, bytes: &[u8]) -> fmt::Result {
    for byte in bytes {
        write!(told, "{byte:02x}")?;
    }
    Ok(())
}
