//! The lines of a file of vectors.
//!
//! ```text
//! # a comment, and then a vector of each kind
//! datagram -
//! > 1 empty
//! payload array<2,u16> 0000000400010002
//! > value [1,2]
//! > used 8 of 8
//! ```
//!
//! A line that is left out is as if it were not there, so `> ` lines after an empty line or a comment
//! belong to the vector before.
//!
//! A carriage return is a character like any other. A line that begins with `> ` is expected text with it,
//! and differs from what is printed, which has none; a vector with one has no HEX, and is bad.
ghost use Rattle.std.specs.Prelude.{◌≡◌, ◌++◌, ◌≤◌, List, ℕ, Err, IfOk, Some, None, MatchOption, ◌≢◌};
ghost use Rattle.someipctl_show.specs.declared.vector_lines.LineFault.TheVariants.{Bad, OutOfMemory};
ghost use Rattle.someip_payload_values.specs.Check.{depth};
ghost use Rattle.someip_payload_values.specs.Data.{Form};
ghost use Rattle.someip_payload_values.specs.View.{form};
ghost use Rattle.someipctl_show.specs.Payload.{argument_bytes};
ghost use Rattle.someipctl_show.specs.VectorLines.{AreArguments, AsksNothing, IsFoundOf, Says};
ghost use Rattle.someipctl_show.specs.VectorLines.{asked_by, asks, fault_of_shape};

use crate::payload::bytes_of_argument;
use someip_payload::{Shape, ShapeTextError, read_shape};
use someip_texts::is_left_out;
use std::alloc::{AllocError, Global};
use std::str;
use thiserror::Error;

/// What a vector asks for.
#[derive(Drop)]
pub enum Question {
    /// The text that `show` has for this datagram, where it is the first of a capture.
    Datagram(Vec<u8>),
    /// The text that `payload` has for these bytes by a shape.
    Payload(Shape, Vec<u8>),
}

/// What a line says that is not left out.
#[derive(Drop)]
pub enum VectorLine<'t> {
    /// It begins a vector.
    Asks(Question),
    /// It is a line of the text that the vector before it expects.
    Expects(&'t str),
}

/// Why a line was not read.
#[derive(Clone, Copy, Debug, PartialEq, Eq, Error)]
pub enum LineFault {
    /// It says nothing that a file of vectors can say.
    #[error("bad vector")]
    Bad,
    /// Memory ran out.
    #[error("out of memory")]
    OutOfMemory,
}

/// What a line says. Empty lines and comments, which begin with `#`, say nothing.
pub fn line_of<'t>(alloc: Global, line: &'t [u8]) -> Result<Option<VectorLine<'t>>, LineFault>
    ensures { IsFoundOf line.now result }
{
    let Ok(text) = str::from_utf8(line) else {
        return Err(LineFault::Bad);
    };
    if is_left_out(line) {
        return Ok(None);
    }
    if let Some(expected) = behind(text, "> ") {
        return Ok(Some(VectorLine::Expects(expected)));
    }
    let question = question_of(alloc, text)?;
    Ok(Some(VectorLine::Asks(question)))
}

/// The text after a word, where a line begins with that.
fn behind<'t>(line: &'t str, word: &str) -> Option<&'t str>
    ensures { MatchOption result ((rest : List ℕ) → line.now ≢ word.now ++ rest)
        (λ rest. line.now ≡ word.now ++ rest.now) }
{
    line.strip_prefix(word)
}

/// What the first line of a vector asks for.
fn question_of(alloc: Global, line: &str) -> Result<Question, LineFault>
    ensures found { IfOk result (λ question. Says line.now (asks (asked_by question))) }
    ensures bad { result ≡ Err Bad → AsksNothing line.now }
{
    if let Some(hex) = behind(line, "datagram ") {
        return Ok(Question::Datagram(bytes_of_hex(alloc, hex)?));
    }
    let Some(arguments) = behind(line, "payload ") else {
        return Err(LineFault::Bad);
    };
    let (shape, bytes) = payload_arguments(alloc, arguments)?;
    Ok(Question::Payload(shape, bytes))
}

/// The shape and the bytes that `SHAPE HEX` says.
fn payload_arguments(alloc: Global, arguments: &str) -> Result<(Shape, Vec<u8>), LineFault>
    ensures found { IfOk result (λ r. AreArguments arguments.now (form r.0) r.1.items) }
    ensures bad { result ≡ Err Bad → (shape : Form) (bytes : List ℕ) → depth shape ≤ 64
        → AreArguments arguments.now shape bytes → ⊥ }
{
    let Some((shape, hex)) = arguments.split_once(' ') else {
        return Err(LineFault::Bad);
    };
    let shape = read_shape(alloc, shape)?;
    let bytes = bytes_of_hex(alloc, hex)?;
    Ok((shape, bytes))
}

/// The bytes that HEX says.
fn bytes_of_hex(alloc: Global, hex: &str) -> Result<Vec<u8>, LineFault>
    ensures found { IfOk result (λ bytes. argument_bytes hex.now ≡ Some bytes.items) }
    ensures bad { result ≡ Err Bad → argument_bytes hex.now ≡ None }
{
    match bytes_of_argument(alloc, hex)? {
        Some(bytes) => Ok(bytes),
        None => Err(LineFault::Bad),
    }
}

impl From<AllocError> for LineFault {
    ghost from_gives = { λ _ e. e ≡ OutOfMemory };

    fn from(_error: AllocError) -> LineFault {
        LineFault::OutOfMemory
    }
}

impl From<ShapeTextError> for LineFault {
    ghost from_gives = { λ error e. e ≡ fault_of_shape error };

    fn from(error: ShapeTextError) -> LineFault {
        match error {
            ShapeTextError::BadShape(_) => LineFault::Bad,
            ShapeTextError::OutOfMemory => LineFault::OutOfMemory,
        }
    }
}
