//! Captures: one datagram a line, in hex.
//!
//! ```text
//! # a comment, two datagrams of two bytes, and an empty one
//! 12ff
//! 12 f F
//! -
//! ```
//!
//! A comment begins with `#` as the line's first byte, before spaces are left out: ` #` is bad hex. A
//! comment may hold any bytes.
//!
//! Lines count from 1, skipped ones too, so that an editor finds the line.
ghost use Rattle.std.specs.Prelude.{◌≡◌, ◌==◌, [], None, Some, map};
ghost use Rattle.std.specs.Prelude.{IfErr, IfOk, IsOk, OnOk};
ghost use Rattle.std.specs.List.{list_all};
ghost use Rattle.std.specs.Option.{option_map};
ghost use Rattle.std.specs.Result.{result_ok};
ghost use Rattle.hex.specs.Hex.{decode_of};
ghost use Rattle.someipctl_show.specs.Capture.{bytes_of, captured_datagrams, first_bad, RefusesCapture};
ghost use Rattle.someipctl_show.specs.Capture.{is_skipped, without_blanks};

use hex::FromHexError;
use someipctl_io::Fault;
use std::alloc::{AllocError, Global};
use thiserror::Error;

/// The line of this number, counted from 1, of a capture says no bytes.
#[derive(Clone, Copy, Debug, PartialEq, Eq, Error)]
#[error("line {0}: bad hex")]
pub struct BadCaptureLine(pub usize);

/// Reads a capture: the bytes of one datagram a line, in hex of either case. `-` is the empty
/// datagram, spaces are ignored, and empty lines and lines that begin with `#` are skipped.
///
/// Beside the datagrams it holds at most one line's digits at a time, so that a capture of many
/// lines needs little more than what it says.
pub fn read_capture(alloc: Global, text: &[u8]) -> Result<Vec<Vec<u8>>, Fault<BadCaptureLine>>
    // The datagrams are what the lines say, in order, and no line is bad.
    ensures found { IfOk result (λ datagrams.
        map (λ d. Some d.items) datagrams.items ≡ captured_datagrams text.now) }
    ensures only { OnOk result (first_bad text.now ≡ None) }

    // The error names the first bad line, or says that memory ran out.
    ensures fault { IfErr result (RefusesCapture text.now) }

    // A text with no line to read needs no memory.
    ensures idle { captured_datagrams text.now ≡ [] → IsOk result }
{
    let mut datagrams = Vec::new(alloc);
    let mut digits = Vec::new(alloc);
    for (i, line) in text.split(|b| *b == b'\n').enumerate() {
        if says_nothing(line) {
            continue;
        }
        match datagram_of(alloc, line, &mut digits)? {
            Some(bytes) => datagrams.push(bytes)?,
            None => return Err(Fault::Refused(BadCaptureLine(i + 1))),
        }
    }
    Ok(datagrams)
}

/// Whether a line is left out: it has only spaces, or is a comment.
fn says_nothing(line: &[u8]) -> bool
    ensures { result ≡ is_skipped line.now }
{
    line.starts_with(b"#") || is_blank(line)
}

fn is_blank(line: &[u8]) -> bool
    ensures { result ≡ list_all (λ b. b == 0x20) line.now }
{
    line.iter().all(|b| *b == b' ')
}

/// The bytes that a line says, if it says any. A line is first decoded as it stands, which is all
/// that one without spaces needs. `digits` is room for the digits of the others.
fn datagram_of(
    alloc: Global,
    line: &[u8],
    digits: &mut Vec<u8>,
) -> Result<Option<Vec<u8>>, AllocError>
    ensures { IfOk result (λ found. option_map (λ bytes. bytes.items) found ≡ bytes_of line.now) }
{
    if let Some(bytes) = decoded(alloc, line)? {
        return Ok(Some(bytes));
    }
    copy_digits(line, digits)?;
    if let [b'-'] = digits.as_slice() {
        return Ok(Some(Vec::new(alloc)));
    }
    decoded(alloc, digits.as_slice())
}

fn decoded(alloc: Global, digits: &[u8]) -> Result<Option<Vec<u8>>, AllocError>
    ensures { IfOk result (λ found.
        option_map (λ bytes. bytes.items) found ≡ result_ok (decode_of digits.now)) }
{
    match hex::decode(alloc, digits) {
        Ok(bytes) => Ok(Some(bytes)),
        Err(FromHexError::OutOfMemory) => Err(AllocError),
        Err(_) => Ok(None),
    }
}

/// Leaves in `digits` the line without its spaces.
fn copy_digits(line: &[u8], digits: &mut Vec<u8>) -> Result<(), AllocError>
    ensures { OnOk result (digits.new.items ≡ without_blanks line.now) }
{
    digits.clear();
    digits.extend_from_slice(line)?;
    digits.retain(|b| *b != b' ');
    Ok(())
}
