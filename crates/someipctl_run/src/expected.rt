//! Reading a trace that is expected.
ghost use Rattle.std.specs.Prelude.{◌≡◌, IfOk, IfErr};
ghost use Rattle.someipctl_run.specs.Commands.{OfInput};
ghost use Rattle.someipctl_run.specs.Expected.{Expects, RefusesExpected, first_no_line, is_no_line};
ghost use Rattle.someipctl_run.specs.Expected.{is_unended};

use crate::error::BadTraceLine;
use crate::form::Extent;
use someip_texts::text_of;
use someipctl_io::{Fault, read_all};
use std::alloc::Global;
use std::io::Read;

/// Reads a file whole that says which trace is expected, or how it begins: its text. Where that of a
/// whole trace has no line feed behind its last line, one is appended.
///
/// A line that is not UTF-8, or has a carriage return, refuses the file.
pub fn read_expected<R: Read>(
    alloc: Global,
    extent: Extent,
    reader: &mut R,
) -> Result<Vec<u8>, Fault<BadTraceLine>>
    // It is the text of the file; each line of a whole trace ends with a line feed.
    ensures said { IfOk result (λ text. OfInput (R.remaining reader.old) (Expects extent text.items)) }
    // The error names the first bad line.
    ensures refused { IfErr result (RefusesExpected (R.remaining reader.old)) }
{
    let mut text = read_all(alloc, reader)?;
    if let Some(line) = first_no_line(&text) {
        return Err(Fault::Refused(BadTraceLine(line)));
    }
    if extent == Extent::Whole && is_unended(&text) {
        text.push(b'\n')?;
    }
    Ok(text)
}

/// The first line of a file that can be none of a trace. Lines count from 1.
fn first_no_line(file: &[u8]) -> Option<usize>
    ensures { result ≡ first_no_line file.now }
{
    for (i, line) in file.split(|b| *b == b'\n').enumerate() {
        if is_no_line(line) {
            return Some(i + 1);
        }
    }
    None
}

/// Whether a line is no UTF-8, or a carriage return stands in it.
fn is_no_line(line: &[u8]) -> bool
    ensures { result ≡ is_no_line line.now }
{
    text_of(line).is_none() || line.contains(&b'\r')
}

/// Whether bytes stand after the last line feed of a text.
fn is_unended(text: &[u8]) -> bool
    ensures { result ≡ is_unended text.now }
{
    matches!(text.last(), Some(byte) if *byte != b'\n')
}
