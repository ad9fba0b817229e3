//! The parts of a line: text, numbers and hex.
ghost use Rattle.std.specs.Prelude.{◌≡◌, OnOk, OnErr, drop};
ghost use Rattle.std.specs.List.{flat_map};
ghost use Rattle.someip_texts.specs.Words.{hex2, hex4};
ghost use Rattle.someipctl_io.specs.Sending.{Sends, Stops};
ghost use Rattle.someipctl_io.specs.Parts.{nine_digits, part_text};

use crate::output::{Buffer, CannotWrite, write_hex};
use std::io::Write;

/// A part of a line.
#[derive(Clone, Copy)]
pub enum Part<'p> {
    /// Text as it is.
    Text(&'p str),
    /// Bytes as they are.
    Raw(&'p [u8]),
    /// A number in decimal digits.
    Number(usize),
    /// An ID of 16 bits as four lower-case hex digits.
    Id(u16),
    /// A byte as two lower-case hex digits.
    Byte(u8),
    /// A number below 10^9 in nine decimal digits.
    Nine(u32),
    /// Bytes as two lower-case hex digits each.
    Hex(&'p [u8]),
}

/// Prints the parts of a line, one after the other.
pub fn put_parts<W: Write>(
    buffer: &mut Buffer,
    writer: &mut W,
    parts: &[Part<'_>],
) -> Result<(), CannotWrite>
    ensures ok { OnOk result (Sends (W.contents writer.old) buffer.old
        (W.contents writer.new) buffer.new (flat_map part_text parts.now)) }
    ensures err { OnErr result (Stops (W.contents writer.old) buffer.old
        (W.contents writer.new) (flat_map part_text parts.now)) }
{
    for part in parts {
        put_part(buffer, writer, *part)?;
    }
    Ok(())
}

#[inline(always)]
fn put_part<W: Write>(
    buffer: &mut Buffer,
    writer: &mut W,
    part: Part<'_>,
) -> Result<(), CannotWrite>
    ensures ok { OnOk result (Sends (W.contents writer.old) buffer.old
        (W.contents writer.new) buffer.new (part_text part.entry)) }
    ensures err { OnErr result (Stops (W.contents writer.old) buffer.old
        (W.contents writer.new) (part_text part.entry)) }
{
    match part {
        Part::Text(text) => buffer.put(writer, text.as_bytes()),
        Part::Raw(bytes) => buffer.put(writer, bytes),
        Part::Number(number) => {
            let mut digits = itoa::Buffer::new();
            buffer.put(writer, digits.format(number).as_bytes())
        }
        Part::Id(id) => buffer.put(writer, &digits_of_id(id)),
        Part::Byte(byte) => buffer.put(writer, &digits_of_byte(byte)),
        Part::Nine(number) => put_nine_digits(buffer, writer, number),
        Part::Hex(bytes) => buffer.put_hex(writer, bytes),
    }
}

/// Prints a number below 10^9 in nine digits.
fn put_nine_digits<W: Write>(
    buffer: &mut Buffer,
    writer: &mut W,
    number: u32,
) -> Result<(), CannotWrite>
    ensures ok { OnOk result (Sends (W.contents writer.old) buffer.old
        (W.contents writer.new) buffer.new (nine_digits number)) }
    ensures err { OnErr result (Stops (W.contents writer.old) buffer.old
        (W.contents writer.new) (nine_digits number)) }
{
    let mut digits = itoa::Buffer::new();
    let text = digits.format(1_000_000_000 + u64::from(number)).as_bytes();
    buffer.put(writer, without_first(text))
}

/// The bytes after the first.
fn without_first(bytes: &[u8]) -> &[u8]
    ensures { result.now ≡ drop 1 bytes.now }
{
    match bytes {
        [] => bytes,
        [_, others @ ..] => others,
    }
}

/// An ID as four hex digits.
#[inline(always)]
fn digits_of_id(id: u16) -> [u8; 4]
    ensures { result ≡ hex4 id }
{
    let mut digits = [0; 4];
    write_hex(&id.to_be_bytes(), &mut digits);
    digits
}

/// A byte as two hex digits.
#[inline(always)]
fn digits_of_byte(byte: u8) -> [u8; 2]
    ensures { result ≡ hex2 byte }
{
    let mut digits = [0; 2];
    write_hex(&[byte], &mut digits);
    digits
}
