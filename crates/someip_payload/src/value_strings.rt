//! Texts between quotes.

ghost use Rattle.std.specs.Prelude.{◌≡◌, length, map, string_bytes};
ghost use Rattle.someip_payload_values.specs.View.{data_of};
ghost use Rattle.someip_payload.specs.ReadValues.{GivesValue, string_in, unquoted, byte_in, byte_of, escape_in, as_text};
ghost use Rattle.someip_payload.specs.ValueReading.{is_control};

use crate::text_parts::common_len;
use crate::value_faults::behind;
use crate::value_text_error::ValueTextError;
use crate::value_tokens::{Read, after, strip};
use someip_payload_codec::Value;
use std::alloc::Global;

/// What stands behind a backslash, and the byte that it says.
const ESCAPES: [(&str, u8); 35] = [
    ("\"", 34),
    ("\\", 92),
    ("u{0}", 0),
    ("u{1}", 1),
    ("u{2}", 2),
    ("u{3}", 3),
    ("u{4}", 4),
    ("u{5}", 5),
    ("u{6}", 6),
    ("u{7}", 7),
    ("u{8}", 8),
    ("u{9}", 9),
    ("u{a}", 10),
    ("u{b}", 11),
    ("u{c}", 12),
    ("u{d}", 13),
    ("u{e}", 14),
    ("u{f}", 15),
    ("u{10}", 16),
    ("u{11}", 17),
    ("u{12}", 18),
    ("u{13}", 19),
    ("u{14}", 20),
    ("u{15}", 21),
    ("u{16}", 22),
    ("u{17}", 23),
    ("u{18}", 24),
    ("u{19}", 25),
    ("u{1a}", 26),
    ("u{1b}", 27),
    ("u{1c}", 28),
    ("u{1d}", 29),
    ("u{1e}", 30),
    ("u{1f}", 31),
    ("u{7f}", 127),
];

/// A text between quotes.
#[tactic(auto, unfolding(crate::specs::ReadValues::string_in))]
pub(crate) fn string(alloc: Global, text: &[u8]) -> Read<'_, Value>
    ensures { GivesValue (λ x. (data_of x.0, x.1.now)) result (string_in text.now) }
{
    let inner = after(b'"', text)?;
    let (bytes, rest) = unquoted(alloc, inner)?;
    let text = text_of(alloc, &bytes, rest)?;
    Ok((Value::Text(text), rest))
}

/// The bytes as a text.
#[tactic(auto, using(crate::proofs::ValueTokens::is_utf8_true, crate::proofs::ValueTokens::is_utf8_false), unfolding(crate::specs::ReadValues::as_text))]
fn text_of(alloc: Global, bytes: &[u8], rest: &[u8]) -> Result<String, ValueTextError>
    ensures { GivesValue string_bytes result (as_text bytes.now) }
{
    match str::from_utf8(bytes) {
        Ok(text) => Ok(String::from_str(alloc, text)?),
        Err(_) => Err(ValueTextError::BadValue(rest.len())),
    }
}

/// The bytes up to a quote.
#[tactic(auto, unfolding(crate::specs::ReadValues::unquoted))]
fn unquoted<'a>(alloc: Global, text: &'a [u8]) -> Read<'a, Vec<u8>>
    ensures { GivesValue (λ x. (x.0.items, x.1.now)) result (unquoted (length text.now) text.now) }
{
    let mut bytes = Vec::new(alloc);
    let mut left = text;
    for _ in 0..text.len() {
        if let Some(rest) = strip(b'"', left) {
            return Ok((bytes, rest));
        }
        let (byte, rest) = quoted_byte(left)?;
        bytes.push(byte)?;
        left = rest;
    }
    Err(ValueTextError::BadValue(left.len()))
}

/// A byte between quotes.
#[tactic(auto, unfolding(crate::specs::ReadValues::byte_in))]
fn quoted_byte(text: &[u8]) -> Read<'_, u8>
    ensures { GivesValue (λ x. (x.0, x.1.now)) result (byte_in text.now) }
{
    match text.split_first() {
        None => Err(ValueTextError::BadValue(0)),
        Some((b'\\', rest)) => escape(rest),
        Some((byte, _)) if is_control(*byte) => Err(ValueTextError::BadValue(text.len())),
        Some((byte, rest)) => Ok((*byte, rest)),
    }
}

/// A control character of ASCII.
fn is_control(byte: u8) -> bool
    ensures { result ≡ is_control byte }
{
    byte < 0x20 || byte == 0x7f
}

/// The byte that what stands behind a backslash says.
#[tactic(auto, unfolding(crate::specs::ReadValues::escape_in))]
fn escape(text: &[u8]) -> Read<'_, u8>
    ensures { GivesValue (λ x. (x.0, x.1.now)) result (escape_in text.now) }
{
    byte_of(&ESCAPES, text)
}

/// The byte that the first of these words at the front stands for.
#[tactic(auto, unfolding(crate::specs::ReadValues::byte_of))]
fn byte_of<'a>(words: &[(&str, u8)], text: &'a [u8]) -> Read<'a, u8>
    ensures { GivesValue (λ x. (x.0, x.1.now)) result (byte_of (map (λ w. (w.0.now, w.1)) words.now) text.now) }
{
    let mut most = 0;
    for (word, byte) in words {
        let count = common_len(word.as_bytes(), text);
        if count == word.len() {
            return Ok((*byte, &text[count..]));
        }
        most = most.max(count);
    }
    Err(behind(most, text))
}
