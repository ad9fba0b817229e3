//! Where the text of a value goes wrong: the first byte at which no text goes on. A fault has the number of bytes
//! that are left at it in place of its place.

use crate::text_parts::common_len;
use crate::value_text_error::ValueTextError;
use someip_payload_codec::Shape;

/// The largest number, and how far one may lie below 0.
const MOST: u64 = u64::MAX;

const MOST_SIGNED: u64 = 0x7fff_ffff_ffff_ffff;

const LEAST: u64 = 0x8000_0000_0000_0000;

/// The fault behind so many bytes of a text.
pub(crate) fn behind(count: usize, text: &[u8]) -> ValueTextError {
    ValueTextError::BadValue(text.len().saturating_sub(count))
}

/// Where a token at the front of a text goes on as none of the words.
pub(crate) fn after_words(words: &[&str], text: &[u8], token: &[u8]) -> ValueTextError {
    let mut most = 0;
    for word in words {
        most = most.max(common_len(word.as_bytes(), token));
    }
    behind(most, text)
}

/// Where it goes on as none of the names, and as no number.
pub(crate) fn after_names(
    labels: &[(i128, String)],
    text: &[u8],
    token: &[u8],
    is_signed: bool,
) -> ValueTextError {
    let mut most = if is_signed {
        signed_len(token)
    } else {
        digits_len(token, MOST)
    };
    for label in labels {
        most = most.max(common_len(label.1.as_bytes(), token));
    }
    behind(most, text)
}

/// Where a text goes on neither as `none` nor as the number of one of the variants.
pub(crate) fn after_kinds(variants: &[(u32, Shape)], text: &[u8]) -> ValueTextError {
    let mut most = common_len(b"none", text);
    for variant in variants {
        let mut buffer = itoa::Buffer::new();
        most = most.max(common_len(buffer.format(variant.0).as_bytes(), text));
    }
    behind(most, text)
}

/// How many bytes at the front a number has in common with the token.
fn signed_len(token: &[u8]) -> usize {
    match token.split_first() {
        Some((b'-', [b'0', ..])) => 1,
        Some((b'-', digits)) => digits_len(digits, LEAST).saturating_add(1),
        _ => digits_len(token, MOST_SIGNED),
    }
}

/// The same of a number that is at most so large.
fn digits_len(token: &[u8], most: u64) -> usize {
    let mut number: u64 = 0;
    for i in 0..token.len() {
        let byte = token[i];
        if !byte.is_ascii_digit() || (i > 0 && number == 0) {
            return i;
        }
        let digit = u64::from(byte - b'0');
        if number > most.saturating_sub(digit) / 10 {
            return i;
        }
        number = number.saturating_mul(10).saturating_add(digit);
    }
    token.len()
}
