//! Parts of the text of a value: single bytes, tokens, which are words and numbers, and what they say.
//!
//! What reads a part is passed the text from its first byte on, and returns what is left behind it. A fault has
//! the number of bytes that are left at it in place of its place.

ghost use Rattle.std.specs.Prelude.{◌≡◌, ◌≤◌, length, take, drop, option_map};
ghost use Rattle.someip_payload_values.specs.View.{labels_of, data_of};
ghost use Rattle.someip_payload.specs.ReadValues.{GivesValue, token, past_token, after, atom_in, truth_of, number_of, signed_of, below_zero, unsigned_by, signed_by, unsigned_of, integer_of};
ghost use Rattle.someip_payload.specs.ValueReading.{is_plain, labelled, begins_word};

use crate::value_faults::{after_names, after_words};
use crate::value_text_error::ValueTextError;
use someip_payload_codec::Value;

/// What was read and what is left behind it, or the fault.
pub(crate) type Read<'a, T> = Result<(T, &'a [u8]), ValueTextError>;

/// How far a signed number may lie below 0.
const LEAST: u64 = 0x8000_0000_0000_0000;

/// What is left behind this byte, if it stands there.
#[tactic(auto, unfolding(crate::specs::ReadValues::after))]
pub(crate) fn strip(byte: u8, text: &[u8]) -> Option<&[u8]>
    ensures { option_map (λ rest. rest.now) result ≡ after byte text.now }
{
    match text.split_first() {
        Some((first, rest)) if *first == byte => Some(rest),
        _ => None,
    }
}

/// What is left behind this byte.
pub(crate) fn after(byte: u8, text: &[u8]) -> Result<&[u8], ValueTextError>
    ensures { GivesValue (λ rest. rest.now) result (after byte text.now) }
{
    match strip(byte, text) {
        Some(rest) => Ok(rest),
        None => Err(ValueTextError::BadValue(text.len())),
    }
}

/// The token at the front, which is empty where none stands there, and what is left behind it.
pub(crate) fn split_token(text: &[u8]) -> (&[u8], &[u8])
    ensures { (result.0.now ≡ token text.now) × (result.1.now ≡ past_token text.now) }
{
    let len = token_len(text);
    (&text[..len], &text[len..])
}

/// How many bytes the token at the front has.
fn token_len(text: &[u8]) -> usize
    ensures { (result ≤ length text.now) × (take result text.now ≡ token text.now) × (drop result text.now ≡ past_token text.now) }
{
    let mut len = 0;
    while len < text.len() && is_plain(text[len]) {
        len += 1;
    }
    len
}

/// A letter, a digit, an underscore, a sign or a point.
fn is_plain(byte: u8) -> bool
    ensures { result ≡ is_plain byte }
{
    byte.is_ascii_alphabetic()
        || byte == b'_'
        || byte.is_ascii_digit()
        || byte == b'+'
        || byte == b'-'
        || byte == b'.'
}

/// A truth value.
#[tactic(auto, unfolding(crate::specs::ReadValues::atom_in, crate::specs::ReadValues::truth_of))]
pub(crate) fn truth(text: &[u8]) -> Read<'_, Value>
    ensures { GivesValue (λ x. (data_of x.0, x.1.now)) result (atom_in truth_of text.now) }
{
    let (token, rest) = split_token(text);
    if token == "true".as_bytes() {
        return Ok((Value::Bool(true), rest));
    }
    if token == "false".as_bytes() {
        return Ok((Value::Bool(false), rest));
    }
    Err(after_words(&["true", "false"], text, token))
}

/// A number, or its name.
#[tactic(auto, unfolding(crate::specs::ReadValues::atom_in, crate::specs::ReadValues::unsigned_of))]
pub(crate) fn unsigned<'a>(labels: &[(i128, String)], text: &'a [u8]) -> Read<'a, Value>
    ensures { GivesValue (λ x. (data_of x.0, x.1.now)) result (atom_in (unsigned_of (labels_of labels.now)) text.now) }
{
    let (token, rest) = split_token(text);
    match unsigned_by(labels, token) {
        Some(number) => Ok((Value::Uint(number), rest)),
        None => Err(after_names(labels, text, token, false)),
    }
}

/// The same of a number that may be below 0.
#[tactic(auto, unfolding(crate::specs::ReadValues::atom_in, crate::specs::ReadValues::integer_of))]
pub(crate) fn signed<'a>(labels: &[(i128, String)], text: &'a [u8]) -> Read<'a, Value>
    ensures { GivesValue (λ x. (data_of x.0, x.1.now)) result (atom_in (integer_of (labels_of labels.now)) text.now) }
{
    let (token, rest) = split_token(text);
    match signed_by(labels, token) {
        Some(number) => Ok((Value::Int(number), rest)),
        None => Err(after_names(labels, text, token, true)),
    }
}

#[tactic(auto, unfolding(crate::specs::ReadValues::unsigned_by))]
fn unsigned_by(labels: &[(i128, String)], token: &[u8]) -> Option<u64>
    ensures { result ≡ unsigned_by (labels_of labels.now) token.now }
{
    if begins_word(token) {
        u64::try_from(labelled(labels, token)?).ok()
    } else {
        number_of(token)
    }
}

#[tactic(auto, unfolding(crate::specs::ReadValues::signed_by))]
fn signed_by(labels: &[(i128, String)], token: &[u8]) -> Option<i64>
    ensures { result ≡ signed_by (labels_of labels.now) token.now }
{
    if begins_word(token) {
        i64::try_from(labelled(labels, token)?).ok()
    } else {
        signed_of(token)
    }
}

fn begins_word(token: &[u8]) -> bool
    ensures { result ≡ begins_word token.now }
{
    match token.first() {
        Some(byte) => byte.is_ascii_alphabetic() || *byte == b'_',
        None => false,
    }
}

/// The value that has this name, the first one if there are several.
#[tactic(auto, unfolding(crate::specs::ValueReading::labelled))]
fn labelled(labels: &[(i128, String)], token: &[u8]) -> Option<i128>
    ensures { result ≡ labelled (labels_of labels.now) token.now }
{
    for label in labels {
        if label.1.as_bytes() == token {
            return Some(label.0);
        }
    }
    None
}

/// The number that is written so, without leading zeros.
#[tactic(auto, unfolding(crate::specs::ReadValues::number_of))]
pub(crate) fn number_of(token: &[u8]) -> Option<u64>
    ensures { result ≡ number_of token.now }
{
    let number = fast_float::parse_u64(token).ok()?;
    if itoa::Buffer::new().format(number).as_bytes() != token {
        return None;
    }
    Some(number)
}

/// The same of one that may be below 0.
#[tactic(auto, unfolding(crate::specs::ReadValues::signed_of))]
fn signed_of(token: &[u8]) -> Option<i64>
    ensures { result ≡ signed_of token.now }
{
    match strip(b'-', token) {
        Some(digits) => below_zero(number_of(digits)?),
        None => i64::try_from(number_of(token)?).ok(),
    }
}

/// So far below 0.
fn below_zero(number: u64) -> Option<i64>
    ensures { result ≡ below_zero number }
{
    if number == 0 || LEAST < number {
        return None;
    }
    Some((-i128::from(number)) as i64)
}
