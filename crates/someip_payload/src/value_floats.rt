//! Floats from their texts.

ghost use Rattle.std.specs.Prelude.{◌≡◌, ◌≤◌, ◌*◌, length};
ghost use Rattle.std.specs.Float.{binary32, binary64};
ghost use Rattle.std.specs.Float.Ieee.{nan_bits};
ghost use Rattle.std.specs.Str.{bytes_eq};
ghost use Rattle.hex.specs.Hex.{encode_lower};
ghost use Rattle.someip_payload_values.specs.Floats.{single, double};
ghost use Rattle.someip_payload_values.specs.View.{data_of};
ghost use Rattle.someip_payload.specs.ReadValues.{GivesValue, bits_of, float_in, nan_in, nan_of};

use crate::text_parts::common_len;
use crate::value_faults::behind;
use crate::value_text_error::ValueTextError;
use crate::value_tokens::{Read, after, split_token};
use someip_payload_codec::Value;

/// A float in 32 bits: a decimal or a word for an infinity, of which it is the nearest one, or the bits of a NaN.
#[tactic(auto, unfolding(crate::specs::ReadValues::float_in, crate::specs::ReadValues::atom_in, crate::specs::ReadValues::float_of))]
pub(crate) fn single(text: &[u8]) -> Read<'_, Value>
    ensures { GivesValue (λ x. (data_of x.0, x.1.now)) result (float_in single text.now) }
{
    let (token, rest) = split_token(text);
    if token == "nan".as_bytes() {
        return single_nan(rest);
    }
    match single_of(token) {
        Some(bits) => Ok((Value::F32(bits), rest)),
        None => Err(after_float(text, token)),
    }
}

/// The same in 64 bits.
#[tactic(auto, unfolding(crate::specs::ReadValues::float_in, crate::specs::ReadValues::atom_in, crate::specs::ReadValues::float_of))]
pub(crate) fn double(text: &[u8]) -> Read<'_, Value>
    ensures { GivesValue (λ x. (data_of x.0, x.1.now)) result (float_in double text.now) }
{
    let (token, rest) = split_token(text);
    if token == "nan".as_bytes() {
        return double_nan(rest);
    }
    match double_of(token) {
        Some(bits) => Ok((Value::F64(bits), rest)),
        None => Err(after_float(text, token)),
    }
}

/// The bits of the float that is nearest, unless that is a NaN.
#[tactic(auto, unfolding(crate::specs::ReadValues::bits_of))]
fn single_of(token: &[u8]) -> Option<u32>
    ensures { result ≡ bits_of single token.now }
{
    let float: f32 = fast_float::parse(token).ok()?;
    if float.is_nan() {
        return None;
    }
    Some(float.to_bits())
}

#[tactic(auto, unfolding(crate::specs::ReadValues::bits_of))]
fn double_of(token: &[u8]) -> Option<u64>
    ensures { result ≡ bits_of double token.now }
{
    let float: f64 = fast_float::parse(token).ok()?;
    if float.is_nan() {
        return None;
    }
    Some(float.to_bits())
}

/// The bits of a NaN between brackets.
#[tactic(auto, unfolding(crate::specs::ReadValues::nan_in))]
fn single_nan(text: &[u8]) -> Read<'_, Value>
    ensures { GivesValue (λ x. (data_of x.0, x.1.now)) result (nan_in single text.now) }
{
    let inner = after(b'(', text)?;
    let (digits, behind) = split_token(inner);
    let Some(bits) = single_nan_of(digits) else {
        return Err(after_hex(inner, digits, 8));
    };
    let rest = after(b')', behind)?;
    Ok((Value::F32(bits), rest))
}

#[tactic(auto, unfolding(crate::specs::ReadValues::nan_in))]
fn double_nan(text: &[u8]) -> Read<'_, Value>
    ensures { GivesValue (λ x. (data_of x.0, x.1.now)) result (nan_in double text.now) }
{
    let inner = after(b'(', text)?;
    let (digits, behind) = split_token(inner);
    let Some(bits) = double_nan_of(digits) else {
        return Err(after_hex(inner, digits, 16));
    };
    let rest = after(b')', behind)?;
    Ok((Value::F64(bits), rest))
}

/// The bits of a NaN in hex with lower case.
#[tactic(auto, unfolding(crate::specs::ReadValues::nan_of))]
fn single_nan_of(digits: &[u8]) -> Option<u32>
    ensures { result ≡ nan_of single digits.now }
{
    let mut bytes = [0; 4];
    hex::decode_to_slice(digits, &mut bytes).ok()?;
    let bits = u32::from_be_bytes(bytes);
    if !is_hex_of(&bits.to_be_bytes(), &mut [0; 8], digits) || !is_single_nan(bits) {
        return None;
    }
    Some(bits)
}

#[tactic(auto, unfolding(crate::specs::ReadValues::nan_of))]
fn double_nan_of(digits: &[u8]) -> Option<u64>
    ensures { result ≡ nan_of double digits.now }
{
    let mut bytes = [0; 8];
    hex::decode_to_slice(digits, &mut bytes).ok()?;
    let bits = u64::from_be_bytes(bytes);
    if !is_hex_of(&bits.to_be_bytes(), &mut [0; 16], digits) || !is_double_nan(bits) {
        return None;
    }
    Some(bits)
}

/// Whether the digits are those of the bytes in lower case, for which there is room.
fn is_hex_of(bytes: &[u8], room: &mut [u8], digits: &[u8]) -> bool
    requires { length room.old ≡ 2 * length bytes.now }
    ensures { result ≡ bytes_eq (encode_lower bytes.now) digits.now }
{
    if hex::encode_to_slice(bytes, room).is_err() {
        return false;
    }
    &*room == digits
}

/// Whether the bits are those of a NaN: without the sign, they are above those of an infinity.
fn is_single_nan(bits: u32) -> bool
    ensures { result ≡ nan_bits binary32 bits }
{
    0x7f80_0000 < bits % 0x8000_0000
}

fn is_double_nan(bits: u64) -> bool
    ensures { result ≡ nan_bits binary64 bits }
{
    0x7ff0_0000_0000_0000 < bits % 0x8000_0000_0000_0000
}

/// Where digits of hex go wrong: at the first byte that is none or is one too many, or else at their end.
fn after_hex(text: &[u8], digits: &[u8], most: usize) -> ValueTextError {
    for i in 0..digits.len() {
        if i >= most || !is_hex(digits[i]) {
            return behind(i, text);
        }
    }
    behind(digits.len(), text)
}

fn is_hex(byte: u8) -> bool {
    byte.is_ascii_digit() || (b'a' <= byte && byte <= b'f')
}

/// Where a token at the front of a text goes on as no float.
fn after_float(text: &[u8], token: &[u8]) -> ValueTextError {
    let from = sign_len(token);
    let count = match token.get(from) {
        Some(byte) if byte.is_ascii_alphabetic() => word_len(&token[from..], from == 0),
        _ => decimal_len(&token[from..]),
    };
    behind(from.saturating_add(count), text)
}

fn sign_len(token: &[u8]) -> usize
    ensures { result ≤ length token.now }
{
    match token.first() {
        Some(b'+' | b'-') => 1,
        _ => 0,
    }
}

/// How many bytes a word for an infinity, in either case, or `nan` has in common with the token.
fn word_len(token: &[u8], is_nan: bool) -> usize {
    let count = infinity_len(token);
    if is_nan {
        return count.max(common_len("nan".as_bytes(), token));
    }
    count
}

fn infinity_len(token: &[u8]) -> usize {
    let word = "infinity".as_bytes();
    for i in 0..token.len() {
        if word.get(i) != Some(&token[i].to_ascii_lowercase()) {
            return i;
        }
    }
    token.len()
}

/// How many bytes of the token a decimal begins with.
fn decimal_len(token: &[u8]) -> usize {
    let whole = digits_len(token);
    let rest = &token[whole..];
    let (len, digits) = match rest.first() {
        Some(b'.') => {
            let fraction = digits_len(&rest[1..]);
            (
                whole.saturating_add(1).saturating_add(fraction),
                whole.saturating_add(fraction),
            )
        }
        _ => (whole, whole),
    };
    if digits == 0 {
        return len;
    }
    match token.get(len) {
        Some(b'e' | b'E') => exponent_len(token, len),
        _ => len,
    }
}

/// How many bytes there are up to the end of the exponent whose letter stands at a place.
fn exponent_len(token: &[u8], at: usize) -> usize {
    let Some(rest) = token.get(at.saturating_add(1)..) else {
        return at;
    };
    let sign = sign_len(rest);
    let digits = digits_len(&rest[sign..]);
    at.saturating_add(1)
        .saturating_add(sign)
        .saturating_add(digits)
}

fn digits_len(bytes: &[u8]) -> usize
    ensures { result ≤ length bytes.now }
{
    for i in 0..bytes.len() {
        if !bytes[i].is_ascii_digit() {
            return i;
        }
    }
    bytes.len()
}
