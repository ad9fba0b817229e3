//! Names in the texts of shapes: a letter or `_`, then letters, digits and `_` of ASCII, at most 64 bytes in all.

ghost use Rattle.std.specs.Prelude.{◌≡◌, ◌+◌, ◌<◌, ◌≤◌, ◌++◌, ◌∷◌, ℕ, List, Option, true, codes, length, drop, slice_range, slice_index, string_bytes, option_map, IsTrue, IfOk, IfErr};
ghost use Rattle.someip_payload_values.specs.Check.{is_first, is_later, is_name};
ghost use Rattle.someip_payload_values.specs.View.{form};
ghost use Rattle.someip_payload.specs.declared.shape_text_error.ShapeTextError.TheVariants.{OutOfMemory};
ghost use Rattle.someip_payload.specs.ShapeText.{IsFaultWithin, IsReadTo, IsNameIfAny, EndsName, BeginsNoName, begins_name, name_text, with_name};

use crate::shape_text_error::ShapeTextError;
use crate::text_parts::{ReadTo, byte_at, has_byte};
use someip_payload_codec::Shape;
use std::alloc::Global;

/// The longest name.
const MAX_NAME_LEN: usize = 64;

/// The end of the name at a place, which is the place itself where none begins.
pub(crate) fn name_end(text: &[u8], at: usize) -> usize
    requires { at ≤ length text.now }
    ensures found { at < result → is_name (slice_range text.now at result) ≡ true }
    ensures only { (n rest : List ℕ) → drop at text.now ≡ n ++ rest → is_name n ≡ true → EndsName rest
        → result ≡ at + length n }
    ensures longest { (n rest : List ℕ) → drop at text.now ≡ n ++ rest → is_name n ≡ true → at + length n ≤ result }
    ensures none { BeginsNoName (drop at text.now) → result ≡ at }
    ensures end { (at ≤ result) × (result ≤ length text.now) }
{
    if !begins_name(text, at) {
        return at;
    }
    let mut end = at + 1;
    while end < text.len() && end - at < MAX_NAME_LEN && is_later(text[end]) {
        end += 1;
    }
    end
}

fn begins_name(text: &[u8], at: usize) -> bool
    ensures { result ≡ begins_name (drop at text.now) }
{
    match text.get(at) {
        Some(first) => is_first(*first),
        None => false,
    }
}

/// A letter of ASCII or an underscore.
fn is_first(byte: u8) -> bool
    ensures { result ≡ is_first byte }
{
    byte.is_ascii_alphabetic() || byte == b'_'
}

fn is_later(byte: u8) -> bool
    ensures { result ≡ is_later byte }
{
    is_first(byte) || byte.is_ascii_digit()
}

/// Whether a name ends here, and a colon stands after it.
pub(crate) fn has_name(text: &[u8], at: usize, end: usize) -> bool
    ensures there { IsTrue result → (at < end) × (end < length text.now) × (slice_index text.now end ≡ 58) }
    ensures only { (rest : List ℕ) → at < end → drop end text.now ≡ 58 ∷ rest → IsTrue result }
{
    at < end && has_byte(b':', text, end)
}

/// A name and the colon after it, where a name begins, and the place after both.
pub(crate) fn name_at(alloc: Global, text: &[u8], at: usize) -> ReadTo<Option<String>>
    requires { at ≤ length text.now }
    ensures found { IfOk result (λ x. (slice_range text.now at x.1 ≡ name_text (option_map string_bytes x.0))
        × IsNameIfAny (option_map string_bytes x.0)) }
    ensures only { (n : Option (List ℕ)) (rest : List ℕ) → drop at text.now ≡ name_text n ++ rest → IsNameIfAny n
        → BeginsNoName rest → IsReadTo (option_map string_bytes) n (at + length (name_text n)) result }
    ensures end { IfOk result (λ x. (at ≤ x.1) × (x.1 ≤ length text.now)) }
    ensures fault { IfErr result (IsFaultWithin at (length text.now)) }
{
    let end = name_end(text, at);
    if end == at {
        return Ok((None, at));
    }
    let (name, behind) = name_to(alloc, text, at, end)?;
    Ok((Some(name), behind))
}

/// The name between two places and the colon after it.
pub(crate) fn name_to(alloc: Global, text: &[u8], at: usize, end: usize) -> ReadTo<String>
    requires place { (at ≤ end) × (end ≤ length text.now) }
    requires name { is_name (slice_range text.now at end) ≡ true }
    ensures found { IfOk result (λ x. string_bytes x.0 ≡ slice_range text.now at end) }
    ensures colon { IfOk result (λ x. slice_range text.now end x.1 ≡ codes ":") }
    ensures only { (rest : List ℕ) → drop end text.now ≡ 58 ∷ rest
        → IsReadTo string_bytes (slice_range text.now at end) (end + 1) result }
    ensures end { IfOk result (λ x. (x.1 ≡ end + 1) × (x.1 ≤ length text.now)) }
    ensures fault { IfErr result (IsFaultWithin end (length text.now)) }
{
    let behind = byte_at(b':', text, end)?;
    let name = String::from_str(alloc, name_str(&text[at..end]))?;
    Ok((name, behind))
}

/// The bytes of a name as a text.
#[tactic(auto, using(crate::proofs::NameBytes::name_utf8))]
pub(crate) fn name_str(bytes: &[u8]) -> &str
    requires { is_name bytes.now ≡ true }
    ensures { result.now ≡ bytes.now }
{
    match str::from_utf8(bytes) {
        Ok(name) => name,
        Err(_) => "",
    }
}

/// The shape with its name, if it has one.
pub(crate) fn with_name(
    alloc: Global,
    name: Option<String>,
    shape: Shape,
) -> Result<Shape, ShapeTextError>
    ensures named { IfOk result (λ s. form s ≡ with_name (option_map string_bytes name) (form shape)) }
    ensures memory { IfErr result (λ e. e ≡ OutOfMemory) }
{
    match name {
        None => Ok(shape),
        Some(name) => Ok(Shape::Named(name, Box::new(alloc, shape)?)),
    }
}
