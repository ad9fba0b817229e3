//! Names for values of an integer.

ghost use Rattle.std.specs.Prelude.{◌≡◌, ◌+◌, ◌-◌, ◌<◌, ◌≤◌, ◌++◌, ◌∷◌, ◌^◌, ℕ, ℤ, negsuc, List, Ok, codes, length, drop, slice_range, IfOk, IfErr};
ghost use Rattle.std.specs.Fmt.{decimal};
ghost use Rattle.someip_payload_values.specs.View.{labels_of};
ghost use Rattle.someip_payload.specs.ShapeText.{IsFaultWithin, IsReadTo, IsDigit, EndsName, IsValue, IsTextOfLabels, IsTextOfLabel, one_label, value_text};

use crate::names::{name_end, name_str};
use crate::shape_text_error::ShapeTextError;
use crate::text_parts::{ReadTo, byte_at, has_byte, long_decimal_at, one_after_other};
use std::alloc::Global;

/// How far below 0 a value may lie.
const LEAST: u64 = 0x8000_0000_0000_0000;

/// Values and their names, with commas between them, and a bracket after the last.
pub(crate) fn labels_at(alloc: Global, text: &[u8], at: usize) -> ReadTo<Vec<(i128, String)>>
    requires { at ≤ length text.now }
    ensures found { IfOk result (λ x. (labels : List ℕ) × IsTextOfLabels (labels_of x.0.items) labels
        × (slice_range text.now at x.1 ≡ labels ++ codes "}")) }
    ensures only { (ls : List (ℤ × List ℕ)) (labels rest : List ℕ)
        → drop at text.now ≡ labels ++ (codes "}" ++ rest) → IsTextOfLabels ls labels
        → IsReadTo (λ x. labels_of x.items) ls (at + (length labels + 1)) result }
    ensures end { IfOk result (λ x. (at ≤ x.1) × (x.1 ≤ length text.now)) }
    ensures fault { IfErr result (IsFaultWithin at (length text.now)) }
{
    one_after_other!(alloc, text, at, b'}', |next| label_at(alloc, text, next))
}

/// A value and its name.
fn label_at(alloc: Global, text: &[u8], at: usize) -> ReadTo<(i128, String)>
    requires { at ≤ length text.now }
    ensures found { IfOk result (λ x. IsTextOfLabel (one_label x.0) (slice_range text.now at x.1)) }
    ensures only { (l : ℤ × List ℕ) (front rest : List ℕ) → drop at text.now ≡ front ++ rest
        → IsTextOfLabel l front → EndsName rest → IsReadTo one_label l (at + length front) result }
    ensures end { IfOk result (λ x. (at < x.1) × (x.1 ≤ length text.now)) }
    ensures fault { IfErr result (IsFaultWithin at (length text.now)) }
{
    let (value, behind) = value_at(text, at)?;
    let first = byte_at(b'=', text, behind)?;
    let end = name_end(text, first);
    if end == first {
        return Err(ShapeTextError::BadShape(first));
    }
    let name = String::from_str(alloc, name_str(&text[first..end]))?;
    Ok(((value, name), end))
}

/// A value: a decimal number without leading zeros, after a minus sign if it is below 0.
fn value_at(text: &[u8], at: usize) -> ReadTo<i128>
    requires { at ≤ length text.now }
    ensures found { IfOk result (λ x. slice_range text.now at x.1 ≡ value_text x.0) }
    ensures fits { IfOk result (λ x. IsValue x.0) }
    ensures only { (z : ℤ) (b : ℕ) (rest : List ℕ) → drop at text.now ≡ value_text z ++ b ∷ rest → IsValue z
        → (IsDigit b → ⊥) → result ≡ Ok (z, at + length (value_text z)) }
    ensures end { IfOk result (λ x. (at < x.1) × (x.1 ≤ length text.now)) }
    ensures fault { IfErr result (IsFaultWithin at (length text.now)) }
{
    if has_byte(b'-', text, at) {
        return negative_at(text, at + 1);
    }
    let (number, end) = long_decimal_at(text, at, u64::MAX)?;
    Ok((i128::from(number), end))
}

/// The rest of a value after its minus sign.
fn negative_at(text: &[u8], at: usize) -> ReadTo<i128>
    requires { at ≤ length text.now }
    ensures found { IfOk result (λ x. codes "-" ++ slice_range text.now at x.1 ≡ value_text x.0) }
    ensures fits { IfOk result (λ x. IsValue x.0) }
    ensures only { (n b : ℕ) (rest : List ℕ) → drop at text.now ≡ decimal (n + 1) ++ b ∷ rest → n < 2 ^ 63
        → (IsDigit b → ⊥) → result ≡ Ok (negsuc n, at + length (decimal (n + 1))) }
    ensures end { IfOk result (λ x. (at < x.1) × (x.1 ≤ length text.now)) }
    ensures fault { IfErr result (IsFaultWithin at (length text.now)) }
{
    if has_byte(b'0', text, at) {
        return Err(ShapeTextError::BadShape(at));
    }
    let (number, end) = long_decimal_at(text, at, LEAST)?;
    if number == 0 {
        return Err(ShapeTextError::BadShape(at));
    }
    Ok((negative(number), end))
}

/// So far below 0.
fn negative(number: u64) -> i128
    requires { 0 < number }
    ensures { result ≡ negsuc (number - 1) }
{
    -i128::from(number)
}
