//! Parts of the text of a shape: words, numbers and single bytes.

ghost use Rattle.std.specs.Prelude.{◌≡◌, ◌+◌, ◌*◌, ◌<◌, ◌≤◌, ◌^◌, ◌++◌, ◌∷◌, [], ℕ, Bool, List, Ok, false, map, codes, length, drop, slice_range, slice_index, IsTrue, IfOk, IfErr, IfSome, IfNone};
ghost use Rattle.std.specs.List.{AllByRecursion};
ghost use Rattle.std.specs.Fmt.{decimal};
ghost use Rattle.someip_payload.specs.Fronts.{common, longest, longest_front, is_word};
ghost use Rattle.someip_payload.specs.ShapeText.{IsFaultWithin, IsDigit, mark_text};

use crate::shape_text_error::ShapeTextError;

/// What was read and the place after it, or the fault.
pub(crate) type ReadTo<T> = Result<(T, usize), ShapeTextError>;

/// Reads items with commas between them, up to the bracket `$close` after the last: returns them and
/// the place after it, or the first fault. `$item` reads the item at the place `$next`. It is a macro
/// and no function that is passed what reads an item, so that the clauses of each caller speak of
/// its own items, and the cycle of calls that reads shapes has no more functions.
macro_rules! one_after_other {
    ($alloc:ident, $text:ident, $at:ident, $close:expr, |$next:ident| $item:expr) => {{
        let mut items = Vec::new($alloc);
        let mut $next = $at;
        loop {
            let (item, end) = $item?;
            items.push(item)?;
            if has_byte(b',', $text, end) {
                $next = end + 1;
            } else {
                let end = byte_at($close, $text, end)?;
                return Ok((items, end));
            }
        }
    }};
}

pub(crate) use one_after_other;

/// The word at a place, and the place after it: the longest front that the text has in common with any of
/// the words has to be one of them. The fault is at the first byte at which none of the words goes on.
pub(crate) fn word_at<T: Copy>(words: &[(&str, T)], text: &[u8], at: usize) -> ReadTo<T>
    requires { at ≤ length text.now }
    ensures found { (name : T → List ℕ) → AllByRecursion (λ word. word.0.now ≡ name word.1) words.now
        → IfOk result (λ x. slice_range text.now at x.1 ≡ name x.0) }
    ensures longest { IfOk result (λ x.
        slice_range text.now at x.1 ≡ longest_front (map (λ word. word.0.now) words.now) (drop at text.now)) }
    ensures end { IfOk result (λ x. (at ≤ x.1) × (x.1 ≤ length text.now)) }
    ensures fault { IfErr result (IsFaultWithin at (length text.now)) }
    ensures none { IfErr result (λ e. let texts = map (λ word. word.0.now) words.now in
        is_word texts (longest_front texts (drop at text.now)) ≡ false) }
{
    let rest = &text[at..];
    let count = longest_front(words, rest);
    let front = &rest[..count];
    for (word, item) in words {
        if word.as_bytes() == front {
            return Ok((*item, at + count));
        }
    }
    Err(ShapeTextError::BadShape(at + count))
}

/// How many bytes a text has in common with the word that goes on longest with it.
fn longest_front<T: Copy>(words: &[(&str, T)], text: &[u8]) -> usize
    ensures most { result ≡ longest (map (λ word. word.0.now) words.now) text.now }
    ensures bound { result ≤ length text.now }
{
    let mut most = 0;
    for (word, _) in words {
        most = most.max(common_len(word.as_bytes(), text));
    }
    most
}

/// How many bytes two texts have in common at their front.
pub(crate) fn common_len(a: &[u8], b: &[u8]) -> usize
    ensures same { result ≡ common a.now b.now }
    ensures bound { result ≤ length b.now }
{
    let mut count = 0;
    while count < a.len() && count < b.len() && a[count] == b[count] {
        count += 1;
    }
    count
}

pub(crate) fn has_byte(byte: u8, text: &[u8], at: usize) -> bool
    ensures there { IsTrue result → (at < length text.now) × (slice_index text.now at ≡ byte) }
    ensures only { (rest : List ℕ) → drop at text.now ≡ byte ∷ rest → IsTrue result }
{
    text.get(at) == Some(&byte)
}

pub(crate) fn byte_at(byte: u8, text: &[u8], at: usize) -> Result<usize, ShapeTextError>
    requires { at ≤ length text.now }
    ensures found { IfOk result (λ end. slice_range text.now at end ≡ byte ∷ []) }
    ensures only { (rest : List ℕ) → drop at text.now ≡ byte ∷ rest → result ≡ Ok (at + 1) }
    ensures end { IfOk result (λ end. (end ≡ at + 1) × (end ≤ length text.now)) }
    ensures fault { IfErr result (IsFaultWithin at (length text.now)) }
{
    if text.get(at) != Some(&byte) {
        return Err(ShapeTextError::BadShape(at));
    }
    Ok(at + 1)
}

/// Whether a question mark stands here, and the place after it.
pub(crate) fn mark_at(text: &[u8], at: usize) -> (bool, usize)
    requires { at ≤ length text.now }
    ensures found { slice_range text.now at result.1 ≡ mark_text result.0 }
    ensures only { (optional : Bool) (rest : List ℕ) → drop at text.now ≡ mark_text optional ++ (codes ":" ++ rest)
        → result ≡ (optional, at + length (mark_text optional)) }
    ensures end { (at ≤ result.1) × (result.1 ≤ length text.now) }
{
    if text.get(at) == Some(&b'?') {
        (true, at + 1)
    } else {
        (false, at)
    }
}

/// A decimal number below the limit, as `long_decimal_at`.
pub(crate) fn decimal_at(text: &[u8], at: usize, limit: u64) -> ReadTo<u32>
    requires place { at ≤ length text.now }
    requires limit { (10 ≤ limit) × (limit ≤ 2 ^ 32) }
    ensures found { IfOk result (λ x. slice_range text.now at x.1 ≡ decimal x.0) }
    ensures fits { IfOk result (λ x. x.0 < limit) }
    ensures only { (n b : ℕ) (rest : List ℕ) → drop at text.now ≡ decimal n ++ b ∷ rest → n < limit
        → (IsDigit b → ⊥) → result ≡ Ok (n, at + length (decimal n)) }
    ensures end { IfOk result (λ x. (at < x.1) × (x.1 ≤ length text.now)) }
    ensures fault { IfErr result (IsFaultWithin at (length text.now)) }
{
    let (number, end) = long_decimal_at(text, at, limit - 1)?;
    Ok((number as u32, end))
}

/// A decimal number that is at most so large, without leading zeros. The fault is at the first digit that is
/// one too many.
pub(crate) fn long_decimal_at(text: &[u8], at: usize, most: u64) -> ReadTo<u64>
    requires place { at ≤ length text.now }
    requires most { 9 ≤ most }
    ensures found { IfOk result (λ x. slice_range text.now at x.1 ≡ decimal x.0) }
    ensures fits { IfOk result (λ x. x.0 ≤ most) }
    ensures only { (n b : ℕ) (rest : List ℕ) → drop at text.now ≡ decimal n ++ b ∷ rest → n ≤ most
        → (IsDigit b → ⊥) → result ≡ Ok (n, at + length (decimal n)) }
    ensures end { IfOk result (λ x. (at < x.1) × (x.1 ≤ length text.now)) }
    ensures fault { IfErr result (IsFaultWithin at (length text.now)) }
{
    let mut number = 0;
    let mut end = at;
    while let Some(digit) = digit_at(text, end) {
        if number == 0 && at < end {
            return Err(ShapeTextError::BadShape(end));
        }
        number = with_digit(number, digit, most).ok_or(ShapeTextError::BadShape(end))?;
        end += 1;
    }
    if end == at {
        return Err(ShapeTextError::BadShape(at));
    }
    Ok((number, end))
}

fn digit_at(text: &[u8], at: usize) -> Option<u64>
    ensures bound { IfSome result (λ digit. (digit < 10) × (at < length text.now)) }
    ensures value { IfSome result (λ digit. slice_index text.now at ≡ 48 + digit) }
    ensures none { IfNone result (at < length text.now → IsDigit (slice_index text.now at) → ⊥) }
{
    let byte = *text.get(at)?;
    if byte.is_ascii_digit() {
        Some(u64::from(byte - b'0'))
    } else {
        None
    }
}

fn with_digit(number: u64, digit: u64, most: u64) -> Option<u64>
    requires { (digit < 10) × (9 ≤ most) }
    ensures value { IfSome result (λ n. (n ≡ number * 10 + digit) × (n ≤ most)) }
    ensures fits { IfSome result (λ n. n < 2 ^ 64) }
    ensures none { IfNone result (most < number * 10 + digit) }
{
    if number <= (most - digit) / 10 {
        Some(number * 10 + digit)
    } else {
        None
    }
}
