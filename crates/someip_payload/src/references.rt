//! References in the texts of shapes: an `@` and a name.

ghost use Rattle.std.specs.Prelude.{◌≡◌, ◌+◌, ◌<◌, ◌≤◌, ◌++◌, ◌∷◌, ℕ, true, List, Some, length, drop, slice_range, slice_index, IfSome, IfNone, IfOk, IfErr};
ghost use Rattle.someip_payload_values.specs.Check.{is_name, depth};
ghost use Rattle.someip_payload_values.specs.Data.{Form};
ghost use Rattle.someip_payload_values.specs.View.{form};
ghost use Rattle.someip_payload.specs.Named.{form_named};
ghost use Rattle.someip_payload.specs.References.{HasNoSign, IsLongestName};
ghost use Rattle.someip_payload.specs.ShapeText.{IsTextIn, EndsName, IsFaultWithin, IsReadTo};

use crate::copies::copy_shape;
use crate::named_shapes::NamedShapes;
use crate::names::{name_end, name_str};
use crate::shape_sizes::depth_of;
use crate::shape_text_error::ShapeTextError;
use crate::text_parts::ReadTo;
use someip_payload_codec::Shape;
use std::alloc::Global;

/// The next reference of a text at a place or after it: the place of its `@`, and that after the name which
/// follows the `@`. The name is as long as it can be, and is empty where none follows.
pub fn next_reference(text: &str, from: usize) -> Option<(usize, usize)>
    // No `@` stands before it.
    ensures first { IfSome result (λ x. HasNoSign (slice_range text.now from x.0)) }
    ensures sign { IfSome result (λ x. (from ≤ x.0) × (x.0 < length text.now) × (slice_index text.now x.0 ≡ 64)) }
    ensures name { IfSome result (λ x. IsLongestName (drop (x.0 + 1) text.now) (slice_range text.now (x.0 + 1) x.1)) }
    ensures end { IfSome result (λ x. (x.0 < x.1) × (x.1 ≤ length text.now)) }
    ensures none { IfNone result (HasNoSign (drop from text.now)) }
{
    let text = text.as_bytes();
    let mut at = from;
    while at < text.len() {
        if text[at] == b'@' {
            return Some((at, name_end(text, at + 1)));
        }
        at += 1;
    }
    None
}

/// A reference to a shape, which must not lie deeper than that: an `@` and its name.
pub(crate) fn reference_at(
    alloc: Global,
    names: &NamedShapes,
    text: &[u8],
    at: usize,
    left: u32,
) -> ReadTo<Shape>
    requires { (at < length text.now) × (slice_index text.now at ≡ 64) }
    ensures found { IfOk result (λ x. IsTextIn names.now (form x.0) (slice_range text.now at x.1)) }
    ensures only { (n rest : List ℕ) (f : Form) → drop at text.now ≡ 64 ∷ (n ++ rest) → is_name n ≡ true
        → form_named names.now n ≡ Some f → depth f ≤ left → EndsName rest
        → IsReadTo form f (at + (length n + 1)) result }
    ensures within { IfOk result (λ x. depth (form x.0) ≤ left) }
    ensures end { IfOk result (λ x. (at < x.1) × (x.1 ≤ length text.now)) }
    ensures fault { IfErr result (IsFaultWithin at (length text.now)) }
{
    let first = at + 1;
    let end = name_end(text, first);
    if end == first {
        return Err(ShapeTextError::BadShape(at));
    }
    let Some(shape) = names.get(name_str(&text[first..end])) else {
        return Err(ShapeTextError::BadShape(at));
    };
    if u64::from(left) < depth_of(shape) {
        return Err(ShapeTextError::BadShape(at));
    }
    Ok((copy_shape(alloc, shape)?, end))
}
