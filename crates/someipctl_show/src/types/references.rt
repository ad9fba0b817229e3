//! The names that the text of a shape refers to.
ghost use Rattle.std.specs.Prelude.{◌≡◌, ◌+◌, ◌<◌, ◌≤◌, ◌^◌, ◌-◌, ◌∷◌, [], true, drop, length, slice_range, IfOk, IfErr, IfSome, IfNone, min};
ghost use Rattle.someip_payload_values.specs.Check.{is_name};
ghost use Rattle.someip_payload_values.specs.View.{form};
ghost use Rattle.someipctl_show.specs.types.Judging.{ReadsIn, NotRead};
ghost use Rattle.someipctl_show.specs.types.Names.{most_written};
ghost use Rattle.someipctl_show.specs.types.References.{references, KnowsAll, written_out};

use crate::types::key_error::KeyError;
use someip_payload::{
    NamedShapes, Shape, ShapeTextError, next_reference, read_shape_in, shapes_in,
};
use someip_texts::text_of;
use std::alloc::Global;

/// The next name that a text refers to, at a place or after it, and the place after the name.
pub(crate) fn next_name(text: &str, from: usize) -> Option<(&str, usize)>
    requires { from ≤ length text.now }
    ensures found { IfSome result (λ x. references (drop from text.now) ≡ x.0.now ∷ references (drop x.1 text.now)) }
    ensures end { IfSome result (λ x. (from < x.1) × (x.1 ≤ length text.now)) }
    ensures none { IfNone result (references (drop from text.now) ≡ []) }
{
    let mut at = from;
    while let Some((sign, end)) = next_reference(text, at) {
        if let Some(name) = name_between(text, sign + 1, end) {
            return Some((name, end));
        }
        at = end;
    }
    None
}

/// The name between two places, if there is one.
fn name_between(text: &str, first: usize, end: usize) -> Option<&str>
    requires places { (first ≤ end) × (end ≤ length text.now) }
    requires name { first < end → is_name (slice_range text.now first end) ≡ true }
    ensures found { IfSome result (λ name. (first < end) × (name.now ≡ slice_range text.now first end)) }
    ensures none { IfNone result (first ≡ end) }
{
    if first == end {
        return None;
    }
    text_of(&text.as_bytes()[first..end])
}

/// How many shapes are written out where a text refers to names, or the largest `u64` if there are more.
fn written_in(alloc: Global, names: &NamedShapes, text: &str) -> Result<u64, KeyError>
    ensures known { IfOk result (λ _. KnowsAll names.now (references text.now)) }
    ensures count { IfOk result (λ n. n ≡ min (written_out names.now text.now) (2 ^ 64 - 1)) }
    ensures unknown { IfErr result (NotRead names.now (2 ^ 64) text.now) }
{
    let mut written: u64 = 0;
    let mut from = 0;
    while let Some((name, end)) = next_name(text, from) {
        let Some(shape) = names.get(name) else {
            return Err(KeyError::Unknown(String::from_str(alloc, name)?));
        };
        written = written.saturating_add(shapes_in(shape));
        from = end;
    }
    Ok(written)
}

/// The shape of a text that may refer to names, where so many shapes may be written out for them, and how many
/// may be after it.
pub(crate) fn read_in(
    alloc: Global,
    names: &NamedShapes,
    left: u64,
    text: &str,
) -> Result<(Shape, u64), KeyError>
    requires { left ≤ most_written }
    ensures ok { IfOk result (λ x. ReadsIn names.now left text.now (form x.0) x.1) }
    ensures err { IfErr result (NotRead names.now left text.now) }
{
    let written = written_in(alloc, names, text)?;
    if left < written {
        return Err(KeyError::TooMany);
    }
    match read_shape_in(alloc, names, text) {
        Ok(shape) => Ok((shape, left - written)),
        Err(ShapeTextError::BadShape(place)) => Err(KeyError::BadText(place)),
        Err(ShapeTextError::OutOfMemory) => Err(KeyError::OutOfMemory),
    }
}
