//! Shapes from their texts.

ghost use Rattle.std.specs.Prelude.{◌≡◌, ◌+◌, ◌<◌, ◌≤◌, ◌^◌, ◌++◌, [], ℕ, true, List, Ok, length, drop, slice_range, codes, IfOk, IfErr};
ghost use Rattle.someip_payload.specs.declared.words.Word.{Word};
ghost use Rattle.someip_payload_values.specs.Data.{Form, named, Forms, Variants, Members};
ghost use Rattle.someip_payload_values.specs.Check.{is_name, depth, deepest, deepest_variant, deepest_member};
ghost use Rattle.someip_payload.specs.ShapeText.{IsTextOf, IsTextIn, IsTextOfMember, IsTextOfMembers, IsTextOfVariants, OneVariant, one_variant, IsTextOfVariant, IsTextOfTaggedMembers, IsTextOfTaggedMember, IsFaultWithin, EndsShape, IsReadAs, IsReadTo, IsRepeatedTo, reach, repeated_text};
ghost use Rattle.someip_payload_values.specs.View.{form, forms, all_variants, all_members, OneMember, one_member};
ghost use Rattle.someip_payload.specs.Named.{NamedForms};
ghost use Rattle.someip_payload.specs.Words.{word_text, Behind};

use crate::labels::labels_at;
use crate::named_shapes::NamedShapes;
use crate::names::{has_name, name_at, name_end, name_to, with_name};
use crate::references::reference_at;
use crate::shape_text_error::ShapeTextError;
use crate::text_parts::{ReadTo, byte_at, decimal_at, has_byte, mark_at, one_after_other};
use crate::words::{
    Integer, Word, first_word, fixed_shape, float_shape, integer_shape, or_32, union_shape,
    width_at, widths_at,
};
use someip_payload_codec::{Encoding, Member, Shape};
use std::alloc::Global;

/// How many shapes may lie around a shape in a text.
const MOST_AROUND: u32 = 64;

/// One more than the largest number that a shape may have.
const NUMBERS: u64 = 0x1_0000_0000;

/// One more than the largest Data ID.
const DATA_IDS: u64 = 0x1000;

/// The shape of this text: each text of a shape is read as it, unless memory runs out or more than 64 shapes
/// lie inside each other. A name or an enumeration adds none to these.
///
/// - `bool`, `u8` to `u64`, `i8` to `i64`, and `u16le` to `u64le` and `i16le` to `i64le` in little-endian;
/// - `f32` and `f64`, and `f32le` and `f64le` in little-endian;
/// - `utf8/16`, a text after a length field of 16 bits, and `utf8`, after one of 32; `utf8fix<16>`, in 16 bytes;
///   likewise `utf16`;
/// - `array/8<4,u16>`, at most 4 elements; `fixed<2,u8>`, exactly 2, and `fixed/8<2,u8>` after a length field;
/// - `struct(u8,name:utf8)`, and `struct/16(..)` after a length field; a member may have a name;
/// - `union(1:u8,2:bool)`, and `union/8/16(..)` with the widths of its length field and of its type field;
/// - `tagged/16(1:u8,2?:utf8,name:3:bool)`, members by their Data IDs, of which the second may be absent;
/// - `u8{0=PARK,3=DRIVE}`, an integer with names for some of its values.
///
/// A name is a letter or `_`, then letters, digits and `_` of ASCII, at most 64 bytes in all.
///
/// A fault's place is that of the first byte at which no text of a shape goes on, which is the length of a text
/// that ends too early. A shape inside 64 others is a fault at its first byte. Whether payloads can have the
/// shape is for [`check_shape`](crate::check_shape) to say, as that values rise and that names differ.
pub fn read_shape(alloc: Global, text: &str) -> Result<Shape, ShapeTextError>
    ensures found { IfOk result (λ shape. IsTextOf (form shape) text.now) }
    // Each text of a shape is read.
    ensures only { (f : Form) → IsTextOf f text.now → depth f ≤ 64 → IsReadAs form f result }
    // At most 64 shapes lie inside each other.
    ensures within { IfOk result (λ shape. depth (form shape) ≤ 64) }
    ensures fault { IfErr result (IsFaultWithin 0 (length text.now)) }
{
    read_shape_in(alloc, &NamedShapes::new(alloc), text)
}

/// The shape of a text that may refer to shapes by their names, as `struct(@speed,limit:@speed)`: a reference
/// stands wherever a shape may stand, and is read as a copy of the shape. It adds no depth of its own. The
/// rest is as in [`read_shape`].
///
/// The name after an `@` is as long as it can be. A fault's place is that of the `@` where no name or one of no
/// shape follows it, and where the shape is so deep that more than 64 would lie inside each other.
pub fn read_shape_in(
    alloc: Global,
    names: &NamedShapes,
    text: &str,
) -> Result<Shape, ShapeTextError>
    ensures found { IfOk result (λ shape. IsTextIn names.now (form shape) text.now) }
    // Each text of a shape is read.
    ensures only { (f : Form) → IsTextIn names.now f text.now → depth f ≤ 64 → IsReadAs form f result }
    // At most 64 shapes lie inside each other.
    ensures within { IfOk result (λ shape. depth (form shape) ≤ 64) }
    ensures fault { IfErr result (IsFaultWithin 0 (length text.now)) }
{
    let text = text.as_bytes();
    let (shape, end) = shape_at(alloc, names, text, 0, MOST_AROUND)?;
    if end < text.len() {
        return Err(ShapeTextError::BadShape(end));
    }
    Ok(shape)
}

/// The shape at a place, inside which so many others may lie, and the place after it.
#[cycle(shape)]
fn shape_at(alloc: Global, names: &NamedShapes, text: &[u8], at: usize, left: u32) -> ReadTo<Shape>
    requires { at ≤ length text.now }
    ensures found { IfOk result (λ x. IsTextIn names.now (form x.0) (slice_range text.now at x.1)) }
    ensures only { (f : Form) (front rest : List ℕ) → drop at text.now ≡ front ++ rest
        → IsTextIn names.now f front → depth f ≤ left → EndsShape rest
        → IsReadTo form f (at + length front) result }
    ensures within { IfOk result (λ x. depth (form x.0) ≤ left) }
    ensures end { IfOk result (λ x. (at < x.1) × (x.1 ≤ length text.now)) }
    ensures fault { IfErr result (IsFaultWithin at (length text.now)) }
{
    if left == 0 {
        return Err(ShapeTextError::BadShape(at));
    }
    if has_byte(b'@', text, at) {
        return reference_at(alloc, names, text, at, left);
    }
    let (word, end) = first_word(text, at)?;
    match word {
        Word::Bool => Ok((Shape::Bool, end)),
        Word::Integer(integer) => integer_at(alloc, integer, text, end),
        Word::Float(float) => Ok((float_shape(float), end)),
        Word::Text(encoding) => string_at(encoding, text, end),
        Word::FixedText(encoding) => padded_at(encoding, text, end),
        Word::Array => array_at(alloc, names, text, end, left - 1),
        Word::Fixed => fixed_at(alloc, names, text, end, left - 1),
        Word::Struct => struct_at(alloc, names, text, end, left - 1),
        Word::Union => union_at(alloc, names, text, end, left - 1),
        Word::Tagged => tagged_at(alloc, names, text, end, left - 1),
    }
}

/// The rest of a shape after the word of an integer: perhaps names for some of its values.
fn integer_at(alloc: Global, integer: Integer, text: &[u8], at: usize) -> ReadTo<Shape>
    requires { at ≤ length text.now }
    ensures found { (known : NamedForms) → IfOk result (λ x. IsTextIn known (form x.0) (word_text (Word.Integer integer) ++ slice_range text.now at x.1)) }
    ensures only { (f : Form) (back rest : List ℕ) → drop at text.now ≡ back ++ rest
        → Behind [] (Word.Integer integer) f back → EndsShape rest → IsReadTo form f (at + length back) result }
    ensures within { IfOk result (λ x. depth (form x.0) ≤ 1) }
    ensures end { IfOk result (λ x. (at ≤ x.1) × (x.1 ≤ length text.now)) }
    ensures fault { IfErr result (IsFaultWithin at (length text.now)) }
{
    let shape = integer_shape(integer);
    if !has_byte(b'{', text, at) {
        return Ok((shape, at));
    }
    let (labels, end) = labels_at(alloc, text, at + 1)?;
    let integers = Box::new(alloc, shape)?;
    Ok((Shape::Enum(integers, labels), end))
}

/// The rest of a shape after the word of an encoding.
fn string_at(encoding: Encoding, text: &[u8], at: usize) -> ReadTo<Shape>
    requires { at ≤ length text.now }
    ensures found { (known : NamedForms) → IfOk result (λ x. IsTextIn known (form x.0) (word_text (Word.Text encoding) ++ slice_range text.now at x.1)) }
    ensures only { (f : Form) (back rest : List ℕ) → drop at text.now ≡ back ++ rest
        → Behind [] (Word.Text encoding) f back → EndsShape rest → IsReadTo form f (at + length back) result }
    ensures within { IfOk result (λ x. depth (form x.0) ≤ 1) }
    ensures end { IfOk result (λ x. (at ≤ x.1) × (x.1 ≤ length text.now)) }
    ensures fault { IfErr result (IsFaultWithin at (length text.now)) }
{
    let (width, end) = width_at(text, at)?;
    Ok((Shape::Text(encoding, or_32(width)), end))
}

/// The rest of a shape after the word of a text in so many bytes.
fn padded_at(encoding: Encoding, text: &[u8], at: usize) -> ReadTo<Shape>
    requires { at ≤ length text.now }
    ensures found { (known : NamedForms) → IfOk result (λ x. IsTextIn known (form x.0) (word_text (Word.FixedText encoding) ++ slice_range text.now at x.1)) }
    ensures only { (f : Form) (back rest : List ℕ) → drop at text.now ≡ back ++ rest
        → Behind [] (Word.FixedText encoding) f back → IsReadTo form f (at + length back) result }
    ensures within { IfOk result (λ x. depth (form x.0) ≤ 1) }
    ensures end { IfOk result (λ x. (at ≤ x.1) × (x.1 ≤ length text.now)) }
    ensures fault { IfErr result (IsFaultWithin at (length text.now)) }
{
    let from = byte_at(b'<', text, at)?;
    let (room, last) = decimal_at(text, from, NUMBERS)?;
    let end = byte_at(b'>', text, last)?;
    Ok((Shape::FixedText(encoding, room), end))
}

/// The rest of a shape after the word `array`.
#[cycle(shape)]
fn array_at(alloc: Global, names: &NamedShapes, text: &[u8], at: usize, left: u32) -> ReadTo<Shape>
    requires { at ≤ length text.now }
    ensures found { IfOk result (λ x. IsTextIn names.now (form x.0) (codes "array" ++ slice_range text.now at x.1)) }
    ensures only { (f : Form) (back rest : List ℕ) → drop at text.now ≡ back ++ rest
        → Behind names.now Word.Array f back → depth f ≤ left + 1
        → IsReadTo form f (at + length back) result }
    ensures within { IfOk result (λ x. depth (form x.0) ≤ left + 1) }
    ensures end { IfOk result (λ x. (at ≤ x.1) × (x.1 ≤ length text.now)) }
    ensures fault { IfErr result (IsFaultWithin at (length text.now)) }
{
    let (width, from) = width_at(text, at)?;
    let (max, element, end) = repeated_at(alloc, names, text, from, left)?;
    Ok((Shape::Array(or_32(width), max, element), end))
}

/// The rest of a shape after the word `fixed`.
#[cycle(shape)]
fn fixed_at(alloc: Global, names: &NamedShapes, text: &[u8], at: usize, left: u32) -> ReadTo<Shape>
    requires { at ≤ length text.now }
    ensures found { IfOk result (λ x. IsTextIn names.now (form x.0) (codes "fixed" ++ slice_range text.now at x.1)) }
    ensures only { (f : Form) (back rest : List ℕ) → drop at text.now ≡ back ++ rest
        → Behind names.now Word.Fixed f back → depth f ≤ left + 1
        → IsReadTo form f (at + length back) result }
    ensures within { IfOk result (λ x. depth (form x.0) ≤ left + 1) }
    ensures end { IfOk result (λ x. (at ≤ x.1) × (x.1 ≤ length text.now)) }
    ensures fault { IfErr result (IsFaultWithin at (length text.now)) }
{
    let (width, from) = width_at(text, at)?;
    let (count, element, end) = repeated_at(alloc, names, text, from, left)?;
    Ok((fixed_shape(width, count, element), end))
}

/// A number of repetitions and the shape of what is repeated, in angle brackets.
#[cycle(shape)]
fn repeated_at(
    alloc: Global,
    names: &NamedShapes,
    text: &[u8],
    at: usize,
    left: u32,
) -> Result<(u32, Box<Shape>, usize), ShapeTextError>
    requires { at ≤ length text.now }
    ensures found { IfOk result (λ x. (element : List ℕ) × IsTextIn names.now (form x.1.value) element
        × (slice_range text.now at x.2 ≡ repeated_text x.0 element) × (x.0 < 2 ^ 32)) }
    ensures only { (n : ℕ) (f : Form) (element rest : List ℕ)
        → drop at text.now ≡ repeated_text n element ++ rest → n < 2 ^ 32 → IsTextIn names.now f element
        → depth f ≤ left → IsRepeatedTo (λ b. form b.value) n f (at + length (repeated_text n element)) result }
    ensures within { IfOk result (λ x. depth (form x.1.value) ≤ left) }
    ensures end { IfOk result (λ x. (at ≤ x.2) × (x.2 ≤ length text.now)) }
    ensures fault { IfErr result (IsFaultWithin at (length text.now)) }
{
    let from = byte_at(b'<', text, at)?;
    let (number, comma) = decimal_at(text, from, NUMBERS)?;
    let first = byte_at(b',', text, comma)?;
    let (element, last) = shape_at(alloc, names, text, first, left)?;
    let end = byte_at(b'>', text, last)?;
    Ok((number, Box::new(alloc, element)?, end))
}

/// The rest of a shape after the word `struct`.
#[cycle(shape)]
fn struct_at(alloc: Global, names: &NamedShapes, text: &[u8], at: usize, left: u32) -> ReadTo<Shape>
    requires { at ≤ length text.now }
    ensures found { IfOk result (λ x. IsTextIn names.now (form x.0) (codes "struct" ++ slice_range text.now at x.1)) }
    ensures only { (f : Form) (back rest : List ℕ) → drop at text.now ≡ back ++ rest
        → Behind names.now Word.Struct f back → depth f ≤ left + 1
        → IsReadTo form f (at + length back) result }
    ensures within { IfOk result (λ x. depth (form x.0) ≤ left + 1) }
    ensures end { IfOk result (λ x. (at ≤ x.1) × (x.1 ≤ length text.now)) }
    ensures fault { IfErr result (IsFaultWithin at (length text.now)) }
{
    let (width, from) = width_at(text, at)?;
    let first = byte_at(b'(', text, from)?;
    let (members, end) = members_at(alloc, names, text, first, left)?;
    Ok((Shape::Struct(width, members), end))
}

/// Members with commas between them, and a bracket after the last.
#[cycle(shape)]
fn members_at(
    alloc: Global,
    names: &NamedShapes,
    text: &[u8],
    at: usize,
    left: u32,
) -> ReadTo<Vec<Shape>>
    requires { at ≤ length text.now }
    ensures found { IfOk result (λ x. (members : List ℕ) × IsTextOfMembers names.now (forms x.0.items) members
        × (slice_range text.now at x.1 ≡ members ++ codes ")")) }
    ensures only { (fs : Forms) (members rest : List ℕ)
        → drop at text.now ≡ members ++ (codes ")" ++ rest) → IsTextOfMembers names.now fs members
        → deepest fs ≤ left
        → IsReadTo (λ x. forms x.items) fs (at + (length members + 1)) result }
    ensures within { IfOk result (λ x. deepest (forms x.0.items) ≤ left) }
    ensures end { IfOk result (λ x. (at ≤ x.1) × (x.1 ≤ length text.now)) }
    ensures fault { IfErr result (IsFaultWithin at (length text.now)) }
{
    one_after_other!(
        alloc,
        text,
        at,
        b')',
        |next| member_at(alloc, names, text, next, left)
    )
}

/// A member of a structure: perhaps a name and a colon, and a shape. A name that no colon follows is read as
/// a shape, which has no fault before the name's end, since a longer name could go on with a colon.
#[cycle(shape)]
fn member_at(alloc: Global, names: &NamedShapes, text: &[u8], at: usize, left: u32) -> ReadTo<Shape>
    requires { at ≤ length text.now }
    ensures found { IfOk result (λ x. IsTextOfMember names.now (form x.0) (slice_range text.now at x.1)) }
    ensures only { (f : Form) (front rest : List ℕ) → drop at text.now ≡ front ++ rest
        → IsTextOfMember names.now f front → depth f ≤ left → EndsShape rest
        → IsReadTo form f (at + length front) result }
    ensures within { IfOk result (λ x. depth (form x.0) ≤ left) }
    ensures end { IfOk result (λ x. (at < x.1) × (x.1 ≤ length text.now)) }
    ensures fault { IfErr result (IsFaultWithin at (length text.now)) }
{
    let name = name_end(text, at);
    if has_name(text, at, name) {
        return named_at(alloc, names, text, at, name, left);
    }
    if left == 0 {
        return Err(ShapeTextError::BadShape(at));
    }
    reach(name, shape_at(alloc, names, text, at, left))
}

/// A member of a structure, whose name ends at that place.
#[cycle(shape)]
fn named_at(
    alloc: Global,
    names: &NamedShapes,
    text: &[u8],
    at: usize,
    name_end: usize,
    left: u32,
) -> ReadTo<Shape>
    requires place { (at < name_end) × (name_end ≤ length text.now) }
    requires name { is_name (slice_range text.now at name_end) ≡ true }
    ensures found { IfOk result (λ x. IsTextOfMember names.now (form x.0) (slice_range text.now at x.1)) }
    ensures only { (f : Form) (front rest : List ℕ) → drop name_end text.now ≡ (codes ":" ++ front) ++ rest
        → IsTextIn names.now f front → depth f ≤ left → EndsShape rest
        → IsReadTo form (named (slice_range text.now at name_end) f) (name_end + (length front + 1)) result }
    ensures within { IfOk result (λ x. depth (form x.0) ≤ left) }
    ensures end { IfOk result (λ x. (at < x.1) × (x.1 ≤ length text.now)) }
    ensures fault { IfErr result (IsFaultWithin at (length text.now)) }
{
    let (name, first) = name_to(alloc, text, at, name_end)?;
    let (shape, end) = shape_at(alloc, names, text, first, left)?;
    Ok((with_name(alloc, Some(name), shape)?, end))
}

/// What was read, if neither it nor its fault ends before that place.
fn reach(least: usize, read: ReadTo<Shape>) -> ReadTo<Shape>
    ensures { result ≡ reach least read }
{
    match read {
        Ok((_, end)) if end < least => Err(ShapeTextError::BadShape(least)),
        Err(ShapeTextError::BadShape(place)) => Err(ShapeTextError::BadShape(place.max(least))),
        read => read,
    }
}

/// The rest of a shape after the word `union`.
#[cycle(shape)]
fn union_at(alloc: Global, names: &NamedShapes, text: &[u8], at: usize, left: u32) -> ReadTo<Shape>
    requires { at ≤ length text.now }
    ensures found { IfOk result (λ x. IsTextIn names.now (form x.0) (codes "union" ++ slice_range text.now at x.1)) }
    ensures only { (f : Form) (back rest : List ℕ) → drop at text.now ≡ back ++ rest
        → Behind names.now Word.Union f back → depth f ≤ left + 1
        → IsReadTo form f (at + length back) result }
    ensures within { IfOk result (λ x. depth (form x.0) ≤ left + 1) }
    ensures end { IfOk result (λ x. (at ≤ x.1) × (x.1 ≤ length text.now)) }
    ensures fault { IfErr result (IsFaultWithin at (length text.now)) }
{
    let (widths, from) = widths_at(text, at)?;
    let first = byte_at(b'(', text, from)?;
    let (variants, end) = variants_at(alloc, names, text, first, left)?;
    Ok((union_shape(widths, variants), end))
}

/// Variants with commas between them, and a bracket after the last.
#[cycle(shape)]
fn variants_at(
    alloc: Global,
    names: &NamedShapes,
    text: &[u8],
    at: usize,
    left: u32,
) -> ReadTo<Vec<(u32, Shape)>>
    requires { at ≤ length text.now }
    ensures found { IfOk result (λ x. (variants : List ℕ) × IsTextOfVariants names.now (all_variants x.0.items) variants
        × (slice_range text.now at x.1 ≡ variants ++ codes ")")) }
    ensures only { (vs : Variants) (variants rest : List ℕ)
        → drop at text.now ≡ variants ++ (codes ")" ++ rest) → IsTextOfVariants names.now vs variants
        → deepest_variant vs ≤ left
        → IsReadTo (λ x. all_variants x.items) vs (at + (length variants + 1)) result }
    ensures within { IfOk result (λ x. deepest_variant (all_variants x.0.items) ≤ left) }
    ensures end { IfOk result (λ x. (at ≤ x.1) × (x.1 ≤ length text.now)) }
    ensures fault { IfErr result (IsFaultWithin at (length text.now)) }
{
    one_after_other!(
        alloc,
        text,
        at,
        b')',
        |next| variant_at(alloc, names, text, next, left)
    )
}

/// A variant of a union: its type number and its shape.
#[cycle(shape)]
fn variant_at(
    alloc: Global,
    names: &NamedShapes,
    text: &[u8],
    at: usize,
    left: u32,
) -> ReadTo<(u32, Shape)>
    requires { at ≤ length text.now }
    ensures found { IfOk result (λ x. IsTextOfVariant names.now (one_variant x.0) (slice_range text.now at x.1)) }
    ensures only { (v : OneVariant) (front rest : List ℕ) → drop at text.now ≡ front ++ rest
        → IsTextOfVariant names.now v front → depth v.form ≤ left → EndsShape rest
        → IsReadTo one_variant v (at + length front) result }
    ensures within { IfOk result (λ x. depth (one_variant x.0).form ≤ left) }
    ensures end { IfOk result (λ x. (at < x.1) × (x.1 ≤ length text.now)) }
    ensures fault { IfErr result (IsFaultWithin at (length text.now)) }
{
    let (number, colon) = decimal_at(text, at, NUMBERS)?;
    let first = byte_at(b':', text, colon)?;
    let (shape, end) = shape_at(alloc, names, text, first, left)?;
    Ok(((number, shape), end))
}

/// The rest of a shape after the word `tagged`.
#[cycle(shape)]
fn tagged_at(alloc: Global, names: &NamedShapes, text: &[u8], at: usize, left: u32) -> ReadTo<Shape>
    requires { at ≤ length text.now }
    ensures found { IfOk result (λ x. IsTextIn names.now (form x.0) (codes "tagged" ++ slice_range text.now at x.1)) }
    ensures only { (f : Form) (back rest : List ℕ) → drop at text.now ≡ back ++ rest
        → Behind names.now Word.Tagged f back → depth f ≤ left + 1
        → IsReadTo form f (at + length back) result }
    ensures within { IfOk result (λ x. depth (form x.0) ≤ left + 1) }
    ensures end { IfOk result (λ x. (at ≤ x.1) × (x.1 ≤ length text.now)) }
    ensures fault { IfErr result (IsFaultWithin at (length text.now)) }
{
    let (width, from) = width_at(text, at)?;
    let first = byte_at(b'(', text, from)?;
    let (members, end) = tagged_members_at(alloc, names, text, first, left)?;
    Ok((Shape::Tagged(or_32(width), members), end))
}

/// Members of a tagged structure with commas between them, and a bracket after the last.
#[cycle(shape)]
fn tagged_members_at(
    alloc: Global,
    names: &NamedShapes,
    text: &[u8],
    at: usize,
    left: u32,
) -> ReadTo<Vec<Member>>
    requires { at ≤ length text.now }
    ensures found { IfOk result (λ x. (members : List ℕ) × IsTextOfTaggedMembers names.now (all_members x.0.items) members
        × (slice_range text.now at x.1 ≡ members ++ codes ")")) }
    ensures only { (ms : Members) (members rest : List ℕ)
        → drop at text.now ≡ members ++ (codes ")" ++ rest) → IsTextOfTaggedMembers names.now ms members
        → deepest_member ms ≤ left
        → IsReadTo (λ x. all_members x.items) ms (at + (length members + 1)) result }
    ensures within { IfOk result (λ x. deepest_member (all_members x.0.items) ≤ left) }
    ensures end { IfOk result (λ x. (at ≤ x.1) × (x.1 ≤ length text.now)) }
    ensures fault { IfErr result (IsFaultWithin at (length text.now)) }
{
    one_after_other!(
        alloc,
        text,
        at,
        b')',
        |next| tagged_member_at(alloc, names, text, next, left)
    )
}

/// A member of a tagged structure: perhaps a name and a colon, its Data ID, perhaps a question mark, and its shape.
#[cycle(shape)]
fn tagged_member_at(
    alloc: Global,
    names: &NamedShapes,
    text: &[u8],
    at: usize,
    left: u32,
) -> ReadTo<Member>
    requires { at ≤ length text.now }
    ensures found { IfOk result (λ x. IsTextOfTaggedMember names.now (one_member x.0) (slice_range text.now at x.1)) }
    ensures only { (m : OneMember) (front rest : List ℕ) → drop at text.now ≡ front ++ rest
        → IsTextOfTaggedMember names.now m front → depth m.form ≤ left → EndsShape rest
        → IsReadTo one_member m (at + length front) result }
    ensures within { IfOk result (λ x. depth (one_member x.0).form ≤ left) }
    ensures end { IfOk result (λ x. (at < x.1) × (x.1 ≤ length text.now)) }
    ensures fault { IfErr result (IsFaultWithin at (length text.now)) }
{
    let (name, from) = name_at(alloc, text, at)?;
    let (number, behind) = decimal_at(text, from, DATA_IDS)?;
    let (is_optional, colon) = mark_at(text, behind);
    let first = byte_at(b':', text, colon)?;
    let (shape, end) = shape_at(alloc, names, text, first, left)?;
    let named = with_name(alloc, name, shape)?;
    let id = number as u16;
    Ok((
        Member {
            id,
            is_optional,
            shape: named,
        },
        end,
    ))
}
