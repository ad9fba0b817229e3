//! The words that shapes' texts begin with, and the widths of length fields.

ghost use Rattle.std.specs.Prelude.{◌≡◌, ◌+◌, ◌<◌, ◌≤◌, ◌++◌, ℕ, List, Option, Some, None, Ok, length, drop, slice_range, IfOk, IfErr};
ghost use Rattle.someip_payload_values.specs.declared.shape.Width.{Width};
ghost use Rattle.someip_payload_values.specs.Data.{fixed};
ghost use Rattle.someip_payload_values.specs.View.{form, all_variants};
ghost use Rattle.someip_payload.specs.declared.words.Word.{Word};
ghost use Rattle.someip_payload.specs.ShapeText.{IsFaultWithin, HasNoWidth, EndsWord, width_text, widths_text, or_32, union_of};
ghost use Rattle.someip_payload.specs.Words.{word_text, integer_form, float_form};

use crate::shape_text_error::ShapeTextError;
use crate::text_parts::{ReadTo, word_at};
use someip_payload_codec::{Encoding, Shape, Width};

/// The word of an integer.
#[derive(Clone, Copy)]
pub(crate) enum Integer {
    U8,
    U16,
    U32,
    U64,
    I8,
    I16,
    I32,
    I64,
    U16Le,
    U32Le,
    U64Le,
    I16Le,
    I32Le,
    I64Le,
}

/// The word of a float.
#[derive(Clone, Copy)]
pub(crate) enum Float {
    F32,
    F64,
    F32Le,
    F64Le,
}

/// The word that a shape's text begins with.
#[derive(Clone, Copy)]
pub(crate) enum Word {
    Bool,
    Integer(Integer),
    Float(Float),
    Text(Encoding),
    FixedText(Encoding),
    Array,
    Fixed,
    Struct,
    Union,
    Tagged,
}

/// What a shape's text begins with.
const WORDS: [(&str, Word); 28] = [
    ("bool", Word::Bool),
    ("u8", Word::Integer(Integer::U8)),
    ("u16", Word::Integer(Integer::U16)),
    ("u32", Word::Integer(Integer::U32)),
    ("u64", Word::Integer(Integer::U64)),
    ("i8", Word::Integer(Integer::I8)),
    ("i16", Word::Integer(Integer::I16)),
    ("i32", Word::Integer(Integer::I32)),
    ("i64", Word::Integer(Integer::I64)),
    ("u16le", Word::Integer(Integer::U16Le)),
    ("u32le", Word::Integer(Integer::U32Le)),
    ("u64le", Word::Integer(Integer::U64Le)),
    ("i16le", Word::Integer(Integer::I16Le)),
    ("i32le", Word::Integer(Integer::I32Le)),
    ("i64le", Word::Integer(Integer::I64Le)),
    ("f32", Word::Float(Float::F32)),
    ("f64", Word::Float(Float::F64)),
    ("f32le", Word::Float(Float::F32Le)),
    ("f64le", Word::Float(Float::F64Le)),
    ("utf8", Word::Text(Encoding::Utf8)),
    ("utf16", Word::Text(Encoding::Utf16)),
    ("utf8fix", Word::FixedText(Encoding::Utf8)),
    ("utf16fix", Word::FixedText(Encoding::Utf16)),
    ("array", Word::Array),
    ("fixed", Word::Fixed),
    ("struct", Word::Struct),
    ("union", Word::Union),
    ("tagged", Word::Tagged),
];

const WIDTHS: [(&str, Width); 3] = [("/8", Width::W8), ("/16", Width::W16), ("/32", Width::W32)];

/// The word that a shape's text begins with, and the place after it.
pub(crate) fn first_word(text: &[u8], at: usize) -> ReadTo<Word>
    requires { at ≤ length text.now }
    ensures found { IfOk result (λ x. slice_range text.now at x.1 ≡ word_text x.0) }
    ensures only { (w : Word) (rest : List ℕ) → drop at text.now ≡ word_text w ++ rest → EndsWord rest
        → result ≡ Ok (w, at + length (word_text w)) }
    ensures end { IfOk result (λ x. (at < x.1) × (x.1 ≤ length text.now)) }
    ensures fault { IfErr result (IsFaultWithin at (length text.now)) }
{
    word_at(&WORDS, text, at)
}

/// The width of a length field, where one is written.
pub(crate) fn width_at(text: &[u8], at: usize) -> ReadTo<Option<Width>>
    requires { at ≤ length text.now }
    ensures found { IfOk result (λ x. slice_range text.now at x.1 ≡ width_text x.0) }
    ensures only { (w : Option Width) (rest : List ℕ) → drop at text.now ≡ width_text w ++ rest
        → HasNoWidth rest → result ≡ Ok (w, at + length (width_text w)) }
    ensures end { IfOk result (λ x. (at ≤ x.1) × (x.1 ≤ length text.now)) }
    ensures fault { IfErr result (IsFaultWithin at (length text.now)) }
{
    if text.get(at) != Some(&b'/') {
        return Ok((None, at));
    }
    let (width, end) = written_width_at(text, at)?;
    Ok((Some(width), end))
}

/// The widths of a union's length field and type field, where they are written.
pub(crate) fn widths_at(text: &[u8], at: usize) -> ReadTo<Option<(Width, Width)>>
    requires { at ≤ length text.now }
    ensures found { IfOk result (λ x. slice_range text.now at x.1 ≡ widths_text x.0) }
    ensures only { (ws : Option (Width × Width)) (rest : List ℕ) → drop at text.now ≡ widths_text ws ++ rest
        → HasNoWidth rest → result ≡ Ok (ws, at + length (widths_text ws)) }
    ensures end { IfOk result (λ x. (at ≤ x.1) × (x.1 ≤ length text.now)) }
    ensures fault { IfErr result (IsFaultWithin at (length text.now)) }
{
    if text.get(at) != Some(&b'/') {
        return Ok((None, at));
    }
    let (width, behind) = written_width_at(text, at)?;
    let (type_width, end) = written_width_at(text, behind)?;
    Ok((Some((width, type_width)), end))
}

/// A width that is written.
fn written_width_at(text: &[u8], at: usize) -> ReadTo<Width>
    requires { at ≤ length text.now }
    ensures found { IfOk result (λ x. slice_range text.now at x.1 ≡ width_text (Some x.0)) }
    ensures only { (w : Width) (rest : List ℕ) → drop at text.now ≡ width_text (Some w) ++ rest
        → result ≡ Ok (w, at + length (width_text (Some w))) }
    ensures end { IfOk result (λ x. (at ≤ x.1) × (x.1 ≤ length text.now)) }
    ensures fault { IfErr result (IsFaultWithin at (length text.now)) }
{
    word_at(&WIDTHS, text, at)
}

pub(crate) fn or_32(width: Option<Width>) -> Width
    ensures { result ≡ or_32 width }
{
    width.unwrap_or(Width::W32)
}

/// The shape of an integer.
pub(crate) fn integer_shape(integer: Integer) -> Shape
    ensures { form result ≡ integer_form integer }
{
    match integer {
        Integer::U8 => Shape::U8,
        Integer::U16 => Shape::U16,
        Integer::U32 => Shape::U32,
        Integer::U64 => Shape::U64,
        Integer::I8 => Shape::I8,
        Integer::I16 => Shape::I16,
        Integer::I32 => Shape::I32,
        Integer::I64 => Shape::I64,
        Integer::U16Le => Shape::U16Le,
        Integer::U32Le => Shape::U32Le,
        Integer::U64Le => Shape::U64Le,
        Integer::I16Le => Shape::I16Le,
        Integer::I32Le => Shape::I32Le,
        Integer::I64Le => Shape::I64Le,
    }
}

/// The shape of a float.
pub(crate) fn float_shape(float: Float) -> Shape
    ensures { form result ≡ float_form float }
{
    match float {
        Float::F32 => Shape::F32,
        Float::F64 => Shape::F64,
        Float::F32Le => Shape::F32Le,
        Float::F64Le => Shape::F64Le,
    }
}

/// So many elements, perhaps after a length field.
pub(crate) fn fixed_shape(width: Option<Width>, count: u32, element: Box<Shape>) -> Shape
    ensures { form result ≡ fixed width count (form element.value) }
{
    match width {
        None => Shape::Fixed(count, element),
        Some(width) => Shape::FramedFixed(width, count, element),
    }
}

/// A union, perhaps with the widths of its fields.
pub(crate) fn union_shape(widths: Option<(Width, Width)>, variants: Vec<(u32, Shape)>) -> Shape
    ensures { form result ≡ union_of widths (all_variants variants.items) }
{
    match widths {
        None => Shape::Union(variants),
        Some((width, type_width)) => Shape::SizedUnion(width, type_width, variants),
    }
}
