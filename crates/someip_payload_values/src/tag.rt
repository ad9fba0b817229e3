//! Tags of the items of tagged structures (SOME/IP Protocol, "Structured Datatypes and Arguments with
//! Identifier and optional Members").

ghost use Rattle.std.specs.Prelude.{◌≡◌, ◌%◌, ◌^◌, false};
ghost use Rattle.someip_payload_values.specs.Tags.{wire_type_number, wire_type_in, tag_number, tag_in, is_basic, is_length, own_width, has_wire_type, width_in, wire_type_of};
ghost use Rattle.someip_payload_values.specs.View.{form};

use crate::number::Size;
use crate::shape::{Shape, Width};

/// What stands after a tag, which says it by a number of three bits, as the standard's table has it.
///
/// ```text
/// 0 1 2 3    a basic value of 8, 16, 32 or 64 bits
/// 4          a length field of the width that the shape gives it, and a body
/// 5 6 7      a length field of 8, 16 or 32 bits, and a body
/// ```
#[derive(Clone, Copy)]
pub enum WireType {
    Basic(Size),
    OwnLength,
    Length(Width),
}

/// What the 16 bits in front of an item say. The highest bit is reserved: it is written as 0, and
/// not looked at.
///
/// ```text
///  15  14      12  11                                            0
/// +---+-----------+-----------------------------------------------+
/// | R | wire type |                    Data ID                    |
/// +---+-----------+-----------------------------------------------+
///
/// 5002    wire type 5, Data ID 2: after it a length field of 8 bits and a body
/// ```
#[derive(Clone, Copy)]
pub struct Tag {
    pub wire_type: WireType,
    pub id: u16,
}

/// The number of a wire type.
fn wire_type_number(wire_type: WireType) -> u16
    ensures { result ≡ wire_type_number wire_type }
{
    match wire_type {
        WireType::Basic(Size::S8) => 0,
        WireType::Basic(Size::S16) => 1,
        WireType::Basic(Size::S32) => 2,
        WireType::Basic(Size::S64) => 3,
        WireType::OwnLength => 4,
        WireType::Length(Width::W8) => 5,
        WireType::Length(Width::W16) => 6,
        WireType::Length(Width::W32) => 7,
    }
}

/// The wire type of a number of three bits.
fn wire_type_in(number: u16) -> WireType
    ensures { result ≡ wire_type_in number }
{
    match number {
        0 => WireType::Basic(Size::S8),
        1 => WireType::Basic(Size::S16),
        2 => WireType::Basic(Size::S32),
        3 => WireType::Basic(Size::S64),
        4 => WireType::OwnLength,
        5 => WireType::Length(Width::W8),
        6 => WireType::Length(Width::W16),
        _ => WireType::Length(Width::W32),
    }
}

/// What a tag of this number says.
pub fn tag_in(number: u16) -> Tag
    ensures { result ≡ tag_in number }
{
    Tag {
        wire_type: wire_type_in(number / 0x1000 % 8),
        id: number % 0x1000,
    }
}

/// The number of a tag, with a reserved bit of 0. A Data ID has 12 bits, or the shape was refused.
pub(crate) fn tag_number(wire_type: WireType, id: u16) -> u16
    ensures { result ≡ tag_number false wire_type id % 2 ^ 16 }
{
    (wire_type_number(wire_type) * 0x1000).wrapping_add(id)
}

/// The width of the length field that the shape gives a value. Where it gives none, this is not used.
pub fn own_width(shape: &Shape) -> Width
    ensures { result ≡ own_width (form shape.now) }
{
    match shape {
        Shape::Text(_, width)
        | Shape::Array(width, _, _)
        | Shape::Struct(Some(width), _)
        | Shape::Tagged(width, _)
        | Shape::FramedFixed(width, _, _)
        | Shape::SizedUnion(width, _, _) => *width,
        Shape::Named(_, shape) => own_width(shape),
        Shape::Enum(shape, _) => own_width(shape),
        _ => Width::W32,
    }
}

/// Whether an item with a value of the shape may have the wire type.
pub fn has_wire_type(shape: &Shape, wire_type: WireType) -> bool
    ensures { result ≡ has_wire_type (form shape.now) wire_type }
{
    match shape {
        Shape::Bool | Shape::U8 | Shape::I8 => is_basic(Size::S8, wire_type),
        Shape::U16 | Shape::I16 | Shape::U16Le | Shape::I16Le => is_basic(Size::S16, wire_type),
        Shape::U32 | Shape::I32 | Shape::U32Le | Shape::I32Le => is_basic(Size::S32, wire_type),
        Shape::U64 | Shape::I64 | Shape::U64Le | Shape::I64Le => is_basic(Size::S64, wire_type),
        Shape::F32 | Shape::F32Le => is_basic(Size::S32, wire_type),
        Shape::F64 | Shape::F64Le => is_basic(Size::S64, wire_type),
        Shape::Fixed(_, _) | Shape::Struct(None, _) | Shape::FixedText(_, _) => false,
        Shape::Named(_, shape) => has_wire_type(shape, wire_type),
        Shape::Enum(shape, _) => has_wire_type(shape, wire_type),
        _ => is_length(wire_type),
    }
}

fn is_basic(size: Size, wire_type: WireType) -> bool
    ensures { result ≡ is_basic size wire_type }
{
    match (size, wire_type) {
        (Size::S8, WireType::Basic(Size::S8))
        | (Size::S16, WireType::Basic(Size::S16))
        | (Size::S32, WireType::Basic(Size::S32))
        | (Size::S64, WireType::Basic(Size::S64)) => true,
        _ => false,
    }
}

fn is_length(wire_type: WireType) -> bool
    ensures { result ≡ is_length wire_type }
{
    !matches!(wire_type, WireType::Basic(_))
}

/// The width of the length field of a value of the shape in an item of the wire type.
pub fn width_in(wire_type: WireType, shape: &Shape) -> Width
    ensures { result ≡ width_in wire_type (form shape.now) }
{
    match wire_type {
        WireType::Length(width) => width,
        _ => own_width(shape),
    }
}

/// The wire type with which an item with a value of the shape is written.
pub(crate) fn wire_type_of(shape: &Shape) -> WireType
    ensures { result ≡ wire_type_of (form shape.now) }
{
    match shape {
        Shape::Bool | Shape::U8 | Shape::I8 => WireType::Basic(Size::S8),
        Shape::U16 | Shape::I16 | Shape::U16Le | Shape::I16Le => WireType::Basic(Size::S16),
        Shape::U32 | Shape::I32 | Shape::U32Le | Shape::I32Le => WireType::Basic(Size::S32),
        Shape::U64 | Shape::I64 | Shape::U64Le | Shape::I64Le => WireType::Basic(Size::S64),
        Shape::F32 | Shape::F32Le => WireType::Basic(Size::S32),
        Shape::F64 | Shape::F64Le => WireType::Basic(Size::S64),
        Shape::Fixed(_, _) | Shape::Struct(None, _) | Shape::FixedText(_, _) => WireType::OwnLength,
        Shape::Named(_, shape) => wire_type_of(shape),
        Shape::Enum(shape, _) => wire_type_of(shape),
        _ => WireType::Length(own_width(shape)),
    }
}
