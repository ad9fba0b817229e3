//! Values from bytes.

ghost use Rattle.std.specs.Prelude.{◌≡◌, ◌≤◌, ◌<◌, ℕ, take, length, Some, None, IfOk, IfErr, Ok, Err};
ghost use Rattle.someip_payload_values.specs.Data.{array, fixed, «struct», tagged, Data};
ghost use Rattle.someip_payload_values.specs.Check.{checked};
ghost use Rattle.someip_payload_codec.specs.Faults.{FaultIn, IsFirstFault, IsReadingFault, whole};
ghost use Rattle.someip_payload_codec.specs.Grammar.{Reads};
ghost use Rattle.someip_payload_values.specs.View.{form, forms, one_member, all_variants, all_members, data_of, data_of_all, slots_of};
ghost use Rattle.someip_payload_codec.specs.View.{seen};
ghost use Rattle.someip_payload_values.specs.Steps.{Gives};
ghost use Rattle.someip_payload_codec.specs.Reading.{decoded, data_at, data_by, items_at, fixed_at, members_at, union_at, chosen_at, variant_at, member_at, tagged_at, item_at, all_absent};
ghost use Rattle.someip_payload_codec.specs.Indexes.{HasIndexes, Fills};

use crate::basic::{double, fixed_text, signed, single, string, truth, unsigned};
use crate::fields::{body, number, sized, skipped, tag};
use crate::members::{empty_slots, have_required, indexes_of};
use crate::window::Window;
use someip_payload_values::{
    Member, Order, PayloadError, Shape, Size, Tag, Value, Width, check_shape, has_wire_type,
    own_width, size_of, width_in,
};
use std::alloc::Global;
use std::collections::BTreeMap;

/// The value at the front of the bytes, and how many bytes it takes. What comes after it is not
/// looked at. Refuses what `check_shape` refuses, and then at the first fault from left to right:
/// `Truncated`, `LengthMismatch`, `TooMany`, `UnknownVariant`, `NoTerminator`, `BadText`,
/// `DuplicateMember`, `WrongWireType` or `MissingMember`, each with its place, in bytes from the
/// first one.
///
/// ```text
/// array<2,u16>    00000004 0001 0002            [1,2], 8 bytes
/// array<2,u16>    00000003 0001 00              LengthMismatch(6)
/// array<2,u16>    00000006 0001 0002 0003       TooMany(8)
/// tagged(1:u8)    00000007 0001 07 1009 ffff    {7}, 11 bytes
/// ```
pub fn decode(alloc: Global, shape: &Shape, bytes: &[u8]) -> Result<(Value, usize), PayloadError>
    // What is read is spelled so.
    ensures found { IfOk result (λ x. (checked (form shape.now) ≡ Ok tt) × (x.1 ≤ length bytes.now)
        × Reads (form shape.now) (data_of x.0) (take x.1 bytes.now)) }
    // What is spelled so is read, unless memory runs out.
    ensures only { (d : Data) (n : ℕ) → checked (form shape.now) ≡ Ok tt → n ≤ length bytes.now
        → Reads (form shape.now) d (take n bytes.now)
        → Gives {Y = Data × ℕ} (λ x. (data_of x.0, x.1)) result (Ok (d, n)) }
    // What stands before a fault is read, and at the fault nothing can be.
    ensures fault { IfErr result (λ e. IsFirstFault (form shape.now) bytes.now e) }
    // A shape that is refused is refused here too, and where a fault is described, it comes.
    ensures refused { (e : PayloadError) → checked (form shape.now) ≡ Err e
        → Gives {Y = Data × ℕ} (λ x. (data_of x.0, x.1)) result (Err e) }
    ensures faulty { (e : PayloadError) → checked (form shape.now) ≡ Ok tt
        → FaultIn (form shape.now) e (whole bytes.now)
        → Gives {Y = Data × ℕ} (λ x. (data_of x.0, x.1)) result (Err e) }
    // A fault is none of a value.
    ensures errors { IfErr result IsReadingFault }
    // Which value, or which fault: the first that reading from left to right meets.
    ensures exact { Gives (λ x. (data_of x.0, x.1)) result (decoded (form shape.now) bytes.now) }
{
    decode_front(alloc, shape, bytes)
}

#[tactic(auto, unfolding(crate::specs::Reading::decoded))]
fn decode_front(alloc: Global, shape: &Shape, bytes: &[u8]) -> Result<(Value, usize), PayloadError>
    ensures { Gives (λ x. (data_of x.0, x.1)) result (decoded (form shape.now) bytes.now) }
{
    check_shape(alloc, shape)?;
    let window = Window {
        bytes,
        place: 0,
        is_body: false,
    };
    let (value, rest) = value(alloc, shape, window)?;
    Ok((value, rest.place))
}

#[cycle(read)]
fn value<'a>(
    alloc: Global,
    shape: &Shape,
    window: Window<'a>,
) -> Result<(Value, Window<'a>), PayloadError>
    ensures { Gives (λ x. (data_of x.0, seen x.1)) result (data_at (form shape.now) (seen window.entry)) }
{
    value_by(alloc, own_width(shape), shape, window)
}

/// A value with a length field of that width, where its shape has one.
#[cycle(read)]
#[tactic(auto, unfolding(crate::specs::Reading::data_by))]
fn value_by<'a>(
    alloc: Global,
    width: Width,
    shape: &Shape,
    window: Window<'a>,
) -> Result<(Value, Window<'a>), PayloadError>
    ensures { Gives (λ x. (data_of x.0, seen x.1)) result (data_by width (form shape.now) (seen window.entry)) }
{
    match shape {
        Shape::Bool => truth(window),
        Shape::U8 => unsigned(Order::Big, Size::S8, window),
        Shape::U16 => unsigned(Order::Big, Size::S16, window),
        Shape::U32 => unsigned(Order::Big, Size::S32, window),
        Shape::U64 => unsigned(Order::Big, Size::S64, window),
        Shape::I8 => signed(Order::Big, Size::S8, window),
        Shape::I16 => signed(Order::Big, Size::S16, window),
        Shape::I32 => signed(Order::Big, Size::S32, window),
        Shape::I64 => signed(Order::Big, Size::S64, window),
        Shape::U16Le => unsigned(Order::Little, Size::S16, window),
        Shape::U32Le => unsigned(Order::Little, Size::S32, window),
        Shape::U64Le => unsigned(Order::Little, Size::S64, window),
        Shape::I16Le => signed(Order::Little, Size::S16, window),
        Shape::I32Le => signed(Order::Little, Size::S32, window),
        Shape::I64Le => signed(Order::Little, Size::S64, window),
        Shape::F32 => single(Order::Big, window),
        Shape::F64 => double(Order::Big, window),
        Shape::F32Le => single(Order::Little, window),
        Shape::F64Le => double(Order::Little, window),
        Shape::Text(encoding, _) => string(alloc, *encoding, width, window),
        Shape::FixedText(encoding, len) => fixed_text(alloc, *encoding, *len, window),
        Shape::Array(_, max, element) => array(alloc, width, *max, element, window),
        Shape::Fixed(count, element) => repeated(alloc, *count, element, window),
        Shape::FramedFixed(_, count, element) => {
            framed_repeated(alloc, width, *count, element, window)
        }
        Shape::Struct(None, shapes) => structure(alloc, shapes, window),
        Shape::Struct(Some(_), shapes) => framed_structure(alloc, width, shapes, window),
        Shape::Union(variants) => union(alloc, width, Width::W32, variants, window),
        Shape::SizedUnion(_, field, variants) => union(alloc, width, *field, variants, window),
        Shape::Tagged(_, members) => tagged(alloc, width, members, window),
        Shape::Named(_, shape) => value_by(alloc, width, shape, window),
        Shape::Enum(shape, _) => value_by(alloc, width, shape, window),
    }
}

/// The elements of the body after a length field of that width, at most so many.
#[cycle(read)]
#[tactic(auto, unfolding(crate::specs::Reading::data_by))]
fn array<'a>(
    alloc: Global,
    width: Width,
    max: u32,
    element: &Shape,
    window: Window<'a>,
) -> Result<(Value, Window<'a>), PayloadError>
    ensures { Gives (λ x. (data_of x.0, seen x.1)) result (data_by width (array width max (form element.now)) (seen window.entry)) }
{
    let (body, rest) = body(width, window)?;
    let items = items(alloc, max, element, body)?;
    Ok((Value::List(items), rest))
}

/// So many elements without a length field.
#[cycle(read)]
#[tactic(auto, unfolding(crate::specs::Reading::data_by))]
fn repeated<'a>(
    alloc: Global,
    count: u32,
    element: &Shape,
    window: Window<'a>,
) -> Result<(Value, Window<'a>), PayloadError>
    ensures { Gives (λ x. (data_of x.0, seen x.1)) result (data_at (fixed None count (form element.now)) (seen window.entry)) }
{
    let (items, rest) = fixed(alloc, count, element, window)?;
    Ok((Value::List(items), rest))
}

/// So many elements at the front of the body after a length field of that width. What comes after
/// them in it is skipped.
#[cycle(read)]
#[tactic(auto, unfolding(crate::specs::Reading::data_by))]
fn framed_repeated<'a>(
    alloc: Global,
    width: Width,
    count: u32,
    element: &Shape,
    window: Window<'a>,
) -> Result<(Value, Window<'a>), PayloadError>
    ensures { Gives (λ x. (data_of x.0, seen x.1)) result (data_by width (fixed (Some width) count (form element.now)) (seen window.entry)) }
{
    let (body, rest) = body(width, window)?;
    let (items, _) = fixed(alloc, count, element, body)?;
    Ok((Value::List(items), rest))
}

/// Members without a length field.
#[cycle(read)]
#[tactic(auto, unfolding(crate::specs::Reading::data_by))]
fn structure<'a>(
    alloc: Global,
    shapes: &[Shape],
    window: Window<'a>,
) -> Result<(Value, Window<'a>), PayloadError>
    ensures { Gives (λ x. (data_of x.0, seen x.1)) result (data_at («struct» None (forms shapes.now)) (seen window.entry)) }
{
    let (values, rest) = members(alloc, shapes, window)?;
    Ok((Value::Struct(values), rest))
}

/// Members at the front of the body after a length field of that width. What comes after them in it
/// is skipped.
#[cycle(read)]
#[tactic(auto, unfolding(crate::specs::Reading::data_by))]
fn framed_structure<'a>(
    alloc: Global,
    width: Width,
    shapes: &[Shape],
    window: Window<'a>,
) -> Result<(Value, Window<'a>), PayloadError>
    ensures { Gives (λ x. (data_of x.0, seen x.1)) result (data_by width («struct» (Some width) (forms shapes.now)) (seen window.entry)) }
{
    let (body, rest) = body(width, window)?;
    let (values, _) = members(alloc, shapes, body)?;
    Ok((Value::Struct(values), rest))
}

/// Elements until the window is used up.
#[cycle(read)]
fn items(
    alloc: Global,
    max: u32,
    element: &Shape,
    window: Window<'_>,
) -> Result<Vec<Value>, PayloadError>
    ensures { Gives (λ v. data_of_all v.items) result (items_at (data_at (form element.now)) max (seen window.entry)) }
{
    let mut values = Vec::new(alloc);
    let mut left = max;
    let mut window = window;
    while !window.bytes.is_empty() {
        if left == 0 {
            return Err(PayloadError::TooMany(window.place));
        }
        let (value, rest) = value(alloc, element, window)?;
        values.push(value)?;
        left -= 1;
        window = rest;
    }
    Ok(values)
}

/// Exactly so many elements.
#[cycle(read)]
fn fixed<'a>(
    alloc: Global,
    count: u32,
    element: &Shape,
    window: Window<'a>,
) -> Result<(Vec<Value>, Window<'a>), PayloadError>
    ensures { Gives (λ x. (data_of_all x.0.items, seen x.1)) result (fixed_at (data_at (form element.now)) count (seen window.entry)) }
{
    let mut values = Vec::new(alloc);
    let mut window = window;
    for _ in 0..count {
        let (value, rest) = value(alloc, element, window)?;
        values.push(value)?;
        window = rest;
    }
    Ok((values, window))
}

#[cycle(read)]
fn members<'a>(
    alloc: Global,
    shapes: &[Shape],
    window: Window<'a>,
) -> Result<(Vec<Value>, Window<'a>), PayloadError>
    ensures { Gives (λ x. (data_of_all x.0.items, seen x.1)) result (members_at (forms shapes.now) (seen window.entry)) }
{
    let mut values = Vec::with_capacity(alloc, shapes.len())?;
    let mut window = window;
    for shape in shapes {
        let (value, rest) = value(alloc, shape, window)?;
        values.push(value)?;
        window = rest;
    }
    Ok((values, window))
}

/// A length, a type number and a body.
#[cycle(read)]
#[tactic(auto, unfolding(crate::specs::Reading::union_at))]
fn union<'a>(
    alloc: Global,
    width: Width,
    field: Width,
    variants: &[(u32, Shape)],
    window: Window<'a>,
) -> Result<(Value, Window<'a>), PayloadError>
    ensures { Gives (λ x. (data_of x.0, seen x.1)) result (union_at width field
        (λ kind len place v. variant_at (all_variants variants.now) kind len place (seen window.entry) v)
        (seen window.entry)) }
{
    let (len, after) = number(size_of(width), window)?;
    let (kind, rest) = number(size_of(field), after)?;
    if kind != 0 {
        return variant(alloc, variants, kind, after.place, len, window, rest);
    }
    if len != 0 {
        return Err(PayloadError::LengthMismatch(window.place));
    }
    Ok((Value::Union(None), rest))
}

/// The variant of the number at the place, whose union begins at the start.
#[cycle(read)]
fn variant<'a>(
    alloc: Global,
    variants: &[(u32, Shape)],
    kind: u64,
    place: usize,
    len: u64,
    start: Window<'a>,
    rest: Window<'a>,
) -> Result<(Value, Window<'a>), PayloadError>
    ensures { Gives (λ x. (data_of x.0, seen x.1)) result
        (variant_at (all_variants variants.now) kind len place (seen start.entry) (seen rest.entry)) }
{
    for variant in variants {
        if u64::from(variant.0) == kind {
            return chosen(alloc, variant.0, &variant.1, len, start, rest);
        }
    }
    Err(PayloadError::UnknownVariant(place))
}

#[cycle(read)]
#[tactic(auto, unfolding(crate::specs::Reading::chosen_at))]
fn chosen<'a>(
    alloc: Global,
    kind: u32,
    shape: &Shape,
    len: u64,
    start: Window<'a>,
    rest: Window<'a>,
) -> Result<(Value, Window<'a>), PayloadError>
    ensures { Gives (λ x. (data_of x.0, seen x.1)) result
        (chosen_at (data_at (form shape.now)) kind len (seen start.entry) (seen rest.entry)) }
{
    let (body, after) = sized(len, start, rest)?;
    let (value, _) = value(alloc, shape, body)?;
    let value = Box::new(alloc, value)?;
    Ok((Value::Union(Some((kind, value))), after))
}

/// A length and items until the body is used up.
#[cycle(read)]
#[tactic(auto, unfolding(crate::specs::Reading::data_by, crate::specs::Reading::required_at))]
fn tagged<'a>(
    alloc: Global,
    width: Width,
    members: &[Member],
    window: Window<'a>,
) -> Result<(Value, Window<'a>), PayloadError>
    ensures { Gives (λ x. (data_of x.0, seen x.1)) result
        (data_by width (tagged width (all_members members.now)) (seen window.entry)) }
{
    let (body, rest) = body(width, window)?;
    let slots = tagged_items(alloc, members, body)?;
    if !have_required(members, &slots) {
        return Err(PayloadError::MissingMember(window.place));
    }
    Ok((Value::Tagged(slots), rest))
}

/// The members of which the window has an item, each at its index.
#[cycle(read)]
fn tagged_items(
    alloc: Global,
    members: &[Member],
    window: Window<'_>,
) -> Result<Vec<Option<Value>>, PayloadError>
    ensures exact { Gives (λ v. slots_of v.items) result (tagged_at (item_at (all_members members.now))
        (length window.entry.bytes.now) (all_absent (all_members members.now)) (seen window.entry)) }
    ensures len { IfOk result (λ v. length v.items ≡ length members.now) }
{
    let indexes = indexes_of(alloc, members)?;
    let mut slots = empty_slots(alloc, members)?;
    let mut window = window;
    while !window.bytes.is_empty() {
        window = tagged_item(alloc, members, &indexes, &mut slots, window)?;
    }
    Ok(slots)
}

/// The item at the front of the window.
#[cycle(read)]
#[tactic(auto, unfolding(crate::specs::Reading::item_by))]
fn tagged_item<'a>(
    alloc: Global,
    members: &[Member],
    indexes: &BTreeMap<u16, usize>,
    slots: &mut [Option<Value>],
    window: Window<'a>,
) -> Result<Window<'a>, PayloadError>
    requires lens { length slots.now ≡ length members.now }
    requires indexes { HasIndexes (all_members members.now) indexes.now }
    ensures exact { Fills slots.new result (item_at (all_members members.now) (slots_of slots.old) (seen window.entry)) }
    ensures len { length slots.new ≡ length slots.old }
{
    let (tag, rest) = tag(window)?;
    let Some(&index) = indexes.get(&tag.id) else {
        return skipped(tag.wire_type, rest);
    };
    let member = &members[index];
    if slots[index].is_some() {
        return Err(PayloadError::DuplicateMember(window.place));
    }
    let (value, rest) = tagged_member(alloc, member, tag, window.place, rest)?;
    slots[index] = Some(value);
    Ok(rest)
}

/// The value of a member whose item has the tag, which stands at the place.
#[cycle(read)]
#[tactic(auto, unfolding(crate::specs::Reading::member_at))]
fn tagged_member<'a>(
    alloc: Global,
    member: &Member,
    tag: Tag,
    place: usize,
    window: Window<'a>,
) -> Result<(Value, Window<'a>), PayloadError>
    ensures { Gives (λ x. (data_of x.0, seen x.1)) result
        (member_at (λ width v. data_by width (one_member member.now).form v) (one_member member.now).form tag place (seen window.entry)) }
{
    let shape = &member.shape;
    if !has_wire_type(shape, tag.wire_type) {
        return Err(PayloadError::WrongWireType(place));
    }
    value_by(alloc, width_in(tag.wire_type, shape), shape, window)
}
