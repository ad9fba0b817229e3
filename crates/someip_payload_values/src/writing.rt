//! Bytes from values.

ghost use Rattle.std.specs.Prelude.{◌≡◌, ◌+◌, ◌<◌, ◌++◌, ◌==◌, if◌then◌else◌, false, length, Err, IfErr, OnOk};
ghost use Rattle.someip_payload_values.specs.declared.error.PayloadError.TheVariants.{NotOfShape, UnknownVariant};
ghost use Rattle.someip_payload_values.specs.View.{form, forms, all_variants, all_members, data_of, data_of_all, data_of_choice, one_member, slot_of, slots_of};
ghost use Rattle.someip_payload_values.specs.Data.{union, chosen, tagged, slotted, count};
ghost use Rattle.someip_payload_values.specs.declared.number.Size.TheVariants.{S16, S32};
ghost use Rattle.someip_payload_values.specs.Numbers.{limit_of, number, size_of};
ghost use Rattle.someip_payload_values.specs.Tags.{tag_number};
ghost use Rattle.someip_payload_values.specs.Writing.{Appends, Adds, number_text, signed_text, body_text, text_body, has_zero, padded_text, each_text, array_text, fixed_text, framed_text, typed_text, chosen_text, count_forms, text_of, members_text, variant_text, slots_text, member_text, encoded, IsRefusal};

use crate::check::check_shape;
use crate::error::PayloadError;
use crate::number::{Order, Size, bits_of, has_number, has_signed, put_bytes, put_in, size_of};
use crate::shape::{Encoding, Member, Shape, Width};
use crate::tag::{WireType, tag_number, wire_type_of};
use crate::text::put_text;
use crate::value::Value;
use std::alloc::{AllocError, Global};

/// Adds the bytes of the value at the end of `out`: the one way in which it is written, with byte
/// order mark and terminator in texts, and UTF-16 with the higher byte of a unit first. Refuses
/// what `check_shape` refuses, and then at the first fault from left to right, with place 0:
/// `NotOfShape`, `UnknownVariant`, `TooMany` or `TooLong`. An `Err` leaves `out` as it was, so the
/// bytes are made first, in memory of its allocator.
///
/// The members of a tagged structure that are present stand in the order of its shape, each with a
/// reserved bit of 0 and the wire type of its shape and own width.
///
/// ```text
/// struct/16(u8,utf16), (7,"A")    000b 07 00000006 feff 0041 0000
/// tagged(1:u8,2?:u8), {7,-}       00000003 0001 07
/// array<2,u16>, [1,2,3]           TooMany(0)
/// ```
pub fn encode(shape: &Shape, value: &Value, out: &mut Vec<u8>) -> Result<(), PayloadError>
    // The text of the value is added, or there is none for this reason, and nothing is added.
    ensures exact { Appends out.old.items out.new.items result (encoded (form shape.now) (data_of value.now)) }
    ensures errors { IfErr result IsRefusal }
{
    encode_whole(*out.allocator(), shape, value, out)
}

#[tactic(auto, unfolding(crate::specs::Writing::encoded))]
fn encode_whole(
    alloc: Global,
    shape: &Shape,
    value: &Value,
    out: &mut Vec<u8>,
) -> Result<(), PayloadError>
    ensures { Appends out.old.items out.new.items result (encoded (form shape.now) (data_of value.now)) }
{
    check_shape(alloc, shape)?;
    let mut bytes = Vec::new(alloc);
    put(alloc, shape, value, &mut bytes)?;
    out.extend_from_slice(&bytes)?;
    Ok(())
}

#[cycle(put)]
#[tactic(auto, unfolding(crate::specs::Writing::text_of, crate::specs::Writing::real_text))]
fn put(alloc: Global, shape: &Shape, value: &Value, out: &mut Vec<u8>) -> Result<(), PayloadError>
    ensures { Adds out.old.items out.new.items result (text_of (form shape.now) (data_of value.now)) }
{
    match (shape, value) {
        (Shape::Bool, Value::Bool(b)) => Ok(put_bytes(Size::S8, u64::from(*b), out)?),
        (Shape::U8, Value::Uint(n)) => put_unsigned(Order::Big, Size::S8, *n, out),
        (Shape::U16, Value::Uint(n)) => put_unsigned(Order::Big, Size::S16, *n, out),
        (Shape::U32, Value::Uint(n)) => put_unsigned(Order::Big, Size::S32, *n, out),
        (Shape::U64, Value::Uint(n)) => put_unsigned(Order::Big, Size::S64, *n, out),
        (Shape::I8, Value::Int(z)) => put_signed(Order::Big, Size::S8, *z, out),
        (Shape::I16, Value::Int(z)) => put_signed(Order::Big, Size::S16, *z, out),
        (Shape::I32, Value::Int(z)) => put_signed(Order::Big, Size::S32, *z, out),
        (Shape::I64, Value::Int(z)) => put_signed(Order::Big, Size::S64, *z, out),
        (Shape::U16Le, Value::Uint(n)) => put_unsigned(Order::Little, Size::S16, *n, out),
        (Shape::U32Le, Value::Uint(n)) => put_unsigned(Order::Little, Size::S32, *n, out),
        (Shape::U64Le, Value::Uint(n)) => put_unsigned(Order::Little, Size::S64, *n, out),
        (Shape::I16Le, Value::Int(z)) => put_signed(Order::Little, Size::S16, *z, out),
        (Shape::I32Le, Value::Int(z)) => put_signed(Order::Little, Size::S32, *z, out),
        (Shape::I64Le, Value::Int(z)) => put_signed(Order::Little, Size::S64, *z, out),
        (Shape::F32, Value::F32(bits)) => put_single(Order::Big, *bits, out),
        (Shape::F64, Value::F64(bits)) => put_unsigned(Order::Big, Size::S64, *bits, out),
        (Shape::F32Le, Value::F32(bits)) => put_single(Order::Little, *bits, out),
        (Shape::F64Le, Value::F64(bits)) => put_unsigned(Order::Little, Size::S64, *bits, out),
        (Shape::Named(_, shape), _) => put(alloc, shape, value, out),
        (Shape::Enum(shape, _), _) => put(alloc, shape, value, out),
        (Shape::FixedText(encoding, len), Value::Text(text)) => {
            put_padded(alloc, *encoding, *len, text, out)
        }
        (Shape::Text(encoding, width), Value::Text(text)) => {
            put_string(alloc, *encoding, *width, text, out)
        }
        (Shape::Array(width, max, element), Value::List(values)) => {
            put_array(alloc, *width, *max, element, values, out)
        }
        (Shape::Fixed(count, element), Value::List(values)) => {
            put_fixed(alloc, None, *count, element, values, out)
        }
        (Shape::FramedFixed(width, count, element), Value::List(values)) => {
            put_fixed(alloc, Some(*width), *count, element, values, out)
        }
        (Shape::Struct(width, shapes), Value::Struct(values)) => {
            put_struct(alloc, *width, shapes, values, out)
        }
        (Shape::Union(variants), Value::Union(choice)) => {
            put_union(alloc, Width::W32, Width::W32, variants, choice, out)
        }
        (Shape::SizedUnion(width, field, variants), Value::Union(choice)) => {
            put_union(alloc, *width, *field, variants, choice, out)
        }
        (Shape::Tagged(width, members), Value::Tagged(slots)) => {
            put_tagged(alloc, *width, members, slots, out)
        }
        _ => Err(PayloadError::NotOfShape(0)),
    }
}

#[cycle(put)]
#[tactic(auto, using(crate::proofs::Writes::count_of_all), unfolding(crate::specs::Writing::array_text))]
fn put_array(
    alloc: Global,
    width: Width,
    max: u32,
    element: &Shape,
    values: &[Value],
    out: &mut Vec<u8>,
) -> Result<(), PayloadError>
    ensures { Adds out.old.items out.new.items result (array_text width max (text_of (form element.now)) (data_of_all values.now)) }
{
    if values.len() > max as usize {
        return Err(PayloadError::TooMany(0));
    }
    let mut body = Vec::new(alloc);
    put_each(alloc, element, values, &mut body)?;
    put_body(width, &body, out)
}

#[cycle(put)]
#[tactic(auto, using(crate::proofs::Writes::count_of_all), unfolding(crate::specs::Writing::fixed_text, crate::specs::Writing::framed_text))]
fn put_fixed(
    alloc: Global,
    width: Option<Width>,
    count: u32,
    element: &Shape,
    values: &[Value],
    out: &mut Vec<u8>,
) -> Result<(), PayloadError>
    ensures { Adds out.old.items out.new.items result (fixed_text width count (text_of (form element.now)) (data_of_all values.now)) }
{
    if values.len() != count as usize {
        return Err(PayloadError::NotOfShape(0));
    }
    match width {
        None => put_each(alloc, element, values, out),
        Some(width) => {
            let mut body = Vec::new(alloc);
            put_each(alloc, element, values, &mut body)?;
            put_body(width, &body, out)
        }
    }
}

#[cycle(put)]
#[tactic(auto, using(crate::proofs::Writes::count_of_all, crate::proofs::Writes::count_of_forms), unfolding(crate::specs::Writing::framed_text))]
fn put_struct(
    alloc: Global,
    width: Option<Width>,
    shapes: &[Shape],
    values: &[Value],
    out: &mut Vec<u8>,
) -> Result<(), PayloadError>
    ensures { Adds out.old.items out.new.items result (if count (data_of_all values.now) == count_forms (forms shapes.now) then framed_text width (members_text (forms shapes.now) (data_of_all values.now)) else Err (NotOfShape 0)) }
{
    if values.len() != shapes.len() {
        return Err(PayloadError::NotOfShape(0));
    }
    match width {
        None => put_members(alloc, shapes, values, out),
        Some(width) => {
            let mut body = Vec::new(alloc);
            put_members(alloc, shapes, values, &mut body)?;
            put_body(width, &body, out)
        }
    }
}

#[cycle(put)]
fn put_each(
    alloc: Global,
    element: &Shape,
    values: &[Value],
    out: &mut Vec<u8>,
) -> Result<(), PayloadError>
    ensures { Adds out.old.items out.new.items result (each_text (text_of (form element.now)) (data_of_all values.now)) }
{
    for value in values {
        put(alloc, element, value, out)?;
    }
    Ok(())
}

#[cycle(put)]
fn put_members(
    alloc: Global,
    shapes: &[Shape],
    values: &[Value],
    out: &mut Vec<u8>,
) -> Result<(), PayloadError>
    requires { length shapes.now ≡ length values.now }
    ensures { Adds out.old.items out.new.items result (members_text (forms shapes.now) (data_of_all values.now)) }
{
    for i in 0..shapes.len() {
        put(alloc, &shapes[i], &values[i], out)?;
    }
    Ok(())
}

/// A choice of no variant is a length and a type number of 0.
#[cycle(put)]
#[tactic(auto, unfolding(crate::specs::Writing::text_of))]
fn put_union(
    alloc: Global,
    width: Width,
    field: Width,
    variants: &[(u32, Shape)],
    choice: &Option<(u32, Box<Value>)>,
    out: &mut Vec<u8>,
) -> Result<(), PayloadError>
    ensures { Adds out.old.items out.new.items result (text_of (union width field (all_variants variants.now)) (data_of_choice choice.now)) }
{
    match choice {
        None => Ok(put_head(width, field, 0, 0, out)?),
        Some((kind, value)) => put_known(alloc, width, field, variants, *kind, value, out),
    }
}

/// The variant of a type number, which must fit into its field.
#[cycle(put)]
#[tactic(auto, unfolding(crate::specs::Writing::text_of))]
fn put_known(
    alloc: Global,
    width: Width,
    field: Width,
    variants: &[(u32, Shape)],
    kind: u32,
    value: &Value,
    out: &mut Vec<u8>,
) -> Result<(), PayloadError>
    ensures { Adds out.old.items out.new.items result (text_of (union width field (all_variants variants.now)) (chosen kind (data_of value.now))) }
{
    if !has_number(size_of(field), u64::from(kind)) {
        return Err(PayloadError::UnknownVariant(0));
    }
    put_variant(alloc, width, field, variants, kind, value, out)
}

#[cycle(put)]
fn put_variant(
    alloc: Global,
    width: Width,
    field: Width,
    variants: &[(u32, Shape)],
    kind: u32,
    value: &Value,
    out: &mut Vec<u8>,
) -> Result<(), PayloadError>
    requires { kind < limit_of (size_of field) }
    ensures { Adds out.old.items out.new.items result (variant_text width field (all_variants variants.now) kind (data_of value.now)) }
{
    for variant in variants {
        if variant.0 == kind {
            return put_chosen(alloc, width, field, kind, &variant.1, value, out);
        }
    }
    Err(PayloadError::UnknownVariant(0))
}

#[cycle(put)]
#[tactic(auto, unfolding(crate::specs::Writing::chosen_text))]
fn put_chosen(
    alloc: Global,
    width: Width,
    field: Width,
    kind: u32,
    shape: &Shape,
    value: &Value,
    out: &mut Vec<u8>,
) -> Result<(), PayloadError>
    requires { kind < limit_of (size_of field) }
    ensures { Adds out.old.items out.new.items result (chosen_text width field kind (text_of (form shape.now) (data_of value.now))) }
{
    let mut body = Vec::new(alloc);
    put(alloc, shape, value, &mut body)?;
    put_typed(width, field, kind, &body, out)
}

#[cycle(put)]
#[tactic(auto, using(crate::proofs::Writes::count_of_slots, crate::proofs::Writes::count_of_members), unfolding(crate::specs::Writing::text_of))]
fn put_tagged(
    alloc: Global,
    width: Width,
    members: &[Member],
    slots: &[Option<Value>],
    out: &mut Vec<u8>,
) -> Result<(), PayloadError>
    ensures { Adds out.old.items out.new.items result (text_of (tagged width (all_members members.now)) (slotted (slots_of slots.now))) }
{
    if slots.len() != members.len() {
        return Err(PayloadError::NotOfShape(0));
    }
    let mut body = Vec::new(alloc);
    put_slots(alloc, members, slots, &mut body)?;
    put_body(width, &body, out)
}

/// The items of the members that are present.
#[cycle(put)]
fn put_slots(
    alloc: Global,
    members: &[Member],
    slots: &[Option<Value>],
    out: &mut Vec<u8>,
) -> Result<(), PayloadError>
    requires { length members.now ≡ length slots.now }
    ensures { Adds out.old.items out.new.items result (slots_text (all_members members.now) (slots_of slots.now)) }
{
    for i in 0..members.len() {
        put_slot(alloc, &members[i], &slots[i], out)?;
    }
    Ok(())
}

/// The item of a member, if it is present.
#[cycle(put)]
#[tactic(auto, unfolding(crate::specs::Writing::item_text, crate::specs::Writing::absent_text))]
fn put_slot(
    alloc: Global,
    member: &Member,
    slot: &Option<Value>,
    out: &mut Vec<u8>,
) -> Result<(), PayloadError>
    ensures { Adds out.old.items out.new.items result (member_text (one_member member.now) (slot_of slot.now)) }
{
    let Some(value) = slot else {
        if member.is_optional {
            return Ok(());
        }
        return Err(PayloadError::NotOfShape(0));
    };
    put_tag(wire_type_of(&member.shape), member.id, out)?;
    put(alloc, &member.shape, value, out)
}

fn put_tag(wire_type: WireType, id: u16, out: &mut Vec<u8>) -> Result<(), AllocError>
    ensures { OnOk result (out.new.items ≡ out.old.items ++ number S16 (tag_number false wire_type id)) }
{
    put_bytes(Size::S16, u64::from(tag_number(wire_type, id)), out)
}

#[tactic(auto, unfolding(crate::specs::Writing::number_text))]
fn put_unsigned(order: Order, size: Size, n: u64, out: &mut Vec<u8>) -> Result<(), PayloadError>
    ensures { Adds out.old.items out.new.items result (number_text order size n) }
{
    if !has_number(size, n) {
        return Err(PayloadError::NotOfShape(0));
    }
    put_in(order, size, n, out)?;
    Ok(())
}

/// The bits of a float in 32 bits.
fn put_single(order: Order, bits: u32, out: &mut Vec<u8>) -> Result<(), PayloadError>
    ensures { Adds out.old.items out.new.items result (number_text order S32 bits) }
{
    put_unsigned(order, Size::S32, u64::from(bits), out)
}

#[tactic(auto, unfolding(crate::specs::Writing::signed_text))]
fn put_signed(order: Order, size: Size, z: i64, out: &mut Vec<u8>) -> Result<(), PayloadError>
    ensures { Adds out.old.items out.new.items result (signed_text order size z) }
{
    if !has_signed(size, z) {
        return Err(PayloadError::NotOfShape(0));
    }
    put_in(order, size, bits_of(size, z), out)?;
    Ok(())
}

fn put_string(
    alloc: Global,
    encoding: Encoding,
    width: Width,
    text: &str,
    out: &mut Vec<u8>,
) -> Result<(), PayloadError>
    ensures { Adds out.old.items out.new.items result (body_text width (text_body encoding text.now)) }
{
    let mut body = Vec::new(alloc);
    put_text(encoding, text, &mut body)?;
    put_body(width, &body, out)
}

/// A text without U+0000 in so many bytes, with zeros after it.
#[tactic(auto, unfolding(crate::specs::Writing::padded_text))]
fn put_padded(
    alloc: Global,
    encoding: Encoding,
    len: u32,
    text: &str,
    out: &mut Vec<u8>,
) -> Result<(), PayloadError>
    ensures { Adds out.old.items out.new.items result
        (if has_zero text.now then Err (NotOfShape 0) else padded_text len (text_body encoding text.now)) }
{
    if text.as_bytes().contains(&0) {
        return Err(PayloadError::NotOfShape(0));
    }
    let mut body = Vec::new(alloc);
    put_text(encoding, text, &mut body)?;
    let len = len as usize;
    if len < body.len() {
        return Err(PayloadError::TooLong(0));
    }
    body.resize(len, 0)?;
    out.extend_from_slice(&body)?;
    Ok(())
}

#[tactic(auto, unfolding(crate::specs::Writing::body_text))]
fn put_body(width: Width, body: &[u8], out: &mut Vec<u8>) -> Result<(), PayloadError>
    ensures { Adds out.old.items out.new.items result (body_text width body.now) }
{
    let len = body.len() as u64;
    if !has_number(size_of(width), len) {
        return Err(PayloadError::TooLong(0));
    }
    put_bytes(size_of(width), len, out)?;
    out.extend_from_slice(body)?;
    Ok(())
}

#[tactic(auto, unfolding(crate::specs::Writing::typed_text))]
fn put_typed(
    width: Width,
    field: Width,
    kind: u32,
    body: &[u8],
    out: &mut Vec<u8>,
) -> Result<(), PayloadError>
    requires { kind < limit_of (size_of field) }
    ensures { Adds out.old.items out.new.items result (typed_text width field kind body.now) }
{
    let len = body.len() as u64;
    if !has_number(size_of(width), len) {
        return Err(PayloadError::TooLong(0));
    }
    put_head(width, field, len, kind, out)?;
    out.extend_from_slice(body)?;
    Ok(())
}

/// The length field and the type field of a union.
fn put_head(
    width: Width,
    field: Width,
    len: u64,
    kind: u32,
    out: &mut Vec<u8>,
) -> Result<(), AllocError>
    requires len { len < limit_of (size_of width) }
    requires kind { kind < limit_of (size_of field) }
    ensures { OnOk result (out.new.items ≡ out.old.items ++ (number (size_of width) len ++ number (size_of field) kind)) }
{
    put_bytes(size_of(width), len, out)?;
    put_bytes(size_of(field), u64::from(kind), out)
}
