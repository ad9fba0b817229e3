//! Values from their texts.

ghost use Rattle.std.specs.Prelude.{◌≡◌, length, None, IfOk, IfErr};
ghost use Rattle.someip_payload_values.specs.Check.{name_in};
ghost use Rattle.someip_payload_values.specs.declared.shape.Width.TheVariants.{W32};
ghost use Rattle.someip_payload_values.specs.Data.{«struct», tagged, Data};
ghost use Rattle.someip_payload_values.specs.View.{form, forms, one_member, all_variants, all_members, labels_of, data_of, data_of_all, slot_of, slots_of};
ghost use Rattle.someip_payload.specs.ValueReading.{IsTextOfValue, IsPlaceWithin, IsReadAsValue};
ghost use Rattle.someip_payload.specs.ReadValues.{GivesValue, value_of_text, value_in, members_in, variant_in, slots_in, elements_in, list_in, union_in, chosen_in, slot_in, skip_name, comma_at, enum_in, IsFaultAlso};

use crate::text_parts::common_len;
use crate::value_faults::after_kinds;
use crate::value_floats::{double, single};
use crate::value_strings::string;
use crate::value_text_error::ValueTextError;
use crate::value_tokens::{Read, after, number_of, signed, split_token, strip, truth, unsigned};
use someip_payload_codec::{Member, Shape, Value};
use std::alloc::Global;

/// The value of a shape that has this text, as what is printed of a value has.
///
/// - `true`, `false`; `12`, `-3`, or a name of the value where the shape has one;
/// - `1.5`, `1e400`, `inf`, `-inf`: the nearest float; `nan(7fc00001)`, a NaN with its bits;
/// - `"a\u{0}\"b"`: a text;
/// - `[1,2]`: elements; `(1,name=true)`: members, whose names may be left out;
/// - `none`, `2:true`: a variant behind its type number; `{1,-,name=true}`: members of a tagged structure, of which
///   the second is absent.
///
/// A number has 64 bits, and an array any number of elements: whether the shape has such a value is for
/// [`encode`](crate::encode) to say.
///
/// A fault's place is that of the first byte at which no text of a value of the shape goes on, which is the length
/// of a text that ends too early.
#[tactic(auto, using(crate::proofs::ValueWhole::whole_found, crate::proofs::ValueEach::read_only))]
pub fn read_value(alloc: Global, shape: &Shape, text: &str) -> Result<Value, ValueTextError>
    ensures found { IfOk result (λ value. IsTextOfValue (form shape.now) (data_of value) text.now) }
    // Each text of a value is read as it, so a text has one value at most, and what is refused has none.
    ensures only { (d : Data) → IsTextOfValue (form shape.now) d text.now → IsReadAsValue d result }
    ensures fault { IfErr result (IsPlaceWithin (length text.now)) }
{
    let text = text.as_bytes();
    match whole_value(alloc, shape, text) {
        Err(ValueTextError::BadValue(left)) => {
            Err(ValueTextError::BadValue(text.len().saturating_sub(left)))
        }
        read => read,
    }
}

/// The value of the whole text.
#[tactic(auto, unfolding(crate::specs::ReadValues::value_of_text))]
fn whole_value(alloc: Global, shape: &Shape, text: &[u8]) -> Result<Value, ValueTextError>
    ensures { GivesValue data_of result (value_of_text (form shape.now) text.now) }
{
    let (value, rest) = value(alloc, shape, text)?;
    if !rest.is_empty() {
        return Err(ValueTextError::BadValue(rest.len()));
    }
    Ok(value)
}

/// The value at the front.
#[cycle(read)]
#[tactic(auto, unfolding(crate::specs::ReadValues::value_in))]
fn value<'a>(alloc: Global, shape: &Shape, text: &'a [u8]) -> Read<'a, Value>
    ensures { GivesValue (λ x. (data_of x.0, x.1.now)) result (value_in (form shape.now) text.now) }
{
    match shape {
        Shape::Bool => truth(text),
        Shape::U8
        | Shape::U16
        | Shape::U32
        | Shape::U64
        | Shape::U16Le
        | Shape::U32Le
        | Shape::U64Le => unsigned(&[], text),
        Shape::I8
        | Shape::I16
        | Shape::I32
        | Shape::I64
        | Shape::I16Le
        | Shape::I32Le
        | Shape::I64Le => signed(&[], text),
        Shape::F32 | Shape::F32Le => single(text),
        Shape::F64 | Shape::F64Le => double(text),
        Shape::Text(_, _) | Shape::FixedText(_, _) => string(alloc, text),
        Shape::Array(_, _, element)
        | Shape::Fixed(_, element)
        | Shape::FramedFixed(_, _, element) => list(alloc, element, text),
        Shape::Struct(_, shapes) => structure(alloc, shapes, text),
        Shape::Union(variants) | Shape::SizedUnion(_, _, variants) => union(alloc, variants, text),
        Shape::Tagged(_, members) => tagged(alloc, members, text),
        Shape::Named(_, shape) => value(alloc, shape, text),
        Shape::Enum(shape, labels) => labelled(shape, labels, text),
    }
}

/// An integer with names for some of its values.
#[tactic(auto, unfolding(crate::specs::ReadValues::enum_in))]
fn labelled<'a>(shape: &Shape, labels: &[(i128, String)], text: &'a [u8]) -> Read<'a, Value>
    ensures { GivesValue (λ x. (data_of x.0, x.1.now)) result (enum_in (form shape.now) (labels_of labels.now) text.now) }
{
    match shape {
        Shape::U8
        | Shape::U16
        | Shape::U32
        | Shape::U64
        | Shape::U16Le
        | Shape::U32Le
        | Shape::U64Le => unsigned(labels, text),
        Shape::I8
        | Shape::I16
        | Shape::I32
        | Shape::I64
        | Shape::I16Le
        | Shape::I32Le
        | Shape::I64Le => signed(labels, text),
        _ => Err(ValueTextError::BadValue(text.len())),
    }
}

/// Elements between brackets.
#[cycle(read)]
#[tactic(auto, unfolding(crate::specs::ReadValues::list_in))]
fn list<'a>(alloc: Global, element: &Shape, text: &'a [u8]) -> Read<'a, Value>
    ensures { GivesValue (λ x. (data_of x.0, x.1.now)) result (list_in (value_in (form element.now)) text.now) }
{
    let inner = after(b'[', text)?;
    if let Some(rest) = strip(b']', inner) {
        return Ok((Value::List(Vec::new(alloc)), rest));
    }
    let (values, rest) = elements(alloc, element, inner)?;
    Ok((Value::List(values), rest))
}

/// Elements with commas between them, and the bracket after the last.
#[cycle(read)]
#[tactic(auto, unfolding(crate::specs::ReadValues::elements_in))]
fn elements<'a>(alloc: Global, element: &Shape, text: &'a [u8]) -> Read<'a, Vec<Value>>
    ensures { GivesValue (λ x. (data_of_all x.0.items, x.1.now)) result
        (elements_in (value_in (form element.now)) (length text.now) text.now) }
{
    let mut values = Vec::new(alloc);
    let mut left = text;
    for _ in 0..text.len() {
        let (value, behind) = value(alloc, element, left)?;
        values.push(value)?;
        if let Some(rest) = strip(b']', behind) {
            return Ok((values, rest));
        }
        left = after(b',', behind)?;
    }
    Err(ValueTextError::BadValue(left.len()))
}

/// Members between brackets.
#[cycle(read)]
#[tactic(auto, unfolding(crate::specs::ReadValues::value_in))]
fn structure<'a>(alloc: Global, shapes: &[Shape], text: &'a [u8]) -> Read<'a, Value>
    ensures { GivesValue (λ x. (data_of x.0, x.1.now)) result (value_in («struct» None (forms shapes.now)) text.now) }
{
    let inner = after(b'(', text)?;
    let (values, behind) = members(alloc, shapes, inner)?;
    let rest = after(b')', behind)?;
    Ok((Value::Struct(values), rest))
}

/// Members with commas between them.
#[cycle(read)]
#[tactic(auto, unfolding(crate::specs::ReadValues::members_in))]
fn members<'a>(alloc: Global, shapes: &[Shape], text: &'a [u8]) -> Read<'a, Vec<Value>>
    ensures { GivesValue (λ x. (data_of_all x.0.items, x.1.now)) result (members_in 0 (forms shapes.now) text.now) }
{
    let mut values = Vec::new(alloc);
    let mut left = text;
    for i in 0..shapes.len() {
        let at = comma(i, left)?;
        let (value, behind) = member(alloc, &shapes[i], at)?;
        values.push(value)?;
        left = behind;
    }
    Ok((values, left))
}

/// What is left behind a comma, which does not stand before the first member.
#[tactic(auto, unfolding(crate::specs::ReadValues::comma_at))]
fn comma(i: usize, text: &[u8]) -> Result<&[u8], ValueTextError>
    ensures { GivesValue (λ rest. rest.now) result (comma_at i text.now) }
{
    if i == 0 {
        return Ok(text);
    }
    after(b',', text)
}

/// A member, perhaps behind its name.
#[cycle(read)]
fn member<'a>(alloc: Global, shape: &Shape, text: &'a [u8]) -> Read<'a, Value>
    ensures { GivesValue (λ x. (data_of x.0, x.1.now)) result
        (value_in (form shape.now) (skip_name (name_in (form shape.now)) text.now)) }
{
    match value(alloc, shape, behind_name(shape, text)) {
        Err(fault) => Err(or_in_name(fault, shape, text)),
        read => read,
    }
}

/// What is left behind a member's name, if that stands there.
#[tactic(auto, unfolding(crate::specs::ReadValues::skip_name))]
fn behind_name<'a>(shape: &Shape, text: &'a [u8]) -> &'a [u8]
    ensures { result.now ≡ skip_name (name_in (form shape.now)) text.now }
{
    let Shape::Named(name, _) = shape else {
        return text;
    };
    let (token, behind) = split_token(text);
    if token != name.as_bytes() {
        return text;
    }
    match strip(b'=', behind) {
        Some(rest) => rest,
        None => text,
    }
}

/// The fault of a member, or where the text goes on longer as the member's name.
fn or_in_name(fault: ValueTextError, shape: &Shape, text: &[u8]) -> ValueTextError
    ensures { IsFaultAlso fault result }
{
    match (fault, shape) {
        (ValueTextError::BadValue(left), Shape::Named(name, _)) => {
            let count = common_len(name.as_bytes(), text);
            ValueTextError::BadValue(left.min(text.len().saturating_sub(count)))
        }
        _ => fault,
    }
}

/// No value, or a variant behind its type number.
#[cycle(read)]
#[tactic(auto, unfolding(crate::specs::ReadValues::union_in))]
fn union<'a>(alloc: Global, variants: &[(u32, Shape)], text: &'a [u8]) -> Read<'a, Value>
    ensures { GivesValue (λ x. (data_of x.0, x.1.now)) result (union_in (variant_in (all_variants variants.now)) text.now) }
{
    let (token, rest) = split_token(text);
    if token == "none".as_bytes() {
        return Ok((Value::Union(None), rest));
    }
    match number_of(token) {
        Some(kind) => variant(alloc, variants, kind, rest, text),
        None => Err(after_kinds(variants, text)),
    }
}

/// The variant of a number, with what is left behind it, and all from the number on.
#[cycle(read)]
#[tactic(auto, unfolding(crate::specs::ReadValues::variant_in))]
fn variant<'a>(
    alloc: Global,
    variants: &[(u32, Shape)],
    kind: u64,
    rest: &'a [u8],
    text: &[u8],
) -> Read<'a, Value>
    ensures { GivesValue (λ x. (data_of x.0, x.1.now)) result (variant_in (all_variants variants.now) kind rest.now) }
{
    for variant in variants {
        if u64::from(variant.0) == kind {
            return chosen(alloc, variant.0, &variant.1, rest);
        }
    }
    Err(after_kinds(variants, text))
}

/// The value of a variant.
#[cycle(read)]
#[tactic(auto, unfolding(crate::specs::ReadValues::chosen_in))]
fn chosen<'a>(alloc: Global, kind: u32, shape: &Shape, text: &'a [u8]) -> Read<'a, Value>
    ensures { GivesValue (λ x. (data_of x.0, x.1.now)) result (chosen_in (value_in (form shape.now)) kind text.now) }
{
    let at = after(b':', text)?;
    let (value, rest) = value(alloc, shape, at)?;
    let value = Box::new(alloc, value)?;
    Ok((Value::Union(Some((kind, value))), rest))
}

/// Members of a tagged structure between braces.
#[cycle(read)]
#[tactic(auto, unfolding(crate::specs::ReadValues::value_in))]
fn tagged<'a>(alloc: Global, members: &[Member], text: &'a [u8]) -> Read<'a, Value>
    ensures { GivesValue (λ x. (data_of x.0, x.1.now)) result (value_in (tagged W32 (all_members members.now)) text.now) }
{
    let inner = after(b'{', text)?;
    let (slots, behind) = slots(alloc, members, inner)?;
    let rest = after(b'}', behind)?;
    Ok((Value::Tagged(slots), rest))
}

/// Members of a tagged structure with commas between them.
#[cycle(read)]
#[tactic(auto, unfolding(crate::specs::ReadValues::slots_in))]
fn slots<'a>(alloc: Global, members: &[Member], text: &'a [u8]) -> Read<'a, Vec<Option<Value>>>
    ensures { GivesValue (λ x. (slots_of x.0.items, x.1.now)) result (slots_in 0 (all_members members.now) text.now) }
{
    let mut slots = Vec::new(alloc);
    let mut left = text;
    for i in 0..members.len() {
        let at = comma(i, left)?;
        let (slot, behind) = slot(alloc, &members[i].shape, at)?;
        slots.push(slot)?;
        left = behind;
    }
    Ok((slots, left))
}

/// A member of a tagged structure, perhaps behind its name, or a dash for one that is absent.
#[cycle(read)]
#[tactic(auto, unfolding(crate::specs::ReadValues::slot_in))]
fn slot<'a>(alloc: Global, shape: &Shape, text: &'a [u8]) -> Read<'a, Option<Value>>
    ensures { GivesValue (λ x. (slot_of x.0, x.1.now)) result
        (slot_in (value_in (form shape.now)) (skip_name (name_in (form shape.now)) text.now)) }
{
    let at = behind_name(shape, text);
    let (token, rest) = split_token(at);
    if token == "-".as_bytes() {
        return Ok((None, rest));
    }
    match value(alloc, shape, at) {
        Ok((value, rest)) => Ok((Some(value), rest)),
        Err(fault) => Err(or_in_name(or_behind_dash(fault, at), shape, text)),
    }
}

/// The fault of a member, or the one behind a dash.
fn or_behind_dash(fault: ValueTextError, text: &[u8]) -> ValueTextError
    ensures { IsFaultAlso fault result }
{
    match (fault, text) {
        (ValueTextError::BadValue(left), [b'-', rest @ ..]) => {
            ValueTextError::BadValue(left.min(rest.len()))
        }
        _ => fault,
    }
}
