//! A value as JSON.
//!
//! A structure whose members all have names is an object, any other an array; so is a tagged structure, with
//! null for what is absent. A variant is an object with its type number; no variant is null. A number with a
//! name is that name. A float is a number in its text, and a text where JSON has no such number.
ghost use Rattle.std.specs.Prelude.{◌≡◌, ◌++◌, ◌∷◌, [], false, OnOk, pos};
ghost use Rattle.std.specs.List.{list_all};
ghost use Rattle.std.specs.Option.{option_map};
ghost use Rattle.json.specs.Tree.{json_tokens};
ghost use Rattle.someip_payload_values.specs.Check.{name_in};
ghost use Rattle.someip_payload_values.specs.View.{all_members, all_variants, data_of, data_of_all, form, forms, slots_of};
ghost use Rattle.someip_payload_values.specs.ValueText.{labels_in, or_bool, variant_of};
ghost use Rattle.someipctl_io.specs.ValueObjects.{are_members_named, are_named, has_name, number_json};
ghost use Rattle.someipctl_show.specs.types.ValueTokens.{AddsSome, Between, SaysElements, SaysFloat, SaysJson};
ghost use Rattle.someipctl_show.specs.types.ValueTokens.{SaysMembers, SaysSlots, SaysVariant, begin_token, end_token, key_tokens, variant_tokens};

use crate::types::shape_parts::{
    element_in, has_name, label_of, labels_in, member_at, members_in, tagged_at, tagged_in,
    variant_of, variants_in,
};
use json::Writer;
use someip_payload::{Member, Shape, Told, Value};
use std::alloc::AllocError;

/// Writes a value of a shape. `text` is room for the text of a float.
#[cycle(value_object)]
pub(crate) fn put_value(
    out: &mut Writer,
    value: &Value,
    shape: &Shape,
    text: &mut String,
) -> Result<(), AllocError>
    ensures { OnOk result (AddsSome out.old out.new (SaysJson (form shape.now) (data_of value.now))) }
{
    match value {
        Value::Bool(truth) => out.boolean(*truth),
        Value::Uint(number) => put_unsigned(out, shape, *number),
        Value::Int(number) => put_signed(out, shape, *number),
        Value::F32(_) => put_float(out, value, text),
        Value::F64(_) => put_float(out, value, text),
        Value::Text(said) => out.string(said),
        Value::List(values) => put_list(out, values, element_in(shape), text),
        Value::Struct(values) => put_struct(out, values, members_in(shape), text),
        Value::Union(None) => out.null(),
        Value::Union(Some((kind, value))) => {
            put_choice(out, *kind, value, variants_in(shape), text)
        }
        Value::Tagged(slots) => put_tagged(out, slots, tagged_in(shape), text),
    }
}

/// Writes a value whose shape may be unknown.
#[cycle(value_object)]
fn put_some(
    out: &mut Writer,
    value: &Value,
    shape: Option<&Shape>,
    text: &mut String,
) -> Result<(), AllocError>
    ensures { OnOk result (AddsSome out.old out.new
        (SaysJson (or_bool (option_map (λ s. form s.now) shape.entry)) (data_of value.now))) }
{
    match shape {
        Some(shape) => put_value(out, value, shape, text),
        None => put_value(out, value, &Shape::Bool, text),
    }
}

#[cycle(value_object)]
fn put_list(
    out: &mut Writer,
    values: &[Value],
    element: Option<&Shape>,
    text: &mut String,
) -> Result<(), AllocError>
    ensures { OnOk result (AddsSome out.old out.new (Between false
        (SaysElements (or_bool (option_map (λ s. form s.now) element.entry)) (data_of_all values.now)))) }
{
    out.begin_array()?;
    put_elements(out, values, element, text)?;
    out.end_array()
}

#[cycle(value_object)]
fn put_elements(
    out: &mut Writer,
    values: &[Value],
    element: Option<&Shape>,
    text: &mut String,
) -> Result<(), AllocError>
    ensures { OnOk result (AddsSome out.old out.new
        (SaysElements (or_bool (option_map (λ s. form s.now) element.entry)) (data_of_all values.now))) }
{
    for i in 0..values.len() {
        put_some(out, &values[i], element, text)?;
    }
    Ok(())
}

#[cycle(value_object)]
fn put_struct(
    out: &mut Writer,
    values: &[Value],
    shapes: &[Shape],
    text: &mut String,
) -> Result<(), AllocError>
    ensures { OnOk result (AddsSome out.old out.new (Between (are_named (forms shapes.now))
        (SaysMembers (are_named (forms shapes.now)) (forms shapes.now) (data_of_all values.now)))) }
{
    let named = are_named(shapes);
    put_begin(out, named)?;
    put_members(out, values, shapes, named, text)?;
    put_end(out, named)
}

#[cycle(value_object)]
fn put_members(
    out: &mut Writer,
    values: &[Value],
    shapes: &[Shape],
    named: bool,
    text: &mut String,
) -> Result<(), AllocError>
    ensures { OnOk result (AddsSome out.old out.new
        (SaysMembers named (forms shapes.now) (data_of_all values.now))) }
{
    for i in 0..values.len() {
        let shape = member_at(shapes, i);
        put_key(out, named, shape)?;
        put_some(out, &values[i], shape, text)?;
    }
    Ok(())
}

/// Writes a variant with its type number.
#[cycle(value_object)]
fn put_choice(
    out: &mut Writer,
    kind: u32,
    value: &Value,
    variants: &[(u32, Shape)],
    text: &mut String,
) -> Result<(), AllocError>
    ensures { OnOk result (AddsSome out.old out.new (SaysVariant kind
        (SaysJson (variant_of kind (all_variants variants.now)) (data_of value.now)))) }
{
    put_kind(out, kind)?;
    put_some(out, value, variant_of(variants, kind), text)?;
    out.end_object()
}

#[cycle(value_object)]
fn put_tagged(
    out: &mut Writer,
    slots: &[Option<Value>],
    members: &[Member],
    text: &mut String,
) -> Result<(), AllocError>
    ensures { OnOk result (AddsSome out.old out.new (Between (are_members_named (all_members members.now))
        (SaysSlots (are_members_named (all_members members.now)) (all_members members.now) (slots_of slots.now)))) }
{
    let named = are_members_named(members);
    put_begin(out, named)?;
    put_slots(out, slots, members, named, text)?;
    put_end(out, named)
}

#[cycle(value_object)]
fn put_slots(
    out: &mut Writer,
    slots: &[Option<Value>],
    members: &[Member],
    named: bool,
    text: &mut String,
) -> Result<(), AllocError>
    ensures { OnOk result (AddsSome out.old out.new
        (SaysSlots named (all_members members.now) (slots_of slots.now))) }
{
    for i in 0..slots.len() {
        let shape = tagged_at(members, i);
        put_key(out, named, shape)?;
        match &slots[i] {
            None => out.null()?,
            Some(value) => put_some(out, value, shape, text)?,
        }
    }
    Ok(())
}

/// Begins an object where members have keys, and else an array.
fn put_begin(out: &mut Writer, named: bool) -> Result<(), AllocError>
    ensures before { OnOk result (out.new.before ≡ out.old.before) }
    ensures tokens { OnOk result (out.new.tokens ≡ out.old.tokens ++ (begin_token named ∷ [])) }
{
    if named {
        out.begin_object()
    } else {
        out.begin_array()
    }
}

fn put_end(out: &mut Writer, named: bool) -> Result<(), AllocError>
    ensures before { OnOk result (out.new.before ≡ out.old.before) }
    ensures tokens { OnOk result (out.new.tokens ≡ out.old.tokens ++ (end_token named ∷ [])) }
{
    if named {
        out.end_object()
    } else {
        out.end_array()
    }
}

/// Writes the key of a member, where members have keys.
fn put_key(out: &mut Writer, named: bool, shape: Option<&Shape>) -> Result<(), AllocError>
    ensures before { OnOk result (out.new.before ≡ out.old.before) }
    ensures tokens { OnOk result (out.new.tokens ≡ out.old.tokens ++ (key_tokens named (or_bool (option_map (λ s. form s.now) shape.entry)))) }
{
    if !named {
        return Ok(());
    }
    match shape {
        Some(Shape::Named(name, _)) => out.key(name),
        _ => out.key(""),
    }
}

/// Begins a variant up to its value.
fn put_kind(out: &mut Writer, kind: u32) -> Result<(), AllocError>
    ensures before { OnOk result (out.new.before ≡ out.old.before) }
    ensures tokens { OnOk result (out.new.tokens ≡ out.old.tokens ++ (variant_tokens kind)) }
{
    out.begin_object()?;
    out.key("variant")?;
    out.u64(u64::from(kind))?;
    out.key("value")
}

/// Writes a number by its name, or as it is.
fn put_unsigned(out: &mut Writer, shape: &Shape, number: u64) -> Result<(), AllocError>
    ensures before { OnOk result (out.new.before ≡ out.old.before) }
    ensures tokens { OnOk result (out.new.tokens ≡ out.old.tokens ++ (json_tokens (number_json (labels_in (form shape.now)) (pos number)))) }
{
    match label_of(labels_in(shape), i128::from(number)) {
        Some(name) => out.string(name),
        None => out.u64(number),
    }
}

fn put_signed(out: &mut Writer, shape: &Shape, number: i64) -> Result<(), AllocError>
    ensures before { OnOk result (out.new.before ≡ out.old.before) }
    ensures tokens { OnOk result (out.new.tokens ≡ out.old.tokens ++ (json_tokens (number_json (labels_in (form shape.now)) number))) }
{
    match label_of(labels_in(shape), i128::from(number)) {
        Some(name) => out.string(name),
        None => out.i64(number),
    }
}

/// Writes a float by its text: a number where JSON has it.
fn put_float(out: &mut Writer, value: &Value, text: &mut String) -> Result<(), AllocError>
    ensures { OnOk result (AddsSome out.old out.new (SaysFloat (data_of value.now))) }
{
    text.clear();
    let told = Told {
        shape: &Shape::Bool,
        value,
    };
    told.put(text)?;
    if json::is_number(text) {
        out.number(text)
    } else {
        out.string(text)
    }
}

/// Whether there are members, and each has a name.
fn are_named(shapes: &[Shape]) -> bool
    ensures { result ≡ are_named (forms shapes.now) }
{
    !shapes.is_empty() && have_names(shapes)
}

fn are_members_named(members: &[Member]) -> bool
    ensures { result ≡ are_members_named (all_members members.now) }
{
    !members.is_empty() && members_have_names(members)
}

fn have_names(shapes: &[Shape]) -> bool
    ensures { result ≡ list_all (λ s. has_name (name_in (form s))) shapes.now }
{
    shapes.iter().all(|s| has_name(s))
}

fn members_have_names(members: &[Member]) -> bool
    ensures { result ≡ list_all (λ m. has_name (name_in (form m.shape))) members.now }
{
    members.iter().all(|m| has_name(&m.shape))
}
