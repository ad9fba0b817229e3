//! Texts of values.

ghost use Rattle.std.specs.Prelude.{◌≡◌, ◌++◌, ℕ, List, codes, pos, drop, if◌then◌else◌, string_bytes, IfSome, IfNone, OnOk};
ghost use Rattle.std.specs.Option.{option_map};
ghost use Rattle.std.specs.Fmt.{WritesOnOk, signed_decimal};
ghost use Rattle.someip_payload_values.specs.View.{form, forms, all_variants, all_members, data_of, data_of_all, slots_of, labels_of};
ghost use Rattle.someip_payload_values.specs.ValueText.{escaped, quoted, number_said, labels_in, element_in, members_in, variants_in, tagged_in, variant_of, first_form, first_member, or_bool, comma_before, name_text};
ghost use Rattle.someip_payload_values.specs.ToldText.{SaysData, SaysElements, SaysMembers, SaysSlots, Between, AfterNumber, WritesSome, value_text};

use crate::float_text::{write_double, write_single};
use crate::shape::{Member, Shape};
use crate::value::Value;
use std::alloc::AllocError;
use std::fmt::Display;
use std::{fmt, mem};

/// A value as its shape has it told: members with their names, and numbers by theirs.
#[derive(Clone, Copy)]
pub struct Told<'a> {
    /// Whose names are told. Where the value is not one of it, it is told without names.
    pub shape: &'a Shape,
    /// What is told.
    pub value: &'a Value,
}

impl Told<'_> {
    /// Puts the text of the value after another text. A float is told by the shortest decimal that is read as
    /// it again, as `20.5`, `1e-45` or `-0.0`; by `inf` or `-inf`; or by the bits of a NaN, as
    /// `nan(7fc00001)`. An `Err` may leave a part of it.
    pub fn put(&self, text: &mut String) -> Result<(), AllocError>
        // What is put says the value: each float by a text that no other float of its width has.
        ensures says { OnOk result ((said : List ℕ)
            × SaysData (form self.now.shape.now) (data_of self.now.value.now) said
            × (string_bytes text.new ≡ string_bytes text.old ++ said)) }
    {
        let alloc = *text.allocator();
        let before = mem::replace(text, String::new(alloc));
        let (after, written) = with_value(before, self);
        *text = after;
        match written {
            Ok(()) => Ok(()),
            Err(_) => Err(AllocError),
        }
    }
}

/// A text with that of a value behind it.
fn with_value(text: String, told: &Told<'_>) -> (String, fmt::Result)
    ensures { OnOk result.1 ((said : List ℕ)
        × SaysData (form told.now.shape.now) (data_of told.now.value.now) said
        × (string_bytes result.0 ≡ string_bytes text ++ said)) }
{
    let mut f = fmt::Formatter::new(text);
    let written = write_value(&mut f, told.value, told.shape);
    (f.into_inner(), written)
}

/// The text without names. That of a value with floats is not specified here: `Told::put` says what it says.
impl Display for Value {
    ghost output = { λ value. value_text value };

    fn fmt<W: fmt::Write>(&self, f: &mut fmt::Formatter<W>) -> fmt::Result {
        write_value(f, self, &Shape::Bool)
    }
}

#[cycle(value_text)]
fn write_value<W: fmt::Write>(
    f: &mut fmt::Formatter<W>,
    value: &Value,
    shape: &Shape,
) -> fmt::Result
    ensures { WritesSome W.write_str_gives f.old result
        (SaysData (form shape.now) (data_of value.now)) f.new }
{
    match value {
        Value::Bool(truth) => write_truth(f, *truth),
        Value::Uint(number) => write_unsigned(f, shape, *number),
        Value::Int(number) => write_signed(f, shape, *number),
        Value::F32(bits) => write_single(f, *bits),
        Value::F64(bits) => write_double(f, *bits),
        Value::Text(text) => write_quoted(f, text.as_str()),
        Value::List(values) => write_list(f, values, element_in(shape)),
        Value::Struct(values) => write_struct(f, values, members_in(shape)),
        Value::Union(None) => f.write_str("none"),
        Value::Union(Some((kind, value))) => write_choice(f, *kind, value, variants_in(shape)),
        Value::Tagged(slots) => write_tagged(f, slots, tagged_in(shape)),
    }
}

/// The names of the values of an integer.
fn labels_in(shape: &Shape) -> &[(i128, String)]
    ensures { labels_of result.now ≡ labels_in (form shape.now) }
{
    match shape {
        Shape::Named(_, shape) => labels_in(shape),
        Shape::Enum(_, labels) => labels,
        _ => &[],
    }
}

/// What each element looks like.
fn element_in(shape: &Shape) -> Option<&Shape>
    ensures { or_bool (option_map (λ s. form s.now) result) ≡ element_in (form shape.now) }
{
    match shape {
        Shape::Named(_, shape) => element_in(shape),
        Shape::Array(_, _, element) => Some(element),
        Shape::Fixed(_, element) => Some(element),
        Shape::FramedFixed(_, _, element) => Some(element),
        _ => None,
    }
}

/// The members of a structure.
fn members_in(shape: &Shape) -> &[Shape]
    ensures { forms result.now ≡ members_in (form shape.now) }
{
    match shape {
        Shape::Named(_, shape) => members_in(shape),
        Shape::Struct(_, shapes) => shapes,
        _ => &[],
    }
}

/// The variants of a union.
fn variants_in(shape: &Shape) -> &[(u32, Shape)]
    ensures { all_variants result.now ≡ variants_in (form shape.now) }
{
    match shape {
        Shape::Named(_, shape) => variants_in(shape),
        Shape::Union(variants) => variants,
        Shape::SizedUnion(_, _, variants) => variants,
        _ => &[],
    }
}

/// The members of a tagged structure.
fn tagged_in(shape: &Shape) -> &[Member]
    ensures { all_members result.now ≡ tagged_in (form shape.now) }
{
    match shape {
        Shape::Named(_, shape) => tagged_in(shape),
        Shape::Tagged(_, members) => members,
        _ => &[],
    }
}

/// What the variant of a type number looks like.
fn variant_of(variants: &[(u32, Shape)], kind: u32) -> Option<&Shape>
    ensures { or_bool (option_map (λ s. form s.now) result) ≡ variant_of kind (all_variants variants.now) }
{
    for variant in variants {
        if variant.0 == kind {
            return Some(&variant.1);
        }
    }
    None
}

fn write_truth<W: fmt::Write>(f: &mut fmt::Formatter<W>, truth: bool) -> fmt::Result
    ensures { WritesOnOk W.write_str_gives f.old result (if truth then codes "true" else codes "false") f.new }
{
    write!(f, "{truth}")
}

/// The text of a value whose shape may be unknown.
#[cycle(value_text)]
fn write_some<W: fmt::Write>(
    f: &mut fmt::Formatter<W>,
    value: &Value,
    shape: Option<&Shape>,
) -> fmt::Result
    ensures { WritesSome W.write_str_gives f.old result
        (SaysData (or_bool (option_map (λ s. form s.now) shape.entry)) (data_of value.now)) f.new }
{
    match shape {
        Some(shape) => write_value(f, value, shape),
        None => write_value(f, value, &Shape::Bool),
    }
}

/// The texts of elements between brackets.
#[cycle(value_text)]
fn write_list<W: fmt::Write>(
    f: &mut fmt::Formatter<W>,
    values: &[Value],
    element: Option<&Shape>,
) -> fmt::Result
    ensures { WritesSome W.write_str_gives f.old result (Between (codes "[") (codes "]")
        (SaysElements (or_bool (option_map (λ s. form s.now) element.entry)) (data_of_all values.now))) f.new }
{
    f.write_str("[")?;
    write_elements(f, values, element)?;
    f.write_str("]")
}

#[cycle(value_text)]
fn write_elements<W: fmt::Write>(
    f: &mut fmt::Formatter<W>,
    values: &[Value],
    element: Option<&Shape>,
) -> fmt::Result
    ensures { WritesSome W.write_str_gives f.old result
        (SaysElements (or_bool (option_map (λ s. form s.now) element.entry)) (data_of_all values.now)) f.new }
{
    for i in 0..values.len() {
        write_comma(f, i)?;
        write_some(f, &values[i], element)?;
    }
    Ok(())
}

/// The texts of members between brackets.
#[cycle(value_text)]
fn write_struct<W: fmt::Write>(
    f: &mut fmt::Formatter<W>,
    values: &[Value],
    shapes: &[Shape],
) -> fmt::Result
    ensures { WritesSome W.write_str_gives f.old result
        (Between (codes "(") (codes ")") (SaysMembers (forms shapes.now) (data_of_all values.now))) f.new }
{
    f.write_str("(")?;
    write_members(f, values, shapes)?;
    f.write_str(")")
}

#[cycle(value_text)]
fn write_members<W: fmt::Write>(
    f: &mut fmt::Formatter<W>,
    values: &[Value],
    shapes: &[Shape],
) -> fmt::Result
    ensures { WritesSome W.write_str_gives f.old result
        (SaysMembers (forms shapes.now) (data_of_all values.now)) f.new }
{
    for i in 0..values.len() {
        write_comma(f, i)?;
        let shape = member_at(shapes, i);
        write_name(f, shape)?;
        write_some(f, &values[i], shape)?;
    }
    Ok(())
}

/// The text of a variant, after its type number.
#[cycle(value_text)]
fn write_choice<W: fmt::Write>(
    f: &mut fmt::Formatter<W>,
    kind: u32,
    value: &Value,
    variants: &[(u32, Shape)],
) -> fmt::Result
    ensures { WritesSome W.write_str_gives f.old result
        (AfterNumber kind (SaysData (variant_of kind (all_variants variants.now)) (data_of value.now))) f.new }
{
    f.write_str(itoa::Buffer::new().format(kind))?;
    f.write_str(":")?;
    write_some(f, value, variant_of(variants, kind))
}

/// The texts of the members of a tagged structure between braces.
#[cycle(value_text)]
fn write_tagged<W: fmt::Write>(
    f: &mut fmt::Formatter<W>,
    slots: &[Option<Value>],
    members: &[Member],
) -> fmt::Result
    ensures { WritesSome W.write_str_gives f.old result
        (Between (codes "{") (codes "}") (SaysSlots (all_members members.now) (slots_of slots.now))) f.new }
{
    f.write_str("{")?;
    write_slots(f, slots, members)?;
    f.write_str("}")
}

/// Each member behind its name, and a dash for one that is absent.
#[cycle(value_text)]
fn write_slots<W: fmt::Write>(
    f: &mut fmt::Formatter<W>,
    slots: &[Option<Value>],
    members: &[Member],
) -> fmt::Result
    ensures { WritesSome W.write_str_gives f.old result
        (SaysSlots (all_members members.now) (slots_of slots.now)) f.new }
{
    for i in 0..slots.len() {
        write_comma(f, i)?;
        let shape = tagged_at(members, i);
        write_name(f, shape)?;
        match &slots[i] {
            None => f.write_str("-")?,
            Some(value) => write_some(f, value, shape)?,
        }
    }
    Ok(())
}

/// The shape of the member at an index.
fn member_at(shapes: &[Shape], i: usize) -> Option<&Shape>
    ensures { or_bool (option_map (λ s. form s.now) result) ≡ first_form (forms (drop i shapes.now)) }
{
    shapes.get(i)
}

/// The shape of the member of a tagged structure at an index.
fn tagged_at(members: &[Member], i: usize) -> Option<&Shape>
    ensures { or_bool (option_map (λ s. form s.now) result) ≡ first_member (all_members (drop i members.now)) }
{
    Some(&members.get(i)?.shape)
}

/// A comma, but before the first.
fn write_comma<W: fmt::Write>(f: &mut fmt::Formatter<W>, i: usize) -> fmt::Result
    ensures { WritesOnOk W.write_str_gives f.old result (comma_before i) f.new }
{
    if i == 0 {
        return Ok(());
    }
    f.write_str(",")
}

/// The name of a member, where it has one.
fn write_name<W: fmt::Write>(f: &mut fmt::Formatter<W>, shape: Option<&Shape>) -> fmt::Result
    ensures { WritesOnOk W.write_str_gives f.old result
        (name_text (or_bool (option_map (λ s. form s.now) shape.entry))) f.new }
{
    let Some(Shape::Named(name, _)) = shape else {
        return Ok(());
    };
    f.write_str(name)?;
    f.write_str("=")
}

/// A number by its name, or as it is.
fn write_unsigned<W: fmt::Write>(
    f: &mut fmt::Formatter<W>,
    shape: &Shape,
    number: u64,
) -> fmt::Result
    ensures { WritesOnOk W.write_str_gives f.old result (number_said (labels_in (form shape.now)) (pos number)) f.new }
{
    match label_of(labels_in(shape), i128::from(number)) {
        Some(name) => f.write_str(name),
        None => f.write_str(itoa::Buffer::new().format(number)),
    }
}

fn write_signed<W: fmt::Write>(f: &mut fmt::Formatter<W>, shape: &Shape, number: i64) -> fmt::Result
    ensures { WritesOnOk W.write_str_gives f.old result (number_said (labels_in (form shape.now)) number) f.new }
{
    match label_of(labels_in(shape), i128::from(number)) {
        Some(name) => f.write_str(name),
        None => f.write_str(itoa::Buffer::new().format(number)),
    }
}

/// The name of a value.
fn label_of(labels: &[(i128, String)], number: i128) -> Option<&str>
    ensures named { IfSome result (λ name. number_said (labels_of labels.now) number ≡ name.now) }
    ensures plain { IfNone result (number_said (labels_of labels.now) number ≡ signed_decimal number) }
{
    for label in labels {
        if label.0 == number {
            return Some(label.1.as_str());
        }
    }
    None
}

/// The text between quotes.
fn write_quoted<W: fmt::Write>(f: &mut fmt::Formatter<W>, text: &str) -> fmt::Result
    ensures { WritesOnOk W.write_str_gives f.old result (quoted text.now) f.new }
{
    write!(f, "\"")?;
    for c in text.chars() {
        write_escaped(f, c)?;
    }
    write!(f, "\"")
}

/// A character between quotes. Quotes, backslashes and control characters of ASCII are escaped.
fn write_escaped<W: fmt::Write>(f: &mut fmt::Formatter<W>, c: char) -> fmt::Result
    ensures { WritesOnOk W.write_str_gives f.old result (escaped c) f.new }
{
    match c {
        '"' | '\\' => write!(f, "\\{c}"),
        '\0'..='\x1f' | '\x7f' => write!(f, "\\u{{{:x}}}", u32::from(c)),
        _ => write!(f, "{c}"),
    }
}
