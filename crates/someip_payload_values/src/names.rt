//! Names of members and of values.

ghost use Rattle.std.specs.Prelude.{◌≡◌, [], None, map, IfOk};
ghost use Rattle.std.specs.List.{list_all};
ghost use Rattle.someip_payload_values.specs.View.{form, forms, all_members, labels_of};
ghost use Rattle.someip_payload_values.specs.Check.{is_first, is_later, is_name, are_names, names_of, names_of_members, has_value, is_above, are_values, is_enum};

use crate::shape::{Member, Shape};
use std::alloc::{AllocError, Global};
use std::collections::BTreeSet;

/// The longest name.
const MAX_NAME_LEN: usize = 64;

/// The names of the members that have one.
pub(crate) fn names_of(alloc: Global, shapes: &[Shape]) -> Result<Vec<&str>, AllocError>
    ensures { IfOk result (λ names. map (λ n. n.now) names.items ≡ names_of (forms shapes.now)) }
{
    let mut names = Vec::new(alloc);
    for shape in shapes {
        if let Shape::Named(name, _) = shape {
            names.push(name.as_str())?;
        }
    }
    Ok(names)
}

/// The names of the members of a tagged structure that have one.
pub(crate) fn names_of_members(alloc: Global, members: &[Member]) -> Result<Vec<&str>, AllocError>
    ensures { IfOk result (λ names. map (λ n. n.now) names.items ≡ names_of_members (all_members members.now)) }
{
    let mut names = Vec::new(alloc);
    for member in members {
        if let Shape::Named(name, _) = &member.shape {
            names.push(name.as_str())?;
        }
    }
    Ok(names)
}

/// Whether each is a name, and none stands twice.
pub(crate) fn are_names(alloc: Global, names: &[&str]) -> Result<bool, AllocError>
    ensures { IfOk result (λ b. b ≡ are_names [] (map (λ n. n.now) names.now)) }
{
    let mut met = BTreeSet::new(alloc);
    for i in 0..names.len() {
        let name = names[i];
        if !is_name(name) || !met.insert(name)? {
            return Ok(false);
        }
    }
    Ok(true)
}

/// Whether a text is a name.
fn is_name(name: &str) -> bool
    ensures { result ≡ is_name name.now }
{
    let Some((first, rest)) = name.as_bytes().split_first() else {
        return false;
    };
    is_first(*first) && are_later(rest) && rest.len() < MAX_NAME_LEN
}

fn are_later(bytes: &[u8]) -> bool
    ensures { result ≡ list_all is_later bytes.now }
{
    bytes.iter().all(|b| is_later(*b))
}

/// A letter of ASCII or an underscore.
fn is_first(byte: u8) -> bool
    ensures { result ≡ is_first byte }
{
    byte.is_ascii_alphabetic() || byte == b'_'
}

fn is_later(byte: u8) -> bool
    ensures { result ≡ is_later byte }
{
    is_first(byte) || byte.is_ascii_digit()
}

/// Whether the shape is an integer, and its values have names in order.
pub(crate) fn is_enum(
    alloc: Global,
    shape: &Shape,
    labels: &[(i128, String)],
) -> Result<bool, AllocError>
    ensures { IfOk result (λ b. b ≡ is_enum (form shape.now) (labels_of labels.now)) }
{
    if labels.is_empty() || !are_values(shape, labels) {
        return Ok(false);
    }
    let names = label_names(alloc, labels)?;
    are_names(alloc, &names)
}

/// Whether each value is one of the shape, and they rise.
fn are_values(shape: &Shape, labels: &[(i128, String)]) -> bool
    ensures { result ≡ are_values (form shape.now) None (labels_of labels.now) }
{
    let mut before = None;
    for label in labels {
        if !has_value(shape, label.0) || !is_above(before, label.0) {
            return false;
        }
        before = Some(label.0);
    }
    true
}

/// Whether a value is above the one before it, if there is one.
fn is_above(before: Option<i128>, value: i128) -> bool
    ensures { result ≡ is_above before value }
{
    match before {
        None => true,
        Some(before) => before < value,
    }
}

/// The names of values.
fn label_names(alloc: Global, labels: &[(i128, String)]) -> Result<Vec<&str>, AllocError>
    ensures { IfOk result (λ names. map (λ n. n.now) names.items ≡ map (λ v. v.1) (labels_of labels.now)) }
{
    let mut names = Vec::with_capacity(alloc, labels.len())?;
    for label in labels {
        names.push(label.1.as_str())?;
    }
    Ok(names)
}

/// Whether the shape is an integer that has the value.
fn has_value(shape: &Shape, value: i128) -> bool
    ensures { result ≡ has_value (form shape.now) value }
{
    match shape {
        Shape::U8 => 0 <= value && value < 0x100,
        Shape::U16 | Shape::U16Le => 0 <= value && value < 0x1_0000,
        Shape::U32 | Shape::U32Le => 0 <= value && value < 0x1_0000_0000,
        Shape::U64 | Shape::U64Le => 0 <= value && value < 0x1_0000_0000_0000_0000,
        Shape::I8 => -0x80 <= value && value < 0x80,
        Shape::I16 | Shape::I16Le => -0x8000 <= value && value < 0x8000,
        Shape::I32 | Shape::I32Le => -0x8000_0000 <= value && value < 0x8000_0000,
        Shape::I64 | Shape::I64Le => {
            -0x8000_0000_0000_0000 <= value && value < 0x8000_0000_0000_0000
        }
        _ => false,
    }
}
