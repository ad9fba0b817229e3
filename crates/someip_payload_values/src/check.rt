//! Which shapes can be read and written.
//!
//! A Data ID of more than 12 bits is refused by `check_shape`; what would be written of it is never seen,
//! since `encode` asks `check_shape` first.

ghost use Rattle.std.specs.Prelude.{◌≡◌, ◌&&◌, not, [], nat_le, nat_lt, IfOk, IfErr};
ghost use Rattle.someip_payload_values.specs.View.{form, forms, all_variants, all_members};
ghost use Rattle.someip_payload_values.specs.Steps.{Gives};
ghost use Rattle.someip_payload_values.specs.Check.{depth, deepest, deepest_variant, deepest_member, is_fixed, can_be_tagged, has_members, has_variants, has_tagged_members, is_form, are_forms, are_numbers, fit_field, is_room, are_variants, are_ids, are_tagged, checked, names_of, names_of_members, are_names, IsShapeFault};

use crate::error::PayloadError;
use crate::names::{are_names, is_enum, names_of, names_of_members};
use crate::number::{has_number, size_of};
use crate::shape::{Encoding, Member, Shape, Width};
use std::alloc::{AllocError, Global};
use std::collections::BTreeSet;

/// How many shapes may lie inside each other. A basic shape or a text counts as one.
pub const MAX_DEPTH: u32 = 16;

/// The largest Data ID: it has 12 bits.
const MAX_DATA_ID: u16 = 0xfff;

/// Whether values of the shape can be read and written. `TooDeep` is judged before `BadShape`, and
/// the place of both is 0. `OutOfMemory` comes only where a union's type numbers are compared, or a
/// tagged structure's Data IDs.
#[tactic(auto, unfolding(crate::specs::Check::checked))]
pub fn check_shape(alloc: Global, shape: &Shape) -> Result<(), PayloadError>
    // Which fault, or none.
    ensures exact { Gives (λ x. x) result (checked (form shape.now)) }
    ensures errors { IfErr result IsShapeFault }
{
    if !is_within(shape, MAX_DEPTH) {
        return Err(PayloadError::TooDeep(0));
    }
    if !is_sound(alloc, shape)? {
        return Err(PayloadError::BadShape(0));
    }
    Ok(())
}

#[cycle(within)]
fn is_within(shape: &Shape, limit: u32) -> bool
    ensures { result ≡ nat_le (depth (form shape.now)) limit }
{
    if limit == 0 {
        return false;
    }
    match shape {
        Shape::Array(_, _, element) => is_within(element, limit - 1),
        Shape::Fixed(_, element) => is_within(element, limit - 1),
        Shape::FramedFixed(_, _, element) => is_within(element, limit - 1),
        Shape::Struct(_, shapes) => are_within(shapes, limit - 1),
        Shape::Union(variants) => are_variants_within(variants, limit - 1),
        Shape::SizedUnion(_, _, variants) => are_variants_within(variants, limit - 1),
        Shape::Tagged(_, members) => are_tagged_within(members, limit - 1),
        Shape::Named(_, shape) => is_within(shape, limit),
        Shape::Enum(shape, _) => is_within(shape, limit),
        _ => true,
    }
}

#[cycle(within)]
fn are_within(shapes: &[Shape], limit: u32) -> bool
    ensures { result ≡ nat_le (deepest (forms shapes.now)) limit }
{
    for shape in shapes {
        if !is_within(shape, limit) {
            return false;
        }
    }
    true
}

#[cycle(within)]
fn are_variants_within(variants: &[(u32, Shape)], limit: u32) -> bool
    ensures { result ≡ nat_le (deepest_variant (all_variants variants.now)) limit }
{
    for variant in variants {
        if !is_within(&variant.1, limit) {
            return false;
        }
    }
    true
}

#[cycle(within)]
fn are_tagged_within(members: &[Member], limit: u32) -> bool
    ensures { result ≡ nat_le (deepest_member (all_members members.now)) limit }
{
    for member in members {
        if !is_within(&member.shape, limit) {
            return false;
        }
    }
    true
}

/// Whether no part of the shape is one that no shape may have.
#[cycle(sound)]
fn is_sound(alloc: Global, shape: &Shape) -> Result<bool, AllocError>
    ensures { IfOk result (λ b. b ≡ is_form (form shape.now)) }
{
    match shape {
        Shape::Array(_, _, element) => is_sound(alloc, element),
        Shape::Fixed(count, element) => is_sound_fixed(alloc, *count, element),
        Shape::FramedFixed(_, count, element) => is_sound_fixed(alloc, *count, element),
        Shape::Struct(_, shapes) => are_sound_members(alloc, shapes),
        Shape::Union(variants) => are_sound_variants(alloc, Width::W32, variants),
        Shape::SizedUnion(_, field, variants) => are_sound_variants(alloc, *field, variants),
        Shape::Tagged(_, members) => are_sound_tagged(alloc, members),
        Shape::FixedText(encoding, len) => Ok(is_room(*encoding, *len)),
        Shape::Named(_, shape) => is_sound(alloc, shape),
        Shape::Enum(shape, labels) => is_enum(alloc, shape, labels),
        _ => Ok(true),
    }
}

#[cycle(sound)]
fn is_sound_fixed(alloc: Global, count: u32, element: &Shape) -> Result<bool, AllocError>
    ensures { IfOk result (λ b. b ≡ (nat_lt 0 count && (not (is_fixed (form element.now)) && is_form (form element.now)))) }
{
    if count == 0 || is_repetition(element) {
        return Ok(false);
    }
    is_sound(alloc, element)
}

#[cycle(sound)]
#[tactic(auto, using(crate::proofs::Shapes::has_members_of))]
fn are_sound_members(alloc: Global, shapes: &[Shape]) -> Result<bool, AllocError>
    ensures { IfOk result (λ b. b ≡ (has_members (forms shapes.now)
        && (are_forms (forms shapes.now) && are_names [] (names_of (forms shapes.now))))) }
{
    if shapes.is_empty() || !are_sound(alloc, shapes)? {
        return Ok(false);
    }
    let names = names_of(alloc, shapes)?;
    are_names(alloc, &names)
}

#[cycle(sound)]
fn are_sound(alloc: Global, shapes: &[Shape]) -> Result<bool, AllocError>
    ensures { IfOk result (λ b. b ≡ are_forms (forms shapes.now)) }
{
    for shape in shapes {
        if !is_sound(alloc, shape)? {
            return Ok(false);
        }
    }
    Ok(true)
}

#[cycle(sound)]
#[tactic(auto, using(crate::proofs::Shapes::has_variants_of))]
fn are_sound_variants(
    alloc: Global,
    field: Width,
    variants: &[(u32, Shape)],
) -> Result<bool, AllocError>
    ensures { IfOk result (λ b. b ≡ (has_variants (all_variants variants.now)
        && (are_numbers [] (all_variants variants.now)
        && (fit_field field (all_variants variants.now) && are_variants (all_variants variants.now))))) }
{
    if variants.is_empty() || !have_numbers(alloc, variants)? || !fit_field(field, variants) {
        return Ok(false);
    }
    are_sound_shapes(alloc, variants)
}

#[cycle(sound)]
fn are_sound_shapes(alloc: Global, variants: &[(u32, Shape)]) -> Result<bool, AllocError>
    ensures { IfOk result (λ b. b ≡ are_variants (all_variants variants.now)) }
{
    for variant in variants {
        if !is_sound(alloc, &variant.1)? {
            return Ok(false);
        }
    }
    Ok(true)
}

#[cycle(sound)]
#[tactic(auto, using(crate::proofs::Shapes::has_tagged_members_of))]
fn are_sound_tagged(alloc: Global, members: &[Member]) -> Result<bool, AllocError>
    ensures { IfOk result (λ b. b ≡ (has_tagged_members (all_members members.now)
        && (are_ids [] (all_members members.now)
        && (are_tagged (all_members members.now) && are_names [] (names_of_members (all_members members.now)))))) }
{
    if members.is_empty() || !have_ids(alloc, members)? || !can_all_be_tagged(alloc, members)? {
        return Ok(false);
    }
    let names = names_of_members(alloc, members)?;
    are_names(alloc, &names)
}

#[cycle(sound)]
fn can_all_be_tagged(alloc: Global, members: &[Member]) -> Result<bool, AllocError>
    ensures { IfOk result (λ b. b ≡ are_tagged (all_members members.now)) }
{
    for member in members {
        if !can_be_tagged(&member.shape) || !is_sound(alloc, &member.shape)? {
            return Ok(false);
        }
    }
    Ok(true)
}

/// Whether a value of the shape tells where it ends.
fn can_be_tagged(shape: &Shape) -> bool
    ensures { result ≡ can_be_tagged (form shape.now) }
{
    match shape {
        Shape::Named(_, shape) => can_be_tagged(shape),
        Shape::Enum(shape, _) => can_be_tagged(shape),
        Shape::Fixed(_, _) | Shape::Struct(None, _) | Shape::FixedText(_, _) => false,
        _ => true,
    }
}

fn is_repetition(shape: &Shape) -> bool
    ensures { result ≡ is_fixed (form shape.now) }
{
    match shape {
        Shape::Named(_, shape) => is_repetition(shape),
        Shape::Fixed(_, _) | Shape::FramedFixed(_, _, _) => true,
        _ => false,
    }
}

/// Whether no type number is 0 or stands twice.
fn have_numbers(alloc: Global, variants: &[(u32, Shape)]) -> Result<bool, AllocError>
    ensures { IfOk result (λ b. b ≡ are_numbers [] (all_variants variants.now)) }
{
    let mut numbers = BTreeSet::new(alloc);
    for variant in variants {
        if variant.0 == 0 || !numbers.insert(variant.0)? {
            return Ok(false);
        }
    }
    Ok(true)
}

/// Whether a text may be given so many bytes: there is room for mark and terminator, units are
/// whole, and it is 1 MiB at most.
fn is_room(encoding: Encoding, len: u32) -> bool
    ensures { result ≡ is_room encoding len }
{
    if len < 4 || 0x10_0000 < len {
        return false;
    }
    match encoding {
        Encoding::Utf8 => true,
        Encoding::Utf16 => len % 2 == 0,
    }
}

/// Whether each type number fits into a type field of that width.
fn fit_field(field: Width, variants: &[(u32, Shape)]) -> bool
    ensures { result ≡ fit_field field (all_variants variants.now) }
{
    for variant in variants {
        if !has_number(size_of(field), u64::from(variant.0)) {
            return false;
        }
    }
    true
}

/// Whether no Data ID is too large or stands twice.
fn have_ids(alloc: Global, members: &[Member]) -> Result<bool, AllocError>
    ensures { IfOk result (λ b. b ≡ are_ids [] (all_members members.now)) }
{
    let mut ids = BTreeSet::new(alloc);
    for member in members {
        if member.id > MAX_DATA_ID || !ids.insert(member.id)? {
            return Ok(false);
        }
    }
    Ok(true)
}
