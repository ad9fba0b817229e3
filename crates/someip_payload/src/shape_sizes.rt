//! How deep a shape is, and how many shapes it is made of.

ghost use Rattle.std.specs.Prelude.{◌≡◌, ◌-◌, ◌^◌, min};
ghost use Rattle.someip_payload_values.specs.Check.{depth, deepest, deepest_variant, deepest_member};
ghost use Rattle.someip_payload_values.specs.View.{form, forms, all_variants, all_members};
ghost use Rattle.someip_payload.specs.ShapeSizes.{form_count, count_all, count_variants, count_members};

use someip_payload_codec::{Member, Shape};

/// How many shapes lie inside each other, this one among them, or the largest `u64` if there are more. A name
/// or an enumeration adds none.
#[cycle(depth)]
pub fn depth_of(shape: &Shape) -> u64
    ensures { result ≡ min (depth (form shape.now)) (2 ^ 64 - 1) }
{
    match shape {
        Shape::Array(_, _, element) => depth_of(element).saturating_add(1),
        Shape::Fixed(_, element) => depth_of(element).saturating_add(1),
        Shape::FramedFixed(_, _, element) => depth_of(element).saturating_add(1),
        Shape::Struct(_, shapes) => deepest_of(shapes).saturating_add(1),
        Shape::Union(variants) => deepest_variant_of(variants).saturating_add(1),
        Shape::SizedUnion(_, _, variants) => deepest_variant_of(variants).saturating_add(1),
        Shape::Tagged(_, members) => deepest_member_of(members).saturating_add(1),
        Shape::Named(_, shape) => depth_of(shape),
        Shape::Enum(shape, _) => depth_of(shape),
        _ => 1,
    }
}

#[cycle(depth)]
fn deepest_of(shapes: &[Shape]) -> u64
    ensures { result ≡ min (deepest (forms shapes.now)) (2 ^ 64 - 1) }
{
    let mut deepest = 0;
    for shape in shapes {
        deepest = depth_of(shape).max(deepest);
    }
    deepest
}

#[cycle(depth)]
fn deepest_variant_of(variants: &[(u32, Shape)]) -> u64
    ensures { result ≡ min (deepest_variant (all_variants variants.now)) (2 ^ 64 - 1) }
{
    let mut deepest = 0;
    for variant in variants {
        deepest = depth_of(&variant.1).max(deepest);
    }
    deepest
}

#[cycle(depth)]
fn deepest_member_of(members: &[Member]) -> u64
    ensures { result ≡ min (deepest_member (all_members members.now)) (2 ^ 64 - 1) }
{
    let mut deepest = 0;
    for member in members {
        deepest = depth_of(&member.shape).max(deepest);
    }
    deepest
}

/// How many shapes a shape is made of, this one among them, or the largest `u64` if there are more. A name adds
/// none, and an enumeration is one.
#[cycle(count)]
pub fn shapes_in(shape: &Shape) -> u64
    ensures { result ≡ min (form_count (form shape.now)) (2 ^ 64 - 1) }
{
    match shape {
        Shape::Array(_, _, element) => shapes_in(element).saturating_add(1),
        Shape::Fixed(_, element) => shapes_in(element).saturating_add(1),
        Shape::FramedFixed(_, _, element) => shapes_in(element).saturating_add(1),
        Shape::Struct(_, shapes) => shapes_in_all(shapes).saturating_add(1),
        Shape::Union(variants) => shapes_in_variants(variants).saturating_add(1),
        Shape::SizedUnion(_, _, variants) => shapes_in_variants(variants).saturating_add(1),
        Shape::Tagged(_, members) => shapes_in_members(members).saturating_add(1),
        Shape::Named(_, shape) => shapes_in(shape),
        Shape::Enum(shape, _) => shapes_in(shape),
        _ => 1,
    }
}

#[cycle(count)]
fn shapes_in_all(shapes: &[Shape]) -> u64
    ensures { result ≡ min (count_all (forms shapes.now)) (2 ^ 64 - 1) }
{
    let mut count: u64 = 0;
    for shape in shapes {
        count = count.saturating_add(shapes_in(shape));
    }
    count
}

#[cycle(count)]
fn shapes_in_variants(variants: &[(u32, Shape)]) -> u64
    ensures { result ≡ min (count_variants (all_variants variants.now)) (2 ^ 64 - 1) }
{
    let mut count: u64 = 0;
    for variant in variants {
        count = count.saturating_add(shapes_in(&variant.1));
    }
    count
}

#[cycle(count)]
fn shapes_in_members(members: &[Member]) -> u64
    ensures { result ≡ min (count_members (all_members members.now)) (2 ^ 64 - 1) }
{
    let mut count: u64 = 0;
    for member in members {
        count = count.saturating_add(shapes_in(&member.shape));
    }
    count
}
