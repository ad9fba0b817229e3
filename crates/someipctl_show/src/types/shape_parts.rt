//! What a shape says of the parts of a value.
ghost use Rattle.std.specs.Prelude.{◌≡◌, drop, IfSome, IfNone};
ghost use Rattle.std.specs.Option.{option_map};
ghost use Rattle.std.specs.Fmt.{signed_decimal};
ghost use Rattle.json.specs.Json.{number, string};
ghost use Rattle.someip_payload_values.specs.Check.{name_in};
ghost use Rattle.someip_payload_values.specs.View.{all_members, all_variants, form, forms, labels_of};
ghost use Rattle.someip_payload_values.specs.ValueText.{element_in, first_form, first_member, labels_in, members_in};
ghost use Rattle.someip_payload_values.specs.ValueText.{or_bool, tagged_in, variant_of, variants_in};
ghost use Rattle.someipctl_io.specs.ValueObjects.{has_name, number_json};

use someip_payload::{Member, Shape};

/// The names of the values of an integer.
pub(crate) fn labels_in(shape: &Shape) -> &[(i128, String)]
    ensures { labels_of result.now ≡ labels_in (form shape.now) }
{
    match shape {
        Shape::Named(_, shape) => labels_in(shape),
        Shape::Enum(_, labels) => labels,
        _ => &[],
    }
}

/// What each element looks like.
pub(crate) fn element_in(shape: &Shape) -> Option<&Shape>
    ensures { or_bool (option_map (λ s. form s.now) result) ≡ element_in (form shape.now) }
{
    match shape {
        Shape::Named(_, shape) => element_in(shape),
        Shape::Array(_, _, element) => Some(element),
        Shape::Fixed(_, element) => Some(element),
        Shape::FramedFixed(_, _, element) => Some(element),
        _ => None,
    }
}

/// The members of a structure.
pub(crate) fn members_in(shape: &Shape) -> &[Shape]
    ensures { forms result.now ≡ members_in (form shape.now) }
{
    match shape {
        Shape::Named(_, shape) => members_in(shape),
        Shape::Struct(_, shapes) => shapes,
        _ => &[],
    }
}

/// The variants of a union.
pub(crate) fn variants_in(shape: &Shape) -> &[(u32, Shape)]
    ensures { all_variants result.now ≡ variants_in (form shape.now) }
{
    match shape {
        Shape::Named(_, shape) => variants_in(shape),
        Shape::Union(variants) => variants,
        Shape::SizedUnion(_, _, variants) => variants,
        _ => &[],
    }
}

/// The members of a tagged structure.
pub(crate) fn tagged_in(shape: &Shape) -> &[Member]
    ensures { all_members result.now ≡ tagged_in (form shape.now) }
{
    match shape {
        Shape::Named(_, shape) => tagged_in(shape),
        Shape::Tagged(_, members) => members,
        _ => &[],
    }
}

/// What the variant of a type number looks like.
pub(crate) fn variant_of(variants: &[(u32, Shape)], kind: u32) -> Option<&Shape>
    ensures { or_bool (option_map (λ s. form s.now) result) ≡ variant_of kind (all_variants variants.now) }
{
    for variant in variants {
        if variant.0 == kind {
            return Some(&variant.1);
        }
    }
    None
}

/// The shape of the member at an index.
pub(crate) fn member_at(shapes: &[Shape], i: usize) -> Option<&Shape>
    ensures { or_bool (option_map (λ s. form s.now) result) ≡ first_form (forms (drop i shapes.now)) }
{
    shapes.get(i)
}

/// The shape of the member of a tagged structure at an index.
pub(crate) fn tagged_at(members: &[Member], i: usize) -> Option<&Shape>
    ensures { or_bool (option_map (λ s. form s.now) result) ≡ first_member (all_members (drop i members.now)) }
{
    Some(&members.get(i)?.shape)
}

/// The name of a value.
pub(crate) fn label_of(labels: &[(i128, String)], n: i128) -> Option<&str>
    ensures named { IfSome result (λ name. number_json (labels_of labels.now) n ≡ string name.now) }
    ensures plain { IfNone result (number_json (labels_of labels.now) n ≡ number (signed_decimal n)) }
{
    for label in labels {
        if label.0 == n {
            return Some(label.1.as_str());
        }
    }
    None
}

/// Whether a member has a name.
pub(crate) fn has_name(shape: &Shape) -> bool
    ensures { result ≡ has_name (name_in (form shape.now)) }
{
    matches!(shape, Shape::Named(_, _))
}
