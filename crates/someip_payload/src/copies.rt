//! Copies of shapes.

ghost use Rattle.std.specs.Prelude.{◌≡◌, IfOk};
ghost use Rattle.someip_payload_values.specs.Data.{named, enumerated};
ghost use Rattle.someip_payload_values.specs.View.{form, forms, all_variants, all_members, labels_of};
ghost use Rattle.someip_payload.specs.ShapeText.{one_label};

use someip_payload_codec::{Member, Shape};
use std::alloc::{AllocError, Global};

/// A shape of its own that stands for the same.
#[cycle(copy)]
pub(crate) fn copy_shape(alloc: Global, shape: &Shape) -> Result<Shape, AllocError>
    ensures { IfOk result (λ s. form s ≡ form shape.now) }
{
    match shape {
        Shape::Bool => Ok(Shape::Bool),
        Shape::U8 => Ok(Shape::U8),
        Shape::U16 => Ok(Shape::U16),
        Shape::U32 => Ok(Shape::U32),
        Shape::U64 => Ok(Shape::U64),
        Shape::I8 => Ok(Shape::I8),
        Shape::I16 => Ok(Shape::I16),
        Shape::I32 => Ok(Shape::I32),
        Shape::I64 => Ok(Shape::I64),
        Shape::U16Le => Ok(Shape::U16Le),
        Shape::U32Le => Ok(Shape::U32Le),
        Shape::U64Le => Ok(Shape::U64Le),
        Shape::I16Le => Ok(Shape::I16Le),
        Shape::I32Le => Ok(Shape::I32Le),
        Shape::I64Le => Ok(Shape::I64Le),
        Shape::F32 => Ok(Shape::F32),
        Shape::F64 => Ok(Shape::F64),
        Shape::F32Le => Ok(Shape::F32Le),
        Shape::F64Le => Ok(Shape::F64Le),
        Shape::Text(encoding, width) => Ok(Shape::Text(*encoding, *width)),
        Shape::FixedText(encoding, len) => Ok(Shape::FixedText(*encoding, *len)),
        Shape::Array(width, max, element) => {
            Ok(Shape::Array(*width, *max, copy_box(alloc, element)?))
        }
        Shape::Fixed(count, element) => Ok(Shape::Fixed(*count, copy_box(alloc, element)?)),
        Shape::FramedFixed(width, count, element) => {
            Ok(Shape::FramedFixed(*width, *count, copy_box(alloc, element)?))
        }
        Shape::Struct(width, shapes) => Ok(Shape::Struct(*width, copy_shapes(alloc, shapes)?)),
        Shape::Union(variants) => Ok(Shape::Union(copy_variants(alloc, variants)?)),
        Shape::SizedUnion(width, type_width, variants) => Ok(Shape::SizedUnion(
            *width,
            *type_width,
            copy_variants(alloc, variants)?,
        )),
        Shape::Tagged(width, members) => Ok(Shape::Tagged(*width, copy_members(alloc, members)?)),
        Shape::Named(name, shape) => copy_named(alloc, name, shape),
        Shape::Enum(shape, labels) => copy_enum(alloc, shape, labels),
    }
}

#[cycle(copy)]
fn copy_box(alloc: Global, shape: &Shape) -> Result<Box<Shape>, AllocError>
    ensures { IfOk result (λ b. form b.value ≡ form shape.now) }
{
    let copy = copy_shape(alloc, shape)?;
    Ok(Box::new(alloc, copy)?)
}

#[cycle(copy)]
fn copy_shapes(alloc: Global, shapes: &[Shape]) -> Result<Vec<Shape>, AllocError>
    ensures { IfOk result (λ v. forms v.items ≡ forms shapes.now) }
{
    let mut copies = Vec::new(alloc);
    for shape in shapes {
        copies.push(copy_shape(alloc, shape)?)?;
    }
    Ok(copies)
}

#[cycle(copy)]
fn copy_variants(alloc: Global, variants: &[(u32, Shape)]) -> Result<Vec<(u32, Shape)>, AllocError>
    ensures { IfOk result (λ v. all_variants v.items ≡ all_variants variants.now) }
{
    let mut copies = Vec::new(alloc);
    for (number, shape) in variants {
        copies.push((*number, copy_shape(alloc, shape)?))?;
    }
    Ok(copies)
}

#[cycle(copy)]
fn copy_members(alloc: Global, members: &[Member]) -> Result<Vec<Member>, AllocError>
    ensures { IfOk result (λ v. all_members v.items ≡ all_members members.now) }
{
    let mut copies = Vec::new(alloc);
    for member in members {
        let shape = copy_shape(alloc, &member.shape)?;
        copies.push(Member {
            id: member.id,
            is_optional: member.is_optional,
            shape,
        })?;
    }
    Ok(copies)
}

#[cycle(copy)]
fn copy_named(alloc: Global, name: &str, shape: &Shape) -> Result<Shape, AllocError>
    ensures { IfOk result (λ s. form s ≡ named name.now (form shape.now)) }
{
    let copy = copy_box(alloc, shape)?;
    Ok(Shape::Named(String::from_str(alloc, name)?, copy))
}

#[cycle(copy)]
fn copy_enum(alloc: Global, shape: &Shape, labels: &[(i128, String)]) -> Result<Shape, AllocError>
    ensures { IfOk result (λ s. form s ≡ enumerated (form shape.now) (labels_of labels.now)) }
{
    let copy = copy_box(alloc, shape)?;
    Ok(Shape::Enum(copy, copy_labels(alloc, labels)?))
}

fn copy_labels(alloc: Global, labels: &[(i128, String)]) -> Result<Vec<(i128, String)>, AllocError>
    ensures { IfOk result (λ v. labels_of v.items ≡ labels_of labels.now) }
{
    let mut copies = Vec::new(alloc);
    for label in labels {
        copies.push(copy_label(alloc, label)?)?;
    }
    Ok(copies)
}

fn copy_label(alloc: Global, label: &(i128, String)) -> Result<(i128, String), AllocError>
    ensures { IfOk result (λ l. one_label l ≡ one_label label.now) }
{
    Ok((label.0, String::from_str(alloc, &label.1)?))
}
