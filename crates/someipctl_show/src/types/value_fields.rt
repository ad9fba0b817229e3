//! The fields of the object of a value.
//!
//! They are those of its line: the name of the table, if it has one, the value, and how many bytes that takes
//! where it does not take all; or the fault and its place. Each is a member behind others.
ghost use Rattle.std.specs.Prelude.{◌≡◌, ◌+◌, ◌≤◌, ◌++◌, [], length, IfOk};
ghost use Rattle.std.specs.Option.{option_map};
ghost use Rattle.std.specs.Prelude.{string_bytes};
ghost use Rattle.someip_payload_values.specs.View.{data_of, form};
ghost use Rattle.someip_payload_codec.specs.Reading.{decoded};
ghost use Rattle.someipctl_io.specs.declared.form.Form.TheVariants.{Json};
ghost use Rattle.someipctl_io.specs.ToldLines.{field, field_text, fields_text, number, text as told_text};
ghost use Rattle.someipctl_show.specs.types.ValueFields.{ArePayloadFields, IsFieldsBehind};
ghost use Rattle.someipctl_show.specs.types.ValueFields.{IsValueField, fault_fields, name_fields, used_fields};
ghost use Rattle.someipctl_show.specs.types.ValueLine.{is_fault};
ghost use Rattle.someipctl_show.specs.types.Views.{typed_view};

use crate::types::typed_message::TypedMessage;
use crate::types::value_object::put_value;
use json::Writer;
use someip_payload::{PayloadError, Told, decode};
use someip_wire::Header;
use std::alloc::{AllocError, Global};

/// Puts the fields of a payload behind others, by the table that names its message, which begins at the place
/// in its datagram. Says whether they tell a fault. `text` is room for the text of a float.
pub(crate) fn put_payload_fields(
    alloc: Global,
    table: &TypedMessage,
    place: usize,
    payload: &[u8],
    out: Vec<u8>,
    text: &mut String,
) -> Result<(Vec<u8>, bool), AllocError>
    requires room { place + (16 + length payload.now) ≤ usize.MAX }
    ensures fields { IfOk result (λ r. IsFieldsBehind out.items
        (ArePayloadFields (typed_view table.now) place payload.now) r.0.items) }
    ensures faulty { IfOk result (λ r. r.1 ≡ is_fault (decoded (form table.now.shape) payload.now)) }
{
    match decode(alloc, &table.shape, payload) {
        Ok((value, used)) => {
            let told = Told {
                shape: &table.shape,
                value: &value,
            };
            let out = put_name_field(out, table.name.as_ref())?;
            let out = put_value_field(out, &told, text)?;
            let out = put_used_fields(out, used, payload.len())?;
            Ok((out, false))
        }
        Err(PayloadError::OutOfMemory) => Err(AllocError),
        Err(fault) => {
            let place = place + Header::LEN + fault.place();
            let out = put_fault_fields(out, fault.name(), place)?;
            Ok((out, true))
        }
    }
}

/// Puts the name of a value behind other fields, if it has one.
fn put_name_field(out: Vec<u8>, name: Option<&String>) -> Result<Vec<u8>, AllocError>
    ensures { IfOk result (λ v. v.items
        ≡ out.items ++ fields_text Json (name_fields (option_map (λ n. string_bytes n.now) name.entry))) }
{
    match name {
        Some(name) => put_text_field(out, "name", name),
        None => Ok(out),
    }
}

/// Puts a value behind other fields.
fn put_value_field(
    mut out: Vec<u8>,
    told: &Told<'_>,
    text: &mut String,
) -> Result<Vec<u8>, AllocError>
    ensures { IfOk result (λ v. IsValueField out.items (form told.now.shape.now)
        (data_of told.now.value.now) v.items) }
{
    out.push(b',')?;
    let mut out = Writer::new(out);
    out.key("value")?;
    put_value(&mut out, told.value, told.shape, text)?;
    Ok(out.into_inner())
}

/// Puts how many bytes a value takes behind other fields, where it does not take all.
fn put_used_fields(out: Vec<u8>, used: usize, all: usize) -> Result<Vec<u8>, AllocError>
    ensures { IfOk result (λ v. v.items ≡ out.items ++ fields_text Json (used_fields used all)) }
{
    if all <= used {
        return Ok(out);
    }
    let out = put_number_field(out, "used", used)?;
    put_number_field(out, "of", all)
}

/// Puts a fault and its place behind other fields.
fn put_fault_fields(out: Vec<u8>, name: &str, place: usize) -> Result<Vec<u8>, AllocError>
    ensures { IfOk result (λ v. v.items ≡ out.items ++ fields_text Json (fault_fields name.now place)) }
{
    let out = put_text_field(out, "fault", name)?;
    put_number_field(out, "at", place)
}

fn put_text_field(mut out: Vec<u8>, key: &str, text: &str) -> Result<Vec<u8>, AllocError>
    ensures { IfOk result (λ v. v.items
        ≡ out.items ++ field_text Json (field [] key.now (told_text text.now))) }
{
    out.push(b',')?;
    let mut out = Writer::new(out);
    out.key(key)?;
    out.string(text)?;
    Ok(out.into_inner())
}

fn put_number_field(mut out: Vec<u8>, key: &str, n: usize) -> Result<Vec<u8>, AllocError>
    ensures { IfOk result (λ v. v.items
        ≡ out.items ++ field_text Json (field [] key.now (number n))) }
{
    out.push(b',')?;
    let mut out = Writer::new(out);
    out.key(key)?;
    out.u64(n as u64)?;
    Ok(out.into_inner())
}
