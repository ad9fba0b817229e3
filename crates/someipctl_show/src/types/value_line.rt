//! The line of a value.
//!
//! A table's name stands before the value and is no part of it, so that without names the text is that of
//! `payload`.
//!
//! A value that leaves bytes is no fault, as in `payload`: how many it takes is told where it does not take
//! all.
ghost use Rattle.std.specs.Prelude.{ℕ, List, ◌≡◌, ◌+◌, ◌≤◌, ◌++◌, length, IfOk, OnOk, decimal, string_bytes};
ghost use Rattle.std.specs.Option.{option_map};
ghost use Rattle.someip_payload_values.specs.View.{data_of, form};
ghost use Rattle.someip_payload_codec.specs.Reading.{decoded};
ghost use Rattle.someipctl_show.specs.types.ValueLine.{name_text, used_text, IsReadLine, fault_line, IsPayloadLine, is_fault};
ghost use Rattle.someipctl_show.specs.types.Views.{typed_view};

use crate::types::typed_message::TypedMessage;
use someip_payload::{PayloadError, Told, decode};
use someip_wire::Header;
use std::alloc::{AllocError, Global};

/// Puts a line of a payload after the text, by the table that names its message, which begins at the
/// place in the k-th datagram. Says whether the line tells a fault.
pub(crate) fn put_payload_line(
    alloc: Global,
    table: &TypedMessage,
    k: usize,
    place: usize,
    payload: &[u8],
    text: &mut String,
) -> Result<bool, AllocError>
    requires room { place + (16 + length payload.now) ≤ usize.MAX }
    ensures line { OnOk result ((line : List ℕ) × IsPayloadLine (typed_view table.now) k place payload.now line
        × (string_bytes text.new ≡ string_bytes text.old ++ line)) }
    ensures faulty { IfOk result (λ faulty.
        faulty ≡ is_fault (decoded (form table.now.shape) payload.now)) }
{
    match decode(alloc, &table.shape, payload) {
        Ok((value, used)) => {
            let told = Told {
                shape: &table.shape,
                value: &value,
            };
            put_read_line(text, k, table.name.as_ref(), &told, used, payload.len())?;
            Ok(false)
        }
        Err(PayloadError::OutOfMemory) => Err(AllocError),
        Err(fault) => {
            let place = place + Header::LEN + fault.place();
            put_fault_line(text, k, fault.name(), place)?;
            Ok(true)
        }
    }
}

/// Puts a line of a value after the text, which takes so many of all bytes of a payload.
fn put_read_line(
    text: &mut String,
    k: usize,
    name: Option<&String>,
    told: &Told<'_>,
    used: usize,
    all: usize,
) -> Result<(), AllocError>
    ensures { OnOk result ((line : List ℕ) × IsReadLine k (option_map (λ n. string_bytes n.now) name.entry)
        (form told.now.shape.now) (data_of told.now.value.now) used all line
        × (string_bytes text.new ≡ string_bytes text.old ++ line)) }
{
    put_number(text, k)?;
    text.push_str(" value ")?;
    put_name(text, name)?;
    told.put(text)?;
    put_used(text, used, all)?;
    text.push_str("\n")?;
    Ok(())
}

/// Puts a number after the text.
fn put_number(text: &mut String, number: usize) -> Result<(), AllocError>
    ensures { OnOk result (string_bytes text.new ≡ string_bytes text.old ++ decimal number) }
{
    text.push_str(itoa::Buffer::new().format(number))
}

/// Puts a name and a space after the text, if there is a name.
fn put_name(text: &mut String, name: Option<&String>) -> Result<(), AllocError>
    ensures { OnOk result (string_bytes text.new
        ≡ string_bytes text.old ++ name_text (option_map (λ n. string_bytes n.now) name.entry)) }
{
    match name {
        Some(name) => write!(text, "{name} "),
        None => Ok(()),
    }
}

/// Puts after the text how many bytes the value takes, where it does not take all.
fn put_used(text: &mut String, used: usize, all: usize) -> Result<(), AllocError>
    ensures { OnOk result (string_bytes text.new ≡ string_bytes text.old ++ used_text used all) }
{
    if all <= used {
        return Ok(());
    }
    text.push_str(" used ")?;
    put_number(text, used)?;
    text.push_str(" of ")?;
    put_number(text, all)
}

/// Puts the line of a fault after the text, at a place of the k-th datagram.
fn put_fault_line(text: &mut String, k: usize, name: &str, place: usize) -> Result<(), AllocError>
    ensures { OnOk result (string_bytes text.new ≡ string_bytes text.old ++ fault_line k name.now place) }
{
    writeln!(text, "{k} value fault {name} at {place}")
}
