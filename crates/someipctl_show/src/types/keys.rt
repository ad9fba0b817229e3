//! The values at the keys of a table.
ghost use Rattle.std.specs.Prelude.{◌≡◌, ◌-◌, ◌≤◌, Ok, codes, IfOk, IfErr, OnOk, string_bytes};
ghost use Rattle.std.specs.List.{list_all};
ghost use Rattle.std.specs.Option.{option_map};
ghost use Rattle.toml.specs.View.{view};
ghost use Rattle.someip_payload_values.specs.Check.{checked};
ghost use Rattle.someip_payload_values.specs.View.{form};
ghost use Rattle.someipctl_show.specs.types.GoodTypes.{is_label, is_visible};
ghost use Rattle.someipctl_show.specs.types.Keys.{IsAsFound, IsAsSaid, id_at, id_of, text_at, kind_at, kind_of_word, label_at};
ghost use Rattle.someipctl_show.specs.types.Faults.{NoForm, ShapeTold, TextTold};
ghost use Rattle.someipctl_show.specs.types.Judging.{RefusesForm};
ghost use Rattle.someipctl_show.specs.types.Says.{IsShapeText, SaysForm, left_after};
ghost use Rattle.someipctl_show.specs.types.Names.{most_written};
ghost use Rattle.someipctl_show.specs.types.References.{written_out};

use crate::types::key_error::KeyError;
use crate::types::references::read_in;
use someip_payload::{NamedShapes, PayloadError, Shape, check_shape};
use someip_wire::MessageType;
use std::alloc::Global;
use toml::Value;

/// The ID at a key, from 0 to FFFF.
pub(crate) fn id_at(table: &Value, key: &'static str) -> Result<u16, KeyError>
    ensures { IsAsFound (λ n. n) result key.now (id_at key.now (view table.now)) }
{
    let Some(value) = table.get(key) else {
        return Err(KeyError::Missing(key));
    };
    let Some(number) = value.as_integer() else {
        return Err(KeyError::WrongKind(key));
    };
    id_of(key, number)
}

/// A number of 16 bits.
fn id_of(key: &'static str, number: i64) -> Result<u16, KeyError>
    ensures { IsAsFound (λ n. n) result key.now (id_of number) }
{
    match u16::try_from(number) {
        Ok(id) => Ok(id),
        Err(_) => Err(KeyError::OutOfRange(key)),
    }
}

/// The text at a key.
fn text_at<'a>(table: &'a Value, key: &'static str) -> Result<&'a str, KeyError>
    ensures { IsAsFound (λ text. text.now) result key.now (text_at key.now (view table.now)) }
{
    let Some(value) = table.get(key) else {
        return Err(KeyError::Missing(key));
    };
    match value.as_str() {
        Some(text) => Ok(text),
        None => Err(KeyError::WrongKind(key)),
    }
}

/// The type at the key `type`.
pub(crate) fn kind_at(table: &Value) -> Result<MessageType, KeyError>
    ensures { IsAsFound (λ kind. kind) result (codes "type") (kind_at (view table.now)) }
{
    match kind_of_word(text_at(table, "type")?) {
        Some(kind) => Ok(kind),
        None => Err(KeyError::OutOfRange("type")),
    }
}

/// The type that a word names: one of the five without the TP flag.
fn kind_of_word(word: &str) -> Option<MessageType>
    ensures { result ≡ kind_of_word word.now }
{
    match word {
        "REQUEST" => Some(MessageType::Request),
        "REQUEST_NO_RETURN" => Some(MessageType::RequestNoReturn),
        "NOTIFICATION" => Some(MessageType::Notification),
        "RESPONSE" => Some(MessageType::Response),
        "ERROR" => Some(MessageType::Error),
        _ => None,
    }
}

/// The shape whose text stands at the key `shape`, where so many shapes may be written out for names, and how
/// many may be after it.
pub(crate) fn shape_at(
    alloc: Global,
    names: &NamedShapes,
    left: u64,
    table: &Value,
) -> Result<(Shape, u64), KeyError>
    requires { left ≤ most_written }
    ensures said { IsAsSaid (λ x. form x.0) result (SaysForm names.now left (view table.now))
        (NoForm (SaysForm names.now left (view table.now))) }
    ensures left { IfOk result (λ x. x.1 ≡ left_after names.now left (view table.now)) }
    ensures told { IfErr result (ShapeTold names.now left (view table.now)) }
{
    shape_of(alloc, names, left, text_at(table, "shape")?)
}

/// The shape of a text, if payloads can have it, and how many shapes may still be written out.
fn shape_of(
    alloc: Global,
    names: &NamedShapes,
    left: u64,
    text: &str,
) -> Result<(Shape, u64), KeyError>
    requires { left ≤ most_written }
    ensures said { IsAsSaid (λ x. form x.0) result (IsShapeText names.now left text.now)
        (NoForm (IsShapeText names.now left text.now)) }
    ensures left { IfOk result (λ x. x.1 ≡ left - written_out names.now text.now) }
    ensures told { IfErr result (TextTold names.now left text.now) }
{
    let (shape, rest) = read_in(alloc, names, left, text)?;
    Ok((accepted(alloc, shape)?, rest))
}

/// A shape, if payloads can have it.
fn accepted(alloc: Global, shape: Shape) -> Result<Shape, KeyError>
    ensures ok { IfOk result (λ s. (s ≡ shape) × (checked (form shape) ≡ Ok tt)) }
    ensures err { IfErr result (RefusesForm (form shape)) }
{
    refuse_shape(alloc, &shape)?;
    Ok(shape)
}

/// Refuses a shape that payloads cannot have.
fn refuse_shape(alloc: Global, shape: &Shape) -> Result<(), KeyError>
    ensures ok { OnOk result (checked (form shape.now) ≡ Ok tt) }
    ensures err { IfErr result (RefusesForm (form shape.now)) }
{
    match check_shape(alloc, shape) {
        Ok(()) => Ok(()),
        Err(PayloadError::OutOfMemory) => Err(KeyError::OutOfMemory),
        Err(_) => Err(KeyError::BadShape),
    }
}

/// The name at the key `name`, if it has one.
pub(crate) fn label_at(alloc: Global, table: &Value) -> Result<Option<String>, KeyError>
    ensures { IsAsFound (λ name. option_map string_bytes name) result (codes "name")
        (label_at (view table.now)) }
{
    let Some(value) = table.get("name") else {
        return Ok(None);
    };
    let Some(text) = value.as_str() else {
        return Err(KeyError::WrongKind("name"));
    };
    if !is_label(text) {
        return Err(KeyError::OutOfRange("name"));
    }
    Ok(Some(String::from_str(alloc, text)?))
}

/// Whether a text is 1 to 64 visible bytes.
fn is_label(text: &str) -> bool
    ensures { result ≡ is_label text.now }
{
    1 <= text.len() && text.len() <= 64 && are_visible(text.as_bytes())
}

/// Whether each byte is one of hex 21 to 7e.
fn are_visible(text: &[u8]) -> bool
    ensures { result ≡ list_all is_visible text.now }
{
    text.iter().all(|b| 0x21 <= *b && *b <= 0x7e)
}
