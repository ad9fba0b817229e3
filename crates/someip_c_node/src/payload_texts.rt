//! Payloads, as the texts of their values.
ghost use Rattle.std.specs.Prelude.{◌≡◌, Ok, IfErr, IfOk, string_bytes};
ghost use Rattle.someip_payload_values.specs.Check.{checked};
ghost use Rattle.someip_payload_codec.specs.Grammar.{Reads};
ghost use Rattle.someip_payload_values.specs.View.{data_of, form};
ghost use Rattle.someip_c_node.specs.PayloadTexts.{IsShapeIn, RefusesPayload, RefusesShape, RefusesText};
ghost use Rattle.someip_c_node.specs.PayloadTexts.{SpellsNoValue, SpellsValue, TellsNoValue, TellsValue};
ghost use Rattle.someip_c_node.specs.PayloadTexts.{IsSpelledBy};

use crate::outcome::Outcome;
use someip_payload::{
    PayloadError, Shape, ShapeTextError, Told, Value, ValueTextError, check_shape, decode, encode,
    read_shape, read_value,
};
use std::alloc::Global;

/// The value of a payload as text, by a shape. The value takes the whole payload.
///
/// It is refused as `NotText` where the shape is not UTF-8, as `BadShape` where it is the text of none that
/// payloads can have, as `BadPayload`, and as `OutOfMemory`.
pub fn value_text(alloc: Global, shape: &[u8], payload: &[u8]) -> Result<String, Outcome>
    ensures text { IfOk result (λ text. TellsValue shape.now payload.now (string_bytes text)) }
    ensures refused { IfErr result (TellsNoValue shape.now payload.now) }
{
    let shape = shape_in(alloc, shape)?;
    let value = value_of_payload(alloc, &shape, payload)?;
    let mut text = String::new(alloc);
    let told = Told {
        shape: &shape,
        value: &value,
    };
    match told.put(&mut text) {
        Ok(()) => Ok(text),
        Err(_) => Err(Outcome::OutOfMemory),
    }
}

/// The payload of a value that a text tells, by a shape.
///
/// It is refused as `NotText` where one of the two is not UTF-8, as `BadShape` where the shape is the text of
/// none that payloads can have, as `BadValue` where the other is the text of no value that a payload can have,
/// and as `OutOfMemory`.
pub fn value_bytes(alloc: Global, shape: &[u8], text: &[u8]) -> Result<Vec<u8>, Outcome>
    ensures bytes { IfOk result (λ bytes. SpellsValue shape.now text.now bytes.items) }
    ensures refused { IfErr result (SpellsNoValue shape.now text.now) }
{
    let shape = shape_in(alloc, shape)?;
    let bytes = bytes_of_text(alloc, &shape, text)?;
    Ok(bytes)
}

/// The shape that a text writes, if payloads can have it.
fn shape_in(alloc: Global, text: &[u8]) -> Result<Shape, Outcome>
    ensures found { IfOk result (λ shape. IsShapeIn text.now (form shape)) }
    ensures refused { IfErr result (RefusesShape text.now) }
{
    let Ok(text) = str::from_utf8(text) else {
        return Err(Outcome::NotText);
    };
    match read_shape(alloc, text) {
        Ok(shape) => match check_shape(alloc, &shape) {
            Ok(()) => Ok(shape),
            Err(PayloadError::OutOfMemory) => Err(Outcome::OutOfMemory),
            Err(_) => Err(Outcome::BadShape),
        },
        Err(ShapeTextError::BadShape(_)) => Err(Outcome::BadShape),
        Err(ShapeTextError::OutOfMemory) => Err(Outcome::OutOfMemory),
    }
}

/// The value of a whole payload.
fn value_of_payload(alloc: Global, shape: &Shape, payload: &[u8]) -> Result<Value, Outcome>
    requires { checked (form shape.now) ≡ Ok tt }
    ensures found { IfOk result (λ value. Reads (form shape.now) (data_of value) payload.now) }
    ensures refused { IfErr result (RefusesPayload (form shape.now) payload.now) }
{
    match decode(alloc, shape, payload) {
        Ok((value, used)) => {
            if used == payload.len() {
                Ok(value)
            } else {
                Err(Outcome::BadPayload)
            }
        }
        Err(PayloadError::OutOfMemory) => Err(Outcome::OutOfMemory),
        Err(_) => Err(Outcome::BadPayload),
    }
}

/// The payload of the value that a text tells.
fn bytes_of_text(alloc: Global, shape: &Shape, text: &[u8]) -> Result<Vec<u8>, Outcome>
    ensures bytes { IfOk result (λ bytes. IsSpelledBy (form shape.now) text.now bytes.items) }
    ensures refused { IfErr result (RefusesText (form shape.now) text.now) }
{
    let Ok(text) = str::from_utf8(text) else {
        return Err(Outcome::NotText);
    };
    let value = match read_value(alloc, shape, text) {
        Ok(value) => value,
        Err(ValueTextError::BadValue(_)) => return Err(Outcome::BadValue),
        Err(ValueTextError::OutOfMemory) => return Err(Outcome::OutOfMemory),
    };
    let mut bytes = Vec::new(alloc);
    match encode(shape, &value, &mut bytes) {
        Ok(()) => Ok(bytes),
        Err(PayloadError::OutOfMemory) => Err(Outcome::OutOfMemory),
        Err(_) => Err(Outcome::BadValue),
    }
}
