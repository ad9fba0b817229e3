//! The command `encode`: the payload that a value has by a shape.
ghost use Rattle.std.specs.Prelude.{◌≡◌, IfErr, IfOk, string_bytes};
ghost use Rattle.someip_payload_values.specs.View.{data_of, form};
ghost use Rattle.someipctl_show.specs.Encoding.{IsEncoded, RefusesText, RefusesValue, ShowsEncoded};
ghost use Rattle.someip_payload.specs.ValueReading.{IsTextOfValue};

use crate::payload::{PayloadRefusal, refusal_of_shape};
use someip_payload::{PayloadError, Shape, Value, ValueTextError, read_shape, read_value};
use someipctl_io::{Fault, Outcome, write_text};
use std::alloc::{AllocError, Global};
use std::io::Write;

/// Reads the value of the shape, and writes its payload in hex, or the fault that it has. SHAPE is read
/// before VALUE.
pub fn encode<W: Write>(
    alloc: Global,
    shape: &str,
    value: &str,
    writer: &mut W,
) -> Result<Outcome, Fault<PayloadRefusal>>
    // The bytes of the value were written, or why it has none.
    ensures shown { IfOk result (λ outcome. ShowsEncoded shape.now value.now outcome
        (W.contents writer.old) (W.contents writer.new)) }
    // An error names what is refused, and leaves nothing written, but for one of writing: that leaves
    // a beginning of the text.
    ensures refused { IfErr result (λ error. RefusesValue shape.now value.now error
        (W.contents writer.old) (W.contents writer.new)) }
{
    let shape = read_shape(alloc, shape).map_err(refusal_of_shape)?;
    let value = value_said(alloc, &shape, value)?;
    let (text, outcome) = encoded_text(alloc, &shape, &value)?;
    write_text(writer, text.as_bytes())?;
    Ok(outcome)
}

/// The value of the shape that a text says.
fn value_said(alloc: Global, shape: &Shape, text: &str) -> Result<Value, Fault<PayloadRefusal>>
    ensures said { IfOk result (λ value. IsTextOfValue (form shape.now) (data_of value) text.now) }
    ensures refused { IfErr result (RefusesText (form shape.now) text.now) }
{
    match read_value(alloc, shape, text) {
        Ok(value) => Ok(value),
        Err(ValueTextError::BadValue(place)) => {
            Err(Fault::Refused(PayloadRefusal::BadValue(place)))
        }
        Err(ValueTextError::OutOfMemory) => Err(Fault::OutOfMemory),
    }
}

/// The payload in hex, or the fault that the value has, and which of them it is.
fn encoded_text(
    alloc: Global,
    shape: &Shape,
    value: &Value,
) -> Result<(String, Outcome), AllocError>
    ensures { IfOk result (λ r. IsEncoded (form shape.now) (data_of value.now) (string_bytes r.0) r.1) }
{
    let mut bytes = Vec::new(alloc);
    match someip_payload::encode(shape, value, &mut bytes) {
        Ok(()) => {
            let mut text = hex::encode(alloc, bytes)?;
            text.push_str("\n")?;
            Ok((text, Outcome::Done))
        }
        Err(PayloadError::OutOfMemory) => Err(AllocError),
        Err(fault) => {
            let mut text = String::new(alloc);
            let name = fault.name();
            let place = fault.place();
            writeln!(text, "fault {name} at {place}")?;
            Ok((text, Outcome::FaultShown))
        }
    }
}
