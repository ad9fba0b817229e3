//! The command `payload`: the value that bytes have by a shape.
//!
//! HEX as an argument has no spaces, and the empty argument is bad hex: no bytes are `-`.
ghost use Rattle.std.specs.Prelude.{◌≡◌, Some, None, IfErr, IfOk, string_bytes};
ghost use Rattle.std.specs.Option.{option_map};
ghost use Rattle.someip_payload_values.specs.View.{form};
ghost use Rattle.someipctl_show.specs.Payload.{argument_bytes, refusal_of_shape};
ghost use Rattle.someipctl_show.specs.Payload.{ShowsPayload, RefusesPayload, IsTold};

use hex::FromHexError;
use someip_payload::{
    PayloadError, Shape, ShapeTextError, Told, ValueTextError, decode, read_shape,
};
use someipctl_io::{Fault, Outcome, write_text};
use std::alloc::{AllocError, Global};
use std::io::Write;
use thiserror::Error;

/// Why the arguments of `payload` or of `encode` are refused.
#[derive(Clone, Copy, Debug, PartialEq, Eq, Error)]
pub enum PayloadRefusal {
    /// The shape's text is none from this byte on.
    #[error("{}", ShapeTextError::BadShape(*.0))]
    BadShape(usize),
    /// The payload is no hex.
    #[error("bad hex")]
    BadHex,
    /// The value's text is none of the shape from this byte on.
    #[error("{}", ValueTextError::BadValue(*.0))]
    BadValue(usize),
}

/// Reads the payload by its shape, and writes its value and how many of its bytes that took, or the
/// fault that it has. SHAPE is read before HEX.
pub fn payload<W: Write>(
    alloc: Global,
    shape: &str,
    hex: &str,
    writer: &mut W,
) -> Result<Outcome, Fault<PayloadRefusal>>
    // The value of a front of the bytes was written, or their first fault.
    ensures shown { IfOk result (λ outcome. ShowsPayload shape.now hex.now outcome
        (W.contents writer.old) (W.contents writer.new)) }
    // An error names what is refused, and leaves nothing written, but for one of writing: that leaves
    // a beginning of the text.
    ensures refused { IfErr result (λ error. RefusesPayload shape.now hex.now error
        (W.contents writer.old) (W.contents writer.new)) }
{
    let shape = read_shape(alloc, shape).map_err(refusal_of_shape)?;
    let Some(bytes) = bytes_of_argument(alloc, hex)? else {
        return Err(Fault::Refused(PayloadRefusal::BadHex));
    };
    let (text, outcome) = read_text(alloc, &shape, &bytes)?;
    write_text(writer, text.as_bytes())?;
    Ok(outcome)
}

/// Why a shape is not read.
pub(crate) fn refusal_of_shape(error: ShapeTextError) -> Fault<PayloadRefusal>
    ensures { result ≡ refusal_of_shape error }
{
    match error {
        ShapeTextError::BadShape(place) => Fault::Refused(PayloadRefusal::BadShape(place)),
        ShapeTextError::OutOfMemory => Fault::OutOfMemory,
    }
}

/// The text of the value, or of the fault, and which of them it is.
pub fn read_text(
    alloc: Global,
    shape: &Shape,
    bytes: &[u8],
) -> Result<(String, Outcome), AllocError>
    ensures { IfOk result (λ r. IsTold (form shape.now) bytes.now (string_bytes r.0) r.1) }
{
    let mut text = String::new(alloc);
    match decode(alloc, shape, bytes) {
        Ok((value, used)) => {
            let all = bytes.len();
            let told = Told {
                shape,
                value: &value,
            };
            text.push_str("value ")?;
            told.put(&mut text)?;
            text.push_str("\n")?;
            writeln!(text, "used {used} of {all}")?;
            Ok((text, Outcome::Done))
        }
        Err(PayloadError::OutOfMemory) => Err(AllocError),
        Err(fault) => {
            let name = fault.name();
            let place = fault.place();
            writeln!(text, "fault {name} at {place}")?;
            Ok((text, Outcome::FaultShown))
        }
    }
}

/// The bytes that the argument says: none for `-`, else those of its hex digits.
pub fn bytes_of_argument(alloc: Global, text: &str) -> Result<Option<Vec<u8>>, AllocError>
    ensures { IfOk result (λ found. option_map (λ bytes. bytes.items) found ≡ argument_bytes text.now) }
{
    let text = text.as_bytes();
    if text.is_empty() {
        return Ok(None);
    }
    if let [b'-'] = text {
        return Ok(Some(Vec::new(alloc)));
    }
    match hex::decode(alloc, text) {
        Ok(bytes) => Ok(Some(bytes)),
        Err(FromHexError::OutOfMemory) => Err(AllocError),
        Err(_) => Ok(None),
    }
}
