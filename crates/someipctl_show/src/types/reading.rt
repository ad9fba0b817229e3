//! Reading a types file.
ghost use Rattle.std.specs.Prelude.{IfOk, IfErr};
ghost use Rattle.someipctl_show.specs.types.TypesInput.{BytesSay, InputSays, RefusesBytes, RefusesInput};

use crate::types::error::{TypesError, TypesRefusal};
use crate::types::message_types::MessageTypes;
use someip_texts::text_of;
use someipctl_io::{Fault, read_all};
use std::alloc::Global;
use std::io::Read;

/// Reads a types file whole.
pub fn read_types<R: Read>(
    alloc: Global,
    source: &mut R,
) -> Result<MessageTypes, Fault<TypesRefusal>>
    // It is what the bytes say that the source had left.
    ensures said { IfOk result (InputSays (R.remaining source.old)) }
    // Bytes that are refused have the fault that is told.
    ensures refused { IfErr result (RefusesInput (R.remaining source.old)) }
{
    let bytes = read_all(alloc, source)?;
    types_of(alloc, &bytes)
}

/// The types that some bytes say: bytes that are no UTF-8 are no TOML.
fn types_of(alloc: Global, bytes: &[u8]) -> Result<MessageTypes, Fault<TypesRefusal>>
    ensures said { IfOk result (BytesSay bytes.now) }
    ensures refused { IfErr result (RefusesBytes bytes.now) }
{
    let Some(text) = text_of(bytes) else {
        return Err(Fault::Refused(TypesRefusal(TypesError::NotToml)));
    };
    match MessageTypes::read(alloc, text) {
        Ok(types) => Ok(types),
        Err(TypesError::OutOfMemory) => Err(Fault::OutOfMemory),
        Err(error) => Err(Fault::Refused(TypesRefusal(error))),
    }
}
