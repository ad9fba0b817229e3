//! Reading a setup.
ghost use Rattle.std.specs.Prelude.{IfOk, IfErr};
ghost use Rattle.someipctl_run.specs.Commands.{IsSetupOf, IsSetupOfInput, RefusesInput, RefusesSetup};

use crate::error::SetupRefusal;
use someip_texts::text_of;
use someip_world::{Setup, SetupError};
use someipctl_io::{Fault, read_all};
use std::alloc::Global;
use std::io::Read;

/// Reads a setup whole.
pub fn read_setup<R: Read>(alloc: Global, reader: &mut R) -> Result<Setup, Fault<SetupRefusal>>
    // It is the setup that the text says.
    ensures said { IfOk result (IsSetupOfInput (R.remaining reader.old)) }
    // A text that is refused has the fault that is told.
    ensures refused { IfErr result (RefusesInput (R.remaining reader.old)) }
{
    let bytes = read_all(alloc, reader)?;
    setup_of(alloc, &bytes)
}

/// The setup that some bytes say: bytes that are no UTF-8 are no TOML.
fn setup_of(alloc: Global, bytes: &[u8]) -> Result<Setup, Fault<SetupRefusal>>
    ensures said { IfOk result (IsSetupOf bytes.now) }
    ensures refused { IfErr result (RefusesSetup bytes.now) }
{
    let Some(text) = text_of(bytes) else {
        return Err(Fault::Refused(SetupRefusal(SetupError::NotToml)));
    };
    match Setup::read(alloc, text) {
        Ok(setup) => Ok(setup),
        Err(SetupError::OutOfMemory) => Err(Fault::OutOfMemory),
        Err(error) => Err(Fault::Refused(SetupRefusal(error))),
    }
}
