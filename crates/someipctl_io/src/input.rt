//! Reading an input whole.
ghost use Rattle.std.specs.Prelude.{◌≡◌, IfOk};
ghost use Rattle.std.specs.IoError.{error_kind};
ghost use Rattle.someipctl_io.specs.Inputs.{WasLeft, read_fault};

use std::alloc::Global;
use std::io;
use std::io::{ErrorKind, Read};
use thiserror::Error;

/// Why an input was not read.
#[derive(Clone, Copy, Debug, PartialEq, Eq, Error)]
pub enum ReadFault {
    /// A read failed.
    #[error("cannot read")]
    CannotRead,
    /// There was no memory for what was read.
    #[error("out of memory")]
    OutOfMemory,
}

impl ReadFault {
    /// What an error of a read is told as.
    ///
    /// ```text
    /// OutOfMemory    out of memory
    /// any other      cannot read
    /// ```
    pub fn of(error: &io::Error) -> ReadFault
        ensures { result ≡ read_fault (error_kind error.now) }
    {
        match error.kind() {
            ErrorKind::OutOfMemory => ReadFault::OutOfMemory,
            _ => ReadFault::CannotRead,
        }
    }
}

/// All that the reader has left.
pub fn read_all<R: Read>(alloc: Global, reader: &mut R) -> Result<Vec<u8>, ReadFault>
    ensures { IfOk result (λ bytes. WasLeft (R.remaining reader.old) bytes.items) }
{
    let mut bytes = Vec::new(alloc);
    match reader.read_to_end(&mut bytes) {
        Ok(_) => Ok(bytes),
        Err(error) => Err(ReadFault::of(&error)),
    }
}
