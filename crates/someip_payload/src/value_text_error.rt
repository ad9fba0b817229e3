//! Why a value could not be read from its text.

ghost use Rattle.std.specs.Prelude.{◌≡◌};
ghost use Rattle.someip_payload.specs.declared.value_text_error.ValueTextError.TheVariants.{OutOfMemory};

use std::alloc::{AllocError, AllocFailed};
use thiserror::Error;

/// Why a value could not be read from its text.
#[derive(Clone, Copy, Debug, Error, PartialEq, Eq)]
pub enum ValueTextError {
    /// No text of a value of the shape goes on with the byte at this place, or the text ends here too early.
    #[error("bad value at {0}")]
    BadValue(usize),
    /// Memory ran out.
    #[error("out of memory")]
    OutOfMemory,
}

impl From<AllocError> for ValueTextError {
    ghost from_gives = { λ _ e. e ≡ OutOfMemory };

    fn from(_e: AllocError) -> ValueTextError {
        ValueTextError::OutOfMemory
    }
}

impl<T: Drop> From<AllocFailed<T>> for ValueTextError {
    ghost from_gives = { λ _ e. e ≡ OutOfMemory };

    fn from(_e: AllocFailed<T>) -> ValueTextError {
        ValueTextError::OutOfMemory
    }
}
