//! Why a shape could not be read from its text.

ghost use Rattle.std.specs.Prelude.{◌≡◌};
ghost use Rattle.someip_payload.specs.declared.shape_text_error.ShapeTextError.TheVariants.{OutOfMemory};

use std::alloc::{AllocError, AllocFailed};
use thiserror::Error;

/// Why a shape could not be read from its text.
#[derive(Clone, Copy, Debug, Error, PartialEq, Eq)]
pub enum ShapeTextError {
    /// No text of a shape goes on with the byte at this place, or the text ends here too early.
    #[error("bad shape at {0}")]
    BadShape(usize),
    /// Memory ran out.
    #[error("out of memory")]
    OutOfMemory,
}

impl From<AllocError> for ShapeTextError {
    ghost from_gives = { λ _ e. e ≡ OutOfMemory };

    fn from(_e: AllocError) -> ShapeTextError {
        ShapeTextError::OutOfMemory
    }
}

impl<T: Drop> From<AllocFailed<T>> for ShapeTextError {
    ghost from_gives = { λ _ e. e ≡ OutOfMemory };

    fn from(_e: AllocFailed<T>) -> ShapeTextError {
        ShapeTextError::OutOfMemory
    }
}
