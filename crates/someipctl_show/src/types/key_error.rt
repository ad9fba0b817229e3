//! Why a part of a types file says nothing.
ghost use Rattle.std.specs.Prelude.{◌≡◌};
ghost use Rattle.someipctl_show.specs.declared.types.key_error.KeyError.TheVariants.{OutOfMemory};

use std::alloc::{AllocError, AllocFailed};
use thiserror::Error;

/// Why a part of a types file says nothing: the file itself, or one of its tables. A key is named by its
/// last part.
#[derive(Debug, Drop, Error)]
pub enum KeyError {
    /// A key is needed and is not there.
    #[error("Missing {0}")]
    Missing(&'static str),
    /// The value at a key is of another kind.
    #[error("WrongKind {0}")]
    WrongKind(&'static str),
    /// The value at a key is outside its range.
    #[error("OutOfRange {0}")]
    OutOfRange(&'static str),
    /// The text at `shape` is that of no shape, from the byte at this place on.
    #[error("BadShape shape at {0}")]
    BadText(usize),
    /// Payloads cannot have the shape at `shape`.
    #[error("BadShape shape")]
    BadShape,
    /// The text refers to this name, which stands for no shape.
    #[error("Unknown @{0}")]
    Unknown(String),
    /// The text refers to this name, whose text leads back to it.
    #[error("Cycle @{0}")]
    Cycle(String),
    /// More shapes would be written out for names than may be in a file.
    #[error("TooMany")]
    TooMany,
    /// A key that the format does not have.
    #[error("UnknownKey {0}")]
    UnknownKey(String),
    /// One of the tables before names the same messages.
    #[error("Clash message")]
    Clash,
    /// Memory ran out.
    #[error("out of memory")]
    OutOfMemory,
}

impl From<AllocError> for KeyError {
    ghost from_gives = { λ _ e. e ≡ OutOfMemory };

    fn from(_error: AllocError) -> KeyError {
        KeyError::OutOfMemory
    }
}

impl<T: Drop> From<AllocFailed<T>> for KeyError {
    ghost from_gives = { λ _ e. e ≡ OutOfMemory };

    fn from(_error: AllocFailed<T>) -> KeyError {
        KeyError::OutOfMemory
    }
}
