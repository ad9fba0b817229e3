//! Why a rule says nothing.
ghost use Rattle.std.specs.Prelude.{◌≡◌};
ghost use Rattle.someipctl_rules.specs.declared.key_error.KeyError.TheVariants.{OutOfMemory};

use std::alloc::{AllocError, AllocFailed};
use thiserror::Error;

/// Why a part of a file of rules says nothing: the file itself, or one of its rules. A key is named by its last
/// part.
#[derive(Debug, Drop, Error)]
pub enum KeyError {
    /// The value at a key is of another kind.
    #[error("WrongKind {0}")]
    WrongKind(&'static str),
    /// The value at a key is outside its range.
    #[error("OutOfRange {0}")]
    OutOfRange(&'static str),
    /// The key that another one needs is not there.
    #[error("Missing {0}")]
    Missing(&'static str),
    /// A kind of findings is named, in `allow` or `at_most`, that there is not.
    #[error("UnknownKind {0}")]
    UnknownKind(String),
    /// A key that the format does not have.
    #[error("UnknownKey {0}")]
    UnknownKey(String),
    /// There are more than 256 rules.
    #[error("TooMany rule")]
    TooMany,
    /// Memory ran out.
    #[error("out of memory")]
    OutOfMemory,
}

impl From<AllocError> for KeyError {
    ghost from_gives = { λ _ e. e ≡ OutOfMemory };

    fn from(_error: AllocError) -> KeyError {
        KeyError::OutOfMemory
    }
}

impl<T: Drop> From<AllocFailed<T>> for KeyError {
    ghost from_gives = { λ _ e. e ≡ OutOfMemory };

    fn from(_error: AllocFailed<T>) -> KeyError {
        KeyError::OutOfMemory
    }
}
