//! Why a text is no setup.
ghost use Rattle.std.specs.Prelude.{◌≡◌};
ghost use Rattle.someip_world_setup_keys.specs.declared.error.SetupError.TheVariants.{OutOfMemory};

use std::alloc::{AllocError, AllocFailed};
use thiserror::Error;

/// Why a text is no setup. A key is named by its last part.
#[derive(Debug, Drop, Error)]
pub enum SetupError {
    /// The text is no TOML.
    #[error("NotToml -")]
    NotToml,
    /// A key is needed and is not there.
    #[error("Missing {0}")]
    Missing(&'static str),
    /// The value at a key is of another kind.
    #[error("WrongKind {0}")]
    WrongKind(&'static str),
    /// The value at a key, or its default, is outside its range.
    #[error("OutOfRange {0}")]
    OutOfRange(&'static str),
    /// A key that the format does not have.
    #[error("UnknownKey {0}")]
    UnknownKey(String),
    /// The values at a key may not be the same.
    #[error("Clash {0}")]
    Clash(&'static str),
    /// Memory ran out.
    #[error("out of memory")]
    OutOfMemory,
}

impl From<AllocError> for SetupError {
    ghost from_gives = { λ _ e. e ≡ OutOfMemory };

    fn from(_e: AllocError) -> SetupError {
        SetupError::OutOfMemory
    }
}

impl<T: Drop> From<AllocFailed<T>> for SetupError {
    ghost from_gives = { λ _ e. e ≡ OutOfMemory };

    fn from(_e: AllocFailed<T>) -> SetupError {
        SetupError::OutOfMemory
    }
}
