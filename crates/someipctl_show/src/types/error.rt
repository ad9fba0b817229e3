//! Why a text is no types file.
ghost use Rattle.std.specs.Prelude.{◌≡◌};
ghost use Rattle.someipctl_show.specs.declared.types.error.TypesError.TheVariants.{OutOfMemory};

use crate::types::key_error::KeyError;
use std::alloc::{AllocError, AllocFailed};
use thiserror::Error;

/// Why a text is no types file, and where.
#[derive(Debug, Drop, Error)]
pub enum TypesError {
    /// The text is no TOML.
    #[error("NotToml -")]
    NotToml,
    /// The file itself says nothing.
    #[error("{0}")]
    File(KeyError),
    /// The table of names, `types`, says nothing.
    #[error("types: {0}")]
    Types(KeyError),
    /// The text of this name in `types` says nothing.
    #[error("types {0}: {1}")]
    Named(String, KeyError),
    /// The table with this number in `message`, counted from 1, says nothing.
    #[error("message {0}: {1}")]
    Message(usize, KeyError),
    /// Memory ran out.
    #[error("out of memory")]
    OutOfMemory,
}

impl From<AllocError> for TypesError {
    ghost from_gives = { λ _ e. e ≡ OutOfMemory };

    fn from(_error: AllocError) -> TypesError {
        TypesError::OutOfMemory
    }
}

impl<T: Drop> From<AllocFailed<T>> for TypesError {
    ghost from_gives = { λ _ e. e ≡ OutOfMemory };

    fn from(_error: AllocFailed<T>) -> TypesError {
        TypesError::OutOfMemory
    }
}

/// Prints that a types file is refused, and why.
#[derive(Debug, Drop, Error)]
#[error("types: {0}")]
pub struct TypesRefusal(pub TypesError);
