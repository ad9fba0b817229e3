//! Why a text says no rules.
ghost use Rattle.std.specs.Prelude.{◌≡◌};
ghost use Rattle.someipctl_rules.specs.declared.error.RulesError.TheVariants.{OutOfMemory};

use crate::key_error::KeyError;
use std::alloc::{AllocError, AllocFailed};
use thiserror::Error;

/// Why a text says no rules, and where.
#[derive(Debug, Drop, Error)]
pub enum RulesError {
    /// The text is no TOML.
    #[error("NotToml -")]
    NotToml,
    /// The file itself says nothing.
    #[error("{0}")]
    File(KeyError),
    /// The rule with this number, counted from 1, says nothing.
    #[error("rule {0}: {1}")]
    Rule(usize, KeyError),
    /// Memory ran out.
    #[error("out of memory")]
    OutOfMemory,
}

impl From<AllocError> for RulesError {
    ghost from_gives = { λ _ e. e ≡ OutOfMemory };

    fn from(_error: AllocError) -> RulesError {
        RulesError::OutOfMemory
    }
}

impl<T: Drop> From<AllocFailed<T>> for RulesError {
    ghost from_gives = { λ _ e. e ≡ OutOfMemory };

    fn from(_error: AllocFailed<T>) -> RulesError {
        RulesError::OutOfMemory
    }
}

/// Prints that a file of rules is refused, and why.
#[derive(Debug, Drop, Error)]
#[error("rules: {0}")]
pub struct RulesRefusal(pub RulesError);
