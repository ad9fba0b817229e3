//! Why a run has no trace.
ghost use Rattle.std.specs.Prelude.{◌≡◌};
ghost use Rattle.someip_world_rules.specs.declared.error.RunError.TheVariants.{OutOfMemory};

use crate::step_fault::StepFault;
use std::alloc::{AllocError, AllocFailed};
use thiserror::Error;

/// Why a run has no trace.
#[derive(Clone, Copy, Debug, PartialEq, Eq, Error)]
pub enum RunError {
    /// The step of this index, counted from 1, can't happen. It is the first such step.
    #[error("step {0}: {1}")]
    BadStep(usize, StepFault),
    /// Memory ran out.
    #[error("out of memory")]
    OutOfMemory,
}

impl From<AllocError> for RunError {
    ghost from_gives = { λ _ e. e ≡ OutOfMemory };

    fn from(_error: AllocError) -> RunError {
        RunError::OutOfMemory
    }
}

impl<T: Drop> From<AllocFailed<T>> for RunError {
    ghost from_gives = { λ _ e. e ≡ OutOfMemory };

    fn from(_error: AllocFailed<T>) -> RunError {
        RunError::OutOfMemory
    }
}
