//! Why a schedule is refused.
ghost use Rattle.std.specs.Prelude.{◌≡◌};
ghost use Rattle.someip_world_schedule.specs.declared.error.ScheduleError.TheVariants.{OutOfMemory};

use std::alloc::{AllocError, AllocFailed};
use thiserror::Error;

/// Why a schedule was refused.
#[derive(Clone, Copy, Debug, PartialEq, Eq, Error)]
pub enum ScheduleError {
    /// The line of this number, counted from 1, is not skipped and spells no step.
    #[error("line {0}: bad step")]
    BadLine(usize),
    /// The allocator gave no memory.
    #[error("out of memory")]
    OutOfMemory,
}

impl From<AllocError> for ScheduleError {
    ghost from_gives = { λ _ e. e ≡ OutOfMemory };

    fn from(_error: AllocError) -> ScheduleError {
        ScheduleError::OutOfMemory
    }
}

impl<T: Drop> From<AllocFailed<T>> for ScheduleError {
    ghost from_gives = { λ _ e. e ≡ OutOfMemory };

    fn from(_error: AllocFailed<T>) -> ScheduleError {
        ScheduleError::OutOfMemory
    }
}
