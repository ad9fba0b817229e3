//! Why a schedule is not run, or a setup not read.
ghost use Rattle.std.specs.Prelude.{◌≡◌};
ghost use Rattle.someipctl_run.specs.Faults.{fault_of_run, fault_of_schedule};

use someip_world::{RunError, ScheduleError, SetupError, StepFault};
use someipctl_io::Fault;
use thiserror::Error;

/// Why a text is no setup.
#[derive(Debug, Drop, Error)]
#[error("setup: {0}")]
pub struct SetupRefusal(pub SetupError);

/// The line of this number, counted from 1, of an expected trace is not UTF-8, or has a carriage return.
#[derive(Clone, Copy, Debug, PartialEq, Eq, Error)]
#[error("line {0}: bad trace line, not UTF-8 or with a carriage return")]
pub struct BadTraceLine(pub usize);

/// Why a schedule has no trace.
#[derive(Clone, Copy, Debug, PartialEq, Eq, Error)]
pub enum ScheduleRefusal {
    /// The line of this number, counted from 1, spells no step.
    #[error("{}", ScheduleError::BadLine(*.0))]
    BadLine(usize),
    /// The step of this index, counted from 1, can't happen.
    #[error("{}", RunError::BadStep(*.0, *.1))]
    BadStep(usize, StepFault),
}

/// Why a schedule spells no steps.
pub(crate) fn fault_of_schedule(error: ScheduleError) -> Fault<ScheduleRefusal>
    ensures { result ≡ fault_of_schedule error }
{
    match error {
        ScheduleError::BadLine(line) => Fault::Refused(ScheduleRefusal::BadLine(line)),
        ScheduleError::OutOfMemory => Fault::OutOfMemory,
    }
}

/// Why steps have no trace.
pub(crate) fn fault_of_run(error: RunError) -> Fault<ScheduleRefusal>
    ensures { result ≡ fault_of_run error }
{
    match error {
        RunError::BadStep(index, fault) => Fault::Refused(ScheduleRefusal::BadStep(index, fault)),
        RunError::OutOfMemory => Fault::OutOfMemory,
    }
}
