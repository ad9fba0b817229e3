//! Why a command did not do its work, or a text was not printed whole.
ghost use Rattle.std.specs.Prelude.{◌≡◌};
ghost use Rattle.someipctl_io.specs.Faults.{IsMapped, MayMap, fault_of_print, fault_of_read};
ghost use Rattle.someipctl_io.specs.declared.fault.Fault.TheVariants.{CannotWrite, OutOfMemory};
ghost use Rattle.someipctl_io.specs.declared.fault.PrintFault.TheVariants as prints;

use crate::input::ReadFault;
use crate::output;
use std::alloc::{AllocError, AllocFailed};
use std::fmt::Display;
use thiserror::Error;

/// Why a command did not do its work, where `R` is why its input is refused.
#[derive(Debug, Drop, PartialEq, Eq, Error)]
#[error_bound(R: Display)]
pub enum Fault<R> {
    /// Its input is refused.
    #[error("{0}")]
    Refused(R),
    /// A read failed.
    #[error("{}", ReadFault::CannotRead)]
    CannotRead,
    /// Writing failed, or took nothing. What was written until then stays.
    #[error("{}", output::CannotWrite)]
    CannotWrite,
    /// Memory ran out.
    #[error("{}", ReadFault::OutOfMemory)]
    OutOfMemory,
}

impl<R> Fault<R> {
    /// The same fault, where a refusal is told so.
    pub fn map<S, F: FnOnce(R) -> S>(self, told: F) -> Fault<S>
        requires { MayMap (F.pre told) self }
        ensures { IsMapped (F.post told) self result }
    {
        match self {
            Fault::Refused(refusal) => Fault::Refused(told(refusal)),
            Fault::CannotRead => Fault::CannotRead,
            Fault::CannotWrite => Fault::CannotWrite,
            Fault::OutOfMemory => Fault::OutOfMemory,
        }
    }
}

impl<R> From<ReadFault> for Fault<R> {
    ghost from_gives = { λ fault e. e ≡ fault_of_read fault };

    fn from(fault: ReadFault) -> Fault<R> {
        match fault {
            ReadFault::CannotRead => Fault::CannotRead,
            ReadFault::OutOfMemory => Fault::OutOfMemory,
        }
    }
}

impl<R> From<PrintFault> for Fault<R> {
    ghost from_gives = { λ fault e. e ≡ fault_of_print fault };

    fn from(fault: PrintFault) -> Fault<R> {
        match fault {
            PrintFault::CannotWrite => Fault::CannotWrite,
            PrintFault::OutOfMemory => Fault::OutOfMemory,
        }
    }
}

impl<R> From<output::CannotWrite> for Fault<R> {
    ghost from_gives = { λ _ e. e ≡ CannotWrite };

    fn from(_error: output::CannotWrite) -> Fault<R> {
        Fault::CannotWrite
    }
}

impl<R> From<AllocError> for Fault<R> {
    ghost from_gives = { λ _ e. e ≡ OutOfMemory };

    fn from(_error: AllocError) -> Fault<R> {
        Fault::OutOfMemory
    }
}

impl<R, T: Drop> From<AllocFailed<T>> for Fault<R> {
    ghost from_gives = { λ _ e. e ≡ OutOfMemory };

    fn from(_error: AllocFailed<T>) -> Fault<R> {
        Fault::OutOfMemory
    }
}

/// Why a text was not printed whole.
#[derive(Clone, Copy)]
pub enum PrintFault {
    /// Writing failed, or took nothing.
    CannotWrite,
    /// Memory ran out.
    OutOfMemory,
}

impl From<output::CannotWrite> for PrintFault {
    ghost from_gives = { λ _ e. e ≡ prints.CannotWrite };

    fn from(_error: output::CannotWrite) -> PrintFault {
        PrintFault::CannotWrite
    }
}

impl From<AllocError> for PrintFault {
    ghost from_gives = { λ _ e. e ≡ prints.OutOfMemory };

    fn from(_error: AllocError) -> PrintFault {
        PrintFault::OutOfMemory
    }
}
