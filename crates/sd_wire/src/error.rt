//! Why a Service Discovery message is not read or not written.
//!
//! A refused entry is printed by its number, `TooManyOptions in entry 18`: that is no place in bytes.
ghost use Rattle.std.specs.Prelude.{◌≡◌, ◌≢◌, Err, IfOk, OnErr, OnOk};
ghost use Rattle.sd_wire.specs.decoding.Faults.{fault_name, fault_place};
ghost use Rattle.sd_wire.specs.declared.error.SdError.TheVariants.{OutOfMemory};

use std::alloc::{AllocError, AllocFailed};
use thiserror::Error;

/// Why a Service Discovery message is not read or not written. The place of a fault of bytes is a
/// number of bytes from the first of the message; printed, it is the name and the place, as in
/// `Truncated at 47`. A refused entry is told by its number, as in `TooManyOptions in entry 18`.
#[derive(Clone, Copy, Debug, Error, PartialEq, Eq)]
pub enum SdError {
    /// The bytes end before the flags, the entries or the options do. The place is their end.
    #[error("Truncated at {0}")]
    Truncated(usize),
    /// The length of the entries is no multiple of 16. The place is 4, where it stands.
    #[error("EntriesLength at {0}")]
    EntriesLength(usize),
    /// An entry is neither Find, Offer, Subscribe nor Ack. Its first byte's place.
    #[error("UnknownEntryType at {0}")]
    UnknownEntryType(usize),
    /// An option has no room, no length, or another length than its type wants. Its first byte's
    /// place.
    #[error("OptionLength at {0}")]
    OptionLength(usize),
    /// A run of more than 15 options, or one that would stand at an index above 255. The place is
    /// the number of its entry, counted from 0.
    #[error("TooManyOptions in entry {0}")]
    TooManyOptions(usize),
    /// Bytes stand after the options. The place of the first.
    #[error("TrailingBytes at {0}")]
    TrailingBytes(usize),
    /// Memory ran out.
    #[error("out of memory")]
    OutOfMemory,
}

impl SdError {
    /// The name of the variant, as it is printed.
    pub fn name(&self) -> &'static str
        ensures { result.now ≡ fault_name self.now }
    {
        match self {
            SdError::Truncated(_) => "Truncated",
            SdError::EntriesLength(_) => "EntriesLength",
            SdError::UnknownEntryType(_) => "UnknownEntryType",
            SdError::OptionLength(_) => "OptionLength",
            SdError::TooManyOptions(_) => "TooManyOptions",
            SdError::TrailingBytes(_) => "TrailingBytes",
            SdError::OutOfMemory => "OutOfMemory",
        }
    }

    /// The place in bytes, of `TooManyOptions` the number of the entry. `OutOfMemory` has none, for
    /// which 0 stands.
    pub fn place(&self) -> usize
        ensures { result ≡ fault_place self.now }
    {
        match self {
            SdError::Truncated(place)
            | SdError::EntriesLength(place)
            | SdError::UnknownEntryType(place)
            | SdError::OptionLength(place)
            | SdError::TooManyOptions(place)
            | SdError::TrailingBytes(place) => *place,
            SdError::OutOfMemory => 0,
        }
    }

    /// What was done, or its fault, and out of memory apart from both.
    pub fn apart<T>(done: Result<T, SdError>) -> Result<Result<T, SdError>, AllocError>
        ensures done { IfOk result (λ apart. apart ≡ done) }
        ensures fault { OnOk result (done ≢ Err OutOfMemory) }
        ensures memory { OnErr result (done ≡ Err OutOfMemory) }
    {
        match done {
            Err(SdError::OutOfMemory) => Err(AllocError),
            done => Ok(done),
        }
    }
}

impl From<AllocError> for SdError {
    ghost from_gives = { λ _ e. e ≡ OutOfMemory };

    fn from(_e: AllocError) -> SdError {
        SdError::OutOfMemory
    }
}

impl<T: Drop> From<AllocFailed<T>> for SdError {
    ghost from_gives = { λ _ e. e ≡ OutOfMemory };

    fn from(_e: AllocFailed<T>) -> SdError {
        SdError::OutOfMemory
    }
}
