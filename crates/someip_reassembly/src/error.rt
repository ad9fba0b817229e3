//! Why a segment is refused.
ghost use Rattle.std.specs.Prelude.{◌≡◌};
ghost use Rattle.someip_reassembly.specs.declared.error.TpError.TheVariants.{OutOfMemory};
ghost use Rattle.someip_reassembly.specs.Names.{error_name};

use std::alloc::AllocError;
use thiserror::Error;

/// Why a segment is refused, or a message is not put together. Printed, it is its name, but for
/// `OutOfMemory`, which is `out of memory`.
#[derive(Clone, Copy, Debug, PartialEq, Eq, Error)]
pub enum TpError {
    /// A slice that is not the last has a length that is no multiple of 16.
    #[error("Unaligned")]
    Unaligned,
    /// The slice goes past the message limit.
    #[error("TooLong")]
    TooLong,
    /// The slice contradicts what is held: another byte at a place, a byte at or past the total,
    /// another total, or one at or below a held place.
    #[error("Conflict")]
    Conflict,
    /// The segment begins a new message, and all slots are taken.
    #[error("NoSlot")]
    NoSlot,
    /// Memory ran out.
    #[error("out of memory")]
    OutOfMemory,
    /// The payload has no room for the TP header of a segment.
    #[error("NoHeader")]
    NoHeader,
}

impl TpError {
    /// The name: `Unaligned`.
    pub fn name(&self) -> &'static str
        ensures { result.now ≡ error_name self.now }
    {
        match self {
            TpError::Unaligned => "Unaligned",
            TpError::TooLong => "TooLong",
            TpError::Conflict => "Conflict",
            TpError::NoSlot => "NoSlot",
            TpError::OutOfMemory => "OutOfMemory",
            TpError::NoHeader => "NoHeader",
        }
    }
}

impl From<AllocError> for TpError {
    ghost from_gives = { λ _ e. e ≡ OutOfMemory };

    fn from(_error: AllocError) -> TpError {
        TpError::OutOfMemory
    }
}
