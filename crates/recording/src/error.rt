//! Why bytes are no recording, or why a recording ends.
ghost use Rattle.std.specs.Prelude.{◌≡◌};
ghost use Rattle.recording.specs.declared.error.RecordingError.TheVariants.{OutOfMemory};

use std::alloc::{AllocError, AllocFailed};
use thiserror::Error;

/// The fault that ends a recording, with its place: a number of bytes from the file's first one.
/// Printed, it is the name and the place, as in `Truncated at 24`.
///
/// The packets or blocks of a file are judged one after the other. The faults of one block are judged
/// in this order: fewer than 12 bytes; the byte order of a section; the total length, and whether a
/// reader holds so much; whether the file holds so many bytes; the total length at the end; whether the
/// body has the fields of its kind, and then the captured bytes; the interface.
#[derive(Clone, Copy, Debug, PartialEq, Eq, Error)]
pub enum RecordingError {
    /// The file is neither classic pcap nor pcapng, or has not even the header of its format: 24
    /// bytes of classic pcap, the first 12 of pcapng. The place is 0.
    #[error("NotRecording at {0}")]
    NotRecording(usize),
    /// The file ends before the packet or the block does. The place of its first byte.
    #[error("Truncated at {0}")]
    Truncated(usize),
    /// A section header block whose byte-order magic is none. The block's first byte.
    #[error("BadOrder at {0}")]
    BadOrder(usize),
    /// A block's total length is below 12 or no multiple of 4, or is another at its end, or the body
    /// is too short for its kind or for the bytes that it says were captured. The block's first byte.
    #[error("BlockLength at {0}")]
    BlockLength(usize),
    /// A packet of an interface that the section has not described. The block's first byte.
    #[error("UnknownInterface at {0}")]
    UnknownInterface(usize),
    /// A packet or block that with its header is longer than 16 MiB (16,777,216 bytes), where the
    /// recording is read as it comes: a reader holds no more. Its first byte.
    #[error("BlockTooLong at {0}")]
    BlockTooLong(usize),
    /// A block that describes one interface more than 65,536 of its section, where the recording is
    /// read as it comes. Its first byte.
    #[error("TooManyInterfaces at {0}")]
    TooManyInterfaces(usize),
    /// Memory ran out.
    #[error("out of memory")]
    OutOfMemory,
}

impl From<AllocError> for RecordingError {
    ghost from_gives = { λ _ e. e ≡ OutOfMemory };

    fn from(_e: AllocError) -> RecordingError {
        RecordingError::OutOfMemory
    }
}

impl<T: Drop> From<AllocFailed<T>> for RecordingError {
    ghost from_gives = { λ _ e. e ≡ OutOfMemory };

    fn from(_e: AllocFailed<T>) -> RecordingError {
        RecordingError::OutOfMemory
    }
}
