//! How far a reader is in a recording.

use crate::format::Format;

/// How far a reader is in a recording.
#[derive(Clone, Copy)]
pub(crate) enum Stage {
    /// Before its first byte.
    Head,
    /// Where a packet or a block begins, or the recording ends.
    Inside(Format),
    /// Behind a fault: nothing more is given.
    Over,
}
