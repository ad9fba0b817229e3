//! What of recordings is asked for, and what is told of it.

use crate::wanted::Wanted;
use someipctl_io::Form;
use someipctl_show::types::MessageTypes;

/// What of recordings is asked for, and what is told of it.
#[derive(Clone, Copy)]
pub struct Asked<'a> {
    /// Which datagrams are asked for.
    pub wanted: Wanted<'a>,
    /// What payloads are read by, to tell their values.
    pub types: &'a MessageTypes,
    /// The form of the lines.
    pub form: Form,
    /// What stands before each line, or in each object.
    pub heads: Heads,
    /// What bounds the messages that are put together from their segments. None puts none together.
    pub whole: Option<WholeLimits>,
}

/// What stands before each line of a datagram.
#[derive(Clone, Copy, PartialEq, Eq)]
pub struct Heads {
    /// Whether the number of its packet does, as in `#12`.
    pub frame: bool,
    /// Whether its time and its endpoints do.
    pub endpoints: bool,
}

/// What bounds the messages that are put together from their segments.
#[derive(Clone, Copy, PartialEq, Eq)]
pub struct WholeLimits {
    /// How many messages may have come in part at once.
    pub slots: usize,
    /// How many bytes of payload a message may have.
    pub limit: usize,
    /// How many milliseconds a part stands after its last segment.
    pub timeout_ms: u64,
}
