//! What is kept of a datagram.
ghost use Rattle.std.specs.Prelude.{◌≡◌};
ghost use Rattle.someip_world_verdict.specs.Booking.{mute_note};
ghost use Rattle.someip_world_verdict.specs.Views.{view_note};

use crate::said::Said;
use crate::stream::Stream;
use std::alloc::Global;

/// What is kept of a datagram.
#[derive(Drop)]
pub(crate) struct Note {
    /// The step that sent it.
    pub(crate) step: usize,
    /// The step that sent what it answers.
    pub(crate) answers: Option<usize>,
    /// What it says.
    pub(crate) said: Vec<Said>,
    /// The reassembly key, if it is a segment.
    pub(crate) stream: Option<Stream>,
    /// The number of its message's payload, if that is a long one.
    pub(crate) payload: Option<usize>,
}

impl Note {
    /// Of one that a liar sends, whose bytes are never read: it says nothing.
    pub(crate) fn mute(alloc: Global, step: usize) -> Note
        ensures { view_note result ≡ mute_note step }
    {
        Note {
            step,
            answers: None,
            said: Vec::new(alloc),
            stream: None,
            payload: None,
        }
    }
}
