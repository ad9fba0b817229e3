//! Who got the events of a source.
use crate::events::last_event::LastEvent;
use std::net::SocketAddrV4;

/// Who got the events of a source, with the last one.
#[derive(Clone, Copy)]
pub(crate) struct Receiver {
    /// The endpoint that they go to.
    pub(crate) endpoint: SocketAddrV4,
    /// The last one.
    pub(crate) last: LastEvent,
}
