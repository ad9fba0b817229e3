//! An event that is to be sent.
ghost use Rattle.std.specs.Prelude.{◌≡◌};

use crate::call::Outgoing;
use someip_wire::Message;
use std::net::SocketAddrV4;

/// A subscriber, to which alone an event is published.
#[derive(Clone, Copy, Debug, PartialEq, Eq)]
pub struct Subscriber {
    /// Eventgroup ID.
    pub eventgroup: u16,
    /// The endpoint that is subscribed.
    pub endpoint: SocketAddrV4,
    /// Whether a subscription of the eventgroup by this endpoint is live.
    pub is_live: bool,
}

/// An event that is published: one message, which goes to each live endpoint of the event's
/// eventgroups once. Its payload is where it was lent from.
#[derive(Clone, Copy, Debug, PartialEq, Eq)]
pub struct Publication<'a> {
    /// The endpoint of the instance, which sends.
    pub from: SocketAddrV4,
    /// The message.
    pub message: Message<'a>,
}

impl<'a> Publication<'a> {
    /// What is to be sent to one endpoint.
    pub fn to(&self, endpoint: SocketAddrV4) -> Outgoing<'a>
        ensures from { result.from ≡ self.now.from }
        ensures to { result.to ≡ endpoint }
        ensures header { result.message.header ≡ self.now.message.header }
        ensures payload { result.message.payload.now ≡ self.now.message.payload.now }
    {
        Outgoing {
            from: self.from,
            to: endpoint,
            message: self.message,
        }
    }
}
