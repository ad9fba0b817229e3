//! Which events a sender counts together.
ghost use Rattle.std.specs.Prelude.{◌≡◌};
ghost use Rattle.audit_traffic.specs.sequence.CountedFlows.{counted, counted_service};

use crate::events::EventFlow;

/// Which events a sender counts together. The standard leaves it open (SOME/IP Protocol, "Session ID").
#[derive(Clone, Copy, Debug, PartialEq, Eq)]
pub enum Counting {
    /// It counts the sessions of each event.
    ByEvent,
    /// It counts the sessions of all its events together.
    BySender,
}

impl Counting {
    /// The flow that counts the sessions of a flow: itself, or that of all events of its sender to its
    /// receiver, whose IDs are 0.
    pub fn flow(self, flow: &EventFlow) -> EventFlow
        ensures { result ≡ counted self flow.now }
    {
        match self {
            Counting::ByEvent => *flow,
            Counting::BySender => EventFlow {
                sender: flow.sender,
                service: 0,
                event: 0,
                receiver: flow.receiver,
            },
        }
    }

    /// The service of the flow that counts the sessions of a service's events.
    pub fn service(self, service: u16) -> u16
        ensures { result ≡ counted_service self service }
    {
        match self {
            Counting::ByEvent => service,
            Counting::BySender => 0,
        }
    }
}
