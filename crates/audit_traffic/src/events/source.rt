//! Where an event comes from.
ghost use Rattle.std.specs.Prelude.{◌≡◌};
ghost use Rattle.audit_traffic.specs.events.FlowGroups.{source_of};

use crate::events::flow::EventFlow;
use someip_tables::hashed::{is_same_endpoint, number_of_endpoint};
use std::hash::{Hash, Hasher};
use std::net::SocketAddrV4;

/// An event of a service, as one sender sends it.
#[derive(Clone, Copy)]
pub(crate) struct EventSource {
    /// The endpoint that it comes from.
    pub(crate) sender: SocketAddrV4,
    /// Service ID.
    pub(crate) service: u16,
    /// Event ID.
    pub(crate) event: u16,
}

impl EventSource {
    /// The source of a flow.
    pub(crate) fn of(flow: &EventFlow) -> EventSource
        ensures { result ≡ source_of flow.now }
    {
        EventSource {
            sender: flow.sender,
            service: flow.service,
            event: flow.event,
        }
    }
}

impl PartialEq for EventSource {
    ghost use Rattle.audit_traffic.specs.events.FlowGroups.{is_same_source};
    ghost use Rattle.audit_traffic.specs.events.SourceEquality.{sources_equal};
    ghost use Rattle.std.specs.Cmp.{partial_equiv_from_equiv};

    ghost eq = { is_same_source };

    ghost laws = { partial_equiv_from_equiv sources_equal };

    fn eq(&self, other: &EventSource) -> bool {
        is_same_endpoint(&self.sender, &other.sender)
            && (self.service == other.service && self.event == other.event)
    }
}

impl Eq for EventSource {
    ghost use Rattle.audit_traffic.specs.events.SourceEquality.{sources_equal};

    ghost laws = { sources_equal };
}

impl Hash for EventSource {
    ghost use Rattle.std.specs.Prelude.{◌++◌, ◌+◌, ◌*◌};
    ghost use Rattle.std.specs.Hash as fed;
    ghost use Rattle.someip_tables.specs.hashed.EndpointNumbers.{endpoint_number};
    ghost use Rattle.audit_traffic.specs.events.SourceEquality.{hashed_alike};

    ghost hash_input = { λ s. fed.u64 (endpoint_number s.sender) ++ fed.u64 (s.service * 65536 + s.event) };

    ghost respects_eq = { hashed_alike (λ s. fed.u64 (endpoint_number s.sender) ++ fed.u64 (s.service * 65536 + s.event)) };

    fn hash<H: Hasher>(&self, state: &mut H) {
        state.write_u64(number_of_endpoint(&self.sender));
        state.write_u64(u64::from(self.service) * 65536 + u64::from(self.event));
    }
}
