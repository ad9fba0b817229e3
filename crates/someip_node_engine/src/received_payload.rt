//! Payloads that come.
ghost use Rattle.std.specs.Prelude.{◌≡◌, IfOk};
ghost use Rattle.someip_node_engine.specs.Arrivals.{payload_bytes};

use someip_node_rules::Payload;
use std::alloc::{AllocError, Global};

/// The payload of a message that came.
#[derive(Drop)]
pub(crate) enum ReceivedPayload<'a> {
    /// It is in the datagram.
    Lent(&'a [u8]),
    /// It was put together from segments.
    Reassembled(Payload),
}

impl ReceivedPayload<'_> {
    /// The payload as a node gives it: one that was put together is not copied again.
    pub(crate) fn into_payload(self, alloc: Global) -> Result<Payload, AllocError>
        ensures { IfOk result (λ payload. payload ≡ payload_bytes self.entry) }
    {
        match self {
            ReceivedPayload::Lent(bytes) => Payload::copy(alloc, bytes),
            ReceivedPayload::Reassembled(payload) => Ok(payload),
        }
    }
}
