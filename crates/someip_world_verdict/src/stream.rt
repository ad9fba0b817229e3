//! The segments of one message, among those that come to a node.
ghost use Rattle.std.specs.Prelude.{◌≡◌};
ghost use Rattle.someip_world_verdict.specs.Streams.{stream_of};
ghost use Rattle.someip_world_verdict.specs.StreamOrder.{exact_streams};

use someip_rpc::MessageId;
use someip_tables::Key;
use someip_tp::ReassemblyKey;
use std::net::SocketAddrV4;

/// A reassembly key, with its numbers in an order: by source and destination, and then by the fields of
/// the header.
#[derive(Clone, Copy, PartialEq, Eq, PartialOrd, Ord)]
pub(crate) struct Stream {
    /// The endpoint that sent the segments.
    pub(crate) source: SocketAddrV4,
    /// The endpoint that they were sent to.
    pub(crate) destination: SocketAddrV4,
    /// Message ID.
    pub(crate) message: MessageId,
    /// Client ID.
    pub(crate) client: u16,
    /// Session ID.
    pub(crate) session: u16,
    /// Interface Version.
    pub(crate) interface: u8,
    /// The number of the Message Type.
    pub(crate) kind: u8,
    /// Return Code.
    pub(crate) code: u8,
}

impl Key for Stream {
    ghost exact = { exact_streams };
}

impl Stream {
    /// That of a reassembly key.
    pub(crate) fn of(key: &ReassemblyKey) -> Stream
        ensures { result ≡ stream_of key.now }
    {
        Stream {
            source: key.source,
            destination: key.destination,
            message: MessageId {
                service: key.service,
                method: key.method,
            },
            client: key.client,
            session: key.session,
            interface: key.interface,
            kind: key.kind.number(),
            code: key.code.0,
        }
    }
}
