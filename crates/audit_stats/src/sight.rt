//! What a message is to the figures.
ghost use Rattle.std.specs.Prelude.{◌≡◌, Some};
ghost use Rattle.someip_wire.specs.Kinds.{without_tp_flag};
ghost use Rattle.someip_wire.specs.View.{view};
ghost use Rattle.audit_stats.specs.Sights.{call_of, load_of, flow_of, sight_of, sight_of_load, sight_of_whole};

use crate::keys::{Call, Flow};
use someip_reassembly::read_segment;
use someip_wire::{Header, Message, MessageType, ReturnCode};
use std::net::SocketAddrV4;

/// What a message or a segment brings.
#[derive(Clone, Copy)]
pub(crate) struct Load {
    /// How many bytes of payload, without the TP header of a segment.
    pub(crate) bytes: u64,
    /// Whether a message ends with it.
    pub(crate) ends: bool,
}

/// What a message is to the figures.
#[derive(Clone, Copy)]
pub(crate) enum Sight {
    /// Nothing that counts.
    Nothing,
    /// A call, and whether it wants an answer.
    Called(Call, bool),
    /// An answer to a call, and whether it is an error.
    Answered(Call, bool),
    /// An event or a segment of one.
    Event(Flow, Load),
}

/// What a message from one endpoint to another is.
pub(crate) fn sight_of(from: SocketAddrV4, to: SocketAddrV4, message: &Message<'_>) -> Sight
    ensures { result ≡ sight_of from to (view message.now) }
{
    match load_of(message) {
        Some(load) => sight_of_load(from, to, &message.header, load),
        None => Sight::Nothing,
    }
}

/// What a message brings, if it is no segment without room for a TP header.
fn load_of(message: &Message<'_>) -> Option<Load>
    ensures { result ≡ load_of (view message.now) }
{
    if !message.header.kind.has_tp_flag() {
        return Some(Load {
            bytes: message.payload.len() as u64,
            ends: true,
        });
    }
    match read_segment(message.payload) {
        Ok((_, more, slice)) => Some(Load {
            bytes: slice.len() as u64,
            ends: !more,
        }),
        Err(_) => None,
    }
}

/// What a message is that brings so much.
fn sight_of_load(from: SocketAddrV4, to: SocketAddrV4, header: &Header, load: Load) -> Sight
    ensures { result ≡ sight_of_load from to header.now (without_tp_flag header.now.kind) (Some load) }
{
    let kind = header.kind.without_tp_flag();
    if matches!(kind, MessageType::Notification) {
        return Sight::Event(flow_of(from, to, header), load);
    }
    if !load.ends {
        return Sight::Nothing;
    }
    sight_of_whole(from, to, header, kind)
}

/// What a whole message of this type is.
fn sight_of_whole(from: SocketAddrV4, to: SocketAddrV4, header: &Header, kind: MessageType) -> Sight
    ensures { result ≡ sight_of_whole from to header.now kind }
{
    match kind {
        MessageType::Request => Sight::Called(call_of(from, to, header), true),
        MessageType::RequestNoReturn => Sight::Called(call_of(from, to, header), false),
        MessageType::Response => {
            Sight::Answered(call_of(to, from, header), header.code != ReturnCode::E_OK)
        }
        MessageType::Error => Sight::Answered(call_of(to, from, header), true),
        _ => Sight::Nothing,
    }
}

/// The flow of a header, from one endpoint to another.
fn flow_of(from: SocketAddrV4, to: SocketAddrV4, header: &Header) -> Flow
    ensures { result ≡ flow_of from to header.now }
{
    Flow {
        service: header.service,
        method: header.method,
        from,
        to,
    }
}

/// The call of a header, from the endpoint that calls to the one that is called.
fn call_of(from: SocketAddrV4, to: SocketAddrV4, header: &Header) -> Call
    ensures { result ≡ call_of from to header.now }
{
    Call {
        flow: flow_of(from, to, header),
        client: header.client,
        session: header.session,
    }
}
