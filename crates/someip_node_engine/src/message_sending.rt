//! Messages that are sent.
ghost use Rattle.std.specs.Prelude.{◌≡◌, ◌≤◌, ◌<◌, ◌+◌, ◌++◌, ◌∷◌, [], length, OnOk};
ghost use Rattle.someip_wire.specs.View.{view};
ghost use Rattle.someip_reassembly.specs.Sent.{view_piece};
ghost use Rattle.someip_node_rules.specs.forms.Outputs.{datagram_of, datagrams_of};
ghost use Rattle.someip_node_rules.specs.forms.GoodConfigs.{greatest_message_limit};

use someip_node_rules::{Output, Payload};
use someip_tp::{Sent, SentPiece, append_piece};
use someip_wire::Message;
use std::alloc::{AllocError, Global};
use std::net::SocketAddrV4;

/// Sends a message: in one datagram, or one for each of its segments.
pub(crate) fn send(
    alloc: Global,
    from: SocketAddrV4,
    to: SocketAddrV4,
    message: &Message<'_>,
    outputs: &mut Vec<Output>,
) -> Result<(), AllocError>
    requires { length message.now.payload.now ≤ greatest_message_limit }
    ensures { OnOk result (outputs.new.items
        ≡ outputs.old.items ++ datagrams_of from to (view message.now)) }
{
    for piece in Sent::new(message) {
        send_piece(alloc, from, to, &piece, outputs)?;
    }
    Ok(())
}

/// Sends a piece of a message.
fn send_piece(
    alloc: Global,
    from: SocketAddrV4,
    to: SocketAddrV4,
    piece: &SentPiece<'_>,
    outputs: &mut Vec<Output>,
) -> Result<(), AllocError>
    ensures { OnOk result (outputs.new.items
        ≡ outputs.old.items ++ datagram_of from to (view_piece piece.now) ∷ []) }
{
    let mut bytes = Vec::new(alloc);
    append_piece(piece, &mut bytes)?;
    outputs.push(Output::Sent {
        from,
        to,
        bytes: Payload::from_vec(bytes),
    })?;
    Ok(())
}
