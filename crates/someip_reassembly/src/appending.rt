//! The bytes of messages, segments and pieces, appended to a vector.
ghost use Rattle.std.specs.Prelude.{◌≡◌, ◌<◌, ◌+◌, ◌^◌, ◌++◌, length, vec_len, vec_capacity, OnOk, OnErr};
ghost use Rattle.someip_wire.specs.Spelling.{spelling};
ghost use Rattle.someip_wire.specs.View.{view};
ghost use Rattle.someip_reassembly.specs.Segments.{view_segment, segment_message};
ghost use Rattle.someip_reassembly.specs.Sent.{view_piece, piece_message};

use crate::segment::Segment;
use crate::sent::SentPiece;
use someip_wire::{Header, Message, header_bytes};
use std::alloc::AllocError;

/// Appends the bytes of a message.
///
/// The only error is that memory ran out where the vector had to grow, which leaves it as it was.
pub fn append_message(message: &Message<'_>, out: &mut Vec<u8>) -> Result<(), AllocError>
    requires { 8 + length message.now.payload.now < 2 ^ 32 }
    ensures ok { OnOk result (out.new.items ≡ out.old.items ++ spelling (view message.now)) }
    ensures err { OnErr result (out.new.items ≡ out.old.items) }
    ensures full { OnErr result (vec_capacity out.old
        < vec_len out.old + length (spelling (view message.now))) }
{
    append_parts(&message.header, &[], message.payload, out)
}

/// Appends the bytes of a segment: its header with its Length, its TP header, and its slice.
///
/// The only error is that memory ran out where the vector had to grow, which leaves it as it was.
pub fn append_segment(segment: &Segment<'_>, out: &mut Vec<u8>) -> Result<(), AllocError>
    ensures ok { OnOk result (out.new.items
        ≡ out.old.items ++ spelling (segment_message (view_segment segment.now))) }
    ensures err { OnErr result (out.new.items ≡ out.old.items) }
    ensures full { OnErr result (vec_capacity out.old
        < vec_len out.old + length (spelling (segment_message (view_segment segment.now)))) }
{
    append_parts(
        &segment.header,
        &segment.tp_header().to_be_bytes(),
        segment.slice,
        out,
    )
}

/// Appends the bytes of a piece of a message, as they are sent.
///
/// The only error is that memory ran out where the vector had to grow, which leaves it as it was.
pub fn append_piece(piece: &SentPiece<'_>, out: &mut Vec<u8>) -> Result<(), AllocError>
    ensures ok { OnOk result (out.new.items
        ≡ out.old.items ++ spelling (piece_message (view_piece piece.now))) }
    ensures err { OnErr result (out.new.items ≡ out.old.items) }
    ensures full { OnErr result (vec_capacity out.old
        < vec_len out.old + length (spelling (piece_message (view_piece piece.now)))) }
{
    match piece {
        SentPiece::Alone(short) => append_message(&short.message, out),
        SentPiece::Segment(segment) => append_segment(segment, out),
    }
}

/// Appends a header and a payload of two parts. All memory is taken first.
fn append_parts(
    header: &Header,
    tp_header: &[u8],
    slice: &[u8],
    out: &mut Vec<u8>,
) -> Result<(), AllocError>
    requires { 8 + (length tp_header.now + length slice.now) < 2 ^ 32 }
    ensures ok { OnOk result (out.new.items ≡ out.old.items
        ++ spelling (record { header = header.now; payload = tp_header.now ++ slice.now })) }
    ensures err { OnErr result (out.new.items ≡ out.old.items) }
    ensures full { OnErr result (vec_capacity out.old < vec_len out.old
        + length (spelling (record { header = header.now; payload = tp_header.now ++ slice.now }))) }
{
    let payload_len = tp_header.len() + slice.len();
    out.reserve(Header::LEN + payload_len)?;
    out.extend_from_slice(&header_bytes(header, payload_len as u32))
        .unwrap();
    out.extend_from_slice(tp_header).unwrap();
    out.extend_from_slice(slice).unwrap();
    Ok(())
}
