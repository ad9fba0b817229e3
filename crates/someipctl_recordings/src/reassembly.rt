//! Messages that are put together from the segments of a recording.
//!
//! A datagram at port 30490 is one from or to it, whichever of the two: in neither are segments put
//! together, since Service Discovery has none, and a node drops those that come to that port.
ghost use Rattle.std.specs.Prelude.{◌≡◌, ◌%◌, ◌==◌, ◌||◌, true, is_ok, IfOk, OnErr, OnOk};
ghost use Rattle.recording.specs.View.{view_datagram};
ghost use Rattle.someip_wire.specs.View.{view, view_item};
ghost use Rattle.someip_reassembly.specs.Parts.{NoneAfter};
ghost use Rattle.someip_reassembly.specs.SegmentOffers.{judgement, message_at, parts_after, parts_less};
ghost use Rattle.someipctl_recordings.specs.Gathered.{IsInTime, is_at_discovery, piece_offer, segment_of, socket_of};
ghost use Rattle.someipctl_recordings.specs.Gathered.{store_after, store_by, told_of, view_store, view_told};
ghost use Rattle.someipctl_recordings.specs.Gathered.{is_accepted, is_accepted_offer, store_after_offer};
ghost use Rattle.someipctl_recordings.specs.Gathered.{told_of_offer, told_by};

use recording::{Datagram, Endpoint};
use someip_reassembly::{Offered, Reassembly, ReassemblyKey, TpError, read_segment};
use someip_wire::{Header, Message, WireError};
use std::alloc::AllocError;
use std::net::{Ipv4Addr, SocketAddrV4};

/// The port of Service Discovery, at which segments are not put together.
const DISCOVERY_PORT: u16 = 30490;

/// What is told of a segment that is put together.
#[derive(Clone, Copy)]
pub(crate) enum Told {
    /// Nothing: bytes are still to come, or it is none.
    Nothing,
    /// Its message is whole, and has this header.
    Whole(Header),
    /// It is refused.
    Dropped(TpError),
}

/// A segment that is offered to a store.
#[derive(Clone, Copy)]
struct Piece<'a> {
    key: ReassemblyKey,
    offset: u32,
    more: bool,
    slice: &'a [u8],
}

/// What is told of an item of a datagram that comes at a moment, where messages are put together. The
/// bytes are those of the whole message then.
///
/// The only error is that memory ran out.
pub(crate) fn tell_item<S: Reassembly>(
    store: &mut Option<S>,
    now: u64,
    datagram: &Datagram<'_>,
    item: &Result<Message<'_>, WireError>,
    bytes: &mut Vec<u8>,
) -> Result<Told, AllocError>
    requires in_time { IsInTime S.parts now store.old }
    ensures told { IfOk result (λ told. view_told told bytes.new.items
        ≡ told_of (view_store S.limits S.parts store.old) now (view_datagram datagram.now) (view_item item.now)) }
    ensures wanting { OnErr result (is_accepted (view_store S.limits S.parts store.old) now
        (view_datagram datagram.now) (view_item item.now) ≡ true) }
    ensures store { OnOk result (view_store S.limits S.parts store.new
        ≡ store_after (view_store S.limits S.parts store.old) now (view_datagram datagram.now) (view_item item.now)) }
    ensures in_time { IsInTime S.parts now store.new }
{
    let Some(store) = store else {
        return Ok(Told::Nothing);
    };
    match item {
        Ok(message) => tell_message(store, now, datagram, message, bytes),
        Err(_) => Ok(Told::Nothing),
    }
}

/// The same of a message.
fn tell_message<S: Reassembly>(
    store: &mut S,
    now: u64,
    datagram: &Datagram<'_>,
    message: &Message<'_>,
    bytes: &mut Vec<u8>,
) -> Result<Told, AllocError>
    requires in_time { NoneAfter now (S.parts store.old) }
    ensures told { IfOk result (λ told. view_told told bytes.new.items
        ≡ told_of_offer (store_by S.limits S.parts store.old) now message.now.header
        (segment_of (view_datagram datagram.now) (view message.now))) }
    ensures wanting { OnErr result (is_accepted_offer (store_by S.limits S.parts store.old) now
        (segment_of (view_datagram datagram.now) (view message.now)) ≡ true) }
    ensures store { OnOk result (store_by S.limits S.parts store.new
        ≡ store_after_offer (store_by S.limits S.parts store.old) now
        (segment_of (view_datagram datagram.now) (view message.now))) }
    ensures in_time { NoneAfter now (S.parts store.new) }
{
    if is_at_discovery(datagram) || !message.header.kind.has_tp_flag() {
        return Ok(Told::Nothing);
    }
    match read_segment(message.payload) {
        Ok((offset, more, slice)) => {
            let from = socket_of(datagram.from);
            let to = socket_of(datagram.to);
            let piece = Piece {
                key: ReassemblyKey::new(from, to, &message.header),
                offset,
                more,
                slice,
            };
            tell_piece(store, now, &message.header, piece, bytes)
        }
        Err(_) => Ok(Told::Nothing),
    }
}

/// The same of a segment of a message with this header.
fn tell_piece<S: Reassembly>(
    store: &mut S,
    now: u64,
    header: &Header,
    piece: Piece<'_>,
    bytes: &mut Vec<u8>,
) -> Result<Told, AllocError>
    requires aligned { piece.offset % 16 ≡ 0 }
    requires in_time { NoneAfter now (S.parts store.old) }
    ensures told { IfOk result (λ told. view_told told bytes.new.items
        ≡ told_of_offer (store_by S.limits S.parts store.old) now header.now (Some (piece_offer piece.entry))) }
    ensures wanting { OnErr result (is_accepted_offer (store_by S.limits S.parts store.old) now
        (Some (piece_offer piece.entry)) ≡ true) }
    ensures store { OnOk result (store_by S.limits S.parts store.new
        ≡ store_after_offer (store_by S.limits S.parts store.old) now (Some (piece_offer piece.entry))) }
    ensures in_time { NoneAfter now (S.parts store.new) }
{
    match offered(store, now, piece)? {
        Ok(Offered::Part) => Ok(Told::Nothing),
        Ok(Offered::Whole) => take_whole(store, now, header, &piece.key, bytes),
        Err(refusal) => Ok(Told::Dropped(refusal)),
    }
}

/// Offers a segment, and keeps out of memory apart, which comes only for a segment that was to be
/// accepted.
fn offered<S: Reassembly>(
    store: &mut S,
    now: u64,
    piece: Piece<'_>,
) -> Result<Result<Offered, TpError>, AllocError>
    requires aligned { piece.offset % 16 ≡ 0 }
    requires in_time { NoneAfter now (S.parts store.old) }
    ensures judged { IfOk result (λ judged. judged
        ≡ judgement (S.limits store.old) now (piece_offer piece.entry) (S.parts store.old)) }
    ensures parts { OnOk result (S.parts store.new
        ≡ parts_after (S.limits store.old) now (piece_offer piece.entry) (S.parts store.old)) }
    ensures wanting { OnErr result (is_ok (judgement (S.limits store.old) now
        (piece_offer piece.entry) (S.parts store.old)) ≡ true) }
    ensures in_time { NoneAfter now (S.parts store.new) }
    ensures limits { S.limits store.new ≡ S.limits store.old }
{
    match store.offer(piece.key, piece.offset, piece.more, piece.slice, now) {
        Err(TpError::OutOfMemory) => Err(AllocError),
        judged => Ok(judged),
    }
}

/// Takes a whole message, whose bytes are then these. Its segments have this header.
fn take_whole<S: Reassembly>(
    store: &mut S,
    now: u64,
    header: &Header,
    key: &ReassemblyKey,
    bytes: &mut Vec<u8>,
) -> Result<Told, AllocError>
    requires { NoneAfter now (S.parts store.old) }
    ensures told { IfOk result (λ told. view_told told bytes.new.items
        ≡ told_by header.now (Ok Offered.Whole) (message_at (S.parts store.old) key.now)) }
    ensures parts { OnOk result (S.parts store.new ≡ parts_less (S.parts store.old) key.now) }
    ensures in_time { NoneAfter now (S.parts store.new) }
    ensures limits { S.limits store.new ≡ S.limits store.old }
{
    bytes.clear();
    match store.take(key, bytes) {
        Ok(true) => Ok(Told::Whole(Header {
            kind: header.kind.without_tp_flag(),
            ..*header
        })),
        Ok(false) => Ok(Told::Nothing),
        Err(_) => Err(AllocError),
    }
}

/// Whether a datagram came from or went to the port of Service Discovery.
fn is_at_discovery(datagram: &Datagram<'_>) -> bool
    ensures { result ≡ is_at_discovery (view_datagram datagram.now) }
{
    datagram.from.port == DISCOVERY_PORT || datagram.to.port == DISCOVERY_PORT
}

/// An endpoint, as the standard library knows it.
pub fn socket_of(endpoint: Endpoint) -> SocketAddrV4
    ensures { result ≡ socket_of endpoint }
{
    SocketAddrV4::new(Ipv4Addr::from_octets(endpoint.ip), endpoint.port)
}
