//! The packets that came in part, in the order in which their first fragments came.
ghost use Rattle.std.specs.Prelude.{◌≡◌, ◌≤◌, ◌<◌, ◌+◌, ◌^◌, ℕ, true, false, None, Some, OnOk};
ghost use Rattle.std.specs.Prelude.{OnErr, IfOk, filter, length, take, slice_index_or, slice_set};
ghost use Rattle.recording_packets.specs.fragments.Pieces.{end_of, is_too_long};
ghost use Rattle.recording_packets.specs.fragments.Parts.{Part, nothing_of, differs, with_piece};
ghost use Rattle.recording_packets.specs.fragments.Parts.{payload_of, is_fresh, is_gone};
ghost use Rattle.recording_packets.specs.fragments.Parts.{fragments_of, held_under};
ghost use Rattle.recording_packets.specs.fragments.Stores.{newest, pushed_out};
ghost use Rattle.recording_packets.specs.fragments.Takings.{StandsAt, TakesAt, TakesNew, Takes};
ghost use Rattle.recording_packets.specs.fragments.Views.{view_piece};

use crate::fragments::HeldFragments;
use crate::fragments::partial::Partial;
use crate::fragments::piece::{PacketKey, Piece};
use std::alloc::{AllocError, Global};

/// The most bytes of payload that an IPv4 packet has.
const LONGEST: usize = 65_535;

/// The most packets that are held in part.
const MOST: usize = 64;

/// What a piece made of its packet.
#[derive(Drop)]
pub(crate) enum Taken {
    /// It goes past the longest payload.
    TooLong,
    /// So many fragments are given up, since it differs from what came.
    Differs(u64),
    /// The packet is held in part.
    InPart,
    /// The packet has this payload.
    Whole(Vec<u8>),
}

/// Takes a piece to what came of its packet.
pub(crate) fn take_in(
    parts: &mut Vec<Partial>,
    alloc: Global,
    now: u64,
    key: PacketKey,
    piece: Piece<'_>,
) -> Result<Taken, AllocError>
    requires place { piece.offset ≤ 65535 }
    requires countable { fragments_of parts.old.items + 1 < 2 ^ 64 }
    ensures gone { filter (is_gone now) parts.new.items ≡ filter (is_gone now) parts.old.items }
    ensures ok { IfOk result (λ taken. Takes key now (view_piece piece.entry)
        (filter (is_fresh now) parts.old.items) taken (filter (is_fresh now) parts.new.items)) }
    ensures err { OnErr result (parts.new.items ≡ parts.old.items) }
{
    if piece.end() > LONGEST {
        return Ok(Taken::TooLong);
    }
    match position(parts, &key, now) {
        Some(i) => take_at(parts, i, piece),
        None => take_new(parts, alloc, now, key, piece),
    }
}

/// Where the packet with a key stands that is not given up yet.
fn position(parts: &[Partial], key: &PacketKey, now: u64) -> Option<usize>
    ensures { StandsAt key.now now parts.now result }
{
    for (i, partial) in parts.iter().enumerate() {
        if partial.is_for(key) && partial.is_fresh(now) {
            return Some(i);
        }
    }
    None
}

/// Takes a piece to the packet at a place.
fn take_at(parts: &mut Vec<Partial>, i: usize, piece: Piece<'_>) -> Result<Taken, AllocError>
    requires there { i < length parts.old.items }
    requires short { end_of (view_piece piece) ≤ 65535 }
    requires countable { fragments_of parts.old.items + 1 < 2 ^ 64 }
    ensures ok { IfOk result (λ taken. (d : Part) → TakesAt i (slice_index_or parts.old.items i d)
        (view_piece piece.entry) parts.old.items taken parts.new.items) }
    ensures err { OnErr result (parts.new.items ≡ parts.old.items) }
{
    if parts[i].differs(piece) {
        let partial = parts.remove(i);
        return Ok(Taken::Differs(partial.fragments() + 1));
    }
    accept_at(parts, i, piece)?;
    if !parts[i].is_whole() {
        return Ok(Taken::InPart);
    }
    let partial = parts.remove(i);
    Ok(Taken::Whole(partial.into_payload()))
}

/// Adds a piece to the packet at a place.
fn accept_at(parts: &mut Vec<Partial>, i: usize, piece: Piece<'_>) -> Result<(), AllocError>
    requires there { i < length parts.old.items }
    requires short { end_of (view_piece piece) ≤ 65535 }
    requires countable { fragments_of parts.old.items + 1 < 2 ^ 64 }
    ensures ok { OnOk result ((d : Part) → parts.new.items ≡ slice_set parts.old.items i
        (with_piece (slice_index_or parts.old.items i d) (view_piece piece.entry))) }
    ensures err { OnErr result (parts.new.items ≡ parts.old.items) }
{
    let partial = &mut parts[i];
    partial.accept(piece)
}

/// Takes a piece to a packet of which nothing came before.
fn take_new(
    parts: &mut Vec<Partial>,
    alloc: Global,
    now: u64,
    key: PacketKey,
    piece: Piece<'_>,
) -> Result<Taken, AllocError>
    requires { end_of (view_piece piece) ≤ 65535 }
    ensures ok { IfOk result (λ taken. TakesNew (nothing_of key now) (view_piece piece.entry)
        parts.old.items taken parts.new.items) }
    ensures err { OnErr result (parts.new.items ≡ parts.old.items) }
{
    let mut partial = Partial::new(alloc, key, now);
    partial.accept(piece)?;
    if partial.is_whole() {
        return Ok(Taken::Whole(partial.into_payload()));
    }
    parts.push(partial)?;
    Ok(Taken::InPart)
}

/// The fragments that are held of the packet with a key, if any are.
pub(crate) fn held_under(parts: &[Partial], key: &PacketKey) -> Option<HeldFragments>
    ensures { result ≡ held_under key.now parts.now }
{
    for partial in parts {
        if partial.is_for(key) {
            return Some(partial.held());
        }
    }
    None
}

/// How many fragments came of these packets.
pub(crate) fn count(parts: &[Partial]) -> u64
    requires { fragments_of parts.now < 2 ^ 64 }
    ensures { result ≡ fragments_of parts.now }
{
    let mut total = 0;
    for partial in parts {
        total += partial.fragments();
    }
    total
}

/// Gives up the packets whose time is over, and tells how many fragments came of them.
pub(crate) fn expire(parts: &mut Vec<Partial>, now: u64) -> u64
    requires { fragments_of parts.old.items < 2 ^ 64 }
    ensures left { parts.new.items ≡ filter (is_fresh now) parts.old.items }
    ensures count { result ≡ fragments_of (filter (is_gone now) parts.old.items) }
{
    let before = count(parts);
    parts.retain(|partial| partial.is_fresh(now));
    before - count(parts)
}

/// Gives up the oldest packet where there are too many, and tells how many fragments came of it.
pub(crate) fn push_out(parts: &mut Vec<Partial>) -> u64
    ensures left { parts.new.items ≡ newest parts.old.items }
    ensures count { result ≡ fragments_of (pushed_out parts.old.items) }
{
    if parts.len() <= MOST {
        return 0;
    }
    let oldest = parts.remove(0);
    oldest.fragments()
}
