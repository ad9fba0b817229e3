//! A packet of which fragments came.
ghost use Rattle.std.specs.Prelude.{◌≡◌, ◌≤◌, ◌<◌, ◌+◌, ◌^◌, Some, false, true, OnOk, OnErr, IfOk};
ghost use Rattle.std.specs.Prelude.{is_some, length, if◌then◌else◌};
ghost use Rattle.recording_packets.specs.fragments.Pieces.{same_key, end_of};
ghost use Rattle.recording_packets.specs.fragments.Parts.{nothing_of, differs, is_past, is_before};
ghost use Rattle.recording_packets.specs.fragments.Parts.{with_those_of, with_piece, payload_of};
ghost use Rattle.recording_packets.specs.fragments.Parts.{held_of, is_fresh};
ghost use Rattle.recording_packets.specs.fragments.Views.{view_piece, cells_of, count_known};

use crate::fragments::HeldFragments;
use crate::fragments::cells::{differ_at, grow, put};
use crate::fragments::piece::{PacketKey, Piece};
use std::alloc::{AllocError, Global};
use std::marker::Model;

/// How long after its first fragment a packet is given up, in nanoseconds: 30 seconds.
const PATIENCE: u64 = 30_000_000_000;

/// A packet of which fragments came: its bytes, which of them are known and how many, its end if
/// that is known, when its first fragment came, and how many came.
#[derive(Drop)]
pub(crate) struct Partial {
    key: PacketKey,
    first: u64,
    fragments: u64,
    bytes: Vec<u8>,
    known: Vec<bool>,
    count: usize,
    end: Option<usize>,
}

impl Model for Partial {
    ghost use Rattle.recording_packets.specs.fragments.Parts.{Part};
    ghost use Rattle.recording_packets.specs.fragments.Views.{coded_part, view_partial, IsSound};

    ghost Value = { Part };

    ghost coded = { coded_part };

    ghost view = { view_partial };

    ghost invariant = { IsSound };
}

impl Partial {
    /// A packet of which nothing came.
    pub(crate) fn new(alloc: Global, key: PacketKey, now: u64) -> Partial
        ensures { result ≡ nothing_of key now }
    {
        Partial {
            key,
            first: now,
            fragments: 0,
            bytes: Vec::new(alloc),
            known: Vec::new(alloc),
            count: 0,
            end: None,
        }
    }

    /// Whether it has this key.
    pub(crate) fn is_for(&self, key: &PacketKey) -> bool
        ensures { result ≡ same_key key.now self.now.key }
    {
        key.is_same(&self.key)
    }

    /// Whether it is not given up yet.
    pub(crate) fn is_fresh(&self, now: u64) -> bool
        ensures { result ≡ is_fresh now self.now }
    {
        now.saturating_sub(self.first) <= PATIENCE
    }

    /// How many fragments came.
    pub(crate) fn fragments(&self) -> u64
        ensures { result ≡ self.now.fragments }
    {
        self.fragments
    }

    /// How many fragments came, and when the first did.
    pub(crate) fn held(&self) -> HeldFragments
        ensures { result ≡ held_of self.now }
    {
        HeldFragments {
            first: self.first,
            count: self.fragments,
        }
    }

    /// Whether a piece differs from what came.
    pub(crate) fn differs(&self, piece: Piece<'_>) -> bool
        requires { end_of (view_piece piece) ≤ 65535 }
        ensures { result ≡ differs self.now (view_piece piece.entry) }
    {
        let end = piece.end();
        differ_at(&self.known, &self.bytes, piece.offset, piece.bytes)
            || is_past(self.end, end)
            || piece.last && (end < self.known.len() || is_before(self.end, end))
    }

    /// Takes a piece that does not differ.
    pub(crate) fn accept(&mut self, piece: Piece<'_>) -> Result<(), AllocError>
        requires short { end_of (view_piece piece) ≤ 65535 }
        requires countable { self.old.fragments + 1 < 2 ^ 64 }
        ensures ok { OnOk result (self.new ≡ with_piece self.old (view_piece piece.entry)) }
        ensures err { OnErr result (self.new ≡ self.old) }
    {
        let added = take_bytes(&mut self.known, &mut self.bytes, piece)?;
        self.count += added;
        self.end = end_with(self.end, piece);
        self.fragments += 1;
        Ok(())
    }

    /// Whether it is whole.
    pub(crate) fn is_whole(&self) -> bool
        ensures { result ≡ is_some (payload_of self.now) }
    {
        let len = self.known.len();
        match self.end {
            Some(end) => end == len && self.count == len,
            None => false,
        }
    }

    /// The payload of a packet that is whole.
    pub(crate) fn into_payload(self) -> Vec<u8>
        requires { is_some (payload_of self) ≡ true }
        ensures { payload_of self ≡ Some result.items }
    {
        let mut bytes = self.bytes;
        bytes.truncate(self.known.len());
        bytes
    }
}

/// Takes the bytes of a piece, and tells how many of them were not known.
fn take_bytes(
    known: &mut Vec<bool>,
    bytes: &mut Vec<u8>,
    piece: Piece<'_>,
) -> Result<usize, AllocError>
    requires long { length known.old.items ≤ length bytes.old.items }
    requires short { end_of (view_piece piece) ≤ 65535 }
    ensures long { length known.new.items ≤ length bytes.new.items }
    ensures count { IfOk result (λ added. count_known known.new.items
        ≡ count_known known.old.items + added) }
    ensures ok { OnOk result (cells_of known.new.items bytes.new.items
        ≡ with_those_of (view_piece piece.entry) (cells_of known.old.items bytes.old.items)) }
    ensures err_count { OnErr result (count_known known.new.items ≡ count_known known.old.items) }
    ensures err { OnErr result (cells_of known.new.items bytes.new.items
        ≡ cells_of known.old.items bytes.old.items) }
{
    if piece.bytes.is_empty() {
        return Ok(0);
    }
    grow(known, bytes, piece.end())?;
    Ok(put(known, bytes, piece.offset, piece.bytes))
}

/// The end of a packet once a piece came: the last one tells it.
fn end_with(end: Option<usize>, piece: Piece<'_>) -> Option<usize>
    requires { end_of (view_piece piece) ≤ 65535 }
    ensures { result ≡ (if piece.entry.last then Some (end_of (view_piece piece.entry)) else end) }
{
    if piece.last { Some(piece.end()) } else { end }
}

/// Whether a place is past the end, if that is known.
fn is_past(end: Option<usize>, place: usize) -> bool
    ensures { result ≡ is_past end place }
{
    match end {
        Some(end) => end < place,
        None => false,
    }
}

/// Whether a place is before the end, if that is known.
fn is_before(end: Option<usize>, place: usize) -> bool
    ensures { result ≡ is_before end place }
{
    match end {
        Some(end) => place < end,
        None => false,
    }
}
