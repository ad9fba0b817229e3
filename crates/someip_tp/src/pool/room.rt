//! The room of a slot: the bytes of a message at their places, and which of them are held.
//!
//! A room is not wiped between two messages: its messages are numbered, and a block is held for the message
//! whose number it has. Only once in 2^32 messages are its blocks forgotten all at once. Nor are its bytes
//! written before they come: a room is filled up to the furthest place that a slice ever had, once, so the
//! first far slice costs what that fill does, and later ones do not.
ghost use Rattle.std.specs.Prelude.{◌≡◌, ◌≢◌, ◌↔◌, ◌+◌, ◌≤◌, ◌<◌, ◌%◌, ◌/◌, ◌-◌, ◌++◌, ℕ, true, Some, length, replicate, vec_len, vec_capacity, OnOk, OnErr, IfOk, slice_get, nat_le, nat_lt, ◌&&◌, ◌||◌};
ghost use Rattle.std.specs.List.{list_any};
ghost use Rattle.std.specs.FinMap as map;
ghost use Rattle.std.specs.FinMap.{get, keys};
ghost use Rattle.someip_reassembly.specs.SegmentOffers.{differ, passes, placed, added};
ghost use Rattle.someip_reassembly.specs.Slices.{byte_at, Agree, IsFront, AppendsFront};
ghost use Rattle.someip_tp.specs.Blocks.{is_held, other_end, AreTied, AreUpTo};
ghost use Rattle.someip_tp.specs.Rooms.{IsConsistent, held_bytes, Continues};

use crate::pool::block::{Block, hold_all, is_held};
use someip_reassembly::begin_alike;
use std::alloc::{AllocError, Global};

/// The room of a slot: the bytes of a message at their places, and which of them are held. All that
/// it will ever need is reserved when it is made.
///
/// A room is used for one message after the other. Its messages are numbered, and a block tells which
/// of them it is held for, so that nothing has to be wiped before the next one.
#[derive(Drop)]
pub(crate) struct Room {
    /// The bytes up to the last place that was ever written.
    bytes: Vec<u8>,
    /// What is noted of each 16 places of them.
    blocks: Vec<Block>,
    /// The number of the message.
    message: u32,
    /// The place after its last one that is held.
    end: usize,
    /// How many places a message may have.
    limit: usize,
}

impl Room {
    /// Reserves the room of messages of at most `limit` bytes: for these, and for each 32 of them two
    /// blocks, 16 bytes, which is what an interval needs.
    ///
    /// Where a message could have 2^32 blocks or more, memory is wanting.
    pub(crate) fn reserve(alloc: Global, limit: usize) -> Result<Room, AllocError>
        ensures consistent { IfOk result IsConsistent }
        ensures empty { IfOk result (λ room. held_bytes room ≡ map.empty) }
        ensures end { IfOk result (λ room. room.end ≡ 0) }
        ensures limit { IfOk result (λ room. room.limit ≡ limit) }
    {
        let blocks = limit.div_ceil(32) * 2;
        if blocks > u32::MAX as usize {
            return Err(AllocError);
        }
        Ok(Room {
            bytes: Vec::with_capacity(alloc, limit)?,
            blocks: Vec::with_capacity(alloc, blocks)?,
            message: 1,
            end: 0,
            limit,
        })
    }

    /// Empties it, for the next message.
    pub(crate) fn empty(&mut self)
        requires { IsConsistent self.old }
        ensures consistent { IsConsistent self.new }
        ensures empty { held_bytes self.new ≡ map.empty }
        ensures end { self.new.end ≡ 0 }
        ensures limit { self.new.limit ≡ self.old.limit }
    {
        self.end = 0;
        if self.message == u32::MAX {
            self.blocks.clear();
            self.message = 1;
        } else {
            self.message += 1;
        }
    }

    /// Whether a slice has another byte than the room at some place that is held.
    pub(crate) fn clashes(&self, offset: u32, bytes: &[u8]) -> bool
        requires consistent { IsConsistent self.now }
        requires aligned { offset % 16 ≡ 0 }
        ensures { result ≡ list_any (λ e. differ (get (held_bytes self.now) e.0) (Some e.1))
            (placed offset bytes.now) }
    {
        for i in 0..bytes.len().div_ceil(16) {
            let at = 16 * i;
            let part = &bytes[at..bytes.len().min(at + 16)];
            if !self.agrees(offset as usize + at, part) {
                return true;
            }
        }
        false
    }

    /// Whether a slice within one block has the bytes that are held there.
    fn agrees(&self, start: usize, bytes: &[u8]) -> bool
        requires consistent { IsConsistent self.now }
        requires aligned { start % 16 ≡ 0 }
        requires short { length bytes.now ≤ 16 }
        ensures { (result ≡ true) ↔ Agree (get (held_bytes self.now)) (byte_at start bytes.now) }
    {
        if start >= self.end || !is_held(&self.blocks, self.message, start / 16) {
            return true;
        }
        begin_alike(&self.bytes[start..self.end], bytes)
    }

    /// Whether some byte is held at or past a total, if that is told.
    pub(crate) fn reaches(&self, total: Option<usize>) -> bool
        requires { IsConsistent self.now }
        ensures { result ≡ passes total (keys (held_bytes self.now)) }
    {
        match total {
            Some(total) => total < self.end,
            None => false,
        }
    }

    /// Holds a slice at its place, that clashes with nothing. Nothing is held after one that ends
    /// within a block, nor does one go past such an end.
    pub(crate) fn hold(&mut self, offset: u32, bytes: &[u8])
        requires consistent { IsConsistent self.old }
        requires aligned { offset % 16 ≡ 0 }
        requires fits { offset + length bytes.now ≤ self.old.limit }
        requires agrees { Agree (get (held_bytes self.old)) (byte_at offset bytes.now) }
        requires last { length bytes.now % 16 ≢ 0 → self.old.end ≤ offset + length bytes.now }
        requires before { 0 < length bytes.now → self.old.end % 16 ≢ 0
            → offset + length bytes.now ≤ self.old.end }
        ensures consistent { IsConsistent self.new }
        ensures held { held_bytes self.new ≡ added (held_bytes self.old) (placed offset bytes.now) }
        ensures end { Continues self.old.end self.new.end offset (length bytes.now) }
        ensures limit { self.new.limit ≡ self.old.limit }
    {
        if bytes.is_empty() {
            return;
        }
        let to = offset as usize + bytes.len();
        write_at(&mut self.bytes, offset as usize, bytes);
        hold_blocks(
            &mut self.blocks,
            self.message,
            offset / 16,
            to.div_ceil(16) as u32,
        );
        self.end = self.end.max(to);
    }

    /// How many places from the first one on are held without a gap.
    pub(crate) fn front(&self) -> usize
        requires { IsConsistent self.now }
        ensures { IsFront (held_bytes self.now) result }
    {
        if is_held(&self.blocks, self.message, 0) {
            let last = self.blocks[0].other as usize;
            self.end.min(16 * (last + 1))
        } else {
            0
        }
    }

    /// Appends the bytes that are held from the first place on without a gap.
    pub(crate) fn append_front(&self, bytes: &mut Vec<u8>) -> Result<(), AllocError>
        requires { IsConsistent self.now }
        ensures ok { OnOk result (AppendsFront (held_bytes self.now) bytes.old.items bytes.new.items) }
        ensures err { OnErr result (bytes.new.items ≡ bytes.old.items) }
    {
        let front = self.front();
        bytes.extend_from_slice(&self.bytes[..front])
    }
}

/// Writes bytes at their places, for which there is room.
fn write_at(items: &mut Vec<u8>, start: usize, bytes: &[u8])
    requires { start + length bytes.now ≤ vec_capacity items.old }
    ensures written { (i : ℕ) → i < length bytes.now
        → slice_get items.new.items (start + i) ≡ slice_get bytes.now i }
    ensures before { (i : ℕ) → i < start → i < length items.old.items
        → slice_get items.new.items i ≡ slice_get items.old.items i }
    ensures after { (i : ℕ) → start + length bytes.now ≤ i
        → slice_get items.new.items i ≡ slice_get items.old.items i }
    ensures len { start + length bytes.now ≤ length items.new.items }
    ensures grows { length items.old.items ≤ length items.new.items }
    ensures capacity { vec_capacity items.old ≤ vec_capacity items.new }
{
    let to = start + bytes.len();
    lengthen(items, to, 0);
    items[start..to].copy_from_slice(bytes);
}

/// Holds blocks for a message, for which there is room, and joins them to the intervals that they
/// touch.
fn hold_blocks(blocks: &mut Vec<Block>, message: u32, from: u32, to: u32)
    requires room { to ≤ vec_capacity blocks.old }
    requires numbered { 0 < message }
    requires tied { AreTied (is_held message blocks.old.items) (other_end blocks.old.items) }
    requires earlier { AreUpTo message blocks.old.items }
    ensures held { (j : ℕ) → is_held message blocks.new.items j
        ≡ ((nat_le from j && nat_lt j to) || is_held message blocks.old.items j) }
    ensures tied { AreTied (is_held message blocks.new.items) (other_end blocks.new.items) }
    ensures earlier { AreUpTo message blocks.new.items }
    ensures capacity { vec_capacity blocks.old ≤ vec_capacity blocks.new }
{
    lengthen(
        blocks,
        to as usize,
        Block {
            message: 0,
            other: 0,
        },
    );
    hold_all(blocks, message, from, to);
}

/// Fills a vector up to a length that it has room for.
fn lengthen<T: Copy>(items: &mut Vec<T>, to: usize, filler: T)
    requires { to ≤ vec_capacity items.old }
    ensures items { items.new.items ≡ items.old.items ++ replicate (to - vec_len items.old) filler }
    ensures capacity { vec_capacity items.old ≤ vec_capacity items.new }
{
    if to > items.len() {
        match items.resize(to, filler) {
            Ok(()) => {}
            Err(_) => unreachable!(),
        }
    }
}
