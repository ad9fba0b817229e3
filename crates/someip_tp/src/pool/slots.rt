//! The slots of a pool: those that a message stands in, and free ones.
ghost use Rattle.std.specs.Prelude.{ℕ, ◌≡◌, ◌≢◌, ◌+◌, ◌++◌, ◌<◌, ◌≤◌, ◌%◌, ◌^◌, [], true, false, Some, Err, OnOk, OnErr, IfOk, is_some, unwrap_or, not, length, filter, take, drop, vec_len, vec_capacity};
ghost use Rattle.std.specs.List.{All, insert};
ghost use Rattle.someip_reassembly.specs.Parts.{is_gone};
ghost use Rattle.someip_reassembly.specs.SegmentOffers.{conflicts, with_offer, part_or_whole, message_at, parts_less, is_unaligned, is_too_long};
ghost use Rattle.someip_reassembly.specs.Stores.{StandsAt, Offers, OffersAmong, segment_arrived, parts_of_entries};
ghost use Rattle.someip_tp.specs.Pools.{ArePooled, SameBounds, AreRising, GoesAt, Finds, entries_in, entries_of};

use crate::pool::part::{RoomPart, is_over};
use crate::pool::room::Room;
use someip_reassembly::{Arrived, Offered, ReassemblyKey, TpError};
use std::alloc::{AllocError, Global};

/// The slots of a pool: those that a message stands in, and free ones.
#[derive(Drop)]
pub(crate) struct Slots {
    /// By rising keys.
    taken: Vec<RoomPart>,
    free: Vec<Room>,
    /// How many slots there are.
    count: usize,
    /// How many places a message may have.
    limit: usize,
    /// No part had its last segment before this moment.
    soonest: u64,
}

impl Slots {
    /// Reserves slots, all of them free.
    pub(crate) fn reserve(alloc: Global, count: usize, limit: usize) -> Result<Slots, AllocError>
        ensures pooled { IfOk result ArePooled }
        ensures empty { IfOk result (λ slots. entries_in slots ≡ []) }
        ensures count { IfOk result (λ slots. slots.count ≡ count) }
        ensures limit { IfOk result (λ slots. slots.limit ≡ limit) }
    {
        let taken = Vec::with_capacity(alloc, count)?;
        let mut free = Vec::with_capacity(alloc, count)?;
        for _ in 0..count {
            free.push_reserved(Room::reserve(alloc, limit)?);
        }
        Ok(Slots {
            taken,
            free,
            count,
            limit,
            soonest: u64::MAX,
        })
    }

    /// Frees the slot of the part at `i`.
    fn free_at(&mut self, i: usize)
        requires pooled { ArePooled self.old }
        requires inside { i < length self.old.taken.items }
        ensures pooled { ArePooled self.new }
        ensures entries { entries_in self.new ≡ take i (entries_in self.old) ++ drop (i + 1) (entries_in self.old) }
        ensures bounds { SameBounds self.old self.new }
    {
        let part = self.taken.remove(i);
        self.free.push_reserved(part.into_room());
    }

    /// Frees the slots of the parts whose time is over at `now`. It looks at them only where there may
    /// be one.
    pub(crate) fn free_gone(&mut self, timeout: u64, now: u64)
        requires { ArePooled self.old }
        ensures pooled { ArePooled self.new }
        ensures entries { entries_in self.new
            ≡ filter (λ e. not (is_gone timeout now e.1)) (entries_in self.old) }
        ensures bounds { SameBounds self.old self.new }
    {
        if is_over(self.soonest, timeout, now) {
            self.free_each_gone(timeout, now);
            self.soonest = soonest(&self.taken);
        }
    }

    /// Looks at each part, and frees its slot if its time is over at `now`.
    fn free_each_gone(&mut self, timeout: u64, now: u64)
        requires { ArePooled self.old }
        ensures pooled { ArePooled self.new }
        ensures entries { entries_in self.new
            ≡ filter (λ e. not (is_gone timeout now e.1)) (entries_in self.old) }
        ensures bounds { SameBounds self.old self.new }
    {
        let mut i = self.taken.len();
        while i > 0 {
            i -= 1;
            if self.taken[i].is_gone(timeout, now) {
                self.free_at(i);
            }
        }
    }

    /// Frees all slots.
    pub(crate) fn free_all(&mut self)
        requires { ArePooled self.old }
        ensures pooled { ArePooled self.new }
        ensures entries { entries_in self.new ≡ [] }
        ensures bounds { SameBounds self.old self.new }
    {
        let mut i = self.taken.len();
        while i > 0 {
            i -= 1;
            self.free_at(i);
        }
    }

    /// Offers a segment to the parts. It takes no memory.
    pub(crate) fn offer(&mut self, arrived: Arrived<'_>) -> Result<Offered, TpError>
        requires pooled { ArePooled self.old }
        requires aligned { arrived.offset % 16 ≡ 0 }
        ensures pooled { ArePooled self.new }
        ensures offers { (timeout : ℕ) → Offers
            (record { slots = self.old.count; limit = self.old.limit; timeout = timeout }) arrived.entry.now
            (segment_arrived arrived.entry) (parts_of_entries (entries_in self.old)) result
            (parts_of_entries (entries_in self.new)) }
        ensures no_memory { result ≢ Err TpError.OutOfMemory }
        ensures bounds { SameBounds self.old self.new }
    {
        let len = arrived.bytes.len();
        if arrived.more && len % 16 != 0 {
            return Err(TpError::Unaligned);
        }
        if arrived.offset as usize + len > self.limit {
            return Err(TpError::TooLong);
        }
        match position(&self.taken, &arrived.key) {
            Ok(i) => self.offer_at(i, arrived),
            Err(i) => self.offer_new(i, arrived),
        }
    }

    /// Offers a segment of fit length to the part of its key, which stands at `i`.
    fn offer_at(&mut self, i: usize, arrived: Arrived<'_>) -> Result<Offered, TpError>
        requires pooled { ArePooled self.old }
        requires there { StandsAt arrived.key (entries_in self.old) (Some i) }
        requires aligned { arrived.offset % 16 ≡ 0 }
        requires whole_blocks { is_unaligned (segment_arrived arrived) ≡ false }
        requires within { is_too_long self.old.limit (segment_arrived arrived) ≡ false }
        ensures pooled { ArePooled self.new }
        ensures offers { OffersAmong self.old.count arrived.entry.now (segment_arrived arrived.entry)
            (parts_of_entries (entries_in self.old)) result (parts_of_entries (entries_in self.new)) }
        ensures no_memory { result ≢ Err TpError.OutOfMemory }
        ensures bounds { SameBounds self.old self.new }
    {
        if self.taken[i].contradicts(arrived.offset, arrived.more, arrived.bytes) {
            self.free_at(i);
            return Err(TpError::Conflict);
        }
        let offered = accept(&mut self.taken[i], arrived);
        self.soonest = self.soonest.min(arrived.now);
        Ok(offered)
    }

    /// Offers a segment of fit length under a key without a part, which goes at `i`.
    fn offer_new(&mut self, i: usize, arrived: Arrived<'_>) -> Result<Offered, TpError>
        requires pooled { ArePooled self.old }
        requires new { GoesAt arrived.key (entries_in self.old) i }
        requires aligned { arrived.offset % 16 ≡ 0 }
        requires whole_blocks { is_unaligned (segment_arrived arrived) ≡ false }
        requires within { is_too_long self.old.limit (segment_arrived arrived) ≡ false }
        ensures pooled { ArePooled self.new }
        ensures offers { OffersAmong self.old.count arrived.entry.now (segment_arrived arrived.entry)
            (parts_of_entries (entries_in self.old)) result (parts_of_entries (entries_in self.new)) }
        ensures no_memory { result ≢ Err TpError.OutOfMemory }
        ensures bounds { SameBounds self.old self.new }
    {
        let Some(room) = self.free.pop() else {
            return Err(TpError::NoSlot);
        };
        let mut part = RoomPart::new(arrived.key, room);
        let offered = accept(&mut part, arrived);
        insert_reserved(&mut self.taken, i, part);
        self.soonest = self.soonest.min(arrived.now);
        Ok(offered)
    }

    /// Takes the message of a key out, if it is whole.
    pub(crate) fn take(
        &mut self,
        key: &ReassemblyKey,
        bytes: &mut Vec<u8>,
    ) -> Result<bool, AllocError>
        requires { ArePooled self.old }
        ensures pooled { ArePooled self.new }
        ensures taken { IfOk result (λ taken.
            taken ≡ is_some (message_at (parts_of_entries (entries_in self.old)) key.now)) }
        ensures bytes { OnOk result (bytes.new.items ≡ bytes.old.items
            ++ unwrap_or (message_at (parts_of_entries (entries_in self.old)) key.now) []) }
        ensures parts { OnOk result (parts_of_entries (entries_in self.new)
            ≡ parts_less (parts_of_entries (entries_in self.old)) key.now) }
        ensures wanting { OnErr result
            (is_some (message_at (parts_of_entries (entries_in self.old)) key.now) ≡ true) }
        ensures err { OnErr result
            ((entries_in self.new ≡ entries_in self.old) × (bytes.new.items ≡ bytes.old.items)) }
        ensures bounds { SameBounds self.old self.new }
    {
        let Ok(i) = position(&self.taken, key) else {
            return Ok(false);
        };
        let whole = self.taken[i].is_whole();
        if whole {
            self.taken[i].append_message(bytes)?;
            self.free_at(i);
        }
        Ok(whole)
    }
}

/// Where the part of a key stands, or else where one goes, so that the keys still rise.
fn position(taken: &[RoomPart], key: &ReassemblyKey) -> Result<usize, usize>
    requires { AreRising (entries_of taken.now) }
    ensures { Finds key.now (entries_of taken.now) result }
{
    taken.binary_search_by(|part| part.compare(key))
}

/// Puts a part in at `i`, for which the list has room.
fn insert_reserved(taken: &mut Vec<RoomPart>, i: usize, part: RoomPart)
    requires inside { i ≤ vec_len taken.old }
    requires room { vec_len taken.old < vec_capacity taken.old }
    ensures items { taken.new.items ≡ insert taken.old.items i part }
    ensures len { vec_len taken.new ≡ vec_len taken.old + 1 }
    ensures capacity { vec_capacity taken.old ≤ vec_capacity taken.new }
{
    match taken.insert(i, part) {
        Ok(()) => {}
        Err(_) => unreachable!(),
    }
}

/// The first moment at which one of the parts had its last segment; the last moment of all where there
/// is no part.
fn soonest(taken: &[RoomPart]) -> u64
    ensures least { All (λ p. result ≤ p.entry.1.last) taken.now }
    ensures reached { (at : ℕ) → at < 2 ^ 64 → All (λ p. at ≤ p.entry.1.last) taken.now → at ≤ result }
{
    let mut soonest = u64::MAX;
    for part in taken {
        soonest = soonest.min(part.last());
    }
    soonest
}

/// Keeps a segment that contradicts nothing, and tells what it made of the message.
fn accept(part: &mut RoomPart, arrived: Arrived<'_>) -> Offered
    requires aligned { arrived.offset % 16 ≡ 0 }
    requires whole_blocks { is_unaligned (segment_arrived arrived) ≡ false }
    requires within { is_too_long part.old.limit (segment_arrived arrived) ≡ false }
    requires fits { conflicts part.old.entry.1 (segment_arrived arrived) ≡ false }
    ensures entry { part.new.entry ≡ (
      part.old.entry.0,
      with_offer part.old.entry.1 arrived.entry.now (segment_arrived arrived.entry),
    ) }
    ensures limit { part.new.limit ≡ part.old.limit }
    ensures offered { result ≡ part_or_whole (with_offer part.old.entry.1 arrived.entry.now
        (segment_arrived arrived.entry)) }
{
    part.accept(arrived.offset, arrived.more, arrived.bytes, arrived.now);
    if part.is_whole() {
        Offered::Whole
    } else {
        Offered::Part
    }
}
