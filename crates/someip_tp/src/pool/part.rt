//! A message that has come in part, in the room of its slot.
ghost use Rattle.std.specs.Prelude.{◌≡◌, ◌+◌, ◌%◌, ◌++◌, ◌≤◌, [], false, true, OnOk, OnErr, is_some, unwrap_or, length, nat_le};
ghost use Rattle.someip_reassembly.specs.Keys.{key_cmp};
ghost use Rattle.someip_reassembly.specs.Parts.{is_gone};
ghost use Rattle.someip_reassembly.specs.SegmentOffers.{offer, no_part, conflicts, with_offer, message_of};
ghost use Rattle.someip_tp.specs.Rooms.{IsConsistent};

use crate::pool::key_order::compare;
use crate::pool::room::Room;
use someip_reassembly::ReassemblyKey;
use someip_reassembly::totals::{differ, passes, total_of, total_with};
use std::alloc::AllocError;
use std::cmp::Ordering;
use std::marker::Model;

/// A message that has come in part: its bytes in the room of its slot, its total if the last slice is
/// among them, and when the latest was accepted.
#[derive(Drop)]
pub(crate) struct RoomPart {
    key: ReassemblyKey,
    room: Room,
    total: Option<usize>,
    last: u64,
}

impl Model for RoomPart {
    ghost use Rattle.someip_tp.specs.RoomParts.{PartInRoom, coded_part_in_room, view_part, IsSoundIn};

    ghost Value = { PartInRoom };

    ghost coded = { coded_part_in_room };

    ghost view = { view_part };

    ghost invariant = { IsSoundIn };
}

impl RoomPart {
    /// A part of which nothing has come, in an empty room.
    pub(crate) fn new(key: ReassemblyKey, room: Room) -> RoomPart
        requires consistent { IsConsistent room }
        requires empty { room.end ≡ 0 }
        ensures entry { result.entry ≡ (key, no_part) }
        ensures limit { result.limit ≡ room.limit }
    {
        RoomPart {
            key,
            room,
            total: None,
            last: 0,
        }
    }

    /// Its room, emptied.
    pub(crate) fn into_room(self) -> Room
        ensures consistent { IsConsistent result }
        ensures empty { result.end ≡ 0 }
        ensures limit { result.limit ≡ self.limit }
    {
        let mut room = self.room;
        room.empty();
        room
    }

    /// How its key stands to another.
    pub(crate) fn compare(&self, key: &ReassemblyKey) -> Ordering
        ensures { result ≡ key_cmp self.now.entry.0 key.now }
    {
        compare(&self.key, key)
    }

    /// When its last segment was accepted.
    pub(crate) fn last(&self) -> u64
        ensures { result ≡ self.now.entry.1.last }
    {
        self.last
    }

    /// Whether its time is over at `now`.
    pub(crate) fn is_gone(&self, timeout: u64, now: u64) -> bool
        ensures { result ≡ is_gone timeout now self.now.entry.1 }
    {
        is_over(self.last, timeout, now)
    }

    /// Whether a segment contradicts what has come.
    pub(crate) fn contradicts(&self, offset: u32, more: bool, bytes: &[u8]) -> bool
        requires { offset % 16 ≡ 0 }
        ensures { result ≡ conflicts self.now.entry.1 (offer self.now.entry.0 offset more bytes.now) }
    {
        let told = total_of(offset, more, bytes);
        self.room.clashes(offset, bytes)
            || passes(self.total, offset, bytes)
            || differ(self.total, told)
            || self.room.reaches(told)
    }

    /// Keeps the slice of a segment that contradicts nothing. It takes no memory.
    pub(crate) fn accept(&mut self, offset: u32, more: bool, bytes: &[u8], now: u64)
        requires aligned { offset % 16 ≡ 0 }
        requires whole_blocks { more ≡ true → length bytes.now % 16 ≡ 0 }
        requires within { offset + length bytes.now ≤ self.old.limit }
        requires fits { conflicts self.old.entry.1 (offer self.old.entry.0 offset more bytes.now) ≡ false }
        ensures entry { self.new.entry ≡ (
          self.old.entry.0,
          with_offer self.old.entry.1 now (offer self.old.entry.0 offset more bytes.now),
        ) }
        ensures limit { self.new.limit ≡ self.old.limit }
    {
        self.room.hold(offset, bytes);
        self.total = total_with(self.total, offset, more, bytes);
        self.last = now;
    }

    /// Whether the message is whole.
    pub(crate) fn is_whole(&self) -> bool
        ensures { result ≡ is_some (message_of self.now.entry.1) }
    {
        match self.total {
            Some(total) => self.room.front() == total,
            None => false,
        }
    }

    /// Appends the bytes of a whole message.
    pub(crate) fn append_message(&self, bytes: &mut Vec<u8>) -> Result<(), AllocError>
        requires { is_some (message_of self.now.entry.1) ≡ true }
        ensures ok { OnOk result
            (bytes.new.items ≡ bytes.old.items ++ unwrap_or (message_of self.now.entry.1) []) }
        ensures err { OnErr result (bytes.new.items ≡ bytes.old.items) }
    {
        self.room.append_front(bytes)
    }
}

/// Whether a time that began at `since` is over at `now`.
pub(crate) fn is_over(since: u64, timeout: u64, now: u64) -> bool
    ensures { result ≡ nat_le (since + timeout) now }
{
    match now.checked_sub(since) {
        Some(age) => age >= timeout,
        None => false,
    }
}
