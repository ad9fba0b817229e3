//! The turns of the packets that are remembered, by packet.
//!
//! A packet has a slot of its own by its digest, where mostly its turn stands. Where another packet
//! has the slot, its turn stands among the others, in the order of packets: no recording can be made
//! whose packets take more than O(log n) looks each.
//!
//! There are few slots while few packets are remembered, so that they stay in the processor's cache. With
//! more packets they are doubled: what stands in a slot then stands in the first or the second of its two.
ghost use Rattle.std.specs.Prelude.{◌≡◌, ◌≤◌, ◌<◌, ◌-◌, ◌&&◌, nat_lt, ℕ, true, Some, None, OnOk, OnErr, length};
ghost use Rattle.std.specs.Prelude.{if◌then◌else◌, IsSome, slice_index_or, slice_set};
ghost use Rattle.std.specs.Option.{is_none};
ghost use Rattle.std.specs.BTreeMap as tree;
ghost use Rattle.recording_packets.specs.copies.Remembered.{is_same};
ghost use Rattle.recording_packets.specs.copies.Owned.{packet_of};
ghost use Rattle.recording_packets.specs.copies.Slots.{is_crowded, is_place, place_in, shared_cmp, slot_of};
ghost use Rattle.recording_packets.specs.copies.Slots.{turn_at, turn_in, with_turn};
ghost use Rattle.recording_packets.specs.declared.copies.owned.SharedPacket.{SharedPacket};

use crate::copies::doubling::double;
use crate::copies::owned::SharedPacket;
use std::alloc::{AllocError, Global};
use std::collections::BTreeMap;

/// How many slots there are at first.
pub(crate) const FIRST_SLOTS: u64 = 256;

/// How many of a mark's 64 bits do not tell its slot, while there are the first slots.
pub(crate) const FIRST_SHIFT: u32 = 56;

/// The same while there are the most slots, 65,536: as many as packets are remembered at most.
pub(crate) const LEAST_SHIFT: u32 = 48;

/// How many slots there are at least for each packet, until there are the most.
pub(crate) const SLOTS_PER_PACKET: u64 = 16;

/// The turn of a packet.
#[derive(Drop)]
pub(crate) struct Place {
    pub(crate) packet: SharedPacket,
    pub(crate) turn: u64,
}

/// The turns of packets: no slot is there before the first turn is put in.
#[derive(Drop)]
pub(crate) struct Turns {
    pub(crate) alloc: Global,
    pub(crate) slots: Vec<Option<Place>>,
    /// How many of a mark's bits do not tell its slot.
    pub(crate) shift: u32,
    pub(crate) others: BTreeMap<SharedPacket, u64>,
    /// How many packets have turns, by which the number of slots is chosen.
    pub(crate) packets: u64,
}

impl Turns {
    /// No packet has a turn.
    pub(crate) fn new(alloc: Global) -> Turns
        ensures { (q : SharedPacket) → turn_in result q ≡ None }
    {
        Turns {
            alloc,
            slots: Vec::new(alloc),
            shift: FIRST_SHIFT,
            others: BTreeMap::new(alloc),
            packets: 0,
        }
    }

    /// The turn of a packet.
    pub(crate) fn get(&self, packet: &SharedPacket) -> Option<u64>
        ensures { result ≡ turn_in self.now packet.now }
    {
        match self.turn_in_slot(packet) {
            Some(turn) => Some(turn),
            None => other_turn(&self.others, packet),
        }
    }

    /// The turn of a packet whose turn stands in its slot.
    fn turn_in_slot(&self, packet: &SharedPacket) -> Option<u64>
        ensures { result ≡ turn_at (place_in self.now packet.now) packet.now }
    {
        match self.slots.get(slot_of(self.shift, packet)) {
            Some(Some(place)) if place.packet.is_same(packet) => Some(place.turn),
            _ => None,
        }
    }

    /// Gives a turn to a packet that has none.
    pub(crate) fn insert(&mut self, packet: SharedPacket, turn: u64) -> Result<(), AllocError>
        requires { turn_in self.old packet ≡ None }
        ensures ok { OnOk result ((q : SharedPacket) → turn_in self.new q
            ≡ (if is_same (packet_of packet.owned.value) (packet_of q.owned.value) then Some turn
            else turn_in self.old q)) }
        ensures err { OnErr result ((q : SharedPacket) → turn_in self.new q ≡ turn_in self.old q) }
    {
        self.packets = self.packets.saturating_add(1);
        self.make_room()?;
        let slot = slot_of(self.shift, &packet);
        if is_free(&self.slots, slot) {
            put_in(&mut self.slots, slot, Some(Place { packet, turn }));
        } else {
            self.others.insert(packet, turn)?;
        }
        Ok(())
    }

    /// Makes the first slots, or twice as many where they are few for so many packets.
    fn make_room(&mut self) -> Result<(), AllocError>
        ensures same { (q : SharedPacket) → turn_in self.new q ≡ turn_in self.old q }
        ensures there { OnOk result (FIRST_SLOTS ≤ length self.new.slots.items) }
        ensures shift { OnOk result (self.new.shift ≡ (if is_crowded self.old.shift self.old.packets
            then self.old.shift - 1 else self.old.shift)) }
    {
        make_slots(&mut self.slots)?;
        if !is_crowded(self.shift, self.packets) {
            return Ok(());
        }
        double(self.alloc, &mut self.slots, self.shift - 1)?;
        self.shift -= 1;
        Ok(())
    }

    /// Gives another turn to a packet that has one.
    pub(crate) fn set(&mut self, packet: &SharedPacket, turn: u64)
        requires { IsSome (turn_in self.old packet.now) }
        ensures { (q : SharedPacket) → turn_in self.new q
            ≡ (if is_same (packet_of packet.now.owned.value) (packet_of q.owned.value) then Some turn
            else turn_in self.old q) }
    {
        let slot = slot_of(self.shift, packet);
        if self.turn_in_slot(packet).is_some() {
            set_turn(&mut self.slots, slot, turn);
        } else {
            set_other(&mut self.others, packet, turn);
        }
    }

    /// Takes out a packet, which alone has this turn.
    pub(crate) fn remove(&mut self, packet: &SharedPacket, turn: u64)
        requires present { turn_in self.old packet.now ≡ Some turn }
        requires alone { (q : SharedPacket) → turn_in self.old q ≡ Some turn
            → packet_of q.owned.value ≡ packet_of packet.now.owned.value }
        ensures { (q : SharedPacket) → turn_in self.new q
            ≡ (if is_same (packet_of packet.now.owned.value) (packet_of q.owned.value) then None
            else turn_in self.old q) }
    {
        self.packets = self.packets.saturating_sub(1);
        remove_other(&mut self.others, packet);
        let slot = slot_of(self.shift, packet);
        if has_turn(&self.slots, slot, packet.mark, turn) {
            put_in(&mut self.slots, slot, None);
        }
    }
}

/// The slot of a packet: the highest bits of its mark.
pub(crate) fn slot_of(shift: u32, packet: &SharedPacket) -> usize
    ensures { result ≡ slot_of shift packet.now }
{
    packet.mark.wrapping_shr(shift) as usize
}

/// Whether the slots are few for so many packets, and are to be doubled.
fn is_crowded(shift: u32, packets: u64) -> bool
    ensures { result ≡ is_crowded shift packets }
{
    LEAST_SHIFT < shift
        && shift <= FIRST_SHIFT
        && u64::MAX.wrapping_shr(shift) / SLOTS_PER_PACKET < packets
}

/// Makes those of the first slots that are not there. Nothing stands in them.
fn make_slots(slots: &mut Vec<Option<Place>>) -> Result<(), AllocError>
    ensures same { (i : ℕ) → slice_index_or slots.new.items i None
        ≡ slice_index_or slots.old.items i None }
    ensures there { OnOk result (FIRST_SLOTS ≤ length slots.new.items) }
{
    while (slots.len() as u64) < FIRST_SLOTS {
        slots.push(None)?;
    }
    Ok(())
}

/// Whether a slot is there, and nothing stands in it.
fn is_free(slots: &[Option<Place>], slot: usize) -> bool
    ensures { result ≡ (nat_lt slot (length slots.now) && is_none (slice_index_or slots.now slot None)) }
{
    slot < slots.len() && slots[slot].is_none()
}

/// Whether a packet with this mark stands in a slot at this turn.
fn has_turn(slots: &[Option<Place>], slot: usize, mark: u64, turn: u64) -> bool
    ensures value { result ≡ is_place mark turn (slice_index_or slots.now slot None) }
    ensures there { result ≡ true → slot < length slots.now }
{
    match slots.get(slot) {
        Some(Some(place)) => place.packet.mark == mark && place.turn == turn,
        _ => false,
    }
}

/// Puts something in a slot, in place of what stood there.
fn put_in(slots: &mut Vec<Option<Place>>, slot: usize, place: Option<Place>)
    requires { slot < length slots.old.items }
    ensures { slots.new.items ≡ slice_set slots.old.items slot place }
{
    slots[slot] = place;
}

/// Gives another turn to the packet in a slot.
fn set_turn(slots: &mut Vec<Option<Place>>, slot: usize, turn: u64)
    requires { slot < length slots.old.items }
    ensures { slots.new.items ≡ slice_set slots.old.items slot
        (with_turn turn (slice_index_or slots.old.items slot None)) }
{
    if let Some(place) = &mut slots[slot] {
        place.turn = turn;
    }
}

/// The turn of a packet among the others. Mostly there are none.
fn other_turn(others: &BTreeMap<SharedPacket, u64>, packet: &SharedPacket) -> Option<u64>
    ensures { result ≡ tree.get shared_cmp others.now packet.now }
{
    if others.is_empty() {
        return None;
    }
    others.get(packet).copied()
}

/// Takes out a packet among the others.
fn remove_other(others: &mut BTreeMap<SharedPacket, u64>, packet: &SharedPacket)
    ensures { (q : SharedPacket) → tree.get shared_cmp others.new q
        ≡ (if tree.is_at (shared_cmp packet.now) q then None
        else tree.get shared_cmp others.old q) }
{
    if !others.is_empty() {
        others.remove(packet);
    }
}

/// Gives another turn to a packet among the others.
fn set_other(others: &mut BTreeMap<SharedPacket, u64>, packet: &SharedPacket, turn: u64)
    requires { IsSome (tree.get shared_cmp others.old packet.now) }
    ensures { (q : SharedPacket) → tree.get shared_cmp others.new q
        ≡ (if tree.is_at (shared_cmp packet.now) q then Some turn
        else tree.get shared_cmp others.old q) }
{
    if let Some(place) = others.get_mut(packet) {
        *place = turn;
    }
}
