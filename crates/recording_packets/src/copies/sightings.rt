//! What is remembered, by turn.
//!
//! The turns stand in a queue. Where a packet is seen again its earlier turn stays as a gap, until it
//! comes to the front, or there are [`MOST_TURNS`] turns.
ghost use Rattle.std.specs.Prelude.{◌≡◌, ◌+◌, ◌<◌, ℕ, [], ◌∷◌, ◌++◌, length, false, None};
ghost use Rattle.std.specs.Prelude.{IfSome, IfNone, OnOk, OnErr, slice_set};
ghost use Rattle.std.specs.Prelude.{option_map, option_copied, slice_get};
ghost use Rattle.std.specs.Map.{lookup, remove_entry};
ghost use Rattle.std.specs.BTreeMap.{is_at};
ghost use Rattle.std.specs.Ordering.{nat_cmp};
ghost use Rattle.recording_packets.specs.copies.Queues.{AreBelow, IsRising, StandsAt, entries_in};
ghost use Rattle.recording_packets.specs.copies.Queues.{starts_with_gap};
ghost use Rattle.recording_packets.specs.declared.copies.sightings.Turn.{Turn};

use crate::copies::owned::SharedPacket;
use std::alloc::{AllocError, Global};
use std::collections::VecDeque;
use std::marker::Model;

/// With so many turns in the queue its gaps are closed. No more than 65,536 packets are remembered, so
/// this is once in 196,608 packets at most.
const MOST_TURNS: usize = 262_144;

/// A packet that was seen, and the moment, in nanoseconds, at which it was seen last.
#[derive(Drop)]
pub(crate) struct Sighting {
    pub(crate) moment: u64,
    pub(crate) packet: SharedPacket,
}

/// A turn, with its sighting or as a gap.
#[derive(Drop)]
pub(crate) struct Turn {
    pub(crate) number: u64,
    pub(crate) sighting: Option<Sighting>,
}

/// The sightings by turn: the turn of each is above those before it. The first turn is no gap.
#[derive(Drop)]
pub(crate) struct Sightings {
    queue: VecDeque<Turn>,
    next: u64,
}

impl Model for Sightings {
    ghost use Rattle.recording_packets.specs.copies.Queues.{Row, AreBelow, IsRising, entries_in};
    ghost use Rattle.recording_packets.specs.copies.Queues.{starts_with_gap};
    ghost use Rattle.std.specs.Prelude.{◌≡◌, false};

    ghost Value = { Row };

    ghost view = { λ s. record { next = s.next; entries = entries_in s.queue.items } };

    ghost invariant = { λ s. IsRising s.queue.items × AreBelow s.next s.queue.items
        × (starts_with_gap s.queue.items ≡ false) };
}

impl Sightings {
    /// Nothing is remembered.
    pub(crate) fn new(alloc: Global) -> Sightings
        ensures { result ≡ record { next = 0; entries = [] } }
    {
        Sightings {
            queue: VecDeque::new(alloc),
            next: 0,
        }
    }

    /// The next turn.
    pub(crate) fn next(&self) -> u64
        ensures { result ≡ self.now.next }
    {
        self.next
    }

    /// What has a turn.
    pub(crate) fn get(&self, turn: u64) -> Option<&Sighting>
        ensures { option_copied result ≡ lookup (is_at (nat_cmp turn)) self.now.entries }
    {
        let i = place_of(&self.queue, turn)?;
        self.queue.get(i)?.sighting.as_ref()
    }

    /// Gives the next turn to a sighting. Out of memory leaves all as it was.
    pub(crate) fn push(&mut self, sighting: Sighting) -> Result<(), AllocError>
        ensures ok { OnOk result (self.new ≡ record {
          next = self.old.next + 1;
          entries = self.old.entries ++ (self.old.next, sighting) ∷ [];
        }) }
        ensures err { OnErr result (self.new ≡ self.old) }
    {
        // No recording has 2^64 packets.
        let following = self.next.checked_add(1).ok_or(AllocError)?;
        close_gaps(&mut self.queue);
        self.queue.push_back(Turn {
            number: self.next,
            sighting: Some(sighting),
        })?;
        self.next = following;
        Ok(())
    }

    /// Takes out what has a turn.
    pub(crate) fn remove(&mut self, turn: u64)
        ensures { self.new ≡ record self.old {
          entries = remove_entry (is_at (nat_cmp turn)) self.old.entries;
        } }
    {
        if let Some(i) = place_of(&self.queue, turn) {
            make_gap(&mut self.queue, i, turn);
            trim(&mut self.queue);
        }
    }

    /// The oldest.
    pub(crate) fn first(&self) -> Option<&Sighting>
        ensures { option_copied result ≡ option_map (λ e. e.1) (slice_get self.now.entries 0) }
    {
        self.queue.front()?.sighting.as_ref()
    }

    /// Takes out the oldest, and tells it with its turn.
    pub(crate) fn pop_first(&mut self) -> Option<(u64, Sighting)>
        ensures first { IfSome result (λ e. self.old.entries ≡ e ∷ self.new.entries) }
        ensures none { IfNone result (self.old.entries ≡ []) }
        ensures left { IfNone result (self.new ≡ self.old) }
        ensures next { self.new.next ≡ self.old.next }
    {
        let oldest = self.queue.pop_front()?;
        trim(&mut self.queue);
        Some((oldest.number, oldest.sighting?))
    }
}

/// The place of a turn in the queue.
fn place_of(queue: &VecDeque<Turn>, turn: u64) -> Option<usize>
    requires { IsRising queue.now.items }
    ensures found { IfSome result (λ i. StandsAt turn i queue.now.items) }
    ensures none { IfNone result
        (lookup (is_at (nat_cmp turn)) (entries_in queue.now.items) ≡ None) }
{
    let i = queue.partition_point(|other| other.number < turn);
    match queue.get(i) {
        Some(other) if other.number == turn => Some(i),
        _ => None,
    }
}

/// Makes a turn a gap.
fn make_gap(queue: &mut VecDeque<Turn>, i: usize, turn: u64)
    requires { i < length queue.old.items }
    ensures { queue.new.items
        ≡ slice_set queue.old.items i (record { number = turn; sighting = None }) }
{
    if let Some(place) = queue.get_mut(i) {
        *place = Turn {
            number: turn,
            sighting: None,
        };
    }
}

/// Leaves out all gaps, where there are too many turns.
fn close_gaps(queue: &mut VecDeque<Turn>)
    ensures same { entries_in queue.new.items ≡ entries_in queue.old.items }
    ensures rising { IsRising queue.old.items → IsRising queue.new.items }
    ensures below { (next : ℕ) → AreBelow next queue.old.items → AreBelow next queue.new.items }
    ensures front { starts_with_gap queue.old.items ≡ false
        → starts_with_gap queue.new.items ≡ false }
{
    if queue.len() >= MOST_TURNS {
        queue.retain(|turn| turn.sighting.is_some());
    }
}

/// Leaves out the gaps before the first sighting.
fn trim(queue: &mut VecDeque<Turn>)
    ensures same { entries_in queue.new.items ≡ entries_in queue.old.items }
    ensures rising { IsRising queue.old.items → IsRising queue.new.items }
    ensures below { (next : ℕ) → AreBelow next queue.old.items → AreBelow next queue.new.items }
    ensures trimmed { starts_with_gap queue.new.items ≡ false }
{
    while starts_with_gap(queue) {
        queue.pop_front();
    }
}

/// Whether the first turn is a gap.
fn starts_with_gap(queue: &VecDeque<Turn>) -> bool
    ensures { result ≡ starts_with_gap queue.now.items }
{
    queue.front().is_some_and(|first| first.sighting.is_none())
}
