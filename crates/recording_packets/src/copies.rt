//! Packets that a mirrored tap recorded twice, told apart from those that were sent twice.
//!
//! A packet is a copy where the same packet was seen a short time before: source, destination,
//! identification, fragment field, protocol and payload are equal. A sender gives each packet an
//! identification of its own (RFC 791, 3.2), so what is sent twice mostly differs in it. Where
//! Don't Fragment is set, it may stand still (RFC 6864, 4.1): what is sent twice with one payload
//! is then told apart by the window alone, so take a short one.
//!
//! - [`Copies`]: what is remembered of a recording, packet by packet;
//! - [`BUDGET`] and [`PACKET_COST`]: how much that may be;
//! - [`laws`]: what the definitions behind the contracts promise.
//!
//! How packets are kept. Each stands once, with its payload, at the turn in which it was seen last; the
//! turns rise, so in their queue the oldest stands first. Beside that stand the turns by packet: mostly
//! in a slot by the packet's digest, where one look finds it. Where another packet has the slot, the
//! turn stands in the order of packets, and takes O(log n) looks. So no recording can be made against
//! the digests.
ghost use Rattle.std.specs.Prelude.{◌≡◌, [], IfOk, OnOk, OnErr};
ghost use Rattle.recording.specs.View.{view_ipv4};
ghost use Rattle.recording_packets.specs.copies.Remembered.{after, is_copy};

mod doubling;
pub mod laws;
mod owned;
mod sightings;
mod tables;
mod turns;

use crate::copies::owned::SharedPacket;
use crate::copies::sightings::{Sighting, Sightings};
use crate::copies::tables::{cost_of, forget, is_recent, note};
use crate::copies::turns::Turns;
use recording::Ipv4Packet;
use std::alloc::{AllocError, Global};
use std::marker::Model;

/// The most that is remembered, in bytes: 16 MiB.
pub const BUDGET: u64 = 16_777_216;

/// What a remembered packet counts beside its payload, in bytes: two blocks of memory, and its
/// places in the two tables. Some 180 to 210 were taken, with payloads of 12 to 1400 bytes.
pub const PACKET_COST: u64 = 256;

/// What is remembered of a recording, to tell a copy of a packet when it comes.
#[derive(Drop)]
pub struct Copies {
    alloc: Global,
    window: u64,
    sightings: Sightings,
    turns: Turns,
    cost: u64,
}

impl Model for Copies {
    ghost use Rattle.recording_packets.specs.copies.Remembered.{Memory};
    ghost use Rattle.recording_packets.specs.copies.Tables.{memory_of, IsKept};

    ghost Value = { Memory };

    ghost view = { λ c. memory_of c.window c.sightings.entries };

    ghost invariant = { λ c. IsKept c.sightings c.turns c.cost };
}

impl Copies {
    /// Nothing is remembered yet. A copy comes at most `window` nanoseconds after the packet.
    pub fn new(alloc: Global, window: u64) -> Copies
        ensures { result ≡ record { window = window; remembered = [] } }
    {
        Copies {
            alloc,
            window,
            sightings: Sightings::new(alloc),
            turns: Turns::new(alloc),
            cost: 0,
        }
    }

    /// Whether a packet is a copy, and remembers it. `now` is the recording's clock in nanoseconds;
    /// a packet that was seen after it counts as seen now. The oldest packets are forgotten once
    /// they are out of the window, and where the budget does not hold all. Out of memory leaves all
    /// as it was.
    pub fn sees(&mut self, now: u64, packet: &Ipv4Packet) -> Result<bool, AllocError>
        ensures copy { IfOk result (λ copy. copy
            ≡ is_copy self.old.window now (view_ipv4 packet.now) self.old.remembered) }
        ensures after { OnOk result (self.new ≡ record self.old {
          remembered = after self.old.window now (view_ipv4 packet.now) self.old.remembered;
        }) }
        ensures err { OnErr result (self.new ≡ self.old) }
    {
        let packet = SharedPacket::new(self.alloc, packet)?;
        let cost = cost_of(&packet);
        let sighting = Sighting {
            moment: now,
            packet,
        };
        let earlier = note(&mut self.sightings, &mut self.turns, sighting)?;
        let cost = if earlier.is_some() {
            self.cost
        } else {
            self.cost + cost
        };
        self.cost = forget(&mut self.sightings, &mut self.turns, cost, self.window, now);
        Ok(is_recent(self.window, now, earlier))
    }
}
