//! IPv4 fragments are put together (RFC 791, sections 2.3 and 3.2).
//!
//! - [`Fragments`]: the packets that came in part; what a fragment makes of them is
//!   [`Fragments::offer`];
//! - [`HeldFragments`]: what is held of one of them;
//! - [`GivenUp`]: how many fragments were given up;
//! - [`PacketKey`]: what tells the fragments of one packet from those of another;
//! - [`laws`]: what the definitions behind the contracts promise.
//!
//! How packets are kept. Each has its bytes up to the last one that is known, and beside each byte
//! whether it is known (`cells`). So an offer looks at each key once and at each byte of its
//! fragment twice, and makes room up to the end of the fragment where there is none. Whether a
//! packet is whole is seen by the count of its known bytes.
//!
//! What can fail for want of memory comes first: a fragment is put to its packet, and only then
//! packets are given up. So a failed offer leaves all as it was.
ghost use Rattle.std.specs.Prelude.{◌≡◌, ◌≤◌, ◌<◌, ◌+◌, ◌^◌, OnOk, OnErr, IfOk, is_some};
ghost use Rattle.std.specs.Prelude.{option_map};
ghost use Rattle.recording.specs.View.{view_ipv4};
ghost use Rattle.recording_packets.specs.fragments.Parts.{held_under};
ghost use Rattle.recording_packets.specs.fragments.Stores.{nothing_held, offered, all_fragments};
ghost use Rattle.recording_packets.specs.fragments.Takings.{alone, differing, payload_in};

mod cells;
pub mod laws;
mod partial;
mod parts;
mod piece;

use partial::Partial;
use parts::{Taken, count, expire, held_under, push_out, take_in};
pub use piece::PacketKey;
use piece::Piece;
use recording::Ipv4Packet;
use std::alloc::{AllocError, Global};
use std::marker::Model;

/// How many fragments were given up.
#[derive(Clone, Copy, Debug, PartialEq, Eq)]
pub struct GivenUp {
    /// Those of which the rest of the packet did not come.
    pub without_rest: u64,
    /// Those of packets of which two fragments differ.
    pub that_differ: u64,
}

/// The fragments that are held of a packet.
#[derive(Clone, Copy, Debug, PartialEq, Eq)]
pub struct HeldFragments {
    /// When the first of them came, in nanoseconds.
    pub first: u64,
    /// How many came.
    pub count: u64,
}

/// The packets that came in part: 64 at most, of at most 65,535 bytes of payload each, and each for
/// at most 30 seconds after its first fragment.
#[derive(Drop)]
pub struct Fragments {
    alloc: Global,
    parts: Vec<Partial>,
    whole: Option<Vec<u8>>,
    without_rest: u64,
    that_differ: u64,
}

impl Model for Fragments {
    ghost use Rattle.std.specs.Prelude.{option_map};
    ghost use Rattle.recording_packets.specs.fragments.Stores.{Store};
    ghost use Rattle.recording_packets.specs.fragments.Views.{coded_store};

    ghost Value = { Store };

    ghost coded = { coded_store };

    ghost view = { λ s. record {
      parts = s.parts.items;
      whole = option_map (λ payload. payload.items) s.whole;
      without_rest = s.without_rest;
      that_differ = s.that_differ;
    } };
}

impl Fragments {
    ghost use Rattle.recording_packets.specs.fragments.Totals.{given_up_by};

    /// No packet is held.
    pub fn new(alloc: Global) -> Fragments
        ensures { result ≡ nothing_held }
    {
        Fragments {
            alloc,
            parts: Vec::new(alloc),
            whole: None,
            without_rest: 0,
            that_differ: 0,
        }
    }

    /// Takes a fragment that was recorded at `now`, in nanoseconds. Tells whether the payload of
    /// its packet is whole by it: [`Fragments::whole`] has it until the next offer, and it is no
    /// longer held.
    ///
    /// Packets whose first fragment came more than 30 seconds before are given up first. A clock
    /// that falls gives up none.
    pub fn offer(&mut self, now: u64, packet: &Ipv4Packet<'_>) -> Result<bool, AllocError>
        requires countable { all_fragments self.old + 1 < 2 ^ 64 }
        ensures ok { OnOk result (self.new ≡ offered now (view_ipv4 packet.now) self.old) }
        ensures told { IfOk result (λ is_whole. is_whole ≡ is_some self.new.whole) }
        ensures err { OnErr result (self.new ≡ self.old) }
        // So that the next one is countable too.
        ensures counted { all_fragments self.new ≤ all_fragments self.old + 1 }
    {
        let key = PacketKey::new(packet);
        let taken = take_in(&mut self.parts, self.alloc, now, key, Piece::new(packet))?;
        self.without_rest += expire(&mut self.parts, now);
        self.whole = settle(taken, &mut self.without_rest, &mut self.that_differ);
        self.without_rest += push_out(&mut self.parts);
        Ok(self.whole.is_some())
    }

    /// The payload that became whole by the last fragment, if one did.
    pub fn whole(&self) -> Option<&[u8]>
        ensures { option_map (λ payload. payload.now) result ≡ self.now.whole }
    {
        match &self.whole {
            Some(payload) => Some(payload),
            None => None,
        }
    }

    /// The fragments that are held of the packet with a key, if any are.
    pub fn held(&self, key: &PacketKey) -> Option<HeldFragments>
        ensures { result ≡ held_under key.now self.now.parts }
    {
        held_under(&self.parts, key)
    }

    /// How many fragments were given up, with those that are held: the rest does not come after the
    /// end.
    pub fn given_up(&self) -> GivenUp
        requires { all_fragments self.now < 2 ^ 64 }
        ensures { result ≡ given_up_by self.now }
    {
        GivenUp {
            without_rest: self.without_rest + count(&self.parts),
            that_differ: self.that_differ,
        }
    }
}

/// Counts the fragments that a piece makes given up, and gives the payload that is whole by it.
fn settle(taken: Taken, without_rest: &mut u64, that_differ: &mut u64) -> Option<Vec<u8>>
    requires rest { without_rest.old + alone taken < 2 ^ 64 }
    requires differ { that_differ.old + differing taken < 2 ^ 64 }
    ensures rest { without_rest.new ≡ without_rest.old + alone taken }
    ensures differ { that_differ.new ≡ that_differ.old + differing taken }
    ensures whole { option_map (λ payload. payload.items) result ≡ payload_in taken }
{
    match taken {
        Taken::TooLong => {
            *without_rest += 1;
            None
        }
        Taken::Differs(fragments) => {
            *that_differ += fragments;
            None
        }
        Taken::InPart => None,
        Taken::Whole(payload) => Some(payload),
    }
}
