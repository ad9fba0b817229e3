//! Reassembly: messages are put together from their segments (SOME/IP Protocol, "SOME/IP-TP").
ghost use Rattle.std.specs.Prelude.{◌≡◌, ◌≢◌, ◌≤◌, ◌++◌, ◌%◌, ℕ, [], IfOk, IfErr, OnOk, OnErr, is_ok, is_some, unwrap_or, true};
ghost use Rattle.std.specs.FinMap as map;
ghost use Rattle.someip_reassembly.specs.Parts.{Limits, NoneAfter, parts_at};
ghost use Rattle.someip_reassembly.specs.SegmentOffers.{offer, judgement, parts_after, message_at, parts_less};

use crate::TpError;
use crate::key::ReassemblyKey;
use std::alloc::Global;

/// What an accepted segment made of its message.
#[derive(Clone, Copy, Debug, PartialEq, Eq)]
pub enum Offered {
    /// Bytes of the message, or its total, are still to come.
    Part,
    /// The message is whole and can be taken.
    Whole,
}

/// A store of messages that have come in part, each under its reassembly key.
///
/// Contracts see a map from keys to parts: the bytes at their places, the total if it is known, and
/// the moment of the last segment. Moments are the caller's, in milliseconds.
pub trait Reassembly: Drop {
    ghost use Rattle.std.specs.FinMap as map;
    ghost use Rattle.someip_reassembly.specs.Parts.{Limits, Parts};

    /// The parts that it holds, however they are kept.
    ghost parts: { Self → Parts };

    /// What bounds it.
    ghost limits: { Self → Limits };

    /// A store without parts. It holds at most `slots` parts, none with a byte at or past `limit`,
    /// and a part stands for less than `timeout` milliseconds after its last segment.
    ///
    /// The only error is `OutOfMemory`.
    fn make(alloc: Global, slots: usize, limit: usize, timeout: u64) -> Result<Self, TpError>
        ensures parts { IfOk result (λ store. parts store ≡ map.empty) }
        ensures limits { IfOk result (λ store. limits store
            ≡ record { slots = slots; limit = limit; timeout = timeout }) }
        // No part has a segment after any moment.
        ensures moments { IfOk result (λ store. (at : ℕ) → NoneAfter at (parts store)) }
        ensures err { IfErr result (λ error. error ≡ TpError.OutOfMemory) };

    /// Offers a segment: its message's key, its offset in bytes, More Segments, and its slice.
    ///
    /// First all parts go whose time is over at `now`. The errors are `Unaligned`, `TooLong`, `NoSlot`
    /// and `Conflict`, in this order, and for an accepted segment `OutOfMemory`.
    fn offer(
        &mut self,
        key: ReassemblyKey,
        offset: u32,
        more: bool,
        bytes: &[u8],
        now: u64,
    ) -> Result<Offered, TpError>
        requires aligned { offset % 16 ≡ 0 }
        requires moments { NoneAfter now (parts self.old) }
        ensures judged { result ≢ Err TpError.OutOfMemory
            → result ≡ judgement (limits self.old) now (offer key offset more bytes.now) (parts self.old) }
        ensures parts { result ≢ Err TpError.OutOfMemory
            → parts self.new ≡ parts_after (limits self.old) now (offer key offset more bytes.now) (parts self.old) }
        // Memory can only run out for a segment that is to be accepted, and then it is not kept.
        ensures wanting { result ≡ Err TpError.OutOfMemory
            → is_ok (judgement (limits self.old) now (offer key offset more bytes.now) (parts self.old)) ≡ true }
        ensures out_of_memory { result ≡ Err TpError.OutOfMemory
            → parts self.new ≡ parts_at (limits self.old) now (parts self.old) }
        // A caller whose moments never fall may offer again at each later moment.
        ensures moments { (at : ℕ) → now ≤ at → NoneAfter at (parts self.old)
            → NoneAfter at (parts self.new) }
        ensures limits { limits self.new ≡ limits self.old };

    /// Whether the message under the key is whole. If it is, its bytes are appended and its slot is
    /// free.
    ///
    /// The only error is `OutOfMemory`, which comes only where the message is whole, and leaves all as
    /// it was.
    fn take(&mut self, key: &ReassemblyKey, bytes: &mut Vec<u8>) -> Result<bool, TpError>
        ensures taken { IfOk result (λ taken. taken ≡ is_some (message_at (parts self.old) key.now)) }
        ensures bytes { OnOk result
            (bytes.new.items ≡ bytes.old.items ++ unwrap_or (message_at (parts self.old) key.now) []) }
        ensures parts { OnOk result (parts self.new ≡ parts_less (parts self.old) key.now) }
        ensures err { IfErr result (λ error. error ≡ TpError.OutOfMemory) }
        // Memory can only run out for a message that is whole.
        ensures wanting { OnErr result (is_some (message_at (parts self.old) key.now) ≡ true) }
        ensures unchanged { OnErr result
            ((parts self.new ≡ parts self.old) × (bytes.new.items ≡ bytes.old.items)) }
        ensures moments { (at : ℕ) → NoneAfter at (parts self.old) → NoneAfter at (parts self.new) }
        ensures limits { limits self.new ≡ limits self.old };

    /// Drops all parts whose time is over at `now`.
    fn expire(&mut self, now: u64)
        ensures parts { parts self.new ≡ parts_at (limits self.old) now (parts self.old) }
        ensures moments { (at : ℕ) → NoneAfter at (parts self.old) → NoneAfter at (parts self.new) }
        ensures limits { limits self.new ≡ limits self.old };

    /// Drops all parts.
    fn clear(&mut self)
        ensures parts { parts self.new ≡ map.empty }
        ensures moments { (at : ℕ) → NoneAfter at (parts self.new) }
        ensures limits { limits self.new ≡ limits self.old };
}
