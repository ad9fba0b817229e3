//! Reassembly in slots that are reserved once.
//!
//! `IntervalPool::offer` states its own clauses, which are stronger than those of the trait and imply them:
//! the judgement and the parts without the case that memory runs out.
ghost use Rattle.std.specs.Prelude.{◌≡◌, ◌≢◌, ◌≤◌, ◌%◌, ℕ, Err};
ghost use Rattle.someip_reassembly.specs.Parts.{NoneAfter};
ghost use Rattle.someip_reassembly.specs.SegmentOffers.{offer, judgement, parts_after};

use crate::pool::slots::Slots;
use someip_reassembly::{Arrived, Offered, Reassembly, ReassemblyKey, TpError};
use std::alloc::Global;
use std::marker::Model;

/// Reassembly in memory that is reserved once, when it is made: for each slot a buffer of the message
/// limit, and for each 32 of its places 16 bytes that tell which intervals of them are held. After
/// that only [`Reassembly::take`] takes memory, for the vector that it appends to: `offer` never
/// answers `OutOfMemory`, and no peer can make it grow.
///
/// A segment costs what its own bytes need, in any order of arrival: each 16 places of it are
/// compared where they are held, and joined to the intervals beside them. Besides, `offer` finds the
/// part of its key by a binary search, and looks at the moment of each part only where the time of one
/// may be over. A part that begins or goes moves those after it in the list.
#[derive(Drop)]
pub struct IntervalPool {
    slots: Slots,
    timeout: u64,
}

impl Model for IntervalPool {
    ghost use Rattle.someip_reassembly.specs.Stores.{Store, coded_store, parts_of_entries};
    ghost use Rattle.someip_tp.specs.Pools.{ArePooled, entries_in};

    ghost Value = { Store };

    ghost coded = { coded_store };

    ghost view = { λ s. record {
      parts = parts_of_entries (entries_in s.slots);
      limits = record { slots = s.slots.count; limit = s.slots.limit; timeout = s.timeout };
    } };

    ghost invariant = { λ s. ArePooled s.slots };
}

impl Reassembly for IntervalPool {
    ghost use Rattle.someip_reassembly.specs.Stores.{Store};

    ghost parts = { λ s. s.parts };

    ghost limits = { λ s. s.limits };

    fn make(
        alloc: Global,
        slots: usize,
        limit: usize,
        timeout: u64,
    ) -> Result<IntervalPool, TpError> {
        Ok(IntervalPool {
            slots: Slots::reserve(alloc, slots, limit)?,
            timeout,
        })
    }

    fn offer(
        &mut self,
        key: ReassemblyKey,
        offset: u32,
        more: bool,
        bytes: &[u8],
        now: u64,
    ) -> Result<Offered, TpError>
        requires aligned { offset % 16 ≡ 0 }
        requires moments { NoneAfter now self.old.parts }
        ensures judged { result
            ≡ judgement self.old.limits now (offer key offset more bytes.now) self.old.parts }
        ensures parts { self.new.parts
            ≡ parts_after self.old.limits now (offer key offset more bytes.now) self.old.parts }
        // No memory is taken, so none is wanting.
        ensures no_memory { result ≢ Err TpError.OutOfMemory }
        ensures moments { (at : ℕ) → now ≤ at → NoneAfter at self.old.parts
            → NoneAfter at self.new.parts }
        ensures limits { self.new.limits ≡ self.old.limits }
    {
        self.slots.free_gone(self.timeout, now);
        self.slots.offer(Arrived {
            key,
            offset,
            more,
            bytes,
            now,
        })
    }

    fn take(&mut self, key: &ReassemblyKey, bytes: &mut Vec<u8>) -> Result<bool, TpError> {
        let taken = self.slots.take(key, bytes)?;
        Ok(taken)
    }

    fn expire(&mut self, now: u64) {
        self.slots.free_gone(self.timeout, now);
    }

    fn clear(&mut self) {
        self.slots.free_all();
    }
}
