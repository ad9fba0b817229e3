//! Reassembly by plain lists of accepted segments.

use crate::TpError;
use crate::key::ReassemblyKey;
use crate::partial::Partial;
use crate::partials::{Arrived, drop_gone, offer_to, take_from};
use crate::reassembly::{Offered, Reassembly};
use std::alloc::Global;
use std::marker::Model;

/// Reassembly in which each message that has come in part is the plain list of its accepted
/// segments, by rising offsets.
///
/// An offer looks at the moment and the key of each part at most three times, and at each segment of
/// its own message at most four times; no byte is looked at again but where slices lie over one
/// another.
#[derive(Drop)]
pub struct SegmentList {
    alloc: Global,
    slots: usize,
    limit: usize,
    timeout: u64,
    partials: Vec<Partial>,
}

impl Model for SegmentList {
    ghost use Rattle.std.specs.Prelude.{IsTrue};
    ghost use Rattle.someip_tables.specs.Distinct.{are_distinct};
    ghost use Rattle.someip_reassembly.specs.Keys.{key_cmp};
    ghost use Rattle.someip_reassembly.specs.Stores.{Store, coded_store, parts_of_entries};

    ghost Value = { Store };

    ghost coded = { coded_store };

    ghost view = { λ s. record {
      parts = parts_of_entries s.partials.items;
      limits = record { slots = s.slots; limit = s.limit; timeout = s.timeout };
    } };

    ghost invariant = { λ s. IsTrue (are_distinct key_cmp s.partials.items) };
}

impl Reassembly for SegmentList {
    ghost use Rattle.someip_reassembly.specs.Stores.{Store};

    ghost parts = { λ s. s.parts };

    ghost limits = { λ s. s.limits };

    fn make(
        alloc: Global,
        slots: usize,
        limit: usize,
        timeout: u64,
    ) -> Result<SegmentList, TpError> {
        Ok(SegmentList {
            alloc,
            slots,
            limit,
            timeout,
            partials: Vec::new(alloc),
        })
    }

    fn offer(
        &mut self,
        key: ReassemblyKey,
        offset: u32,
        more: bool,
        bytes: &[u8],
        now: u64,
    ) -> Result<Offered, TpError> {
        drop_gone(&mut self.partials, self.timeout, now);
        let arrived = Arrived {
            key,
            offset,
            more,
            bytes,
            now,
        };
        offer_to(
            &mut self.partials,
            self.alloc,
            self.slots,
            self.limit,
            arrived,
        )
    }

    fn take(&mut self, key: &ReassemblyKey, bytes: &mut Vec<u8>) -> Result<bool, TpError> {
        let taken = take_from(&mut self.partials, key, bytes)?;
        Ok(taken)
    }

    fn expire(&mut self, now: u64) {
        drop_gone(&mut self.partials, self.timeout, now);
    }

    fn clear(&mut self) {
        self.partials.clear();
    }
}
