//! One message that has come in part.
ghost use Rattle.std.specs.Prelude.{◌≡◌, ◌+◌, ◌++◌, ◌<◌, None, [], false, true, Some, OnOk, OnErr, is_some, unwrap_or};
ghost use Rattle.std.specs.FinMap.{get};
ghost use Rattle.someip_reassembly.specs.Keys.{same_key};
ghost use Rattle.someip_reassembly.specs.Parts.{is_gone};
ghost use Rattle.someip_reassembly.specs.SegmentOffers.{offer, no_part, placed, added, passes, differ, conflicts, with_offer, message_of};
ghost use Rattle.someip_reassembly.specs.Slices.{bytes_in, byte_at, AreOneText, AreInOrder, Agree};

use crate::key::{ReassemblyKey, is_same};
use crate::slices::{Slice, append_front, clash, covered, index_for, reach};
use crate::totals::{differ, passes, total_of, total_with};
use std::alloc::{AllocError, Global};
use std::marker::Model;

/// A message that has come in part: its accepted slices, its total if the last one is among them,
/// and when the latest was accepted.
#[derive(Drop)]
pub(crate) struct Partial {
    key: ReassemblyKey,
    slices: Vec<Slice>,
    total: Option<usize>,
    last: u64,
}

impl Model for Partial {
    ghost use Rattle.someip_reassembly.specs.Partials.{Entry, coded_entry, view_partial, IsSound};

    ghost Value = { Entry };

    ghost coded = { coded_entry };

    ghost view = { view_partial };

    ghost invariant = { IsSound };
}

impl Partial {
    /// A part of which nothing has come.
    pub(crate) fn new(alloc: Global, key: ReassemblyKey) -> Partial
        ensures { result ≡ (key, no_part) }
    {
        Partial {
            key,
            slices: Vec::new(alloc),
            total: None,
            last: 0,
        }
    }

    /// Whether it is the part of this key.
    pub(crate) fn is_for(&self, key: &ReassemblyKey) -> bool
        ensures { result ≡ same_key key.now self.now.0 }
    {
        is_same(key, &self.key)
    }

    /// Whether its time is over at `now`.
    pub(crate) fn is_gone(&self, timeout: u64, now: u64) -> bool
        ensures { result ≡ is_gone timeout now self.now.1 }
    {
        match now.checked_sub(self.last) {
            Some(age) => age >= timeout,
            None => false,
        }
    }

    /// Whether a segment contradicts what has come.
    pub(crate) fn contradicts(&self, offset: u32, more: bool, bytes: &[u8]) -> bool
        ensures { result ≡ conflicts self.now.1 (offer self.now.0 offset more bytes.now) }
    {
        let told = total_of(offset, more, bytes);
        clash(&self.slices, offset, bytes)
            || passes(self.total, offset, bytes)
            || differ(self.total, told)
            || reach(&self.slices, told)
    }

    /// Keeps the slice of a segment that contradicts nothing.
    pub(crate) fn accept(
        &mut self,
        alloc: Global,
        offset: u32,
        more: bool,
        bytes: &[u8],
        now: u64,
    ) -> Result<(), AllocError>
        requires { conflicts self.old.1 (offer self.old.0 offset more bytes.now) ≡ false }
        ensures ok { OnOk result (self.new
            ≡ (self.old.0, with_offer self.old.1 now (offer self.old.0 offset more bytes.now))) }
        ensures err { OnErr result (self.new ≡ self.old) }
    {
        put(&mut self.slices, alloc, offset, bytes)?;
        self.total = total_with(self.total, offset, more, bytes);
        self.last = now;
        Ok(())
    }

    /// Whether the message is whole.
    pub(crate) fn is_whole(&self) -> bool
        ensures { result ≡ is_some (message_of self.now.1) }
    {
        match self.total {
            Some(total) => covered(&self.slices) == total,
            None => false,
        }
    }

    /// Appends the bytes of a whole message.
    pub(crate) fn append_message(&self, bytes: &mut Vec<u8>) -> Result<(), AllocError>
        requires { is_some (message_of self.now.1) ≡ true }
        ensures ok { OnOk result
            (bytes.new.items ≡ bytes.old.items ++ unwrap_or (message_of self.now.1) []) }
        ensures err { OnErr result (bytes.new.items ≡ bytes.old.items) }
    {
        append_front(&self.slices, bytes)
    }
}

/// Puts a slice among those that were accepted, by its offset.
fn put(slices: &mut Vec<Slice>, alloc: Global, offset: u32, bytes: &[u8]) -> Result<(), AllocError>
    requires one_text { AreOneText slices.old.items }
    requires in_order { AreInOrder slices.old.items }
    requires agree { Agree (get (bytes_in slices.old.items)) (byte_at offset bytes.now) }
    ensures one_text { AreOneText slices.new.items }
    ensures in_order { AreInOrder slices.new.items }
    ensures ok { OnOk result
        (bytes_in slices.new.items ≡ added (bytes_in slices.old.items) (placed offset bytes.now)) }
    ensures err { OnErr result (slices.new.items ≡ slices.old.items) }
{
    let mut kept = Vec::new(alloc);
    kept.extend_from_slice(bytes)?;
    let at = index_for(slices, offset);
    slices.insert(
        at,
        Slice {
            offset,
            bytes: kept,
        },
    )?;
    Ok(())
}
