//! The messages that have come in part, one for each key.
ghost use Rattle.std.specs.Prelude.{ℕ, ◌≡◌, ◌++◌, ◌<◌, [], Some, None, OnOk, OnErr, IfOk, is_some, unwrap_or, not, true, false, filter, IsTrue};
ghost use Rattle.std.specs.FinMap as map;
ghost use Rattle.someip_tables.specs.Distinct.{are_distinct};
ghost use Rattle.someip_reassembly.specs.Keys.{key_cmp, same_key};
ghost use Rattle.someip_reassembly.specs.Parts.{is_gone};
ghost use Rattle.someip_reassembly.specs.SegmentOffers.{no_part, part_under, conflicts, with_offer, part_or_whole, message_at, parts_less};
ghost use Rattle.someip_reassembly.specs.Stores.{StandsAt, Offers, OffersAmong, segment_arrived, parts_of_entries};

use crate::TpError;
use crate::key::ReassemblyKey;
use crate::partial::Partial;
use crate::reassembly::Offered;
use std::alloc::{AllocError, Global};

/// A segment that arrived.
#[derive(Clone, Copy)]
pub struct Arrived<'a> {
    /// The key of its message.
    pub key: ReassemblyKey,
    /// Its offset in bytes, a multiple of 16.
    pub offset: u32,
    /// More Segments.
    pub more: bool,
    /// Its slice.
    pub bytes: &'a [u8],
    /// When it came, in milliseconds.
    pub now: u64,
}

/// Drops the parts whose time is over at `now`.
pub(crate) fn drop_gone(partials: &mut Vec<Partial>, timeout: u64, now: u64)
    ensures { partials.new.items ≡ filter (λ e. not (is_gone timeout now e.1)) partials.old.items }
{
    partials.retain(|partial| !partial.is_gone(timeout, now));
}

/// Drops the part of a key.
fn drop_key(partials: &mut Vec<Partial>, key: &ReassemblyKey)
    ensures { partials.new.items ≡ filter (λ e. not (same_key key.now e.0)) partials.old.items }
{
    partials.retain(|partial| !partial.is_for(key));
}

/// Where the part of a key stands.
fn position(partials: &[Partial], key: &ReassemblyKey) -> Option<usize>
    ensures { StandsAt key.now partials.now result }
{
    for (i, partial) in partials.iter().enumerate() {
        if partial.is_for(key) {
            return Some(i);
        }
    }
    None
}

/// Offers a segment to the parts that are left.
pub(crate) fn offer_to(
    partials: &mut Vec<Partial>,
    alloc: Global,
    slots: usize,
    limit: usize,
    arrived: Arrived<'_>,
) -> Result<Offered, TpError>
    requires { IsTrue (are_distinct key_cmp partials.old.items) }
    ensures distinct { IsTrue (are_distinct key_cmp partials.new.items) }
    ensures offers { (timeout : ℕ) → Offers
        (record { slots = slots; limit = limit; timeout = timeout }) arrived.entry.now
        (segment_arrived arrived.entry) (parts_of_entries partials.old.items) result
        (parts_of_entries partials.new.items) }
{
    let len = arrived.bytes.len();
    if arrived.more && len % 16 != 0 {
        return Err(TpError::Unaligned);
    }
    if arrived.offset as usize + len > limit {
        return Err(TpError::TooLong);
    }
    offer_among(partials, alloc, slots, arrived)
}

/// Offers a segment of fit length to the parts that are left.
fn offer_among(
    partials: &mut Vec<Partial>,
    alloc: Global,
    slots: usize,
    arrived: Arrived<'_>,
) -> Result<Offered, TpError>
    requires { IsTrue (are_distinct key_cmp partials.old.items) }
    ensures distinct { IsTrue (are_distinct key_cmp partials.new.items) }
    ensures offers { OffersAmong slots arrived.entry.now
        (segment_arrived arrived.entry)
        (parts_of_entries partials.old.items) result (parts_of_entries partials.new.items) }
{
    match position(partials, &arrived.key) {
        Some(i) => offer_at(partials, alloc, i, arrived),
        None => {
            if partials.len() >= slots {
                return Err(TpError::NoSlot);
            }
            let offered = offer_new(partials, alloc, arrived)?;
            Ok(offered)
        }
    }
}

/// Offers a segment to the part of its key, which stands at `i`.
fn offer_at(
    partials: &mut Vec<Partial>,
    alloc: Global,
    i: usize,
    arrived: Arrived<'_>,
) -> Result<Offered, TpError>
    requires distinct { IsTrue (are_distinct key_cmp partials.old.items) }
    requires there { StandsAt arrived.key partials.old.items (Some i) }
    ensures distinct { IsTrue (are_distinct key_cmp partials.new.items) }
    ensures offers { (slots : ℕ) → OffersAmong slots arrived.entry.now
        (segment_arrived arrived.entry)
        (parts_of_entries partials.old.items) result (parts_of_entries partials.new.items) }
{
    if contradicts(partials, i, arrived) {
        drop_key(partials, &arrived.key);
        return Err(TpError::Conflict);
    }
    let offered = accept_at(partials, alloc, i, arrived)?;
    Ok(offered)
}

/// Whether a segment contradicts the part of its key.
fn contradicts(partials: &[Partial], i: usize, arrived: Arrived<'_>) -> bool
    requires distinct { IsTrue (are_distinct key_cmp partials.now) }
    requires there { StandsAt arrived.key partials.now (Some i) }
    ensures { result ≡ conflicts (part_under (parts_of_entries partials.now) arrived.entry.key)
        (segment_arrived arrived.entry) }
{
    let partial = &partials[i];
    partial.contradicts(arrived.offset, arrived.more, arrived.bytes)
}

/// Keeps a segment that contradicts nothing in the part of its key.
fn accept_at(
    partials: &mut Vec<Partial>,
    alloc: Global,
    i: usize,
    arrived: Arrived<'_>,
) -> Result<Offered, AllocError>
    requires distinct { IsTrue (are_distinct key_cmp partials.old.items) }
    requires there { StandsAt arrived.key partials.old.items (Some i) }
    requires fits { conflicts (part_under (parts_of_entries partials.old.items) arrived.key)
        (segment_arrived arrived) ≡ false }
    ensures distinct { IsTrue (are_distinct key_cmp partials.new.items) }
    ensures ok { OnOk result (parts_of_entries partials.new.items
        ≡ map.insert (parts_of_entries partials.old.items) arrived.entry.key
        (with_offer (part_under (parts_of_entries partials.old.items) arrived.entry.key) arrived.entry.now
        (segment_arrived arrived.entry))) }
    ensures offered { IfOk result (λ offered. offered
        ≡ part_or_whole (with_offer (part_under (parts_of_entries partials.old.items) arrived.entry.key)
        arrived.entry.now (segment_arrived arrived.entry))) }
    ensures err { OnErr result (partials.new.items ≡ partials.old.items) }
{
    let partial = &mut partials[i];
    accept(partial, alloc, arrived)
}

/// Keeps a segment of a key without a part.
fn offer_new(
    partials: &mut Vec<Partial>,
    alloc: Global,
    arrived: Arrived<'_>,
) -> Result<Offered, AllocError>
    requires distinct { IsTrue (are_distinct key_cmp partials.old.items) }
    requires new { StandsAt arrived.key partials.old.items None }
    ensures distinct { IsTrue (are_distinct key_cmp partials.new.items) }
    ensures ok { OnOk result (parts_of_entries partials.new.items
        ≡ map.insert (parts_of_entries partials.old.items) arrived.entry.key
        (with_offer no_part arrived.entry.now
        (segment_arrived arrived.entry))) }
    ensures offered { IfOk result (λ offered. offered ≡ part_or_whole (with_offer no_part arrived.entry.now
        (segment_arrived arrived.entry))) }
    ensures err { OnErr result (partials.new.items ≡ partials.old.items) }
{
    let mut partial = Partial::new(alloc, arrived.key);
    let offered = accept(&mut partial, alloc, arrived)?;
    partials.push(partial)?;
    Ok(offered)
}

/// Keeps a segment that contradicts nothing, and tells what it made of the message.
fn accept(partial: &mut Partial, alloc: Global, arrived: Arrived<'_>) -> Result<Offered, AllocError>
    requires { conflicts partial.old.1 (segment_arrived arrived) ≡ false }
    ensures key { partial.new.0 ≡ partial.old.0 }
    ensures ok { OnOk result (partial.new
        ≡ (
          partial.old.0,
          with_offer partial.old.1 arrived.entry.now
              (segment_arrived arrived.entry),
        )) }
    ensures offered { IfOk result (λ offered. offered ≡ part_or_whole (with_offer partial.old.1
        arrived.entry.now (segment_arrived arrived.entry))) }
    ensures err { OnErr result (partial.new ≡ partial.old) }
{
    partial.accept(
        alloc,
        arrived.offset,
        arrived.more,
        arrived.bytes,
        arrived.now,
    )?;
    if partial.is_whole() {
        Ok(Offered::Whole)
    } else {
        Ok(Offered::Part)
    }
}

/// Takes the message of a key out, if it is whole.
pub(crate) fn take_from(
    partials: &mut Vec<Partial>,
    key: &ReassemblyKey,
    bytes: &mut Vec<u8>,
) -> Result<bool, AllocError>
    requires { IsTrue (are_distinct key_cmp partials.old.items) }
    ensures distinct { IsTrue (are_distinct key_cmp partials.new.items) }
    ensures taken { IfOk result (λ taken.
        taken ≡ is_some (message_at (parts_of_entries partials.old.items) key.now)) }
    ensures bytes { OnOk result (bytes.new.items ≡ bytes.old.items
        ++ unwrap_or (message_at (parts_of_entries partials.old.items) key.now) []) }
    ensures parts { OnOk result (parts_of_entries partials.new.items
        ≡ parts_less (parts_of_entries partials.old.items) key.now) }
    ensures wanting { OnErr result
        (is_some (message_at (parts_of_entries partials.old.items) key.now) ≡ true) }
    ensures err { OnErr result
        ((partials.new.items ≡ partials.old.items) × (bytes.new.items ≡ bytes.old.items)) }
{
    let taken = append_whole(partials, key, bytes)?;
    if taken {
        drop_key(partials, key);
    }
    Ok(taken)
}

/// Appends the message of a key, if it is whole.
fn append_whole(
    partials: &[Partial],
    key: &ReassemblyKey,
    bytes: &mut Vec<u8>,
) -> Result<bool, AllocError>
    requires { IsTrue (are_distinct key_cmp partials.now) }
    ensures taken { IfOk result (λ taken.
        taken ≡ is_some (message_at (parts_of_entries partials.now) key.now)) }
    ensures bytes { OnOk result (bytes.new.items ≡ bytes.old.items
        ++ unwrap_or (message_at (parts_of_entries partials.now) key.now) []) }
    ensures wanting { OnErr result (is_some (message_at (parts_of_entries partials.now) key.now) ≡ true) }
    ensures err { OnErr result (bytes.new.items ≡ bytes.old.items) }
{
    let Some(i) = position(partials, key) else {
        return Ok(false);
    };
    let partial = &partials[i];
    let whole = partial.is_whole();
    if whole {
        partial.append_message(bytes)?;
    }
    Ok(whole)
}
