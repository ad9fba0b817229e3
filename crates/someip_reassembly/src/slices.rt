//! The accepted slices of a message, by rising offsets.
//!
//! `SegmentList` keeps the slices by rising offsets. So one pass over them tells how far a message goes
//! without a gap, and that pass ends at the first gap. A slice is compared with another only where the two
//! lie over one another. A repeated slice is kept again: the plain list is for trust, and where peers are
//! not trusted `IntervalPool` is the body to take.
ghost use Rattle.std.specs.Prelude.{◌&&◌, nat_lt, nat_le, ◌≡◌, ◌↔◌, ◌+◌, ◌-◌, ◌≤◌, ◌<◌, true, length, slice_get, Some, Option, ℕ, OnOk, OnErr, take};
ghost use Rattle.std.specs.List.{list_any, insert};
ghost use Rattle.std.specs.FinMap.{get, keys};
ghost use Rattle.someip_reassembly.specs.SegmentOffers.{differ, passes, placed};
ghost use Rattle.someip_reassembly.specs.declared.slices.Slice.{Slice};
ghost use Rattle.someip_reassembly.specs.Slices.{byte_at, bytes_in, end_of, Agree, AreOneText, AreInOrder, IsFront, AppendsFront};

use std::alloc::AllocError;

/// A slice that was accepted.
#[derive(Drop)]
pub(crate) struct Slice {
    pub(crate) offset: u32,
    pub(crate) bytes: Vec<u8>,
}

impl Slice {
    /// The place after its last byte.
    fn end(&self) -> usize
        ensures { result ≡ end_of self.now }
    {
        self.offset as usize + self.bytes.len()
    }

    /// Whether it has a byte at or past a place.
    fn reaches(&self, place: usize) -> bool
        ensures { result ≡ (nat_lt 0 (length self.now.bytes.items) && nat_lt place (end_of self.now)) }
    {
        !self.bytes.is_empty() && place < self.end()
    }
}

/// Whether two slices are the same as far as both go.
pub fn begin_alike(a: &[u8], b: &[u8]) -> bool
    ensures { (result ≡ true) ↔ Agree (slice_get a.now) (slice_get b.now) }
{
    let len = a.len().min(b.len());
    a[..len] == b[..len]
}

/// What is left of a slice after its first bytes.
fn behind(bytes: &[u8], skipped: usize) -> &[u8]
    ensures length { length result.now ≡ length bytes.now - skipped }
    ensures bytes { (i : ℕ) → slice_get result.now i ≡ slice_get bytes.now (skipped + i) }
{
    &bytes[skipped.min(bytes.len())..]
}

/// Whether two slices have the same bytes where they lie over one another.
fn agree(held_at: u32, held: &[u8], at: u32, bytes: &[u8]) -> bool
    ensures { (result ≡ true) ↔ Agree (byte_at held_at held.now) (byte_at at bytes.now) }
{
    if held_at <= at {
        let skipped = at - held_at;
        begin_alike(behind(held, skipped as usize), bytes)
    } else {
        let skipped = held_at - at;
        begin_alike(held, behind(bytes, skipped as usize))
    }
}

/// Whether a slice has another byte than the accepted slices at some place.
pub(crate) fn clash(slices: &[Slice], offset: u32, bytes: &[u8]) -> bool
    requires { AreOneText slices.now }
    ensures { result ≡ list_any (λ e. differ (get (bytes_in slices.now) e.0) (Some e.1)) (placed offset bytes.now) }
{
    for slice in slices {
        if !agree(slice.offset, &slice.bytes, offset, bytes) {
            return true;
        }
    }
    false
}

/// Whether some byte is held at or past a total, if that is told.
pub(crate) fn reach(slices: &[Slice], total: Option<usize>) -> bool
    requires { AreOneText slices.now }
    ensures { result ≡ passes total (keys (bytes_in slices.now)) }
{
    match total {
        Some(total) => any_reaches(slices, total),
        None => false,
    }
}

fn any_reaches(slices: &[Slice], total: usize) -> bool
    requires { AreOneText slices.now }
    ensures { result ≡ list_any (nat_le total) (keys (bytes_in slices.now)) }
{
    for slice in slices {
        if slice.reaches(total) {
            return true;
        }
    }
    false
}

/// How many places from the first one on are held without a gap.
pub(crate) fn covered(slices: &[Slice]) -> usize
    requires { AreInOrder slices.now }
    ensures { IsFront (bytes_in slices.now) result }
{
    let mut end = 0;
    for slice in slices {
        if slice.offset as usize > end {
            return end;
        }
        end = end.max(slice.end());
    }
    end
}

/// Where a slice at this offset goes among the accepted ones, so that the offsets still rise.
pub(crate) fn index_for(slices: &[Slice], offset: u32) -> usize
    requires { AreInOrder slices.now }
    ensures within { result ≤ length slices.now }
    ensures in_order { (slice : Slice) → slice.offset ≡ offset → AreInOrder (insert slices.now result slice) }
{
    slices.partition_point(|slice| slice.offset <= offset)
}

/// Appends the bytes that are held from the first place on without a gap.
pub(crate) fn append_front(slices: &[Slice], bytes: &mut Vec<u8>) -> Result<(), AllocError>
    requires one_text { AreOneText slices.now }
    requires in_order { AreInOrder slices.now }
    ensures ok { OnOk result (AppendsFront (bytes_in slices.now) bytes.old.items bytes.new.items) }
    ensures err { OnErr result (bytes.new.items ≡ bytes.old.items) }
{
    let before = bytes.len();
    let appended = append_slices(slices, bytes);
    if appended.is_err() {
        bytes.truncate(before);
    }
    appended
}

/// Appends what each accepted slice has after those before it, up to the first gap.
fn append_slices(slices: &[Slice], bytes: &mut Vec<u8>) -> Result<(), AllocError>
    requires one_text { AreOneText slices.now }
    requires in_order { AreInOrder slices.now }
    ensures ok { OnOk result (AppendsFront (bytes_in slices.now) bytes.old.items bytes.new.items) }
    ensures err { OnErr result (take (length bytes.old.items) bytes.new.items ≡ bytes.old.items) }
{
    let mut end = 0;
    for slice in slices {
        let start = slice.offset as usize;
        if start > end {
            return Ok(());
        }
        let new = behind(&slice.bytes, end - start);
        bytes.extend_from_slice(new)?;
        end += new.len();
    }
    Ok(())
}
