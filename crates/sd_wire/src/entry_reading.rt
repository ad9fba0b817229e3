//! Entries from bytes.
ghost use Rattle.std.specs.Prelude.{◌≡◌, ◌≤◌, ◌+◌, ◌*◌, ◌/◌, ◌%◌, false, None, length, map, IfOk, IfErr, OnOk, Some};
ghost use Rattle.sd_wire.specs.declared.error.SdError.{SdError};
ghost use Rattle.sd_wire.specs.contents.Values.{view_read};
ghost use Rattle.sd_wire.specs.decoding.Steps.{IsReadingError};
ghost use Rattle.sd_wire.specs.decoding.Reading.{passes_pool, selected};
ghost use Rattle.sd_wire.specs.decoding.Faults.{is_entry_type};
ghost use Rattle.sd_wire.specs.decoding.Program.{type_fault, service_entry_in, eventgroup_entry_in, head_in, entry_in, entry_list};

use crate::entry::{
    Entry, EntryHead, EventgroupEntry, EventgroupKind, ServiceEntry, ServiceKind,
    SubscriptionCounter,
};
use crate::error::SdError;
use crate::fields::{u16_at, u24_at, u32_at};
use crate::message::ReadEntry;
use crate::option::SdOption;
use crate::ttl::Ttl;
use std::alloc::{AllocError, Global};

/// The bytes of an entry.
pub(crate) const ENTRY_LEN: usize = 16;

/// The type is one of the four.
fn is_type(byte: u8) -> bool
    ensures { result ≡ is_entry_type byte }
{
    matches!(byte, 0 | 1 | 6 | 7)
}

/// Refuses the first entry whose type is none of the four.
pub(crate) fn check_types(entries: &[u8]) -> Result<(), SdError>
    ensures err { IfErr result (λ e. type_fault (length entries.now / 16) 8 entries.now ≡ Some e) }
    ensures none { OnOk result (type_fault (length entries.now / 16) 8 entries.now ≡ None) }
    ensures errors { IfErr result IsReadingError }
{
    for k in 0..entries.len() / ENTRY_LEN {
        if !is_type(entries[k * ENTRY_LEN]) {
            return Err(SdError::UnknownEntryType(8 + k * ENTRY_LEN));
        }
    }
    Ok(())
}

/// The service entry at the front.
fn service(kind: ServiceKind, bytes: &[u8]) -> ServiceEntry
    requires { 16 ≤ length bytes.now }
    ensures { result ≡ service_entry_in kind bytes.now }
{
    ServiceEntry {
        kind,
        service: u16_at(bytes, 4),
        instance: u16_at(bytes, 6),
        major: bytes[8],
        ttl: Ttl::from_field(u24_at(bytes, 9)),
        minor: u32_at(bytes, 12),
    }
}

/// The eventgroup entry at the front.
fn eventgroup(kind: EventgroupKind, bytes: &[u8]) -> EventgroupEntry
    requires { 16 ≤ length bytes.now }
    ensures { result ≡ eventgroup_entry_in kind bytes.now }
{
    EventgroupEntry {
        kind,
        service: u16_at(bytes, 4),
        instance: u16_at(bytes, 6),
        major: bytes[8],
        ttl: Ttl::from_field(u24_at(bytes, 9)),
        counter: SubscriptionCounter::from_field(u16_at(bytes, 12)),
        eventgroup: u16_at(bytes, 14),
    }
}

/// The entry at the front, without its options.
fn head(bytes: &[u8]) -> EntryHead
    requires { 16 ≤ length bytes.now }
    ensures { result ≡ head_in bytes.now }
{
    match bytes[0] {
        0 => EntryHead::Service(service(ServiceKind::Find, bytes)),
        1 => EntryHead::Service(service(ServiceKind::Offer, bytes)),
        6 => EntryHead::Eventgroup(eventgroup(EventgroupKind::Subscribe, bytes)),
        _ => EntryHead::Eventgroup(eventgroup(EventgroupKind::Ack, bytes)),
    }
}

/// A nonempty run passes the pool.
fn passes_pool(pool: &[SdOption], index: u8, count: u8) -> bool
    ensures { result ≡ passes_pool pool.now index count }
{
    count > 0 && usize::from(index) + usize::from(count) > pool.len()
}

/// The options of a run that does not pass the pool.
fn select(
    alloc: Global,
    pool: &[SdOption],
    index: u8,
    count: u8,
) -> Result<Vec<SdOption>, AllocError>
    requires { passes_pool pool.now index count ≡ false }
    ensures { IfOk result (λ run. run.items ≡ selected pool.now index count) }
{
    let mut run = Vec::new(alloc);
    let from = usize::from(index);
    for i in 0..usize::from(count) {
        run.push(pool[from + i].clone()?)?;
    }
    Ok(run)
}

/// The entry at the front, whose runs select from the pool.
fn entry(alloc: Global, pool: &[SdOption], bytes: &[u8]) -> Result<ReadEntry, AllocError>
    requires { 16 ≤ length bytes.now }
    ensures { IfOk result (λ e. view_read e ≡ entry_in pool.now bytes.now) }
{
    let head = head(bytes);
    let (count1, count2) = (bytes[3] / 16, bytes[3] % 16);
    if passes_pool(pool, bytes[1], count1) || passes_pool(pool, bytes[2], count2) {
        return Ok(ReadEntry::BadRun(head));
    }
    let run1 = select(alloc, pool, bytes[1], count1)?;
    let run2 = select(alloc, pool, bytes[2], count2)?;
    Ok(ReadEntry::Good(Entry { head, run1, run2 }))
}

/// All entries, whose runs select from the pool.
pub(crate) fn read_entries(
    alloc: Global,
    pool: &[SdOption],
    entries: &[u8],
) -> Result<Vec<ReadEntry>, AllocError>
    ensures { IfOk result (λ read. map view_read read.items
        ≡ entry_list (length entries.now / 16) pool.now entries.now) }
{
    let mut read = Vec::new(alloc);
    for k in 0..entries.len() / ENTRY_LEN {
        read.push(entry(alloc, pool, &entries[k * ENTRY_LEN..])?)?;
    }
    Ok(read)
}
