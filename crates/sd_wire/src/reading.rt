//! Messages from bytes (SOME/IP Service Discovery, "SOME/IP-SD Header").
ghost use Rattle.std.specs.Prelude.{◌≡◌, ◌≤◌, ◌+◌, ◌*◌, Some, None, Ok, Err, length, IfOk, IfErr, OnOk};
ghost use Rattle.sd_wire.specs.declared.error.SdError.{SdError};
ghost use Rattle.sd_wire.specs.contents.Values.{SdValue, view_sd};
ghost use Rattle.sd_wire.specs.decoding.Reading.{Sd};
ghost use Rattle.sd_wire.specs.decoding.Faults.{SdFault, IsFirstFault, fault_place};
ghost use Rattle.sd_wire.specs.decoding.Steps.{Gives, IsReadingError};
ghost use Rattle.sd_wire.specs.layout.Layout.{options_place};
ghost use Rattle.sd_wire.specs.decoding.Faults.{header_fault};
ghost use Rattle.sd_wire.specs.decoding.Program.{reading};

use crate::entry_reading::{check_types, read_entries};
use crate::error::SdError;
use crate::fields::u32_at;
use crate::flags::SdFlags;
use crate::message::SdRead;
use crate::option_reading::read_options;
use std::alloc::Global;

/// The message that the bytes hold: all of them, as a UDP payload after the header of SOME/IP.
///
/// An entry with a run that passes the options is marked `BadRun`, and the others are read. Options
/// that no run names are dropped, and so are reserved bits and the indexes of empty runs. The first
/// fault is judged in this order: fewer than 8 bytes, the length of the entries, whether the bytes
/// hold the entries and then exactly the options, the types of the entries in order, the options in
/// order.
///
/// ```text
/// c0000000 00000010                     Reboot and Unicast; 16 bytes of entries
/// 01000010 11110001 01000003 00000000   an Offer of 1111.0001, one option from index 0, TTL 3
/// 0000000c                              12 bytes of options
/// 0009 04 00 c0a80001 00 11 772d        192.168.0.1:30509 over UDP
///
/// the same with 0000000f bytes of entries: EntriesLength(4)
/// the same with a run of two options: the entry is BadRun
/// ```
pub fn read_sd(alloc: Global, bytes: &[u8]) -> Result<SdRead, SdError>
    // What is read is what the bytes hold.
    ensures found { IfOk result (λ read. Sd (view_sd read) bytes.now) }
    // What the bytes hold is read, unless memory runs out.
    ensures only { (v : SdValue) → Sd v bytes.now → Gives view_sd result (Ok v) }
    // A fault is the first that the bytes have.
    ensures fault { IfErr result (λ e. IsFirstFault e bytes.now) }
    // Where the bytes have a fault, it is answered, unless memory runs out.
    ensures faulty { (e : SdError) → SdFault e bytes.now → Gives view_sd result (Err e) }
    // What is answered is what the plain program gives, unless memory runs out.
    ensures exact { Gives view_sd result (reading bytes.now) }
    // Each entry has 16 bytes.
    ensures few { IfOk result (λ read. 16 * length read.entries.items ≤ length bytes.now) }
    // Its place is not past the end of the bytes.
    ensures places { IfErr result (λ e. fault_place e ≤ length bytes.now) }
    // It is none that only writing has.
    ensures errors { IfErr result IsReadingError }
{
    read(alloc, bytes)
}

/// What the plain program reads.
fn read(alloc: Global, bytes: &[u8]) -> Result<SdRead, SdError>
    ensures exact { Gives view_sd result (reading bytes.now) }
    ensures errors { IfErr result IsReadingError }
{
    let place = header(bytes)?;
    let entries = &bytes[8..place - 4];
    check_types(entries)?;
    let pool = read_options(alloc, place, &bytes[place..])?;
    let entries = read_entries(alloc, &pool, entries)?;
    Ok(SdRead {
        flags: SdFlags::from_byte(bytes[0]),
        entries,
    })
}

/// Where the options begin, if the lengths fit the bytes.
fn header(bytes: &[u8]) -> Result<usize, SdError>
    ensures err { IfErr result (λ e. header_fault bytes.now ≡ Some e) }
    ensures errors { IfErr result IsReadingError }
    ensures none { OnOk result (header_fault bytes.now ≡ None) }
    ensures place { IfOk result (λ place. place ≡ options_place bytes.now) }
    ensures within { IfOk result (λ place. place ≤ length bytes.now) }
{
    if bytes.len() < 8 {
        return Err(SdError::Truncated(bytes.len()));
    }
    let entries = u32_at(bytes, 4) as usize;
    if entries % 16 != 0 {
        return Err(SdError::EntriesLength(4));
    }
    let place = entries + 12;
    if bytes.len() < place {
        return Err(SdError::Truncated(bytes.len()));
    }
    let end = place + u32_at(bytes, entries + 8) as usize;
    if bytes.len() < end {
        return Err(SdError::Truncated(bytes.len()));
    }
    if end < bytes.len() {
        return Err(SdError::TrailingBytes(end));
    }
    Ok(place)
}
