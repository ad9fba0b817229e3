//! Entries split into messages that fit a datagram.
//!
//! `split_entries` takes any number of entries. A datagram holds at most some thousands, but no caller has
//! to know.
ghost use Rattle.std.specs.Prelude.{◌≡◌, ◌<◌, ◌≤◌, ◌+◌, ◌*◌, ◌^◌, ℕ, List, length, map, IfOk, IfErr, IfSome};
ghost use Rattle.sd_wire.specs.declared.error.SdError.TheVariants.{OutOfMemory};
ghost use Rattle.sd_wire.specs.contents.Values.{view_entry};
ghost use Rattle.sd_wire.specs.encoding.Writing.{pool_bytes};
ghost use Rattle.sd_wire.specs.fronts.Splitting.{IsLongestFront, AreFronts};
ghost use Rattle.sd_wire.specs.fronts.Fronts.{front_lengths};
ghost use Rattle.sd_wire.specs.encoding.Written.{IsGrown};

use crate::entry::Entry;
use crate::entry_reading::ENTRY_LEN;
use crate::error::SdError;
use crate::option::SdOption;
use crate::option_writing::option_len;
use crate::packing::place_entry;
use std::alloc::{AllocError, Global};

/// The most bytes of the payload of a message that the entries are split for. It is our own choice below
/// the MTU of Ethernet, and not the standard's.
const MOST_BYTES: usize = 1400;

/// The bytes of a message without entries.
const EMPTY_LEN: usize = 12;

/// The lengths of the longest fronts of the entries, one after the other, that can each be written
/// as a message of at most 1400 bytes. An entry that cannot be so written by itself stands alone.
///
/// ```text
/// 100 Finds    86 and 14: 12 bytes, and 16 for each Find
/// ```
///
/// The work grows with the number of entries: each is placed in a pool once or twice.
pub fn split_entries(alloc: Global, entries: &[Entry]) -> Result<Vec<usize>, SdError>
    ensures fronts { IfOk result (λ lengths. AreFronts (map view_entry entries.now) lengths.items) }
    // They are those of the entries as a function of them.
    ensures exact { IfOk result (λ lengths. lengths.items
        ≡ front_lengths (map view_entry entries.now)) }
    // There are no others.
    ensures only { (lengths : List ℕ) → AreFronts (map view_entry entries.now) lengths
        → IfOk result (λ answer. answer.items ≡ lengths) }
    ensures errors { IfErr result (λ e. e ≡ OutOfMemory) }
{
    let lengths = split(alloc, entries)?;
    Ok(lengths)
}

/// The lengths of the longest fronts.
fn split(alloc: Global, entries: &[Entry]) -> Result<Vec<usize>, AllocError>
    ensures { IfOk result (λ lengths. AreFronts (map view_entry entries.now) lengths.items) }
{
    let mut lengths = Vec::new(alloc);
    let mut rest = entries;
    while !rest.is_empty() {
        let length = front(alloc, rest)?;
        lengths.push(length)?;
        let (_, behind) = rest.split_at(length);
        rest = behind;
    }
    Ok(lengths)
}

/// The length of the longest front of some entries.
fn front(alloc: Global, entries: &[Entry]) -> Result<usize, AllocError>
    requires { 1 ≤ length entries.now }
    ensures { IfOk result (λ n. IsLongestFront (map view_entry entries.now) n) }
{
    let mut pool = Vec::new(alloc);
    let mut size = EMPTY_LEN;
    for k in 0..entries.len() {
        match grow(&mut pool, &entries[k])? {
            Some(bytes) => {
                size += bytes;
                if size > MOST_BYTES {
                    return Ok(k.max(1));
                }
            }
            None => return Ok(k.max(1)),
        }
    }
    Ok(entries.len())
}

/// Places an entry in the pool, and says how many bytes it adds to a message. None where it is
/// refused.
fn grow(pool: &mut Vec<SdOption>, entry: &Entry) -> Result<Option<usize>, AllocError>
    requires { length pool.old.items ≤ 270 }
    ensures grown { IfOk result (λ bytes. IsGrown pool.old.items (view_entry entry.now) bytes
        pool.new.items) }
    ensures most { IfOk result (λ added. IfSome added (λ bytes. bytes < 2 ^ 32)) }
{
    let held = pool.len();
    match place_entry(pool, entry)? {
        Some(_) => Ok(Some(ENTRY_LEN + options_len(&pool[held..]))),
        None => Ok(None),
    }
}

/// How many bytes the options have.
fn options_len(options: &[SdOption]) -> usize
    requires { length options.now ≤ 270 }
    ensures len { result ≡ length (pool_bytes options.now) }
    ensures most { result ≤ 65538 * length options.now }
{
    let mut len = 0;
    for option in options {
        len += option_len(option);
    }
    len
}
