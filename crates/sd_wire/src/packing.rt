//! Entries and the pool of options that their runs are taken from.
ghost use Rattle.std.specs.Prelude.{◌≡◌, ◌<◌, ◌≤◌, ◌*◌, length, map, [], IfOk, IfErr, IfSome, IfNone};
ghost use Rattle.std.specs.List.{AllByRecursion};
ghost use Rattle.sd_wire.specs.contents.Values.{view_entry};
ghost use Rattle.sd_wire.specs.layout.Spelling.{OptionFits, HeadFits};
ghost use Rattle.sd_wire.specs.encoding.Writing.{PlacesEntry, IsRefused, Packs, pool_bytes};
ghost use Rattle.sd_wire.specs.encoding.Written.{view_runs, IsPackError};

use crate::entry::Entry;
use crate::entry_writing::{RunFields, entry_text};
use crate::error::SdError;
use crate::option::SdOption;
use crate::option_writing::put_option;
use crate::pool::place_run;
use std::alloc::{AllocError, Global};

/// The most options of a run.
const MOST_OPTIONS: usize = 15;

/// The highest index of a run.
const LAST_INDEX: usize = 255;

/// Where the runs of the entry stand in the pool, to which those are added that it does not hold. `None`
/// where it has too many options.
pub(crate) fn place_entry(
    pool: &mut Vec<SdOption>,
    entry: &Entry,
) -> Result<Option<RunFields>, AllocError>
    ensures placed { IfOk result (λ placed. IfSome placed (λ runs. PlacesEntry pool.old.items
        (view_entry entry.now) (view_runs runs) pool.new.items)) }
    ensures refused { IfOk result (λ placed. IfNone placed
        (IsRefused pool.old.items (view_entry entry.now))) }
{
    let count1 = entry.run1.len();
    let count2 = entry.run2.len();
    if count1 > MOST_OPTIONS {
        return Ok(None);
    }
    if count2 > MOST_OPTIONS {
        return Ok(None);
    }
    let index1 = place_run(pool, &entry.run1)?;
    if index1 > LAST_INDEX {
        return Ok(None);
    }
    let index2 = place_run(pool, &entry.run2)?;
    if index2 > LAST_INDEX {
        return Ok(None);
    }
    Ok(Some(RunFields {
        index1: index1 as u8,
        index2: index2 as u8,
        count1: count1 as u8,
        count2: count2 as u8,
    }))
}

/// The bytes of the entries, and the pool of their options.
pub(crate) fn pack(alloc: Global, entries: &[Entry]) -> Result<(Vec<u8>, Vec<SdOption>), SdError>
    ensures packs { IfOk result (λ packed. Packs [] (map view_entry entries.now)
        packed.0.items packed.1.items) }
    ensures heads { IfOk result (λ packed. AllByRecursion (λ e. HeadFits e.head)
        (map view_entry entries.now)) }
    ensures refused { IfErr result (λ e. IsPackError (map view_entry entries.now) e) }
    ensures len { IfOk result (λ packed. length packed.0.items ≡ 16 * length entries.now) }
    ensures options { IfOk result (λ packed. length packed.1.items ≤ 270) }
{
    let mut text = Vec::new(alloc);
    let mut pool = Vec::new(alloc);
    for k in 0..entries.len() {
        let entry = &entries[k];
        match place_entry(&mut pool, entry)? {
            Some(runs) => text.extend_from_slice(&entry_text(&entry.head, runs))?,
            None => return Err(SdError::TooManyOptions(k)),
        }
    }
    Ok((text, pool))
}

/// The bytes of the options of a pool.
pub(crate) fn pool_text(alloc: Global, pool: &[SdOption]) -> Result<Vec<u8>, AllocError>
    requires { length pool.now ≤ 270 }
    ensures text { IfOk result (λ text. text.items ≡ pool_bytes pool.now) }
    ensures fits { IfOk result (λ text. AllByRecursion OptionFits pool.now) }
    ensures len { IfOk result (λ text. length text.items ≤ 17_695_260) }
{
    let mut text = Vec::new(alloc);
    for option in pool {
        put_option(option, &mut text)?;
    }
    Ok(text)
}
