//! The moments that the keys of a map wait for, from the last to the first, so that what is due
//! stands at the end.
ghost use Rattle.std.specs.Prelude.{◌≡◌, ◌<◌, ◌≤◌, ◌++◌, [], true, false, nat_le, length, map, reverse, take_while};
ghost use Rattle.std.specs.Prelude.{if◌then◌else◌, IfOk, OnErr, ℕ};
ghost use Rattle.std.specs.List.{list_any, cons_option};
ghost use Rattle.std.specs.List.Sorted.{IsStrictlySortedBy, IsSorted, IsPermutation};
ghost use Rattle.std.specs.List.Sorted.{IsBinarySearchResult, IsSearchInRange};
ghost use Rattle.std.specs.Ordering.{eq_by_cmp};
ghost use Rattle.std.specs.Vec.{vec_capacity};
ghost use Rattle.someip_tables.specs.Agendas.{falling, has_due, is_due_at, due_of};
ghost use Rattle.someip_tables.specs.Waits.{is_due_by};
ghost use Rattle.someip_tables.specs.declared.due.Due.{Due};

use crate::due::Due;
use crate::key::Key;
use crate::moment::Moment;
use std::alloc::{AllocError, Global};

/// Takes the moment of a key out of the list.
pub(crate) fn forget<K: Key>(dues: &mut Vec<Due<K>>, key: K, moment: Option<u64>)
    requires { IsStrictlySortedBy (falling K.cmp) dues.old.items }
    ensures falls { IsStrictlySortedBy (falling K.cmp) dues.new.items }
    ensures rest { (due : Due K) → has_due K.cmp dues.new.items due
        ≡ (if is_due_at K.cmp key moment due then false else has_due K.cmp dues.old.items due) }
    ensures room { vec_capacity dues.new ≡ vec_capacity dues.old }
{
    if let Some(at) = moment {
        take_out(dues, &Due { at, key });
    }
}

/// Puts the moment of a key into the list, which has room for it.
pub(crate) fn note<K: Key>(dues: &mut Vec<Due<K>>, key: K, moment: Option<u64>)
    requires falls { IsStrictlySortedBy (falling K.cmp) dues.old.items }
    requires room { length dues.old.items < vec_capacity dues.old }
    ensures falls { IsStrictlySortedBy (falling K.cmp) dues.new.items }
    ensures more { (due : Due K) → has_due K.cmp dues.new.items due
        ≡ (if is_due_at K.cmp key moment due then true else has_due K.cmp dues.old.items due) }
    ensures room { vec_capacity dues.old ≤ vec_capacity dues.new }
{
    if let Some(at) = moment {
        put_in(dues, Due { at, key });
    }
}

/// Takes a key at its moment out of the list, if it is there.
fn take_out<K: Key>(dues: &mut Vec<Due<K>>, due: &Due<K>)
    requires { IsStrictlySortedBy (falling K.cmp) dues.old.items }
    ensures falls { IsStrictlySortedBy (falling K.cmp) dues.new.items }
    ensures rest { (other : Due K) → has_due K.cmp dues.new.items other
        ≡ (if eq_by_cmp (falling K.cmp) other due.now then false else has_due K.cmp dues.old.items other) }
    ensures room { vec_capacity dues.new ≡ vec_capacity dues.old }
{
    if let Ok(place) = place_of(dues, due) {
        dues.remove(place);
    }
}

/// Puts a key at its moment into the list, unless it is there.
fn put_in<K: Key>(dues: &mut Vec<Due<K>>, due: Due<K>)
    requires falls { IsStrictlySortedBy (falling K.cmp) dues.old.items }
    requires room { length dues.old.items < vec_capacity dues.old }
    ensures falls { IsStrictlySortedBy (falling K.cmp) dues.new.items }
    ensures more { (other : Due K) → has_due K.cmp dues.new.items other
        ≡ (if eq_by_cmp (falling K.cmp) other due then true else has_due K.cmp dues.old.items other) }
    ensures room { vec_capacity dues.old ≤ vec_capacity dues.new }
{
    if let Err(place) = place_of(dues, &due) {
        let _ = dues.insert(place, due);
    }
}

/// Where a key at its moment stands, or where it goes.
fn place_of<K: Key>(dues: &[Due<K>], due: &Due<K>) -> Result<usize, usize>
    ensures bound { IsSearchInRange result (length dues.now) }
    ensures place { IsBinarySearchResult (λ other. falling K.cmp other due.now) dues.now result }
{
    dues.binary_search_by(|other| due.cmp(other))
}

/// Puts the moment of a key after the others, whatever their order. There is room for it.
pub(crate) fn append<K: Key>(dues: &mut Vec<Due<K>>, key: K, moment: Option<u64>)
    requires { length dues.old.items < vec_capacity dues.old }
    ensures items { dues.new.items ≡ dues.old.items ++ cons_option (due_of key moment) [] }
    ensures room { vec_capacity dues.new ≡ vec_capacity dues.old }
{
    if let Some(at) = moment {
        dues.push_reserved(Due { at, key });
    }
}

/// Puts the moments in order. It takes no memory.
pub(crate) fn sort<K: Key>(dues: &mut Vec<Due<K>>)
    ensures sorted { IsSorted (falling K.cmp) dues.new.items }
    ensures same { IsPermutation dues.old.items dues.new.items }
    ensures room { vec_capacity dues.new ≡ vec_capacity dues.old }
{
    dues.sort_unstable_by(|a, b| b.cmp(a));
}

/// Whether a moment has come. It looks at the last of the list alone.
pub(crate) fn has_come<K: Key>(dues: &[Due<K>], now: Moment) -> bool
    requires { IsStrictlySortedBy (falling K.cmp) dues.now }
    ensures { result ≡ list_any (λ due. nat_le due.at now) dues.now }
{
    match dues.last() {
        Some(due) => due.at <= now.as_millis(),
        None => false,
    }
}

/// The first moment of the list, which is its last entry.
pub(crate) fn first_due<K: Key>(dues: &[Due<K>]) -> Option<u64>
    requires { IsStrictlySortedBy (falling K.cmp) dues.now }
    ensures { (now : ℕ) → is_due_by now result ≡ list_any (λ due. nat_le due.at now) dues.now }
{
    Some(dues.last()?.at)
}

/// The keys whose moment has come, by rising key. It looks at these alone, and takes memory only where
/// there are any.
pub(crate) fn due_keys<K: Key>(
    dues: &[Due<K>],
    alloc: Global,
    now: Moment,
) -> Result<Vec<K>, AllocError>
    requires { IsStrictlySortedBy (falling K.cmp) dues.now }
    ensures rises { IfOk result (λ keys. IsSorted K.cmp keys.items) }
    ensures due { IfOk result (λ keys. IsPermutation
        (map (λ due. due.key) (take_while (λ due. nat_le due.at now) (reverse dues.now))) keys.items) }
    ensures grows { OnErr result (list_any (λ due. nat_le due.at now) dues.now ≡ true) }
{
    if !has_come(dues, now) {
        return Ok(Vec::new(alloc));
    }
    let mut keys = last_keys(dues, alloc, now)?;
    keys.sort_unstable();
    Ok(keys)
}

/// The keys whose moment has come, the first moment first.
fn last_keys<K: Key>(dues: &[Due<K>], alloc: Global, now: Moment) -> Result<Vec<K>, AllocError>
    ensures { IfOk result (λ keys. keys.items
        ≡ map (λ due. due.key) (take_while (λ due. nat_le due.at now) (reverse dues.now))) }
{
    let mut keys = Vec::new(alloc);
    let mut rest = dues;
    while let [earlier @ .., due] = rest {
        if now.as_millis() < due.at {
            return Ok(keys);
        }
        keys.push(due.key)?;
        rest = earlier;
    }
    Ok(keys)
}
