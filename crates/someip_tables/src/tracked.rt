//! An ordered map, and beside it its deadlines in order: the set holds exactly the deadlines of the
//! map. What never passes stands in the map alone.
ghost use Rattle.std.specs.Prelude.{◌≡◌, ◌≢◌, ◌↔◌, ◌+◌, ◌<◌, ◌≤◌, nat_le, length, Bool, true, false};
ghost use Rattle.std.specs.Prelude.{not, ◌&&◌, if◌then◌else◌, map, filter, take_while};
ghost use Rattle.std.specs.Prelude.{Some, None, is_some, IsTrue, IfSome, IfNone, IfOk, OnOk, OnErr};
ghost use Rattle.std.specs.BTreeMap.{get, btree_map_len, IsOrdered, IsUnchanged};
ghost use Rattle.std.specs.BTreeSet as sorted;
ghost use Rattle.std.specs.BTreeSet.{contains, IsFromIterResult};
ghost use Rattle.std.specs.Ordering.{eq_by_cmp};
ghost use Rattle.someip_tables.specs.Dues.{Tracks, due_cmp, is_due_of};
ghost use Rattle.someip_tables.specs.Lastings.{NeedsMemory, until_of, unexpired};
ghost use Rattle.someip_tables.specs.Deadlines.{has_passed};
ghost use Rattle.someip_tables.specs.Retained.{retain};
ghost use Rattle.someip_tables.specs.Tables.{map_of, AnswersAs, AnswersPairAs};
ghost use Rattle.someip_tables.specs.declared.due.Due.{Due};

use crate::deadline::Deadline;
use crate::due::Due;
use crate::key::Key;
use crate::lasting::Lasting;
use crate::moment::Moment;
use std::alloc::{AllocError, Global};
use std::collections::{BTreeMap, BTreeSet};

/// Takes a key out, with its deadline.
pub(crate) fn take_out<K: Key, V: Drop>(
    held: &mut BTreeMap<K, Lasting<V>>,
    dues: &mut BTreeSet<Due<K>>,
    key: &K,
) -> Option<Lasting<V>>
    requires { Tracks K.cmp dues.old held.old }
    ensures value { result ≡ get K.cmp held.old key.now }
    ensures held { (q : K) → get K.cmp held.new q
        ≡ (if eq_by_cmp K.cmp key.now q then None else get K.cmp held.old q) }
    ensures len { btree_map_len held.new + (if is_some result then 1 else 0) ≡ btree_map_len held.old }
    ensures tracks { Tracks K.cmp dues.new held.new }
{
    let taken = held.remove(key);
    take_due(dues, *key, until_of(&taken));
    taken
}

/// Puts a value in, in place of an earlier one. A renewal adds its deadline before it takes the old
/// one out, and a growth that is refused takes the deadline out again.
pub(crate) fn put<K: Key, V: Drop>(
    held: &mut BTreeMap<K, Lasting<V>>,
    dues: &mut BTreeSet<Due<K>>,
    key: K,
    lasting: Lasting<V>,
) -> Result<(), AllocError>
    requires { Tracks K.cmp dues.old held.old }
    ensures ok { OnOk result ((q : K) → get K.cmp held.new q
        ≡ (if eq_by_cmp K.cmp key q then Some lasting else get K.cmp held.old q)) }
    ensures err { OnErr result (IsUnchanged held.old held.new) }
    ensures grows { OnErr result (NeedsMemory (get K.cmp held.old key) lasting.until) }
    ensures tracks { Tracks K.cmp dues.new held.new }
{
    let until = lasting.until;
    let earlier = until_at(held, &key);
    if is_until(earlier, until) {
        hold(held, key, lasting)?;
        return Ok(());
    }
    add_due(dues, key, until)?;
    match hold(held, key, lasting) {
        Ok(()) => {
            take_due(dues, key, earlier);
            Ok(())
        }
        Err(_) => {
            take_due(dues, key, Some(until));
            Err(AllocError)
        }
    }
}

/// Puts a value under its key, in place of an earlier one, and leaves the deadlines as they are.
fn hold<K: Key, V: Drop>(
    held: &mut BTreeMap<K, Lasting<V>>,
    key: K,
    lasting: Lasting<V>,
) -> Result<(), AllocError>
    ensures ok { OnOk result ((q : K) → get K.cmp held.new q
        ≡ (if eq_by_cmp K.cmp key q then Some lasting else get K.cmp held.old q)) }
    ensures err { OnErr result (IsUnchanged held.old held.new) }
    ensures absent { OnErr result (get K.cmp held.old key ≡ None) }
{
    held.insert(key, lasting)?;
    Ok(())
}

/// Drops what has passed: as many steps as have passed.
pub(crate) fn drop_expired<K: Key, V: Drop>(
    held: &mut BTreeMap<K, Lasting<V>>,
    dues: &mut BTreeSet<Due<K>>,
    now: Moment,
)
    requires { Tracks K.cmp dues.old held.old }
    ensures left { map_of K.cmp held.new.entries ≡ unexpired now (map_of K.cmp held.old.entries) }
    ensures tracks { Tracks K.cmp dues.new held.new }
{
    while let Some(due) = first_passed(dues, now) {
        take_out(held, dues, &due.key);
    }
}

/// The first deadline, with its key.
pub(crate) fn first_due<K: Key>(dues: &BTreeSet<Due<K>>) -> Option<Due<K>>
    ensures found { IfSome result (λ due. IsTrue (contains (due_cmp K.cmp) dues.now due)) }
    ensures first { IfSome result (λ first. (due : Due K)
        → IsTrue (contains (due_cmp K.cmp) dues.now due) → first.at ≤ due.at) }
    ensures none { IfNone result ((due : Due K)
        → IsTrue (contains (due_cmp K.cmp) dues.now due) → ⊥) }
{
    let first = dues.first()?;
    Some(*first)
}

/// The first deadline, if it has passed.
pub(crate) fn first_passed<K: Key>(dues: &BTreeSet<Due<K>>, now: Moment) -> Option<Due<K>>
    ensures found { IfSome result (λ due. IsTrue (contains (due_cmp K.cmp) dues.now due)) }
    ensures passed { IfSome result (λ due. due.at ≤ now) }
    ensures none { IfNone result ((due : Due K) → IsTrue (contains (due_cmp K.cmp) dues.now due)
        → now < due.at) }
{
    let first = first_due(dues)?;
    if first.at <= now.as_millis() {
        Some(first)
    } else {
        None
    }
}

/// The keys of what has passed, by rising key.
pub(crate) fn expired_keys<K: Key>(
    dues: &BTreeSet<Due<K>>,
    alloc: Global,
    now: Moment,
) -> Result<BTreeSet<K>, AllocError>
    ensures ordered { sorted.IsOrdered (due_cmp K.cmp) dues.now }
    ensures collected { IfOk result (IsFromIterResult K.cmp
        (map (λ due. due.key) (take_while (λ due. nat_le due.at now) dues.now.keys))) }
{
    let mut keys = BTreeSet::new(alloc);
    for due in dues.iter() {
        if now.as_millis() < due.at {
            return Ok(keys);
        }
        keys.insert(due.key)?;
    }
    Ok(keys)
}

/// Drops each entry that a test refuses. The test is asked once for each entry.
pub(crate) fn retain<K: Key, V: Drop, F: Fn(&K, &Lasting<V>) -> bool + Drop>(
    held: &mut BTreeMap<K, Lasting<V>>,
    dues: &mut BTreeSet<Due<K>>,
    keep: F,
)
    requires tracks { Tracks K.cmp dues.old held.old }
    requires callable { F.IsAlwaysCallable keep }
    ensures left { (p : K → Lasting V → Bool) → AnswersPairAs F.Fn keep p
        → map_of K.cmp held.new.entries ≡ retain (map_of K.cmp held.old.entries) p }
    ensures tracks { Tracks K.cmp dues.new held.new }
{
    retain_entries(held, keep);
    retain_dues(held, dues);
}

/// Keeps the entries that a test keeps.
fn retain_entries<K: Key, V: Drop, F: Fn(&K, &Lasting<V>) -> bool + Drop>(
    held: &mut BTreeMap<K, Lasting<V>>,
    keep: F,
)
    requires { F.IsAlwaysCallable keep }
    ensures left { (p : K → Lasting V → Bool) → AnswersPairAs F.Fn keep p
        → held.new.entries ≡ filter (λ e. p e.0 e.1) held.old.entries }
    ensures no_other { (q : K) → is_some (get K.cmp held.new q) ≡ true
        → get K.cmp held.new q ≡ get K.cmp held.old q }
    ensures ordered { IsOrdered K.cmp held.old }
{
    held.retain(|key, lasting| keep(key, lasting));
}

/// How many entries have not passed among those whose keys pass a test.
pub(crate) fn count_unexpired<K: Key, V, F: Fn(&K) -> bool + Drop>(
    held: &BTreeMap<K, Lasting<V>>,
    now: Moment,
    of: F,
) -> usize
    requires { F.IsAlwaysCallable of }
    ensures ordered { IsOrdered K.cmp held.now }
    ensures counted { (p : K → Bool) → AnswersAs F.Fn of p → result
        ≡ length (filter (λ e. not (has_passed now e.1.until) && p e.0) held.now.entries) }
{
    let mut count = 0;
    for (key, lasting) in held.iter() {
        if !lasting.until.has_passed(now) && of(key) {
            count += 1;
        }
    }
    count
}

/// Keeps the deadlines of the keys that the map has.
fn retain_dues<K: Key, V: Drop>(held: &BTreeMap<K, Lasting<V>>, dues: &mut BTreeSet<Due<K>>)
    ensures { dues.new.keys ≡ filter (λ due. is_some (get K.cmp held.now due.key)) dues.old.keys }
{
    dues.retain(|due| held.contains_key(&due.key));
}

/// Until when a value lasts, if there is one.
fn until_of<V>(lasting: &Option<Lasting<V>>) -> Option<Deadline>
    ensures { result ≡ until_of lasting.now }
{
    match lasting {
        Some(lasting) => Some(lasting.until),
        None => None,
    }
}

/// Until when the value of a key lasts, if it has one.
fn until_at<K: Key, V>(held: &BTreeMap<K, Lasting<V>>, key: &K) -> Option<Deadline>
    ensures { result ≡ until_of (get K.cmp held.now key.now) }
{
    match held.get(key) {
        Some(lasting) => Some(lasting.until),
        None => None,
    }
}

fn is_until(earlier: Option<Deadline>, until: Deadline) -> bool
    ensures { IsTrue result ↔ (earlier ≡ Some until) }
{
    earlier == Some(until)
}

fn add_due<K: Key>(dues: &mut BTreeSet<Due<K>>, key: K, until: Deadline) -> Result<(), AllocError>
    ensures ok { OnOk result ((due : Due K) → contains (due_cmp K.cmp) dues.new due
        ≡ (if is_due_of K.cmp key (Some until) due then true
        else contains (due_cmp K.cmp) dues.old due)) }
    ensures err { OnErr result ((due : Due K) → contains (due_cmp K.cmp) dues.new due
        ≡ contains (due_cmp K.cmp) dues.old due) }
    ensures passes { OnErr result (until ≢ Deadline.Never) }
{
    if let Deadline::At(at) = until {
        dues.insert(Due { at, key })?;
    }
    Ok(())
}

fn take_due<K: Key>(dues: &mut BTreeSet<Due<K>>, key: K, until: Option<Deadline>)
    ensures { (due : Due K) → contains (due_cmp K.cmp) dues.new due
        ≡ (if is_due_of K.cmp key until due then false
        else contains (due_cmp K.cmp) dues.old due) }
{
    match until {
        Some(Deadline::At(at)) => {
            dues.remove(&Due { at, key });
        }
        Some(Deadline::Never) => {}
        None => {}
    }
}
