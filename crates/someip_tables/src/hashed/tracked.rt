//! A map, and beside it the moments of its values in order: the set holds exactly these.
ghost use Rattle.std.specs.Prelude.{◌≡◌, ◌≢◌, ◌+◌, true, false, if◌then◌else◌, Some, None, is_some};
ghost use Rattle.std.specs.Prelude.{Bool, filter, IsTrue, IfSome, IfNone, IfOk, OnOk, OnErr};
ghost use Rattle.std.specs.Option.{option_and_then};
ghost use Rattle.std.specs.HashMap.{IsUnchanged, IsUnique};
ghost use Rattle.std.specs.Ordering.{eq_by_cmp, is_gt};
ghost use Rattle.someip_tables.specs.Retained.{retain};
ghost use Rattle.someip_tables.specs.Tables.{map_of, AnswersPairAs};
ghost use Rattle.someip_tables.specs.hashed.Dues.{IsFirstDue, Tracks, WantsMemory, at_key, due_cmp, has_due, is_due_of};
ghost use Rattle.someip_tables.specs.declared.hashed.due.Due.{Due};

use crate::hashed::due::Due;
use crate::{Key, Waits};
use std::alloc::AllocError;
use std::cmp::Reverse;
use std::collections::{BTreeSet, HashMap};
use std::hash::Hash;

/// The moments, from the last to the first: a new one is the last of all but a few, so that it is put in near the
/// front, where a search begins.
pub(crate) type Dues<K> = BTreeSet<Reverse<Due<K>>>;

/// Puts a value in, in place of an earlier one. A new moment is added before the old one is taken out,
/// and where the value is refused then, the new one is taken out again.
pub(crate) fn put<K: Key + Hash, V: Waits>(
    held: &mut HashMap<K, V>,
    dues: &mut Dues<K>,
    key: K,
    value: V,
) -> Result<(), AllocError>
    requires { Tracks K.cmp V.moment dues.old held.old.entries }
    ensures ok { OnOk result ((q : K) → at_key K.cmp held.new.entries q
        ≡ (if eq_by_cmp K.cmp key q then Some value else at_key K.cmp held.old.entries q)) }
    ensures err { OnErr result (IsUnchanged held.old held.new) }
    ensures grows { OnErr result (WantsMemory V.moment (at_key K.cmp held.old.entries key) (V.moment value)) }
    ensures tracks { Tracks K.cmp V.moment dues.new held.new.entries }
{
    let moment = value.waits_for();
    add_due(dues, key, moment)?;
    match hold(held, key, value) {
        Ok(earlier) => {
            if earlier != moment {
                take_due(dues, key, earlier);
            }
            Ok(())
        }
        Err(_) => {
            take_due(dues, key, moment);
            Err(AllocError)
        }
    }
}

/// Takes a key out, with its moment.
pub(crate) fn take_out<K: Key + Hash, V: Waits>(
    held: &mut HashMap<K, V>,
    dues: &mut Dues<K>,
    key: &K,
)
    requires { Tracks K.cmp V.moment dues.old held.old.entries }
    ensures held { (q : K) → at_key K.cmp held.new.entries q
        ≡ (if eq_by_cmp K.cmp key.now q then None else at_key K.cmp held.old.entries q) }
    ensures tracks { Tracks K.cmp V.moment dues.new held.new.entries }
{
    if let Some(earlier) = drop_key(held, key) {
        take_due(dues, *key, earlier.waits_for());
    }
}

/// Takes out the key with the first moment, and tells it. No search is needed for this moment.
pub(crate) fn take_out_first<K: Key + Hash, V: Waits>(
    held: &mut HashMap<K, V>,
    dues: &mut Dues<K>,
) -> Option<Due<K>>
    requires { Tracks K.cmp V.moment dues.old held.old.entries }
    ensures first { IsFirstDue V.moment (map_of K.cmp held.old.entries) result }
    ensures taken { IfSome result (λ first. (q : K) → at_key K.cmp held.new.entries q
        ≡ (if eq_by_cmp K.cmp first.key q then None else at_key K.cmp held.old.entries q)) }
    ensures none { IfNone result (held.new.entries ≡ held.old.entries) }
    ensures tracks { Tracks K.cmp V.moment dues.new held.new.entries }
{
    let first = pop_due(dues)?;
    drop_key(held, &first.key);
    Some(first)
}

/// Takes a key out, and leaves the moments as they are. Tells the value that it had.
fn drop_key<K: Key + Hash, V: Waits>(held: &mut HashMap<K, V>, key: &K) -> Option<V>
    ensures had { result ≡ at_key K.cmp held.old.entries key.now }
    ensures left { (q : K) → at_key K.cmp held.new.entries q
        ≡ (if eq_by_cmp K.cmp key.now q then None else at_key K.cmp held.old.entries q) }
{
    held.remove(key)
}

/// The value of a key.
pub(crate) fn look<K: Key + Hash, V: Waits>(held: &HashMap<K, V>, key: &K) -> Option<V>
    ensures { result ≡ at_key K.cmp held.now.entries key.now }
{
    held.get(key).copied()
}

/// Takes out the first moment, with its key.
#[tactic(auto, unfolding(crate::specs::hashed::Dues::has_due))]
fn pop_due<K: Key>(dues: &mut Dues<K>) -> Option<Due<K>>
    ensures found { IfSome result (λ due. IsTrue (has_due K.cmp dues.old due)) }
    ensures first { IfSome result (λ first. (due : Due K)
        → IsTrue (has_due K.cmp dues.old due)
        → is_gt (due_cmp K.cmp first due) ≡ false) }
    ensures none { IfNone result ((due : Due K)
        → IsTrue (has_due K.cmp dues.old due) → ⊥) }
    ensures taken { IfSome result (λ first. (due : Due K) → has_due K.cmp dues.new due
        ≡ (if is_due_of K.cmp first.key (Some first.at) due then false
        else has_due K.cmp dues.old due)) }
    ensures left { IfNone result (dues.new.keys ≡ dues.old.keys) }
{
    let last = dues.pop_last()?;
    Some(last.0)
}

/// The first moment, with its key.
#[tactic(auto, unfolding(crate::specs::hashed::Dues::has_due))]
pub(crate) fn first_due<K: Key>(dues: &Dues<K>) -> Option<Due<K>>
    ensures found { IfSome result (λ due. IsTrue (has_due K.cmp dues.now due)) }
    ensures first { IfSome result (λ first. (due : Due K)
        → IsTrue (has_due K.cmp dues.now due)
        → is_gt (due_cmp K.cmp first due) ≡ false) }
    ensures none { IfNone result ((due : Due K)
        → IsTrue (has_due K.cmp dues.now due) → ⊥) }
{
    let first = dues.last()?;
    Some(first.0)
}

/// Puts a value under its key, in place of an earlier one, and leaves the moments as they are. Tells the
/// moment that the earlier one waited for.
fn hold<K: Key + Hash, V: Waits>(
    held: &mut HashMap<K, V>,
    key: K,
    value: V,
) -> Result<Option<u64>, AllocError>
    ensures earlier { IfOk result (λ earlier. earlier
        ≡ option_and_then V.moment (at_key K.cmp held.old.entries key)) }
    ensures ok { OnOk result ((q : K) → at_key K.cmp held.new.entries q
        ≡ (if eq_by_cmp K.cmp key q then Some value else at_key K.cmp held.old.entries q)) }
    ensures err { OnErr result (IsUnchanged held.old held.new) }
    ensures absent { OnErr result (at_key K.cmp held.old.entries key ≡ None) }
{
    match held.insert(key, value)? {
        Some(earlier) => Ok(earlier.waits_for()),
        None => Ok(None),
    }
}

fn add_due<K: Key>(dues: &mut Dues<K>, key: K, moment: Option<u64>) -> Result<(), AllocError>
    ensures ok { OnOk result ((due : Due K) → has_due K.cmp dues.new due
        ≡ (if is_due_of K.cmp key moment due then true
        else has_due K.cmp dues.old due)) }
    ensures err { OnErr result ((due : Due K) → has_due K.cmp dues.new due
        ≡ has_due K.cmp dues.old due) }
    ensures waits { OnErr result (moment ≢ None) }
    ensures absent { OnErr result ((due : Due K) → is_due_of K.cmp key moment due ≡ true
        → has_due K.cmp dues.old due ≡ false) }
{
    if let Some(at) = moment {
        dues.insert(Reverse(Due { at, key }))?;
    }
    Ok(())
}

fn take_due<K: Key>(dues: &mut Dues<K>, key: K, moment: Option<u64>)
    ensures { (due : Due K) → has_due K.cmp dues.new due
        ≡ (if is_due_of K.cmp key moment due then false
        else has_due K.cmp dues.old due) }
{
    if let Some(at) = moment {
        dues.remove(&Reverse(Due { at, key }));
    }
}

/// Drops each entry that a test refuses. The test is asked once for each entry.
pub(crate) fn retain<K: Key + Hash, V: Waits, F: Fn(&K, &V) -> bool + Drop>(
    held: &mut HashMap<K, V>,
    dues: &mut Dues<K>,
    keep: F,
)
    requires tracks { Tracks K.cmp V.moment dues.old held.old.entries }
    requires callable { F.IsAlwaysCallable keep }
    ensures left { (p : K → V → Bool) → AnswersPairAs F.Fn keep p
        → map_of K.cmp held.new.entries ≡ retain (map_of K.cmp held.old.entries) p }
    ensures tracks { Tracks K.cmp V.moment dues.new held.new.entries }
{
    retain_entries(held, keep);
    retain_dues(held, dues);
}

/// Keeps the entries that a test keeps.
fn retain_entries<K: Key + Hash, V: Waits, F: Fn(&K, &V) -> bool + Drop>(
    held: &mut HashMap<K, V>,
    keep: F,
)
    requires { F.IsAlwaysCallable keep }
    ensures left { (p : K → V → Bool) → AnswersPairAs F.Fn keep p
        → held.new.entries ≡ filter (λ e. p e.0 e.1) held.old.entries }
    ensures no_other { (q : K) → is_some (at_key K.cmp held.new.entries q) ≡ true
        → at_key K.cmp held.new.entries q ≡ at_key K.cmp held.old.entries q }
    ensures distinct { IsUnique K.eq held.old }
{
    held.retain(|key, value| keep(key, value));
}

/// Keeps the moments of the keys that the map has.
fn retain_dues<K: Key + Hash, V: Waits>(held: &HashMap<K, V>, dues: &mut Dues<K>)
    ensures { dues.new.keys ≡ filter (λ due. is_some (at_key K.cmp held.now.entries due.0.key)) dues.old.keys }
{
    dues.retain(|due| look(held, &due.0.key).is_some());
}
