//! An ordered map, and beside it the moments that its values wait for, in order. A key has at most one,
//! so a list with room for as many as the map has entries takes every change of a value without memory.
ghost use Rattle.std.specs.Prelude.{◌≡◌, ◌<◌, ◌≤◌, OnOk, OnErr, None, is_some, true};
ghost use Rattle.std.specs.Prelude.{if◌then◌else◌};
ghost use Rattle.std.specs.Option.{option_and_then};
ghost use Rattle.std.specs.FinMap as finite;
ghost use Rattle.std.specs.BTreeMap.{btree_map_len, IsOrdered};
ghost use Rattle.std.specs.List.{list_any, IsDistinct};
ghost use Rattle.std.specs.Ordering.{eq_by_cmp};
ghost use Rattle.std.specs.Vec.{vec_capacity};
ghost use Rattle.someip_tables.specs.Agendas.{dues_of, IsAgenda};
ghost use Rattle.someip_tables.specs.Changed.{each_changed, changed_at};
ghost use Rattle.someip_tables.specs.Tables.{map_of, AnswersPairAs};

use crate::agenda::{append, forget, note, sort};
use crate::due::Due;
use crate::key::Key;
use crate::waits::Waits;
use std::alloc::AllocError;
use std::collections::BTreeMap;

/// Puts a value under a key, in place of an earlier one.
pub(crate) fn put<K: Key, V: Waits>(
    held: &mut BTreeMap<K, V>,
    dues: &mut Vec<Due<K>>,
    key: K,
    value: V,
) -> Result<(), AllocError>
    requires agenda { IsAgenda V.moment dues.old.items (map_of K.cmp held.old.entries) }
    requires room { btree_map_len held.old ≤ vec_capacity dues.old }
    ensures ok { OnOk result (map_of K.cmp held.new.entries
        ≡ finite.insert (map_of K.cmp held.old.entries) key value) }
    ensures err { OnErr result (map_of K.cmp held.new.entries ≡ map_of K.cmp held.old.entries) }
    ensures grows { OnErr result (finite.get (map_of K.cmp held.old.entries) key ≡ None) }
    ensures agenda { IsAgenda V.moment dues.new.items (map_of K.cmp held.new.entries) }
    ensures room { btree_map_len held.new ≤ vec_capacity dues.new }
{
    if has(held, &key) {
        renew(held, dues, key, value);
        return Ok(());
    }
    add(held, dues, key, value)
}

/// Whether a key has a value.
pub(crate) fn has<K: Key, V: Waits>(held: &BTreeMap<K, V>, key: &K) -> bool
    ensures { result ≡ is_some (finite.get (map_of K.cmp held.now.entries) key.now) }
{
    held.contains_key(key)
}

/// Puts a value in place of an earlier one of its key. It takes no memory.
pub(crate) fn renew<K: Key, V: Waits>(
    held: &mut BTreeMap<K, V>,
    dues: &mut Vec<Due<K>>,
    key: K,
    value: V,
)
    requires agenda { IsAgenda V.moment dues.old.items (map_of K.cmp held.old.entries) }
    requires room { btree_map_len held.old ≤ vec_capacity dues.old }
    requires there { is_some (finite.get (map_of K.cmp held.old.entries) key) ≡ true }
    ensures changed { map_of K.cmp held.new.entries
        ≡ finite.insert (map_of K.cmp held.old.entries) key value }
    ensures agenda { IsAgenda V.moment dues.new.items (map_of K.cmp held.new.entries) }
    ensures room { btree_map_len held.new ≤ vec_capacity dues.new }
{
    let earlier = moment_of(held, &key);
    forget(dues, key, earlier);
    let _ = held.insert(key, value);
    note(dues, key, value.waits_for());
}

/// Puts a value under a new key. The room of its moment comes first.
fn add<K: Key, V: Waits>(
    held: &mut BTreeMap<K, V>,
    dues: &mut Vec<Due<K>>,
    key: K,
    value: V,
) -> Result<(), AllocError>
    requires agenda { IsAgenda V.moment dues.old.items (map_of K.cmp held.old.entries) }
    requires room { btree_map_len held.old ≤ vec_capacity dues.old }
    requires absent { finite.get (map_of K.cmp held.old.entries) key ≡ None }
    ensures ok { OnOk result (map_of K.cmp held.new.entries
        ≡ finite.insert (map_of K.cmp held.old.entries) key value) }
    ensures err { OnErr result (map_of K.cmp held.new.entries ≡ map_of K.cmp held.old.entries) }
    ensures agenda { IsAgenda V.moment dues.new.items (map_of K.cmp held.new.entries) }
    ensures room { btree_map_len held.new ≤ vec_capacity dues.new }
{
    make_room(held, dues)?;
    if held.insert(key, value).is_err() {
        return Err(AllocError);
    }
    note(dues, key, value.waits_for());
    Ok(())
}

/// Makes room for the moment of one entry more than there are.
fn make_room<K: Key, V: Waits>(
    held: &BTreeMap<K, V>,
    dues: &mut Vec<Due<K>>,
) -> Result<(), AllocError>
    requires { IsAgenda V.moment dues.old.items (map_of K.cmp held.now.entries) }
    ensures same { dues.new.items ≡ dues.old.items }
    ensures room { OnOk result (btree_map_len held.now < vec_capacity dues.new) }
    ensures kept { vec_capacity dues.old ≤ vec_capacity dues.new }
{
    dues.reserve(held.len() + 1 - dues.len())
}

/// The moment that the value of a key waits for, if it has one.
fn moment_of<K: Key, V: Waits>(held: &BTreeMap<K, V>, key: &K) -> Option<u64>
    ensures { result
        ≡ option_and_then V.moment (finite.get (map_of K.cmp held.now.entries) key.now) }
{
    held.get(key)?.waits_for()
}

/// Changes each value by its key and itself, and fills the list of moments anew.
pub(crate) fn change_all<K: Key, V: Waits, F: Fn(&K, &V) -> V + Drop>(
    held: &mut BTreeMap<K, V>,
    dues: &mut Vec<Due<K>>,
    change: F,
)
    requires room { btree_map_len held.old ≤ vec_capacity dues.old }
    requires callable { F.IsAlwaysCallable change }
    ensures changed { (f : K → V → V) → AnswersPairAs F.Fn change f
        → map_of K.cmp held.new.entries ≡ each_changed f (map_of K.cmp held.old.entries) }
    ensures agenda { IsAgenda V.moment dues.new.items (map_of K.cmp held.new.entries) }
    ensures room { btree_map_len held.new ≤ vec_capacity dues.new }
{
    change_each(held, change);
    fill(held, dues);
    sort(dues);
}

/// Changes each value by its key and itself.
fn change_each<K: Key, V: Waits, F: Fn(&K, &V) -> V + Drop>(held: &mut BTreeMap<K, V>, change: F)
    requires { F.IsAlwaysCallable change }
    ensures changed { (f : K → V → V) → AnswersPairAs F.Fn change f
        → map_of K.cmp held.new.entries ≡ each_changed f (map_of K.cmp held.old.entries) }
    ensures len { btree_map_len held.new ≤ btree_map_len held.old }
    ensures ordered { IsOrdered K.cmp held.new }
{
    held.retain(|key, value| {
        *value = change(key, value);
        true
    });
}

/// Fills the list with the moments of a map, in the order of the keys. There is room for them.
fn fill<K: Key, V: Waits>(held: &BTreeMap<K, V>, dues: &mut Vec<Due<K>>)
    requires { btree_map_len held.now ≤ vec_capacity dues.old }
    ensures items { dues.new.items ≡ dues_of V.moment held.now.entries }
    ensures room { vec_capacity dues.new ≡ vec_capacity dues.old }
{
    dues.clear();
    for (key, value) in held.iter() {
        append(dues, *key, value.waits_for());
    }
}

/// Changes the values of these keys by their key and themselves. It looks at these alone.
pub(crate) fn change_those<K: Key, V: Waits, F: Fn(&K, &V) -> V + Drop>(
    held: &mut BTreeMap<K, V>,
    dues: &mut Vec<Due<K>>,
    keys: &[K],
    change: F,
)
    requires agenda { IsAgenda V.moment dues.old.items (map_of K.cmp held.old.entries) }
    requires room { btree_map_len held.old ≤ vec_capacity dues.old }
    requires callable { F.IsAlwaysCallable change }
    ensures changed { (f : K → V → V) → AnswersPairAs F.Fn change f
        → IsDistinct (eq_by_cmp K.cmp) keys.now
        → map_of K.cmp held.new.entries
        ≡ each_changed (λ k v. if list_any (eq_by_cmp K.cmp k) keys.now then f k v else v)
        (map_of K.cmp held.old.entries) }
    ensures agenda { IsAgenda V.moment dues.new.items (map_of K.cmp held.new.entries) }
    ensures room { btree_map_len held.new ≤ vec_capacity dues.new }
{
    for key in keys {
        change_at(held, dues, *key, &change);
    }
}

/// Changes the value of a key by its key and itself, if it has one.
fn change_at<K: Key, V: Waits, F: Fn(&K, &V) -> V>(
    held: &mut BTreeMap<K, V>,
    dues: &mut Vec<Due<K>>,
    key: K,
    change: &F,
)
    requires agenda { IsAgenda V.moment dues.old.items (map_of K.cmp held.old.entries) }
    requires room { btree_map_len held.old ≤ vec_capacity dues.old }
    requires callable { F.IsAlwaysCallable change.now }
    ensures changed { (f : K → V → V) → AnswersPairAs F.Fn change.now f
        → map_of K.cmp held.new.entries
        ≡ changed_at key (f key) (map_of K.cmp held.old.entries) }
    ensures agenda { IsAgenda V.moment dues.new.items (map_of K.cmp held.new.entries) }
    ensures room { btree_map_len held.new ≤ vec_capacity dues.new }
{
    if let Some(value) = held.get(&key) {
        let value = change(&key, value);
        renew(held, dues, key, value);
    }
}
