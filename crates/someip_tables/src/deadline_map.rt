//! A map whose values last until a deadline each.
//!
//! `expired_keys` answers a set of keys and not the entries: a caller looks each key up for what it has to
//! say, and takes memory for nothing else.
//!
//! A test is asked once for each entry: the deadlines of a key go because the key went, and not because a
//! second answer said so. So a test that changes its mind cannot part the two.
//!
//! `count_unexpired` goes over all entries, since its test is any test of keys. What stands together in the
//! order of the keys is gone over by `iter_from`, which begins at a key: so a server looks only at the
//! subscriptions of one eventgroup.
ghost use Rattle.std.specs.Prelude.{◌≡◌, ◌≢◌, ◌↔◌, ◌<◌, ◌^◌, OnOk, OnErr, IfOk, IsTrue, Bool, Some};
ghost use Rattle.std.specs.Prelude.{filter, length};
ghost use Rattle.std.specs.Option.{option_copied};
ghost use Rattle.std.specs.FinMap as finite;
ghost use Rattle.std.specs.Map.Iter.{ShowsInOrder, deref_pair};
ghost use Rattle.std.specs.Ordering.{is_le};
ghost use Rattle.someip_tables.specs.declared.lasting.Lasting.{Lasting};
ghost use Rattle.someip_tables.specs.Lastings.{NeedsMemory, unless_passed, expired, unexpired};
ghost use Rattle.someip_tables.specs.Retained.{retain};
ghost use Rattle.someip_tables.specs.Tables.{map_of, AnswersAs, AnswersPairAs};
ghost use Rattle.someip_tables.specs.Waits.{HoldsFrom};

use crate::deadline::Deadline;
use crate::due::Due;
use crate::key::Key;
use crate::lasting::Lasting;
use crate::moment::Moment;
use crate::tracked::{
    count_unexpired, drop_expired, expired_keys, first_due, first_passed, put, retain, take_out,
};
use std::alloc::{AllocError, Global};
use std::collections::{BTreeMap, BTreeSet, btree_map};
use std::marker::Model;

/// A map whose values last until a deadline each. What has passed may still be in it, until it is
/// dropped.
#[derive(Drop)]
pub struct DeadlineMap<K: Key, V> {
    held: BTreeMap<K, Lasting<V>>,
    dues: BTreeSet<Due<K>>,
}

impl<K: Key, V> Model for DeadlineMap<K, V> {
    ghost use Rattle.std.specs.Prelude.{List};
    ghost use Rattle.someip_tables.specs.declared.lasting.Lasting.{Lasting};
    ghost use Rattle.someip_tables.specs.Dues.{Tracks};

    ghost Value = { List (K × Lasting V) };

    ghost view = { λ m. m.held.entries };

    ghost invariant = { λ m. Tracks K.cmp m.dues m.held };
}

impl<K: Key, V: Drop> DeadlineMap<K, V> {
    /// An empty map. It takes no memory.
    pub fn new(alloc: Global) -> DeadlineMap<K, V>
        ensures { map_of K.cmp result ≡ finite.empty }
    {
        DeadlineMap {
            held: BTreeMap::new(alloc),
            dues: BTreeSet::new(alloc),
        }
    }

    /// How many entries there are, those among them that have passed.
    pub fn len(&self) -> usize
        ensures { result ≡ finite.len (map_of K.cmp self.now) }
    {
        self.held.len()
    }

    /// Whether there is no entry.
    pub fn is_empty(&self) -> bool
        ensures { IsTrue result ↔ (map_of K.cmp self.now ≡ finite.empty) }
    {
        self.held.is_empty()
    }

    /// The value of a key, and until when it lasts; it may have passed.
    pub fn get(&self, key: &K) -> Option<&Lasting<V>>
        ensures { option_copied result ≡ finite.get (map_of K.cmp self.now) key.now }
    {
        self.held.get(key)
    }

    /// The value of a key, and until when it lasts, unless that has passed.
    pub fn get_unexpired(&self, key: &K, now: Moment) -> Option<&Lasting<V>>
        ensures { option_copied result
            ≡ unless_passed now (finite.get (map_of K.cmp self.now) key.now) }
    {
        match self.get(key) {
            Some(lasting) if !lasting.until.has_passed(now) => Some(lasting),
            _ => None,
        }
    }

    /// How many entries have not passed among those whose keys pass a test. It looks at every entry.
    pub fn count_unexpired<F: Fn(&K) -> bool + Drop>(&self, now: Moment, of: F) -> usize
        requires { F.IsAlwaysCallable of }
        ensures { (test : K → Bool) → AnswersAs F.Fn of test
            → result ≡ finite.len (finite.retain_keys (unexpired now (map_of K.cmp self.now)) test) }
    {
        count_unexpired(&self.held, now, of)
    }

    /// The entries, by rising key.
    pub fn iter(&self) -> btree_map::Iter<'_, K, Lasting<V>>
        ensures rest { result ≡ finite.entries (map_of K.cmp self.now) }
        ensures runs { ShowsInOrder (deref_pair {K = K} {X = Lasting V}) }
        ensures fits { finite.len (map_of K.cmp self.now) < 2 ^ 63 }
    {
        self.held.iter()
    }

    /// The entries from a key on, by rising key. It finds the first one in the order of the keys, and
    /// looks at none before it.
    pub fn iter_from(&self, first: K) -> btree_map::Range<'_, K, Lasting<V>>
        ensures rest { result
            ≡ filter (λ e. is_le (K.cmp first e.0)) (finite.entries (map_of K.cmp self.now)) }
        ensures runs { ShowsInOrder (deref_pair {K = K} {X = Lasting V}) }
        ensures fits { length result < 2 ^ 63 }
    {
        self.held.range(first..)
    }

    /// Puts a value under a key, in place of an earlier one and its deadline. What is refused because
    /// memory ran out leaves the map as it was, and memory is taken only where the key is new or has a
    /// new deadline that will pass.
    pub fn insert(&mut self, key: K, value: V, until: Deadline) -> Result<(), AllocError>
        ensures ok { OnOk result (map_of K.cmp self.new
            ≡ finite.insert (map_of K.cmp self.old) key (record { value = value; until = until })) }
        ensures err { OnErr result (self.new ≡ self.old) }
        ensures grows { OnErr result
            (NeedsMemory (finite.get (map_of K.cmp self.old) key) until) }
    {
        put(
            &mut self.held,
            &mut self.dues,
            key,
            Lasting { value, until },
        )
    }

    /// Takes a key out, and answers what it had. It takes no memory.
    pub fn remove(&mut self, key: &K) -> Option<Lasting<V>>
        ensures value { result ≡ finite.get (map_of K.cmp self.old) key.now }
        ensures rest { map_of K.cmp self.new ≡ finite.remove (map_of K.cmp self.old) key.now }
    {
        take_out(&mut self.held, &mut self.dues, key)
    }

    /// Keeps the entries that pass a test of key and value, which is asked once for each entry: what was
    /// learned from a peer goes so. It takes no memory.
    pub fn retain<F: Fn(&K, &Lasting<V>) -> bool + Drop>(&mut self, keep: F)
        requires { F.IsAlwaysCallable keep }
        ensures { (test : K → Lasting V → Bool) → AnswersPairAs F.Fn keep test
            → map_of K.cmp self.new ≡ retain (map_of K.cmp self.old) test }
    {
        retain(&mut self.held, &mut self.dues, keep)
    }

    /// Keeps the entries whose keys pass a test, which is asked once for each key: what a peer or an
    /// instance has goes so. It takes no memory.
    pub fn retain_keys<F: Fn(&K) -> bool + Drop>(&mut self, keep: F)
        requires { F.IsAlwaysCallable keep }
        ensures { (test : K → Bool) → AnswersAs F.Fn keep test
            → map_of K.cmp self.new ≡ finite.retain_keys (map_of K.cmp self.old) test }
    {
        self.retain(|key, _| keep(key));
    }

    /// Takes all entries out. It takes no memory.
    pub fn clear(&mut self)
        ensures { map_of K.cmp self.new ≡ finite.empty }
    {
        self.held.clear();
        self.dues.clear();
    }

    /// Whether an entry has passed. It looks at the first deadline alone.
    pub fn has_expired(&self, now: Moment) -> bool
        ensures { IsTrue result ↔ (expired now (map_of K.cmp self.now) ≢ finite.empty) }
    {
        first_passed(&self.dues, now).is_some()
    }

    /// The first deadline that passes, in milliseconds since the node's start, if one does. It may have
    /// passed. It looks at this alone.
    pub fn first_deadline(&self) -> Option<u64>
        ensures { HoldsFrom result (λ now. expired now (map_of K.cmp self.now) ≢ finite.empty) }
    {
        match first_due(&self.dues) {
            Some(due) => Some(due.at),
            None => None,
        }
    }

    /// The keys of what has passed, by rising key. It looks at these alone, and takes memory only if
    /// there are any.
    pub fn expired_keys(&self, alloc: Global, now: Moment) -> Result<BTreeSet<K>, AllocError>
        ensures { IfOk result (λ keys. keys.keys ≡ finite.keys (expired now (map_of K.cmp self.now))) }
    {
        expired_keys(&self.dues, alloc, now)
    }

    /// Drops what has passed. It looks at this alone, and takes no memory.
    pub fn drop_expired(&mut self, now: Moment)
        ensures { map_of K.cmp self.new ≡ unexpired now (map_of K.cmp self.old) }
    {
        drop_expired(&mut self.held, &mut self.dues, now)
    }
}
