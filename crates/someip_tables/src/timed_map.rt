//! A map whose values wait for a moment each, or for none.
ghost use Rattle.std.specs.Prelude.{◌≡◌, ◌≢◌, ◌↔◌, OnOk, OnErr, IfOk, IsTrue, Bool, None, is_some};
ghost use Rattle.std.specs.Prelude.{if◌then◌else◌};
ghost use Rattle.std.specs.Option.{option_copied};
ghost use Rattle.std.specs.FinMap as finite;
ghost use Rattle.someip_tables.specs.Changed.{each_changed};
ghost use Rattle.someip_tables.specs.Retained.{retain};
ghost use Rattle.someip_tables.specs.Tables.{map_of, AnswersPairAs};
ghost use Rattle.someip_tables.specs.Waits.{HoldsFrom, due_by};

use crate::agenda::{due_keys, first_due, has_come};
use crate::awaited::{change_all, change_those, has, put, renew};
use crate::due::Due;
use crate::key::Key;
use crate::moment::Moment;
use crate::waits::Waits;
use std::alloc::{AllocError, Global};
use std::collections::BTreeMap;
use std::marker::Model;

/// A map whose values wait for a moment each, or for none. The moments stand in order beside it, so
/// what is due is found without a look at the rest. Memory is taken for a new key alone: the room of
/// its moment is reserved with it.
#[derive(Drop)]
pub struct TimedMap<K: Key, V: Waits> {
    held: BTreeMap<K, V>,
    dues: Vec<Due<K>>,
}

impl<K: Key, V: Waits> Model for TimedMap<K, V> {
    ghost use Rattle.std.specs.Prelude.{List, ◌≤◌};
    ghost use Rattle.std.specs.BTreeMap.{btree_map_len};
    ghost use Rattle.std.specs.Vec.{vec_capacity};
    ghost use Rattle.someip_tables.specs.Agendas.{IsAgenda};
    ghost use Rattle.someip_tables.specs.Tables.{map_of};

    ghost Value = { List (K × V) };

    ghost view = { λ m. m.held.entries };

    ghost invariant = { λ m. IsAgenda V.moment m.dues.items (map_of K.cmp m.held.entries)
        × (btree_map_len m.held ≤ vec_capacity m.dues) };
}

impl<K: Key, V: Waits> TimedMap<K, V> {
    /// An empty map. It takes no memory.
    pub fn new(alloc: Global) -> TimedMap<K, V>
        ensures { map_of K.cmp result ≡ finite.empty }
    {
        TimedMap {
            held: BTreeMap::new(alloc),
            dues: Vec::new(alloc),
        }
    }

    /// Takes all entries out. It takes no memory.
    pub fn clear(&mut self)
        ensures { map_of K.cmp self.new ≡ finite.empty }
    {
        self.held.clear();
        self.dues.clear();
    }

    /// The entries, for reading.
    pub fn held(&self) -> &BTreeMap<K, V>
        ensures { result.now.entries ≡ self.now }
    {
        &self.held
    }

    /// The value of a key.
    pub fn get(&self, key: &K) -> Option<&V>
        ensures { option_copied result ≡ finite.get (map_of K.cmp self.now) key.now }
    {
        self.held.get(key)
    }

    /// Puts a value under a key, in place of an earlier one. What is refused because memory ran out
    /// leaves the map as it was, and memory is taken only where the key is new.
    pub fn insert(&mut self, key: K, value: V) -> Result<(), AllocError>
        ensures ok { OnOk result
            (map_of K.cmp self.new ≡ finite.insert (map_of K.cmp self.old) key value) }
        ensures err { OnErr result (map_of K.cmp self.new ≡ map_of K.cmp self.old) }
        ensures grows { OnErr result (finite.get (map_of K.cmp self.old) key ≡ None) }
    {
        put(&mut self.held, &mut self.dues, key, value)
    }

    /// Puts a value in place of that of its key; a key that has none is passed over. Says whether it had
    /// one. It takes no memory.
    pub fn replace(&mut self, key: K, value: V) -> bool
        ensures held { result ≡ is_some (finite.get (map_of K.cmp self.old) key) }
        ensures changed { map_of K.cmp self.new ≡ (if result
            then finite.insert (map_of K.cmp self.old) key value
            else map_of K.cmp self.old) }
    {
        if !has(&self.held, &key) {
            return false;
        }
        renew(&mut self.held, &mut self.dues, key, value);
        true
    }

    /// Whether some value's moment has come. It looks at the first moment alone.
    pub fn is_due(&self, now: Moment) -> bool
        ensures { IsTrue result ↔ (due_by V.moment now (map_of K.cmp self.now) ≢ finite.empty) }
    {
        has_come(&self.dues, now)
    }

    /// The first moment that a value waits for, if one does. It looks at this alone.
    pub fn first_due(&self) -> Option<u64>
        ensures { HoldsFrom result
            (λ now. due_by V.moment now (map_of K.cmp self.now) ≢ finite.empty) }
    {
        first_due(&self.dues)
    }

    /// The keys of the values whose moment has come, by rising key. It looks at these alone, and takes
    /// memory only where there are any.
    pub fn due_keys(&self, alloc: Global, now: Moment) -> Result<Vec<K>, AllocError>
        ensures due { IfOk result
            (λ keys. keys.items ≡ finite.keys (due_by V.moment now (map_of K.cmp self.now))) }
        ensures grows { OnErr result (due_by V.moment now (map_of K.cmp self.now) ≢ finite.empty) }
    {
        due_keys(&self.dues, alloc, now)
    }

    /// Changes each value by its key and itself. It takes no memory.
    pub fn change_all<F: Fn(&K, &V) -> V + Drop>(&mut self, change: F)
        requires { F.IsAlwaysCallable change }
        ensures { (f : K → V → V) → AnswersPairAs F.Fn change f
            → map_of K.cmp self.new ≡ each_changed f (map_of K.cmp self.old) }
    {
        change_all(&mut self.held, &mut self.dues, change);
    }

    /// Changes the values of these keys by their key and themselves. It looks at these alone, and takes
    /// no memory.
    pub fn change_those<F: Fn(&K, &V) -> V + Drop>(&mut self, keys: &[K], change: F)
        requires { F.IsAlwaysCallable change }
        ensures { (f : K → V → V) (test : K → V → Bool) → AnswersPairAs F.Fn change f
            → keys.now ≡ finite.keys (retain (map_of K.cmp self.old) test)
            → map_of K.cmp self.new
            ≡ each_changed (λ k v. if test k v then f k v else v) (map_of K.cmp self.old) }
    {
        change_those(&mut self.held, &mut self.dues, keys, change);
    }
}
