//! A set of keys that are found by their hash.
ghost use Rattle.std.specs.Prelude.{◌≡◌, Bool, None, OnErr, OnOk, is_some};
ghost use Rattle.std.specs.FinMap as finite;
ghost use Rattle.someip_tables.specs.Tables.{AnswersAs, map_of};

use crate::Key;
use std::alloc::{AllocError, Global};
use std::collections::HashMap;
use std::hash::Hash;
use std::marker::Model;

/// A set of keys. Each is found by its hash; of the hashes holds what `DueTable` says of its own.
#[derive(Drop)]
pub struct KeySet<K: Key + Hash> {
    held: HashMap<K, ()>,
}

impl<K: Key + Hash> Model for KeySet<K> {
    ghost use Rattle.std.specs.Prelude.{List};

    ghost Value = { List (K × Unit {0}) };

    ghost view = { λ s. s.held.entries };
}

impl<K: Key + Hash> KeySet<K> {
    /// An empty set. It takes no memory.
    pub fn new(alloc: Global) -> KeySet<K>
        ensures { map_of K.cmp result ≡ finite.empty }
    {
        KeySet {
            held: HashMap::new(alloc),
        }
    }

    /// How many keys it has.
    pub fn len(&self) -> usize
        ensures { result ≡ finite.len (map_of K.cmp self.now) }
    {
        self.held.len()
    }

    /// Whether it has a key.
    pub fn contains(&self, key: &K) -> bool
        ensures { result ≡ is_some (finite.get (map_of K.cmp self.now) key.now) }
    {
        self.held.contains_key(key)
    }

    /// Puts a key in. What is refused because memory ran out leaves the set as it was, and memory is taken
    /// only for a new key.
    pub fn insert(&mut self, key: K) -> Result<(), AllocError>
        ensures ok { OnOk result
            (map_of K.cmp self.new ≡ finite.insert (map_of K.cmp self.old) key tt) }
        ensures err { OnErr result (map_of K.cmp self.new ≡ map_of K.cmp self.old) }
        ensures grows { OnErr result (finite.get (map_of K.cmp self.old) key ≡ None) }
    {
        self.held.insert(key, ())?;
        Ok(())
    }

    /// Keeps the keys that pass a test, which is asked once for each. It takes no memory.
    pub fn retain<F: Fn(&K) -> bool + Drop>(&mut self, keep: F)
        requires { F.IsAlwaysCallable keep }
        ensures { (test : K → Bool) → AnswersAs F.Fn keep test
            → map_of K.cmp self.new ≡ finite.retain_keys (map_of K.cmp self.old) test }
    {
        self.held.retain(|key, _| keep(key));
    }

    /// Takes all keys out. It takes no memory.
    pub fn clear(&mut self)
        ensures { map_of K.cmp self.new ≡ finite.empty }
    {
        self.held.clear();
    }
}
