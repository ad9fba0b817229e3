//! A map whose values wait for a moment each, or for none, with the first of them at hand.
//!
//! What waits is found by the hash of its key, and its moments stand in order beside it, from the last to
//! the first: a new one is among the last, and a node of the set is searched from its front. 1.2 million
//! datagrams of calls took 0.67 s with hashes, and 0.94 s with the keys in an ordered map (November 2026,
//! on one day). The seed of the hashes is that of std, and fixed, so a
//! recording can be made whose keys stand in one place, up to 65,536 of them; each look then goes over all
//! of these. Memory stays within its limit, and what is told the same. Calls that were answered stand apart,
//! since they are many, and each waits for the moment up to which something is known of it. That takes a
//! quarter more instructions than with no moment, for 1.2 million calls and answers; but where more calls come
//! than are kept, none is gone over that stays.
ghost use Rattle.std.specs.Prelude.{◌≡◌, IfNone, IfSome, OnOk, OnErr, Bool};
ghost use Rattle.std.specs.FinMap as finite;
ghost use Rattle.someip_tables.specs.Retained.{retain};
ghost use Rattle.someip_tables.specs.Tables.{map_of, AnswersPairAs};
ghost use Rattle.someip_tables.specs.hashed.Dues.{IsFirstDue, WantsMemory};

use crate::hashed::due::Due;
use crate::hashed::tracked::{Dues, first_due, look, put, retain, take_out, take_out_first};
use crate::{Key, Waits};
use std::alloc::{AllocError, Global};
use std::collections::{BTreeSet, HashMap};
use std::hash::Hash;
use std::marker::Model;

/// A map whose values wait for a moment each, or for none. A key is found by its hash. The moments stand
/// in order beside the map, so the first of them is at hand, and a change of one takes as many steps as
/// their set is deep.
///
/// The seed of the hashes is fixed: of keys that were made to have one hash, each look goes over all.
#[derive(Drop)]
pub struct DueTable<K: Key + Hash, V: Waits> {
    held: HashMap<K, V>,
    dues: Dues<K>,
}

impl<K: Key + Hash, V: Waits> Model for DueTable<K, V> {
    ghost use Rattle.std.specs.Prelude.{List};
    ghost use Rattle.someip_tables.specs.hashed.Dues.{Tracks};

    ghost Value = { List (K × V) };

    ghost view = { λ m. m.held.entries };

    ghost invariant = { λ m. Tracks K.cmp V.moment m.dues m.held.entries };
}

impl<K: Key + Hash, V: Waits> DueTable<K, V> {
    /// An empty table. It takes no memory.
    #[tactic(auto, unfolding(crate::specs::hashed::Dues::has_due))]
    pub fn new(alloc: Global) -> DueTable<K, V>
        ensures { map_of K.cmp result ≡ finite.empty }
    {
        DueTable {
            held: HashMap::new(alloc),
            dues: BTreeSet::new(alloc),
        }
    }

    /// How many keys have a value.
    pub fn len(&self) -> usize
        ensures { result ≡ finite.len (map_of K.cmp self.now) }
    {
        self.held.len()
    }

    /// The value of a key.
    pub fn get(&self, key: &K) -> Option<V>
        ensures { result ≡ finite.get (map_of K.cmp self.now) key.now }
    {
        look(&self.held, key)
    }

    /// Puts a value under a key, in place of an earlier one. What is refused because memory ran out
    /// leaves the table as it was, and memory is taken only where the key is new, or waits for a moment
    /// for which it did not.
    pub fn insert(&mut self, key: K, value: V) -> Result<(), AllocError>
        ensures ok { OnOk result
            (map_of K.cmp self.new ≡ finite.insert (map_of K.cmp self.old) key value) }
        ensures err { OnErr result (self.new ≡ self.old) }
        ensures grows { OnErr result (WantsMemory V.moment
            (finite.get (map_of K.cmp self.old) key) (V.moment value)) }
    {
        put(&mut self.held, &mut self.dues, key, value)
    }

    /// Takes a key out. It takes no memory.
    pub fn remove(&mut self, key: &K)
        ensures { map_of K.cmp self.new ≡ finite.remove (map_of K.cmp self.old) key.now }
    {
        take_out(&mut self.held, &mut self.dues, key);
    }

    /// Takes out the key that is due first, and tells it. This takes fewer steps than to take out any
    /// other, and no memory.
    pub fn remove_first(&mut self) -> Option<Due<K>>
        ensures first { IsFirstDue V.moment (map_of K.cmp self.old) result }
        ensures taken { IfSome result (λ first. map_of K.cmp self.new
            ≡ finite.remove (map_of K.cmp self.old) first.key) }
        ensures none { IfNone result (map_of K.cmp self.new ≡ map_of K.cmp self.old) }
    {
        take_out_first(&mut self.held, &mut self.dues)
    }

    /// Keeps the entries that pass a test of key and value, which is asked once for each entry. It takes
    /// no memory.
    pub fn retain<F: Fn(&K, &V) -> bool + Drop>(&mut self, keep: F)
        requires { F.IsAlwaysCallable keep }
        ensures { (test : K → V → Bool) → AnswersPairAs F.Fn keep test
            → map_of K.cmp self.new ≡ retain (map_of K.cmp self.old) test }
    {
        retain(&mut self.held, &mut self.dues, keep);
    }

    /// The key whose moment comes first, by moment and then by key, if one waits for any. It looks at
    /// this alone.
    pub fn first_due(&self) -> Option<Due<K>>
        ensures { IsFirstDue V.moment (map_of K.cmp self.now) result }
    {
        first_due(&self.dues)
    }
}
