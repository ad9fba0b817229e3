//! Keys at their places.
ghost use Rattle.std.specs.Prelude.{◌≡◌, ◌<◌, ◌≤◌, ◌++◌, IfOk, IfSome, IfNone, OnErr, OnOk, Some, if◌then◌else◌, length, true, false};
ghost use Rattle.std.specs.List.Sorted.{IsStrictlySortedBy};
ghost use Rattle.std.specs.Option.{option_to_list};
ghost use Rattle.audit_index.specs.Slots.{is_same_slot, keys_at, stands};

use crate::slot::Slot;
use someip_tables::{Key, is_same_key};
use std::alloc::{AllocError, Global};
use std::collections::BTreeSet;
use std::marker::Model;
use std::ops::Bound;

/// Keys at their places, in order: the first key of a place is found among `n` keys in `log n` steps.
#[derive(Drop)]
pub struct Index<P: Key, K: Key> {
    slots: BTreeSet<Slot<P, K>>,
}

impl<P: Key, K: Key> Model for Index<P, K> {
    ghost use Rattle.std.specs.Prelude.{List};
    ghost use Rattle.audit_index.specs.declared.slot.Slot.{Slot};

    ghost Value = { List (Slot P K) };

    ghost view = { λ i. i.slots.keys };
}

impl<P: Key, K: Key> Index<P, K> {
    /// No key is at any place. It takes no memory.
    pub fn new(alloc: Global) -> Index<P, K>
        ensures { (place : P) (key : K) → stands P.cmp K.cmp result place key ≡ false }
    {
        Index {
            slots: BTreeSet::new(alloc),
        }
    }

    /// Puts a key at a place. Memory is taken for one that is not there alone, and where it is refused
    /// nothing changes.
    pub fn put(&mut self, place: P, key: K) -> Result<(), AllocError>
        ensures ok { OnOk result ((other : P) (at : K) → stands P.cmp K.cmp self.new other at
            ≡ (if is_same_slot P.cmp K.cmp place key other at then true else stands P.cmp K.cmp self.old other at)) }
        ensures err { OnErr result (self.new ≡ self.old) }
        ensures grows { OnErr result (stands P.cmp K.cmp self.old place key ≡ false) }
    {
        self.slots.insert(slot(place, key))?;
        Ok(())
    }

    /// Takes a key from a place, if it is there. It takes no memory.
    pub fn remove(&mut self, place: P, key: K)
        ensures taken { (other : P) (at : K) → stands P.cmp K.cmp self.new other at
            ≡ (if is_same_slot P.cmp K.cmp place key other at then false else stands P.cmp K.cmp self.old other at) }
        ensures fewer { length self.new ≤ length self.old }
        ensures one_less { stands P.cmp K.cmp self.old place key ≡ true → length self.new < length self.old }
    {
        self.slots.remove(&slot(place, key));
    }

    /// The first key at a place, if there is one. It looks at no other place.
    pub fn first(&self, place: P) -> Option<K>
        ensures some { IfSome result (λ key. stands P.cmp K.cmp self.now place key ≡ true) }
        ensures none { IfNone result ((key : K) → stands P.cmp K.cmp self.now place key ≡ false) }
    {
        let begin = Slot { place, key: None };
        let range = (Bound::Excluded(begin), Bound::Unbounded);
        let first = self.slots.range(range).next()?;
        if is_same_key(&first.place, &place) {
            first.key
        } else {
            None
        }
    }

    /// The keys at a place, by rising key. It looks at no other place, and takes memory only where there are any.
    pub fn keys_at(&self, alloc: Global, place: P) -> Result<Vec<K>, AllocError>
        ensures keys { IfOk result (λ keys. keys.items ≡ keys_at P.cmp place self.now) }
        ensures rises { IfOk result (λ keys. IsStrictlySortedBy K.cmp keys.items) }
    {
        let mut keys = Vec::new(alloc);
        let begin = Slot { place, key: None };
        let range = (Bound::Excluded(begin), Bound::Unbounded);
        for slot in self.slots.range(range) {
            if !is_same_key(&slot.place, &place) {
                return Ok(keys);
            }
            push_some(&mut keys, slot.key)?;
        }
        Ok(keys)
    }

    /// Takes the first key from a place, and tells it. Whoever asks until there is none has asked once for
    /// each key that was there, and once more. It takes no memory.
    pub fn take(&mut self, place: P) -> Option<K>
        ensures some { IfSome result (λ key. stands P.cmp K.cmp self.old place key ≡ true) }
        ensures none { IfNone result ((key : K) → stands P.cmp K.cmp self.old place key ≡ false) }
        ensures taken { IfSome result (λ key. (other : P) (at : K) → stands P.cmp K.cmp self.new other at
            ≡ (if is_same_slot P.cmp K.cmp place key other at then false else stands P.cmp K.cmp self.old other at)) }
        ensures unchanged { IfNone result (self.new ≡ self.old) }
        ensures fewer { IfSome result (λ _. length self.new < length self.old) }
    {
        let key = self.first(place)?;
        self.slots.remove(&slot(place, key));
        Some(key)
    }
}

/// Appends a key, if there is one.
fn push_some<K: Key>(keys: &mut Vec<K>, key: Option<K>) -> Result<(), AllocError>
    ensures { OnOk result (keys.new.items ≡ keys.old.items ++ option_to_list key) }
{
    if let Some(key) = key {
        keys.push(key)?;
    }
    Ok(())
}

/// A key at a place.
fn slot<P: Key, K: Key>(place: P, key: K) -> Slot<P, K>
    ensures { result ≡ record { place = place; key = Some key } }
{
    Slot {
        place,
        key: Some(key),
    }
}
