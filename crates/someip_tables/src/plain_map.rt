//! Maps whose values stay until they are replaced.
ghost use Rattle.std.specs.Prelude.{◌≡◌, OnOk, OnErr, None};
ghost use Rattle.std.specs.FinMap as finite;
ghost use Rattle.someip_tables.specs.Tables.{map_of};

use crate::key::Key;
use std::alloc::AllocError;
use std::collections::BTreeMap;

/// The value of a key, if it has one.
pub fn value_at<K: Key, V: Copy>(map: &BTreeMap<K, V>, key: K) -> Option<V>
    ensures { result ≡ finite.get (map_of K.cmp map.now.entries) key }
{
    map.get(&key).copied()
}

/// Puts a value under a key, in place of an earlier one. The only error is that memory ran out: then
/// the key had no value, and the map is as it was.
pub fn put_value<K: Key, V: Copy>(
    map: &mut BTreeMap<K, V>,
    key: K,
    value: V,
) -> Result<(), AllocError>
    ensures ok { OnOk result (map_of K.cmp map.new.entries
        ≡ finite.insert (map_of K.cmp map.old.entries) key value) }
    ensures absent { OnErr result (finite.get (map_of K.cmp map.old.entries) key ≡ None) }
    ensures err { OnErr result (map_of K.cmp map.new.entries ≡ map_of K.cmp map.old.entries) }
{
    match map.insert(key, value) {
        Ok(_) => Ok(()),
        Err(_) => Err(AllocError),
    }
}
