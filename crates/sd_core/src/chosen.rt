//! The keys of the entries that pass a test.
ghost use Rattle.std.specs.Prelude.{◌≡◌, ◌≢◌, IfOk, OnErr, Bool};
ghost use Rattle.std.specs.FinMap as finite;
ghost use Rattle.someip_tables.specs.Retained.{retain};
ghost use Rattle.someip_tables.specs.Tables.{map_of, AnswersPairAs};

use someip_tables::Key;
use std::alloc::{AllocError, Global};
use std::collections::BTreeMap;

/// The keys of the entries that pass a test, by rising key. It takes memory only where there are any.
pub(crate) fn keys_where<K: Key, V, F: Fn(&K, &V) -> bool + Drop>(
    table: &BTreeMap<K, V>,
    alloc: Global,
    test: F,
) -> Result<Vec<K>, AllocError>
    requires { F.IsAlwaysCallable test }
    ensures chosen { (p : K → V → Bool) → AnswersPairAs F.Fn test p
        → IfOk result (λ keys. keys.items ≡ finite.keys (retain (map_of K.cmp table.now.entries) p)) }
    ensures grows { (p : K → V → Bool) → AnswersPairAs F.Fn test p
        → OnErr result (retain (map_of K.cmp table.now.entries) p ≢ finite.empty) }
{
    let mut keys = Vec::new(alloc);
    for (key, value) in table.iter() {
        if test(key, value) {
            keys.push(*key)?;
        }
    }
    Ok(keys)
}
