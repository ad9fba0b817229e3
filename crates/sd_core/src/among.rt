//! The keys among some whose entries pass a test.
ghost use Rattle.std.specs.Prelude.{◌≡◌, IfOk, Bool, true, false};
ghost use Rattle.std.specs.Option.{option_map_or};
ghost use Rattle.std.specs.FinMap as finite;
ghost use Rattle.someip_tables.specs.Retained.{retain};
ghost use Rattle.someip_tables.specs.Tables.{map_of, AnswersPairAs};

use someip_tables::Key;
use std::alloc::{AllocError, Global};
use std::collections::BTreeMap;

/// The keys of the entries that pass a test, by rising key, where the keys of all that pass a weaker
/// one are at hand: it looks at those alone.
pub(crate) fn keys_among<K: Key, V, F: Fn(&K, &V) -> bool + Drop>(
    table: &BTreeMap<K, V>,
    alloc: Global,
    those: &[K],
    test: F,
) -> Result<Vec<K>, AllocError>
    requires { F.IsAlwaysCallable test }
    ensures { (p weaker : K → V → Bool) → AnswersPairAs F.Fn test p
        → those.now ≡ finite.keys (retain (map_of K.cmp table.now.entries) weaker)
        → ((key : K) (value : V) → p key value ≡ true → weaker key value ≡ true)
        → IfOk result (λ keys. keys.items ≡ finite.keys (retain (map_of K.cmp table.now.entries) p)) }
{
    let mut keys = Vec::new(alloc);
    for key in those {
        if passes(table, key, &test) {
            keys.push(*key)?;
        }
    }
    Ok(keys)
}

/// Whether a key has an entry that passes a test.
fn passes<K: Key, V, F: Fn(&K, &V) -> bool>(table: &BTreeMap<K, V>, key: &K, test: &F) -> bool
    requires { F.IsAlwaysCallable test.now }
    ensures { (p : K → V → Bool) → AnswersPairAs F.Fn test.now p → result
        ≡ option_map_or (p key.now) (finite.get (map_of K.cmp table.now.entries) key.now) false }
{
    match table.get(key) {
        Some(value) => test(key, value),
        None => false,
    }
}
