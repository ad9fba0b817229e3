//! Keys that stand twice in a list.
ghost use Rattle.std.specs.Prelude.{◌≡◌, IfOk};
ghost use Rattle.std.specs.Ordering.{eq_by_cmp};
ghost use Rattle.someip_world_setup_keys.specs.Clashes.{has_repeat};

use std::alloc::{AllocError, Global};
use std::collections::BTreeSet;

/// Whether a key stands twice in a list.
pub(crate) fn has_repeat<K: Ord + Copy>(alloc: Global, keys: &[K]) -> Result<bool, AllocError>
    ensures { IfOk result (λ b. b ≡ has_repeat (eq_by_cmp K.cmp) keys.now) }
{
    let mut met = BTreeSet::new(alloc);
    for key in keys {
        if !met.insert(*key)? {
            return Ok(true);
        }
    }
    Ok(false)
}
