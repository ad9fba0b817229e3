//! Laws of the definitions behind the contracts. Each is the contract of a function that does
//! nothing: it says what holds of tables with moments, whatever code keeps them.
ghost use Rattle.std.specs.Prelude.{◌≡◌, ℕ, Option};
ghost use Rattle.std.specs.FinMap.{FinMap};
ghost use Rattle.someip_tables.specs.hashed.Dues.{IsFirstDue};
ghost use Rattle.someip_tables.specs.declared.hashed.due.Due.{Due};

use crate::Key;

/// Which key is due first is determined by the table.
pub fn one_key_is_due_first<K: Key, V>()
    ensures { (moment : V → Option ℕ) (table : FinMap K.cmp V) (one other : Option (Due K))
        → IsFirstDue moment table one → IsFirstDue moment table other → one ≡ other }
{}
