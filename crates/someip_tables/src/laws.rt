//! Laws of the definitions behind the contracts. Each is the contract of a function that does
//! nothing: it says what holds of deadlines, tables and sorted lists, whatever code keeps them.
ghost use Rattle.std.specs.Prelude.{◌≡◌, ◌≢◌, ◌↔◌, ◌≤◌, ℕ, List, [], ◌∷◌, true, false, Some, None};
ghost use Rattle.std.specs.List.{list_any};
ghost use Rattle.std.specs.List.Sorted.{IsStrictlySortedBy};
ghost use Rattle.std.specs.Ordering.{eq_by_cmp};
ghost use Rattle.std.specs.declared.cmp.Ordering.TheVariants.{Equal};
ghost use Rattle.std.specs.FinMap.{FinMap, get};
ghost use Rattle.someip_tables.specs.declared.deadline.Deadline.{Deadline};
ghost use Rattle.someip_tables.specs.declared.deadline.Deadline.TheVariants.{At, Never};
ghost use Rattle.someip_tables.specs.declared.lasting.Lasting.{Lasting};
ghost use Rattle.someip_tables.specs.Deadlines.{deadline_after, has_passed};
ghost use Rattle.someip_tables.specs.Lastings.{unless_passed, unexpired, NeedsMemory};
ghost use Rattle.someip_tables.specs.Endpoints.{endpoint_cmp};
ghost use Rattle.someip_tables.specs.SortedSet.{sorted_set};
ghost use Rattle.someip_tables.specs.Examples.{endpoint_at};

use crate::key::Key;

/// A deadline has passed exactly from its own moment on.
pub fn a_deadline_passes_at_its_moment()
    ensures passes { (now : ℕ) (until : Deadline)
        → (has_passed now until ≡ true) ↔ ((at : ℕ) × (until ≡ At at) × (at ≤ now)) }
    ensures at { has_passed 1000 (At 1000) ≡ true }
    ensures before { has_passed 999 (At 1000) ≡ false }
    ensures never { (now : ℕ) → has_passed now Never ≡ false }
{}

/// A TTL counts seconds, and the greatest never passes.
pub fn a_ttl_counts_seconds()
    ensures seconds { deadline_after 5 3 ≡ At 3005 }
    ensures at_once { deadline_after 5 0 ≡ At 5 }
    ensures greatest { (now : ℕ) → deadline_after now 0xFFFFFF ≡ Never }
    ensures second_greatest { deadline_after 5 0xFFFFFE ≡ At 16777214005 }
{}

/// What has not passed is what a table shows: at each key the value, unless its deadline has passed.
pub fn a_table_shows_what_has_not_passed<K: Key, V>()
    ensures unexpired { (now : ℕ) (table : FinMap K.cmp (Lasting V)) (key : K)
        → get (unexpired now table) key ≡ unless_passed now (get table key) }
    ensures stands { (now : ℕ) (lasting : Lasting V) → has_passed now lasting.until ≡ false
        → unless_passed now (Some lasting) ≡ Some lasting }
    ensures over { (now : ℕ) (lasting : Lasting V) → has_passed now lasting.until ≡ true
        → unless_passed now (Some lasting) ≡ None }
    ensures later { (now later : ℕ) (table : FinMap K.cmp (Lasting V)) → now ≤ later
        → unexpired later (unexpired now table) ≡ unexpired later table }
{}

/// Memory may be wanted for a new key and for a new deadline that will pass, and for nothing else.
pub fn memory_is_wanted_for_growth<V>()
    ensures new_key { (until : Deadline) → NeedsMemory {V = V} None until }
    ensures new_deadline { (value : V) → NeedsMemory (Some (record { value = value; until = At 5 })) (At 6) }
    ensures same_deadline { (lasting : Lasting V) → NeedsMemory (Some lasting) lasting.until → ⊥ }
    ensures never { (lasting : Lasting V) → NeedsMemory (Some lasting) Never → ⊥ }
{}

/// Keys that tie are equal.
pub fn keys_that_tie_are_equal<K: Key>()
    ensures { (a b : K) → K.cmp a b ≡ Equal → a ≡ b }
{}

/// A sorted set has the elements of the list, each once, and rises. No other list does.
pub fn a_sorted_set_rises<K: Key>()
    ensures same { (items : List K) (item : K)
        → list_any (eq_by_cmp K.cmp item) (sorted_set K.cmp items) ≡ list_any (eq_by_cmp K.cmp item) items }
    ensures rises { (items : List K) → IsStrictlySortedBy K.cmp (sorted_set K.cmp items) }
    ensures only { (items others : List K) → IsStrictlySortedBy K.cmp others
        → ((item : K) → list_any (eq_by_cmp K.cmp item) others ≡ list_any (eq_by_cmp K.cmp item) items)
        → others ≡ sorted_set K.cmp items }
{}

/// Examples: endpoints rise by address and then by port, and one that stands twice is told once.
pub fn endpoints_rise()
    ensures sorted { sorted_set endpoint_cmp (endpoint_at 40001 ∷ endpoint_at 39999 ∷ endpoint_at 40001 ∷ [])
        ≡ endpoint_at 39999 ∷ endpoint_at 40001 ∷ [] }
    ensures no_other { sorted_set endpoint_cmp (endpoint_at 40001 ∷ endpoint_at 39999 ∷ [])
        ≢ endpoint_at 40001 ∷ endpoint_at 39999 ∷ [] }
{}
