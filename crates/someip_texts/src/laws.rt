//! What the definitions behind the contracts promise. Each law is the contract of a function that does
//! nothing.
ghost use Rattle.std.specs.Prelude.{◌≡◌, ◌<◌, ◌≤◌, ◌^◌, ℕ, List, None, Some, codes, decimal};
ghost use Rattle.someip_texts.specs.Keys.{lesser_of};
ghost use Rattle.someip_texts.specs.Numbers.{number_in, positive_in};

/// Digits stand for a number exactly where they are its decimal text.
pub fn what_numbers_say()
    ensures spelled { (limit n : ℕ) → n < limit → limit ≤ 2 ^ 64
        → number_in limit (decimal n) ≡ Some n }
    ensures only { (limit n : ℕ) (word : List ℕ) → limit ≤ 2 ^ 64 → number_in limit word ≡ Some n
        → (word ≡ decimal n) × (n < limit) }
{}

/// So do those that stand for a number which is no zero.
pub fn what_positive_numbers_say()
    ensures spelled { (limit n : ℕ) → 0 < n → n < limit → limit ≤ 2 ^ 64
        → positive_in limit (decimal n) ≡ Some n }
    ensures only { (limit n : ℕ) (word : List ℕ) → limit ≤ 2 ^ 64
        → positive_in limit word ≡ Some n → (word ≡ decimal n) × (0 < n) × (n < limit) }
{}

/// Examples: of two keys the one whose first byte that differs is lesser, or that ends first, whichever
/// comes first.
pub fn the_lesser_key_by_example()
    ensures second { lesser_of (Some (codes "cyclic")) (Some (codes "address")) ≡ Some (codes "address") }
    ensures first { lesser_of (Some (codes "address")) (Some (codes "cyclic")) ≡ Some (codes "address") }
    ensures shorter { lesser_of (Some (codes "ports")) (Some (codes "port")) ≡ Some (codes "port") }
    ensures upper { lesser_of (Some (codes "a")) (Some (codes "B")) ≡ Some (codes "B") }
    ensures one { lesser_of None (Some (codes "port")) ≡ Some (codes "port") }
    ensures none { lesser_of None None ≡ None }
{}
