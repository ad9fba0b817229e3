//! Laws of the definitions behind the contracts. Each is the contract of a function that does nothing:
//! it says what the messages of a recording show of ways, whatever code keeps the book.
ghost use Rattle.std.specs.Prelude.{◌≡◌, ◌↔◌, ◌<◌, ◌^◌, ℕ, List, [], length, true, false, Some};
ghost use Rattle.std.specs.FinMap as finite;
ghost use Rattle.audit_traffic.specs.declared.ways.finding.Finding.TheVariants.{Full};
ghost use Rattle.audit_traffic.specs.declared.ways.way.OneWay.{OneWay};
ghost use Rattle.audit_traffic.specs.declared.ways.way.Way.{Way};
ghost use Rattle.audit_traffic.specs.ways.WayHistories.{IsAmong, IsOneWay, book_of, goes_alone, kept_of, times, way, went};
ghost use Rattle.audit_traffic.specs.ways.WayTables.{Ways, after_message, one_ways, told_by};

/// Which ways messages go alone, by example: eight messages from node 1 to node 2 do, while none comes back.
/// Seven do not, nor do eight after one came back, or before one did.
pub fn one_ways_by_example()
    ensures eight { goes_alone (way 1 2) (went 8 1 2 []) ≡ true }
    ensures seven { goes_alone (way 1 2) (went 7 1 2 []) ≡ false }
    ensures answered { goes_alone (way 1 2) (went 8 1 2 (went 1 2 1 [])) ≡ false }
    ensures answered_later { goes_alone (way 1 2) (went 1 2 1 (went 8 1 2 [])) ≡ false }
    ensures answers { goes_alone (way 2 1) (went 1 2 1 (went 8 1 2 [])) ≡ false }
    // What comes from another node is no answer.
    ensures of_another { goes_alone (way 1 2) (went 1 3 1 (went 8 1 2 [])) ≡ true }
    // What a node sends to itself comes back.
    ensures to_itself { goes_alone (way 1 1) (went 8 1 1 []) ≡ false }
    ensures all { times (way 1 2) (went 4 1 2 (went 3 2 1 (went 5 1 2 []))) ≡ 9 }
{}

/// A book that was never full keeps exactly how many messages went each way, as long as fewer than 2^64 did.
pub fn a_book_counts_what_went()
    ensures { (limit : ℕ) (went : List Way) (way : Way) → length went < 2 ^ 64
        → (book_of limit went).told_full ≡ false
        → finite.get (book_of limit went).numbers way ≡ kept_of (times way went) }
{}

/// A book that was never full tells of a way exactly where at least eight messages went it, so many, and
/// none came back.
pub fn each_one_way_has_its_reason()
    ensures { (limit : ℕ) (went : List Way) (one : OneWay) → length went < 2 ^ 64
        → (book_of limit went).told_full ≡ false
        → IsAmong one (one_ways (book_of limit went)) ↔ IsOneWay one went }
{}

/// That a book is full is told once in its life.
pub fn full_is_told_once()
    ensures notes { (way : Way) (book : Ways) → told_by way book ≡ Some Full
        → (book.told_full ≡ false) × ((after_message way book).told_full ≡ true) }
    ensures stays { (way : Way) (book : Ways) → book.told_full ≡ true
        → (after_message way book).told_full ≡ true }
{}
