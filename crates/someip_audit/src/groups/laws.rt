//! Laws of the definitions behind the contracts. Each is the contract of a function that does nothing: it says
//! what a book of groups tells, whatever code keeps it.
ghost use Rattle.std.specs.Prelude.{◌≡◌, ◌↔◌, ◌<◌, ◌+◌, ◌^◌, ℕ, List, [], length, nat_lt, true, false};
ghost use Rattle.std.specs.FinMap as finite;
ghost use Rattle.someip_audit.specs.declared.groups.group_key.GroupKey.{GroupKey};
ghost use Rattle.someip_audit.specs.declared.groups.group_key.Grouped.{Grouped};
ghost use Rattle.someip_audit.specs.groups.GroupHistories.{IsAmong, book_of, came, late, times, unanswered};
ghost use Rattle.someip_audit.specs.groups.GroupTables.{Groups, after_one, is_one_told, more_by};
ghost use Rattle.someip_tables.specs.hashed.Rooms.{may_hold};

/// How many of a group came, by example, and whether one more is among the first three: the third is, and the fourth is
/// not; nor do those of another group count.
pub fn times_by_example()
    ensures third { nat_lt (times late (came 2 late [])) 3 ≡ true }
    ensures fourth { nat_lt (times late (came 3 late [])) 3 ≡ false }
    ensures of_another { nat_lt (times unanswered (came 3 late [])) 3 ≡ true }
    ensures number { times late (came 4 late (came 2 unanswered [])) ≡ 4 }
{}

/// One of a group for which there is no room is told, and changes nothing.
pub fn groups_without_room_are_told()
    ensures told { (key : GroupKey) (book : Groups) → may_hold book.limit book.numbers key ≡ false
        → is_one_told key book ≡ true }
    ensures same { (key : GroupKey) (book : Groups) → may_hold book.limit book.numbers key ≡ false
        → after_one key book ≡ book }
{}

/// The first three of each group are told and no other, as long as there is room for a group more, and fewer than
/// 2^64 came.
pub fn the_first_three_are_told()
    ensures { (limit : ℕ) (came : List GroupKey) (key : GroupKey) → length came < 2 ^ 64
        → finite.len (book_of limit came).numbers < limit
        → is_one_told key (book_of limit came) ≡ nat_lt (times key came) 3 }
{}

/// The groups of which more than three came are exactly those that are told at the end, with how many more, as long as
/// there is room for a group more, and fewer than 2^64 came.
pub fn all_others_are_counted()
    ensures { (limit : ℕ) (came : List GroupKey) (one : Grouped) → length came < 2 ^ 64
        → finite.len (book_of limit came).numbers < limit
        → IsAmong one (more_by (book_of limit came)) ↔ (times one.key came ≡ one.more + 3) × (0 < one.more) }
{}
