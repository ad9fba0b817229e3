//! Laws of the definitions behind the contracts. Each is the contract of a function that does nothing: it says which
//! intervals a history has, whatever code keeps the book.
ghost use Rattle.std.specs.Prelude.{◌≡◌, ◌<◌, ℕ, List, [], ◌∷◌, false};
ghost use Rattle.std.specs.Option.{option_to_list};
ghost use Rattle.std.specs.FinMap as finite;
ghost use Rattle.std.specs.Ordering.{nat_cmp};
ghost use Rattle.audit_services.specs.declared.stay.Ended.{Ended};
ghost use Rattle.audit_services.specs.declared.why.Why.TheVariants.{Expired, Moved, Open, Stopped};
ghost use Rattle.audit_services.specs.Examples.{begins, ends, goes_on, leaves, stood};
ghost use Rattle.audit_services.specs.Books.{Book};
ghost use Rattle.audit_services.specs.Histories.{Event, Tells, intervals_under, timeline};
ghost use Rattle.audit_services.specs.Timelines.{AreInOrder, Changed, covering, ended_in, intervals_of, standing_in};
ghost use Rattle.audit_services.specs.Timelines.{stood_at};

use crate::placed::Placed;
use someip_tables::Key;

/// The intervals of one key, by example: the number 7 begins to stand at moment 100 for 3 seconds. The newest change
/// is first.
pub fn intervals_by_example()
    ensures open { intervals_of nat_cmp (begins 100 7 3 ∷ []) 3099 ≡ stood 7 100 3099 Open ∷ [] }
    ensures expired { intervals_of nat_cmp (begins 100 7 3 ∷ []) 3100 ≡ stood 7 100 3100 Expired ∷ [] }
    ensures for_ever { intervals_of nat_cmp (begins 100 7 0xFFFFFF ∷ []) 9999999999
        ≡ stood 7 100 9999999999 Open ∷ [] }
    ensures renewed { intervals_of nat_cmp (begins 3099 7 3 ∷ begins 100 7 3 ∷ []) 4000
        ≡ stood 7 100 4000 Open ∷ [] }
    ensures again { intervals_of nat_cmp (begins 3100 7 3 ∷ begins 100 7 3 ∷ []) 4000
        ≡ stood 7 100 3100 Expired ∷ stood 7 3100 4000 Open ∷ [] }
    ensures moved { intervals_of nat_cmp (begins 200 8 3 ∷ begins 100 7 3 ∷ []) 300
        ≡ stood 7 100 200 Moved ∷ stood 8 200 300 Open ∷ [] }
    ensures stopped { intervals_of nat_cmp (ends 200 Stopped ∷ begins 100 7 3 ∷ []) 300
        ≡ stood 7 100 200 Stopped ∷ [] }
    ensures stopped_late { intervals_of nat_cmp (ends 3100 Stopped ∷ begins 100 7 3 ∷ []) 4000
        ≡ stood 7 100 3100 Expired ∷ [] }
    ensures not_there { intervals_of nat_cmp (ends 200 Stopped ∷ []) 300 ≡ [] }
    ensures goes_on { intervals_of nat_cmp (goes_on 200 5 ∷ begins 100 7 3 ∷ []) 5200
        ≡ stood 7 100 5200 Expired ∷ [] }
    ensures nothing_goes_on { intervals_of nat_cmp (goes_on 200 5 ∷ []) 300 ≡ [] }
    ensures left { intervals_of nat_cmp (leaves 200 ∷ begins 100 7 3 ∷ []) 300 ≡ stood 7 100 300 Open ∷ [] }
    ensures covered { covering 100 (stood 7 100 3100 Expired ∷ []) ≡ 7 ∷ [] }
    ensures covered_last { covering 3099 (stood 7 100 3100 Expired ∷ []) ≡ 7 ∷ [] }
    ensures not_before { covering 99 (stood 7 100 3100 Expired ∷ []) ≡ [] }
    ensures not_at_its_end { covering 3100 (stood 7 100 3100 Expired ∷ []) ≡ [] }
{}

/// At each moment before the end of a recording the intervals of a key cover just what stood under it then: one
/// interval if something stood, which has its value, and none else. So intervals of one key do not overlap.
pub fn what_stood_is_covered<V: Key>()
    ensures { (changes : List (Changed V)) (end now : ℕ) → AreInOrder changes end → now < end
        → covering now (intervals_of V.cmp changes end) ≡ option_to_list (stood_at V.cmp changes now) }
{}

/// A book that was never full holds under each key what stands by the events so far, and has told exactly the
/// intervals of the key that ended by them, the oldest first.
pub fn a_book_tells_timelines<P: Key, K: Placed<P>, V: Key>()
    ensures { (limit : ℕ) (events : List (Event P K V)) (told : List (Ended K V)) (book : Book K.cmp V)
        → Tells P.cmp K.cmp V.cmp K.places limit events told book → book.told_full ≡ false → (key : K)
        → (finite.get book.stays key ≡ standing_in V.cmp (timeline P.cmp K.cmp V.cmp K.places events key))
        × (intervals_under K.cmp key told ≡ ended_in V.cmp (timeline P.cmp K.cmp V.cmp K.places events key)) }
{}
