//! Laws of the definitions behind the contracts. Each is the contract of a function that does
//! nothing: it says what a copy is, whatever code tells it.
ghost use Rattle.std.specs.Prelude.{◌≡◌, ◌↔◌, ◌≤◌, ℕ, List, [], ◌∷◌, ◌++◌, true, false};
ghost use Rattle.recording.specs.Packets.{Ipv4Value};
ghost use Rattle.recording_packets.specs.copies.Remembered.{SightingValue, is_copy, is_same, after};
ghost use Rattle.recording_packets.specs.copies.Remembered.{cost_of_all, has_to_go, kept};
ghost use Rattle.recording_packets.specs.copies.Recordings.{IsInTime, IsNeverFull};
ghost use Rattle.recording_packets.specs.copies.Recordings.{remembered_after};
ghost use Rattle.recording_packets.specs.copies.Examples.{sent, sent_next, seen_at};

use crate::copies::BUDGET;

/// While the budget is not passed, a packet is a copy exactly where the same stands among all
/// packets of the recording so far, at most the window before it: what was forgotten can't matter.
/// Where the budget is passed, no packet is a copy that would not be one else.
pub fn the_forgotten_does_not_matter()
    ensures same { (window : ℕ) (seen : SightingValue) (earlier : List SightingValue)
        → IsInTime (seen ∷ earlier) → IsNeverFull window earlier
        → is_copy window seen.moment seen.packet (remembered_after window earlier)
        ≡ is_copy window seen.moment seen.packet earlier }
    ensures only { (window now : ℕ) (packet : Ipv4Value) (earlier : List SightingValue)
        → is_copy window now packet (remembered_after window earlier) ≡ true
        → is_copy window now packet earlier ≡ true }
{}

/// Packets are the same where they are equal: two that differ in source, destination,
/// identification, fragment field, protocol or payload are not.
pub fn the_same_are_equal()
    ensures equal { (a b : Ipv4Value) → (is_same a b ≡ true) ↔ (a ≡ b) }
    ensures source { is_same sent (record sent { source = 10 ∷ 0 ∷ 0 ∷ 3 ∷ [] }) ≡ false }
    ensures destination { is_same sent (record sent { destination = 10 ∷ 0 ∷ 0 ∷ 3 ∷ [] }) ≡ false }
    ensures identification { is_same sent (record sent { identification = 8 }) ≡ false }
    ensures fragment { is_same sent (record sent { fragment = 0x2000 }) ≡ false }
    ensures protocol { is_same sent (record sent { protocol = 6 }) ≡ false }
    ensures payload { is_same sent (record sent { payload = 1 ∷ 2 ∷ 4 ∷ [] }) ≡ false }
    ensures longer { is_same sent (record sent { payload = 1 ∷ 2 ∷ 3 ∷ 0 ∷ [] }) ≡ false }
{}

/// What is remembered counts at most the budget. The oldest go, and what stays does not have to.
pub fn what_is_remembered_fits()
    ensures fits { (window now : ℕ) (packet : Ipv4Value) (remembered : List SightingValue)
        → cost_of_all (after window now packet remembered) ≤ BUDGET }
    ensures oldest { (window now : ℕ) (all : List SightingValue)
        → (gone : List SightingValue) × (all ≡ gone ++ kept window now all) }
    ensures stays { (window now : ℕ) (all : List SightingValue)
        → has_to_go window now (kept window now all) ≡ false }
{}

/// Examples, with a window of a millisecond: a packet comes again within the window, at its edge
/// and after it; a copy comes again; one that is out of the window is forgotten, and one at its
/// edge is not.
pub fn worked_copies()
    ensures within { is_copy 1000000 1500000 sent (seen_at 1000000 sent ∷ []) ≡ true }
    ensures edge { is_copy 1000000 2000000 sent (seen_at 1000000 sent ∷ []) ≡ true }
    ensures late { is_copy 1000000 2000001 sent (seen_at 1000000 sent ∷ []) ≡ false }
    ensures first { is_copy 1000000 1500000 sent [] ≡ false }
    ensures again { is_copy 1000000 3000000 sent
        (after 1000000 2000000 sent (seen_at 1000000 sent ∷ [])) ≡ true }
    ensures once { after 1000000 2000000 sent (seen_at 1000000 sent ∷ [])
        ≡ seen_at 2000000 sent ∷ [] }
    ensures other { after 1000000 2000000 sent_next (seen_at 1000000 sent ∷ [])
        ≡ seen_at 1000000 sent ∷ seen_at 2000000 sent_next ∷ [] }
    ensures forgotten { after 1000000 2000001 sent_next (seen_at 1000000 sent ∷ [])
        ≡ seen_at 2000001 sent_next ∷ [] }
    ensures fits { IsNeverFull 1000000 (seen_at 2000000 sent ∷ seen_at 1000000 sent ∷ []) }
{}
