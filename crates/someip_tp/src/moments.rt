//! When a store may be called: the moments of the segments that are offered never fall.
ghost use Rattle.std.specs.Prelude.{◌≡◌, ◌≢◌, ◌≤◌, ◌↔◌, ℕ, List, Result, Err, true};
ghost use Rattle.std.specs.FinMap as map;
ghost use Rattle.someip_reassembly.specs.declared.key.ReassemblyKey.{ReassemblyKey};
ghost use Rattle.someip_tp.specs.declared.calls.TpCall.{TpCall};
ghost use Rattle.someip_reassembly.specs.declared.error.TpError.{TpError};
ghost use Rattle.someip_reassembly.specs.declared.reassembly.Offered.{Offered};
ghost use Rattle.someip_reassembly.specs.Parts.{Limits, Parts, NoneAfter, parts_at};
ghost use Rattle.someip_reassembly.specs.SegmentOffers.{SegmentOffer, parts_after, parts_less};
ghost use Rattle.someip_tp.specs.Calls.{MayCalls};
ghost use Rattle.someip_tp.specs.Moments.{AreInTime, moment_after};

use crate::calls::TpCall;

/// Whether each offset is a multiple of 16, and no segment is offered before an earlier one. Then a
/// store without parts may be called so.
pub fn are_in_time(calls: &[TpCall<'_>]) -> bool
    ensures { (result ≡ true) ↔ AreInTime calls.now }
{
    let mut last = 0;
    for call in calls {
        let Some(now) = moment_after(last, call) else {
            return false;
        };
        last = now;
    }
    true
}

/// The moment of the last segment that was offered, once this call was made; none where the call may
/// not be made then.
fn moment_after(last: u64, call: &TpCall<'_>) -> Option<u64>
    ensures { result ≡ moment_after last call.now }
{
    match *call {
        TpCall::Offer { offset, now, .. } => {
            if offset % 16 == 0 && last <= now {
                Some(now)
            } else {
                None
            }
        }
        TpCall::Take { .. } => Some(last),
        TpCall::Expire { .. } => Some(last),
        TpCall::Clear => Some(last),
    }
}

/// Any list of calls may be made of a store without parts, as long as each offset is a multiple of 16
/// and no segment is offered before an earlier one.
pub fn calls_in_time_may_be_made()
    ensures { (limits : Limits) (calls : List TpCall) → AreInTime calls
        → MayCalls limits calls map.empty }
{}

/// A caller whose moments never fall may offer a segment at each of them: no part ever had a segment
/// after the last moment, whatever it called.
pub fn no_part_is_ahead_of_its_caller()
    ensures none { (now : ℕ) → NoneAfter now map.empty }
    ensures later { (now next : ℕ) (parts : Parts) → now ≤ next → NoneAfter now parts
        → NoneAfter next parts }
    ensures offer { (now : ℕ) (limits : Limits) (segment : SegmentOffer) (parts : Parts)
        → NoneAfter now parts → NoneAfter now (parts_after limits now segment parts) }
    // The same of the parts that are left by a call of `offer`, which may have run out of memory.
    ensures offered { (now : ℕ) (limits : Limits) (segment : SegmentOffer) (parts left : Parts)
        (result : Result Offered TpError)
        → (result ≢ Err TpError.OutOfMemory → left ≡ parts_after limits now segment parts)
        → (result ≡ Err TpError.OutOfMemory → left ≡ parts_at limits now parts)
        → NoneAfter now parts → NoneAfter now left }
    ensures take { (now : ℕ) (key : ReassemblyKey) (parts : Parts)
        → NoneAfter now parts → NoneAfter now (parts_less parts key) }
    ensures expire { (now : ℕ) (limits : Limits) (at : ℕ) (parts : Parts)
        → NoneAfter now parts → NoneAfter now (parts_at limits at parts) }
{}
