//! A list of calls of a store.
use super::slices::slice;
use super::store::key;
use someip_tp::{
    Offered, Reassembly, SegmentList, TpAnswer, TpCall, TpError, are_in_time, run_calls,
};
use std::alloc::Global;

/// What a store answers to calls, whose bytes are appended; nothing where the calls are not in time.
#[tactic(auto, using(someip_tp::proofs::promises::CallMoments::may_run))]
fn answers_of<R: Reassembly>(
    alloc: Global,
    calls: &[TpCall<'_>],
    taken: &mut Vec<u8>,
) -> Result<Vec<TpAnswer>, TpError> {
    let mut store = R::make(alloc, 1, 48, 1000)?;
    if are_in_time(calls) {
        run_calls(alloc, &mut store, calls, taken)
    } else {
        Ok(Vec::new(alloc))
    }
}

/// A message in two segments, which is taken.
fn is_taken(alloc: Global) -> Option<bool> {
    let calls = [
        TpCall::Offer {
            key: key(1),
            offset: 0,
            more: true,
            bytes: slice("One"),
            now: 0,
        },
        TpCall::Offer {
            key: key(1),
            offset: 16,
            more: false,
            bytes: slice("Two"),
            now: 999,
        },
        TpCall::Take { key: key(1) },
    ];
    let wanted = [
        TpAnswer::Offered(Ok(Offered::Part)),
        TpAnswer::Offered(Ok(Offered::Whole)),
        TpAnswer::Taken(true),
    ];
    let mut taken = Vec::new(alloc);
    let answers = answers_of::<SegmentList>(alloc, &calls, &mut taken).ok()?;
    Some(answers.as_slice() == wanted.as_slice() && taken.as_slice() == slice("OneTwo"))
}

#[test]
fn a_list_of_calls(rt: HostRuntime) {
    assert!(rt; is_taken(rt.alloc()) == Some(true));
}
