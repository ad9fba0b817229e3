//! A list of calls of a store, one after the other.
//!
//! `run_calls` leaves no part where memory runs out, and nothing appended: so what an error leaves is one
//! sentence.
ghost use Rattle.std.specs.Prelude.{◌≡◌, ◌++◌, ◌∷◌, [], IfOk, IfErr, OnOk, OnErr, length, take};
ghost use Rattle.std.specs.FinMap as map;
ghost use Rattle.someip_tp.specs.Calls.{MayCall, MayCalls, answer_to, answers_to, parts_after_call, parts_through, taken_by, taken_through};

use someip_reassembly::{Offered, Reassembly, ReassemblyKey, TpError};
use std::alloc::{AllocError, Global};

/// A call of a store.
#[derive(Clone, Copy, Debug)]
pub enum TpCall<'a> {
    /// Offer a segment.
    Offer {
        /// The key of its message.
        key: ReassemblyKey,
        /// Its offset in bytes, a multiple of 16.
        offset: u32,
        /// More Segments.
        more: bool,
        /// Its slice.
        bytes: &'a [u8],
        /// When it came, in milliseconds: not before the last segment of any part.
        now: u64,
    },
    /// Take the message of a key, if it is whole.
    Take {
        /// The key.
        key: ReassemblyKey,
    },
    /// Drop the parts whose time is over.
    Expire {
        /// The moment in milliseconds.
        now: u64,
    },
    /// Drop all parts.
    Clear,
}

/// What a call answered.
#[derive(Clone, Copy, Debug, PartialEq, Eq)]
pub enum TpAnswer {
    /// What the segment made of its message, or why it was refused.
    Offered(Result<Offered, TpError>),
    /// Whether a whole message was taken.
    Taken(bool),
    /// Parts were dropped, or none.
    Dropped,
}

/// Makes the calls in order, and gives the answer to each. The bytes of the messages that are taken
/// are appended one after the other.
///
/// The only error is `OutOfMemory`. It leaves no part in the store, and nothing appended.
pub fn run_calls<R: Reassembly>(
    alloc: Global,
    store: &mut R,
    calls: &[TpCall<'_>],
    taken: &mut Vec<u8>,
) -> Result<Vec<TpAnswer>, TpError>
    requires { MayCalls (R.limits store.old) calls.now (R.parts store.old) }
    ensures answers { IfOk result (λ answers.
        answers.items ≡ answers_to (R.limits store.old) calls.now (R.parts store.old)) }
    ensures parts { OnOk result
        (R.parts store.new ≡ parts_through (R.limits store.old) calls.now (R.parts store.old)) }
    ensures taken { OnOk result (taken.new.items
        ≡ taken.old.items ++ taken_through (R.limits store.old) calls.now (R.parts store.old)) }
    ensures err { IfErr result (λ error. error ≡ TpError.OutOfMemory) }
    ensures left { OnErr result
        ((R.parts store.new ≡ map.empty) × (taken.new.items ≡ taken.old.items)) }
    ensures limits { R.limits store.new ≡ R.limits store.old }
{
    let before = taken.len();
    let answers = make_calls(alloc, store, calls, taken);
    if answers.is_err() {
        store.clear();
        taken.truncate(before);
    }
    answers
}

fn make_calls<R: Reassembly>(
    alloc: Global,
    store: &mut R,
    calls: &[TpCall<'_>],
    taken: &mut Vec<u8>,
) -> Result<Vec<TpAnswer>, TpError>
    requires { MayCalls (R.limits store.old) calls.now (R.parts store.old) }
    ensures answers { IfOk result (λ answers.
        answers.items ≡ answers_to (R.limits store.old) calls.now (R.parts store.old)) }
    ensures parts { OnOk result
        (R.parts store.new ≡ parts_through (R.limits store.old) calls.now (R.parts store.old)) }
    ensures taken { OnOk result (taken.new.items
        ≡ taken.old.items ++ taken_through (R.limits store.old) calls.now (R.parts store.old)) }
    ensures err { IfErr result (λ error. error ≡ TpError.OutOfMemory) }
    ensures front { OnErr result (take (length taken.old.items) taken.new.items ≡ taken.old.items) }
    ensures limits { R.limits store.new ≡ R.limits store.old }
{
    let mut answers = Vec::new(alloc);
    for call in calls {
        let answer = make_call(store, *call, taken)?;
        keep(&mut answers, answer)?;
    }
    Ok(answers)
}

fn keep(answers: &mut Vec<TpAnswer>, answer: TpAnswer) -> Result<(), AllocError>
    ensures ok { OnOk result (answers.new.items ≡ answers.old.items ++ answer ∷ []) }
{
    answers.push(answer)?;
    Ok(())
}

fn make_call<R: Reassembly>(
    store: &mut R,
    call: TpCall<'_>,
    taken: &mut Vec<u8>,
) -> Result<TpAnswer, TpError>
    requires { MayCall call (R.parts store.old) }
    ensures answer { IfOk result (λ answer.
        answer ≡ answer_to (R.limits store.old) call.entry (R.parts store.old)) }
    ensures parts { OnOk result
        (R.parts store.new ≡ parts_after_call (R.limits store.old) call.entry (R.parts store.old)) }
    ensures taken { OnOk result
        (taken.new.items ≡ taken.old.items ++ taken_by call.entry (R.parts store.old)) }
    ensures err { IfErr result (λ error. error ≡ TpError.OutOfMemory) }
    ensures unchanged { OnErr result (taken.new.items ≡ taken.old.items) }
    ensures limits { R.limits store.new ≡ R.limits store.old }
{
    match call {
        TpCall::Offer {
            key,
            offset,
            more,
            bytes,
            now,
        } => match store.offer(key, offset, more, bytes, now) {
            Err(TpError::OutOfMemory) => Err(TpError::OutOfMemory),
            judged => Ok(TpAnswer::Offered(judged)),
        },
        TpCall::Take { key } => {
            let whole = store.take(&key, taken)?;
            Ok(TpAnswer::Taken(whole))
        }
        TpCall::Expire { now } => {
            store.expire(now);
            Ok(TpAnswer::Dropped)
        }
        TpCall::Clear => {
            store.clear();
            Ok(TpAnswer::Dropped)
        }
    }
}
