//! The numbers of long payloads: equal ones have one.
ghost use Rattle.std.specs.Prelude.{◌≡◌, IfOk, OnOk, Some};
ghost use Rattle.std.specs.FinMap as finite;
ghost use Rattle.std.specs.Option.{option_map};
ghost use Rattle.someip_world_verdict.specs.Booking.{long_payload_of, number_of, numbered, payload_of};
ghost use Rattle.someip_world_verdict.specs.Views.{view_numbers};

use someip_reassembly::ALONE_LEN;
use someip_world_schedule::{Step, StepPayload};
use std::alloc::{AllocError, Global};
use std::collections::BTreeMap;

/// The number of the payload that a step of an index sends, if it goes in segments.
pub(crate) fn number_long(
    alloc: Global,
    numbers: &mut BTreeMap<Vec<u8>, usize>,
    index: usize,
    step: &Step,
) -> Result<Option<usize>, AllocError>
    ensures number { IfOk result (λ n. n
        ≡ option_map (number_of (view_numbers numbers.old) index) (long_payload_of step.now)) }
    ensures numbers { OnOk result (view_numbers numbers.new
        ≡ numbered index (long_payload_of step.now) (view_numbers numbers.old)) }
{
    match long_payload_of(alloc, step)? {
        Some(payload) => Ok(Some(number(numbers, index, payload)?)),
        None => Ok(None),
    }
}

/// The number of a payload: that of the first step that has it.
fn number(
    numbers: &mut BTreeMap<Vec<u8>, usize>,
    step: usize,
    payload: Vec<u8>,
) -> Result<usize, AllocError>
    ensures number { IfOk result (λ n. n ≡ number_of (view_numbers numbers.old) step payload.items) }
    ensures numbers { OnOk result (view_numbers numbers.new
        ≡ numbered step (Some payload.items) (view_numbers numbers.old)) }
{
    let number = number_at(numbers, &payload).unwrap_or(step);
    put_number(numbers, payload, number)?;
    Ok(number)
}

/// The number that a payload has.
fn number_at(numbers: &BTreeMap<Vec<u8>, usize>, payload: &Vec<u8>) -> Option<usize>
    ensures { result ≡ finite.get (view_numbers numbers.now) payload.now.items }
{
    numbers.get(payload).copied()
}

/// Gives a payload a number.
fn put_number(
    numbers: &mut BTreeMap<Vec<u8>, usize>,
    payload: Vec<u8>,
    number: usize,
) -> Result<(), AllocError>
    ensures { OnOk result (view_numbers numbers.new
        ≡ finite.insert (view_numbers numbers.old) payload.items number) }
{
    numbers.insert(payload, number)?;
    Ok(())
}

/// The payload that a step sends, if it goes in segments.
fn long_payload_of(alloc: Global, step: &Step) -> Result<Option<Vec<u8>>, AllocError>
    ensures { IfOk result (λ found. option_map (λ v. v.items) found ≡ long_payload_of step.now) }
{
    match payload_of(step) {
        Some(payload) if payload.len() > ALONE_LEN => {
            let bytes = payload.to_payload(alloc)?;
            Ok(Some(bytes.as_slice().to_vec(alloc)?))
        }
        _ => Ok(None),
    }
}

/// The payload that a step sends.
fn payload_of(step: &Step) -> Option<&StepPayload>
    ensures { option_map (λ p. p.now) result ≡ payload_of step.now }
{
    match step {
        Step::Call { payload, .. }
        | Step::Answer { payload, .. }
        | Step::Publish { payload, .. }
        | Step::PublishTo { payload, .. } => Some(payload),
        _ => None,
    }
}
