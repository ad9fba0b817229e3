//! What is asked of a setup, of a node or of a number.
ghost use Rattle.std.specs.Prelude.{◌≡◌, None, slice_get};
ghost use Rattle.someip_c_node.specs.Endpoints.{TellsEndpoint, endpoints_of, told_at};
ghost use Rattle.someip_c_node.specs.Outcomes.{named_by, refused_by};
ghost use Rattle.someip_c_node.specs.Putting.{PutsText};
ghost use Rattle.someip_c.specs.Asking.{TellsDelays};
ghost use Rattle.someip_c.specs.Handles.{OnNode, Tells};

use crate::handle::Handle;
use crate::on_node::on_node;
use someip_c_node::{Endpoint, Outcome, delays_in, put_text};
use std::alloc::Global;

/// Tells the least and the greatest delay with which a node of the setup can be started.
#[unsafe(no_mangle)]
pub extern "C" fn someip_delays(
    alloc: Global,
    text: &[u8],
    least_ms: &mut u32,
    greatest_ms: &mut u32,
) -> u32
    ensures { Tells result (λ outcome. TellsDelays text.now least_ms.old greatest_ms.old outcome
        least_ms.new greatest_ms.new) }
{
    match delays_in(alloc, text) {
        Ok(delays) => {
            *least_ms = delays.least_ms;
            *greatest_ms = delays.greatest_ms;
            Outcome::Done.number()
        }
        Err(outcome) => outcome.number(),
    }
}

/// Tells the endpoint of the node at an index, and what is there.
#[unsafe(no_mangle)]
pub extern "C" fn someip_endpoint_at(
    alloc: Global,
    handle: &mut Handle,
    index: usize,
    endpoint: &mut Endpoint,
    kind: &mut u32,
    service: &mut u16,
    instance: &mut u16,
) -> u32
    ensures told { OnNode handle.old.place.value
        (λ old outcome new. (new ≡ old)
        × TellsEndpoint (slice_get (endpoints_of old.node.config) index)
        (told_at endpoint.old kind.old service.old instance.old) outcome
        (told_at endpoint.new kind.new service.new instance.new))
        result handle.new.place.value }
    ensures closed { handle.old.place.value ≡ None
        → told_at endpoint.new kind.new service.new instance.new
        ≡ told_at endpoint.old kind.old service.old instance.old }
{
    on_node!(
        handle,
        alloc,
        |node| node.tell_endpoint(index, endpoint, kind, service, instance)
    )
}

/// The name of the outcome that a number tells, and no text for a number that tells none.
#[unsafe(no_mangle)]
pub extern "C" fn someip_outcome_text(
    outcome: u32,
    buffer: &mut [u8],
    text_length: &mut usize,
) -> u32
    ensures { Tells result (λ told. PutsText (named_by outcome) buffer.old told buffer.new text_length.new) }
{
    put_text(name_of(outcome), buffer, text_length).number()
}

/// What a trace tells of a call with the outcome that a number tells, and no text where it has no line.
#[unsafe(no_mangle)]
pub extern "C" fn someip_refusal_text(
    outcome: u32,
    buffer: &mut [u8],
    text_length: &mut usize,
) -> u32
    ensures { Tells result (λ told. PutsText (refused_by outcome) buffer.old told buffer.new text_length.new) }
{
    put_text(refusal_of(outcome), buffer, text_length).number()
}

/// The name of the outcome that a number tells, if it tells one.
fn name_of(outcome: u32) -> &'static str
    ensures { result.now ≡ named_by outcome }
{
    match Outcome::of_number(outcome) {
        Some(outcome) => outcome.name(),
        None => "",
    }
}

/// What a trace tells of a call with the outcome that a number tells, if it has a line of it.
fn refusal_of(outcome: u32) -> &'static str
    ensures { result.now ≡ refused_by outcome }
{
    match Outcome::of_number(outcome) {
        Some(outcome) => outcome.refusal_text(),
        None => "",
    }
}
