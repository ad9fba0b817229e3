//! What comes to a node: datagrams and time, and what it gives.
ghost use Rattle.std.specs.Prelude.{◌≡◌, None};
ghost use Rattle.someip_node_rules.specs.rules.Inputs as input;
ghost use Rattle.someip_c_node.specs.Calls.{Calls, NeedsNoMemory, Takes};
ghost use Rattle.someip_c_node.specs.Putting.{PutsMade};
ghost use Rattle.someip_c_node.specs.Records.{socket_of};
ghost use Rattle.someip_c_node.specs.Tellings.{TellsNext};
ghost use Rattle.someip_c.specs.Handles.{Asks, OnNode};

use crate::handle::Handle;
use crate::on_node::on_node;
use someip_c_node::{Endpoint, Outcome, OutputRecord, put_made};
use std::alloc::Global;

/// Takes a datagram that came from an endpoint to another.
#[unsafe(no_mangle)]
pub extern "C" fn someip_on_datagram(
    alloc: Global,
    handle: &mut Handle,
    from: &Endpoint,
    to: &Endpoint,
    bytes: &[u8],
) -> u32
    ensures done { OnNode handle.old.place.value
        (Calls (input.Datagram (socket_of from.now) (socket_of to.now) bytes.now)) result handle.new.place.value }
{
    on_node!(
        handle,
        alloc,
        |node| node.on_datagram(from.socket(), to.socket(), bytes)
    )
}

/// Lets the node's clock go on by so many milliseconds.
#[unsafe(no_mangle)]
pub extern "C" fn someip_tick(alloc: Global, handle: &mut Handle, ms: u64) -> u32
    ensures done { OnNode handle.old.place.value
        (Calls (input.Tick ms)) result handle.new.place.value }
    ensures quiet { OnNode handle.old.place.value
        (λ old outcome _. NeedsNoMemory (input.Tick ms) old outcome) result handle.new.place.value }
{
    on_node!(handle, alloc, |node| node.tick(ms))
}

/// After how many milliseconds a tick next gives something.
#[unsafe(no_mangle)]
pub extern "C" fn someip_next_due(alloc: Global, handle: &mut Handle, due_ms: &mut u64) -> u32
    ensures due { OnNode handle.old.place.value (Asks due_ms.old due_ms.new) result
        handle.new.place.value }
    ensures closed { handle.old.place.value ≡ None → due_ms.new ≡ due_ms.old }
{
    match handle.open(alloc) {
        Some(node) => {
            let due = node.next_due();
            handle.hold(node);
            match due {
                Some(ms) => {
                    *due_ms = ms;
                    Outcome::Done.number()
                }
                None => Outcome::NothingDue.number(),
            }
        }
        None => Outcome::Closed.number(),
    }
}

/// Tells the next output in the words of a trace, at the front of the buffer. The output waits on.
#[unsafe(no_mangle)]
pub extern "C" fn someip_next_text(
    alloc: Global,
    handle: &mut Handle,
    number: usize,
    buffer: &mut [u8],
    text_length: &mut usize,
) -> u32
    ensures told { OnNode handle.old.place.value
        (λ old outcome new. (new ≡ old) × PutsMade (TellsNext number old.waiting) buffer.old
        text_length.old outcome buffer.new text_length.new) result handle.new.place.value }
    ensures closed { handle.old.place.value ≡ None
        → (buffer.new ≡ buffer.old) × (text_length.new ≡ text_length.old) }
{
    on_node!(
        handle,
        alloc,
        |node| put_made(&node.next_text(alloc, number), buffer, text_length)
    )
}

/// Takes the next output: what it tells goes to the record, and its bytes to the front of the buffer.
#[unsafe(no_mangle)]
pub extern "C" fn someip_take(
    alloc: Global,
    handle: &mut Handle,
    output: &mut OutputRecord,
    buffer: &mut [u8],
) -> u32
    ensures taken { OnNode handle.old.place.value
        (λ old outcome new. Takes old output.old buffer.old outcome new output.new buffer.new)
        result handle.new.place.value }
    ensures closed { handle.old.place.value ≡ None
        → (output.new ≡ output.old) × (buffer.new ≡ buffer.old) }
{
    on_node!(handle, alloc, |node| node.take(output, buffer))
}
