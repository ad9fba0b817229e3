//! The life of a node.
ghost use Rattle.std.specs.Prelude.{◌≡◌, None, IfOk, IfErr};
ghost use Rattle.someip_c_node.specs.Starts.{IsNotStarted, IsStarted};
ghost use Rattle.someip_c_node.specs.Calls.{Restarts};
ghost use Rattle.someip_c.specs.Handles.{Closes, OnNode, Starts};

use crate::handle::Handle;
use crate::on_node::on_node;
use someip_c_node::{CNode, Outcome, started};
use std::alloc::Global;

/// Starts the node of a name in the setup that a text says, and gives it to the handle, which has none
/// yet. Its first Offers and Finds go out so many milliseconds after this.
#[unsafe(no_mangle)]
pub extern "C" fn someip_start(
    alloc: Global,
    handle: &mut Handle,
    text: &[u8],
    name: &[u8],
    delay_ms: u32,
) -> u32
    ensures { Starts handle.old.place.value text.now name.now delay_ms result
        handle.new.place.value }
{
    if let Some(node) = handle.open(alloc) {
        handle.hold(node);
        return Outcome::Held.number();
    }
    match started_in_box(alloc, text, name, delay_ms) {
        Ok(node) => {
            handle.hold(node);
            Outcome::Done.number()
        }
        Err(outcome) => outcome.number(),
    }
}

/// The node of a name in a text's setup, on the heap.
fn started_in_box(
    alloc: Global,
    text: &[u8],
    name: &[u8],
    delay_ms: u32,
) -> Result<Box<CNode>, Outcome>
    ensures started { IfOk result (λ node. IsStarted text.now name.now delay_ms node.value) }
    ensures refused { IfErr result (IsNotStarted text.now name.now delay_ms) }
{
    let node = started(alloc, text, name, delay_ms)?;
    match Box::new(alloc, node) {
        Ok(node) => Ok(node),
        Err(_) => Err(Outcome::OutOfMemory),
    }
}

/// Starts the node again with its configuration. Its first Offers and Finds go out so many milliseconds
/// after this.
#[unsafe(no_mangle)]
pub extern "C" fn someip_restart(alloc: Global, handle: &mut Handle, delay_ms: u32) -> u32
    ensures { OnNode handle.old.place.value (Restarts delay_ms) result handle.new.place.value }
{
    on_node!(handle, alloc, |node| node.restart(delay_ms))
}

/// Ends the node, with what it gave and was not taken. The handle has none then.
#[unsafe(no_mangle)]
pub extern "C" fn someip_close(alloc: Global, handle: &mut Handle) -> u32
    ensures told { Closes handle.old.place.value result }
    ensures closed { handle.new.place.value ≡ None }
{
    match handle.open(alloc) {
        Some(_) => Outcome::Done.number(),
        None => Outcome::Closed.number(),
    }
}
