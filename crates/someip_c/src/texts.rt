//! Texts of setups and of payloads.
ghost use Rattle.someip_c_node.specs.Putting.{PutsMade, PutsMadeBytes};
ghost use Rattle.someip_c.specs.Asking.{SpellsPayload, TellsLog, TellsPayload, TellsSetupFault};
ghost use Rattle.someip_c.specs.Handles.{Tells};

use someip_c_node::{
    Endpoint, fault_of_setup, log_setup, put_made, put_made_bytes, value_bytes, value_text,
};
use std::alloc::Global;

/// Tells why a text is no setup, and no text where it is one.
#[unsafe(no_mangle)]
pub extern "C" fn someip_setup_fault(
    alloc: Global,
    text: &[u8],
    buffer: &mut [u8],
    text_length: &mut usize,
) -> u32
    ensures { Tells result (λ outcome. PutsMade (TellsSetupFault text.now) buffer.old text_length.old
        outcome buffer.new text_length.new) }
{
    put_made(&fault_of_setup(alloc, text), buffer, text_length).number()
}

/// Tells the setup to play the log of a node again with.
#[unsafe(no_mangle)]
pub extern "C" fn someip_log_setup(
    alloc: Global,
    text: &[u8],
    name: &[u8],
    delay_ms: u32,
    peers: &[Endpoint],
    buffer: &mut [u8],
    text_length: &mut usize,
) -> u32
    ensures { Tells result (λ outcome. PutsMade (TellsLog text.now name.now delay_ms peers.now)
        buffer.old text_length.old outcome buffer.new text_length.new) }
{
    put_made(
        &log_setup(alloc, text, name, delay_ms, peers),
        buffer,
        text_length,
    )
    .number()
}

/// Tells the value of a payload, by a shape.
#[unsafe(no_mangle)]
pub extern "C" fn someip_payload_text(
    alloc: Global,
    shape: &[u8],
    payload: &[u8],
    buffer: &mut [u8],
    text_length: &mut usize,
) -> u32
    ensures { Tells result (λ outcome. PutsMade (TellsPayload shape.now payload.now)
        buffer.old text_length.old outcome buffer.new text_length.new) }
{
    put_made(&value_text(alloc, shape, payload), buffer, text_length).number()
}

/// Gives the payload of a value that a text tells, by a shape.
#[unsafe(no_mangle)]
pub extern "C" fn someip_payload_bytes(
    alloc: Global,
    shape: &[u8],
    value: &[u8],
    buffer: &mut [u8],
    payload_length: &mut usize,
) -> u32
    ensures { Tells result (λ outcome. PutsMadeBytes (SpellsPayload shape.now value.now)
        buffer.old payload_length.old outcome buffer.new payload_length.new) }
{
    put_made_bytes(&value_bytes(alloc, shape, value), buffer, payload_length).number()
}
