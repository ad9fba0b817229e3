//! Rows of messages and datagrams: `datagram HEX` (its messages, and the fault that ends it), `kind HEX` (the type of
//! the message), `write HEX` (a message is read and written to a buffer of bytes `ee`: how many bytes, and the buffer).
use crate::acts::{Act, Subject, Told, tell_bytes};
use crate::judging::try_tables;
use someip_wire::{
    Message, Messages, WireError, header_bytes, read_message, write_message, written_len,
};
use std::alloc::{AllocError, Global};
use std::fmt;
use std::fmt::Write;

/// None, one request, two and then 15 bytes, and one with a Length that is too small.
const DATAGRAMS: &str = "
datagram
datagram 12340421000000080001000101010000 -> 12340421000000080001000101010000
datagram 1234042100000008000100010101000012340421000000080001000101010000 -> 12340421000000080001000101010000 12340421000000080001000101010000
datagram 1234042100000008000100010101000012340421000000080001000101010000123404210000000800010001010100 -> 12340421000000080001000101010000 12340421000000080001000101010000 Truncated at 47
datagram 12340421000000070001000101010000 -> LengthTooSmall at 4";

/// The request with a byte changed, or cut.
const FAULTY: &str = "
datagram 12340421000000080001000100010000 -> WrongProtocolVersion at 12
datagram 12340421000000080001000102010000 -> WrongProtocolVersion at 12
datagram 12340421000000080001000101010300 -> UnknownMessageType at 14
datagram 12340421000000080001000101012300 -> UnknownMessageType at 14
datagram 12340421000000090001000101010000 -> Truncated at 16
datagram 12340421ff0000080001000101010000 -> Truncated at 16
datagram 12340421ffffffff0001000101010000 -> Truncated at 16
datagram 123404210000000800010001010100 -> Truncated at 15";

/// The ten types.
const TYPED: &str = "
kind 12340421000000080001000101010000 -> Request
kind 12340421000000080001000101010100 -> RequestNoReturn
kind 12340421000000080001000101010200 -> Notification
kind 12340421000000080001000101018000 -> Response
kind 12340421000000080001000101018100 -> Error
kind 12340421000000080001000101012000 -> TpRequest
kind 12340421000000080001000101012100 -> TpRequestNoReturn
kind 12340421000000080001000101012200 -> TpNotification
kind 1234042100000008000100010101a000 -> TpResponse
kind 1234042100000008000100010101a100 -> TpError";

/// What is read is written, with codes that have no name, and nothing behind it.
const WRITTEN: &str = "
write 12340421000000080001000101010000 -> 16 12340421000000080001000101010000eeeeeeee
write 111180010000000a020304050106a15e2a2b -> 18 111180010000000a020304050106a15e2a2beeee
write 1111800100000009000000010101020b2aff -> 17 1111800100000009000000010101020b2aeeeeee";

/// What has no state.
#[derive(Drop)]
struct Wire {
    alloc: Global,
}

impl Subject for Wire {
    fn make(alloc: Global) -> Result<Wire, AllocError> {
        Ok(Wire { alloc })
    }

    fn perform(&mut self, act: &Act<'_>, told: &mut Told) -> fmt::Result {
        let Ok(bytes) = hex::decode(self.alloc, act.rest) else {
            return Err(fmt::Error);
        };
        match act.verb {
            "datagram" => tell_datagram(told, &bytes),
            "kind" => match read_message(&bytes) {
                Ok((message, _)) => write!(told, "{:?}", message.header.kind),
                Err(fault) => write!(told, "{fault}"),
            },
            "write" => match read_message(&bytes) {
                Ok((message, _)) => tell_written(told, &message),
                Err(fault) => write!(told, "{fault}"),
            },
            _ => Err(fmt::Error),
        }
    }
}

fn tell_datagram(told: &mut Told, datagram: &[u8]) -> fmt::Result {
    for item in Messages::new(datagram) {
        tell_item(told, &item)?;
    }
    Ok(())
}

fn tell_item(told: &mut Told, item: &Result<Message<'_>, WireError>) -> fmt::Result {
    let space = if told.bytes().is_empty() { "" } else { " " };
    write!(told, "{space}")?;
    match item {
        Ok(message) => tell_message(told, message),
        Err(fault) => write!(told, "{fault}"),
    }
}

fn tell_message(told: &mut Told, message: &Message<'_>) -> fmt::Result {
    match message.payload.len() {
        len @ 0..=65535 => tell_bytes(told, &header_bytes(&message.header, len as u32))?,
        _ => return Err(fmt::Error),
    }
    tell_bytes(told, message.payload)
}

fn tell_written(told: &mut Told, message: &Message<'_>) -> fmt::Result {
    let mut buffer = [0xee; 20];
    let size = written_len(message);
    if message.payload.len() > 4 || size > 20 {
        return Err(fmt::Error);
    }
    write!(told, "{} ", write_message(message, &mut buffer))?;
    tell_bytes(told, &buffer)
}

#[test]
fn messages(rt: HostRuntime) {
    try_tables::<Wire>(&rt, &[DATAGRAMS, FAULTY, TYPED, WRITTEN]);
}
