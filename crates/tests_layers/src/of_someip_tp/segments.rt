//! Rows of segments: `payload LENGTH`, then `segments` (of each the TP header, the length of its slice, and its Length
//! field), `sent` (how many bytes each piece has that is sent), and `message` (its bytes); `read HEX` of a segment's
//! payload: the offset, More Segments and the slice, or the fault.
use super::{HEADER, payload_of};
use crate::acts::{Act, Subject, Told, tell, tell_bytes};
use crate::judging::try_tables;
use someip_tp::{
    Segment, Segments, Sent, SentPiece, append_message, append_piece, append_segment, read_segment,
};
use someip_wire::Message;
use std::alloc::{AllocError, Global};
use std::fmt;
use std::fmt::Write;

const IN_SEGMENTS: &str = "
payload 5880
segments -> 00000001:1392:1404 00000571:1392:1404 00000ae1:1392:1404 00001051:1392:1404 000015c0:312:324
payload 1401
segments -> 00000001:1392:1404 00000570:9:21
payload 2784
segments -> 00000001:1392:1404 00000570:1392:1404
payload 1
segments -> 00000000:1:13
payload 0
segments";

const SENT: &str = "
payload 0
sent -> 16
payload 1400
sent -> 1416
payload 1401
sent -> 1412 29
payload 5880
sent -> 1412 1412 1412 1412 332";

/// A segment and a message, one after the other.
const APPENDED: &str = "
segment -> 123404210000000d0001000101018000000005712a
payload 2
message -> 123404210000000a00010001010180000001";

const READ: &str = "
read 0000057e -> (1392, false, [])
read 0000057f -> (1392, true, [])
read 000005 -> NoHeader
read -> NoHeader
read fffffff12a -> (4294967280, true, [42])";

/// A payload, and what is appended.
#[derive(Drop)]
struct Segmented {
    alloc: Global,
    payload: Vec<u8>,
    out: Vec<u8>,
}

impl Subject for Segmented {
    fn make(alloc: Global) -> Result<Segmented, AllocError> {
        Ok(Segmented {
            alloc,
            payload: Vec::new(alloc),
            out: Vec::new(alloc),
        })
    }

    fn perform(&mut self, act: &Act<'_>, told: &mut Told) -> fmt::Result {
        self.out = Vec::new(self.alloc);
        match act.verb {
            "payload" => match payload_of(self.alloc, act.word(0)) {
                Ok(payload) => self.payload = payload,
                Err(refusal) => write!(told, "{refusal:?}")?,
            },
            "segments" => return self.tell_segments(told),
            "sent" => return self.tell_sent(told),
            "segment" => return self.tell_segment(told),
            "message" => return self.tell_message(told),
            "read" => match hex::decode(self.alloc, act.rest) {
                Ok(bytes) => return tell(told, &read_segment(&bytes)),
                Err(_) => return write!(told, "OutOfMemory"),
            },
            _ => return Err(fmt::Error),
        }
        Ok(())
    }
}

impl Segmented {
    fn tell_segments(&mut self, told: &mut Told) -> fmt::Result {
        let message = Message {
            header: HEADER,
            payload: &self.payload,
        };
        if message.payload.len() < 100_000 {
            for segment in Segments::new(&message) {
                tell_part(&segment, &mut self.out, told)?;
            }
        }
        Ok(())
    }

    fn tell_sent(&mut self, told: &mut Told) -> fmt::Result {
        let message = Message {
            header: HEADER,
            payload: &self.payload,
        };
        if message.payload.len() < 100_000 {
            for piece in Sent::new(&message) {
                tell_piece(&piece, &mut self.out, told)?;
            }
        }
        Ok(())
    }

    fn tell_segment(&mut self, told: &mut Told) -> fmt::Result {
        let segment = Segment {
            header: HEADER,
            offset: 1392,
            more: true,
            slice: &[0x2a],
        };
        match append_segment(&segment, &mut self.out) {
            Ok(()) => tell_bytes(told, &self.out),
            Err(refusal) => write!(told, "{refusal:?}"),
        }
    }

    fn tell_message(&mut self, told: &mut Told) -> fmt::Result {
        let payload = self.payload.as_slice();
        if payload.len() > 100_000 {
            return Err(fmt::Error);
        }
        match append_message(
            &Message {
                header: HEADER,
                payload,
            },
            &mut self.out,
        ) {
            Ok(()) => tell_bytes(told, &self.out),
            Err(refusal) => write!(told, "{refusal:?}"),
        }
    }
}

/// What stands between two answers.
fn space(told: &Told) -> &'static str {
    if told.bytes().is_empty() { "" } else { " " }
}

/// Writes down the TP header of a segment, the length of its slice, and its Length field.
fn tell_part(segment: &Segment<'_>, out: &mut Vec<u8>, told: &mut Told) -> fmt::Result {
    out.clear();
    match append_segment(segment, out) {
        Ok(()) => {
            let (header, len) = (segment.tp_header(), segment.slice.len());
            let space = space(told);
            write!(told, "{space}{header:08x}:{len}:")?;
            tell_length(told, out)
        }
        Err(refusal) => write!(told, "{refusal:?}"),
    }
}

/// Writes down how many bytes a piece has that is sent.
fn tell_piece(piece: &SentPiece<'_>, out: &mut Vec<u8>, told: &mut Told) -> fmt::Result {
    out.clear();
    match append_piece(piece, out) {
        Ok(()) => {
            let space = space(told);
            write!(told, "{space}{}", out.len())
        }
        Err(refusal) => write!(told, "{refusal:?}"),
    }
}

/// Writes down the Length field of a message.
fn tell_length(told: &mut Told, bytes: &[u8]) -> fmt::Result {
    match bytes {
        [_, _, _, _, a, b, c, d, ..] => write!(told, "{}", u32::from_be_bytes([*a, *b, *c, *d])),
        _ => Err(fmt::Error),
    }
}

#[test]
fn segments_and_pieces(rt: HostRuntime) {
    try_tables::<Segmented>(&rt, &[IN_SEGMENTS, SENT, APPENDED, READ]);
}
