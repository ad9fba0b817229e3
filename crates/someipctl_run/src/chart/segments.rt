//! Which segment of a message a datagram carries.

use someip_tp::{SLICE_LEN, read_segment};
use someip_wire::{Header, Message, Messages};
use someip_world::Line;

/// The number of a segment, counted from 1, and whether others come after it. Nothing is told of a
/// message that is none.
pub(crate) fn segment_in(message: &Message<'_>) -> Option<(u32, bool)> {
    if !message.header.kind.has_tp_flag() {
        return None;
    }
    let (offset, more, _) = read_segment(message.payload).ok()?;
    Some(((offset / SLICE_LEN as u32).saturating_add(1), more))
}

/// How many segments a message has, by the last of its segments among the datagrams of a step: these
/// are lines from that of the segment on.
pub(crate) fn segment_count(lines: &[Line], step: usize, header: &Header) -> Option<u32> {
    for line in lines {
        if line.step != step {
            return None;
        }
        if let Some(count) = last_segment(line, header) {
            return Some(count);
        }
    }
    None
}

/// The number of the last segment of a message with such a header, where a line tells of it.
fn last_segment(line: &Line, header: &Header) -> Option<u32> {
    let datagram = line.datagram()?;
    let message = first_message(datagram.bytes)?;
    if message.header != *header {
        return None;
    }
    match segment_in(&message)? {
        (number, false) => Some(number),
        _ => None,
    }
}

/// The first message of a datagram.
pub(crate) fn first_message(bytes: &[u8]) -> Option<Message<'_>> {
    match Messages::new(bytes).next()? {
        Ok(message) => Some(message),
        Err(_) => None,
    }
}
