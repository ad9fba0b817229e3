//! What stands beside a lane.

use crate::chart::segments::{segment_count, segment_in};
use sd_wire::{
    EntryHead, EventgroupEntry, EventgroupKind, ReadEntry, SdError, SdRead, ServiceEntry,
    ServiceKind, read_sd,
};
use someip_wire::{Message, MessageType, Messages};
use someip_world::Line;
use std::alloc::{AllocError, Global};

/// Appends what the datagram of the first of some lines is, in a few words.
pub(crate) fn push_datagram(
    alloc: Global,
    text: &mut String,
    lines: &[Line],
    bytes: &[u8],
) -> Result<(), AllocError> {
    let mut items = Messages::new(bytes);
    match items.next() {
        None => text.push_str("empty")?,
        Some(Err(fault)) => write!(text, "fault {}", fault.name())?,
        Some(Ok(message)) => push_message(alloc, text, lines, &message)?,
    }
    let mut others: usize = 0;
    for _ in items {
        others = others.saturating_add(1);
    }
    push_others(text, others)
}

/// Appends how many others there are.
fn push_others(text: &mut String, others: usize) -> Result<(), AllocError> {
    if 0 < others {
        write!(text, " and {others} more")?;
    }
    Ok(())
}

/// Appends what a message is.
fn push_message(
    alloc: Global,
    text: &mut String,
    lines: &[Line],
    message: &Message<'_>,
) -> Result<(), AllocError> {
    if message.header.is_discovery() {
        return match read_sd(alloc, message.payload) {
            Ok(read) => push_discovery(text, &read),
            Err(SdError::OutOfMemory) => Err(AllocError),
            Err(fault) => write!(text, "fault {}", fault.name()),
        };
    }
    if let Some((number, _)) = segment_in(message) {
        push_segment_number(text, lines, message, number)?;
    }
    push_head(text, message)
}

/// Appends which segment of how many it is.
fn push_segment_number(
    text: &mut String,
    lines: &[Line],
    message: &Message<'_>,
    number: u32,
) -> Result<(), AllocError> {
    let step = lines.first().map_or(0, |line| line.step);
    match segment_count(lines, step, &message.header) {
        Some(count) => write!(text, "segment {number} of {count} "),
        None => write!(text, "segment {number} "),
    }
}

/// Appends the type of a message, and what it belongs to.
fn push_head(text: &mut String, message: &Message<'_>) -> Result<(), AllocError> {
    let header = &message.header;
    write!(
        text,
        "{} {:04x}.{:04x} session {:04x}",
        name_of_type(header.kind),
        header.service,
        header.method,
        header.session
    )
}

/// The name of a message type. A segment has that of its message.
fn name_of_type(kind: MessageType) -> &'static str {
    match kind.without_tp_flag() {
        MessageType::Request => "REQUEST",
        MessageType::RequestNoReturn => "REQUEST_NO_RETURN",
        MessageType::Notification => "NOTIFICATION",
        MessageType::Response => "RESPONSE",
        _ => "ERROR",
    }
}

/// Appends the first entry of a message of Service Discovery, and how many others there are.
fn push_discovery(text: &mut String, read: &SdRead) -> Result<(), AllocError> {
    match read.entries.first() {
        None => text.push_str("no entries")?,
        Some(ReadEntry::Good(entry)) => push_entry(text, &entry.head)?,
        Some(ReadEntry::BadRun(head)) => push_entry(text, head)?,
    }
    push_others(text, read.entries.len().saturating_sub(1))
}

/// Appends what an entry says.
fn push_entry(text: &mut String, head: &EntryHead) -> Result<(), AllocError> {
    match head {
        EntryHead::Service(entry) => write!(
            text,
            "{} {:04x}.{:04x}",
            name_of_service(entry),
            entry.service,
            entry.instance
        ),
        EntryHead::Eventgroup(entry) => write!(
            text,
            "{} {:04x}.{:04x} {:04x}",
            name_of_eventgroup(entry),
            entry.service,
            entry.instance,
            entry.eventgroup
        ),
    }
}

fn name_of_service(entry: &ServiceEntry) -> &'static str {
    match entry.kind {
        ServiceKind::Find => "Find",
        ServiceKind::Offer if entry.ttl.is_zero() => "StopOffer",
        ServiceKind::Offer => "Offer",
    }
}

fn name_of_eventgroup(entry: &EventgroupEntry) -> &'static str {
    let ends = entry.ttl.is_zero();
    match entry.kind {
        EventgroupKind::Subscribe => { if ends { "StopSubscribe" } else { "Subscribe" } }
        EventgroupKind::Ack => { if ends { "Nack" } else { "Ack" } }
    }
}
