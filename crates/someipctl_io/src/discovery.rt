//! The lines of Service Discovery messages.
ghost use Rattle.std.specs.Prelude.{◌≡◌, ◌≤◌, ◌+◌, OnOk, OnErr, IfOk, IfErr, is_err, map};
ghost use Rattle.std.specs.List.{flat_map};
ghost use Rattle.sd_wire.specs.contents.Values.{view_read, view_sd};
ghost use Rattle.sd_wire.specs.decoding.Faults.{fault_place};
ghost use Rattle.someipctl_io.specs.Parts.{part_text};
ghost use Rattle.someipctl_io.specs.Sending.{Sends, Stops};
ghost use Rattle.someipctl_io.specs.Discovery.{service_name, eventgroup_name, service_text, eventgroup_text};
ghost use Rattle.someipctl_io.specs.Discovery.{head_text, entry_line, sd_line, message_lines};
ghost use Rattle.someipctl_io.specs.Discovery.{view_reading, reading_lines};

use crate::lines::{digit_of_flag, put_fault};
use crate::options::put_runs;
use crate::output::{Buffer, CannotWrite};
use crate::parts::{Part, put_parts};
use sd_wire::{
    EntryHead, EventgroupEntry, EventgroupKind, ReadEntry, SdError, SdRead, ServiceEntry,
    ServiceKind,
};
use std::io::Write;

/// What a payload was read as, which begins at a place of the k-th datagram: the lines of the message
/// and its entries, or of the fault. Says whether it is a fault.
pub(crate) fn put_reading<W: Write>(
    buffer: &mut Buffer,
    writer: &mut W,
    k: usize,
    place: usize,
    reading: &Result<SdRead, SdError>,
) -> Result<bool, CannotWrite>
    requires { IfErr reading.now (λ e. place + fault_place e ≤ usize.MAX) }
    ensures ok { OnOk result (Sends (W.contents writer.old) buffer.old
        (W.contents writer.new) buffer.new (reading_lines k place (view_reading reading.now))) }
    ensures faulty { IfOk result (λ faulty. faulty ≡ is_err (view_reading reading.now)) }
    ensures err { OnErr result (Stops (W.contents writer.old) buffer.old
        (W.contents writer.new) (reading_lines k place (view_reading reading.now))) }
{
    match reading {
        Ok(read) => {
            put_message(buffer, writer, k, read)?;
            Ok(false)
        }
        Err(fault) => {
            put_fault(buffer, writer, k, fault.name(), place + fault.place())?;
            Ok(true)
        }
    }
}

fn put_message<W: Write>(
    buffer: &mut Buffer,
    writer: &mut W,
    k: usize,
    read: &SdRead,
) -> Result<(), CannotWrite>
    ensures ok { OnOk result (Sends (W.contents writer.old) buffer.old
        (W.contents writer.new) buffer.new (message_lines k (view_sd read.now))) }
    ensures err { OnErr result (Stops (W.contents writer.old) buffer.old
        (W.contents writer.new) (message_lines k (view_sd read.now))) }
{
    put_parts(buffer, writer, &sd_parts(k, read))?;
    put_entries(buffer, writer, k, &read.entries)
}

/// The line of a Service Discovery message of the k-th datagram.
fn sd_parts(k: usize, read: &SdRead) -> [Part<'static>; 8]
    ensures { flat_map part_text result ≡ sd_line k (view_sd read.now) }
{
    [
        Part::Number(k),
        Part::Text(" sd reboot "),
        Part::Text(digit_of_flag(read.flags.reboot)),
        Part::Text(" unicast "),
        Part::Text(digit_of_flag(read.flags.unicast)),
        Part::Text(" entries "),
        Part::Number(read.entries.len()),
        Part::Text("\n"),
    ]
}

/// Prints the lines of entries of the k-th datagram.
fn put_entries<W: Write>(
    buffer: &mut Buffer,
    writer: &mut W,
    k: usize,
    entries: &[ReadEntry],
) -> Result<(), CannotWrite>
    ensures ok { OnOk result (Sends (W.contents writer.old) buffer.old
        (W.contents writer.new) buffer.new (flat_map (entry_line k) (map view_read entries.now))) }
    ensures err { OnErr result (Stops (W.contents writer.old) buffer.old
        (W.contents writer.new) (flat_map (entry_line k) (map view_read entries.now))) }
{
    for entry in entries {
        put_entry(buffer, writer, k, entry)?;
    }
    Ok(())
}

fn put_entry<W: Write>(
    buffer: &mut Buffer,
    writer: &mut W,
    k: usize,
    entry: &ReadEntry,
) -> Result<(), CannotWrite>
    ensures ok { OnOk result (Sends (W.contents writer.old) buffer.old
        (W.contents writer.new) buffer.new (entry_line k (view_read entry.now))) }
    ensures err { OnErr result (Stops (W.contents writer.old) buffer.old
        (W.contents writer.new) (entry_line k (view_read entry.now))) }
{
    match entry {
        ReadEntry::Good(entry) => {
            put_head(buffer, writer, k, &entry.head)?;
            put_runs(buffer, writer, &entry.run1, &entry.run2)
        }
        ReadEntry::BadRun(head) => {
            put_head(buffer, writer, k, head)?;
            put_parts(buffer, writer, &[Part::Text(" badrun\n")])
        }
    }
}

/// Prints the line of an entry up to its runs.
fn put_head<W: Write>(
    buffer: &mut Buffer,
    writer: &mut W,
    k: usize,
    head: &EntryHead,
) -> Result<(), CannotWrite>
    ensures ok { OnOk result (Sends (W.contents writer.old) buffer.old
        (W.contents writer.new) buffer.new (head_text k head.now)) }
    ensures err { OnErr result (Stops (W.contents writer.old) buffer.old
        (W.contents writer.new) (head_text k head.now)) }
{
    match head {
        EntryHead::Service(entry) => put_parts(buffer, writer, &service_parts(k, entry)),
        EntryHead::Eventgroup(entry) => put_parts(buffer, writer, &eventgroup_parts(k, entry)),
    }
}

/// The line of a service entry up to its runs.
fn service_parts(k: usize, entry: &ServiceEntry) -> [Part<'static>; 13]
    ensures { flat_map part_text result ≡ service_text k entry.now }
{
    [
        Part::Number(k),
        Part::Text(" "),
        Part::Text(name_of_service(entry)),
        Part::Text(" "),
        Part::Id(entry.service),
        Part::Text("."),
        Part::Id(entry.instance),
        Part::Text(" major "),
        Part::Byte(entry.major),
        Part::Text(" ttl "),
        Part::Number(ttl_of_service(entry)),
        Part::Text(" minor "),
        Part::Number(entry.minor as usize),
    ]
}

/// The line of an eventgroup entry up to its runs.
fn eventgroup_parts(k: usize, entry: &EventgroupEntry) -> [Part<'static>; 15]
    ensures { flat_map part_text result ≡ eventgroup_text k entry.now }
{
    [
        Part::Number(k),
        Part::Text(" "),
        Part::Text(name_of_eventgroup(entry)),
        Part::Text(" "),
        Part::Id(entry.service),
        Part::Text("."),
        Part::Id(entry.instance),
        Part::Text(" major "),
        Part::Byte(entry.major),
        Part::Text(" ttl "),
        Part::Number(ttl_of_eventgroup(entry)),
        Part::Text(" counter "),
        Part::Number(counter_of(entry)),
        Part::Text(" group "),
        Part::Id(entry.eventgroup),
    ]
}

pub(crate) fn ttl_of_service(entry: &ServiceEntry) -> usize
    ensures { result ≡ entry.now.ttl }
{
    entry.ttl.seconds() as usize
}

pub(crate) fn ttl_of_eventgroup(entry: &EventgroupEntry) -> usize
    ensures { result ≡ entry.now.ttl }
{
    entry.ttl.seconds() as usize
}

pub(crate) fn counter_of(entry: &EventgroupEntry) -> usize
    ensures { result ≡ entry.now.counter }
{
    entry.counter.number() as usize
}

pub(crate) fn name_of_service(entry: &ServiceEntry) -> &'static str
    ensures { result.now ≡ service_name entry.now.kind entry.now.ttl }
{
    match entry.kind {
        ServiceKind::Find => "find",
        ServiceKind::Offer => {
            if entry.ttl.seconds() == 0 {
                "stopoffer"
            } else {
                "offer"
            }
        }
    }
}

pub(crate) fn name_of_eventgroup(entry: &EventgroupEntry) -> &'static str
    ensures { result.now ≡ eventgroup_name entry.now.kind entry.now.ttl }
{
    let ends = entry.ttl.seconds() == 0;
    match entry.kind {
        EventgroupKind::Subscribe => { if ends { "stopsubscribe" } else { "subscribe" } }
        EventgroupKind::Ack => { if ends { "nack" } else { "ack" } }
    }
}
