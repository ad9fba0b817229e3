//! The lines of Service Discovery messages in the form that is asked for.
ghost use Rattle.std.specs.Prelude.{◌≡◌, ◌≤◌, ◌+◌, ◌++◌, OnOk, OnErr, IfOk, IfErr, Some, is_err, map};
ghost use Rattle.sd_wire.specs.contents.Values.{view_read, view_sd};
ghost use Rattle.sd_wire.specs.decoding.Faults.{fault_place};
ghost use Rattle.someipctl_io.specs.Sending.{Sends, Stops};
ghost use Rattle.someipctl_io.specs.Discovery.{view_reading};
ghost use Rattle.someipctl_io.specs.ToldLines.{begin_text, end_text, fields_text, line_text, lines_text};
ghost use Rattle.someipctl_io.specs.ToldViews.{view_field, view_head};
ghost use Rattle.someipctl_io.specs.ToldItems.{entry_told, eventgroup_fields, head_fields, head_name, reading_told};
ghost use Rattle.someipctl_io.specs.ToldItems.{head_in, more_fields, sd_fields, sd_told, service_fields};

use crate::discovery::{
    counter_of, name_of_eventgroup, name_of_service, ttl_of_eventgroup, ttl_of_service,
};
use crate::form::Form;
use crate::output::{Buffer, CannotWrite};
use crate::told::{Field, LineHead, Said, put_begin, put_end_of_line, put_fields, put_line};
use crate::told_lines::{line, put_fault_in, told};
use crate::told_options::put_runs_in;
use sd_wire::{EntryHead, EventgroupEntry, ReadEntry, SdError, SdRead, ServiceEntry};
use std::io::Write;

/// What a payload was read as, which begins at a place of its datagram: the lines of the message and its
/// entries, or of the fault. Says whether it is a fault.
pub(crate) fn put_reading_in<W: Write>(
    buffer: &mut Buffer,
    writer: &mut W,
    head: &LineHead<'_>,
    place: usize,
    reading: &Result<SdRead, SdError>,
) -> Result<bool, CannotWrite>
    requires { IfErr reading.now (λ e. place + fault_place e ≤ usize.MAX) }
    ensures ok { OnOk result (Sends (W.contents writer.old) buffer.old (W.contents writer.new) buffer.new
        (lines_text head.now.form (view_head head.now) (reading_told place (view_reading reading.now)))) }
    ensures faulty { IfOk result (λ faulty. faulty ≡ is_err (view_reading reading.now)) }
    ensures err { OnErr result (Stops (W.contents writer.old) buffer.old (W.contents writer.new)
        (lines_text head.now.form (view_head head.now) (reading_told place (view_reading reading.now)))) }
{
    match reading {
        Ok(read) => {
            put_message_in(buffer, writer, head, read)?;
            Ok(false)
        }
        Err(fault) => {
            put_fault_in(buffer, writer, head, fault.name(), place + fault.place())?;
            Ok(true)
        }
    }
}

fn put_message_in<W: Write>(
    buffer: &mut Buffer,
    writer: &mut W,
    head: &LineHead<'_>,
    read: &SdRead,
) -> Result<(), CannotWrite>
    ensures ok { OnOk result (Sends (W.contents writer.old) buffer.old (W.contents writer.new) buffer.new
        (line_text head.now.form (view_head head.now) (sd_told (view_sd read.now))
        ++ lines_text head.now.form (view_head head.now) (map entry_told (map view_read read.now.entries.items)))) }
    ensures err { OnErr result (Stops (W.contents writer.old) buffer.old (W.contents writer.new)
        (line_text head.now.form (view_head head.now) (sd_told (view_sd read.now))
        ++ lines_text head.now.form (view_head head.now) (map entry_told (map view_read read.now.entries.items)))) }
{
    put_line(buffer, writer, head, &line("sd", &sd_fields(read)))?;
    put_entries_in(buffer, writer, head, &read.entries)
}

/// What a message of Service Discovery says beside its entries.
fn sd_fields(read: &SdRead) -> [Field<'static>; 3]
    ensures { map view_field result ≡ sd_fields (view_sd read.now) }
{
    [
        told(" reboot ", "reboot", Said::Flag(read.flags.reboot)),
        told(" unicast ", "unicast", Said::Flag(read.flags.unicast)),
        told(" entries ", "entries", Said::Number(read.entries.len())),
    ]
}

fn put_entries_in<W: Write>(
    buffer: &mut Buffer,
    writer: &mut W,
    head: &LineHead<'_>,
    entries: &[ReadEntry],
) -> Result<(), CannotWrite>
    ensures ok { OnOk result (Sends (W.contents writer.old) buffer.old (W.contents writer.new) buffer.new
        (lines_text head.now.form (view_head head.now) (map entry_told (map view_read entries.now)))) }
    ensures err { OnErr result (Stops (W.contents writer.old) buffer.old (W.contents writer.new)
        (lines_text head.now.form (view_head head.now) (map entry_told (map view_read entries.now)))) }
{
    for entry in entries {
        put_entry_in(buffer, writer, head, entry)?;
    }
    Ok(())
}

fn put_entry_in<W: Write>(
    buffer: &mut Buffer,
    writer: &mut W,
    head: &LineHead<'_>,
    entry: &ReadEntry,
) -> Result<(), CannotWrite>
    ensures ok { OnOk result (Sends (W.contents writer.old) buffer.old (W.contents writer.new) buffer.new
        (line_text head.now.form (view_head head.now) (entry_told (view_read entry.now)))) }
    ensures err { OnErr result (Stops (W.contents writer.old) buffer.old (W.contents writer.new)
        (line_text head.now.form (view_head head.now) (entry_told (view_read entry.now)))) }
{
    put_entry_begin(buffer, writer, head, head_of(entry))?;
    put_entry_end(buffer, writer, head.form, entry)
}

/// The head of an entry.
fn head_of(entry: &ReadEntry) -> &EntryHead
    ensures { result.now ≡ head_in (view_read entry.now) }
{
    match entry {
        ReadEntry::Good(entry) => &entry.head,
        ReadEntry::BadRun(head) => head,
    }
}

/// Prints the line of an entry up to its runs.
fn put_entry_begin<W: Write>(
    buffer: &mut Buffer,
    writer: &mut W,
    head: &LineHead<'_>,
    entry: &EntryHead,
) -> Result<(), CannotWrite>
    ensures ok { OnOk result (Sends (W.contents writer.old) buffer.old (W.contents writer.new) buffer.new
        (begin_text head.now.form (view_head head.now) (head_name entry.now) (Some (head_name entry.now))
        ++ fields_text head.now.form (head_fields entry.now))) }
    ensures err { OnErr result (Stops (W.contents writer.old) buffer.old (W.contents writer.new)
        (begin_text head.now.form (view_head head.now) (head_name entry.now) (Some (head_name entry.now))
        ++ fields_text head.now.form (head_fields entry.now))) }
{
    let name = name_of(entry);
    put_begin(buffer, writer, head, name, Some(name))?;
    put_head_fields(buffer, writer, head.form, entry)
}

fn put_head_fields<W: Write>(
    buffer: &mut Buffer,
    writer: &mut W,
    form: Form,
    entry: &EntryHead,
) -> Result<(), CannotWrite>
    ensures ok { OnOk result (Sends (W.contents writer.old) buffer.old
        (W.contents writer.new) buffer.new (fields_text form (head_fields entry.now))) }
    ensures err { OnErr result (Stops (W.contents writer.old) buffer.old
        (W.contents writer.new) (fields_text form (head_fields entry.now))) }
{
    match entry {
        EntryHead::Service(entry) => put_fields(buffer, writer, form, &service_fields(entry)),
        EntryHead::Eventgroup(entry) => put_fields(buffer, writer, form, &eventgroup_fields(entry)),
    }
}

/// Prints the line of an entry from its runs on.
fn put_entry_end<W: Write>(
    buffer: &mut Buffer,
    writer: &mut W,
    form: Form,
    entry: &ReadEntry,
) -> Result<(), CannotWrite>
    ensures ok { OnOk result (Sends (W.contents writer.old) buffer.old (W.contents writer.new) buffer.new
        (fields_text form (more_fields (view_read entry.now)) ++ end_text form)) }
    ensures err { OnErr result (Stops (W.contents writer.old) buffer.old (W.contents writer.new)
        (fields_text form (more_fields (view_read entry.now)) ++ end_text form)) }
{
    put_more(buffer, writer, form, entry)?;
    put_end_of_line(buffer, writer, form)
}

/// Prints the runs of options of an entry, or that one of them is bad.
fn put_more<W: Write>(
    buffer: &mut Buffer,
    writer: &mut W,
    form: Form,
    entry: &ReadEntry,
) -> Result<(), CannotWrite>
    ensures ok { OnOk result (Sends (W.contents writer.old) buffer.old (W.contents writer.new) buffer.new
        (fields_text form (more_fields (view_read entry.now)))) }
    ensures err { OnErr result (Stops (W.contents writer.old) buffer.old (W.contents writer.new)
        (fields_text form (more_fields (view_read entry.now)))) }
{
    match entry {
        ReadEntry::Good(entry) => put_runs_in(buffer, writer, form, &entry.run1, &entry.run2),
        ReadEntry::BadRun(_) => {
            put_fields(
                buffer,
                writer,
                form,
                &[told(" badrun", "badrun", Said::Mark)],
            )
        }
    }
}

/// What a service entry says beside its options.
fn service_fields(entry: &ServiceEntry) -> [Field<'static>; 5]
    ensures { map view_field result ≡ service_fields entry.now }
{
    [
        told(" ", "service", Said::Id(entry.service)),
        told(".", "instance", Said::Id(entry.instance)),
        told(" major ", "major", Said::Byte(entry.major)),
        told(" ttl ", "ttl", Said::Number(ttl_of_service(entry))),
        told(" minor ", "minor", Said::Number(entry.minor as usize)),
    ]
}

/// What an eventgroup entry says beside its options.
fn eventgroup_fields(entry: &EventgroupEntry) -> [Field<'static>; 6]
    ensures { map view_field result ≡ eventgroup_fields entry.now }
{
    [
        told(" ", "service", Said::Id(entry.service)),
        told(".", "instance", Said::Id(entry.instance)),
        told(" major ", "major", Said::Byte(entry.major)),
        told(" ttl ", "ttl", Said::Number(ttl_of_eventgroup(entry))),
        told(" counter ", "counter", Said::Number(counter_of(entry))),
        told(" group ", "group", Said::Id(entry.eventgroup)),
    ]
}

/// The name of an entry.
fn name_of(entry: &EntryHead) -> &'static str
    ensures { result.now ≡ head_name entry.now }
{
    match entry {
        EntryHead::Service(entry) => name_of_service(entry),
        EntryHead::Eventgroup(entry) => name_of_eventgroup(entry),
    }
}
