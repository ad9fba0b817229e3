//! The command `show`: a capture's datagrams, message by message.
//!
//! What `show` promises, it promises of a capture that there is, which is what the reader had left where
//! that is known. So the text, the outcome and the number of a bad line fit one another for every reader, a
//! file too.
ghost use Rattle.std.specs.Prelude.{ℕ, List, ◌≡◌, ◌≢◌, ◌++◌, [], Some, OnOk, OnErr, IfOk, IfErr, map};
ghost use Rattle.std.specs.Io.KnownBytes.{Appends};
ghost use Rattle.someip_wire.specs.Reading.{items_of};
ghost use Rattle.someipctl_show.specs.TextKinds.{SendsOne, StopsOne};
ghost use Rattle.someipctl_io.specs.Discovery.{view_reading};
ghost use Rattle.someipctl_show.specs.Readings.{BeginWith, readings_in, readings_of};
ghost use Rattle.someipctl_show.specs.Services.{asked_among};
ghost use Rattle.someipctl_show.specs.ShownText.{ComesWith, IsDatagramText, has_fault, no_types, shown_outcome};
ghost use Rattle.someipctl_show.specs.ShownForms.{AreLinesIn, IsDatagramTextIn, IsShownTextIn, RefusesShowIn, ShowsIn, empty_in};
ghost use Rattle.someipctl_io.specs.Sending.{Sends, Stops};
ghost use Rattle.someipctl_show.specs.ShowResult.{Shows, RefusesShow, view_services};

use crate::capture::{BadCaptureLine, read_capture};
use crate::readings::{next_reading, read_ahead, read_datagram};
use crate::services::{AskedService, is_asked_by};
use crate::types::MessageTypes;
use crate::value_lines::{ValueLines, put_valued_item_in};
use sd_wire::{SdError, SdRead};
use someip_wire::Messages;
use someipctl_io::{
    Buffer, CannotWrite, Fault, Form, FoundItem, Outcome, PrintFault, item_len, put_empty,
    put_empty_object, read_all,
};
use std::alloc::{AllocError, Global};
use std::io::{Read, Write};

/// Reads a capture whole, checks every line, and then writes what it shows: for each datagram its
/// messages and the fault that ends it, or one line where it is empty. Where services are named, only
/// datagrams with a message of one of them are shown; after the line of a message that the types name
/// stands that of its value.
pub fn show<R: Read, W: Write>(
    alloc: Global,
    reader: &mut R,
    services: Option<&[AskedService]>,
    types: &MessageTypes,
    writer: &mut W,
) -> Result<Outcome, Fault<BadCaptureLine>>
    // A text of all datagrams that are asked for was written, and the outcome says whether a fault is in
    // it.
    ensures shown { IfOk result (λ outcome. Shows (R.remaining reader.old) (view_services services.entry)
        types.now outcome (W.contents writer.old) (W.contents writer.new)) }
    // An error names the first bad line, and leaves nothing written, but for one of writing, or of memory
    // for a value: that leaves a beginning of such a text.
    ensures refused { IfErr result (λ error. RefusesShow (R.remaining reader.old)
        (view_services services.entry) types.now error (W.contents writer.old) (W.contents writer.new)) }
{
    show_in(alloc, Form::Plain, reader, services, types, writer)
}

/// The same, with lines in the form that is asked for.
pub fn show_in<R: Read, W: Write>(
    alloc: Global,
    form: Form,
    reader: &mut R,
    services: Option<&[AskedService]>,
    types: &MessageTypes,
    writer: &mut W,
) -> Result<Outcome, Fault<BadCaptureLine>>
    ensures shown { IfOk result (λ outcome. ShowsIn form (R.remaining reader.old) (view_services services.entry)
        types.now outcome (W.contents writer.old) (W.contents writer.new)) }
    ensures refused { IfErr result (λ error. RefusesShowIn form (R.remaining reader.old)
        (view_services services.entry) types.now error (W.contents writer.old) (W.contents writer.new)) }
{
    let text = read_all(alloc, reader)?;
    show_capture_in(alloc, form, &text, services, types, writer)
}

/// Checks every line of a capture, and then writes what it shows, as `show` does.
pub fn show_capture<W: Write>(
    alloc: Global,
    text: &[u8],
    services: Option<&[AskedService]>,
    types: &MessageTypes,
    writer: &mut W,
) -> Result<Outcome, Fault<BadCaptureLine>>
    ensures shown { IfOk result (λ outcome. Shows (Some text.now) (view_services services.entry)
        types.now outcome (W.contents writer.old) (W.contents writer.new)) }
    ensures refused { IfErr result (λ error. RefusesShow (Some text.now) (view_services services.entry)
        types.now error (W.contents writer.old) (W.contents writer.new)) }
    // A capture that is there cannot fail to be read.
    ensures there { result ≢ Err Fault.CannotRead }
{
    show_capture_in(alloc, Form::Plain, text, services, types, writer)
}

/// The same, with lines in the form that is asked for.
pub fn show_capture_in<W: Write>(
    alloc: Global,
    form: Form,
    text: &[u8],
    services: Option<&[AskedService]>,
    types: &MessageTypes,
    writer: &mut W,
) -> Result<Outcome, Fault<BadCaptureLine>>
    ensures shown { IfOk result (λ outcome. ShowsIn form (Some text.now) (view_services services.entry)
        types.now outcome (W.contents writer.old) (W.contents writer.new)) }
    ensures refused { IfErr result (λ error. RefusesShowIn form (Some text.now) (view_services services.entry)
        types.now error (W.contents writer.old) (W.contents writer.new)) }
    ensures there { result ≢ Err Fault.CannotRead }
{
    let mut datagrams = read_capture(alloc, text)?;
    keep_asked(services, &mut datagrams);
    let readings = read_ahead(alloc, &datagrams)?;
    let mut buffer = Buffer::new(alloc)?;
    let mut values = ValueLines::new(alloc, types);
    let outcome = write_datagrams(
        &mut buffer,
        writer,
        form,
        &datagrams,
        &readings,
        &mut values,
    )?;
    Ok(outcome)
}

/// Keeps the datagrams that are asked for.
fn keep_asked(services: Option<&[AskedService]>, datagrams: &mut Vec<Vec<u8>>)
    ensures { map (λ d. d.items) datagrams.new.items
        ≡ asked_among (view_services services.entry) (map (λ d. d.items) datagrams.old.items) }
{
    datagrams.retain(|d| is_asked_by(services, d));
}

/// Writes the text of all datagrams through an empty buffer.
fn write_datagrams<W: Write>(
    buffer: &mut Buffer,
    writer: &mut W,
    form: Form,
    datagrams: &[Vec<u8>],
    readings: &[Result<SdRead, SdError>],
    values: &mut ValueLines<'_>,
) -> Result<Outcome, PrintFault>
    requires empty { buffer.old ≡ [] }
    requires read { map view_reading readings.now ≡ readings_of (map (λ d. d.items) datagrams.now) }
    ensures ok { OnOk result ((text : List ℕ)
        × IsShownTextIn form values.old.types.now (map (λ d. d.items) datagrams.now) text
        × Appends (W.contents writer.old) (W.contents writer.new) text) }
    ensures outcome { IfOk result (λ outcome.
        outcome ≡ shown_outcome values.old.types.now (map (λ d. d.items) datagrams.now)) }
    ensures err { OnErr result (StopsOne (IsShownTextIn form values.old.types.now (map (λ d. d.items) datagrams.now))
        (W.contents writer.old) [] (W.contents writer.new)) }
    ensures memory { IfErr result (ComesWith values.old.types.now) }
    ensures types { values.new.types.now ≡ values.old.types.now }
{
    let outcome = put_datagrams(buffer, writer, form, datagrams, readings, values)?;
    buffer.flush(writer)?;
    Ok(outcome)
}

/// Prints the text of all datagrams of a capture, in order.
fn put_datagrams<W: Write>(
    buffer: &mut Buffer,
    writer: &mut W,
    form: Form,
    datagrams: &[Vec<u8>],
    readings: &[Result<SdRead, SdError>],
    values: &mut ValueLines<'_>,
) -> Result<Outcome, PrintFault>
    requires { map view_reading readings.now ≡ readings_of (map (λ d. d.items) datagrams.now) }
    ensures ok { OnOk result (SendsOne (IsShownTextIn form values.old.types.now (map (λ d. d.items) datagrams.now))
        (W.contents writer.old) buffer.old (W.contents writer.new) buffer.new) }
    ensures outcome { IfOk result (λ outcome.
        outcome ≡ shown_outcome values.old.types.now (map (λ d. d.items) datagrams.now)) }
    ensures err { OnErr result (StopsOne (IsShownTextIn form values.old.types.now (map (λ d. d.items) datagrams.now))
        (W.contents writer.old) buffer.old (W.contents writer.new)) }
    ensures memory { IfErr result (ComesWith values.old.types.now) }
    ensures types { values.new.types.now ≡ values.old.types.now }
{
    let mut fault_shown = false;
    let mut left = readings;
    for (i, datagram) in datagrams.iter().enumerate() {
        fault_shown |= put_datagram(buffer, writer, form, i + 1, datagram, &mut left, values)?;
    }
    Ok(Outcome::of(fault_shown))
}

/// Prints the text of the k-th datagram, and says whether a fault is in it. What its Service Discovery
/// messages hold is taken from what is left.
pub(crate) fn put_datagram<W: Write>(
    buffer: &mut Buffer,
    writer: &mut W,
    form: Form,
    k: usize,
    datagram: &[u8],
    left: &mut &[Result<SdRead, SdError>],
    values: &mut ValueLines<'_>,
) -> Result<bool, PrintFault>
    requires { BeginWith (map view_reading left.old.now) (readings_in (items_of datagram.now)) }
    ensures ok { OnOk result (SendsOne (IsDatagramTextIn form values.old.types.now k datagram.now)
        (W.contents writer.old) buffer.old (W.contents writer.new) buffer.new) }
    ensures faulty { IfOk result (λ faulty. faulty ≡ has_fault values.old.types.now datagram.now) }
    ensures left { OnOk result (map view_reading left.old.now
        ≡ readings_in (items_of datagram.now) ++ map view_reading left.new.now) }
    ensures err { OnErr result (StopsOne (IsDatagramTextIn form values.old.types.now k datagram.now)
        (W.contents writer.old) buffer.old (W.contents writer.new)) }
    ensures memory { IfErr result (ComesWith values.old.types.now) }
    ensures types { values.new.types.now ≡ values.old.types.now }
{
    if datagram.is_empty() {
        put_empty_in(buffer, writer, form, k)?;
        return Ok(false);
    }
    put_items(buffer, writer, form, k, datagram, left, values)
}

/// Prints the line of the k-th datagram where that has no bytes.
fn put_empty_in<W: Write>(
    buffer: &mut Buffer,
    writer: &mut W,
    form: Form,
    k: usize,
) -> Result<(), CannotWrite>
    ensures ok { OnOk result (Sends (W.contents writer.old) buffer.old
        (W.contents writer.new) buffer.new (empty_in form k)) }
    ensures err { OnErr result (Stops (W.contents writer.old) buffer.old
        (W.contents writer.new) (empty_in form k)) }
{
    match form {
        Form::Plain => put_empty(buffer, writer, k),
        Form::Json => put_empty_object(buffer, writer, &[], k),
    }
}

/// The text of a datagram as the first of a capture.
pub fn text_of_datagram(alloc: Global, datagram: &[u8]) -> Result<Vec<u8>, AllocError>
    ensures { IfOk result (λ text. IsDatagramText no_types 1 datagram.now text.items) }
{
    let mut text = Vec::new(alloc);
    let mut readings = Vec::new(alloc);
    read_datagram(alloc, datagram, &mut readings)?;
    let mut buffer = Buffer::new(alloc)?;
    let mut left = readings.as_slice();
    let types = MessageTypes::none(alloc);
    let mut values = ValueLines::new(alloc, &types);
    put_datagram(
        &mut buffer,
        &mut text,
        Form::Plain,
        1,
        datagram,
        &mut left,
        &mut values,
    )
    .map_err(|_| AllocError)?;
    buffer.flush(&mut text).map_err(|_| AllocError)?;
    Ok(text)
}

/// Prints the lines of the items of the k-th datagram, and says whether a fault is among them.
fn put_items<W: Write>(
    buffer: &mut Buffer,
    writer: &mut W,
    form: Form,
    k: usize,
    datagram: &[u8],
    left: &mut &[Result<SdRead, SdError>],
    values: &mut ValueLines<'_>,
) -> Result<bool, PrintFault>
    requires { BeginWith (map view_reading left.old.now) (readings_in (items_of datagram.now)) }
    ensures ok { OnOk result (SendsOne (AreLinesIn form values.old.types.now k 0 (items_of datagram.now))
        (W.contents writer.old) buffer.old (W.contents writer.new) buffer.new) }
    ensures faulty { IfOk result (λ faulty. faulty ≡ has_fault values.old.types.now datagram.now) }
    ensures left { OnOk result (map view_reading left.old.now
        ≡ readings_in (items_of datagram.now) ++ map view_reading left.new.now) }
    ensures err { OnErr result (StopsOne (AreLinesIn form values.old.types.now k 0 (items_of datagram.now))
        (W.contents writer.old) buffer.old (W.contents writer.new)) }
    ensures memory { IfErr result (ComesWith values.old.types.now) }
    ensures types { values.new.types.now ≡ values.old.types.now }
{
    let mut faulty = false;
    let mut place = 0;
    for item in Messages::new(datagram) {
        let found = next_reading(&item, left);
        let shown = FoundItem {
            k,
            place,
            item: &item,
            found,
        };
        faulty |= put_valued_item_in(buffer, writer, form, &[], &shown, values)?;
        place += item_len(&item);
    }
    Ok(faulty)
}
