//! The lines of a datagram of a recording.
ghost use Rattle.std.specs.Prelude.{◌≡◌, ◌+◌, ◌≤◌, [], length, map, IfOk, OnErr, OnOk};
ghost use Rattle.recording.specs.View.{view_datagram};
ghost use Rattle.recording_packets.specs.View.{view_arrival};
ghost use Rattle.someip_wire.specs.Reading.{items_of};
ghost use Rattle.someip_wire.specs.View.{view, view_item};
ghost use Rattle.someipctl_show.specs.TextKinds.{SendsOne, StopsOne};
ghost use Rattle.someipctl_io.specs.Items.{item_len};
ghost use Rattle.someipctl_io.specs.Sending.{Sends, Stops};
ghost use Rattle.someipctl_io.specs.ToldViews.{view_field};
ghost use Rattle.someipctl_show.specs.types.ValueLine.{has_value_fault};
ghost use Rattle.someipctl_recordings.specs.Gathered.{IsInTime, store_after, view_store, view_told};
ghost use Rattle.someipctl_recordings.specs.RecordedText.{AreItemLines, AreLinesWith, Headed, IsGatheredText, IsSceneText};
ghost use Rattle.someipctl_recordings.specs.RecordedText.{IsWholeText, dropped_in, empty_from, heads_in};
ghost use Rattle.someipctl_recordings.specs.RecordedText.{gathers_fault, has_fault_with, records_fault, store_after_all};
ghost use Rattle.someipctl_recordings.specs.Scenes.{numbered_scene, scene_by};

use crate::asked::{Asked, Heads};
use crate::heads::{asked_fields, origin_fields, put_with_heads};
use crate::reassembly::{Told, tell_item};
use recording_packets::Arrival;
use someip_reassembly::Reassembly;
use someip_wire::{Message, Messages, WireError};
use someipctl_io::{
    Buffer, CannotWrite, Field, Form, FoundItem, PrintFault, item_len, put_dropped,
    put_dropped_object, put_empty, put_empty_object, put_whole_line,
};
use someipctl_show::readings::reading_of;
use someipctl_show::value_lines::{ValueLines, put_valued_item_in, put_whole_objects};
use std::alloc::{AllocError, Global};
use std::io::Write;

/// What is kept from datagram to datagram.
#[derive(Drop)]
pub(crate) struct Telling<'t, S> {
    pub(crate) alloc: Global,
    /// Makes the lines of values.
    pub(crate) values: ValueLines<'t>,
    /// The messages that have come in part, where messages are put together.
    pub(crate) store: Option<S>,
    /// The bytes of the message that was whole last.
    pub(crate) bytes: Vec<u8>,
}

/// A datagram that is shown.
#[derive(Clone, Copy)]
pub(crate) struct Numbered<'d> {
    /// Its number.
    pub(crate) k: usize,
    /// Its moment, in milliseconds.
    pub(crate) now: u64,
    /// The datagram, with the number of its packet.
    pub(crate) arrival: Arrival<'d>,
    /// The form of its lines.
    pub(crate) form: Form,
    /// The fields of objects that say where they came from.
    pub(crate) origin: &'d [Field<'d>],
}

/// Prints the text of the k-th datagram, which comes at a moment, in the form that is asked for, and says whether
/// a fault is in it. `lines` is a buffer for lines that get something before them.
pub(crate) fn put_numbered<S: Reassembly + Drop, W: Write>(
    buffer: &mut Buffer,
    writer: &mut W,
    k: usize,
    now: u64,
    arrival: Arrival<'_>,
    asked: &Asked<'_>,
    lines: &mut Buffer,
    telling: &mut Telling<'_, S>,
) -> Result<bool, PrintFault>
    requires empty { lines.old ≡ [] }
    requires in_time { IsInTime S.parts now telling.old.store }
    ensures empty { OnOk result (lines.new ≡ []) }
    ensures ok { OnOk result (SendsOne (Headed (heads_in asked.now.form asked.now.heads) (view_arrival arrival.entry)
        (IsSceneText (numbered_scene telling.old.values.types.now asked.now k now (view_arrival arrival.entry))
        (view_store S.limits S.parts telling.old.store)))
        (W.contents writer.old) buffer.old (W.contents writer.new) buffer.new) }
    ensures faulty { IfOk result (λ faulty. faulty ≡ has_fault_with
        (numbered_scene telling.old.values.types.now asked.now k now (view_arrival arrival.entry))
        (view_store S.limits S.parts telling.old.store) (items_of arrival.entry.datagram.payload.now)) }
    ensures store { OnOk result (view_store S.limits S.parts telling.new.store ≡ store_after_all
        (view_store S.limits S.parts telling.old.store) now (view_datagram arrival.entry.datagram)
        (items_of arrival.entry.datagram.payload.now)) }
    ensures in_time { IsInTime S.parts now telling.new.store }
    ensures err { OnErr result (StopsOne (Headed (heads_in asked.now.form asked.now.heads) (view_arrival arrival.entry)
        (IsSceneText (numbered_scene telling.old.values.types.now asked.now k now (view_arrival arrival.entry))
        (view_store S.limits S.parts telling.old.store)))
        (W.contents writer.old) buffer.old (W.contents writer.new)) }
    ensures types { telling.new.values.types.now ≡ telling.old.values.types.now }
{
    match asked.form {
        Form::Plain => {
            let shown = Numbered {
                k,
                now,
                arrival,
                form: Form::Plain,
                origin: &[],
            };
            put_recorded(buffer, writer, &shown, asked.heads, lines, telling)
        }
        Form::Json => {
            let fields = origin_fields(&arrival);
            let shown = Numbered {
                k,
                now,
                arrival,
                form: Form::Json,
                origin: asked_fields(asked.heads, &fields),
            };
            put_datagram(buffer, writer, &shown, telling)
        }
    }
}

/// Prints the plain text of a datagram, with what is asked for before each line, and says whether a fault is in
/// it. `lines` is a buffer for lines that get something.
fn put_recorded<S: Reassembly + Drop, W: Write>(
    buffer: &mut Buffer,
    writer: &mut W,
    shown: &Numbered<'_>,
    heads: Heads,
    lines: &mut Buffer,
    telling: &mut Telling<'_, S>,
) -> Result<bool, PrintFault>
    requires empty { lines.old ≡ [] }
    requires in_time { IsInTime S.parts shown.now.now telling.old.store }
    ensures empty { OnOk result (lines.new ≡ []) }
    ensures ok { OnOk result (SendsOne (Headed heads (view_arrival shown.entry.now.arrival) (IsSceneText
        (scene_by telling.old.values.types.now shown.entry.now) (view_store S.limits S.parts telling.old.store)))
        (W.contents writer.old) buffer.old (W.contents writer.new) buffer.new) }
    ensures faulty { IfOk result (λ faulty. faulty ≡ has_fault_with
        (scene_by telling.old.values.types.now shown.entry.now) (view_store S.limits S.parts telling.old.store)
        (items_of shown.entry.now.arrival.datagram.payload.now)) }
    ensures store { OnOk result (view_store S.limits S.parts telling.new.store ≡ store_after_all
        (view_store S.limits S.parts telling.old.store) shown.entry.now.now (view_datagram shown.entry.now.arrival.datagram)
        (items_of shown.entry.now.arrival.datagram.payload.now)) }
    ensures in_time { IsInTime S.parts shown.entry.now.now telling.new.store }
    ensures err { OnErr result (StopsOne (Headed heads (view_arrival shown.entry.now.arrival) (IsSceneText
        (scene_by telling.old.values.types.now shown.entry.now) (view_store S.limits S.parts telling.old.store)))
        (W.contents writer.old) buffer.old (W.contents writer.new)) }
    ensures types { telling.new.values.types.now ≡ telling.old.values.types.now }
{
    if !heads.frame && !heads.endpoints {
        return put_datagram(buffer, writer, shown, telling);
    }
    let mut text = Vec::new(telling.alloc);
    let faulty = print_to(lines, &mut text, shown, telling)?;
    put_with_heads(buffer, writer, heads, &shown.arrival, &text)?;
    Ok(faulty)
}

/// Appends the text of a datagram to an empty vector, through an empty buffer.
fn print_to<S: Reassembly + Drop>(
    buffer: &mut Buffer,
    text: &mut Vec<u8>,
    shown: &Numbered<'_>,
    telling: &mut Telling<'_, S>,
) -> Result<bool, AllocError>
    requires empty { buffer.old ≡ [] }
    requires none { text.old.items ≡ [] }
    requires in_time { IsInTime S.parts shown.now.now telling.old.store }
    ensures empty { OnOk result (buffer.new ≡ []) }
    ensures text { OnOk result (IsSceneText (scene_by telling.old.values.types.now shown.entry.now)
        (view_store S.limits S.parts telling.old.store) text.new.items) }
    ensures faulty { IfOk result (λ faulty. faulty ≡ has_fault_with
        (scene_by telling.old.values.types.now shown.entry.now) (view_store S.limits S.parts telling.old.store)
        (items_of shown.entry.now.arrival.datagram.payload.now)) }
    ensures store { OnOk result (view_store S.limits S.parts telling.new.store ≡ store_after_all
        (view_store S.limits S.parts telling.old.store) shown.entry.now.now (view_datagram shown.entry.now.arrival.datagram)
        (items_of shown.entry.now.arrival.datagram.payload.now)) }
    ensures in_time { IsInTime S.parts shown.entry.now.now telling.new.store }
    ensures types { telling.new.values.types.now ≡ telling.old.values.types.now }
{
    let faulty = put_datagram(buffer, text, shown, telling).map_err(|_| AllocError)?;
    buffer.flush(text).map_err(|_| AllocError)?;
    Ok(faulty)
}

/// Prints the lines of a datagram, and says whether a fault is among them.
pub(crate) fn put_datagram<S: Reassembly + Drop, W: Write>(
    buffer: &mut Buffer,
    writer: &mut W,
    shown: &Numbered<'_>,
    telling: &mut Telling<'_, S>,
) -> Result<bool, PrintFault>
    requires in_time { IsInTime S.parts shown.now.now telling.old.store }
    ensures ok { OnOk result (SendsOne (IsSceneText (scene_by telling.old.values.types.now shown.entry.now)
        (view_store S.limits S.parts telling.old.store))
        (W.contents writer.old) buffer.old (W.contents writer.new) buffer.new) }
    ensures faulty { IfOk result (λ faulty. faulty ≡ has_fault_with
        (scene_by telling.old.values.types.now shown.entry.now) (view_store S.limits S.parts telling.old.store)
        (items_of shown.entry.now.arrival.datagram.payload.now)) }
    ensures store { OnOk result (view_store S.limits S.parts telling.new.store ≡ store_after_all
        (view_store S.limits S.parts telling.old.store) shown.entry.now.now (view_datagram shown.entry.now.arrival.datagram)
        (items_of shown.entry.now.arrival.datagram.payload.now)) }
    ensures in_time { IsInTime S.parts shown.entry.now.now telling.new.store }
    ensures err { OnErr result (StopsOne (IsSceneText (scene_by telling.old.values.types.now shown.entry.now)
        (view_store S.limits S.parts telling.old.store))
        (W.contents writer.old) buffer.old (W.contents writer.new)) }
    ensures types { telling.new.values.types.now ≡ telling.old.values.types.now }
{
    if shown.arrival.datagram.payload.is_empty() {
        put_empty_from(buffer, writer, shown)?;
        return Ok(false);
    }
    put_items(buffer, writer, shown, telling)
}

/// Prints the line of a datagram that has no bytes.
fn put_empty_from<W: Write>(
    buffer: &mut Buffer,
    writer: &mut W,
    shown: &Numbered<'_>,
) -> Result<(), CannotWrite>
    ensures ok { OnOk result (Sends (W.contents writer.old) buffer.old (W.contents writer.new) buffer.new
        (empty_from shown.entry.now.form (map view_field shown.entry.now.origin.now) shown.entry.now.k)) }
    ensures err { OnErr result (Stops (W.contents writer.old) buffer.old (W.contents writer.new)
        (empty_from shown.entry.now.form (map view_field shown.entry.now.origin.now) shown.entry.now.k)) }
{
    match shown.form {
        Form::Plain => put_empty(buffer, writer, shown.k),
        Form::Json => put_empty_object(buffer, writer, shown.origin, shown.k),
    }
}

/// Prints the lines of the items of a datagram, and says whether a fault is among them.
fn put_items<S: Reassembly + Drop, W: Write>(
    buffer: &mut Buffer,
    writer: &mut W,
    shown: &Numbered<'_>,
    telling: &mut Telling<'_, S>,
) -> Result<bool, PrintFault>
    requires in_time { IsInTime S.parts shown.now.now telling.old.store }
    ensures ok { OnOk result (SendsOne (AreLinesWith (scene_by telling.old.values.types.now shown.entry.now)
        (view_store S.limits S.parts telling.old.store) 0 (items_of shown.entry.now.arrival.datagram.payload.now))
        (W.contents writer.old) buffer.old (W.contents writer.new) buffer.new) }
    ensures faulty { IfOk result (λ faulty. faulty ≡ has_fault_with
        (scene_by telling.old.values.types.now shown.entry.now) (view_store S.limits S.parts telling.old.store)
        (items_of shown.entry.now.arrival.datagram.payload.now)) }
    ensures store { OnOk result (view_store S.limits S.parts telling.new.store ≡ store_after_all
        (view_store S.limits S.parts telling.old.store) shown.entry.now.now (view_datagram shown.entry.now.arrival.datagram)
        (items_of shown.entry.now.arrival.datagram.payload.now)) }
    ensures in_time { IsInTime S.parts shown.entry.now.now telling.new.store }
    ensures err { OnErr result (StopsOne (AreLinesWith (scene_by telling.old.values.types.now shown.entry.now)
        (view_store S.limits S.parts telling.old.store) 0 (items_of shown.entry.now.arrival.datagram.payload.now))
        (W.contents writer.old) buffer.old (W.contents writer.new)) }
    ensures types { telling.new.values.types.now ≡ telling.old.values.types.now }
{
    let mut faulty = false;
    let mut place = 0;
    for item in Messages::new(shown.arrival.datagram.payload) {
        faulty |= put_recorded_item(buffer, writer, shown, place, &item, telling)?;
        place += item_len(&item);
    }
    Ok(faulty)
}

/// Prints the lines of an item that begins at a place, and what is told of it where messages are put
/// together. Says whether a fault is among them.
fn put_recorded_item<S: Reassembly + Drop, W: Write>(
    buffer: &mut Buffer,
    writer: &mut W,
    shown: &Numbered<'_>,
    place: usize,
    item: &Result<Message<'_>, WireError>,
    telling: &mut Telling<'_, S>,
) -> Result<bool, PrintFault>
    requires room { place + item_len (view_item item.now) ≤ usize.MAX }
    requires in_time { IsInTime S.parts shown.now.now telling.old.store }
    ensures ok { OnOk result (SendsOne (AreItemLines (scene_by telling.old.values.types.now shown.entry.now)
        (view_store S.limits S.parts telling.old.store) place (view_item item.now))
        (W.contents writer.old) buffer.old (W.contents writer.new) buffer.new) }
    ensures faulty { IfOk result (λ faulty. faulty ≡ records_fault
        (scene_by telling.old.values.types.now shown.entry.now) (view_store S.limits S.parts telling.old.store)
        (view_item item.now)) }
    ensures store { OnOk result (view_store S.limits S.parts telling.new.store ≡ store_after
        (view_store S.limits S.parts telling.old.store) shown.entry.now.now (view_datagram shown.entry.now.arrival.datagram)
        (view_item item.now)) }
    ensures in_time { IsInTime S.parts shown.entry.now.now telling.new.store }
    ensures err { OnErr result (StopsOne (AreItemLines (scene_by telling.old.values.types.now shown.entry.now)
        (view_store S.limits S.parts telling.old.store) place (view_item item.now))
        (W.contents writer.old) buffer.old (W.contents writer.new)) }
    ensures types { telling.new.values.types.now ≡ telling.old.values.types.now }
{
    let found = reading_of(telling.alloc, item)?;
    let told = tell_item(
        &mut telling.store,
        shown.now,
        &shown.arrival.datagram,
        item,
        &mut telling.bytes,
    )?;
    let found = found.as_ref();
    let item = *item;
    let found_item = FoundItem {
        k: shown.k,
        place,
        item: &item,
        found,
    };
    let is_item_faulty = put_valued_item_in(
        buffer,
        writer,
        shown.form,
        shown.origin,
        &found_item,
        &mut telling.values,
    )?;
    let is_whole_faulty = put_told(
        buffer,
        writer,
        shown,
        told,
        &telling.bytes,
        &mut telling.values,
    )?;
    Ok(is_item_faulty | is_whole_faulty)
}

/// Prints what is told of a segment, whose whole message has these bytes, and says whether a fault is in
/// it.
fn put_told<W: Write>(
    buffer: &mut Buffer,
    writer: &mut W,
    shown: &Numbered<'_>,
    told: Told,
    bytes: &[u8],
    values: &mut ValueLines<'_>,
) -> Result<bool, PrintFault>
    requires { 16 + length bytes.now ≤ usize.MAX }
    ensures ok { OnOk result (SendsOne (IsGatheredText (scene_by values.old.types.now shown.entry.now) (view_told told bytes.now))
        (W.contents writer.old) buffer.old (W.contents writer.new) buffer.new) }
    ensures faulty { IfOk result (λ faulty. faulty
        ≡ gathers_fault values.old.types.now (view_told told bytes.now)) }
    ensures err { OnErr result (StopsOne (IsGatheredText (scene_by values.old.types.now shown.entry.now) (view_told told bytes.now))
        (W.contents writer.old) buffer.old (W.contents writer.new)) }
    ensures types { values.new.types.now ≡ values.old.types.now }
{
    match told {
        Told::Nothing => Ok(false),
        Told::Whole(header) => put_whole_in(
            buffer,
            writer,
            shown,
            Message {
                header,
                payload: bytes,
            },
            values,
        ),
        Told::Dropped(refusal) => {
            put_dropped_in(buffer, writer, shown, refusal.name())?;
            Ok(false)
        }
    }
}

/// Prints the line of a segment that is not put together.
fn put_dropped_in<W: Write>(
    buffer: &mut Buffer,
    writer: &mut W,
    shown: &Numbered<'_>,
    name: &str,
) -> Result<(), CannotWrite>
    ensures ok { OnOk result (Sends (W.contents writer.old) buffer.old (W.contents writer.new) buffer.new
        (dropped_in shown.entry.now.form (map view_field shown.entry.now.origin.now) shown.entry.now.k name.now)) }
    ensures err { OnErr result (Stops (W.contents writer.old) buffer.old (W.contents writer.new)
        (dropped_in shown.entry.now.form (map view_field shown.entry.now.origin.now) shown.entry.now.k name.now)) }
{
    match shown.form {
        Form::Plain => put_dropped(buffer, writer, shown.k, name),
        Form::Json => put_dropped_object(buffer, writer, shown.origin, shown.k, name),
    }
}

/// Prints the line of a whole message, and that of its value, in the form of its datagram. Says whether a fault
/// is in it.
fn put_whole_in<W: Write>(
    buffer: &mut Buffer,
    writer: &mut W,
    shown: &Numbered<'_>,
    message: Message<'_>,
    values: &mut ValueLines<'_>,
) -> Result<bool, PrintFault>
    requires { 16 + length message.payload.now ≤ usize.MAX }
    ensures ok { OnOk result (SendsOne (IsWholeText shown.entry.now.form (map view_field shown.entry.now.origin.now)
        values.old.types.now shown.entry.now.k (view message.entry))
        (W.contents writer.old) buffer.old (W.contents writer.new) buffer.new) }
    ensures faulty { IfOk result (λ faulty. faulty ≡ has_value_fault values.old.types.now (view message.entry)) }
    ensures err { OnErr result (StopsOne (IsWholeText shown.entry.now.form (map view_field shown.entry.now.origin.now)
        values.old.types.now shown.entry.now.k (view message.entry))
        (W.contents writer.old) buffer.old (W.contents writer.new)) }
    ensures types { values.new.types.now ≡ values.old.types.now }
{
    match shown.form {
        Form::Plain => put_whole(buffer, writer, shown.k, message, values),
        Form::Json => { put_whole_objects(buffer, writer, shown.origin, shown.k, &message, values) }
    }
}

/// Prints the plain line of a whole message, and that of its value. Says whether a fault is in it.
fn put_whole<W: Write>(
    buffer: &mut Buffer,
    writer: &mut W,
    k: usize,
    message: Message<'_>,
    values: &mut ValueLines<'_>,
) -> Result<bool, PrintFault>
    requires { 16 + length message.payload.now ≤ usize.MAX }
    ensures ok { OnOk result (SendsOne (IsWholeText Form.Plain [] values.old.types.now k (view message.entry))
        (W.contents writer.old) buffer.old (W.contents writer.new) buffer.new) }
    ensures faulty { IfOk result (λ faulty. faulty ≡ has_value_fault values.old.types.now (view message.entry)) }
    ensures err { OnErr result (StopsOne (IsWholeText Form.Plain [] values.old.types.now k (view message.entry))
        (W.contents writer.old) buffer.old (W.contents writer.new)) }
    ensures types { values.new.types.now ≡ values.old.types.now }
{
    let faulty = values.make(k, 0, &Ok(message))?;
    put_whole_line(buffer, writer, k, &message)?;
    buffer.put(writer, values.line.as_bytes())?;
    Ok(faulty)
}
