//! The lines of the values of messages.
ghost use Rattle.std.specs.Prelude.{◌≡◌, ◌+◌, ◌≤◌, [], IfErr, IfOk, IsOk, OnErr, OnOk, length, map, string_bytes};
ghost use Rattle.someip_wire.specs.Spelling.{spelling};
ghost use Rattle.someip_wire.specs.View.{view, view_item};
ghost use Rattle.someipctl_io.specs.Discovery.{discovery_in, view_found};
ghost use Rattle.someipctl_io.specs.Items.{item_len};
ghost use Rattle.someipctl_io.specs.ToldItems.{head_from};
ghost use Rattle.someipctl_io.specs.ToldViews.{view_field};
ghost use Rattle.someipctl_show.specs.ShownText.{ComesWith, IsItemText, IsValueOfItem, has_value_fault_in, shows_fault};
ghost use Rattle.someipctl_show.specs.ShownForms.{AreFieldsOfItem, AreItemObjects, AreWholeObjects, IsItemTextFrom};
ghost use Rattle.someipctl_show.specs.TextKinds.{SendsOne, StopsOne};
ghost use Rattle.someipctl_show.specs.types.ValueFields.{AreValueFields, IsFieldsBehind, IsFieldsText};
ghost use Rattle.someipctl_show.specs.types.ValueLine.{has_value_fault};

use crate::types::MessageTypes;
use someip_wire::{Message, WireError};
use someipctl_io::{
    Buffer, Field, Form, FoundItem, PrintFault, put_item, put_item_objects, put_value_object,
    put_whole_object,
};
use std::alloc::{AllocError, Global};
use std::io::Write;
use std::mem;

/// Makes the lines of the values of messages, one after the other, in one text.
#[derive(Drop)]
pub struct ValueLines<'t> {
    alloc: Global,
    /// What payloads are read by.
    pub types: &'t MessageTypes,
    /// The line that was made last.
    pub line: String,
    /// The fields of the object that was made last.
    fields: Vec<u8>,
    /// The text of the float that was told last.
    float: String,
}

impl<'t> ValueLines<'t> {
    /// Those of messages that these types name.
    pub fn new(alloc: Global, types: &'t MessageTypes) -> ValueLines<'t>
        ensures { result.types.now ≡ types.now }
    {
        ValueLines {
            alloc,
            types,
            line: String::new(alloc),
            fields: Vec::new(alloc),
            float: String::new(alloc),
        }
    }

    /// Makes a line of the value of an item, which begins at a place of the k-th datagram: an empty
    /// one where it has none. Says whether it tells a fault.
    pub fn make(
        &mut self,
        k: usize,
        place: usize,
        item: &Result<Message<'_>, WireError>,
    ) -> Result<bool, AllocError>
        requires { place + item_len (view_item item.now) ≤ usize.MAX }
        ensures line { OnOk result (IsValueOfItem self.old.types.now k place (view_item item.now)
            (string_bytes self.new.line)) }
        ensures faulty { IfOk result (λ faulty.
            faulty ≡ has_value_fault_in self.old.types.now (view_item item.now)) }
        // Without types there is no line, which takes no memory.
        ensures plain { self.old.types.now ≡ [] → IsOk result }
        ensures types { self.new.types.now ≡ self.old.types.now }
    {
        self.line.clear();
        if self.types.is_empty() {
            return Ok(false);
        }
        match item {
            Ok(message) => {
                self.types
                    .make_value_line(self.alloc, k, place, message, &mut self.line)
            }
            Err(_) => Ok(false),
        }
    }
}

impl ValueLines<'_> {
    /// Makes the fields of the object of the value of an item, which begins at a place of its datagram:
    /// none where it has no value. Says whether they tell a fault.
    fn make_fields(
        &mut self,
        place: usize,
        item: &Result<Message<'_>, WireError>,
    ) -> Result<bool, AllocError>
        requires { place + item_len (view_item item.now) ≤ usize.MAX }
        ensures fields { OnOk result (IsFieldsText (AreFieldsOfItem self.old.types.now place (view_item item.now))
            self.new.fields.items) }
        ensures faulty { IfOk result (λ faulty.
            faulty ≡ has_value_fault_in self.old.types.now (view_item item.now)) }
        ensures plain { self.old.types.now ≡ [] → IsOk result }
        ensures types { self.new.types.now ≡ self.old.types.now }
    {
        self.fields.clear();
        if self.types.is_empty() {
            return Ok(false);
        }
        match item {
            Ok(message) => self.put_fields(place, message),
            Err(_) => Ok(false),
        }
    }

    /// Puts the fields of the object of the value of a message behind those that are there.
    fn put_fields(&mut self, place: usize, message: &Message<'_>) -> Result<bool, AllocError>
        requires { place + length (spelling (view message.now)) ≤ usize.MAX }
        ensures fields { OnOk result (IsFieldsBehind self.old.fields.items
            (AreValueFields self.old.types.now place (view message.now)) self.new.fields.items) }
        ensures faulty { IfOk result (λ faulty.
            faulty ≡ has_value_fault self.old.types.now (view message.now)) }
        ensures types { self.new.types.now ≡ self.old.types.now }
    {
        let before = mem::replace(&mut self.fields, Vec::new(self.alloc));
        let (fields, faulty) = self
            .types
            .put_value_fields(self.alloc, place, message, before, &mut self.float)?;
        self.fields = fields;
        Ok(faulty)
    }
}

/// Prints the lines of an item, and that of its value, in the form that is asked for: objects with fields that
/// say where they came from. Says whether a fault is among them.
pub fn put_valued_item_in<W: Write>(
    buffer: &mut Buffer,
    writer: &mut W,
    form: Form,
    origin: &[Field<'_>],
    shown: &FoundItem<'_>,
    values: &mut ValueLines<'_>,
) -> Result<bool, PrintFault>
    requires found { view_found shown.now.found ≡ discovery_in (view_item shown.now.item.now) }
    requires room { shown.now.place + item_len (view_item shown.now.item.now) ≤ usize.MAX }
    ensures ok { OnOk result (SendsOne (IsItemTextFrom form (map view_field origin.now) values.old.types.now
        shown.now.k shown.now.place (view_item shown.now.item.now))
        (W.contents writer.old) buffer.old (W.contents writer.new) buffer.new) }
    ensures faulty { IfOk result (λ faulty.
        faulty ≡ shows_fault values.old.types.now (view_item shown.now.item.now)) }
    ensures err { OnErr result (StopsOne (IsItemTextFrom form (map view_field origin.now) values.old.types.now
        shown.now.k shown.now.place (view_item shown.now.item.now))
        (W.contents writer.old) buffer.old (W.contents writer.new)) }
    ensures memory { IfErr result (ComesWith values.old.types.now) }
    ensures types { values.new.types.now ≡ values.old.types.now }
{
    match form {
        Form::Plain => put_valued_item(buffer, writer, shown, values),
        Form::Json => put_valued_objects(buffer, writer, origin, shown, values),
    }
}

/// Prints the object of a message that a segment made whole, and that of its value, with fields that say where
/// they came from. Says whether a fault is told of the value.
pub fn put_whole_objects<W: Write>(
    buffer: &mut Buffer,
    writer: &mut W,
    origin: &[Field<'_>],
    k: usize,
    message: &Message<'_>,
    values: &mut ValueLines<'_>,
) -> Result<bool, PrintFault>
    requires { 16 + length message.now.payload.now ≤ usize.MAX }
    ensures ok { OnOk result (SendsOne (AreWholeObjects values.old.types.now
        (head_from (map view_field origin.now) k) (view message.now))
        (W.contents writer.old) buffer.old (W.contents writer.new) buffer.new) }
    ensures faulty { IfOk result (λ faulty. faulty ≡ has_value_fault values.old.types.now (view message.now)) }
    ensures err { OnErr result (StopsOne (AreWholeObjects values.old.types.now
        (head_from (map view_field origin.now) k) (view message.now))
        (W.contents writer.old) buffer.old (W.contents writer.new)) }
    ensures types { values.new.types.now ≡ values.old.types.now }
{
    let faulty = values.make_fields(0, &Ok(*message))?;
    put_whole_object(buffer, writer, origin, k, message)?;
    put_value_object(buffer, writer, origin, k, &values.fields)?;
    Ok(faulty)
}

/// Prints the objects of an item, and that of its value, with fields that say where they came from. Says
/// whether a fault is among them.
pub fn put_valued_objects<W: Write>(
    buffer: &mut Buffer,
    writer: &mut W,
    origin: &[Field<'_>],
    shown: &FoundItem<'_>,
    values: &mut ValueLines<'_>,
) -> Result<bool, PrintFault>
    requires found { view_found shown.now.found ≡ discovery_in (view_item shown.now.item.now) }
    requires room { shown.now.place + item_len (view_item shown.now.item.now) ≤ usize.MAX }
    ensures ok { OnOk result (SendsOne (AreItemObjects values.old.types.now
        (head_from (map view_field origin.now) shown.now.k) shown.now.place (view_item shown.now.item.now))
        (W.contents writer.old) buffer.old (W.contents writer.new) buffer.new) }
    ensures faulty { IfOk result (λ faulty.
        faulty ≡ shows_fault values.old.types.now (view_item shown.now.item.now)) }
    ensures err { OnErr result (StopsOne (AreItemObjects values.old.types.now
        (head_from (map view_field origin.now) shown.now.k) shown.now.place (view_item shown.now.item.now))
        (W.contents writer.old) buffer.old (W.contents writer.new)) }
    ensures memory { IfErr result (ComesWith values.old.types.now) }
    ensures types { values.new.types.now ≡ values.old.types.now }
{
    let is_value_faulty = values.make_fields(shown.place, shown.item)?;
    let faulty = put_item_objects(buffer, writer, origin, shown, &values.fields)?;
    Ok(is_value_faulty | faulty)
}

/// Prints the lines of an item, and after that of a message the line of its value, where it has one.
/// Says whether a fault is among them.
pub fn put_valued_item<W: Write>(
    buffer: &mut Buffer,
    writer: &mut W,
    shown: &FoundItem<'_>,
    values: &mut ValueLines<'_>,
) -> Result<bool, PrintFault>
    requires found { view_found shown.now.found ≡ discovery_in (view_item shown.now.item.now) }
    requires room { shown.now.place + item_len (view_item shown.now.item.now) ≤ usize.MAX }
    ensures ok { OnOk result (SendsOne (IsItemText values.old.types.now shown.now.k shown.now.place
        (view_item shown.now.item.now)) (W.contents writer.old) buffer.old (W.contents writer.new) buffer.new) }
    ensures faulty { IfOk result (λ faulty.
        faulty ≡ shows_fault values.old.types.now (view_item shown.now.item.now)) }
    ensures err { OnErr result (StopsOne (IsItemText values.old.types.now shown.now.k shown.now.place
        (view_item shown.now.item.now)) (W.contents writer.old) buffer.old (W.contents writer.new)) }
    ensures memory { IfErr result (ComesWith values.old.types.now) }
    ensures types { values.new.types.now ≡ values.old.types.now }
{
    let is_value_faulty = values.make(shown.k, shown.place, shown.item)?;
    let faulty = put_item(buffer, writer, shown, values.line.as_bytes())?;
    Ok(is_value_faulty | faulty)
}
