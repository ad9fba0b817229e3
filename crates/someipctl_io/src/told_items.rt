//! The lines of what a datagram holds, item by item, in the form that is asked for.
ghost use Rattle.std.specs.Prelude.{◌≡◌, ◌≤◌, ◌+◌, ◌&&◌, ◌||◌, ◌++◌, OnOk, OnErr, IfOk, IfErr, IfSome, map};
ghost use Rattle.someip_wire.specs.Kinds.{has_tp_flag};
ghost use Rattle.someip_wire.specs.View.{view, view_item};
ghost use Rattle.sd_wire.specs.decoding.Faults.{fault_place as sd_place};
ghost use Rattle.someipctl_io.specs.Sending.{Sends, Stops};
ghost use Rattle.someipctl_io.specs.Lines.{has_no_tp_header};
ghost use Rattle.someipctl_io.specs.Discovery.{view_found, discovery_in, has_sd_fault};
ghost use Rattle.someipctl_io.specs.Items.{item_len, is_faulty};
ghost use Rattle.someipctl_io.specs.ToldLines.{line_text, lines_text};
ghost use Rattle.someipctl_io.specs.ToldViews.{view_field, view_head};
ghost use Rattle.someipctl_io.specs.ToldItems.{datagram_field, discovery_told, dropped_told, empty_told, head_from, item_text};
ghost use Rattle.someipctl_io.specs.ToldItems.{segments_told, value_lines, whole_told};

use crate::form::Form;
use crate::items::FoundItem;
use crate::output::{Buffer, CannotWrite};
use crate::told::{Field, LineHead, Said, put_begin, put_end_of_line};
use crate::told_entries::put_reading_in;
use crate::told_lines::{
    put_dropped_in, put_empty_in, put_fault_in, put_message_in, put_segment_in, put_whole_in, told,
};
use sd_wire::{SdError, SdRead};
use someip_wire::{Header, Message};
use std::io::Write;

/// The field that numbers a datagram.
pub fn datagram_field(k: usize) -> Field<'static>
    ensures { view_field result ≡ datagram_field k }
{
    told("", "datagram", Said::Number(k))
}

/// Prints the objects of an item, with fields that say where it came from. `fields` is the text of the fields
/// of the object that tells a message's value: empty where there is none. Says whether a fault is among the
/// objects, of which that is none.
pub fn put_item_objects<W: Write>(
    buffer: &mut Buffer,
    writer: &mut W,
    origin: &[Field<'_>],
    shown: &FoundItem<'_>,
    fields: &[u8],
) -> Result<bool, CannotWrite>
    requires found { view_found shown.now.found ≡ discovery_in (view_item shown.now.item.now) }
    requires room { shown.now.place + item_len (view_item shown.now.item.now) ≤ usize.MAX }
    ensures ok { OnOk result (Sends (W.contents writer.old) buffer.old (W.contents writer.new) buffer.new
        (item_text Form.Json (head_from (map view_field origin.now) shown.now.k) shown.now.place fields.now
        (view_item shown.now.item.now))) }
    ensures faulty { IfOk result (λ faulty. faulty ≡ is_faulty (view_item shown.now.item.now)) }
    ensures err { OnErr result (Stops (W.contents writer.old) buffer.old (W.contents writer.new)
        (item_text Form.Json (head_from (map view_field origin.now) shown.now.k) shown.now.place fields.now
        (view_item shown.now.item.now))) }
{
    let number = [datagram_field(shown.k)];
    let head = LineHead {
        form: Form::Json,
        number: &number,
        origin,
        place: &[],
    };
    put_told_item(buffer, writer, &head, shown, fields)
}

/// Prints the object of the k-th datagram where that has no bytes, with fields that say where it came from.
pub fn put_empty_object<W: Write>(
    buffer: &mut Buffer,
    writer: &mut W,
    origin: &[Field<'_>],
    k: usize,
) -> Result<(), CannotWrite>
    ensures ok { OnOk result (Sends (W.contents writer.old) buffer.old (W.contents writer.new) buffer.new
        (line_text Form.Json (head_from (map view_field origin.now) k) empty_told)) }
    ensures err { OnErr result (Stops (W.contents writer.old) buffer.old (W.contents writer.new)
        (line_text Form.Json (head_from (map view_field origin.now) k) empty_told)) }
{
    let number = [datagram_field(k)];
    let head = LineHead {
        form: Form::Json,
        number: &number,
        origin,
        place: &[],
    };
    put_empty_in(buffer, writer, &head)
}

/// Prints the object of a segment of the k-th datagram that is not put together, with fields that say where it
/// came from.
pub fn put_dropped_object<W: Write>(
    buffer: &mut Buffer,
    writer: &mut W,
    origin: &[Field<'_>],
    k: usize,
    name: &str,
) -> Result<(), CannotWrite>
    ensures ok { OnOk result (Sends (W.contents writer.old) buffer.old (W.contents writer.new) buffer.new
        (line_text Form.Json (head_from (map view_field origin.now) k) (dropped_told name.now))) }
    ensures err { OnErr result (Stops (W.contents writer.old) buffer.old (W.contents writer.new)
        (line_text Form.Json (head_from (map view_field origin.now) k) (dropped_told name.now))) }
{
    let number = [datagram_field(k)];
    let head = LineHead {
        form: Form::Json,
        number: &number,
        origin,
        place: &[],
    };
    put_dropped_in(buffer, writer, &head, name)
}

/// Prints the object of a message that a segment of the k-th datagram made whole, with fields that say where it
/// came from.
pub fn put_whole_object<W: Write>(
    buffer: &mut Buffer,
    writer: &mut W,
    origin: &[Field<'_>],
    k: usize,
    message: &Message<'_>,
) -> Result<(), CannotWrite>
    ensures ok { OnOk result (Sends (W.contents writer.old) buffer.old (W.contents writer.new) buffer.new
        (line_text Form.Json (head_from (map view_field origin.now) k) (whole_told (view message.now)))) }
    ensures err { OnErr result (Stops (W.contents writer.old) buffer.old (W.contents writer.new)
        (line_text Form.Json (head_from (map view_field origin.now) k) (whole_told (view message.now)))) }
{
    let number = [datagram_field(k)];
    let head = LineHead {
        form: Form::Json,
        number: &number,
        origin,
        place: &[],
    };
    put_whole_in(buffer, writer, &head, message)
}

/// Prints the object of a value, of which the text of the fields is there already: none where that is empty.
pub fn put_value_object<W: Write>(
    buffer: &mut Buffer,
    writer: &mut W,
    origin: &[Field<'_>],
    k: usize,
    fields: &[u8],
) -> Result<(), CannotWrite>
    ensures ok { OnOk result (Sends (W.contents writer.old) buffer.old (W.contents writer.new) buffer.new
        (value_lines Form.Json (head_from (map view_field origin.now) k) fields.now)) }
    ensures err { OnErr result (Stops (W.contents writer.old) buffer.old (W.contents writer.new)
        (value_lines Form.Json (head_from (map view_field origin.now) k) fields.now)) }
{
    let number = [datagram_field(k)];
    let head = LineHead {
        form: Form::Json,
        number: &number,
        origin,
        place: &[],
    };
    put_value_line(buffer, writer, &head, fields)
}

/// Prints the lines of an item behind a head, as `put_item` does. `fields` is the text of the fields of the
/// line that tells a message's value, in the form of the head: empty where there is no such line. Says whether
/// a fault is among the lines, of which that is none.
pub fn put_told_item<W: Write>(
    buffer: &mut Buffer,
    writer: &mut W,
    head: &LineHead<'_>,
    shown: &FoundItem<'_>,
    fields: &[u8],
) -> Result<bool, CannotWrite>
    requires found { view_found shown.now.found ≡ discovery_in (view_item shown.now.item.now) }
    requires room { shown.now.place + item_len (view_item shown.now.item.now) ≤ usize.MAX }
    ensures ok { OnOk result (Sends (W.contents writer.old) buffer.old (W.contents writer.new) buffer.new
        (item_text head.now.form (view_head head.now) shown.now.place fields.now (view_item shown.now.item.now))) }
    ensures faulty { IfOk result (λ faulty. faulty ≡ is_faulty (view_item shown.now.item.now)) }
    ensures err { OnErr result (Stops (W.contents writer.old) buffer.old (W.contents writer.new)
        (item_text head.now.form (view_head head.now) shown.now.place fields.now (view_item shown.now.item.now))) }
{
    match shown.item {
        Ok(message) => {
            put_message_in(buffer, writer, head, message)?;
            put_value_line(buffer, writer, head, fields)?;
            put_behind_in(
                buffer,
                writer,
                head,
                shown.place + Header::LEN,
                message,
                shown.found,
            )
        }
        Err(fault) => {
            put_fault_in(buffer, writer, head, fault.name(), fault.place())?;
            Ok(true)
        }
    }
}

/// Prints the line of a value, of which the text of the fields is there already: none where that is empty.
fn put_value_line<W: Write>(
    buffer: &mut Buffer,
    writer: &mut W,
    head: &LineHead<'_>,
    fields: &[u8],
) -> Result<(), CannotWrite>
    ensures ok { OnOk result (Sends (W.contents writer.old) buffer.old (W.contents writer.new) buffer.new
        (value_lines head.now.form (view_head head.now) fields.now)) }
    ensures err { OnErr result (Stops (W.contents writer.old) buffer.old (W.contents writer.new)
        (value_lines head.now.form (view_head head.now) fields.now)) }
{
    if fields.is_empty() {
        return Ok(());
    }
    put_begin(buffer, writer, head, "value", Some("value"))?;
    buffer.put(writer, fields)?;
    put_end_of_line(buffer, writer, head.form)
}

/// Prints what stands behind the line of a message whose payload begins at a place of its datagram. Says
/// whether a fault is in it.
fn put_behind_in<W: Write>(
    buffer: &mut Buffer,
    writer: &mut W,
    head: &LineHead<'_>,
    place: usize,
    message: &Message<'_>,
    found: Option<&Result<SdRead, SdError>>,
) -> Result<bool, CannotWrite>
    requires { IfSome (view_found found) (λ r. IfErr r (λ e. place + sd_place e ≤ usize.MAX)) }
    ensures ok { OnOk result (Sends (W.contents writer.old) buffer.old (W.contents writer.new) buffer.new
        (lines_text head.now.form (view_head head.now) (segments_told place (view message.now))
        ++ lines_text head.now.form (view_head head.now) (discovery_told place (view_found found.entry)))) }
    ensures faulty { IfOk result (λ faulty. faulty
        ≡ ((has_tp_flag message.now.header.kind && has_no_tp_header message.now.payload.now)
        || has_sd_fault (view_found found.entry))) }
    ensures err { OnErr result (Stops (W.contents writer.old) buffer.old (W.contents writer.new)
        (lines_text head.now.form (view_head head.now) (segments_told place (view message.now))
        ++ lines_text head.now.form (view_head head.now) (discovery_told place (view_found found.entry)))) }
{
    let no_word = put_segment_in(buffer, writer, head, place, message)?;
    let faulty = put_discovery_in(buffer, writer, head, place, found)?;
    Ok(no_word | faulty)
}

fn put_discovery_in<W: Write>(
    buffer: &mut Buffer,
    writer: &mut W,
    head: &LineHead<'_>,
    place: usize,
    found: Option<&Result<SdRead, SdError>>,
) -> Result<bool, CannotWrite>
    requires { IfSome (view_found found) (λ r. IfErr r (λ e. place + sd_place e ≤ usize.MAX)) }
    ensures ok { OnOk result (Sends (W.contents writer.old) buffer.old (W.contents writer.new) buffer.new
        (lines_text head.now.form (view_head head.now) (discovery_told place (view_found found.entry)))) }
    ensures faulty { IfOk result (λ faulty. faulty ≡ has_sd_fault (view_found found.entry)) }
    ensures err { OnErr result (Stops (W.contents writer.old) buffer.old (W.contents writer.new)
        (lines_text head.now.form (view_head head.now) (discovery_told place (view_found found.entry)))) }
{
    match found {
        Some(reading) => put_reading_in(buffer, writer, head, place, reading),
        None => Ok(false),
    }
}
