//! The lines of what a datagram holds, item by item: a message with what stands after its line, or the
//! fault that ends the datagram.
ghost use Rattle.std.specs.Prelude.{◌≡◌, ◌≤◌, ◌+◌, ◌&&◌, ◌||◌, ◌++◌, OnOk, OnErr, IfOk, IfErr, IfSome};
ghost use Rattle.someip_wire.specs.Kinds.{has_tp_flag};
ghost use Rattle.someip_wire.specs.View.{view, view_item};
ghost use Rattle.sd_wire.specs.decoding.Faults.{fault_place as sd_place};
ghost use Rattle.someipctl_io.specs.Sending.{Sends, Stops};
ghost use Rattle.someipctl_io.specs.Lines.{segment_lines, has_no_tp_header};
ghost use Rattle.someipctl_io.specs.Discovery.{view_found, discovery_in, discovery_lines, has_sd_fault};
ghost use Rattle.someipctl_io.specs.Items.{item_lines, item_len, is_faulty};

use crate::discovery::put_reading;
use crate::lines::{put_fault, put_message_line, put_segment};
use crate::output::{Buffer, CannotWrite};
use sd_wire::{SdError, SdRead};
use someip_wire::{Header, Message, WireError, written_len};
use std::io::Write;

/// An item of a datagram, with what was read of it.
#[derive(Clone, Copy)]
pub struct FoundItem<'i> {
    /// The number of the datagram.
    pub k: usize,
    /// Where the item begins in it.
    pub place: usize,
    /// The item.
    pub item: &'i Result<Message<'i>, WireError>,
    /// What its payload says, where it is a message of Service Discovery.
    pub found: Option<&'i Result<SdRead, SdError>>,
}

/// Prints the lines of an item: a message, and after it what is told of its value, what its TP header
/// says where it is a segment, or what its payload says where it is one of Service Discovery; or the
/// fault that ends the datagram. Says whether a fault is among them, of which `value` is none.
pub fn put_item<W: Write>(
    buffer: &mut Buffer,
    writer: &mut W,
    shown: &FoundItem<'_>,
    value: &[u8],
) -> Result<bool, CannotWrite>
    requires found { view_found shown.now.found ≡ discovery_in (view_item shown.now.item.now) }
    requires room { shown.now.place + item_len (view_item shown.now.item.now) ≤ usize.MAX }
    ensures ok { OnOk result (Sends (W.contents writer.old) buffer.old (W.contents writer.new) buffer.new
        (item_lines shown.now.k shown.now.place value.now (view_item shown.now.item.now))) }
    ensures faulty { IfOk result (λ faulty. faulty ≡ is_faulty (view_item shown.now.item.now)) }
    ensures err { OnErr result (Stops (W.contents writer.old) buffer.old (W.contents writer.new)
        (item_lines shown.now.k shown.now.place value.now (view_item shown.now.item.now))) }
{
    match shown.item {
        Ok(message) => {
            put_message_line(buffer, writer, shown.k, message)?;
            buffer.put(writer, value)?;
            put_behind(
                buffer,
                writer,
                shown.k,
                shown.place + Header::LEN,
                message,
                shown.found,
            )
        }
        Err(fault) => {
            put_fault(buffer, writer, shown.k, fault.name(), fault.place())?;
            Ok(true)
        }
    }
}

/// Prints what stands after the line of a message whose payload begins at a place of the k-th
/// datagram. Says whether a fault is in it.
fn put_behind<W: Write>(
    buffer: &mut Buffer,
    writer: &mut W,
    k: usize,
    place: usize,
    message: &Message<'_>,
    found: Option<&Result<SdRead, SdError>>,
) -> Result<bool, CannotWrite>
    requires { IfSome (view_found found) (λ r. IfErr r (λ e. place + sd_place e ≤ usize.MAX)) }
    ensures ok { OnOk result (Sends (W.contents writer.old) buffer.old
        (W.contents writer.new) buffer.new (segment_lines k place (view message.now)
        ++ discovery_lines k place (view_found found.entry))) }
    ensures faulty { IfOk result (λ faulty. faulty
        ≡ ((has_tp_flag message.now.header.kind && has_no_tp_header message.now.payload.now)
        || has_sd_fault (view_found found.entry))) }
    ensures err { OnErr result (Stops (W.contents writer.old) buffer.old
        (W.contents writer.new) (segment_lines k place (view message.now)
        ++ discovery_lines k place (view_found found.entry))) }
{
    let no_word = put_segment(buffer, writer, k, place, message)?;
    let faulty = put_discovery(buffer, writer, k, place, found)?;
    Ok(no_word | faulty)
}

fn put_discovery<W: Write>(
    buffer: &mut Buffer,
    writer: &mut W,
    k: usize,
    place: usize,
    found: Option<&Result<SdRead, SdError>>,
) -> Result<bool, CannotWrite>
    requires { IfSome (view_found found) (λ r. IfErr r (λ e. place + sd_place e ≤ usize.MAX)) }
    ensures ok { OnOk result (Sends (W.contents writer.old) buffer.old
        (W.contents writer.new) buffer.new (discovery_lines k place (view_found found.entry))) }
    ensures faulty { IfOk result (λ faulty. faulty ≡ has_sd_fault (view_found found.entry)) }
    ensures err { OnErr result (Stops (W.contents writer.old) buffer.old
        (W.contents writer.new) (discovery_lines k place (view_found found.entry))) }
{
    match found {
        Some(reading) => put_reading(buffer, writer, k, place, reading),
        None => Ok(false),
    }
}

/// How many bytes of its datagram an item takes. Nothing comes after a fault.
pub fn item_len(item: &Result<Message<'_>, WireError>) -> usize
    ensures { result ≡ item_len (view_item item.now) }
{
    match item {
        Ok(message) => written_len(message),
        Err(_) => 0,
    }
}
