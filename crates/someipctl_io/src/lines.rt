//! The lines of messages, segments and faults.
//!
//! `length N` is the Length field, for a segment too: it counts what follows the first eight bytes. `bytes
//! N` of a segment is its slice alone.
ghost use Rattle.std.specs.Prelude.{◌≡◌, ◌&&◌, ◌+◌, ◌∷◌, ◌++◌, [], OnOk, OnErr, IfOk, codes, decimal, length};
ghost use Rattle.std.specs.List.{flat_map};
ghost use Rattle.someip_wire.specs.Kinds.{has_tp_flag};
ghost use Rattle.someip_wire.specs.View.{view};
ghost use Rattle.someip_texts.specs.Words.{bytes_text, hex2, hex4};
ghost use Rattle.someipctl_io.specs.Sending.{Sends, Stops};
ghost use Rattle.someipctl_io.specs.Parts.{part_text};
ghost use Rattle.someipctl_io.specs.Lines.{ids_by, joined, line_behind, type_name};
ghost use Rattle.someipctl_io.specs.Lines.{dropped_line, message_line, fault_line, empty_line, flag_text, whole_line};
ghost use Rattle.someipctl_io.specs.Lines.{segment_lines, has_no_tp_header};

use crate::output::{Buffer, CannotWrite, write_hex};
use crate::parts::{Part, put_parts};
use someip_reassembly::read_segment;
use someip_wire::{Message, MessageType};
use std::io::Write;

/// Prints the line of the k-th datagram where that has no bytes.
pub fn put_empty<W: Write>(buffer: &mut Buffer, writer: &mut W, k: usize) -> Result<(), CannotWrite>
    ensures ok { OnOk result (Sends (W.contents writer.old) buffer.old
        (W.contents writer.new) buffer.new (empty_line k)) }
    ensures err { OnErr result (Stops (W.contents writer.old) buffer.old
        (W.contents writer.new) (empty_line k)) }
{
    put_parts(buffer, writer, &[Part::Number(k), Part::Text(" empty\n")])
}

/// Prints the line of a message of the k-th datagram.
pub(crate) fn put_message_line<W: Write>(
    buffer: &mut Buffer,
    writer: &mut W,
    k: usize,
    message: &Message<'_>,
) -> Result<(), CannotWrite>
    ensures ok { OnOk result (Sends (W.contents writer.old) buffer.old
        (W.contents writer.new) buffer.new (message_line k (view message.now))) }
    ensures err { OnErr result (Stops (W.contents writer.old) buffer.old
        (W.contents writer.new) (message_line k (view message.now))) }
{
    let ids = ids_text(message.header.service, message.header.method);
    put_behind_ids(buffer, writer, k, &ids, message)
}

/// Prints the line of a message, without the TP flag, that a segment in the k-th datagram made whole.
pub fn put_whole_line<W: Write>(
    buffer: &mut Buffer,
    writer: &mut W,
    k: usize,
    message: &Message<'_>,
) -> Result<(), CannotWrite>
    ensures ok { OnOk result (Sends (W.contents writer.old) buffer.old
        (W.contents writer.new) buffer.new (whole_line k (view message.now))) }
    ensures err { OnErr result (Stops (W.contents writer.old) buffer.old
        (W.contents writer.new) (whole_line k (view message.now))) }
{
    let ids = whole_ids_text(message.header.service, message.header.method);
    put_behind_ids(buffer, writer, k, &ids, message)
}

/// Prints the line of a segment in the k-th datagram that is not put together.
pub fn put_dropped<W: Write>(
    buffer: &mut Buffer,
    writer: &mut W,
    k: usize,
    name: &str,
) -> Result<(), CannotWrite>
    ensures ok { OnOk result (Sends (W.contents writer.old) buffer.old
        (W.contents writer.new) buffer.new (dropped_line k name.now)) }
    ensures err { OnErr result (Stops (W.contents writer.old) buffer.old
        (W.contents writer.new) (dropped_line k name.now)) }
{
    put_parts(
        buffer,
        writer,
        &[
            Part::Number(k),
            Part::Text(" dropped "),
            Part::Text(name),
            Part::Text("\n"),
        ],
    )
}

/// Prints a line that tells a message, of which what stands up to its length is there already.
fn put_behind_ids<W: Write>(
    buffer: &mut Buffer,
    writer: &mut W,
    k: usize,
    ids: &[u8],
    message: &Message<'_>,
) -> Result<(), CannotWrite>
    ensures ok { OnOk result (Sends (W.contents writer.old) buffer.old
        (W.contents writer.new) buffer.new (line_behind ids.now k (view message.now))) }
    ensures err { OnErr result (Stops (W.contents writer.old) buffer.old
        (W.contents writer.new) (line_behind ids.now k (view message.now))) }
{
    let header = message.header;
    let session = session_text(header.client, header.session);
    let interface = interface_text(header.interface);
    let code = code_text(header.code.0);
    let parts = message_parts(
        k,
        ids,
        &session,
        &interface,
        header.kind,
        &code,
        message.payload,
    );
    put_parts(buffer, writer, &parts)
}

/// The line of a message of the k-th datagram. What has the same length in each line is there already.
fn message_parts<'p>(
    k: usize,
    ids: &'p [u8],
    session: &'p [u8],
    interface: &'p [u8],
    kind: MessageType,
    code: &'p [u8],
    payload: &'p [u8],
) -> [Part<'p>; 9]
    ensures { flat_map part_text result ≡ joined (decimal k ∷ ids.now
        ∷ decimal (8 + length payload.now) ∷ session.now ∷ interface.now ∷ type_name kind
        ∷ code.now ∷ bytes_text payload.now ∷ codes "\n" ∷ []) }
{
    [
        Part::Number(k),
        Part::Raw(ids),
        Part::Number(8 + payload.len()),
        Part::Raw(session),
        Part::Raw(interface),
        Part::Text(name_of_type(kind)),
        Part::Raw(code),
        payload_part(payload),
        Part::Text("\n"),
    ]
}

/// What stands between the number of a message's datagram and its length.
fn ids_text(service: u16, method: u16) -> [u8; 26]
    ensures { result ≡ ids_by (codes " message ") service method }
{
    let mut text = *b" message 0000.0000 length ";
    write_hex(&service.to_be_bytes(), &mut text[9..13]);
    write_hex(&method.to_be_bytes(), &mut text[14..18]);
    text
}

/// The same of a whole message.
fn whole_ids_text(service: u16, method: u16) -> [u8; 24]
    ensures { result ≡ ids_by (codes " whole ") service method }
{
    let mut text = *b" whole 0000.0000 length ";
    write_hex(&service.to_be_bytes(), &mut text[7..11]);
    write_hex(&method.to_be_bytes(), &mut text[12..16]);
    text
}

/// What stands between the length of a message and its interface version.
fn session_text(client: u16, session: u16) -> [u8; 25]
    ensures { result ≡ codes " client " ++ hex4 client ++ codes " session " ++ hex4 session }
{
    let mut text = *b" client 0000 session 0000";
    write_hex(&client.to_be_bytes(), &mut text[8..12]);
    write_hex(&session.to_be_bytes(), &mut text[21..25]);
    text
}

/// What stands between the session of a message and the name of its type.
fn interface_text(interface: u8) -> [u8; 19]
    ensures { result ≡ codes " interface " ++ hex2 interface ++ codes " type " }
{
    let mut text = *b" interface 00 type ";
    write_hex(&[interface], &mut text[11..13]);
    text
}

/// What stands between the name of a message's type and its payload.
fn code_text(code: u8) -> [u8; 17]
    ensures { result ≡ codes " code " ++ hex2 code ++ codes " payload " }
{
    let mut text = *b" code 00 payload ";
    write_hex(&[code], &mut text[6..8]);
    text
}

/// Prints what stands after the line of a message whose payload begins at a place of the k-th
/// datagram: what the TP header of a segment says, or the fault that there is no room for it, or
/// nothing where the message is no segment. Says whether it was the fault.
pub(crate) fn put_segment<W: Write>(
    buffer: &mut Buffer,
    writer: &mut W,
    k: usize,
    place: usize,
    message: &Message<'_>,
) -> Result<bool, CannotWrite>
    ensures ok { OnOk result (Sends (W.contents writer.old) buffer.old
        (W.contents writer.new) buffer.new (segment_lines k place (view message.now))) }
    ensures faulty { IfOk result (λ faulty. faulty
        ≡ (has_tp_flag message.now.header.kind && has_no_tp_header message.now.payload.now)) }
    ensures err { OnErr result (Stops (W.contents writer.old) buffer.old
        (W.contents writer.new) (segment_lines k place (view message.now))) }
{
    if !message.header.kind.has_tp_flag() {
        return Ok(false);
    }
    let Ok((offset, more, slice)) = read_segment(message.payload) else {
        put_fault(buffer, writer, k, "NoHeader", place)?;
        return Ok(true);
    };
    put_parts(
        buffer,
        writer,
        &[
            Part::Number(k),
            Part::Text(" segment offset "),
            Part::Number(offset as usize),
            Part::Text(" more "),
            Part::Text(digit_of_flag(more)),
            Part::Text(" bytes "),
            Part::Number(slice.len()),
            Part::Text("\n"),
        ],
    )?;
    Ok(false)
}

/// Prints the line of a fault: its name, and its place in the k-th datagram.
pub(crate) fn put_fault<W: Write>(
    buffer: &mut Buffer,
    writer: &mut W,
    k: usize,
    name: &str,
    place: usize,
) -> Result<(), CannotWrite>
    ensures ok { OnOk result (Sends (W.contents writer.old) buffer.old
        (W.contents writer.new) buffer.new (fault_line k name.now place)) }
    ensures err { OnErr result (Stops (W.contents writer.old) buffer.old
        (W.contents writer.new) (fault_line k name.now place)) }
{
    put_parts(
        buffer,
        writer,
        &[
            Part::Number(k),
            Part::Text(" fault "),
            Part::Text(name),
            Part::Text(" at "),
            Part::Number(place),
            Part::Text("\n"),
        ],
    )
}

/// The payload in hex, or `-` where it is empty.
pub(crate) fn payload_part(payload: &[u8]) -> Part<'_>
    ensures { part_text result ≡ bytes_text payload.now }
{
    if payload.is_empty() {
        Part::Text("-")
    } else {
        Part::Hex(payload)
    }
}

/// A flag as a digit.
pub(crate) fn digit_of_flag(flag: bool) -> &'static str
    ensures { result.now ≡ flag_text flag }
{
    if flag { "1" } else { "0" }
}

pub(crate) fn name_of_type(kind: MessageType) -> &'static str
    ensures { result.now ≡ type_name kind }
{
    match kind {
        MessageType::Request => "REQUEST",
        MessageType::RequestNoReturn => "REQUEST_NO_RETURN",
        MessageType::Notification => "NOTIFICATION",
        MessageType::Response => "RESPONSE",
        MessageType::Error => "ERROR",
        MessageType::TpRequest => "TP_REQUEST",
        MessageType::TpRequestNoReturn => "TP_REQUEST_NO_RETURN",
        MessageType::TpNotification => "TP_NOTIFICATION",
        MessageType::TpResponse => "TP_RESPONSE",
        MessageType::TpError => "TP_ERROR",
    }
}
