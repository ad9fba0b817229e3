//! The objects of messages. What has the same length in each object is put at once, as in plain lines.
ghost use Rattle.std.specs.Prelude.{◌≡◌, ◌+◌, ◌++◌, OnOk, OnErr, codes, decimal, length};
ghost use Rattle.std.specs.List.{flat_map};
ghost use Rattle.hex.specs.Hex.{encode_lower};
ghost use Rattle.json.specs.Print.{escape};
ghost use Rattle.someip_wire.specs.View.{view};
ghost use Rattle.someipctl_io.specs.Lines.{type_name};
ghost use Rattle.someipctl_io.specs.Parts.{part_text};
ghost use Rattle.someipctl_io.specs.Sending.{Sends, Stops};
ghost use Rattle.someipctl_io.specs.MessageObjects.{code_members, ids_members, interface_members, session_members};
ghost use Rattle.someipctl_io.specs.ToldLines.{end_text, fields_text, line_text};
ghost use Rattle.someipctl_io.specs.ToldViews.{view_head};
ghost use Rattle.someipctl_io.specs.ToldItems.{message_fields, told};

use crate::form::Form;
use crate::lines::name_of_type;
use crate::objects::put_begin_of_object;
use crate::output::{Buffer, CannotWrite, write_hex};
use crate::parts::{Part, put_parts};
use crate::told::LineHead;
use someip_wire::{Message, MessageType};
use std::io::Write;

/// Prints the object of a message.
pub(crate) fn put_message_object<W: Write>(
    buffer: &mut Buffer,
    writer: &mut W,
    head: &LineHead<'_>,
    kind: &str,
    message: &Message<'_>,
) -> Result<(), CannotWrite>
    ensures ok { OnOk result (Sends (W.contents writer.old) buffer.old (W.contents writer.new) buffer.new
        (line_text Form.Json (view_head head.now) (told kind.now (message_fields (view message.now))))) }
    ensures err { OnErr result (Stops (W.contents writer.old) buffer.old (W.contents writer.new)
        (line_text Form.Json (view_head head.now) (told kind.now (message_fields (view message.now))))) }
{
    put_begin_of_object(buffer, writer, head, kind)?;
    put_members(buffer, writer, message)
}

/// Prints what a message says, as members behind others, and the end of its object.
fn put_members<W: Write>(
    buffer: &mut Buffer,
    writer: &mut W,
    message: &Message<'_>,
) -> Result<(), CannotWrite>
    ensures ok { OnOk result (Sends (W.contents writer.old) buffer.old (W.contents writer.new) buffer.new
        (fields_text Form.Json (message_fields (view message.now)) ++ end_text Form.Json)) }
    ensures err { OnErr result (Stops (W.contents writer.old) buffer.old (W.contents writer.new)
        (fields_text Form.Json (message_fields (view message.now)) ++ end_text Form.Json)) }
{
    let header = message.header;
    let ids = ids_members(header.service, header.method);
    let session = session_members(header.client, header.session);
    let interface = interface_members(header.interface);
    let code = code_members(header.code.0);
    let parts = member_parts(
        &ids,
        &session,
        &interface,
        header.kind,
        &code,
        message.payload,
    );
    put_parts(buffer, writer, &parts)
}

/// What a message says, of which what has the same length in each object is there already.
fn member_parts<'p>(
    ids: &'p [u8],
    session: &'p [u8],
    interface: &'p [u8],
    kind: MessageType,
    code: &'p [u8],
    payload: &'p [u8],
) -> [Part<'p>; 8]
    ensures { flat_map part_text result ≡ ids.now ++ (decimal (8 + length payload.now)
        ++ (session.now ++ (interface.now ++ (escape (type_name kind)
        ++ (code.now ++ (escape (encode_lower payload.now) ++ codes "\"}\n")))))) }
{
    [
        Part::Raw(ids),
        Part::Number(8 + payload.len()),
        Part::Raw(session),
        Part::Raw(interface),
        Part::Text(name_of_type(kind)),
        Part::Raw(code),
        Part::Hex(payload),
        Part::Text("\"}\n"),
    ]
}

/// The members of a message up to its length.
fn ids_members(service: u16, method: u16) -> [u8; 43]
    ensures { result ≡ ids_members service method }
{
    let mut text = *b",\"service\":\"0000\",\"method\":\"0000\",\"length\":";
    write_hex(&service.to_be_bytes(), &mut text[12..16]);
    write_hex(&method.to_be_bytes(), &mut text[28..32]);
    text
}

/// The members of a message between its length and its interface version.
fn session_members(client: u16, session: u16) -> [u8; 33]
    ensures { result ≡ session_members client session }
{
    let mut text = *b",\"client\":\"0000\",\"session\":\"0000\"";
    write_hex(&client.to_be_bytes(), &mut text[11..15]);
    write_hex(&session.to_be_bytes(), &mut text[28..32]);
    text
}

/// What stands between the session of a message and the name of its type.
fn interface_members(interface: u8) -> [u8; 26]
    ensures { result ≡ interface_members interface }
{
    let mut text = *b",\"interface\":\"00\",\"type\":\"";
    write_hex(&[interface], &mut text[14..16]);
    text
}

/// What stands between the name of a message's type and its payload.
fn code_members(code: u8) -> [u8; 25]
    ensures { result ≡ code_members code }
{
    let mut text = *b"\",\"code\":\"00\",\"payload\":\"";
    write_hex(&[code], &mut text[10..12]);
    text
}
