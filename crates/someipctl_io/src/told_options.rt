//! The runs of options of an entry's line in the form that is asked for.
ghost use Rattle.std.specs.Prelude.{◌≡◌, ◌++◌, OnOk, OnErr, codes};
ghost use Rattle.std.specs.List.{flat_map};
ghost use Rattle.std.specs.Net.Addr.{ipv4_octets, ipv6_octets};
ghost use Rattle.std.specs.Net.Socket.{v4_ip, v4_port};
ghost use Rattle.std.specs.Net.Text.{ipv4_text};
ghost use Rattle.hex.specs.Hex.{encode_lower};
ghost use Rattle.someipctl_io.specs.Parts.{part_text};
ghost use Rattle.someipctl_io.specs.Sending.{Sends, Stops};
ghost use Rattle.someipctl_io.specs.JsonTexts.{items_text, json_text, key_text, other_items_text};
ghost use Rattle.someipctl_io.specs.OptionObjects.{endpoint_end, load_members, named_option, option_items, option_json, raw_members};
ghost use Rattle.someipctl_io.specs.Options.{run_text};
ghost use Rattle.someipctl_io.specs.ToldLines.{field, field_text, fields_text, options};
ghost use Rattle.someipctl_io.specs.ToldItems.{runs_fields};

use crate::form::Form;
use crate::objects::put_key;
use crate::options::{protocol_parts, put_run};
use crate::output::{Buffer, CannotWrite};
use crate::parts::{Part, put_parts};
use sd_wire::{Ipv4Endpoint, Ipv6Endpoint, Protocol, SdOption};
use std::io::Write;

/// Prints the two runs of options of an entry.
pub(crate) fn put_runs_in<W: Write>(
    buffer: &mut Buffer,
    writer: &mut W,
    form: Form,
    run1: &[SdOption],
    run2: &[SdOption],
) -> Result<(), CannotWrite>
    ensures ok { OnOk result (Sends (W.contents writer.old) buffer.old (W.contents writer.new) buffer.new
        (fields_text form (runs_fields run1.now run2.now))) }
    ensures err { OnErr result (Stops (W.contents writer.old) buffer.old (W.contents writer.new)
        (fields_text form (runs_fields run1.now run2.now))) }
{
    put_run_in(buffer, writer, form, " run1 ", "run1", run1)?;
    put_run_in(buffer, writer, form, " run2 ", "run2", run2)
}

fn put_run_in<W: Write>(
    buffer: &mut Buffer,
    writer: &mut W,
    form: Form,
    lead: &str,
    key: &str,
    run: &[SdOption],
) -> Result<(), CannotWrite>
    ensures ok { OnOk result (Sends (W.contents writer.old) buffer.old (W.contents writer.new) buffer.new
        (field_text form (field lead.now key.now (options run.now)))) }
    ensures err { OnErr result (Stops (W.contents writer.old) buffer.old (W.contents writer.new)
        (field_text form (field lead.now key.now (options run.now)))) }
{
    match form {
        Form::Plain => put_plain_run(buffer, writer, lead, run),
        Form::Json => put_run_of_objects(buffer, writer, key, run),
    }
}

fn put_plain_run<W: Write>(
    buffer: &mut Buffer,
    writer: &mut W,
    lead: &str,
    run: &[SdOption],
) -> Result<(), CannotWrite>
    ensures ok { OnOk result (Sends (W.contents writer.old) buffer.old (W.contents writer.new) buffer.new
        (lead.now ++ ((codes "[" ++ run_text run.now) ++ codes "]"))) }
    ensures err { OnErr result (Stops (W.contents writer.old) buffer.old (W.contents writer.new)
        (lead.now ++ ((codes "[" ++ run_text run.now) ++ codes "]"))) }
{
    buffer.put(writer, lead.as_bytes())?;
    put_run(buffer, writer, "[", run)?;
    buffer.put(writer, b"]")
}

/// Prints a run as a member of an object: an array.
fn put_run_of_objects<W: Write>(
    buffer: &mut Buffer,
    writer: &mut W,
    key: &str,
    run: &[SdOption],
) -> Result<(), CannotWrite>
    ensures ok { OnOk result (Sends (W.contents writer.old) buffer.old (W.contents writer.new) buffer.new
        ((codes "," ++ key_text key.now) ++ (codes "[" ++ (items_text (option_items run.now) ++ codes "]")))) }
    ensures err { OnErr result (Stops (W.contents writer.old) buffer.old (W.contents writer.new)
        ((codes "," ++ key_text key.now) ++ (codes "[" ++ (items_text (option_items run.now) ++ codes "]")))) }
{
    put_key(buffer, writer, key)?;
    buffer.put(writer, b"[")?;
    put_objects(buffer, writer, run)?;
    buffer.put(writer, b"]")
}

/// Prints options as objects with commas between them.
fn put_objects<W: Write>(
    buffer: &mut Buffer,
    writer: &mut W,
    run: &[SdOption],
) -> Result<(), CannotWrite>
    ensures ok { OnOk result (Sends (W.contents writer.old) buffer.old
        (W.contents writer.new) buffer.new (items_text (option_items run.now))) }
    ensures err { OnErr result (Stops (W.contents writer.old) buffer.old
        (W.contents writer.new) (items_text (option_items run.now))) }
{
    let [first, others @ ..] = run else {
        return Ok(());
    };
    put_object(buffer, writer, first)?;
    put_other_objects(buffer, writer, others)
}

fn put_other_objects<W: Write>(
    buffer: &mut Buffer,
    writer: &mut W,
    others: &[SdOption],
) -> Result<(), CannotWrite>
    ensures ok { OnOk result (Sends (W.contents writer.old) buffer.old
        (W.contents writer.new) buffer.new (other_items_text (option_items others.now))) }
    ensures err { OnErr result (Stops (W.contents writer.old) buffer.old
        (W.contents writer.new) (other_items_text (option_items others.now))) }
{
    for other in others {
        put_other_object(buffer, writer, other)?;
    }
    Ok(())
}

fn put_other_object<W: Write>(
    buffer: &mut Buffer,
    writer: &mut W,
    other: &SdOption,
) -> Result<(), CannotWrite>
    ensures ok { OnOk result (Sends (W.contents writer.old) buffer.old
        (W.contents writer.new) buffer.new (codes "," ++ json_text (option_json other.now))) }
    ensures err { OnErr result (Stops (W.contents writer.old) buffer.old
        (W.contents writer.new) (codes "," ++ json_text (option_json other.now))) }
{
    buffer.put(writer, b",")?;
    put_object(buffer, writer, other)
}

/// Prints an option as an object.
fn put_object<W: Write>(
    buffer: &mut Buffer,
    writer: &mut W,
    option: &SdOption,
) -> Result<(), CannotWrite>
    ensures ok { OnOk result (Sends (W.contents writer.old) buffer.old
        (W.contents writer.new) buffer.new (json_text (option_json option.now))) }
    ensures err { OnErr result (Stops (W.contents writer.old) buffer.old
        (W.contents writer.new) (json_text (option_json option.now))) }
{
    match option {
        SdOption::LoadBalancing { priority, weight } => {
            put_parts(buffer, writer, &load_object(*priority, *weight))
        }
        SdOption::Endpoint4(endpoint) => put_parts(
            buffer,
            writer,
            &ipv4_object("{\"option\":\"endpoint4\",\"address\":\"", endpoint),
        ),
        SdOption::Multicast4(endpoint) => put_parts(
            buffer,
            writer,
            &ipv4_object("{\"option\":\"multicast4\",\"address\":\"", endpoint),
        ),
        SdOption::SdEndpoint4(endpoint) => put_parts(
            buffer,
            writer,
            &ipv4_object("{\"option\":\"sdendpoint4\",\"address\":\"", endpoint),
        ),
        SdOption::Endpoint6(endpoint) => {
            put_ipv6_object(
                buffer,
                writer,
                "{\"option\":\"endpoint6\",\"address\":\"",
                endpoint,
            )
        }
        SdOption::Multicast6(endpoint) => {
            put_ipv6_object(
                buffer,
                writer,
                "{\"option\":\"multicast6\",\"address\":\"",
                endpoint,
            )
        }
        SdOption::SdEndpoint6(endpoint) => {
            put_ipv6_object(
                buffer,
                writer,
                "{\"option\":\"sdendpoint6\",\"address\":\"",
                endpoint,
            )
        }
        SdOption::Raw(raw) => put_parts(buffer, writer, &raw_object(raw.kind(), raw.bytes())),
    }
}

/// A load balancing option.
fn load_object(priority: u16, weight: u16) -> [Part<'static>; 5]
    ensures { flat_map part_text result ≡ json_text (named_option (codes "load") (load_members priority weight)) }
{
    [
        Part::Text("{\"option\":\"load\",\"priority\":"),
        Part::Number(priority as usize),
        Part::Text(",\"weight\":"),
        Part::Number(weight as usize),
        Part::Text("}"),
    ]
}

/// An option that is kept as it was read.
fn raw_object(kind: u8, bytes: &[u8]) -> [Part<'_>; 5]
    ensures { flat_map part_text result ≡ json_text (named_option (codes "unknown") (raw_members kind bytes.now)) }
{
    [
        Part::Text("{\"option\":\"unknown\",\"type\":\""),
        Part::Byte(kind),
        Part::Text("\",\"bytes\":\""),
        Part::Hex(bytes),
        Part::Text("\"}"),
    ]
}

/// An option with an IPv4 endpoint, of which what stands before the address is there already.
fn ipv4_object(begin: &'static str, endpoint: &Ipv4Endpoint) -> [Part<'static>; 14]
    ensures { flat_map part_text result ≡ begin.now ++ endpoint_end
        (ipv4_text (ipv4_octets (v4_ip endpoint.now.socket))) (v4_port endpoint.now.socket) endpoint.now.protocol.0 }
{
    let octets = endpoint.socket.ip().octets();
    let (protocol, number) = protocol_parts(endpoint.protocol);
    [
        Part::Text(begin),
        Part::Number(octets[0] as usize),
        Part::Text("."),
        Part::Number(octets[1] as usize),
        Part::Text("."),
        Part::Number(octets[2] as usize),
        Part::Text("."),
        Part::Number(octets[3] as usize),
        Part::Text("\",\"port\":"),
        Part::Number(endpoint.socket.port() as usize),
        Part::Text(",\"protocol\":\""),
        protocol,
        number,
        Part::Text("\"}"),
    ]
}

fn put_ipv6_object<W: Write>(
    buffer: &mut Buffer,
    writer: &mut W,
    begin: &str,
    endpoint: &Ipv6Endpoint,
) -> Result<(), CannotWrite>
    ensures ok { OnOk result (Sends (W.contents writer.old) buffer.old (W.contents writer.new) buffer.new
        (begin.now ++ endpoint_end (encode_lower (ipv6_octets endpoint.now.address))
        endpoint.now.port endpoint.now.protocol.0)) }
    ensures err { OnErr result (Stops (W.contents writer.old) buffer.old (W.contents writer.new)
        (begin.now ++ endpoint_end (encode_lower (ipv6_octets endpoint.now.address))
        endpoint.now.port endpoint.now.protocol.0)) }
{
    let octets = endpoint.address.octets();
    put_parts(
        buffer,
        writer,
        &ipv6_object(begin, &octets, endpoint.port, endpoint.protocol),
    )
}

/// An option with the octets and the port of an IPv6 endpoint, of which what stands before the address is
/// there already.
fn ipv6_object<'o>(begin: &'o str, octets: &'o [u8], port: u16, protocol: Protocol) -> [Part<'o>; 8]
    ensures { flat_map part_text result ≡ begin.now ++ endpoint_end (encode_lower octets.now) port protocol.0 }
{
    let (protocol, number) = protocol_parts(protocol);
    [
        Part::Text(begin),
        Part::Hex(octets),
        Part::Text("\",\"port\":"),
        Part::Number(port as usize),
        Part::Text(",\"protocol\":\""),
        protocol,
        number,
        Part::Text("\"}"),
    ]
}
