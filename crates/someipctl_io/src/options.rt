//! The runs of options of an entry's line.
ghost use Rattle.std.specs.Prelude.{◌≡◌, ◌<◌, ◌++◌, OnOk, OnErr, codes};
ghost use Rattle.std.specs.List.{flat_map};
ghost use Rattle.someipctl_io.specs.Sending.{Sends, Stops};
ghost use Rattle.someipctl_io.specs.Parts.{part_text};
ghost use Rattle.someipctl_io.specs.Options.{protocol_text, ipv4_text, ipv6_text, option_text, run_text};
ghost use Rattle.someipctl_io.specs.Options.{load_text, raw_text, ipv6_octets_text, runs_text};

use crate::output::{Buffer, CannotWrite};
use crate::parts::{Part, put_parts};
use sd_wire::{Ipv4Endpoint, Ipv6Endpoint, Protocol, RawOption, SdOption};
use std::io::Write;

/// Prints the end of an entry's line: its two runs of options.
pub(crate) fn put_runs<W: Write>(
    buffer: &mut Buffer,
    writer: &mut W,
    run1: &[SdOption],
    run2: &[SdOption],
) -> Result<(), CannotWrite>
    ensures ok { OnOk result (Sends (W.contents writer.old) buffer.old
        (W.contents writer.new) buffer.new (runs_text run1.now run2.now)) }
    ensures err { OnErr result (Stops (W.contents writer.old) buffer.old
        (W.contents writer.new) (runs_text run1.now run2.now)) }
{
    put_run(buffer, writer, " run1 [", run1)?;
    put_last_run(buffer, writer, run2)
}

fn put_last_run<W: Write>(
    buffer: &mut Buffer,
    writer: &mut W,
    run: &[SdOption],
) -> Result<(), CannotWrite>
    ensures ok { OnOk result (Sends (W.contents writer.old) buffer.old
        (W.contents writer.new) buffer.new
        ((codes "] run2 [" ++ run_text run.now) ++ codes "]\n")) }
    ensures err { OnErr result (Stops (W.contents writer.old) buffer.old
        (W.contents writer.new) ((codes "] run2 [" ++ run_text run.now) ++ codes "]\n")) }
{
    put_run(buffer, writer, "] run2 [", run)?;
    put_parts(buffer, writer, &[Part::Text("]\n")])
}

/// Prints a run of options after a text.
pub(crate) fn put_run<W: Write>(
    buffer: &mut Buffer,
    writer: &mut W,
    before: &str,
    run: &[SdOption],
) -> Result<(), CannotWrite>
    ensures ok { OnOk result (Sends (W.contents writer.old) buffer.old
        (W.contents writer.new) buffer.new (before.now ++ run_text run.now)) }
    ensures err { OnErr result (Stops (W.contents writer.old) buffer.old
        (W.contents writer.new) (before.now ++ run_text run.now)) }
{
    put_text(buffer, writer, before)?;
    put_options(buffer, writer, run)
}

fn put_options<W: Write>(
    buffer: &mut Buffer,
    writer: &mut W,
    run: &[SdOption],
) -> Result<(), CannotWrite>
    ensures ok { OnOk result (Sends (W.contents writer.old) buffer.old
        (W.contents writer.new) buffer.new (run_text run.now)) }
    ensures err { OnErr result (Stops (W.contents writer.old) buffer.old
        (W.contents writer.new) (run_text run.now)) }
{
    let [first, others @ ..] = run else {
        return Ok(());
    };
    put_option(buffer, writer, first)?;
    put_others(buffer, writer, others)
}

fn put_others<W: Write>(
    buffer: &mut Buffer,
    writer: &mut W,
    others: &[SdOption],
) -> Result<(), CannotWrite>
    ensures ok { OnOk result (Sends (W.contents writer.old) buffer.old
        (W.contents writer.new) buffer.new
        (flat_map (λ other. codes ", " ++ option_text other) others.now)) }
    ensures err { OnErr result (Stops (W.contents writer.old) buffer.old
        (W.contents writer.new) (flat_map (λ other. codes ", " ++ option_text other) others.now)) }
{
    for other in others {
        put_other(buffer, writer, other)?;
    }
    Ok(())
}

fn put_other<W: Write>(
    buffer: &mut Buffer,
    writer: &mut W,
    other: &SdOption,
) -> Result<(), CannotWrite>
    ensures ok { OnOk result (Sends (W.contents writer.old) buffer.old
        (W.contents writer.new) buffer.new (codes ", " ++ option_text other.now)) }
    ensures err { OnErr result (Stops (W.contents writer.old) buffer.old
        (W.contents writer.new) (codes ", " ++ option_text other.now)) }
{
    put_parts(buffer, writer, &[Part::Text(", ")])?;
    put_option(buffer, writer, other)
}

fn put_option<W: Write>(
    buffer: &mut Buffer,
    writer: &mut W,
    option: &SdOption,
) -> Result<(), CannotWrite>
    ensures ok { OnOk result (Sends (W.contents writer.old) buffer.old
        (W.contents writer.new) buffer.new (option_text option.now)) }
    ensures err { OnErr result (Stops (W.contents writer.old) buffer.old
        (W.contents writer.new) (option_text option.now)) }
{
    match option {
        SdOption::LoadBalancing { priority, weight } => {
            put_parts(buffer, writer, &load_parts(*priority, *weight))
        }
        SdOption::Endpoint4(endpoint) => put_parts(
            buffer,
            writer,
            &ipv4_parts("endpoint4 ", endpoint),
        ),
        SdOption::Multicast4(endpoint) => put_parts(
            buffer,
            writer,
            &ipv4_parts("multicast4 ", endpoint),
        ),
        SdOption::SdEndpoint4(endpoint) => put_parts(
            buffer,
            writer,
            &ipv4_parts("sdendpoint4 ", endpoint),
        ),
        SdOption::Endpoint6(endpoint) => put_ipv6(buffer, writer, "endpoint6 ", endpoint),
        SdOption::Multicast6(endpoint) => put_ipv6(buffer, writer, "multicast6 ", endpoint),
        SdOption::SdEndpoint6(endpoint) => put_ipv6(buffer, writer, "sdendpoint6 ", endpoint),
        SdOption::Raw(raw) => put_parts(buffer, writer, &raw_parts(raw)),
    }
}

/// A load balancing option.
fn load_parts(priority: u16, weight: u16) -> [Part<'static>; 4]
    ensures { flat_map part_text result ≡ load_text priority weight }
{
    [
        Part::Text("load "),
        Part::Number(priority as usize),
        Part::Text(" "),
        Part::Number(weight as usize),
    ]
}

/// An option that is kept as it was read.
fn raw_parts(raw: &RawOption) -> [Part<'_>; 4]
    ensures { flat_map part_text result ≡ raw_text raw.now.kind raw.now.bytes }
{
    [
        Part::Text("unknown "),
        Part::Byte(raw.kind()),
        Part::Text(" "),
        Part::Hex(raw.bytes()),
    ]
}

/// A name, and an IPv4 endpoint with its protocol.
fn ipv4_parts<'n>(name: &'n str, endpoint: &Ipv4Endpoint) -> [Part<'n>; 13]
    ensures { flat_map part_text result ≡ name.now ++ ipv4_text endpoint.now }
{
    let octets = endpoint.socket.ip().octets();
    let (protocol, number) = protocol_parts(endpoint.protocol);
    [
        Part::Text(name),
        Part::Number(octets[0] as usize),
        Part::Text("."),
        Part::Number(octets[1] as usize),
        Part::Text("."),
        Part::Number(octets[2] as usize),
        Part::Text("."),
        Part::Number(octets[3] as usize),
        Part::Text(":"),
        Part::Number(endpoint.socket.port() as usize),
        Part::Text(" "),
        protocol,
        number,
    ]
}

fn put_ipv6<W: Write>(
    buffer: &mut Buffer,
    writer: &mut W,
    name: &str,
    endpoint: &Ipv6Endpoint,
) -> Result<(), CannotWrite>
    ensures ok { OnOk result (Sends (W.contents writer.old) buffer.old
        (W.contents writer.new) buffer.new (name.now ++ ipv6_text endpoint.now)) }
    ensures err { OnErr result (Stops (W.contents writer.old) buffer.old
        (W.contents writer.new) (name.now ++ ipv6_text endpoint.now)) }
{
    let octets = endpoint.address.octets();
    put_parts(
        buffer,
        writer,
        &ipv6_parts(name, &octets, endpoint.port, endpoint.protocol),
    )
}

/// A name, and the octets and the port of an IPv6 endpoint with its protocol.
fn ipv6_parts<'o>(name: &'o str, octets: &'o [u8], port: u16, protocol: Protocol) -> [Part<'o>; 7]
    ensures { flat_map part_text result ≡ name.now ++ ipv6_octets_text octets.now port protocol.0 }
{
    let (protocol, number) = protocol_parts(protocol);
    [
        Part::Text(name),
        Part::Hex(octets),
        Part::Text(":"),
        Part::Number(port as usize),
        Part::Text(" "),
        protocol,
        number,
    ]
}

fn put_text<W: Write>(buffer: &mut Buffer, writer: &mut W, text: &str) -> Result<(), CannotWrite>
    ensures ok { OnOk result (Sends (W.contents writer.old) buffer.old
        (W.contents writer.new) buffer.new text.now) }
    ensures err { OnErr result (Stops (W.contents writer.old) buffer.old
        (W.contents writer.new) text.now) }
{
    buffer.put(writer, text.as_bytes())
}

/// A protocol's name, and its number where it has no name of its own.
pub(crate) fn protocol_parts(protocol: Protocol) -> (Part<'static>, Part<'static>)
    ensures text { part_text result.0 ++ part_text result.1 ≡ protocol_text protocol.0 }
    ensures byte { protocol.0 < 256 }
{
    if protocol == Protocol::TCP {
        (Part::Text("tcp"), Part::Text(""))
    } else if protocol == Protocol::UDP {
        (Part::Text("udp"), Part::Text(""))
    } else {
        (Part::Text("proto"), Part::Byte(protocol.0))
    }
}
