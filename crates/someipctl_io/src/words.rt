//! The words of a line, with a space before each.
ghost use Rattle.std.specs.Prelude.{◌≡◌, ◌++◌, OnOk, OnErr, codes, map};
ghost use Rattle.std.specs.List.{flat_map};
ghost use Rattle.std.specs.Net.Addr.{ipv4_octets};
ghost use Rattle.std.specs.Net.Text.{ipv4_text, socket_v4_text};
ghost use Rattle.someip_texts.specs.Words.{ids_text, spaced, word_text};
ghost use Rattle.someipctl_io.specs.Sending.{Sends, Stops};
ghost use Rattle.someipctl_io.specs.Parts.{part_text};
ghost use Rattle.someipctl_io.specs.Words.{ended};

use crate::lines::payload_part;
use crate::output::{Buffer, CannotWrite};
use crate::parts::{Part, put_parts};
use someip_texts::Word;
use std::io::Write;
use std::net::{Ipv4Addr, SocketAddrV4};

/// Prints words and the end of their line.
pub fn put_end<W: Write>(
    buffer: &mut Buffer,
    writer: &mut W,
    words: &[Word<'_>],
) -> Result<(), CannotWrite>
    ensures ok { OnOk result (Sends (W.contents writer.old) buffer.old
        (W.contents writer.new) buffer.new (ended (map word_text words.now))) }
    ensures err { OnErr result (Stops (W.contents writer.old) buffer.old
        (W.contents writer.new) (ended (map word_text words.now))) }
{
    put_words(buffer, writer, words)?;
    put_parts(buffer, writer, &[Part::Text("\n")])
}

/// Prints words, each after a space.
pub fn put_words<W: Write>(
    buffer: &mut Buffer,
    writer: &mut W,
    words: &[Word<'_>],
) -> Result<(), CannotWrite>
    ensures ok { OnOk result (Sends (W.contents writer.old) buffer.old
        (W.contents writer.new) buffer.new (spaced (map word_text words.now))) }
    ensures err { OnErr result (Stops (W.contents writer.old) buffer.old
        (W.contents writer.new) (spaced (map word_text words.now))) }
{
    for word in words {
        put_word(buffer, writer, *word)?;
    }
    Ok(())
}

/// Prints a word after a space.
fn put_word<W: Write>(
    buffer: &mut Buffer,
    writer: &mut W,
    word: Word<'_>,
) -> Result<(), CannotWrite>
    ensures ok { OnOk result (Sends (W.contents writer.old) buffer.old
        (W.contents writer.new) buffer.new (codes " " ++ word_text word.entry)) }
    ensures err { OnErr result (Stops (W.contents writer.old) buffer.old
        (W.contents writer.new) (codes " " ++ word_text word.entry)) }
{
    match word {
        Word::Text(text) => put_parts(buffer, writer, &one_part(Part::Text(text))),
        Word::Number(number) => put_parts(buffer, writer, &one_part(Part::Number(number))),
        Word::Id(id) => put_parts(buffer, writer, &one_part(Part::Id(id))),
        Word::Ids(first, second) => put_parts(buffer, writer, &ids_parts(first, second)),
        Word::Byte(byte) => put_parts(buffer, writer, &one_part(Part::Byte(byte))),
        Word::Bytes(bytes) => put_parts(buffer, writer, &one_part(payload_part(bytes))),
        Word::Address(address) => put_parts(buffer, writer, &address_parts(address)),
        Word::Endpoint(endpoint) => put_parts(buffer, writer, &endpoint_parts(endpoint)),
    }
}

/// A space and a part.
fn one_part(part: Part<'_>) -> [Part<'_>; 2]
    ensures { flat_map part_text result ≡ codes " " ++ part_text part.entry }
{
    [Part::Text(" "), part]
}

/// A space and two IDs.
fn ids_parts(first: u16, second: u16) -> [Part<'static>; 4]
    ensures { flat_map part_text result ≡ codes " " ++ ids_text first second }
{
    [
        Part::Text(" "),
        Part::Id(first),
        Part::Text("."),
        Part::Id(second),
    ]
}

/// A space and an address.
fn address_parts(address: Ipv4Addr) -> [Part<'static>; 8]
    ensures { flat_map part_text result ≡ codes " " ++ ipv4_text (ipv4_octets address) }
{
    let octets = address.octets();
    [
        Part::Text(" "),
        Part::Number(octets[0] as usize),
        Part::Text("."),
        Part::Number(octets[1] as usize),
        Part::Text("."),
        Part::Number(octets[2] as usize),
        Part::Text("."),
        Part::Number(octets[3] as usize),
    ]
}

/// A space and an endpoint.
fn endpoint_parts(endpoint: SocketAddrV4) -> [Part<'static>; 10]
    ensures { flat_map part_text result ≡ codes " " ++ socket_v4_text endpoint }
{
    let octets = endpoint.ip().octets();
    [
        Part::Text(" "),
        Part::Number(octets[0] as usize),
        Part::Text("."),
        Part::Number(octets[1] as usize),
        Part::Text("."),
        Part::Number(octets[2] as usize),
        Part::Text("."),
        Part::Number(octets[3] as usize),
        Part::Text(":"),
        Part::Number(endpoint.port() as usize),
    ]
}
