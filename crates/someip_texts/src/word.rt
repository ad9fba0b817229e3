//! The words of a line.
ghost use Rattle.std.specs.Prelude.{◌++◌, ◌∷◌, [], Some};
ghost use Rattle.std.specs.Fmt.{WritesOnOk};
ghost use Rattle.hex.specs.Hex.{encode_lower};
ghost use Rattle.someip_texts.specs.Words.{bytes_text, hex2, hex4, ids_text, word_text};

use std::fmt;
use std::fmt::Display;
use std::net::{Ipv4Addr, SocketAddrV4};

/// A word of a line.
#[derive(Clone, Copy)]
pub enum Word<'w> {
    /// Text as it is.
    Text(&'w str),
    /// A number in decimal digits.
    Number(usize),
    /// An ID of 16 bits as four lower-case hex digits.
    Id(u16),
    /// Two IDs with a dot between them, as of a service and its method.
    Ids(u16, u16),
    /// A byte as two lower-case hex digits.
    Byte(u8),
    /// Bytes as two lower-case hex digits each, or `-` where there are none.
    Bytes(&'w [u8]),
    /// An address: four numbers with dots between them.
    Address(Ipv4Addr),
    /// An address, a colon and a port.
    Endpoint(SocketAddrV4),
}

impl<'w> Display for Word<'w> {
    ghost output = { λ word. Some (word_text word) };

    fn fmt<W: fmt::Write>(&self, f: &mut fmt::Formatter<W>) -> fmt::Result {
        match self {
            Word::Text(text) => write!(f, "{text}"),
            Word::Number(number) => write!(f, "{number}"),
            Word::Id(id) => write_id(f, *id),
            Word::Ids(first, second) => write_ids(f, *first, *second),
            Word::Byte(byte) => write_byte(f, *byte),
            Word::Bytes(bytes) => write_bytes(f, bytes),
            Word::Address(address) => write!(f, "{address}"),
            Word::Endpoint(endpoint) => write!(f, "{endpoint}"),
        }
    }
}

/// Two IDs with a dot between them.
fn write_ids<W: fmt::Write>(f: &mut fmt::Formatter<W>, first: u16, second: u16) -> fmt::Result
    ensures { WritesOnOk W.write_str_gives f.old result (ids_text first second) f.new }
{
    write_id(f, first)?;
    write!(f, ".")?;
    write_id(f, second)
}

/// An ID.
fn write_id<W: fmt::Write>(f: &mut fmt::Formatter<W>, id: u16) -> fmt::Result
    ensures { WritesOnOk W.write_str_gives f.old result (hex4 id) f.new }
{
    write_hex(f, &id.to_be_bytes())
}

/// Bytes in hex, or `-` for none.
fn write_bytes<W: fmt::Write>(f: &mut fmt::Formatter<W>, bytes: &[u8]) -> fmt::Result
    ensures { WritesOnOk W.write_str_gives f.old result (bytes_text bytes.now) f.new }
{
    if bytes.is_empty() {
        return write!(f, "-");
    }
    write_hex(f, bytes)
}

/// Bytes in hex.
fn write_hex<W: fmt::Write>(f: &mut fmt::Formatter<W>, bytes: &[u8]) -> fmt::Result
    ensures { WritesOnOk W.write_str_gives f.old result (encode_lower bytes.now) f.new }
{
    for byte in bytes {
        write_byte(f, *byte)?;
    }
    Ok(())
}

/// A byte in hex.
#[tactic(auto, using(crate::proofs::HexTexts::two_digits))]
fn write_byte<W: fmt::Write>(f: &mut fmt::Formatter<W>, byte: u8) -> fmt::Result
    ensures { WritesOnOk W.write_str_gives f.old result (hex2 byte) f.new }
{
    write!(f, "{byte:02x}")
}
