//! Text on its way out: a buffer of fixed size in front of a writer, and the loop over `write`.
ghost use Rattle.std.specs.Prelude.{◌≡◌, ◌+◌, ◌*◌, ◌≤◌, ◌++◌, ℕ, [], length, take, OnOk, OnErr, IfOk};
ghost use Rattle.std.specs.Io.KnownBytes.{Appends};
ghost use Rattle.hex.specs.Hex.{encode_lower};
ghost use Rattle.someipctl_io.specs.Sending.{Sends, Stops};

use std::alloc::{AllocError, Global};
use std::io::Write;
use std::marker::Model;
use thiserror::Error;

/// A write that failed or took nothing. What was written until then stays.
#[derive(Clone, Copy, Debug, PartialEq, Eq, Error)]
#[error("cannot write")]
pub struct CannotWrite;

/// The bytes that the buffer holds back until it is full.
const CAPACITY: usize = 16384;

/// How many bytes are turned into hex at once where there is no room for all.
const HEX_BYTES: usize = 64;

/// The digits of so many bytes.
const HEX_DIGITS: usize = 2 * HEX_BYTES;

/// What is printed and not yet written. Contracts see these bytes.
#[derive(Drop)]
pub struct Buffer {
    /// The bytes that are held, and after them what no one reads.
    room: Vec<u8>,
    /// How many bytes are held.
    held: usize,
}

impl Model for Buffer {
    ghost use Rattle.std.specs.Prelude.{List, ℕ, ◌≤◌, length, take};

    ghost Value = { List ℕ };

    ghost view = { λ b. take b.held b.room.items };

    ghost invariant = { λ b. b.held ≤ length b.room.items };
}

impl Buffer {
    /// An empty buffer. It takes its memory here and none later.
    pub fn new(alloc: Global) -> Result<Buffer, AllocError>
        ensures { IfOk result (λ buffer. buffer ≡ []) }
    {
        let room = vec![in alloc; 0; CAPACITY]?;
        Ok(Buffer { room, held: 0 })
    }

    /// Prints bytes as they are. They are held back where there is room for them.
    #[inline(always)]
    pub fn put<W: Write>(&mut self, writer: &mut W, bytes: &[u8]) -> Result<(), CannotWrite>
        ensures ok { OnOk result (Sends (W.contents writer.old) self.old
            (W.contents writer.new) self.new bytes.now) }
        ensures err { OnErr result (Stops (W.contents writer.old) self.old
            (W.contents writer.new) bytes.now) }
    {
        if self.room.len() - self.held < bytes.len() {
            return self.put_behind(writer, bytes);
        }
        hold(&mut self.room, self.held, bytes);
        self.held += bytes.len();
        Ok(())
    }

    /// Prints bytes after all that is held was written. They are written too where they are longer
    /// than the buffer.
    #[cold]
    #[inline(never)]
    fn put_behind<W: Write>(&mut self, writer: &mut W, bytes: &[u8]) -> Result<(), CannotWrite>
        ensures ok { OnOk result (Sends (W.contents writer.old) self.old
            (W.contents writer.new) self.new bytes.now) }
        ensures err { OnErr result (Stops (W.contents writer.old) self.old
            (W.contents writer.new) bytes.now) }
    {
        self.flush(writer)?;
        if self.room.len() - self.held < bytes.len() {
            return write_text(writer, bytes);
        }
        hold(&mut self.room, self.held, bytes);
        self.held += bytes.len();
        Ok(())
    }

    /// Prints bytes as two lower-case hex digits each. Where there is room for them all, they are
    /// turned into digits where these are held.
    pub fn put_hex<W: Write>(&mut self, writer: &mut W, bytes: &[u8]) -> Result<(), CannotWrite>
        ensures ok { OnOk result (Sends (W.contents writer.old) self.old
            (W.contents writer.new) self.new (encode_lower bytes.now)) }
        ensures err { OnErr result (Stops (W.contents writer.old) self.old
            (W.contents writer.new) (encode_lower bytes.now)) }
    {
        if (self.room.len() - self.held) / 2 < bytes.len() {
            return self.put_hex_in_chunks(writer, bytes);
        }
        hold_hex(&mut self.room, self.held, bytes);
        self.held += 2 * bytes.len();
        Ok(())
    }

    /// Prints bytes as digits, however many they are.
    #[cold]
    #[inline(never)]
    fn put_hex_in_chunks<W: Write>(
        &mut self,
        writer: &mut W,
        bytes: &[u8],
    ) -> Result<(), CannotWrite>
        ensures ok { OnOk result (Sends (W.contents writer.old) self.old
            (W.contents writer.new) self.new (encode_lower bytes.now)) }
        ensures err { OnErr result (Stops (W.contents writer.old) self.old
            (W.contents writer.new) (encode_lower bytes.now)) }
    {
        let mut rest = bytes;
        while rest.len() > HEX_BYTES {
            let (front, others) = rest.split_at(HEX_BYTES);
            self.put_few_in_hex(writer, front)?;
            rest = others;
        }
        self.put_few_in_hex(writer, rest)
    }

    fn put_few_in_hex<W: Write>(&mut self, writer: &mut W, bytes: &[u8]) -> Result<(), CannotWrite>
        requires { length bytes.now ≤ HEX_BYTES }
        ensures ok { OnOk result (Sends (W.contents writer.old) self.old
            (W.contents writer.new) self.new (encode_lower bytes.now)) }
        ensures err { OnErr result (Stops (W.contents writer.old) self.old
            (W.contents writer.new) (encode_lower bytes.now)) }
    {
        let mut digits = [0; HEX_DIGITS];
        let text = &mut digits[..2 * bytes.len()];
        write_hex(bytes, text);
        self.put(writer, text)
    }

    /// Writes all that is held.
    pub fn flush<W: Write>(&mut self, writer: &mut W) -> Result<(), CannotWrite>
        ensures ok { OnOk result (Sends (W.contents writer.old) self.old
            (W.contents writer.new) self.new []) }
        ensures empty { OnOk result (self.new ≡ []) }
        ensures err { OnErr result (Stops (W.contents writer.old) self.old
            (W.contents writer.new) []) }
    {
        write_text(writer, &self.room[..self.held])?;
        self.held = 0;
        Ok(())
    }
}

/// Puts bytes after those that are held.
#[inline(always)]
fn hold(room: &mut [u8], held: usize, bytes: &[u8])
    requires { held + length bytes.now ≤ length room.old }
    ensures { take (held + length bytes.now) room.new ≡ take held room.old ++ bytes.now }
{
    room[held..held + bytes.len()].copy_from_slice(bytes);
}

/// Puts the digits of bytes after the bytes that are held.
#[inline(always)]
fn hold_hex(room: &mut [u8], held: usize, bytes: &[u8])
    requires { held + 2 * length bytes.now ≤ length room.old }
    ensures { take (held + 2 * length bytes.now) room.new ≡ take held room.old ++ encode_lower bytes.now }
{
    write_hex(bytes, &mut room[held..held + 2 * bytes.len()]);
}

/// Writes the digits of bytes, for which a text has just the room.
#[inline(always)]
pub(crate) fn write_hex(bytes: &[u8], text: &mut [u8])
    requires { length text.old ≡ 2 * length bytes.now }
    ensures { text.new ≡ encode_lower bytes.now }
{
    if hex::encode_to_slice(bytes, text).is_err() {
        unreachable!()
    }
}

/// Writes the text by as many calls of `write` as it takes. A call that takes a part is followed by
/// the rest; one that takes nothing or fails ends it.
pub fn write_text<W: Write>(writer: &mut W, text: &[u8]) -> Result<(), CannotWrite>
    ensures ok { OnOk result (Appends (W.contents writer.old) (W.contents writer.new) text.now) }
    ensures err { OnErr result ((n : ℕ)
        × Appends (W.contents writer.old) (W.contents writer.new) (take n text.now)) }
{
    let mut done = 0;
    while done < text.len() {
        match writer.write(&text[done..]) {
            Ok(0) | Err(_) => return Err(CannotWrite),
            Ok(n) => done += n,
        }
    }
    Ok(())
}
