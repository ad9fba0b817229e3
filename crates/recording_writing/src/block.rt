//! The blocks in which packets are written.
ghost use Rattle.std.specs.Prelude.{◌≡◌, ◌≤◌, ◌+◌, ◌-◌, ◌%◌, ◌++◌, ◌∷◌, ◌^◌, ◌<◌, [], length, IfNone, IfSome, OnOk, OnErr};
ghost use Rattle.recording.specs.Spelling.{block_bytes};
ghost use Rattle.recording.specs.View.{view_record};
ghost use Rattle.recording.specs.declared.number.ByteOrder.TheVariants.{Big, Little};
ghost use Rattle.recording_writing.specs.Blocks.{enhanced_block, file_ticks, interface_block, numbers, padding};
ghost use Rattle.recording_writing.specs.Blocks.{section_block, simple_block, ticks};
ghost use Rattle.someipctl_io.specs.Sending.{Sends, Stops};

use recording::{Record, Time};
use someipctl_io::{Buffer, CannotWrite};
use std::io::Write;

/// Writes the head of a section of version 1.0, whose length is not said.
pub(crate) fn put_section<W: Write>(buffer: &mut Buffer, writer: &mut W) -> Result<(), CannotWrite>
    ensures ok { OnOk result (Sends (W.contents writer.old) buffer.old
        (W.contents writer.new) buffer.new (block_bytes Big section_block)) }
    ensures err { OnErr result (Stops (W.contents writer.old) buffer.old
        (W.contents writer.new) (block_bytes Big section_block)) }
{
    put_numbers(
        buffer,
        writer,
        &[
            0x0a0d_0d0a,
            28,
            0x1a2b_3c4d,
            1,
            0xffff_ffff,
            0xffff_ffff,
            28,
        ],
    )
}

/// Writes the description of an interface that counts nanoseconds.
pub(crate) fn put_interface<W: Write>(
    buffer: &mut Buffer,
    writer: &mut W,
    link: u16,
) -> Result<(), CannotWrite>
    ensures ok { OnOk result (Sends (W.contents writer.old) buffer.old
        (W.contents writer.new) buffer.new (block_bytes Little (interface_block link))) }
    ensures err { OnErr result (Stops (W.contents writer.old) buffer.old
        (W.contents writer.new) (block_bytes Little (interface_block link))) }
{
    put_numbers(
        buffer,
        writer,
        &[1, 32, u32::from(link), 0, 0x0001_0009, 9, 0, 32],
    )
}

/// Writes a simple packet.
pub(crate) fn put_simple<W: Write>(
    buffer: &mut Buffer,
    writer: &mut W,
    packet: &Record<'_>,
) -> Result<(), CannotWrite>
    requires { length packet.now.bytes.now ≤ 16777200 }
    ensures ok { OnOk result (Sends (W.contents writer.old) buffer.old
        (W.contents writer.new) buffer.new (block_bytes Little (simple_block (view_record packet.now)))) }
    ensures err { OnErr result (Stops (W.contents writer.old) buffer.old
        (W.contents writer.new) (block_bytes Little (simple_block (view_record packet.now)))) }
{
    let len = 16 + packet.bytes.len() as u32 + padding_len(packet.bytes.len()) as u32;
    put_packet(
        buffer,
        writer,
        &[3, len, packet.original],
        packet.bytes,
        len,
    )
}

/// Writes an enhanced packet of the interface with this number.
pub(crate) fn put_enhanced<W: Write>(
    buffer: &mut Buffer,
    writer: &mut W,
    number: u32,
    packet: &Record<'_>,
) -> Result<(), CannotWrite>
    requires { length packet.now.bytes.now ≤ 16777184 }
    ensures ok { OnOk result (Sends (W.contents writer.old) buffer.old (W.contents writer.new)
        buffer.new (block_bytes Little (enhanced_block number (view_record packet.now)))) }
    ensures err { OnErr result (Stops (W.contents writer.old) buffer.old (W.contents writer.new)
        (block_bytes Little (enhanced_block number (view_record packet.now)))) }
{
    let captured = packet.bytes.len() as u32;
    let len = 32 + captured + padding_len(packet.bytes.len()) as u32;
    let ticks = file_ticks(packet.time);
    let head = [
        6,
        len,
        number,
        (ticks / 0x1_0000_0000) as u32,
        (ticks % 0x1_0000_0000) as u32,
        captured,
        packet.original,
    ];
    put_packet(buffer, writer, &head, packet.bytes, len)
}

/// Writes the numbers before a packet, its bytes, the zeros that fill them up, and the length of the
/// block.
fn put_packet<W: Write>(
    buffer: &mut Buffer,
    writer: &mut W,
    head: &[u32],
    bytes: &[u8],
    len: u32,
) -> Result<(), CannotWrite>
    ensures ok { OnOk result (Sends (W.contents writer.old) buffer.old
        (W.contents writer.new) buffer.new
        (numbers head.now ++ (bytes.now ++ (padding (length bytes.now) ++ numbers (len ∷ []))))) }
    ensures err { OnErr result (Stops (W.contents writer.old) buffer.old (W.contents writer.new)
        (numbers head.now ++ (bytes.now ++ (padding (length bytes.now) ++ numbers (len ∷ []))))) }
{
    put_numbers(buffer, writer, head)?;
    buffer.put(writer, bytes)?;
    put_padding(buffer, writer, bytes.len())?;
    put_numbers(buffer, writer, &[len])
}

/// Writes the zeros that fill so many bytes up to whole groups of 4.
fn put_padding<W: Write>(buffer: &mut Buffer, writer: &mut W, len: usize) -> Result<(), CannotWrite>
    ensures ok { OnOk result (Sends (W.contents writer.old) buffer.old
        (W.contents writer.new) buffer.new (padding len)) }
    ensures err { OnErr result (Stops (W.contents writer.old) buffer.old
        (W.contents writer.new) (padding len)) }
{
    let zeros = [0; 3];
    buffer.put(writer, &zeros[..padding_len(len)])
}

/// How many zeros these are.
fn padding_len(len: usize) -> usize
    ensures value { result ≡ (4 - len % 4) % 4 }
    ensures most { result ≤ 3 }
{
    (4 - len % 4) % 4
}

/// Writes numbers of 32 bits, the lowest byte of each first.
fn put_numbers<W: Write>(
    buffer: &mut Buffer,
    writer: &mut W,
    values: &[u32],
) -> Result<(), CannotWrite>
    ensures ok { OnOk result (Sends (W.contents writer.old) buffer.old
        (W.contents writer.new) buffer.new (numbers values.now)) }
    ensures err { OnErr result (Stops (W.contents writer.old) buffer.old
        (W.contents writer.new) (numbers values.now)) }
{
    for value in values {
        buffer.put(writer, &value.to_le_bytes())?;
    }
    Ok(())
}

/// The nanoseconds since 1970 that stand for a time: 0 where they do not fit 64 bits, or there is none.
fn file_ticks(time: Option<Time>) -> u64
    ensures { result ≡ file_ticks time }
{
    match time {
        Some(time) => ticks(time).unwrap_or(0),
        None => 0,
    }
}

/// The nanoseconds since 1970, where they fit 64 bits.
pub(crate) fn ticks(time: Time) -> Option<u64>
    ensures some { IfSome result (λ n. (n ≡ ticks time) × (ticks time < 2 ^ 64)) }
    ensures none { IfNone result (2 ^ 64 ≤ ticks time) }
{
    time.seconds
        .checked_mul(1_000_000_000)?
        .checked_add(u64::from(time.nanoseconds))
}
