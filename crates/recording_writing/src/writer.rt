//! Packets, written one after the other.
ghost use Rattle.std.specs.Prelude.{◌≡◌, ◌≤◌, ◌<◌, ◌^◌, [], true, false, OnOk, IfOk, OnErr, IfErr};
ghost use Rattle.recording.specs.Spelling.{block_bytes, blocks_bytes};
ghost use Rattle.recording.specs.View.{view_record};
ghost use Rattle.recording.specs.declared.number.ByteOrder.TheVariants.{Big, Little};
ghost use Rattle.recording_writing.specs.Blocks.{blocks_for, description, has_ticks, is_new, is_simple};
ghost use Rattle.recording_writing.specs.Blocks.{links_after, links_with, number_of, packet_block, put_of};
ghost use Rattle.recording_writing.specs.Blocks.{is_too_long, section_block};
ghost use Rattle.recording_writing.specs.Files.{IsPacket};
ghost use Rattle.someipctl_io.specs.Sending.{Sends, Stops};
ghost use Rattle.someipctl_io.specs.declared.fault.PrintFault.TheVariants.{OutOfMemory};

use crate::block::{put_enhanced, put_interface, put_section, put_simple, ticks};
use recording::{Record, Time};
use someipctl_io::{Buffer, CannotWrite, PrintFault};
use std::alloc::Global;
use std::io::Write;
use std::marker::Model;

/// The most bytes of a block, which a reader holds.
const LONGEST: usize = 16_777_216;

/// The bytes of a simple packet's block beside the packet.
const SIMPLE_LEN: usize = 16;

/// Those of an enhanced packet's.
const ENHANCED_LEN: usize = 32;

/// What was written of a packet.
#[derive(Clone, Copy, Debug, PartialEq, Eq)]
pub enum Put {
    /// The packet as it is: its bytes, its length, its link type and its time.
    Exact,
    /// The packet with the time 0, since the file cannot say its own: it has none, and is cut or not of the
    /// first interface; or it is 2^64 nanoseconds or more after 1970.
    Untimed,
    /// Nothing: its block would have more than the 16 MiB that a reader holds.
    TooLong,
}

/// Writes packets as pcapng: one section, whose interfaces count nanoseconds, one for each link type,
/// described before its first packet.
///
/// Contracts see the link types that have an interface, in the order of their numbers. What is written waits
/// in the buffer until that is full: flush it after the last packet.
///
/// ```text
/// section      begin(alloc, &mut buffer, &mut file)?
/// packet       writer.put(&mut buffer, &mut file, &record)?    its interface, if the link type is new, and it
/// packet       ..
/// end          buffer.flush(&mut file)?
/// ```
///
/// After an error the file has what was written until then, a beginning of what it was to have.
#[derive(Drop)]
pub struct PacketWriter {
    /// The link types that have an interface.
    links: Vec<u16>,
}

impl Model for PacketWriter {
    ghost use Rattle.std.specs.Prelude.{List, ℕ};
    ghost use Rattle.recording_writing.specs.Files.{AreLinkTypes};

    ghost Value = { List ℕ };

    ghost view = { λ s. s.links.items };

    ghost invariant = { λ s. AreLinkTypes s.links.items };
}

impl PacketWriter {
    /// Begins a file: writes the head of its section.
    pub fn begin<W: Write>(
        alloc: Global,
        buffer: &mut Buffer,
        writer: &mut W,
    ) -> Result<PacketWriter, CannotWrite>
        ensures none { IfOk result (λ packets. packets ≡ []) }
        ensures ok { OnOk result (Sends (W.contents writer.old) buffer.old
            (W.contents writer.new) buffer.new (block_bytes Big section_block)) }
        ensures err { OnErr result (Stops (W.contents writer.old) buffer.old
            (W.contents writer.new) (block_bytes Big section_block)) }
    {
        put_section(buffer, writer)?;
        Ok(PacketWriter {
            links: Vec::new(alloc),
        })
    }

    /// Writes a packet, and before it the description of its interface where its link type is new.
    ///
    /// Memory is taken for a link type that is new, and for nothing else.
    pub fn put<W: Write>(
        &mut self,
        buffer: &mut Buffer,
        writer: &mut W,
        packet: &Record<'_>,
    ) -> Result<Put, PrintFault>
        // Its blocks are written, and what was written of it is told.
        ensures ok { OnOk result (Sends (W.contents writer.old) buffer.old (W.contents writer.new)
            buffer.new (blocks_bytes Little (blocks_for self.old (view_record packet.now)))) }
        ensures told { IfOk result (λ put. put
            ≡ put_of (number_of self.old packet.now.link) (view_record packet.now)) }
        ensures after { OnOk result (self.new ≡ links_after self.old (view_record packet.now)) }
        // Its numbers fit their fields, so that it is read again.
        ensures fits { IsPacket (view_record packet.now) }
        // Else a beginning of its blocks.
        ensures err { OnErr result (Stops (W.contents writer.old) buffer.old (W.contents writer.new)
            (blocks_bytes Little (blocks_for self.old (view_record packet.now)))) }
        ensures memory { IfErr result (λ fault. fault ≡ OutOfMemory
            → (is_new self.old packet.now.link ≡ true)
            × (is_too_long (number_of self.old packet.now.link) (view_record packet.now) ≡ false)) }
    {
        let number = number_of(&self.links, packet.link);
        if is_too_long(number, packet) {
            return Ok(Put::TooLong);
        }
        self.describe(buffer, writer, number, packet.link)?;
        put_block(buffer, writer, number, packet)?;
        Ok(put_of(number, packet))
    }

    /// Writes the description of the interface of a link type that is new.
    fn describe<W: Write>(
        &mut self,
        buffer: &mut Buffer,
        writer: &mut W,
        number: usize,
        link: u16,
    ) -> Result<(), PrintFault>
        requires { number ≡ number_of self.old link }
        ensures ok { OnOk result (Sends (W.contents writer.old) buffer.old (W.contents writer.new)
            buffer.new (blocks_bytes Little (description self.old link))) }
        ensures after { OnOk result (self.new ≡ links_with self.old link) }
        ensures err { OnErr result (Stops (W.contents writer.old) buffer.old (W.contents writer.new)
            (blocks_bytes Little (description self.old link))) }
        ensures memory { IfErr result (λ fault. fault ≡ OutOfMemory → is_new self.old link ≡ true) }
    {
        if number == self.links.len() {
            if self.links.push(link).is_err() {
                return Err(PrintFault::OutOfMemory);
            }
            put_interface(buffer, writer, link)?;
        }
        Ok(())
    }
}

/// The number of the interface of a link type: that which it has, or else the next.
fn number_of(links: &[u16], link: u16) -> usize
    ensures { result ≡ number_of links.now link }
{
    let mut number = 0;
    while number < links.len() {
        if links[number] == link {
            return number;
        }
        number += 1;
    }
    number
}

/// Whether a packet of the interface with this number is written without a time.
fn is_simple(number: usize, packet: &Record<'_>) -> bool
    ensures { result ≡ is_simple number (view_record packet.now) }
{
    packet.time.is_none() && number == 0 && packet.original as usize == packet.bytes.len()
}

/// Whether the block of a packet of the interface with this number would be too long.
fn is_too_long(number: usize, packet: &Record<'_>) -> bool
    ensures { result ≡ is_too_long number (view_record packet.now) }
{
    // Both limits are whole groups of 4 bytes: what fills the packet up does not pass them.
    if is_simple(number, packet) {
        packet.bytes.len() > LONGEST - SIMPLE_LEN
    } else {
        packet.bytes.len() > LONGEST - ENHANCED_LEN
    }
}

/// Writes the block of a packet.
fn put_block<W: Write>(
    buffer: &mut Buffer,
    writer: &mut W,
    number: usize,
    packet: &Record<'_>,
) -> Result<(), CannotWrite>
    requires few { number < 2 ^ 32 }
    requires short { is_too_long number (view_record packet.now) ≡ false }
    ensures ok { OnOk result (Sends (W.contents writer.old) buffer.old (W.contents writer.new)
        buffer.new (block_bytes Little (packet_block number (view_record packet.now)))) }
    ensures err { OnErr result (Stops (W.contents writer.old) buffer.old (W.contents writer.new)
        (block_bytes Little (packet_block number (view_record packet.now)))) }
{
    if is_simple(number, packet) {
        put_simple(buffer, writer, packet)
    } else {
        put_enhanced(buffer, writer, number as u32, packet)
    }
}

/// What is told of a packet that is written.
fn put_of(number: usize, packet: &Record<'_>) -> Put
    requires { is_too_long number (view_record packet.now) ≡ false }
    ensures { result ≡ put_of number (view_record packet.now) }
{
    if is_simple(number, packet) || has_ticks(packet.time) {
        Put::Exact
    } else {
        Put::Untimed
    }
}

/// Whether the file can say a time.
fn has_ticks(time: Option<Time>) -> bool
    ensures { result ≡ has_ticks time }
{
    match time {
        Some(time) => ticks(time).is_some(),
        None => false,
    }
}
