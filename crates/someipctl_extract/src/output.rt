//! The packets that are written, and what of them is lost.
ghost use Rattle.std.specs.Prelude.{◌≡◌, ◌∷◌, [], IfOk, OnOk, OnErr};
ghost use Rattle.std.specs.List.{AllByRecursion};
ghost use Rattle.recording.specs.View.{view_record};
ghost use Rattle.recording.specs.Spelling.{blocks_bytes};
ghost use Rattle.recording.specs.declared.number.ByteOrder.TheVariants.{Little};
ghost use Rattle.recording_writing.specs.Files.{IsPacket, file_of, packets_blocks};
ghost use Rattle.someipctl_extract.specs.Extraction.{nothing_lost, nothing_written, packets_at, packets_of};
ghost use Rattle.someipctl_extract.specs.Extraction.{with_datagram, with_packets, with_put};
ghost use Rattle.someipctl_io.specs.Sending.{Sends, Stops};

use crate::kept::{Kept, KeptPacket};
use recording::Record;
use recording_packets::fragments::PacketKey;
use recording_writing::{PacketWriter, Put};
use someipctl_io::{Buffer, CannotWrite, PrintFault};
use std::alloc::Global;
use std::io::Write;

/// What the packets of the datagrams that are asked for lose in the file.
#[derive(Clone, Copy, Debug, PartialEq, Eq)]
pub struct Losses {
    /// Whether a packet is left out whose block would have more than 16 MiB.
    pub long_packets: bool,
    /// Whether a packet has the time 0, since the file cannot say its own.
    pub times: bool,
    /// Whether a datagram is left out whose fragments came in more packets than are kept.
    pub datagrams: bool,
}

impl Losses {
    /// Nothing is lost yet.
    pub(crate) fn new() -> Losses
        ensures { result ≡ nothing_lost }
    {
        Losses {
            long_packets: false,
            times: false,
            datagrams: false,
        }
    }

    /// Notes what was written of a packet.
    fn note(&mut self, put: Put)
        ensures { self.new ≡ with_put self.old put }
    {
        match put {
            Put::Exact => {}
            Put::Untimed => self.times = true,
            Put::TooLong => self.long_packets = true,
        }
    }
}

/// What writes the packets.
#[derive(Drop)]
pub(crate) struct Output {
    pub(crate) packets: PacketWriter,
    pub(crate) losses: Losses,
}

impl Output {
    /// Begins the file.
    pub(crate) fn begin<W: Write>(
        alloc: Global,
        buffer: &mut Buffer,
        writer: &mut W,
    ) -> Result<Output, CannotWrite>
        ensures nothing { IfOk result (λ output. output ≡ nothing_written) }
        ensures ok { OnOk result (Sends (W.contents writer.old) buffer.old (W.contents writer.new) buffer.new
            (file_of [])) }
        ensures err { OnErr result (Stops (W.contents writer.old) buffer.old (W.contents writer.new) (file_of [])) }
    {
        let packets = PacketWriter::begin(alloc, buffer, writer)?;
        Ok(Output {
            packets,
            losses: Losses::new(),
        })
    }

    /// Writes a packet.
    fn put<W: Write>(
        &mut self,
        buffer: &mut Buffer,
        writer: &mut W,
        packet: &Record<'_>,
    ) -> Result<(), PrintFault>
        ensures ok { OnOk result (Sends (W.contents writer.old) buffer.old (W.contents writer.new) buffer.new
            (blocks_bytes Little (packets_blocks self.old.packets (view_record packet.now ∷ [])))) }
        ensures after { OnOk result (self.new ≡ with_packets self.old (view_record packet.now ∷ [])) }
        ensures fits { OnOk result (IsPacket (view_record packet.now)) }
        ensures err { OnErr result (Stops (W.contents writer.old) buffer.old (W.contents writer.new)
            (blocks_bytes Little (packets_blocks self.old.packets (view_record packet.now ∷ [])))) }
    {
        let put = self.packets.put(buffer, writer, packet)?;
        self.losses.note(put);
        Ok(())
    }

    /// Writes packets in their order.
    fn put_all<W: Write>(
        &mut self,
        buffer: &mut Buffer,
        writer: &mut W,
        packets: &[KeptPacket],
    ) -> Result<(), PrintFault>
        ensures ok { OnOk result (Sends (W.contents writer.old) buffer.old (W.contents writer.new) buffer.new
            (blocks_bytes Little (packets_blocks self.old.packets packets.now))) }
        ensures after { OnOk result (self.new ≡ with_packets self.old packets.now) }
        ensures fits { OnOk result (AllByRecursion IsPacket packets.now) }
        ensures err { OnErr result (Stops (W.contents writer.old) buffer.old (W.contents writer.new)
            (blocks_bytes Little (packets_blocks self.old.packets packets.now))) }
    {
        for packet in packets {
            self.put(buffer, writer, &packet.record())?;
        }
        Ok(())
    }

    /// Writes the packets of the datagram that this packet gave: it alone, or behind those that are kept of its
    /// IPv4 packet, where it has a fragment of one. A datagram of which too many came is left out.
    pub(crate) fn put_datagram<W: Write>(
        &mut self,
        buffer: &mut Buffer,
        writer: &mut W,
        key: Option<PacketKey>,
        kept: &Kept,
        found: &Record<'_>,
    ) -> Result<(), PrintFault>
        ensures ok { OnOk result (Sends (W.contents writer.old) buffer.old (W.contents writer.new) buffer.new
            (blocks_bytes Little (packets_blocks self.old.packets
            (packets_of (packets_at key kept.now (view_record found.now) ∷ []))))) }
        ensures after { OnOk result (self.new ≡ with_datagram self.old (packets_at key kept.now (view_record found.now))) }
        ensures err { OnErr result (Stops (W.contents writer.old) buffer.old (W.contents writer.new)
            (blocks_bytes Little (packets_blocks self.old.packets
            (packets_of (packets_at key kept.now (view_record found.now) ∷ []))))) }
        ensures fits { OnOk result (AllByRecursion IsPacket
            (packets_of (packets_at key kept.now (view_record found.now) ∷ []))) }
    {
        let Some(key) = key else {
            return self.put(buffer, writer, found);
        };
        match kept.packets(&key) {
            Some(packets) => {
                self.put_all(buffer, writer, packets)?;
                self.put(buffer, writer, found)
            }
            None => {
                self.losses.datagrams = true;
                Ok(())
            }
        }
    }
}
