//! The packets and the blocks of a file, one after the other.
ghost use Rattle.std.specs.Prelude.{◌≡◌, ◌≤◌, ◌<◌, Ok, length, drop, IfOk, IfErr, OnOk, OnErr};
ghost use Rattle.recording.specs.Records.{part_meaning, part_len, format_after, section_after};
ghost use Rattle.recording.specs.Records.{items_from, DescribesInterface};
ghost use Rattle.recording.specs.View.{given_in, LiesIn};
ghost use Rattle.recording.specs.Steps.{Fails, IsLast, OnMemory};
ghost use Rattle.recording.specs.Parts.{IsFound};

use crate::block::front_block;
use crate::classic::front_packet;
use crate::error::RecordingError;
use crate::format::Format;
use crate::interface::Interface;
use crate::packet::{Packet, behind, record_at};
use crate::record::Record;
use crate::section::take_block;

/// A packet or a block at the front of bytes.
#[derive(Clone, Copy)]
pub(crate) struct Part {
    /// The packet that it is, or that is in it, if there is one.
    pub(crate) packet: Option<Packet>,
    /// The format after it.
    pub(crate) format: Format,
    /// How many bytes it has.
    pub(crate) len: usize,
}

/// A record, and where its packet or block ends.
#[derive(Clone, Copy)]
pub(crate) struct Found<'a> {
    /// The record.
    pub(crate) record: Record<'a>,
    /// The format after it.
    pub(crate) format: Format,
    /// Where its packet or block ends.
    pub(crate) end: usize,
}

/// The next record from a place of the file on, if there is one.
pub(crate) fn next_record<'a>(
    mut format: Format,
    interfaces: &mut Vec<Interface>,
    file: &'a [u8],
    mut place: usize,
) -> Result<Option<Found<'a>>, RecordingError>
    requires { place ≤ length file.now }
    ensures found { IfOk result (λ found. IsFound
        (items_from format interfaces.old.items place (drop place file.now)) found
        interfaces.new.items file.now) }
    ensures err { IfErr result (λ e. IsLast e
        (items_from format interfaces.old.items place (drop place file.now))) }
{
    while place < file.len() {
        let rest = &file[place..];
        let part = front_part(format, interfaces, place, rest)?;
        format = part.format;
        place += part.len;
        if let Some(packet) = part.packet {
            return Ok(Some(Found {
                record: record_at(rest, packet),
                format,
                end: place,
            }));
        }
    }
    Ok(None)
}

/// The packet or the block that these bytes begin with: the rest of a file from a place on. The
/// interfaces are those after it.
pub(crate) fn front_part(
    format: Format,
    interfaces: &mut Vec<Interface>,
    place: usize,
    rest: &[u8],
) -> Result<Part, RecordingError>
    ensures meaning { IfOk result (λ part. part_meaning format interfaces.old.items place rest.now
        ≡ Ok (given_in rest.now part.packet)) }
    ensures packet { IfOk result (λ part. LiesIn rest.now part.packet) }
    ensures err { IfErr result (λ e.
        Fails e (part_meaning format interfaces.old.items place rest.now)) }
    ensures memory { IfErr result (λ e. OnMemory e (DescribesInterface format place rest.now)) }
    ensures kept { OnErr result (interfaces.new.items ≡ interfaces.old.items) }
    ensures format { IfOk result (λ part. part.format ≡ format_after format rest.now) }
    ensures interfaces { OnOk result (interfaces.new.items
        ≡ section_after format interfaces.old.items rest.now) }
    ensures len { IfOk result (λ part. part.len ≡ part_len format rest.now) }
    ensures within { IfOk result (λ part. (0 < part.len) × (part.len ≤ length rest.now)) }
{
    match format {
        Format::Classic(classic) => {
            let packet = front_packet(classic, place, rest)?;
            Ok(Part {
                packet: Some(packet),
                format,
                len: packet.end,
            })
        }
        Format::Blocks(order) => {
            let (block, len) = front_block(order, place, rest)?;
            let packet = take_block(interfaces, place, &block)?;
            Ok(Part {
                packet: behind(packet, 8),
                format: Format::Blocks(block.order),
                len,
            })
        }
    }
}
