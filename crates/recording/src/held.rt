//! The packets and the blocks that held bytes tell, one after the other.
ghost use Rattle.std.specs.Prelude.{◌≡◌, ◌≤◌, ◌<◌, ◌+◌, ◌^◌, ◌++◌, ℕ, List, false, length, IfOk, IfErr};
ghost use Rattle.std.specs.Prelude.{IfSome, IfNone};
ghost use Rattle.recording.specs.Held.{held_meaning, interface_limit, wanted, LacksBytes};
ghost use Rattle.recording.specs.Records.{DescribesInterface};
ghost use Rattle.recording.specs.HeldItems.{held_from};
ghost use Rattle.recording.specs.Readers.{CanFollow, LacksMemory};
ghost use Rattle.recording.specs.Told.{IsPart, TakesTold, EndsTold};
ghost use Rattle.recording.specs.View.{LiesIn};
ghost use Rattle.recording.specs.Steps.{Fails, IsLast, OnMemory};

use crate::block::wanted_block;
use crate::classic::wanted_packet;
use crate::error::RecordingError;
use crate::format::Format;
use crate::interface::Interface;
use crate::packet::{Packet, behind};
use crate::parts::{Part, front_part};

/// The most bytes of a packet or block, with its header, that are held.
pub(crate) const HELD_LEN: usize = 16_777_216;

/// The most interfaces of a section that are held.
const INTERFACES: usize = 65_536;

/// What held bytes tell from a place of a recording on.
#[derive(Clone, Copy)]
pub(crate) struct Told {
    /// The next packet, by where it lies in the held bytes, if they tell one.
    pub(crate) packet: Option<Packet>,
    /// The format after what was taken.
    pub(crate) format: Format,
    /// How many bytes were taken: those of the packet, and of all blocks before it.
    pub(crate) len: usize,
}

/// The next packet that held bytes tell, if they tell one before they end. They are the last of the
/// recording, or others may follow.
pub(crate) fn next_told(
    mut format: Format,
    interfaces: &mut Vec<Interface>,
    place: usize,
    held: &[u8],
    is_whole: bool,
) -> Result<Told, RecordingError>
    requires { place + length held.now < 2 ^ 64 }
    ensures takes { IfOk result (λ told. (rest : List ℕ) → CanFollow is_whole rest → TakesTold format
        interfaces.old.items interfaces.new.items place held.now rest told) }
    ensures packet { IfOk result (λ told. LiesIn held.now told.packet) }
    ensures within { IfOk result (λ told. told.len ≤ length held.now) }
    ensures some { IfOk result (λ told. IfSome told.packet (λ _. 0 < told.len)) }
    ensures ends { IfOk result (λ told. IfNone told.packet (EndsTold is_whole held.now told)) }
    ensures fault { IfErr result (λ e. (rest : List ℕ) → CanFollow is_whole rest
        → IsLast e (held_from format interfaces.old.items place (held.now ++ rest))) }
    ensures memory { IfErr result (λ e. OnMemory e (LacksMemory is_whole place held.now
        (λ rest. held_from format interfaces.old.items place (held.now ++ rest)))) }
{
    let mut len = 0;
    while len < held.len() {
        let rest = &held[len..];
        let Some(part) = held_part(format, interfaces, place + len, rest, is_whole)? else {
            break;
        };
        format = part.format;
        let start = len;
        len += part.len;
        if let Some(_) = part.packet {
            return Ok(Told {
                packet: behind(part.packet, start),
                format,
                len,
            });
        }
    }
    Ok(Told {
        packet: None,
        format,
        len,
    })
}

/// The packet or the block that held bytes begin with. None where they do not tell it yet.
fn held_part(
    format: Format,
    interfaces: &mut Vec<Interface>,
    place: usize,
    held: &[u8],
    is_whole: bool,
) -> Result<Option<Part>, RecordingError>
    ensures told { IfOk result (λ told. IfSome told (λ part. (rest : List ℕ) → CanFollow is_whole rest
        → IsPart format interfaces.old.items interfaces.new.items place held.now (held.now ++ rest) part)) }
    ensures packet { IfOk result (λ told. IfSome told (λ part. LiesIn held.now part.packet)) }
    ensures within { IfOk result (λ told. IfSome told (λ part.
        (0 < part.len) × (part.len ≤ length held.now))) }
    ensures untold { IfOk result (λ told. IfNone told
        ((is_whole ≡ false) × LacksBytes held.now (wanted format held.now))) }
    ensures kept { IfOk result (λ told. IfNone told
        (interfaces.new.items ≡ interfaces.old.items)) }
    ensures fault { IfErr result (λ e. (rest : List ℕ) → CanFollow is_whole rest
        → Fails e (held_meaning format interfaces.old.items place (held.now ++ rest))) }
    ensures memory { IfErr result (λ e. OnMemory e (DescribesInterface format place held.now
        × (length interfaces.old.items < interface_limit))) }
{
    let wanted = wanted(format, held);
    if wanted > HELD_LEN {
        return Err(RecordingError::BlockTooLong(place));
    }
    if held.len() < wanted && !is_whole {
        return Ok(None);
    }
    match front_part(format, interfaces, place, held) {
        Ok(part) => {
            if interfaces.len() > INTERFACES {
                return Err(RecordingError::TooManyInterfaces(place));
            }
            Ok(Some(part))
        }
        Err(fault) => match fault {
            RecordingError::OutOfMemory => {
                // One interface too many is a fault, whether there is memory for it or not.
                if interfaces.len() >= INTERFACES {
                    return Err(RecordingError::TooManyInterfaces(place));
                }
                Err(fault)
            }
            _ => Err(fault),
        },
    }
}

/// How many bytes have to be held before the packet or block at the front is told.
fn wanted(format: Format, held: &[u8]) -> usize
    ensures { result ≡ wanted format held.now }
{
    match format {
        Format::Classic(classic) => wanted_packet(classic, held),
        Format::Blocks(order) => wanted_block(order, held),
    }
}
