//! What the blocks of a pcapng section say.
ghost use Rattle.std.specs.Prelude.{◌≡◌, ◌≤◌, ◌+◌, Some, None, Ok, Err, length, IfOk, IfErr, OnOk, OnErr};
ghost use Rattle.recording.specs.Sections.{meaning_of, interfaces_after, least_body, simple_record};
ghost use Rattle.recording.specs.Sections.{IsDescription};
ghost use Rattle.recording.specs.Sections.{timed_record, block_time, captured_len};
ghost use Rattle.recording.specs.View.{view_block, given_in, LiesIn};
ghost use Rattle.recording.specs.Steps.{Fails, OnMemory};

use crate::block::{Block, BlockKind};
use crate::error::RecordingError;
use crate::interface::{Interface, interface_in};
use crate::number::{u16_at, u32_at};
use crate::packet::Packet;
use crate::time::{Time, tick_time};

/// Takes a block, at this place of the file, into its section, and gives the packet in its body, if one
/// is.
pub(crate) fn take_block(
    interfaces: &mut Vec<Interface>,
    place: usize,
    block: &Block<'_>,
) -> Result<Option<Packet>, RecordingError>
    ensures ok { IfOk result (λ packet. meaning_of interfaces.old.items place (view_block block.now)
        ≡ Ok (given_in block.now.body.now packet)) }
    ensures within { IfOk result (LiesIn block.now.body.now) }
    ensures after { OnOk result
        (interfaces.new.items ≡ interfaces_after interfaces.old.items (view_block block.now)) }
    ensures err { IfErr result (λ e.
        Fails e (meaning_of interfaces.old.items place (view_block block.now))) }
    ensures memory { IfErr result (λ e. OnMemory e (IsDescription (view_block block.now))) }
    ensures kept { OnErr result (interfaces.new.items ≡ interfaces.old.items) }
{
    if block.body.len() < least_body(block.kind) {
        return Err(RecordingError::BlockLength(place));
    }
    match block.kind {
        BlockKind::Section => {
            interfaces.clear();
            Ok(None)
        }
        BlockKind::Interface => {
            interfaces.push(interface_in(block.order, block.body))?;
            Ok(None)
        }
        BlockKind::OldPacket => {
            let index = u16_at(block.order, block.body, 0) as usize;
            timed_packet(interfaces, place, block, index)
        }
        BlockKind::EnhancedPacket => {
            let index = u32_at(block.order, block.body, 0) as usize;
            timed_packet(interfaces, place, block, index)
        }
        BlockKind::SimplePacket => simple_packet(interfaces, place, block),
        BlockKind::Other => Ok(None),
    }
}

/// How many bytes the body of a block has at least.
fn least_body(kind: BlockKind) -> usize
    ensures { result ≡ least_body kind }
{
    match kind {
        BlockKind::Section => 16,
        BlockKind::Interface => 8,
        BlockKind::OldPacket => 20,
        BlockKind::SimplePacket => 4,
        BlockKind::EnhancedPacket => 20,
        BlockKind::Other => 0,
    }
}

/// The packet with a time, of the interface with this number.
fn timed_packet(
    interfaces: &[Interface],
    place: usize,
    block: &Block<'_>,
    index: usize,
) -> Result<Option<Packet>, RecordingError>
    requires { 20 ≤ length block.now.body.now }
    ensures ok { IfOk result (λ packet. timed_record interfaces.now place (view_block block.now) index
        ≡ Ok (given_in block.now.body.now packet)) }
    ensures within { IfOk result (LiesIn block.now.body.now) }
    ensures err { IfErr result (λ e.
        timed_record interfaces.now place (view_block block.now) index ≡ Err e) }
{
    let (order, body) = (block.order, block.body);
    let end = 20 + u32_at(order, body, 12) as usize;
    if body.len() < end {
        return Err(RecordingError::BlockLength(place));
    }
    let Some(interface) = interfaces.get(index) else {
        return Err(RecordingError::UnknownInterface(place));
    };
    let time = block_time(*interface, block);
    Ok(Some(Packet {
        time: Some(time),
        interface: index,
        link: interface.link,
        original: u32_at(order, body, 16),
        start: 20,
        end,
    }))
}

/// The time of a packet with one: the upper half of the ticks stands first, in either order.
fn block_time(interface: Interface, block: &Block<'_>) -> Time
    requires { 20 ≤ length block.now.body.now }
    ensures { result ≡ block_time interface (view_block block.now) }
{
    let upper = u64::from(u32_at(block.order, block.body, 4));
    let lower = u64::from(u32_at(block.order, block.body, 8));
    tick_time(
        interface.resolution,
        interface.offset,
        upper * 0x1_0000_0000 + lower,
    )
}

/// The packet without a time, which is of the first interface.
fn simple_packet(
    interfaces: &[Interface],
    place: usize,
    block: &Block<'_>,
) -> Result<Option<Packet>, RecordingError>
    requires { 4 ≤ length block.now.body.now }
    ensures ok { IfOk result (λ packet. simple_record interfaces.now place (view_block block.now)
        ≡ Ok (given_in block.now.body.now packet)) }
    ensures within { IfOk result (LiesIn block.now.body.now) }
    ensures err { IfErr result (λ e.
        simple_record interfaces.now place (view_block block.now) ≡ Err e) }
{
    let Some(interface) = interfaces.get(0) else {
        return Err(RecordingError::UnknownInterface(place));
    };
    let original = u32_at(block.order, block.body, 0);
    let size = captured_len(interface.snap, original, block.body.len() - 4);
    Ok(Some(Packet {
        time: None,
        interface: 0,
        link: interface.link,
        original,
        start: 4,
        end: 4 + size,
    }))
}

/// How many bytes of a packet were captured: all, but at most what the interface has for a limit, where
/// it has one, and at most what the block holds.
fn captured_len(snap: u32, original: u32, room: usize) -> usize
    ensures value { result ≡ captured_len snap original room }
    ensures within { result ≤ room }
{
    let size = (original as usize).min(room);
    if snap == 0 {
        size
    } else {
        size.min(snap as usize)
    }
}
