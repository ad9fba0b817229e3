//! The blocks of pcapng, by their lengths.
ghost use Rattle.std.specs.Prelude.{◌≡◌, ◌≤◌, ◌-◌, Some, None, Ok, Err, length, slice_range, IfOk, IfErr, OnOk};
ghost use Rattle.recording.specs.Blocks.{block_fault, block_in, block_len, block_order, kind_of};
ghost use Rattle.recording.specs.Blocks.{magic_order};
ghost use Rattle.recording.specs.declared.format.Format.TheVariants.{Blocks};
ghost use Rattle.recording.specs.Held.{wanted};
ghost use Rattle.recording.specs.View.{view_block};

use crate::error::RecordingError;
use crate::number::{ByteOrder, u32_at};

/// The type of the head of a section, which is the same in both orders.
pub(crate) const SECTION: u32 = 0x0a0d0d0a;

/// What a block is.
#[derive(Clone, Copy)]
pub(crate) enum BlockKind {
    /// The head of a section.
    Section,
    /// The description of an interface.
    Interface,
    /// A packet, as it was written long ago.
    OldPacket,
    /// A packet without a time.
    SimplePacket,
    /// A packet.
    EnhancedPacket,
    /// Any other, which is skipped.
    Other,
}

/// A block.
#[derive(Clone, Copy)]
pub(crate) struct Block<'a> {
    /// What it is.
    pub(crate) kind: BlockKind,
    /// The order of its numbers.
    pub(crate) order: ByteOrder,
    /// The bytes between its two lengths.
    pub(crate) body: &'a [u8],
}

/// The block that these bytes of a section with this order begin with, and how many of them it has. They
/// are the rest of a file from a place on.
pub(crate) fn front_block(
    order: ByteOrder,
    place: usize,
    rest: &[u8],
) -> Result<(Block<'_>, usize), RecordingError>
    ensures fault { IfErr result (λ e. block_fault order place rest.now ≡ Some e) }
    ensures none { OnOk result (block_fault order place rest.now ≡ None) }
    ensures block { IfOk result (λ r. view_block r.0 ≡ block_in order rest.now) }
    ensures len { IfOk result (λ r. r.1 ≡ block_len order rest.now) }
    ensures within { IfOk result (λ r. (12 ≤ r.1) × (r.1 ≤ length rest.now)) }
    ensures body { IfOk result (λ r. r.0.body.now ≡ slice_range rest.now 8 (r.1 - 4)) }
{
    if rest.len() < 12 {
        return Err(RecordingError::Truncated(place));
    }
    let kind = kind_of(u32_at(order, rest, 0));
    let Some(order) = block_order(order, kind, rest) else {
        return Err(RecordingError::BadOrder(place));
    };
    let size = u32_at(order, rest, 4) as usize;
    if size < 12 || size % 4 != 0 {
        return Err(RecordingError::BlockLength(place));
    }
    if rest.len() < size {
        return Err(RecordingError::Truncated(place));
    }
    if u32_at(order, rest, size - 4) as usize != size {
        return Err(RecordingError::BlockLength(place));
    }
    let body = &rest[8..size - 4];
    Ok((Block { kind, order, body }, size))
}

/// How many bytes of a section with this order have to be held before the block at their front is told:
/// those of its head, and then as many as that says.
pub(crate) fn wanted_block(order: ByteOrder, held: &[u8]) -> usize
    ensures { result ≡ wanted (Blocks order) held.now }
{
    if held.len() < 12 {
        return 12;
    }
    let kind = kind_of(u32_at(order, held, 0));
    let Some(order) = block_order(order, kind, held) else {
        return 12;
    };
    let size = u32_at(order, held, 4) as usize;
    if size < 12 || size % 4 != 0 { 12 } else { size }
}

/// What the block of a type is.
fn kind_of(number: u32) -> BlockKind
    ensures { result ≡ kind_of number }
{
    if number == SECTION {
        BlockKind::Section
    } else if number == 1 {
        BlockKind::Interface
    } else if number == 2 {
        BlockKind::OldPacket
    } else if number == 3 {
        BlockKind::SimplePacket
    } else if number == 6 {
        BlockKind::EnhancedPacket
    } else {
        BlockKind::Other
    }
}

/// The order of a block's numbers: that of the section, or the one that the head of a section says.
/// None where that is no order.
fn block_order(order: ByteOrder, kind: BlockKind, rest: &[u8]) -> Option<ByteOrder>
    requires { 12 ≤ length rest.now }
    ensures { result ≡ block_order order kind rest.now }
{
    match kind {
        BlockKind::Section => magic_order(u32_at(ByteOrder::Big, rest, 8)),
        _ => Some(order),
    }
}

/// The order in which the number 1a2b3c4d stands so.
fn magic_order(number: u32) -> Option<ByteOrder>
    ensures { result ≡ magic_order number }
{
    if number == 0x1a2b3c4d {
        Some(ByteOrder::Big)
    } else if number == 0x4d3c2b1a {
        Some(ByteOrder::Little)
    } else {
        None
    }
}
