//! The packets of classic pcap.
ghost use Rattle.std.specs.Prelude.{◌≡◌, ◌≤◌, Some, None, length, IfOk, IfErr, OnOk};
ghost use Rattle.recording.specs.Classic.{classic_in, packet_fault, packet_len, packet_record, packet_time};
ghost use Rattle.recording.specs.declared.format.Format.TheVariants as formats;
ghost use Rattle.recording.specs.Held.{wanted};
ghost use Rattle.recording.specs.View.{record_at};

use crate::error::RecordingError;
use crate::number::{ByteOrder, u32_at};
use crate::packet::Packet;
use crate::time::{Time, classic_time};

/// The header of a file, but for what is not looked at.
#[derive(Clone, Copy)]
pub(crate) struct Classic {
    /// The order of all numbers.
    pub(crate) order: ByteOrder,
    /// The fraction of a packet's time is in microseconds, else in nanoseconds.
    pub(crate) micro: bool,
    /// The link type of all packets.
    pub(crate) link: u16,
}

/// How many bytes the file's header has.
pub(crate) const HEADER_LEN: usize = 24;

/// What the file's header says. None where the first four bytes are no magic number.
pub(crate) fn classic_in(file: &[u8]) -> Option<Classic>
    requires { 24 ≤ length file.now }
    ensures { result ≡ classic_in file.now }
{
    let (order, micro) = match u32_at(ByteOrder::Big, file, 0) {
        0xa1b2c3d4 => (ByteOrder::Big, true),
        0xa1b23c4d => (ByteOrder::Big, false),
        0xd4c3b2a1 => (ByteOrder::Little, true),
        0x4d3cb2a1 => (ByteOrder::Little, false),
        _ => return None,
    };
    Some(Classic {
        order,
        micro,
        link: (u32_at(order, file, 20) % 0x10000) as u16,
    })
}

/// The packet that these bytes begin with: the rest of a file from a place on.
pub(crate) fn front_packet(
    classic: Classic,
    place: usize,
    rest: &[u8],
) -> Result<Packet, RecordingError>
    ensures fault { IfErr result (λ e. packet_fault classic place rest.now ≡ Some e) }
    ensures none { OnOk result (packet_fault classic place rest.now ≡ None) }
    ensures record { IfOk result (λ packet.
        record_at rest.now packet ≡ packet_record classic rest.now) }
    ensures len { IfOk result (λ packet. packet.end ≡ packet_len classic rest.now) }
    ensures within { IfOk result (λ packet.
        (packet.start ≡ 16) × (16 ≤ packet.end) × (packet.end ≤ length rest.now)) }
{
    if rest.len() < 16 {
        return Err(RecordingError::Truncated(place));
    }
    let end = u32_at(classic.order, rest, 8) as usize + 16;
    if rest.len() < end {
        return Err(RecordingError::Truncated(place));
    }
    Ok(Packet {
        time: Some(packet_time(classic, rest)),
        interface: 0,
        link: classic.link,
        original: u32_at(classic.order, rest, 12),
        start: 16,
        end,
    })
}

/// How many bytes have to be held before the packet at their front is told: those of its head, and then
/// as many as that says.
pub(crate) fn wanted_packet(classic: Classic, held: &[u8]) -> usize
    ensures { result ≡ wanted (formats.Classic classic) held.now }
{
    if held.len() < 16 {
        16
    } else {
        u32_at(classic.order, held, 8) as usize + 16
    }
}

/// The time of the packet at the front.
fn packet_time(classic: Classic, rest: &[u8]) -> Time
    requires { 16 ≤ length rest.now }
    ensures { result ≡ packet_time classic rest.now }
{
    let seconds = u32_at(classic.order, rest, 0);
    let fraction = u32_at(classic.order, rest, 4);
    if classic.micro {
        classic_time(1000, seconds, fraction)
    } else {
        classic_time(1, seconds, fraction)
    }
}
