//! A packet by where it lies in the bytes that are held.
ghost use Rattle.std.specs.Prelude.{◌≡◌, ◌≤◌, ◌<◌, ◌+◌, ◌^◌, length, IfSome, option_map};
ghost use Rattle.recording.specs.View.{view_record, record_at, packet_behind};

use crate::record::Record;
use crate::time::Time;

/// A packet as it was captured, by where its bytes lie.
#[derive(Clone, Copy)]
pub(crate) struct Packet {
    /// When it was recorded, where that is said.
    pub(crate) time: Option<Time>,
    /// The number of its interface.
    pub(crate) interface: usize,
    /// Its link type.
    pub(crate) link: u16,
    /// How many bytes it had before it was captured.
    pub(crate) original: u32,
    /// Where its first byte lies.
    pub(crate) start: usize,
    /// The place after its last byte.
    pub(crate) end: usize,
}

/// A packet, if there is one, by where it lies in bytes of which so many stand before those that its
/// places count.
pub(crate) fn behind(packet: Option<Packet>, len: usize) -> Option<Packet>
    requires { IfSome packet (λ k. (k.start ≤ k.end) × (k.end + len < 2 ^ 64)) }
    ensures { result ≡ option_map (packet_behind len) packet }
{
    match packet {
        Some(packet) => Some(Packet {
            start: packet.start + len,
            end: packet.end + len,
            ..packet
        }),
        None => None,
    }
}

/// The packet that lies in these bytes.
pub(crate) fn record_at(bytes: &[u8], packet: Packet) -> Record<'_>
    requires { (packet.start ≤ packet.end) × (packet.end ≤ length bytes.now) }
    ensures { view_record result ≡ record_at bytes.now packet }
{
    Record {
        time: packet.time,
        interface: packet.interface,
        link: packet.link,
        original: packet.original,
        bytes: &bytes[packet.start..packet.end],
    }
}
