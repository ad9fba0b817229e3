//! Packets that are remembered.
ghost use Rattle.std.specs.Prelude.{◌≡◌, IfOk, drop};
ghost use Rattle.recording.specs.View.{view_ipv4};
ghost use Rattle.recording_packets.specs.copies.Marks.{first_word, mark_of, mixed};
ghost use Rattle.recording_packets.specs.copies.Owned.{packet_of};
ghost use Rattle.recording_packets.specs.copies.Remembered.{is_same};

use recording::Ipv4Packet;
use std::alloc::{AllocError, Global};
use std::rc::Rc;

/// A packet with a payload of its own.
#[derive(Drop, PartialEq, Eq, PartialOrd, Ord)]
pub(crate) struct OwnedPacket {
    pub(crate) identification: u16,
    pub(crate) fragment: u16,
    pub(crate) protocol: u8,
    pub(crate) payload: Vec<u8>,
    pub(crate) source: [u8; 4],
    pub(crate) destination: [u8; 4],
}

impl OwnedPacket {
    /// Whether nothing tells two packets apart.
    fn is_same(&self, other: &OwnedPacket) -> bool
        ensures { result ≡ is_same (packet_of self.now) (packet_of other.now) }
    {
        self.identification == other.identification
            && self.fragment == other.fragment
            && self.protocol == other.protocol
            && self.payload == other.payload
            && self.source == other.source
            && self.destination == other.destination
    }
}

/// A packet that two tables share, and a digest of it, so that few payloads are compared.
#[derive(Drop, PartialEq, Eq, PartialOrd, Ord)]
pub(crate) struct SharedPacket {
    pub(crate) mark: u64,
    pub(crate) owned: Rc<OwnedPacket>,
    ghost marked: { mark ≡ mark_of (packet_of owned.value) },
}

impl SharedPacket {
    /// The packet, with a copy of its payload.
    pub(crate) fn new(alloc: Global, packet: &Ipv4Packet) -> Result<SharedPacket, AllocError>
        ensures { IfOk result (λ shared. packet_of shared.owned.value ≡ view_ipv4 packet.now) }
    {
        let owned = OwnedPacket {
            identification: packet.identification,
            fragment: packet.fragment,
            protocol: packet.protocol,
            payload: Vec::from_slice(alloc, packet.payload)?,
            source: packet.source,
            destination: packet.destination,
        };
        Ok(SharedPacket {
            mark: mark_of(packet),
            owned: Rc::new(alloc, owned)?,
        })
    }

    /// Whether nothing tells two packets apart.
    pub(crate) fn is_same(&self, other: &SharedPacket) -> bool
        ensures { result ≡ is_same (packet_of self.now.owned.value) (packet_of other.now.owned.value) }
    {
        self.mark == other.mark && self.owned.is_same(&other.owned)
    }

    /// The same packet, shared once more. The payload is not copied.
    pub(crate) fn share(&self) -> Result<SharedPacket, AllocError>
        ensures { IfOk result (λ shared. shared.owned.value ≡ self.now.owned.value) }
    {
        Ok(SharedPacket {
            mark: self.mark,
            owned: self.owned.clone()?,
        })
    }
}

/// A digest of a packet: of its header, and of the first 24 and the last 8 bytes of its payload. Packets
/// can be made which have one digest.
fn mark_of(packet: &Ipv4Packet) -> u64
    ensures { result ≡ mark_of (view_ipv4 packet.now) }
{
    let payload = packet.payload;
    let header = u64::from(packet.identification) * 0x1_0000 + u64::from(packet.fragment);
    let mark = mixed(header, u64::from(u32::from_be_bytes(packet.source)));
    let mark = mixed(mark, first_word(payload));
    let mark = mixed(mark, word_at(payload, 8));
    let mark = mixed(mark, word_at(payload, 16));
    mixed(mark, word_at(payload, payload.len().saturating_sub(8)))
}

/// A digest, and a word more. The product brings each bit of both to the highest bits.
fn mixed(mark: u64, word: u64) -> u64
    ensures { result ≡ mixed mark word }
{
    (mark ^ word).wrapping_mul(0x9e37_79b9_7f4a_7c15)
}

/// Eight bytes of a payload as a number, or 0 where it ends before.
fn word_at(payload: &[u8], at: usize) -> u64
    ensures { result ≡ first_word (drop at payload.now) }
{
    if at > payload.len() {
        return 0;
    }
    first_word(&payload[at..])
}

/// The first eight bytes as a number, or 0 where there are fewer.
fn first_word(bytes: &[u8]) -> u64
    ensures { result ≡ first_word bytes.now }
{
    if bytes.len() < 8 {
        return 0;
    }
    u64::from_le_bytes([
        bytes[0], bytes[1], bytes[2], bytes[3], bytes[4], bytes[5], bytes[6], bytes[7],
    ])
}
