//! What a fragment says: of which packet it is, and which bytes of its payload it has.
ghost use Rattle.std.specs.Prelude.{◌≡◌, ◌≤◌};
ghost use Rattle.recording.specs.View.{view_ipv4};
ghost use Rattle.recording_packets.specs.fragments.Pieces.{key_of, same_key, piece_of, end_of};
ghost use Rattle.recording_packets.specs.fragments.Pieces.{is_too_long};

use recording::Ipv4Packet;

/// What tells the fragments of one packet from those of another (RFC 791, section 2.3).
#[derive(Clone, Copy, Debug, PartialEq, Eq)]
pub struct PacketKey {
    /// The four bytes of the source address.
    pub source: [u8; 4],
    /// The four bytes of the destination address.
    pub destination: [u8; 4],
    /// Identification.
    pub identification: u16,
}

impl PacketKey {
    /// The key of a packet.
    pub fn new(packet: &Ipv4Packet<'_>) -> PacketKey
        ensures { result ≡ key_of (view_ipv4 packet.now) }
    {
        PacketKey {
            source: packet.source,
            destination: packet.destination,
            identification: packet.identification,
        }
    }

    /// Whether the two are one key.
    pub fn is_same(&self, other: &PacketKey) -> bool
        ensures { result ≡ same_key self.now other.now }
    {
        self.source == other.source
            && self.destination == other.destination
            && self.identification == other.identification
    }
}

/// A piece of a payload.
#[derive(Clone, Copy)]
pub(crate) struct Piece<'a> {
    /// Where its first byte stands.
    pub(crate) offset: usize,
    /// No piece follows it.
    pub(crate) last: bool,
    /// Its bytes.
    pub(crate) bytes: &'a [u8],
}

impl Piece<'_> {
    ghost use Rattle.recording_packets.specs.fragments.Views.{view_piece};

    /// The piece that a packet carries.
    pub(crate) fn new<'a>(packet: &Ipv4Packet<'a>) -> Piece<'a>
        ensures { view_piece result ≡ piece_of (view_ipv4 packet.now) }
    {
        Piece {
            offset: 8 * usize::from(packet.fragment % 0x2000),
            last: packet.fragment % 0x4000 < 0x2000,
            bytes: packet.payload,
        }
    }

    /// The place after its last byte.
    pub(crate) fn end(&self) -> usize
        requires { self.now.offset ≤ 65535 }
        ensures { result ≡ end_of (view_piece self.now) }
    {
        self.offset + self.bytes.len()
    }
}
