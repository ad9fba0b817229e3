//! Numbers in the two orders of bytes.
ghost use Rattle.std.specs.Prelude.{◌≡◌, ◌≤◌, ◌+◌, length};
ghost use Rattle.recording.specs.Numbers.{network16, number16, number32, number64};

/// In which order the bytes of a number stand.
#[derive(Clone, Copy)]
pub(crate) enum ByteOrder {
    /// The highest byte first.
    Big,
    /// The lowest byte first.
    Little,
}

/// The number in the two bytes at a place, the highest byte first, as the network's protocols have it.
pub(crate) fn network_u16_at(bytes: &[u8], i: usize) -> u16
    requires { i + 2 ≤ length bytes.now }
    ensures { result ≡ network16 bytes.now i }
{
    u16::from_be_bytes([bytes[i], bytes[i + 1]])
}

/// The number in the two bytes at a place.
pub(crate) fn u16_at(order: ByteOrder, bytes: &[u8], i: usize) -> u16
    requires { i + 2 ≤ length bytes.now }
    ensures { result ≡ number16 order bytes.now i }
{
    let field = [bytes[i], bytes[i + 1]];
    match order {
        ByteOrder::Big => u16::from_be_bytes(field),
        ByteOrder::Little => u16::from_le_bytes(field),
    }
}

/// The number in the four bytes at a place.
pub(crate) fn u32_at(order: ByteOrder, bytes: &[u8], i: usize) -> u32
    requires { i + 4 ≤ length bytes.now }
    ensures { result ≡ number32 order bytes.now i }
{
    let field = [bytes[i], bytes[i + 1], bytes[i + 2], bytes[i + 3]];
    match order {
        ByteOrder::Big => u32::from_be_bytes(field),
        ByteOrder::Little => u32::from_le_bytes(field),
    }
}

/// The number in the first eight bytes.
pub(crate) fn u64_in(order: ByteOrder, b: &[u8]) -> u64
    requires { 8 ≤ length b.now }
    ensures { result ≡ number64 order b.now }
{
    let field = [b[0], b[1], b[2], b[3], b[4], b[5], b[6], b[7]];
    match order {
        ByteOrder::Big => u64::from_be_bytes(field),
        ByteOrder::Little => u64::from_le_bytes(field),
    }
}
