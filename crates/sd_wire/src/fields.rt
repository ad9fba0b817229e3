//! Numbers in fields, the highest byte first.
ghost use Rattle.std.specs.Prelude.{◌≡◌, ◌≤◌, ◌+◌, ◌<◌, ◌^◌, length};
ghost use Rattle.sd_wire.specs.layout.Fields.{field16, field24, field32};

/// The number in the two bytes at a place.
pub(crate) fn u16_at(bytes: &[u8], i: usize) -> u16
    requires { i + 2 ≤ length bytes.now }
    ensures { result ≡ field16 bytes.now i }
{
    u16::from_be_bytes([bytes[i], bytes[i + 1]])
}

/// The number in the three bytes at a place.
pub(crate) fn u24_at(bytes: &[u8], i: usize) -> u32
    requires { i + 3 ≤ length bytes.now }
    ensures value { result ≡ field24 bytes.now i }
    ensures fits { result < 2 ^ 24 }
{
    u32::from_be_bytes([0, bytes[i], bytes[i + 1], bytes[i + 2]])
}

/// The number in the four bytes at a place.
pub(crate) fn u32_at(bytes: &[u8], i: usize) -> u32
    requires { i + 4 ≤ length bytes.now }
    ensures { result ≡ field32 bytes.now i }
{
    u32::from_be_bytes([bytes[i], bytes[i + 1], bytes[i + 2], bytes[i + 3]])
}
