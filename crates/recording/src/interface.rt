//! The interfaces of a pcapng section.
//!
//! An option of an interface that has not the length that it should have is as if it were not there, and
//! one that passes its block ends the options. The first of two counts.
ghost use Rattle.std.specs.Prelude.{◌≡◌, ◌≤◌, ◌+◌, ◌*◌, Some, None, IfSome, IfNone, length};
ghost use Rattle.recording.specs.Interfaces.{interface_in, option_in, resolution_in, offset_in};

use crate::number::{ByteOrder, u16_at, u32_at, u64_in};

/// An interface.
#[derive(Clone, Copy)]
pub(crate) struct Interface {
    /// The link type of its packets.
    pub(crate) link: u16,
    /// How many bytes of a packet are captured at most, or 0 where there is no limit.
    pub(crate) snap: u32,
    /// The resolution of times: 10^-n seconds, or 2^-n where the highest bit is set.
    pub(crate) resolution: u8,
    /// The seconds that are added to times, a signed number in 64 bits.
    pub(crate) offset: u64,
}

/// The interface that the body of a block describes.
pub(crate) fn interface_in(order: ByteOrder, body: &[u8]) -> Interface
    requires { 8 ≤ length body.now }
    ensures { result ≡ interface_in order body.now }
{
    let options = &body[8..];
    Interface {
        link: u16_at(order, body, 0),
        snap: u32_at(order, body, 4),
        resolution: resolution_in(order, options),
        offset: offset_in(order, options),
    }
}

/// The resolution of times: `if_tsresol`, else microseconds.
fn resolution_in(order: ByteOrder, options: &[u8]) -> u8
    ensures { result ≡ resolution_in order options.now }
{
    match option_in(order, 9, options) {
        Some(value) => { if value.len() == 1 { value[0] } else { 6 } }
        None => 6,
    }
}

/// The seconds that are added to times: `if_tsoffset`, else none.
fn offset_in(order: ByteOrder, options: &[u8]) -> u64
    ensures { result ≡ offset_in order options.now }
{
    match option_in(order, 14, options) {
        Some(value) => {
            if value.len() == 8 {
                u64_in(order, value)
            } else {
                0
            }
        }
        None => 0,
    }
}

/// The value of the first option with a code, if the options have one.
fn option_in(order: ByteOrder, code: u16, options: &[u8]) -> Option<&[u8]>
    ensures some { IfSome result (λ value. option_in order code options.now ≡ Some value.now) }
    ensures none { IfNone result (option_in order code options.now ≡ None) }
{
    let mut place = 0;
    while place < options.len() {
        let rest = &options[place..];
        if rest.len() < 4 {
            return None;
        }
        let found = u16_at(order, rest, 0);
        let size = u16_at(order, rest, 2) as usize;
        if found == 0 || rest.len() < 4 + size {
            return None;
        }
        if found == code {
            return Some(&rest[4..4 + size]);
        }
        place += 4 + (size + 3) / 4 * 4;
    }
    None
}
