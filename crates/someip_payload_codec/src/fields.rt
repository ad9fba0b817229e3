//! Numbers and bodies at the front of a window.
//!
//! A skipped item that passes the end of the structure's body is `LengthMismatch` at the first byte after
//! its tag: its length field, or its value where it has none. Items of a Data ID that no member has may
//! come any number of times.

ghost use Rattle.std.specs.Prelude.{◌≡◌, ◌+◌, ◌<◌, length, IfOk};
ghost use Rattle.std.specs.Int.{byte_len, from_be_bytes, from_le_bytes};
ghost use Rattle.someip_payload_values.specs.Numbers.{limit_of, width_of};
ghost use Rattle.someip_payload_values.specs.Steps.{Gives};
ghost use Rattle.someip_payload_codec.specs.View.{seen};
ghost use Rattle.someip_payload_codec.specs.Reading.{short_at, front_at, ordered_at, number_at, window_at, body_at, tag_at, skip_at};

use crate::window::Window;
use someip_payload_values::{Order, PayloadError, Size, Tag, Width, WireType, size_of, tag_in};

/// Something at the front passes the end of the window.
pub(crate) fn short(window: Window<'_>) -> PayloadError
    ensures { result ≡ short_at (seen window.entry) }
{
    if window.is_body {
        PayloadError::LengthMismatch(window.place)
    } else {
        PayloadError::Truncated(window.place)
    }
}

/// So many bytes at the front.
pub(crate) fn front(window: Window<'_>, count: usize) -> Result<(&[u8], Window<'_>), PayloadError>
    ensures exact { Gives (λ x. (x.0.now, seen x.1)) result (front_at count (seen window.entry)) }
    ensures len { IfOk result (λ x. length x.0.now ≡ count) }
{
    if window.bytes.len() < count {
        return Err(short(window));
    }
    let (bytes, rest) = window.bytes.split_at(count);
    Ok((
        bytes,
        Window {
            bytes: rest,
            place: window.place + count,
            is_body: window.is_body,
        },
    ))
}

/// The number of a size, from its highest byte on.
pub(crate) fn number(size: Size, window: Window<'_>) -> Result<(u64, Window<'_>), PayloadError>
    ensures exact { Gives (λ x. (x.0, seen x.1)) result (number_at size (seen window.entry)) }
    ensures below { IfOk result (λ x. x.0 < limit_of size) }
{
    ordered(Order::Big, size, window)
}

/// The number of a size, in an order of its bytes.
#[tactic(auto, unfolding(crate::specs::Reading::ordered_at))]
pub(crate) fn ordered(
    order: Order,
    size: Size,
    window: Window<'_>,
) -> Result<(u64, Window<'_>), PayloadError>
    ensures exact { Gives (λ x. (x.0, seen x.1)) result (ordered_at order size (seen window.entry)) }
    ensures below { IfOk result (λ x. x.0 < limit_of size) }
{
    let (bytes, rest) = front(window, byte_len(size))?;
    let number = match order {
        Order::Big => big_endian(size, bytes),
        Order::Little => little_endian(size, bytes),
    };
    Ok((number, rest))
}

/// How many bytes a number of this size has.
fn byte_len(size: Size) -> usize
    ensures { result ≡ byte_len (width_of size) }
{
    match size {
        Size::S8 => 1,
        Size::S16 => 2,
        Size::S32 => 4,
        Size::S64 => 8,
    }
}

/// The number that has these bytes, from its lowest on.
fn little_endian(size: Size, bytes: &[u8]) -> u64
    requires { length bytes.now ≡ byte_len (width_of size) }
    ensures exact { result ≡ from_le_bytes (width_of size) bytes.now }
    ensures below { result < limit_of size }
{
    match size {
        Size::S8 => u64::from(bytes[0]),
        Size::S16 => u64::from(u16::from_le_bytes([bytes[0], bytes[1]])),
        Size::S32 => u64::from(u32::from_le_bytes([bytes[0], bytes[1], bytes[2], bytes[3]])),
        Size::S64 => u64::from_le_bytes([
            bytes[0], bytes[1], bytes[2], bytes[3], bytes[4], bytes[5], bytes[6], bytes[7],
        ]),
    }
}

/// The number that has these bytes, from its highest on.
fn big_endian(size: Size, bytes: &[u8]) -> u64
    requires { length bytes.now ≡ byte_len (width_of size) }
    ensures exact { result ≡ from_be_bytes (width_of size) bytes.now }
    ensures below { result < limit_of size }
{
    match size {
        Size::S8 => u64::from(bytes[0]),
        Size::S16 => u64::from(u16::from_be_bytes([bytes[0], bytes[1]])),
        Size::S32 => u64::from(u32::from_be_bytes([bytes[0], bytes[1], bytes[2], bytes[3]])),
        Size::S64 => u64::from_be_bytes([
            bytes[0], bytes[1], bytes[2], bytes[3], bytes[4], bytes[5], bytes[6], bytes[7],
        ]),
    }
}

/// The body of so many bytes, whose length field stands at the start, and what comes after it.
#[tactic(auto, unfolding(crate::specs::Reading::window_at))]
pub(crate) fn sized<'a>(
    len: u64,
    start: Window<'a>,
    rest: Window<'a>,
) -> Result<(Window<'a>, Window<'a>), PayloadError>
    ensures { Gives (λ x. (seen x.0, seen x.1)) result (window_at len (seen start.entry) (seen rest.entry)) }
{
    let len = len as usize;
    if rest.bytes.len() < len {
        return Err(short(start));
    }
    let (bytes, after) = rest.bytes.split_at(len);
    Ok((
        Window {
            bytes,
            place: rest.place,
            is_body: true,
        },
        Window {
            bytes: after,
            place: rest.place + len,
            is_body: rest.is_body,
        },
    ))
}

/// The body after a length field, and what comes after it.
#[tactic(auto, unfolding(crate::specs::Reading::body_at))]
pub(crate) fn body(
    width: Width,
    window: Window<'_>,
) -> Result<(Window<'_>, Window<'_>), PayloadError>
    ensures { Gives (λ x. (seen x.0, seen x.1)) result (body_at width (seen window.entry)) }
{
    let (len, rest) = number(size_of(width), window)?;
    sized(len, window, rest)
}

/// The tag of an item.
#[tactic(auto, unfolding(crate::specs::Reading::tag_at))]
pub(crate) fn tag(window: Window<'_>) -> Result<(Tag, Window<'_>), PayloadError>
    ensures { Gives (λ x. (x.0, seen x.1)) result (tag_at (seen window.entry)) }
{
    let (number, rest) = number(Size::S16, window)?;
    Ok((tag_in(number as u16), rest))
}

/// What comes after an item that is skipped, whose tag was read. Nothing in it is looked at but its
/// length field, which has 32 bits where only the shape would tell.
#[tactic(auto, unfolding(crate::specs::Reading::skip_at))]
pub(crate) fn skipped(wire_type: WireType, window: Window<'_>) -> Result<Window<'_>, PayloadError>
    ensures { Gives seen result (skip_at wire_type (seen window.entry)) }
{
    match wire_type {
        WireType::Basic(size) => Ok(number(size, window)?.1),
        WireType::OwnLength => Ok(body(Width::W32, window)?.1),
        WireType::Length(width) => Ok(body(width, window)?.1),
    }
}
