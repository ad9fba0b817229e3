//! Values that have no other values in them.

ghost use Rattle.std.specs.Prelude.{◌≡◌, ◌<◌};
ghost use Rattle.std.specs.Int.{cast_signed};
ghost use Rattle.someip_payload_values.specs.Numbers.{width_of, limit_of};
ghost use Rattle.someip_payload_values.specs.Floats.{single, double};
ghost use Rattle.someip_payload_values.specs.Data.{unsigned, signed, float, bool, string, padded};
ghost use Rattle.someip_payload_values.specs.View.{data_of};
ghost use Rattle.someip_payload_codec.specs.View.{seen};
ghost use Rattle.someip_payload_values.specs.Steps.{Gives};
ghost use Rattle.someip_payload_codec.specs.Reading.{data_at, data_by};

use crate::fields::{body, front, number, ordered};
use crate::text::{padded, text};
use crate::window::Window;
use someip_payload_values::{Encoding, Order, PayloadError, Size, Value, Width};
use std::alloc::Global;

/// A byte, of which the lowest bit counts.
#[tactic(auto, unfolding(crate::specs::Reading::data_by))]
pub(crate) fn truth(window: Window<'_>) -> Result<(Value, Window<'_>), PayloadError>
    ensures { Gives (λ x. (data_of x.0, seen x.1)) result (data_at bool (seen window.entry)) }
{
    let (n, rest) = number(Size::S8, window)?;
    Ok((Value::Bool(n % 2 == 1), rest))
}

/// A number of a size, in an order of its bytes.
#[tactic(auto, unfolding(crate::specs::Reading::data_by))]
pub(crate) fn unsigned(
    order: Order,
    size: Size,
    window: Window<'_>,
) -> Result<(Value, Window<'_>), PayloadError>
    ensures { Gives (λ x. (data_of x.0, seen x.1)) result (data_at (unsigned order size) (seen window.entry)) }
{
    let (n, rest) = ordered(order, size, window)?;
    Ok((Value::Uint(n), rest))
}

/// A number in two's complement.
#[tactic(auto, unfolding(crate::specs::Reading::data_by))]
pub(crate) fn signed(
    order: Order,
    size: Size,
    window: Window<'_>,
) -> Result<(Value, Window<'_>), PayloadError>
    ensures { Gives (λ x. (data_of x.0, seen x.1)) result (data_at (signed order size) (seen window.entry)) }
{
    let (n, rest) = ordered(order, size, window)?;
    Ok((Value::Int(signed_of(size, n)), rest))
}

/// The bits of a float in 32 bits.
#[tactic(auto, unfolding(crate::specs::Reading::data_by))]
pub(crate) fn single(order: Order, window: Window<'_>) -> Result<(Value, Window<'_>), PayloadError>
    ensures { Gives (λ x. (data_of x.0, seen x.1)) result (data_at (float order single) (seen window.entry)) }
{
    let (bits, rest) = ordered(order, Size::S32, window)?;
    Ok((Value::F32(bits as u32), rest))
}

/// The bits of a float in 64 bits.
#[tactic(auto, unfolding(crate::specs::Reading::data_by))]
pub(crate) fn double(order: Order, window: Window<'_>) -> Result<(Value, Window<'_>), PayloadError>
    ensures { Gives (λ x. (data_of x.0, seen x.1)) result (data_at (float order double) (seen window.entry)) }
{
    let (bits, rest) = ordered(order, Size::S64, window)?;
    Ok((Value::F64(bits), rest))
}

/// The text of the body after a length field of that width.
#[tactic(auto, unfolding(crate::specs::Reading::data_by))]
pub(crate) fn string(
    alloc: Global,
    encoding: Encoding,
    width: Width,
    window: Window<'_>,
) -> Result<(Value, Window<'_>), PayloadError>
    ensures { Gives (λ x. (data_of x.0, seen x.1)) result (data_by width (string encoding width) (seen window.entry)) }
{
    let (body, rest) = body(width, window)?;
    let text = text(alloc, encoding, window.place, body.bytes)?;
    Ok((Value::Text(text), rest))
}

/// The text of exactly so many bytes.
#[tactic(auto, unfolding(crate::specs::Reading::data_by))]
pub(crate) fn fixed_text(
    alloc: Global,
    encoding: Encoding,
    len: u32,
    window: Window<'_>,
) -> Result<(Value, Window<'_>), PayloadError>
    ensures { Gives (λ x. (data_of x.0, seen x.1)) result (data_at (padded encoding len) (seen window.entry)) }
{
    let (bytes, rest) = front(window, len as usize)?;
    let text = padded(alloc, encoding, window.place, bytes)?;
    Ok((Value::Text(text), rest))
}

/// The signed number whose two's complement has these bits.
fn signed_of(size: Size, n: u64) -> i64
    requires { n < limit_of size }
    ensures { result ≡ cast_signed (width_of size) n }
{
    match size {
        Size::S8 => i64::from((n as u8).cast_signed()),
        Size::S16 => i64::from((n as u16).cast_signed()),
        Size::S32 => i64::from((n as u32).cast_signed()),
        Size::S64 => n.cast_signed(),
    }
}
