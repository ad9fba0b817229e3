//! Numbers as bytes.

ghost use Rattle.std.specs.Prelude.{◌≡◌, ◌<◌, ◌++◌, ◌↔◌, true, IsTrue, OnOk};
ghost use Rattle.std.specs.Int.{cast_unsigned};
ghost use Rattle.someip_payload_values.specs.Numbers.{is_signed, width_of, limit_of, size_of, number, number_in};

use crate::shape::Width;
use std::alloc::AllocError;

/// How many bits a number has.
#[derive(Clone, Copy)]
pub enum Size {
    S8,
    S16,
    S32,
    S64,
}

/// Which byte of a number comes first.
#[derive(Clone, Copy)]
pub enum Order {
    /// The highest one.
    Big,
    /// The lowest one.
    Little,
}

/// How many bits a length field has.
pub fn size_of(width: Width) -> Size
    ensures { result ≡ size_of width }
{
    match width {
        Width::W8 => Size::S8,
        Width::W16 => Size::S16,
        Width::W32 => Size::S32,
    }
}

/// Whether a number of this size can have the value.
pub(crate) fn has_number(size: Size, n: u64) -> bool
    ensures { IsTrue result ↔ (n < limit_of size) }
{
    match size {
        Size::S8 => n < 0x100,
        Size::S16 => n < 0x1_0000,
        Size::S32 => n < 0x1_0000_0000,
        Size::S64 => true,
    }
}

/// Whether a signed number of this size can have the value.
pub(crate) fn has_signed(size: Size, z: i64) -> bool
    ensures { result ≡ is_signed size z }
{
    match size {
        Size::S8 => -0x80 <= z && z < 0x80,
        Size::S16 => -0x8000 <= z && z < 0x8000,
        Size::S32 => -0x8000_0000 <= z && z < 0x8000_0000,
        Size::S64 => true,
    }
}

/// The bits of a signed number in two's complement.
pub(crate) fn bits_of(size: Size, z: i64) -> u64
    requires { is_signed size z ≡ true }
    ensures { result ≡ cast_unsigned (width_of size) z }
{
    match size {
        Size::S8 => u64::from((z as i8).cast_unsigned()),
        Size::S16 => u64::from((z as i16).cast_unsigned()),
        Size::S32 => u64::from((z as i32).cast_unsigned()),
        Size::S64 => z.cast_unsigned(),
    }
}

/// Adds a number that the size can have, in an order of its bytes.
pub(crate) fn put_in(order: Order, size: Size, n: u64, out: &mut Vec<u8>) -> Result<(), AllocError>
    requires { n < limit_of size }
    ensures { OnOk result (out.new.items ≡ out.old.items ++ number_in order size n) }
{
    match (order, size) {
        (Order::Big, _) => put_bytes(size, n, out),
        (Order::Little, Size::S8) => out.extend_from_slice(&[n as u8]),
        (Order::Little, Size::S16) => out.extend_from_slice(&(n as u16).to_le_bytes()),
        (Order::Little, Size::S32) => out.extend_from_slice(&(n as u32).to_le_bytes()),
        (Order::Little, Size::S64) => out.extend_from_slice(&n.to_le_bytes()),
    }
}

/// Adds a number that the size can have, from its highest byte on.
pub(crate) fn put_bytes(size: Size, n: u64, out: &mut Vec<u8>) -> Result<(), AllocError>
    requires { n < limit_of size }
    ensures { OnOk result (out.new.items ≡ out.old.items ++ number size n) }
{
    match size {
        Size::S8 => out.extend_from_slice(&[n as u8]),
        Size::S16 => out.extend_from_slice(&(n as u16).to_be_bytes()),
        Size::S32 => out.extend_from_slice(&(n as u32).to_be_bytes()),
        Size::S64 => out.extend_from_slice(&n.to_be_bytes()),
    }
}
