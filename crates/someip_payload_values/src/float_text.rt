//! Texts of floats.

ghost use Rattle.std.specs.Prelude.{◌≡◌, ◌++◌, ◌*◌, codes, false, length, from_bits};
ghost use Rattle.std.specs.Float.{binary32, binary64};
ghost use Rattle.std.specs.Float.Ieee.{nan_bits};
ghost use Rattle.std.specs.Fmt.{WritesOnOk};
ghost use Rattle.hex.specs.Hex.{encode_lower};
ghost use Rattle.someip_payload_values.specs.Floats.{SaysBits, single, double};
ghost use Rattle.someip_payload_values.specs.ToldText.{WritesSome};

use std::fmt;

/// The text of the float with these bits: the shortest that is read as it again, `inf` or `-inf`, or the
/// bits of a NaN.
pub(crate) fn write_single<W: fmt::Write>(f: &mut fmt::Formatter<W>, bits: u32) -> fmt::Result
    ensures { WritesSome W.write_str_gives f.old result (SaysBits single bits) f.new }
{
    if is_single_nan(bits) {
        let mut digits = [0; 8];
        return write_nan(f, &bits.to_be_bytes(), &mut digits);
    }
    f.write_str(ryu::Buffer::new().format(single_of(bits)))
}

/// The same of a float in 64 bits.
pub(crate) fn write_double<W: fmt::Write>(f: &mut fmt::Formatter<W>, bits: u64) -> fmt::Result
    ensures { WritesSome W.write_str_gives f.old result (SaysBits double bits) f.new }
{
    if is_double_nan(bits) {
        let mut digits = [0; 16];
        return write_nan(f, &bits.to_be_bytes(), &mut digits);
    }
    f.write_str(ryu::Buffer::new().format(double_of(bits)))
}

/// The bits of a NaN in hex, for which there is room in `digits`.
fn write_nan<W: fmt::Write>(
    f: &mut fmt::Formatter<W>,
    bits: &[u8],
    digits: &mut [u8],
) -> fmt::Result
    requires { length digits.old ≡ 2 * length bits.now }
    ensures { WritesOnOk W.write_str_gives f.old result
        (codes "nan(" ++ (encode_lower bits.now ++ codes ")")) f.new }
{
    if hex::encode_to_slice(bits, digits).is_err() {
        return Err(fmt::Error);
    }
    let Ok(digits) = str::from_utf8(digits) else {
        return Err(fmt::Error);
    };
    f.write_str("nan(")?;
    f.write_str(digits)?;
    f.write_str(")")
}

/// Whether the bits are those of a NaN: without the sign, they are above those of an infinity.
fn is_single_nan(bits: u32) -> bool
    ensures { result ≡ nan_bits binary32 bits }
{
    0x7f80_0000 < bits % 0x8000_0000
}

fn is_double_nan(bits: u64) -> bool
    ensures { result ≡ nan_bits binary64 bits }
{
    0x7ff0_0000_0000_0000 < bits % 0x8000_0000_0000_0000
}

/// The float with these bits.
fn single_of(bits: u32) -> f32
    requires { nan_bits binary32 bits ≡ false }
    ensures { result ≡ from_bits binary32 bits }
{
    f32::from_bits(bits)
}

fn double_of(bits: u64) -> f64
    requires { nan_bits binary64 bits ≡ false }
    ensures { result ≡ from_bits binary64 bits }
{
    f64::from_bits(bits)
}
