//! Floats: their bytes and texts, in parts of all kinds, and where they are refused.

/// Both ways, in either order of bytes, and in each kind of part.
pub(super) const READ: &str = r#"
read f32 41a40000 -> 4 20.5 same
read f32 00000001 -> 4 1e-45 same
read f32le 0000a441 -> 4 20.5 same
read f64 3fb999999999999a -> 8 0.1 same
read f64le 9a9999999999b93f -> 8 0.1 same
read f64 8000000000000000 -> 8 -0.0 same
read f32 80000000 -> 4 -0.0 same
read f32 00000000 -> 4 0.0 same
read f32 7f800000 -> 4 inf same
read f32 ff800000 -> 4 -inf same
read f64 7ff0000000000000 -> 8 inf same
read f64le 000000000000f0ff -> 8 -inf same
# A float takes four bytes or eight, whatever comes after it.
read f32 3f80000009 -> 4 1.0 same
read struct(speed:f32,gear:u8{0=P,3=D}) 41a4000003 -> 5 (speed=20.5,gear=D) same
read struct(speed:f32,gear:u8{0=P,3=D}) 41a4000004 -> 5 (speed=20.5,gear=4) same
read array/8<3,f32> 0841a40000bfc00000 -> 9 [20.5,-1.5] same
read array/8<3,f32> 00 -> 1 [] same
read fixed<2,f32le> 0000a4410000c0bf -> 8 [20.5,-1.5] same
read union/8/8(1:u8,2:f64) 08023ff0000000000000 -> 10 2:1.0 same
read tagged/8(1:f32) 06200141a40000 -> 7 {20.5} same
read tagged/8(heat:1:f64le,2?:f32le,3?:f32) 103001000000000000f03f20020000a441 -> 17 {heat=1.0,20.5,-} same"#;

/// The bits of NaNs come through both ways: quiet and signalling ones, and of either sign.
pub(super) const NANS: &str = r#"
read f32 7fc00001 -> 4 nan(7fc00001) same
read f32 7f800001 -> 4 nan(7f800001) same
read f32 ffc00000 -> 4 nan(ffc00000) same
read f32le ffffffff -> 4 nan(ffffffff) same
read f32le 0100807f -> 4 nan(7f800001) same
read f64 7ff0000000000001 -> 8 nan(7ff0000000000001) same
read f64le 0d0000000000f8ff -> 8 nan(fff800000000000d) same
read struct(f32,f32) 7f8000017fc00001 -> 8 (nan(7f800001),nan(7fc00001)) same"#;

/// Bytes that are none of the shape.
pub(super) const FAULTY: &str = r#"
read f32 41a400 -> Truncated(0)
read f64le 00000000000000 -> Truncated(0)
read struct/8(u8,f32) 0401000000 -> LengthMismatch(2)
read array/8<2,f32> 050000000000 -> LengthMismatch(5)
# An item with 64 bits is none of `f32`, and one with 32 bits none of `f64`.
read tagged/8(1:f32) 0a30010000000000000000 -> WrongWireType(1)
read tagged/8(1:f64le) 06200100000000 -> WrongWireType(1)"#;

/// A value of the other precision, or a number, is none of the shape.
pub(super) const REFUSED: &str = r#"
refuse f32 f64 0000000000000000 -> NotOfShape(0)
refuse f64 f32 00000000 -> NotOfShape(0)
refuse f32le u32 00000000 -> NotOfShape(0)
refuse u32 f32 00000000 -> NotOfShape(0)
refuse i64 f64 0000000000000000 -> NotOfShape(0)
refuse struct(u8,f32) struct(u8,f64) 000000000000000000 -> NotOfShape(0)"#;

/// The bits of a float, and the shortest decimal that is read as it.
pub(super) const SINGLES: &str = r#"
plain f32 3dcccccd -> 0.1
plain f32 3eaaaaab -> 0.33333334
plain f32 3f800000 -> 1.0
plain f32 bfc00000 -> -1.5
plain f32 4b800000 -> 16777216.0
plain f32 7f7fffff -> 3.4028235e38
plain f32 ff7fffff -> -3.4028235e38
plain f32 00800000 -> 1.1754944e-38
plain f32 00000001 -> 1e-45
plain f32 33d6bf95 -> 1e-7"#;

/// The same of a float in 64 bits.
pub(super) const DOUBLES: &str = r#"
plain f64 3fd5555555555555 -> 0.3333333333333333
plain f64 3fd3333333333334 -> 0.30000000000000004
plain f64 400921fb54442d18 -> 3.141592653589793
plain f64 4340000000000000 -> 9007199254740992.0
plain f64 7fefffffffffffff -> 1.7976931348623157e308
plain f64 ffefffffffffffff -> -1.7976931348623157e308
plain f64 0010000000000000 -> 2.2250738585072014e-308
plain f64 0000000000000001 -> 5e-324
plain f64 3eb0c6f7a0b5ed8d -> 1e-6
# The float of 32 bits that is nearest to 0.1, in 64 bits.
plain f64 3fb99999a0000000 -> 0.10000000149011612"#;
