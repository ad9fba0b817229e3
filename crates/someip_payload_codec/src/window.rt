//! What is left to read.

ghost use Rattle.std.specs.Prelude.{◌+◌, ◌^◌, ◌<◌, length};

/// The bytes that are left of the input, or of the body after a length field.
#[derive(Clone, Copy)]
pub(crate) struct Window<'a> {
    pub(crate) bytes: &'a [u8],
    /// Where they begin in the input.
    pub(crate) place: usize,
    pub(crate) is_body: bool,
    ghost in_range: { place + length bytes.now < 2 ^ 64 },
}
