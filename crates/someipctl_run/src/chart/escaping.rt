//! Text in a picture.

use std::alloc::AllocError;

/// Appends at most so many bytes of a text, as XML has them, and two dots where there are more. A byte
/// that is no printable ASCII becomes a question mark.
pub(crate) fn push_escaped(text: &mut String, bytes: &[u8], most: usize) -> Result<(), AllocError> {
    for byte in bytes.iter().take(most) {
        push_byte(text, *byte)?;
    }
    if most < bytes.len() {
        text.push_str("..")?;
    }
    Ok(())
}

/// Appends a byte as XML has it.
fn push_byte(text: &mut String, byte: u8) -> Result<(), AllocError> {
    match byte {
        b'&' => text.push_str("&amp;"),
        b'<' => text.push_str("&lt;"),
        b'>' => text.push_str("&gt;"),
        b'"' => text.push_str("&quot;"),
        b' '..=b'~' => text.push(byte as char),
        _ => text.push('?'),
    }
}
