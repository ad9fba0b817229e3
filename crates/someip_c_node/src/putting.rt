//! Texts at the front of a buffer.
ghost use Rattle.std.specs.Prelude.{◌≡◌, ◌≤◌, ◌<◌, ◌++◌, true, false, drop, length};
ghost use Rattle.someip_c_node.specs.Putting.{Puts, PutsBytes, PutsText};

use crate::outcome::Outcome;

/// Puts a text to the front of a buffer, if it fits, and tells how many bytes it has. It is refused as
/// `BufferTooSmall`.
pub fn put_text(text: &str, buffer: &mut [u8], length: &mut usize) -> Outcome
    ensures { PutsText text.now buffer.old result buffer.new length.new }
{
    put_bytes(text.as_bytes(), buffer, length)
}

/// The same of bytes.
fn put_bytes(bytes: &[u8], buffer: &mut [u8], length: &mut usize) -> Outcome
    ensures { PutsText bytes.now buffer.old result buffer.new length.new }
{
    *length = bytes.len();
    if copy_to_front(bytes, buffer) {
        Outcome::Done
    } else {
        Outcome::BufferTooSmall
    }
}

/// Puts bytes that were made. Where there are none it answers why, and nothing is put or told.
pub fn put_made_bytes(
    made: &Result<Vec<u8>, Outcome>,
    buffer: &mut [u8],
    length: &mut usize,
) -> Outcome
    ensures { PutsBytes made.now buffer.old length.old result buffer.new length.new }
{
    match made {
        Ok(bytes) => put_bytes(bytes, buffer, length),
        Err(outcome) => *outcome,
    }
}

/// The same of a text that was made. Where there is none it answers why, and nothing is put or told.
pub fn put_made(made: &Result<String, Outcome>, buffer: &mut [u8], length: &mut usize) -> Outcome
    ensures { Puts made.now buffer.old length.old result buffer.new length.new }
{
    match made {
        Ok(text) => put_text(text.as_str(), buffer, length),
        Err(outcome) => *outcome,
    }
}

/// Copies bytes to the front of a buffer, if they fit, and says whether they do.
pub(crate) fn copy_to_front(bytes: &[u8], buffer: &mut [u8]) -> bool
    ensures fits { result ≡ true → (length bytes.now ≤ length buffer.old)
        × (buffer.new ≡ bytes.now ++ drop (length bytes.now) buffer.old) }
    ensures too_small { result ≡ false → (length buffer.old < length bytes.now)
        × (buffer.new ≡ buffer.old) }
{
    if buffer.len() < bytes.len() {
        return false;
    }
    let (front, _) = buffer.split_at_mut(bytes.len());
    front.copy_from_slice(bytes);
    true
}
