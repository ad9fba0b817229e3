//! A time in milliseconds, as text.
ghost use Rattle.std.specs.Prelude.{◌≡◌, ◌≤◌, IsAscii, drop, length};
ghost use Rattle.someipctl_stats.specs.StatsLines.{millis_text};

use arrayvec::ArrayString;

/// Room for two numbers of 64 bits, and the dot between them.
const ROOM: usize = 41;

/// A time in milliseconds, as text.
pub(crate) type MillisText = ArrayString<ROOM>;

/// So many microseconds in milliseconds, with three digits after the dot.
pub(crate) fn millis_text(micros: u64) -> MillisText
    ensures { result.bytes ≡ millis_text micros }
{
    let mut text = ArrayString::new();
    text.push_str(itoa::Buffer::new().format(micros / 1000));
    text.push_str(".");
    text.push_str(without_first(itoa::Buffer::new().format(1000 + micros % 1000)));
    text
}

/// The text after its first character, which is an ASCII one.
fn without_first(text: &str) -> &str
    requires { IsAscii text.now }
    ensures rest { result.now ≡ drop 1 text.now }
    ensures short { length result.now ≤ length text.now }
{
    if text.is_empty() {
        return text;
    }
    &text[1..]
}
