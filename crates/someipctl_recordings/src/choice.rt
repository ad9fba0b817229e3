//! The client and the times that texts name.
ghost use Rattle.std.specs.Prelude.{◌≡◌};
ghost use Rattle.std.specs.List.{list_all};
ghost use Rattle.someip_texts.specs.Numbers.{is_digit};
ghost use Rattle.someipctl_recordings.specs.Choice.{are_decimals, decimals_in, time_in};
ghost use Rattle.someipctl_show.specs.Services.{id_in};

use recording::Time;
use someip_texts::plain_u64;
use someipctl_show::services::id_of;

/// The Client ID that a text writes in four hex digits, as in `0101`.
pub fn client_in(text: &str) -> Option<u16>
    ensures { result ≡ id_in text.now }
{
    id_of(text.as_bytes())
}

/// The time that a text writes: seconds since 1970 below 2^64 without leading zeros, and perhaps a dot and
/// one to nine decimals, as in `1700000000.25`.
pub fn time_in(text: &str) -> Option<Time>
    ensures { result ≡ time_in text.now }
{
    match text.split_once('.') {
        Some((seconds, decimals)) => {
            let seconds = plain_u64(seconds)?;
            let nanoseconds = decimals_of(decimals)?;
            Some(Time {
                seconds,
                nanoseconds,
            })
        }
        None => {
            let seconds = plain_u64(text)?;
            Some(Time {
                seconds,
                nanoseconds: 0,
            })
        }
    }
}

/// The nanoseconds that decimals of a second write.
fn decimals_of(digits: &str) -> Option<u32>
    ensures { result ≡ decimals_in digits.now }
{
    if !are_decimals(digits.as_bytes()) {
        return None;
    }
    let value = digits.parse::<u32>().ok()?;
    Some(value * 10u32.pow(9 - digits.len() as u32))
}

/// Whether there are one to nine bytes, and all are digits.
fn are_decimals(digits: &[u8]) -> bool
    ensures { result ≡ are_decimals digits.now }
{
    1 <= digits.len() && digits.len() <= 9 && are_digits(digits)
}

fn are_digits(bytes: &[u8]) -> bool
    ensures { result ≡ list_all is_digit bytes.now }
{
    bytes.iter().all(|b| b'0' <= *b && *b <= b'9')
}
