//! The limits of messages that are put together, as texts.
ghost use Rattle.std.specs.Prelude.{◌≡◌, IfErr, IfOk, None, Some};
ghost use Rattle.someipctl_recordings.specs.WholeLimits.{IsRefusedLimit, SaysLimits, number_or, number_within, view_text};

use crate::asked::WholeLimits;
use someip_texts::plain_u64;
use thiserror::Error;

/// Which of the texts says no limit.
#[derive(Clone, Copy, Debug, PartialEq, Eq, Error)]
pub enum LimitsError {
    /// The bytes of a message are no number from 1400 to 1048576.
    #[error("1400 to 1048576")]
    BadLimit,
    /// The slots are no number from 1 to 1024.
    #[error("1 to 1024")]
    BadSlots,
    /// The timeout is no number from 1 to 3600000.
    #[error("1 to 3600000")]
    BadTimeout,
}

/// The limits that texts say: decimal numbers without leading zeros. Without a text a message has at
/// most 1048576 bytes, 16 messages may have come in part, and a part stands for 5000 milliseconds.
pub fn limits_in(
    limit: Option<&str>,
    slots: Option<&str>,
    timeout: Option<&str>,
) -> Result<WholeLimits, LimitsError>
    ensures said { IfOk result (SaysLimits (view_text limit.entry) (view_text slots.entry) (view_text timeout.entry)) }
    ensures refused { IfErr result (IsRefusedLimit (view_text limit.entry) (view_text slots.entry) (view_text timeout.entry)) }
{
    let Some(limit) = number_or(limit, 1_048_576, 1400, 1_048_576) else {
        return Err(LimitsError::BadLimit);
    };
    let Some(slots) = number_or(slots, 16, 1, 1024) else {
        return Err(LimitsError::BadSlots);
    };
    let Some(timeout_ms) = number_or(timeout, 5000, 1, 3_600_000) else {
        return Err(LimitsError::BadTimeout);
    };
    Ok(WholeLimits {
        slots: slots as usize,
        limit: limit as usize,
        timeout_ms,
    })
}

/// The number that a text writes, in decimal digits without leading zeros, if it lies from `low` to `high`, or
/// `default` where there is no text.
pub fn number_or(text: Option<&str>, default: u64, low: u64, high: u64) -> Option<u64>
    ensures { result ≡ number_or default low high (view_text text.entry) }
{
    match text {
        Some(text) => number_within(text, low, high),
        None => Some(default),
    }
}

/// The number that a text writes, if it lies between two others or is one of them.
pub fn number_within(text: &str, low: u64, high: u64) -> Option<u64>
    ensures { result ≡ number_within low high text.now }
{
    let number = plain_u64(text)?;
    if low <= number && number <= high {
        Some(number)
    } else {
        None
    }
}
