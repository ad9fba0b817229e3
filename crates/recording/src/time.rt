//! When a packet was recorded.
//!
//! A fraction of classic pcap above a second carries over. Seconds stay between 0 and 2^64 - 1, which only
//! the offset or the ticks of a pcapng interface can reach.
ghost use Rattle.std.specs.Prelude.{◌≡◌, ◌≤◌, ◌*◌, ◌/◌};
ghost use Rattle.recording.specs.Times.{classic_time, ticks_per_second, told_ticks, shifted, tick_time};

/// A time since 1970-01-01 00:00:00 UTC, rounded down to a whole nanosecond.
///
/// No time of a recording overflows: one before 1970, which only the offset of a pcapng interface can
/// make, has the seconds 0, and one after 2^64 - 1 seconds has these.
#[derive(Clone, Copy, Debug, PartialEq, Eq)]
pub struct Time {
    /// Whole seconds.
    pub seconds: u64,
    /// Nanoseconds of the second: below 1,000,000,000.
    pub nanoseconds: u32,
}

const NANOSECONDS: u64 = 1_000_000_000;

/// The time after so many seconds and so many units of so many nanoseconds each.
pub(crate) fn classic_time(unit: u32, seconds: u32, fraction: u32) -> Time
    requires { unit ≤ 1000 }
    ensures { result ≡ classic_time unit seconds fraction }
{
    let nanoseconds = u64::from(seconds) * NANOSECONDS + u64::from(fraction) * u64::from(unit);
    Time {
        seconds: nanoseconds / NANOSECONDS,
        nanoseconds: (nanoseconds % NANOSECONDS) as u32,
    }
}

/// The time after so many ticks of an interface (pcapng, `if_tsresol` and `if_tsoffset`).
pub(crate) fn tick_time(resolution: u8, offset: u64, ticks: u64) -> Time
    ensures { result ≡ tick_time resolution offset ticks }
{
    let nanoseconds = nanoseconds_of(resolution, ticks);
    Time {
        seconds: shifted(offset, (nanoseconds / 1_000_000_000) as u64),
        nanoseconds: (nanoseconds % 1_000_000_000) as u32,
    }
}

/// How many nanoseconds so many ticks are, rounded down.
fn nanoseconds_of(resolution: u8, ticks: u64) -> u128
    ensures value { result ≡ ticks * 1000000000 / ticks_per_second resolution }
    ensures most { result ≤ ticks * 1000000000 }
{
    u128::from(ticks) * 1_000_000_000 / told_ticks(resolution)
}

/// How many ticks a second has: 10^n, or 2^n where the highest bit of the resolution is set. From
/// 10^38 on it makes no difference, since no 64 bits hold so many ticks.
fn told_ticks(resolution: u8) -> u128
    ensures value { result ≡ told_ticks resolution }
    ensures some { 1 ≤ result }
{
    if resolution < 128 {
        10u128.pow(u32::from(resolution.min(38)))
    } else {
        2u128.pow(u32::from(resolution - 128))
    }
}

/// The seconds and an offset, a signed number in 64 bits, added.
fn shifted(offset: u64, seconds: u64) -> u64
    ensures { result ≡ shifted offset seconds }
{
    if offset < 1 << 63 {
        seconds.saturating_add(offset)
    } else {
        seconds.saturating_sub(u64::MAX - offset + 1)
    }
}
