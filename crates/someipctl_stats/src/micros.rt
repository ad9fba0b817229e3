//! The moments of datagrams in microseconds.
//!
//! They never fall, as those in milliseconds of `someipctl_recordings`: a datagram without a time, or with an earlier
//! one, has the latest so far.
ghost use Rattle.std.specs.Prelude.{◌≡◌, ◌≤◌};
ghost use Rattle.someipctl_stats.specs.Micros.{micros, micros_after};

use recording::Time;

/// The moment of a datagram with this time, in microseconds since 1970, where the latest so far is this.
pub(crate) fn micros_after(latest: u64, time: Option<Time>) -> u64
    ensures moment { result ≡ micros_after latest time }
    ensures rises { latest ≤ result }
{
    match time {
        Some(time) => latest.max(micros(time)),
        None => latest,
    }
}

/// A time in microseconds since 1970, rounded down, and 2^64 - 1 at most.
fn micros(time: Time) -> u64
    ensures { result ≡ micros time }
{
    time.seconds
        .saturating_mul(1_000_000)
        .saturating_add(u64::from(time.nanoseconds / 1000))
}
