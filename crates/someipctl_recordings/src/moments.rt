//! The moments of datagrams.
//!
//! The clock of a recording never falls, since a store is asked at rising moments: a datagram without a
//! time, or with an earlier one, has the latest so far, as the packets of several interfaces may come.
ghost use Rattle.std.specs.Prelude.{◌≡◌, ◌≤◌};
ghost use Rattle.someipctl_recordings.specs.Moments.{millis, moment_of};

use recording::Time;

/// The last moment that there is.
const LAST_MOMENT: u64 = 9_223_372_036_854_775_807;

/// The moment of a datagram with this time, in milliseconds since 1970, where the latest so far is this: it
/// is no earlier, and without a time the latest.
pub fn moment_of(latest: u64, time: Option<Time>) -> u64
    ensures moment { result ≡ moment_of latest time }
    ensures rises { latest ≤ result }
{
    match time {
        Some(time) => latest.max(millis(time)),
        None => latest,
    }
}

/// A time in milliseconds since 1970, rounded down, and the last moment at most.
fn millis(time: Time) -> u64
    ensures { result ≡ millis time }
{
    if time.seconds > LAST_MOMENT / 1000 {
        return LAST_MOMENT;
    }
    (time.seconds * 1000 + u64::from(time.nanoseconds / 1_000_000)).min(LAST_MOMENT)
}
