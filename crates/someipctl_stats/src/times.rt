//! What is told of how values spread.
ghost use Rattle.std.specs.Prelude.{◌≡◌};
ghost use Rattle.someipctl_io.specs.ToldViews.{view_said};
ghost use Rattle.someipctl_stats.specs.StatsLines.{times_told, view_time, view_times};

use crate::millis::{MillisText, millis_text};
use audit_stats::Summary;
use someipctl_io::Said;

/// What is told of how values spread, in milliseconds: nothing, where there are no values.
#[derive(Clone, Copy)]
pub(crate) struct Times {
    /// The least value.
    pub(crate) least: Option<MillisText>,
    /// The median.
    pub(crate) p50: Option<MillisText>,
    /// The value that 99 of 100 do not exceed.
    pub(crate) p99: Option<MillisText>,
    /// The greatest value.
    pub(crate) greatest: Option<MillisText>,
}

/// What is told of values with this summary.
pub(crate) fn times_of(summary: Option<Summary>) -> Times
    ensures { view_times result ≡ times_told summary }
{
    match summary {
        Some(summary) => Times {
            least: Some(millis_text(summary.least)),
            p50: Some(millis_text(summary.p50)),
            p99: Some(millis_text(summary.p99)),
            greatest: Some(millis_text(summary.greatest)),
        },
        None => Times {
            least: None,
            p50: None,
            p99: None,
            greatest: None,
        },
    }
}

/// A time, if there is one.
pub(crate) fn said_of_time(time: &Option<MillisText>) -> Said<'_>
    ensures { view_said result ≡ view_time time.now }
{
    match time {
        Some(text) => Said::Text(text.as_str()),
        None => Said::Nothing,
    }
}
