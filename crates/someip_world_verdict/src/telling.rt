//! What the lines of a step tell.
ghost use Rattle.std.specs.Prelude.{◌≡◌};
ghost use Rattle.someip_world_verdict.specs.Booking.{is_refusal, is_refused, token_in};
ghost use Rattle.someip_world_verdict.specs.Judging.{own_lines, other_lines};
ghost use Rattle.std.specs.Prelude.{◌≤◌, take, drop, length};

use someip_node_rules::Output;
use someip_world_rules::{Line, Told};

/// Whether a node refused what was asked of it.
pub(crate) fn is_refused(lines: &[Line]) -> bool
    ensures { result ≡ is_refused lines.now }
{
    for line in lines {
        if is_refusal(&line.told) {
            return true;
        }
    }
    false
}

/// Whether a line tells that.
fn is_refusal(told: &Told) -> bool
    ensures { result ≡ is_refusal told.now }
{
    matches!(told, Told::Refused(_))
}

/// The token of a request that a line tells of.
pub(crate) fn token_in(told: &Told) -> Option<u64>
    ensures { result ≡ token_in told.now }
{
    match told {
        Told::Gave(Output::Request { token, .. }) => *token,
        _ => None,
    }
}

/// How many lines of the step of an index come first.
pub(crate) fn own_count(lines: &[Line], index: usize) -> usize
    ensures own { take result lines.now ≡ own_lines index lines.now }
    ensures others { drop result lines.now ≡ other_lines index lines.now }
    ensures within { result ≤ length lines.now }
{
    for (count, line) in lines.iter().enumerate() {
        if line.step != index {
            return count;
        }
    }
    lines.len()
}
