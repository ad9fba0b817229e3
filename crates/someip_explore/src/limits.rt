//! How far a search goes.
ghost use Rattle.std.specs.Prelude.{◌≡◌, ◌≤◌, ◌<◌};
ghost use Rattle.someip_explore.specs.LimitValues.{are_limits, limits_of};

use std::marker::Model;

/// By how many moves a schedule goes on at most.
const MOST_STEPS: usize = 16;

/// How many good schedules are judged at most.
const MOST_SCHEDULES: u64 = 1_000_000_000_000;

/// How far a search goes. Contracts see the two numbers.
#[derive(Clone, Copy)]
pub struct Limits {
    steps: usize,
    schedules: u64,
}

impl Model for Limits {
    ghost use Rattle.std.specs.Prelude.{◌≡◌, true};
    ghost use Rattle.someip_explore.specs.LimitValues.{LimitValues, are_limits, coded_limits};

    ghost Value = { LimitValues };

    ghost coded = { coded_limits };

    ghost view = { λ l. record { steps = l.steps; schedules = l.schedules } };

    ghost inverse = { λ v. record { steps = v.steps; schedules = v.schedules } };

    ghost invariant = { λ l. are_limits l.steps l.schedules ≡ true };
}

/// Whether a search may go so far.
fn are_limits(steps: usize, schedules: u64) -> bool
    ensures { result ≡ are_limits steps schedules }
{
    steps <= MOST_STEPS && 1 <= schedules && schedules <= MOST_SCHEDULES
}

impl Limits {
    /// Schedules that go on by at most so many moves, 0 to 16, of which at most so many good ones are judged,
    /// 1 to 10^12. `None` where a number is outside its range.
    pub fn new(steps: usize, schedules: u64) -> Option<Limits>
        ensures { result ≡ limits_of steps schedules }
    {
        if are_limits(steps, schedules) {
            Some(Limits { steps, schedules })
        } else {
            None
        }
    }

    /// By how many moves a schedule goes on at most.
    pub fn steps(&self) -> usize
        ensures is { result ≡ self.now.steps }
        ensures range { result ≤ 16 }
    {
        self.steps
    }

    /// How many good schedules are judged at most.
    pub fn schedules(&self) -> u64
        ensures is { result ≡ self.now.schedules }
        ensures some { 0 < result }
    {
        self.schedules
    }
}
