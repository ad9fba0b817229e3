//! What is counted of a method.
ghost use Rattle.std.specs.Prelude.{◌≡◌, ◌≤◌, OnErr, OnOk, true};
ghost use Rattle.audit_stats.specs.Changes.{number_if, some_takes, unanswered_of, with_some};

use crate::counts::Counts;
use crate::spread::Spread;
use std::alloc::{AllocError, Global};

/// What a message is to the figures of its method.
#[derive(Clone, Copy)]
pub(crate) enum CallChange {
    /// A call came; its answer is waited for, or not.
    Called(bool),
    /// An answer came; it is an error, or not. If the call was waited for, it came so many microseconds ago.
    Answered(bool, Option<u64>),
}

/// The figures of a method, from one client to one server. A counter that has come to 2^64 - 1 stays.
#[derive(Drop)]
pub struct MethodFigures {
    /// How many calls came: each REQUEST and REQUEST_NO_RETURN.
    pub calls: u64,
    /// How many answers came: each RESPONSE and ERROR, whatever it is for.
    pub answers: u64,
    /// How many of the answers are errors: of type ERROR, or with another return code than E_OK.
    pub errors: u64,
    /// How many of the calls were waited for: each REQUEST, but for those of which there was no room among the calls
    /// that wait.
    pub waited: u64,
    /// How long answers took, in microseconds, from the call that each is for.
    pub latency: Spread,
}

impl MethodFigures {
    /// How many of the calls that were waited for have no answer.
    pub fn unanswered(&self) -> u64
        ensures { result ≡ unanswered_of self.now }
    {
        self.waited.saturating_sub(self.latency.count())
    }
}

impl Counts<CallChange> for MethodFigures {
    ghost use Rattle.audit_stats.specs.Changes.{after_call, call_takes, no_calls};

    ghost none = { no_calls };

    ghost after = { after_call };

    ghost takes = { call_takes };

    fn none(alloc: Global) -> MethodFigures {
        MethodFigures {
            calls: 0,
            answers: 0,
            errors: 0,
            waited: 0,
            latency: Spread::new(alloc),
        }
    }

    fn count(&mut self, change: CallChange) -> Result<(), AllocError> {
        match change {
            CallChange::Called(waits) => {
                self.calls = self.calls.saturating_add(1);
                self.waited = self.waited.saturating_add(number_if(waits));
            }
            CallChange::Answered(fails, latency) => {
                add_some(&mut self.latency, latency)?;
                self.answers = self.answers.saturating_add(1);
                self.errors = self.errors.saturating_add(number_if(fails));
            }
        }
        Ok(())
    }
}

/// One where something holds, and else 0.
fn number_if(holds: bool) -> u64
    ensures value { result ≡ number_if holds }
    ensures small { result ≤ 1 }
{
    u64::from(holds)
}

/// One more value of a spread comes, if there is one.
pub(crate) fn add_some(spread: &mut Spread, value: Option<u64>) -> Result<(), AllocError>
    ensures ok { OnOk result (spread.new ≡ with_some value spread.old) }
    ensures err { OnErr result (spread.new ≡ spread.old) }
    ensures grows { OnErr result (some_takes value spread.old ≡ true) }
{
    match value {
        Some(value) => spread.add(value),
        None => Ok(()),
    }
}
