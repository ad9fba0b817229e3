//! How a command that did its work ended.
ghost use Rattle.std.specs.Prelude.{◌≡◌};
ghost use Rattle.someipctl_io.specs.Outcomes.{fault_outcome, status_of};

/// How a command that did its work ended.
#[derive(Clone, Copy, Debug, PartialEq, Eq)]
pub enum Outcome {
    /// Nothing was wrong with what was shown.
    Done,
    /// A fault was shown, or that a vector or a trace differs.
    FaultShown,
}

impl Outcome {
    /// The outcome of a command that showed a fault, or that a vector differs, or showed none.
    pub fn of(fault_shown: bool) -> Outcome
        ensures { result ≡ fault_outcome fault_shown }
    {
        if fault_shown {
            Outcome::FaultShown
        } else {
            Outcome::Done
        }
    }

    /// The program's exit status: 0 for `Done`, 1 for `FaultShown`.
    pub fn status(self) -> u8
        ensures { result ≡ status_of self }
    {
        match self {
            Outcome::Done => 0,
            Outcome::FaultShown => 1,
        }
    }
}
