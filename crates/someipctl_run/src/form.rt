//! The forms of a trace, and a trace in its form.
ghost use Rattle.std.specs.Prelude.{◌≡◌};
ghost use Rattle.someipctl_run.specs.Traces.{pointed, shown_lines};

use someip_world::{Line, Reuse, SetupNode};

/// What stands before the lines of a trace.
#[derive(Clone, Copy, PartialEq, Eq)]
pub enum TraceForm {
    /// Nothing.
    Plain,
    /// The number of the line of the schedule by which the line came, or `-` before the verdict; and
    /// a space.
    WithLines,
}

/// How much of a trace a file holds that it is compared with.
#[derive(Clone, Copy, PartialEq, Eq)]
pub enum Extent {
    /// The whole trace, the verdict too.
    Whole,
    /// The beginning of it, which may end in the middle of a line.
    Beginning,
}

impl TraceForm {
    /// The lines on which the steps stand, where the trace shows them.
    pub(crate) fn shown(self, step_lines: &[usize]) -> Option<&[usize]>
        ensures { pointed result ≡ shown_lines self step_lines.now }
    {
        match self {
            TraceForm::Plain => None,
            TraceForm::WithLines => Some(step_lines),
        }
    }
}

/// A trace, as it is printed or compared.
#[derive(Clone, Copy)]
pub(crate) struct FormedTrace<'t> {
    /// What stands before its lines.
    pub(crate) form: TraceForm,
    /// The numbers of the lines of the schedule on which its steps stand, in order.
    pub(crate) step_lines: &'t [usize],
    /// The nodes of its setup.
    pub(crate) nodes: &'t [SetupNode],
    /// Its lines.
    pub(crate) lines: &'t [Line],
    /// The verdict on it.
    pub(crate) verdict: Reuse,
}
