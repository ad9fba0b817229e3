//! The lines of a schedule on which its steps stand.
ghost use Rattle.std.specs.Prelude.{◌≡◌};
ghost use Rattle.someipctl_run.specs.StepLines.{line_of_step};

/// The line on which the step of an index stands. Steps count from 1.
pub(crate) fn line_of_step(step_lines: &[usize], step: usize) -> Option<usize>
    ensures { result ≡ line_of_step step_lines.now step }
{
    step_lines.get(step.saturating_sub(1)).copied()
}
