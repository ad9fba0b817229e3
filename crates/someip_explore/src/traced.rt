//! Traces and verdicts that are functions of setup and steps.
ghost use Rattle.std.specs.Prelude.{◌≡◌, IfOk, Ok};
ghost use Rattle.someip_explore.specs.Exploring.{IsTraced};
ghost use Rattle.someip_explore.specs.Traces.{trace_of, verdict_of};

use crate::laws::verdicts_are_told;
use someip_tp::Reassembly;
use someip_world::{Actors, Line, Reuse, RunError, Setup, Step};
use someip_world_verdict::verdict_on;
use std::alloc::{AllocError, Global};

/// Runs a schedule: the lines of its trace.
pub(crate) fn run_traced<R: Reassembly>(
    actors: &mut Actors<'_, R>,
    steps: &[Step],
) -> Result<Vec<Line>, RunError>
    ensures traced { IsTraced actors.old.nodes steps.now result }
    ensures kept { actors.new ≡ actors.old }
{
    actors.run_lines(steps)
}

/// The verdict on a schedule whose trace has these lines.
pub(crate) fn verdict_traced(
    alloc: Global,
    setup: &Setup,
    steps: &[Step],
    lines: &[Line],
) -> Result<Reuse, AllocError>
    requires { trace_of setup.now.nodes steps.now ≡ Ok lines.now }
    ensures { IfOk result (λ verdict. verdict ≡ verdict_of setup.now.nodes steps.now lines.now) }
{
    verdicts_are_told(setup, steps);
    verdict_on(alloc, setup, steps, lines)
}
