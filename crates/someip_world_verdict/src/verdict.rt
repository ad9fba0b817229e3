//! The verdict on a run.
ghost use Rattle.std.specs.Prelude.{◌≡◌, IfOk};
ghost use Rattle.someip_world_rules.specs.exchanges.CleanReuse.{IsVerdictOn};
ghost use Rattle.someip_world_verdict.specs.Judging.{judged};

use crate::booking::DoneStep;
use crate::ledger::Ledger;
use crate::telling::own_count;
use someip_world_rules::run_laws::all_that_a_setup_gives_fits;
use someip_world_rules::{Line, Reuse, place_of};
use someip_world_schedule::Step;
use someip_world_setup::{Setup, SetupNode};
use std::alloc::{AllocError, Global};

/// The verdict on a run over the nodes of a setup, of which these lines are the trace: the first step that
/// breaks clean reuse, if one does.
///
/// It is found in one pass over steps and lines, by what is kept of the steps before. An error says that
/// memory ran out.
pub fn verdict_on(
    alloc: Global,
    setup: &Setup,
    steps: &[Step],
    lines: &[Line],
) -> Result<Reuse, AllocError>
    ensures { IfOk result (IsVerdictOn setup.now.nodes steps.now lines.now) }
{
    all_that_a_setup_gives_fits(setup, steps);
    judge(alloc, setup.nodes(), steps, lines)
}

/// The first of some steps that breaks clean reuse, over the nodes of a setup. What is kept is defined in
/// `specs/Books.antt`, and how a step changes it in `Booking.antt`.
fn judge(
    alloc: Global,
    nodes: &[SetupNode],
    steps: &[Step],
    lines: &[Line],
) -> Result<Reuse, AllocError>
    ensures { IfOk result (λ verdict. verdict ≡ judged nodes.now steps.now lines.now) }
{
    let mut ledger = Ledger::new(alloc, nodes)?;
    let mut rest = lines;
    for (done, step) in steps.iter().enumerate() {
        let (own, others) = rest.split_at(own_count(rest, done + 1));
        let Some(place) = place_of(nodes, step.node().as_str()) else {
            return Ok(Reuse::Clean);
        };
        if nodes.len() <= place {
            return Ok(Reuse::Clean);
        }
        if ledger.lives.len() <= place {
            return Ok(Reuse::Clean);
        }
        let config = &nodes[place].config;
        let timeout_ms = config.common.reassembly_timeout_ms;
        if ledger.breaks(timeout_ms, &ledger.lives[place], step) {
            return Ok(Reuse::Broken(done + 1));
        }
        let given = DoneStep {
            config,
            index: done,
            step,
            lines: own,
        };
        ledger.book(alloc, place, given)?;
        rest = others;
    }
    Ok(Reuse::Clean)
}
