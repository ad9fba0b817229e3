//! The search, and what is written of it.
ghost use Rattle.std.specs.Prelude.{◌≡◌, IfErr, IfOk};
ghost use Rattle.someip_explore.specs.GoalViews.{goal_of};
ghost use Rattle.someipctl_run.specs.Commands.{RefusesBeginning, RefusesTrace, SpellsSteps};
ghost use Rattle.someipctl_run.specs.Faults.{fault_of_run, fault_of_schedule};
ghost use Rattle.someipctl_explore.specs.Commands.{Explores, ExploresPartly, HasLines, Tells};
ghost use Rattle.someipctl_explore.specs.Noting.{LeavesNotes, Noted};

use crate::notes::Notes;
use crate::result_texts::{exploration_text, outcome_of};
use someip_explore::{Goal, Limits, Move, explore};
use someip_tp::SegmentList;
use someip_world::{RunError, ScheduleError, Setup, Step, read_schedule, run};
use someipctl_io::{CannotWrite, Fault, Outcome, write_text};
use someipctl_run::ScheduleRefusal;
use std::alloc::Global;
use std::io::Write;

/// What is told of a search.
#[derive(Drop)]
struct Told {
    text: Vec<u8>,
    outcome: Outcome,
}

/// Tries the schedules that begin with the steps of a text and go on by moves, over the nodes of a setup, and
/// then writes the first that reaches the goal, or that none does. Meanwhile the notes tell how far it has come.
pub fn explore_schedules<W: Write, N: Write>(
    alloc: Global,
    setup: &Setup,
    text: &[u8],
    moves: &[Move],
    goal: &Goal,
    limits: Limits,
    notes: &mut Notes<N>,
    writer: &mut W,
) -> Result<Outcome, Fault<ScheduleRefusal>>
    // What the search comes to was written, byte for byte, and noted for each million schedules.
    ensures explored { IfOk result (λ outcome. Explores setup.now.nodes text.now moves.now (goal_of goal.now) limits
        (Noted N.contents notes.old notes.new) outcome (W.contents writer.old) (W.contents writer.new)) }
    // An error names the first bad line of the text or the first step of it that can't happen, and leaves
    // nothing written, but for one of writing: that leaves a beginning.
    ensures refused { IfErr result (λ fault. RefusesBeginning
        (ExploresPartly setup.now.nodes text.now moves.now (goal_of goal.now) limits
        (Noted N.contents notes.old notes.new))
        setup.now.nodes text.now fault (W.contents writer.old) (W.contents writer.new)) }
    // It leaves what was noted until then.
    ensures noted { IfErr result (LeavesNotes (Noted N.contents notes.old notes.new)) }
{
    let told = explored(alloc, setup, text, moves, goal, limits, notes)?;
    match write_text(writer, &told.text) {
        Ok(()) => Ok(told.outcome),
        Err(CannotWrite) => Err(Fault::CannotWrite),
    }
}

/// What is told of the search.
fn explored<N: Write>(
    alloc: Global,
    setup: &Setup,
    text: &[u8],
    moves: &[Move],
    goal: &Goal,
    limits: Limits,
    notes: &mut Notes<N>,
) -> Result<Told, Fault<ScheduleRefusal>>
    ensures told { IfOk result (λ told. Tells setup.now.nodes text.now moves.now (goal_of goal.now) limits
        (Noted N.contents notes.old notes.new) told.outcome told.text.items) }
    ensures refused { IfErr result (RefusesTrace setup.now.nodes text.now) }
    ensures noted { IfErr result (LeavesNotes (Noted N.contents notes.old notes.new)) }
{
    let beginning = beginning_of(alloc, setup, text)?;
    let done = beginning.len();
    let found = explore::<SegmentList, _>(alloc, setup, beginning, moves, goal, limits, notes)?;
    let text = exploration_text(alloc, done, limits, &found)?;
    let outcome = outcome_of(&found);
    Ok(Told { text, outcome })
}

/// The steps of a text, all of which can happen.
fn beginning_of(
    alloc: Global,
    setup: &Setup,
    text: &[u8],
) -> Result<Vec<Step>, Fault<ScheduleRefusal>>
    ensures said { IfOk result (λ steps. SpellsSteps text.now steps.items × HasLines setup.now.nodes steps.items) }
    ensures refused { IfErr result (RefusesTrace setup.now.nodes text.now) }
{
    let steps = read_schedule(alloc, text).map_err(fault_of_schedule)?;
    let _trace = run::<SegmentList>(alloc, setup, &steps).map_err(fault_of_run)?;
    Ok(steps)
}

/// Why a text spells no steps.
fn fault_of_schedule(error: ScheduleError) -> Fault<ScheduleRefusal>
    ensures { result ≡ fault_of_schedule error }
{
    match error {
        ScheduleError::BadLine(line) => Fault::Refused(ScheduleRefusal::BadLine(line)),
        ScheduleError::OutOfMemory => Fault::OutOfMemory,
    }
}

/// Why steps have no trace.
fn fault_of_run(error: RunError) -> Fault<ScheduleRefusal>
    ensures { result ≡ fault_of_run error }
{
    match error {
        RunError::BadStep(index, fault) => Fault::Refused(ScheduleRefusal::BadStep(index, fault)),
        RunError::OutOfMemory => Fault::OutOfMemory,
    }
}
