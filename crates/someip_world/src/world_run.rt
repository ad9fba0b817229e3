//! Runs.
ghost use Rattle.std.specs.Prelude.{◌≡◌, IfOk, IfErr, map};
ghost use Rattle.someip_world_rules.specs.exchanges.CleanReuse.{IsVerdictOn};
ghost use Rattle.someip_world_rules.specs.Runs.{IsRun};
ghost use Rattle.someip_world_rules.specs.Liars.{HasNoLiars};
ghost use Rattle.someip_world_safety.specs.CleanRuns.{IsCleanWhereCountedOnce};
ghost use Rattle.someip_world_safety.specs.Safety.{IsSafeAmongLiarsOn, IsSafeOn};
ghost use Rattle.someip_world.specs.Acting.{role_of};
ghost use Rattle.someip_world.specs.Running.{AreStarted, Happens, IsTold, RunsOn};

use crate::actor::{Actor, act};
use crate::actors::{Actors, begin_all_again};
use crate::log::Log;
use crate::telling::tell;
use someip_tp::Reassembly;
use someip_world_rules::{Line, RunError, StepFault, Trace, place_of};
use someip_world_safety::safety::{runs_are_safe_by_their_verdict, runs_that_count_once_are_clean};
use someip_world_schedule::Step;
use someip_world_setup::{Setup, SetupNode};
use someip_world_verdict::verdict_on;
use std::alloc::Global;

/// Does a step of an index, counted from 1.
fn happen<R: Reassembly>(
    alloc: Global,
    setup: &[SetupNode],
    actors: &mut Vec<Actor<R>>,
    log: &mut Log,
    index: usize,
    step: &Step,
) -> Result<(), RunError>
    ensures happens { Happens setup.now index step.now actors.old.items log.old result actors.new.items log.new }
    ensures roles { map role_of actors.new.items ≡ map role_of actors.old.items }
{
    let Some(place) = place_of(setup, step.node().as_str()) else {
        return Err(RunError::BadStep(index, StepFault::UnknownNode));
    };
    if actors.len() <= place {
        return Err(RunError::BadStep(index, StepFault::UnknownNode));
    }
    let given = act(alloc, &mut actors[place], log, step);
    tell(log, index, place, given)
}

/// Does all steps.
fn run_all<R: Reassembly>(
    alloc: Global,
    setup: &[SetupNode],
    actors: &mut Vec<Actor<R>>,
    log: &mut Log,
    steps: &[Step],
) -> Result<(), RunError>
    ensures runs { RunsOn setup.now steps.now actors.old.items log.old result log.new }
    ensures roles { map role_of actors.new.items ≡ map role_of actors.old.items }
{
    for (done, step) in steps.iter().enumerate() {
        happen(alloc, setup, actors, log, done + 1, step)?;
    }
    Ok(())
}

/// Runs a schedule over nodes and liars that were just started: the lines of its trace.
fn run_nodes<R: Reassembly>(
    alloc: Global,
    setup: &[SetupNode],
    actors: &mut Vec<Actor<R>>,
    steps: &[Step],
) -> Result<Vec<Line>, RunError>
    requires { AreStarted setup.now actors.old.items }
    ensures told { IsTold setup.now steps.now result }
    ensures roles { map role_of actors.new.items ≡ map role_of actors.old.items }
{
    let mut log = Log::new(alloc);
    match run_all(alloc, setup, actors, &mut log, steps) {
        Ok(()) => Ok(log.into_lines()),
        Err(error) => Err(error),
    }
}

impl<'s, R: Reassembly> Actors<'s, R> {
    /// Runs a schedule as [`run`] does, and gives the lines of its trace alone, without the verdict. It is the
    /// same whatever was run before.
    pub fn run_lines(&mut self, steps: &[Step]) -> Result<Vec<Line>, RunError>
        ensures told { IsTold self.old.nodes steps.now result }
        ensures kept { self.new ≡ self.old }
    {
        let nodes = self.setup.nodes();
        begin_all_again(nodes, &mut self.places)?;
        run_nodes(self.alloc, nodes, &mut self.places, steps)
    }
}

/// Runs a schedule over nodes and liars that are made for it: the lines of its trace.
fn run_once<R: Reassembly>(
    alloc: Global,
    setup: &Setup,
    steps: &[Step],
) -> Result<Vec<Line>, RunError>
    ensures { IsTold setup.now.nodes steps.now result }
{
    let mut actors = Actors::<R>::of(alloc, setup)?;
    actors.run_lines(steps)
}

/// Runs a schedule over the nodes of a setup: each node is started with its delay, and the steps happen
/// one after the other. Liars run no node: they send what steps say, under their own addresses. The trace
/// tells all that nodes and liars gave, and whether the nodes reused the keys of their exchanges cleanly.
///
/// It is refused as `BadStep` with the index of the first step that can't happen.
pub fn run<R: Reassembly>(alloc: Global, setup: &Setup, steps: &[Step]) -> Result<Trace, RunError>
    // Its lines are those of the run.
    ensures lines { IsRun setup.now.nodes steps.now result }
    // The verdict is that on this run: the first step that breaks clean reuse is named, if one does.
    ensures verdict { IfOk result
        (λ trace. IsVerdictOn setup.now.nodes steps.now trace.lines.items trace.verdict) }
    // Before that step, or in all steps, answers and events are safe that came from no liar, and
    // subscriptions at servers that are none: those of the steps, and those that the lines tell, each of
    // which its node gave in the step of its index. In all steps nodes publish to those who are subscribed,
    // and known offers of peers that are no liars are configured.
    ensures safe_among_liars { IfOk result
        (λ trace. IsSafeAmongLiarsOn setup.now.nodes steps.now trace.lines.items trace.verdict) }
    // Without liars all answers, events and subscriptions are safe so before that step, or in all steps, and
    // those of the lines; in all, publications go to those who are subscribed, and known offers are
    // configured.
    ensures safe { IfOk result (λ trace. HasNoLiars setup.now.nodes
        → IsSafeOn setup.now.nodes steps.now trace.lines.items trace.verdict) }
    // The verdict is `Clean` where no counter of a node gave a number in two steps, and no message went in
    // segments, whatever liars send.
    ensures counted_once { IfOk result
        (λ trace. IsCleanWhereCountedOnce setup.now.nodes steps.now trace.lines.items trace.verdict) }
{
    let lines = run_once::<R>(alloc, setup, steps)?;
    let verdict = verdict_on(alloc, setup, steps, &lines)?;
    runs_are_safe_by_their_verdict(setup, steps);
    runs_that_count_once_are_clean(setup, steps);
    Ok(Trace { lines, verdict })
}
