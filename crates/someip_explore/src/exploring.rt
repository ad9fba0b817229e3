//! All schedules of some moves, up to a length.
ghost use Rattle.std.specs.Prelude.{◌≡◌, IfOk};
ghost use Rattle.someip_explore.specs.Exploring.{ExploresTo, exploration_of, judged_count, judgement_of};
ghost use Rattle.someip_explore.specs.GoalViews.{goal_of};
ghost use Rattle.someip_explore.specs.Moves.{next_steps};
ghost use Rattle.someip_explore.specs.Watching.{Watched};

use crate::goal::Goal;
use crate::limits::Limits;
use crate::moves::{Move, steps_after};
use crate::reaching::run_reaches;
use crate::search::{Explored, Game, Judgement, search_up_to};
use crate::traced::run_traced;
use crate::watching::Watcher;
use someip_tp::Reassembly;
use someip_world::{Actors, RunError, Setup, Step};
use std::alloc::{AllocError, Global};

/// What a search among the schedules of some moves came to.
#[derive(Drop)]
pub enum Exploration {
    /// One reaches the goal, and none that is tried before it.
    Found {
        /// Its steps: those that it begins with, and the moves.
        schedule: Vec<Step>,
        /// How many good schedules were judged, this one too.
        judged: u64,
    },
    /// None reaches it.
    None {
        /// How many good ones there are.
        judged: u64,
    },
    /// More are good than may be judged, and those that were judged do not reach it.
    Stopped {
        /// None of so many moves reaches it, nor a shorter one.
        covered: usize,
    },
}

/// The schedules of some moves after a beginning of so many steps, over the nodes of a setup.
#[derive(Drop)]
struct Explorer<'e, R: Reassembly> {
    alloc: Global,
    actors: Actors<'e, R>,
    moves: &'e [Move],
    goal: &'e Goal,
    done: usize,
}

impl<'e, R: Reassembly> Game<Step> for Explorer<'e, R> {
    ghost goes_on = { λ e. next_steps e.actors.nodes e.moves.now };

    ghost comes_to = { λ e. judgement_of e.actors.nodes (goal_of e.goal.now) e.done };

    #[tactic(auto, using(crate::proofs::ExploringLemmas::next_so, crate::proofs::ExploringLemmas::none_next))]
    fn next(&mut self, steps: &[Step]) -> Result<Vec<Step>, AllocError> {
        let setup = self.actors.setup();
        match run_traced(&mut self.actors, steps) {
            Ok(lines) => {
                let nodes = setup.nodes();
                steps_after(self.alloc, nodes, steps, lines.as_slice(), self.moves)
            }
            Err(RunError::BadStep(..)) => Ok(Vec::new(self.alloc)),
            Err(RunError::OutOfMemory) => Err(AllocError),
        }
    }

    #[tactic(auto, using(crate::proofs::ExploringLemmas::judged_so, crate::proofs::ExploringLemmas::judged_bad))]
    fn judge(&mut self, steps: &[Step]) -> Result<Judgement, AllocError> {
        let setup = self.actors.setup();
        let lines = match run_traced(&mut self.actors, steps) {
            Ok(lines) => lines,
            Err(RunError::BadStep(..)) => return Ok(Judgement::Bad),
            Err(RunError::OutOfMemory) => return Err(AllocError),
        };
        if run_reaches(
            self.alloc,
            setup,
            steps,
            self.goal,
            self.done,
            lines.as_slice(),
        )? {
            Ok(Judgement::Reached)
        } else {
            Ok(Judgement::Missed)
        }
    }
}

/// What a search came to, with the schedule that it found.
fn exploration_of(steps: Vec<Step>, explored: Explored) -> Exploration
    ensures { result ≡ exploration_of steps explored }
{
    match explored {
        Explored::Found(judged) => Exploration::Found {
            schedule: steps,
            judged,
        },
        Explored::None(judged) => Exploration::None { judged },
        Explored::Stopped(covered) => Exploration::Stopped { covered },
    }
}

/// Tries all schedules that begin with some steps and go on by at most so many moves, over the nodes of a
/// setup: shorter ones first, and those of one length in the order of the moves, the first move first.
/// Each is run from its first step, over nodes that start again. One that has a bad step is not judged, and
/// none goes on behind a bad step. What comes of it is the same for each store of segments `R`.
///
/// It finds the first that reaches the goal, or none does; or more are good than the limits allow. An error
/// says that memory ran out. The watcher is told of each million schedules that were judged, and changes nothing
/// of what comes of it.
pub fn explore<R: Reassembly, W: Watcher>(
    alloc: Global,
    setup: &Setup,
    beginning: Vec<Step>,
    moves: &[Move],
    goal: &Goal,
    limits: Limits,
    watcher: &mut W,
) -> Result<Exploration, AllocError>
    ensures explored { IfOk result (ExploresTo setup.now.nodes moves.now (goal_of goal.now) limits beginning.items) }
    ensures watched { Watched W.hears (judged_count limits) result watcher.old watcher.new }
{
    let actors = Actors::<R>::of(alloc, setup)?;
    let mut explorer = Explorer {
        alloc,
        actors,
        moves,
        goal,
        done: beginning.len(),
    };
    let mut steps = beginning;
    let explored = search_up_to(
        &mut explorer,
        &mut steps,
        limits.steps(),
        limits.schedules(),
        watcher,
    )?;
    Ok(exploration_of(steps, explored))
}
