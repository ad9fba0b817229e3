//! The search: all schedules up to a length, shorter ones first.
ghost use Rattle.std.specs.Prelude.{◌≡◌, ◌<◌, ◌≤◌, IfOk};
ghost use Rattle.someip_explore.specs.Search.{longer_by};
ghost use Rattle.someip_explore.specs.Searching.{Comes, Explores, search_all, search_one};
ghost use Rattle.someip_explore.specs.Watching.{HearsOf, Watched, judged_at, judged_in};

use crate::watching::{Watcher, counted};
use std::alloc::AllocError;

/// What a schedule comes to.
#[derive(Clone, Copy, Debug, PartialEq, Eq)]
pub enum Judgement {
    /// A step of it can't happen.
    Bad,
    /// It does not reach the goal.
    Missed,
    /// It reaches the goal.
    Reached,
}

/// What a search behind a beginning came to.
#[derive(Clone, Copy, Debug, PartialEq, Eq)]
pub(crate) enum Ended {
    /// None reaches the goal. So many good ones were judged by then.
    Passed(u64),
    /// One reaches it, with which so many were judged.
    Found(u64),
    /// More are good than may be judged.
    Full,
}

/// What a search came to.
#[derive(Clone, Copy, Debug, PartialEq, Eq)]
pub enum Explored {
    /// One schedule reaches the goal, and none before it. With it so many good ones were judged.
    Found(u64),
    /// None reaches it. So many are good.
    None(u64),
    /// More are good than may be judged. None of so many steps reaches the goal, nor a shorter one.
    Stopped(usize),
}

/// What is searched: how a schedule may go on, and what it comes to.
pub(crate) trait Game<S> {
    ghost use Rattle.std.specs.Prelude.{List};
    ghost use Rattle.someip_explore.specs.declared.search.Judgement.{Judgement};

    ghost goes_on: { Self → List S → List S };

    ghost comes_to: { Self → List S → Judgement };

    /// The steps by which a schedule may go on.
    fn next(&mut self, steps: &[S]) -> Result<Vec<S>, AllocError>
        ensures found { IfOk result (λ found. found.items ≡ goes_on self.old steps.now) }
        ensures kept { self.new ≡ self.old };

    /// What a schedule comes to.
    fn judge(&mut self, steps: &[S]) -> Result<Judgement, AllocError>
        ensures judged { IfOk result (λ judgement. judgement ≡ comes_to self.old steps.now) }
        ensures kept { self.new ≡ self.old };
}

/// What comes of one schedule, where so many were judged before it.
fn search_one<S, G: Game<S>, W: Watcher>(
    game: &mut G,
    steps: &[S],
    judged: u64,
    most: u64,
    watcher: &mut W,
) -> Result<Ended, AllocError>
    requires { judged ≤ most }
    ensures ended { IfOk result (λ ended. Comes (search_one most judged steps.now
        (G.comes_to game.old steps.now)) ended steps.now steps.now) }
    ensures kept { game.new ≡ game.old }
    ensures watched { (first : W) → HearsOf W.hears judged first watcher.old
        → Watched W.hears (judged_at most) result first watcher.new }
{
    Ok(match game.judge(steps)? {
        Judgement::Bad => Ended::Passed(judged),
        _ if judged >= most => Ended::Full,
        Judgement::Missed => Ended::Passed(counted(watcher, judged)),
        Judgement::Reached => Ended::Found(counted(watcher, judged)),
    })
}

/// Tries all schedules with so many more steps behind some. The first that reaches the goal stays.
pub(crate) fn search_behind<S: Drop, G: Game<S>, W: Watcher>(
    game: &mut G,
    steps: &mut Vec<S>,
    left: usize,
    judged: u64,
    most: u64,
    watcher: &mut W,
) -> Result<Ended, AllocError>
    requires { judged ≤ most }
    ensures ended { IfOk result (λ ended. Comes (search_all (G.comes_to game.old) most
        (longer_by (G.goes_on game.old) left steps.old.items) judged)
        ended steps.old.items steps.new.items) }
    ensures kept { game.new ≡ game.old }
    ensures watched { (first : W) → HearsOf W.hears judged first watcher.old
        → Watched W.hears (judged_at most) result first watcher.new }
{
    if left == 0 {
        return search_one(game, steps.as_slice(), judged, most, watcher);
    }
    let choices = game.next(steps.as_slice())?;
    let mut judged = judged;
    for step in choices {
        steps.push(step)?;
        match search_behind(game, steps, left - 1, judged, most, watcher)? {
            Ended::Passed(now) => judged = now,
            ended => return Ok(ended),
        }
        let _last = steps.pop();
    }
    Ok(Ended::Passed(judged))
}

/// Tries all schedules with at most so many more steps behind some, the shorter ones first, of which at
/// most so many may be judged. The first that reaches the goal stays.
pub(crate) fn search_up_to<S: Drop, G: Game<S>, W: Watcher>(
    game: &mut G,
    steps: &mut Vec<S>,
    longest: usize,
    most: u64,
    watcher: &mut W,
) -> Result<Explored, AllocError>
    requires longest { longest < usize.MAX }
    requires most { 0 < most }
    ensures explored { IfOk result (Explores (G.goes_on game.old) (G.comes_to game.old) longest most
        steps.old.items steps.new.items) }
    ensures kept { game.new ≡ game.old }
    ensures watched { Watched W.hears (judged_in most) result watcher.old watcher.new }
{
    let mut judged = 0;
    let mut covered = 0;
    for count in 0..longest + 1 {
        match search_behind(game, steps, count, judged, most, watcher)? {
            Ended::Passed(now) => judged = now,
            Ended::Found(now) => return Ok(Explored::Found(now)),
            Ended::Full => return Ok(Explored::Stopped(covered)),
        }
        covered = count;
    }
    Ok(Explored::None(judged))
}
