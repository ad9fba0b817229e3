//! Every schedule up to a length: which is the first that reaches a goal.
//!
//! - [`explore`]: tries the schedules that begin with some steps and go on by moves, up to [`Limits`], and
//!   tells what they came to as [`Exploration`];
//! - [`Move`]: by which steps a schedule may go on, as a line spells it; [`PlainMove`] is one of a single step;
//! - [`Goal`]: what a schedule is to bring about;
//! - [`Judgement`]: what a schedule comes to; [`Explored`]: what a search among schedules comes to;
//! - [`Watcher`]: who is told how far a search has come;
//! - [`laws`]: that one schedule has one trace and one verdict; which schedules are tried; examples.
//!
//! `search` knows nothing of nodes: it tries lists of steps, by a trait that says how one may go on and what
//! it comes to. Which lists these are, and in which order, is `specs/Search.antt`. A schedule is judged by
//! its trace and the verdict on it (`trace_of` and `verdict_of` of `specs/Traces.antt`), which are functions of
//! setup and steps. So 'reaches' is said of no code.
#![tactic(auto)]

mod answers;
mod deliveries;
mod exploring;
mod goal;
pub mod laws;
mod limits;
mod misfits;
mod move_reading;
mod moves;
mod numbers;
mod plain_move;
mod reaching;
mod search;
mod traced;
mod watching;
mod words;

pub use exploring::{Exploration, explore};
pub use goal::Goal;
pub use limits::Limits;
pub use moves::Move;
pub use plain_move::PlainMove;
pub use search::{Explored, Judgement};
pub use watching::Watcher;
