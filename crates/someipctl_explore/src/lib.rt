//! The command `explore` of `someipctl`: which schedule of some moves is the first that reaches a goal.
//!
//! - [`read_moves`]: the moves of a file, one a line; [`MovesRefusal`] is why there are none;
//! - [`goal_in`]: the goal that texts spell; [`GoalRefusal`] is why they spell none;
//! - [`explore_schedules`]: tries the schedules that begin as a text spells, and writes what came of it;
//!   meanwhile [`Notes`] tell how far it has come, as [`Progress`] says;
//! - [`laws`]: that what is printed of a schedule reads as its steps.
//!
//! The line of a step stands in `step_lines`, what is printed of a search in `result_texts`. All is made
//! before the first byte is written: where memory runs out, nothing is.
#![tactic(auto)]

mod error;
mod exploring;
mod goals;
pub mod laws;
mod moves_reading;
mod notes;
mod result_texts;
mod step_lines;
mod whole_steps;

pub use error::{GoalRefusal, MovesRefusal};
pub use exploring::explore_schedules;
pub use goals::goal_in;
pub use moves_reading::read_moves;
pub use notes::{Notes, Progress};
