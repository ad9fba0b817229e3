//! What a run over nodes is: the definitions, the lines of a trace, and what holds of every run.
//!
//! - [`Trace`], [`Line`], [`Told`]: what is told of a run;
//! - [`Reuse`]: whether a run reused its keys cleanly;
//! - [`RunError`], [`StepFault`]: why a run has no trace;
//! - [`place_of`]: the node of a name;
//! - [`run_laws`]: what holds of every run, whatever its setup and schedule;
//! - [`liar_laws`]: what liars do in it, and what they can't;
//! - [`exchanges`]: calls, publications and subscriptions, their keys, and clean reuse;
//! - [`number_laws`]: that the numbers of setups and steps fit their fields;
//! - [`example_laws`]: a worked run.
//!
//! A `World` (`specs/Runs.antt`) is the history of each node and the lines so far. `deed_at`
//! (`specs/Deeds.antt`) is what a step does at a place: at a node it takes an input, it is started again, or
//! the step is bad; at a liar bytes go out, or the step is bad. Which addresses are liars' is
//! `specs/Liars.antt`. `run_of` lets the steps happen one after the other. No history is stored: each node
//! stands for its own.
#![tactic(auto)]

mod error;
pub mod example_laws;
pub mod exchanges;
pub mod liar_laws;
mod line;
mod nodes;
pub mod number_laws;
mod reuse;
pub mod run_laws;
mod step_fault;
mod trace;

pub use error::RunError;
pub use line::{Datagram, Line, Told};
pub use nodes::place_of;
pub use reuse::Reuse;
pub use step_fault::StepFault;
pub use trace::Trace;
