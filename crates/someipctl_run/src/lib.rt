//! The command `run` of `someipctl`: what a schedule brings about in a network of nodes.
//!
//! - [`read_setup`]: the setup of the network;
//! - [`run_schedule`], [`run_schedule_in_form`]: runs a schedule over it, and writes the trace, of which
//!   a [`TraceForm`] says what stands before its lines; [`run_schedule_objects`]: the same as JSON objects;
//! - [`read_expected`], [`compare_schedule`]: compares the trace, or its beginning, with what a file
//!   expects, of which an [`Extent`] says how much it is;
//! - [`told_text`]: what a line of a trace tells;
//! - [`chart`]: the command `chart`, a picture of a run;
//! - [`laws`]: what the definitions promise.
//!
//! The lines of a trace stand in `trace_lines`, what they tell in `outputs`, and the lines of a schedule by
//! which they came in `step_lines`. As objects they stand in `objects`; what those tell is a list of fields, in
//! `told_outputs`.
#![tactic(auto)]

pub mod chart;
mod comparing;
mod error;
mod expected;
mod form;
pub mod laws;
mod objects;
mod outputs;
mod running;
mod setups;
mod step_lines;
mod told_line;
mod told_outputs;
mod trace_lines;

pub use comparing::compare_schedule;
pub use error::{BadTraceLine, ScheduleRefusal, SetupRefusal};
pub use expected::read_expected;
pub use form::{Extent, TraceForm};
pub use outputs::told_text;
pub use running::{run_schedule, run_schedule_in_form, run_schedule_objects};
pub use setups::read_setup;
