//! What is done in a world of SOME/IP nodes, step by step, as the lines of a schedule say it.
//!
//! - [`read_schedule`]: the steps of a schedule; [`Step`] is one of them, of the node of a
//!   [`NodeName`]; in it [`MethodId`], [`SourcePort`] and [`StepPayload`];
//! - [`step_of_line`]: the step that a line spells; [`WordFault`]: why it spells none;
//! - [`read_numbered_schedule`]: the same as the first, with the lines on which the steps stand, as
//!   [`NumberedSteps`];
//! - [`ScheduleError`]: why a text is no schedule;
//! - [`schedule_laws`]: what the definitions behind its contract promise.
#![tactic(auto)]

mod error;
mod schedule;
pub mod schedule_laws;
mod step;
mod step_kind;
mod step_method;
mod step_name;
mod step_payload;
mod step_port;
mod step_reading;
mod step_words;

pub use error::ScheduleError;
pub use schedule::{NumberedSteps, read_numbered_schedule, read_schedule};
pub use step::Step;
pub use step_method::MethodId;
pub use step_name::NodeName;
pub use step_payload::StepPayload;
pub use step_port::SourcePort;
pub use step_reading::step_of_line;
pub use step_words::WordFault;
