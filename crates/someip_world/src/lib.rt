//! A world of SOME/IP nodes: a setup says which nodes there are, a schedule what happens to them, and a
//! run tells what each of them gives.
//!
//! - [`Setup::read`]: the setup of a network, read from TOML;
//! - [`read_schedule`]: the steps of a schedule; [`read_numbered_schedule`]: the same with their lines;
//! - [`run`]: the trace of a schedule over the nodes of a setup, as [`Line`]s, and the verdict on it,
//!   whether it reused the keys of its exchanges cleanly: [`Reuse`];
//! - [`Actors`]: the nodes and liars of a setup, over which one schedule is run after the other: the lines of
//!   each alone.
//!
//! What a run is, the laws of every run and the types of a trace are those of `someip_world_rules`.
//!
//! `actor` is a node or a liar in its place, and `actors` has those of a setup, whatever was run before.
//! `performing` does a step there, `telling` makes lines of what it gave, and `log` keeps the lines and where
//! those stand that tell of datagrams, so `deliver` finds its datagram by number. Nodes have copies of the
//! setup's configurations, which have the same values (`IsCopy` of `someip_node_rules`), so that a setup can
//! be run again.
#![tactic(auto)]

mod actor;
mod actors;
mod log;
mod lying;
mod performing;
mod telling;
mod world_run;

pub use actors::Actors;
pub use someip_world_rules::{
    Line, Reuse, RunError, StepFault, Told, Trace, example_laws, liar_laws, number_laws, run_laws,
};
pub use someip_world_schedule::{
    MethodId, NodeName, NumberedSteps, ScheduleError, SourcePort, Step, StepPayload,
    read_numbered_schedule, read_schedule,
};
pub use someip_world_setup::{Setup, SetupError, SetupNode};
pub use world_run::run;
