//! What the words of a command line of `someipctl` ask for.
//!
//! - [`command_of`]: the [`Command`] that words ask for, or why they ask for none ([`LineError`]);
//! - `command`: what `clap` matched, as commands with their options;
//! - `grammar`: the commands with their arguments, as `clap` is told of them;
//! - `explore_words`, `extract_words`, `report_words`, `stats_words`: the same of `explore`, of `extract`, of
//!   `services` and of `stats`;
//! - `examples`: the text below each help;
//! - [`laws`]: what the definitions behind the contracts promise.
//!
//! A refusal of memory that the standard library can do without is none: the words are read all the same. Any other is
//! `OutOfMemory`.
#![tactic(auto)]

mod command;
mod examples;
mod explore_words;
mod extract_words;
mod grammar;
pub mod laws;
mod report_words;
mod stats_words;

pub use command::{
    AuditOptions, ChoiceOptions, Command, LineError, PacketOptions, RecordingOptions,
    SettingOptions, command_of,
};
pub use explore_words::ExploreOptions;
pub use extract_words::ExtractOptions;
pub use report_words::ReportOptions;
pub use stats_words::StatsOptions;
