//! The program `someipctl`: what it does with its words, and how it ends.
//!
//! What a command reads, does and prints stands in `someipctl_show`, of `recording` and `audit` in
//! `someipctl_recordings`, of `extract` in `someipctl_extract`, of `services` in
//! `someipctl_services`, of `stats` in `someipctl_stats`, of `run` and `chart` in `someipctl_run`, and of
//! `explore` in `someipctl_explore`.
//!
//! - `help`: the answer to words that ask for no command;
//! - `program`: the words, and the exit status;
//! - `options`, `source`: what options ask for, and the files that are named;
//! - `error_writer`: standard error, as a writer;
//! - `recordings`, `runs`, `explorations`: the commands over recordings, and over setups;
//! - `failure`: why the program failed, with its exit status and its text.
//!
//! What the words ask for stands in `someipctl_words`.
//!
//! A refusal of memory that the standard library can do without is none. One of the some 45 allocations of
//! a run is such, while the arguments are read; each other one ends the program with exit status 3 before
//! anything was written.
#![tactic(auto)]

mod error_writer;
mod explorations;
mod failure;
mod help;
mod options;
mod program;
mod recordings;
mod runs;
mod source;

pub use failure::{Failure, OptionName, Refusal};
pub use help::answer_error;
pub use program::{answer, report, run, words_of};
