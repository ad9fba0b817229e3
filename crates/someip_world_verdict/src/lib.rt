//! What is kept of a run beside its nodes, to judge whether it reuses the keys of its exchanges cleanly.
//!
//! - [`verdict_on`]: the first step of a run that breaks clean reuse, if one does;
//! - [`example_laws`]: verdicts by example;
//! - `ledger` keeps it, `booking` says how a step changes it, and `breach` what breaks clean reuse.
//!
//! Clean reuse is defined over the turns of a run: which rule of a node gave each datagram, and in which
//! steps exchanges opened. The program has the steps and the lines of the trace alone. So [`verdict_on`] goes
//! over them once and keeps a book (`specs/Books.antt`): of each key the step that opened its newest exchange
//! (`taken`); of each datagram a note, by its own bytes and endpoints, of what it says of exchanges
//! (`content`), and of a segment its reassembly key and its message's payload; of each node's present life
//! its clock, the counter of its last Subscribe of each eventgroup, the session of its last publication of
//! each event, for each token the step that sent its request, and the last segment under each reassembly key.
//! Each step costs its bytes and its entries, times a look-up.
//!
//! `proofs/Kept.antt` says what each part of the book means in the run, and the lemmas beside it that this
//! stays so; `CheckLemmas` that what the book says of a breach is so. What a node writes is read back
//! (`ContentLemmas`). That the counter of a Subscribe tells whether it begins a subscription is a law of
//! `someip_world_rules::exchanges`.
#![tactic(auto)]

mod booking;
mod breach;
mod content;
pub mod example_laws;
mod ledger;
mod life;
mod note;
mod numbers;
mod opening;
mod publishing;
mod said;
mod stream;
mod taken;
mod telling;
mod verdict;

pub use verdict::verdict_on;
