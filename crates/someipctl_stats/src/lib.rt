//! The command `stats` of `someipctl`: how many calls, answers, events and messages of Service Discovery there were in
//! recordings, and how long answers took and events stayed away.
//!
//! - [`show_stats`]: prints the figures of recordings; [`StatsAsked`]: what of them is asked for;
//! - [`put_figures`]: prints figures;
//! - [`laws`]: lines that are worked out by hand.
//!
//! `account` gives each datagram to the audit behind the figures, and prints them at the end; `counting` says what
//! counts, and `shown` what of it the audit shows; `lacks` is what figures lack since a book was full, and `lacking` has
//! the lines of that. `micros` are moments in microseconds. `figures` goes over what is counted; `lines` are the fields
//! of each line; `times` tells how values spread, and `millis` a time as text.
#![tactic(auto)]

mod account;
mod asked;
mod counting;
mod figures;
mod lacking;
mod lacks;
pub mod laws;
mod lines;
mod micros;
mod millis;
mod shown;
mod times;

pub use account::show_stats;
pub use asked::StatsAsked;
pub use figures::put_figures;
