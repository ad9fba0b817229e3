//! Events that come in cycles, and which of them fall silent.
//!
//! - [`CycleBook`]: the flows that are watched, each from its last event on;
//! - [`Finding`]: that a book is full; [`SilentEvent`]: an event that did not come for three cycles;
//! - [`laws`]: what the definitions behind the contracts promise.
//!
//! What is watched is in `watch_table`, which finds it by its `watch_place`s; several watches end at once in
//! `ending`.

mod cycle_book;
mod ending;
mod finding;
pub mod laws;
mod watch;
mod watch_place;
mod watch_table;
mod watching;

pub use cycle_book::CycleBook;
pub use finding::{Finding, SilentEvent};
pub use watch::Watch;
