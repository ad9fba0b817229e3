//! The sessions of events in a recording: which event came twice, which was overtaken, and which were lost
//! (SOME/IP Protocol, "Session ID").
//!
//! - [`SequenceBook`]: the last event of each flow, and the sessions that are missing; [`SequenceRules`]: its
//!   settings; [`Counting`]: which events a sender counts together;
//! - [`Finding`]: what an event shows; [`crate::gaps::LostEvent`]: what falls due;
//! - [`laws`]: what the definitions behind the contracts promise.

mod counting;
mod finding;
pub mod laws;
mod sequence_book;

pub use counting::Counting;
pub use finding::Finding;
pub use sequence_book::{SequenceBook, SequenceRules};
