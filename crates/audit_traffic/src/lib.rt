//! What calls, events and segments show in a recording, a book for each kind:
//!
//! - [`calls`]: reused keys, late, repeated and unasked answers, and calls without one;
//! - [`cycles`]: events that come in cycles, and which of them fall silent; no audit uses it yet;
//! - [`events`]: which event came twice, which is behind, and which sessions it skips;
//! - [`gaps`]: the sessions of events that are missing, for as long as they may still come;
//! - [`segments`]: what each segment makes of its message, and which messages stay in part;
//! - [`sequence`]: which event was overtaken, and which were lost, over `events` and `gaps`;
//! - [`ways`]: between which endpoints messages went one way alone.
#![tactic(auto)]

pub mod calls;
pub mod cycles;
pub mod events;
pub mod gaps;
pub mod segments;
pub mod sequence;
pub mod ways;
