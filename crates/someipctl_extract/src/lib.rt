//! The command `extract` of `someipctl`: the packets of the datagrams of recordings that are asked for, as a
//! recording.
//!
//! - [`extract_recording`]: writes them as it reads; [`ExtractedRecording`]: how that ended;
//! - [`Losses`]: what of them the file does not have;
//! - [`laws`]: what the definitions behind the contracts promise.
//!
//! Which datagrams are asked for is told as `recording` tells it. A datagram that came whole has one packet. Of
//! one that came in fragments, `kept` has the packets until it is whole: each is kept where what `Intake` holds
//! of its IPv4 packet grew by it, and goes where `Intake` no longer holds that.
#![tactic(auto)]

mod extract;
mod kept;
pub mod laws;
mod output;

pub use extract::{ExtractedRecording, extract_recording};
pub use output::Losses;
