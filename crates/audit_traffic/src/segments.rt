//! Segments of messages in a recording (SOME/IP Protocol, "SOME/IP-TP"): the messages that are put
//! together from them, the segments that reassembly refuses, and the messages of which segments are
//! missing.
//!
//! - [`SegmentBook`]: the messages that have come in part, over any body of `Reassembly`;
//! - [`SegmentRules`]: its settings;
//! - [`SegmentTold`] and [`Missing`]: what is told;
//! - [`laws`]: the definitions behind the contracts, by example.

mod key;
pub mod laws;
mod pieces;
mod segment_book;
mod told;
mod waiting;

pub use segment_book::{SegmentBook, SegmentRules};
pub use told::{Missing, SegmentTold};
