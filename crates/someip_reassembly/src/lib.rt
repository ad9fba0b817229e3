//! SOME/IP-TP: a message with more than 1400 bytes of payload is sent in segments (SOME/IP Protocol,
//! "Transporting large SOME/IP messages by UDP"), and put together again by its receiver. `someip_tp` shows
//! all of it, with a store in memory that is reserved once.
//!
//! - [`Segments`]: the segments of a message; [`Sent`]: its pieces as it is sent, alone or in segments;
//! - [`append_piece`], [`append_segment`] and [`append_message`]: their bytes are appended to a vector;
//! - [`read_segment`]: what the payload of a segment says;
//! - [`ALONE_LEN`] and [`SLICE_LEN`]: the most bytes of a payload in one piece, and of a segment's slice;
//! - [`TpError`]: why a segment is refused, or a message is not put together;
//! - [`Reassembly`]: what a store of messages that have come in part promises, under a
//!   [`ReassemblyKey`] each; [`Offered`]: what a segment made of its message;
//! - [`SegmentList`]: its plain body;
//! - what another body needs as well: [`Arrived`], a segment that arrived; [`totals`], what a segment
//!   tells of its message's total; [`begin_alike`].
//!
//! The trait is the contract of every store: its clauses speak of a map from keys to parts, and of nothing
//! else, so a body can be replaced. [`SegmentList`] is the plain body: `partials` finds the part of a key in
//! a list, `partial` holds one message, and `slices` its accepted slices by rising offsets, which tell
//! whether a slice clashes and how far the message goes without a gap.
#![tactic(auto)]

mod appending;
mod error;
mod key;
mod partial;
mod partials;
mod reassembly;
mod segment;
mod segment_list;
mod segments;
mod sent;
mod slices;
pub mod totals;

pub use appending::{append_message, append_piece, append_segment};
pub use error::TpError;
pub use key::ReassemblyKey;
pub use partials::Arrived;
pub use reassembly::{Offered, Reassembly};
pub use segment::{Segment, read_segment};
pub use segment_list::SegmentList;
pub use segments::{SLICE_LEN, Segments};
pub use sent::{ALONE_LEN, Sent, SentPiece, ShortMessage};
pub use slices::begin_alike;
