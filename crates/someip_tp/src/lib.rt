//! SOME/IP-TP: messages with more than 1400 bytes of payload are sent in segments (SOME/IP Protocol,
//! "Transporting large SOME/IP messages by UDP"), and put together again by their receiver. What is sent, and
//! what a store of parts promises, stand in `someip_reassembly`, with a plain body; here stand the body in
//! memory that is reserved once, and the laws.
//!
//! - [`Segments`]: the segments of a message;
//! - [`Sent`]: the pieces of a message as it is sent, alone or in segments;
//! - [`append_piece`], [`append_segment`] and [`append_message`]: their bytes are appended to a
//!   vector;
//! - [`read_segment`]: what the payload of a segment says;
//! - [`Reassembly`]: what a store of messages that have come in part promises, under a
//!   [`ReassemblyKey`] each;
//! - [`IntervalPool`]: its body in memory that is reserved once, and [`SegmentList`], its plain one;
//! - [`run_calls`]: a list of calls of any body;
//! - [`laws`]: what the definitions behind the contracts promise, whatever body keeps them.
//!
//! How [`IntervalPool`] is kept (`src/pool`). All that it needs is reserved when it is made. `slots` holds
//! the parts by rising key, the free rooms, and a moment before which no part had its last segment: it looks
//! for parts that are gone only where there may be one. A part owns the `room` of its slot. A room has the
//! bytes at their places, and for each 16 of them a `block`, which tells for which of the room's messages it
//! is held: nothing is wiped between two messages. Blocks that are held in a row are an interval; its first
//! and last block tell one another, so a block that comes joins its neighbours without a search.
//!
//! A type that holds a store and shows its parts to contracts finds their codes, `coded_parts` and
//! `coded_limits`, in `specs/Parts.antt` of `someip_reassembly`.
#![tactic(auto)]

mod calls;
pub mod laws;
mod moments;
mod pool;

pub use calls::{TpAnswer, TpCall, run_calls};
pub use moments::{are_in_time, calls_in_time_may_be_made, no_part_is_ahead_of_its_caller};
pub use pool::IntervalPool;
pub use someip_reassembly::{
    ALONE_LEN, Offered, Reassembly, ReassemblyKey, SLICE_LEN, Segment, SegmentList, Segments, Sent,
    SentPiece, ShortMessage, TpError, append_message, append_piece, append_segment, read_segment,
};
