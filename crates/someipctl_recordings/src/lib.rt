//! The command `recording` of `someipctl`: the datagrams of a recording of network traffic, message by
//! message, as it is read.
//!
//! - [`show_recording`]: prints what a recording shows; [`Asked`]: what of it is asked for, and
//!   [`WholeLimits`]: what bounds messages that are put together from their segments;
//! - [`ShownRecording`]: how that ended, with what was [`LeftOut`];
//! - [`limits_in`]: the limits that texts say; [`number_or`]: a number of such a text;
//! - [`lists`]: the ports, interfaces, VLAN IDs and addresses that a text names;
//! - [`read_loop`], [`moments`], [`heads`], [`reassembly`]: what comes next of a recording, its moment, the text of
//!   its time, and its endpoints, for whatever else goes over a recording;
//! - [`laws`]: what the definitions behind the contracts promise.
//!
//! `read_loop` asks the reader of a recording what is next; where that needs bytes, it writes out what was
//! printed, and then reads once. `recordings` counts a record that is no datagram (`left_out`), and skips a
//! datagram that is not asked for. `datagrams` goes over its messages; `reassembly` offers segments to the
//! store, and takes a message that is whole into a vector that is used again. With endpoints the text of a
//! datagram goes into a vector first, and `heads` puts time and endpoints before each line. Contracts see
//! `Progress` (`RecordedText.antt`): how many datagrams were shown, the moment of the last, the parts of the
//! store, and whether a fault was shown.
#![tactic(auto)]

mod asked;
pub mod choice;
mod datagrams;
pub mod heads;
pub mod laws;
mod limits;
pub mod lists;
pub mod moments;
pub mod read_loop;
pub mod reassembly;
mod recordings;
pub mod sought;
mod wanted;

pub use asked::{Asked, Heads, WholeLimits};
pub use limits::{LimitsError, limits_in, number_or, number_within};
pub use recordings::{FileFault, ShownRecording, StoppedAt, show_recording};
pub use wanted::{Wanted, is_in_span};
