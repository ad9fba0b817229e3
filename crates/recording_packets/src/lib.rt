//! What stands between the packets of recordings and their datagrams.
//!
//! - [`Intake`]: takes packets, one after the other, and tells the datagrams that they give;
//! - [`ChosenPackets`]: which packets it looks at; [`Arrival`]: a datagram, and the number of its packet;
//! - [`LeftOut`]: how many packets gave none, and why;
//! - [`copies`]: which packets a mirrored tap recorded twice;
//! - [`fragments`]: fragments of packets are put together;
//! - [`laws`]: what the definitions behind the contracts promise.
#![tactic(auto)]

mod chosen;
pub mod copies;
pub mod fragments;
mod intake;
pub mod laws;
mod left_out;

pub use chosen::ChosenPackets;
pub use intake::{Arrival, Intake, Taken};
pub use left_out::LeftOut;
