//! What goes over the datagrams of recordings and prints what it tells of them, whatever that is.
//!
//! - [`Account`]: takes one datagram after the other, and prints what it tells of each, and at the end;
//! - [`give_account`]: reads recordings as one, and gives their datagrams to an account.
//!
//! `read_loop` of `someipctl_recordings` reads, `recording_packets` makes packets datagrams, and the account does the
//! rest. So a command over recordings is an account and its options.
#![tactic(auto)]

mod account;
mod giving;

pub use account::Account;
pub use giving::give_account;
