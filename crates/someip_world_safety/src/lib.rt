//! What is safe in a run of SOME/IP nodes: some of it in every run, the rest where the run reuses its keys
//! cleanly.
//!
//! - [`laws`]: answers and events that are handed up are those that their servers produced, and a client counts
//!   itself subscribed only where the server accepted its Subscribe; the calls that wait were made, and the
//!   requests that are open were handed up; what is published goes to those who are subscribed, and the offers
//!   that nodes know are configured.
//! - [`safety`]: what the users of a network can rely on, in one law.
//!
//! An answer that is handed up is all that its step gives. That is more than 'each call gets at most one
//! answer' asks, and says it without counting: no earlier step took an answer to the call, and this step
//! gives one output. It holds since a datagram of a node has one message.
//!
//! A subscription is the last of its key. Counters have four bits and come again; so a safe subscription is
//! one whose key no step opened again since it began, and the accepted Subscribe belongs to just that
//! beginning.
#![tactic(auto)]

pub mod laws;
pub mod safety;
