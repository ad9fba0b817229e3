//! What the rules of a SOME/IP node promise, whatever code carries them out.
//!
//! Each law is the contract of a function that does nothing; its proof stands in `proofs/`.
//!
//! - [`laws`]: what a node has in its tables is the answer to what it met, and how long it stands;
//! - [`given_laws`]: by which rule something was given, and what of the input the rule was about;
//! - [`limit_laws`], [`subscriber_laws`], [`fit_laws`]: how much a node holds, and that the numbers that it
//!   sends fit their fields;
//! - [`run_example_laws`]: what came, and what was replied, in a worked run of two nodes.
//!
//! The definitions that these laws alone need stand in `specs/`.
#![tactic(auto)]

pub mod fit_laws;
pub mod given_laws;
pub mod laws;
pub mod limit_laws;
pub mod run_example_laws;
pub mod subscriber_laws;
