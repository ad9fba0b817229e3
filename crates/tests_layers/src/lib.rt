//! Tests of what is read and written (messages, payloads, segments and their reassembly, Service Discovery
//! messages, recordings), and of the cores: sessions, Service Discovery at both ends, and calls and answers, with the
//! tables with deadlines or moments below them.
//!
//! Tests stand over the crates that they try, since a crate is proved again with its tests. The module
//! `of_CRATE` has the tests of that crate. What is tried stands in tables, each a text of a line for each act, which costs
//! the prover nothing: `acts` says how a line is read, and `judging` what its answer is held against. The head of a module says
//! what its acts are. Most tests are swept by `sweeps/memory.sh`, which refuses them one growth of memory after the other.
#![tactic(auto)]

#[cfg(test)]
mod acts;
#[cfg(test)]
mod judging;
#[cfg(test)]
mod of_recording;
#[cfg(test)]
mod of_sd_core;
#[cfg(test)]
mod of_sd_session;
#[cfg(test)]
mod of_sd_wire;
#[cfg(test)]
mod of_someip_payload;
#[cfg(test)]
mod of_someip_rpc;
#[cfg(test)]
mod of_someip_tp;
#[cfg(test)]
mod of_someip_wire;
