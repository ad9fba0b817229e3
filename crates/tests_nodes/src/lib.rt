//! Tests of nodes, of the node for other languages and of runs, and of calls below the program.
//!
//! Tests stand over the crates that they try, since a crate is proved again with its tests. What is tried
//! stands in tables of plain data, and the rows of one kind are tried by one test. Commands with what they print are
//! cases and rows of the folder `sweeps`; of the program stands here what no command line shows.
//!
//! The module `of_CRATE` has the tests of that crate, and those that try it together with crates below it:
//!
//! - `of_someip_node`: nodes, and two in one process;
//! - `of_someip_c_node`: the node for other languages;
//! - `of_someip_world`: runs over both bodies of reassembly;
//! - `of_recording_writing`: packets that are written;
//! - `of_someipctl`: calls that no command line makes.
//!
//! For several of them there is `printed`: how values are printed.
#![tactic(auto)]

#[cfg(test)]
mod of_recording_writing;
#[cfg(test)]
mod of_someip_c_node;
#[cfg(test)]
mod of_someip_node;
#[cfg(test)]
mod of_someip_world;
#[cfg(test)]
mod of_someipctl;
#[cfg(test)]
mod printed;
