//! Nodes. What they give for datagrams and moments is tested with the command `run`, by `sweeps/nodes`.
//!
//! - `acts`, `nodes`: what is done with a node, and the nodes that it is done with;
//! - `worked`, `waking`, `configs`: the rows;
//! - `embedding`: two nodes in one process.

mod acts;
mod configs;
mod embedding;
mod nodes;
mod waking;
mod worked;

use acts::Row;
use nodes::{OFFERS, WANTS, gives};

/// What is done with the first node of a setup.
const TABLES: &[(&str, &[Row])] = &[
    (OFFERS, worked::AT_SERVER),
    (WANTS, worked::AT_CLIENT),
    (OFFERS, worked::ASTRAY),
    (OFFERS, waking::OF_OFFERS),
    (WANTS, waking::OF_A_CALL),
    (OFFERS, waking::AT_THE_END),
    (OFFERS, configs::RESTARTS),
    (OFFERS, configs::CLOCK),
];

#[test]
fn calls_give_their_lines(rt: HostRuntime) {
    for (index, (setup, rows)) in TABLES.iter().enumerate() {
        assert!(rt; gives(rt.alloc(), setup, rows), "{index}");
    }
}
