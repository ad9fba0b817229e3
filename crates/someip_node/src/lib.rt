//! A SOME/IP node: it offers services and uses others, by datagrams that are carried for it.
//!
//! - [`Node`]: a node, driven from outside; [`Config`] is what it is started with, [`Output`] what it
//!   gives, [`NodeError`] why it refuses.
//!
//! What a node is and does is defined in `someip_node_rules`, and `someip_node_engine` carries it out; what
//! holds of every node, whatever it met, and worked steps stand in `someip_node_laws`.
//!
//! A node is driven from outside: datagrams, milliseconds and calls of the application go in, and each call
//! answers a list of [`Output`]s. It opens no socket, reads no clock and starts no thread. It holds an
//! `Engine` and a flag that says whether memory ran out. `proofs/HandledLemmas.antt` joins the engine's
//! contracts, over tables, to the rules, over histories.
#![tactic(auto)]

mod node;

pub use node::Node;
pub use someip_node_rules::{
    Common, Config, DropReason, NodeError, OfferedService, Output, Payload, WantedService,
};
