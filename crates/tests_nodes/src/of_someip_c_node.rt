//! The node for other languages. Two nodes that talk are `examples/c` and `python/tests`.
//!
//! - `starts`: which texts, names and delays start a node, and the setup of a log;
//! - `outputs`: steps by lines, outputs that are taken one after the other, and endpoints;
//! - `payloads`: payloads, as the texts of their values.

mod outputs;
mod payloads;
mod starts;

use someip_c_node::Outcome;

/// Whether a text was made, or refused, as it is wanted.
fn is_text(made: Result<String, Outcome>, wanted: Result<&str, Outcome>) -> bool {
    match (&made, wanted) {
        (Ok(text), Ok(wanted)) => text.as_str() == wanted,
        (Err(outcome), Err(wanted)) => *outcome == wanted,
        _ => false,
    }
}
