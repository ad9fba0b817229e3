//! What the calls of a node have in common.

/// A call of the node that a handle has: its outcome, as a number. The handle has the node again after it;
/// one that has none is told as closed.
macro_rules! on_node {
    ($handle:ident, $alloc:ident, |$node:ident| $call:expr) => {
        match $handle.open($alloc) {
            Some(mut $node) => {
                let outcome = $call;
                $handle.hold($node);
                outcome.number()
            }
            None => Outcome::Closed.number(),
        }
    };
}

pub(crate) use on_node;
