//! Traces.

use crate::line::Line;
use crate::reuse::Reuse;

/// What all nodes and liars gave in a run, and the verdict on it.
#[derive(Drop)]
pub struct Trace {
    /// What they gave, in the order in which it came.
    pub lines: Vec<Line>,
    /// Whether the run reused the keys of its exchanges cleanly, or the first step that broke it.
    pub verdict: Reuse,
}
