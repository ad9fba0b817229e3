//! Whether a run reused its keys cleanly.

/// Whether a run reused the keys of its exchanges cleanly: no step delivers what belongs to an exchange
/// whose key a newer one has taken, nor mixes the segments of two messages that have one reassembly key.
#[derive(Clone, Copy, Debug, PartialEq, Eq)]
pub enum Reuse {
    /// It did.
    Clean,
    /// The step of this index, counted from 1, broke it. It is the first such step.
    Broken(usize),
}
