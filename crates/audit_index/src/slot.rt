//! Keys at their places.

/// A key at its place, or the beginning of the place, which comes before each key.
#[derive(Clone, Copy, Debug, PartialEq, Eq, PartialOrd, Ord)]
pub struct Slot<P, K> {
    /// The place.
    pub place: P,
    /// The key.
    pub key: Option<K>,
}
