//! A key at the moment that its value waits for.

/// A key at the moment that its value waits for: by rising moment, and then by key.
#[derive(Clone, Copy, Debug, PartialEq, Eq, PartialOrd, Ord)]
pub struct Due<K> {
    /// The moment, in milliseconds.
    pub at: u64,
    /// The key.
    pub key: K,
}
