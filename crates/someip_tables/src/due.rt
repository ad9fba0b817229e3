//! A key at its deadline, or at the moment that its value waits for.

/// A key at its deadline, or at the moment that its value waits for: by rising moment, and then by key.
#[derive(Clone, Copy, PartialEq, Eq, PartialOrd, Ord)]
pub(crate) struct Due<K> {
    /// The deadline or moment, in milliseconds since the node's start.
    pub(crate) at: u64,
    pub(crate) key: K,
}
