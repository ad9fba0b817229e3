//! What stands, and the intervals in which it stood. All moments are in milliseconds.
use crate::why::Why;

/// What stands, and since when without a break.
#[derive(Clone, Copy, Debug, PartialEq, Eq)]
pub struct Since<V> {
    /// What stands.
    pub value: V,
    /// The moment from which on it stands.
    pub since: u64,
}

/// A time in which something stood without a break. It stood at the first moment, and at the last no longer.
#[derive(Clone, Copy, Debug, PartialEq, Eq)]
pub struct Interval<V> {
    /// What stood.
    pub value: V,
    /// The first moment.
    pub from: u64,
    /// The last moment.
    pub until: u64,
    /// Why it ended.
    pub why: Why,
}

/// An interval that ended, and the key under which it was.
#[derive(Clone, Copy, Debug, PartialEq, Eq)]
pub struct Ended<K, V> {
    /// The key.
    pub key: K,
    /// The interval.
    pub interval: Interval<V>,
}
