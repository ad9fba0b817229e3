//! A value, and until when it lasts.
use crate::deadline::Deadline;

/// A value, and until when it lasts.
#[derive(Clone, Copy, Debug, PartialEq, Eq)]
pub struct Lasting<V> {
    /// What lasts.
    pub value: V,
    /// Until when.
    pub until: Deadline,
}
