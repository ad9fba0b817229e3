//! What an endpoint shows that an entry names.

/// What an endpoint shows that an entry names, where as many were learnt as may be.
#[derive(Clone, Copy, Debug, PartialEq, Eq)]
pub enum Finding {
    /// No more endpoints are learnt. It is told once.
    Full,
}
