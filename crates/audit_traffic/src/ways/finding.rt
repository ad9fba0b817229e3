//! What a message shows of its way.

/// What a message shows of its way.
#[derive(Clone, Copy, Debug, PartialEq, Eq)]
pub enum Finding {
    /// The book holds as many ways as it may, so this one is not taken. It is told once in the life of a
    /// book.
    Full,
}
