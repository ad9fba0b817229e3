//! How much may be kept, and that there is no room for more.

/// How much figures may keep.
#[derive(Clone, Copy)]
pub struct FigureLimits {
    /// Of how many methods, of how many events, and of how many ways of Service Discovery.
    pub keys: usize,
    /// How many calls may wait for an answer at once.
    pub calls: usize,
}

/// That there is no room for something. Each is told once in the life of figures.
#[derive(Clone, Copy, Debug, PartialEq, Eq)]
pub enum Full {
    /// For the figures of one more method.
    Methods,
    /// For the figures of one more event.
    Events,
    /// For the figures of one more way of Service Discovery.
    Discovery,
    /// For one more call that waits for its answer.
    Calls,
}
