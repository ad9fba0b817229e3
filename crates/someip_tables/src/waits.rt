//! What may wait for a moment.
ghost use Rattle.std.specs.Prelude.{◌≡◌, ℕ, Option};
ghost use Rattle.someip_tables.specs.Waits.{earlier};

/// What may wait for a moment.
pub trait Waits: Copy {
    ghost moment: { Self → Option ℕ };

    /// The moment that it waits for, in milliseconds since the node's start, if there is one.
    fn waits_for(&self) -> Option<u64>
        ensures { result ≡ moment self.now };
}

/// The earlier of two moments, or the one that there is.
pub fn earlier(a: Option<u64>, b: Option<u64>) -> Option<u64>
    ensures { result ≡ earlier a b }
{
    match (a, b) {
        (Some(x), Some(y)) => Some(x.min(y)),
        (Some(x), None) => Some(x),
        (None, _) => b,
    }
}
