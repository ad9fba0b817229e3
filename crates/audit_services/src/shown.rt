//! What is shown of keys and of places.
use crate::why::Why;

/// What is shown of what stands under keys, which are at places.
#[derive(Clone, Copy)]
pub enum Shown<P, K, V> {
    /// Nothing but that time has gone on.
    Nothing,
    /// A value stands under a key until a TTL in seconds has passed.
    KeyBegins(K, V, u32),
    /// What stands under a key ends.
    KeyEnds(K, Why),
    /// All that stands at a place ends.
    PlaceEnds(P, Why),
    /// All that stands at a place goes on until a TTL in seconds has passed.
    PlaceGoesOn(P, u32),
}
