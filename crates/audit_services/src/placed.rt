//! At which places a key is.
ghost use Rattle.std.specs.Prelude.{◌≡◌};

use someip_tables::Key;

/// A key that is at places: what stands under it ends with what ends such a place. There are four, of which some
/// may be one.
pub trait Placed<P>: Key {
    ghost places: { Self → (P × P) × (P × P) };

    /// The places at which it is.
    fn places(&self) -> ((P, P), (P, P))
        ensures { result ≡ places self.now };
}
