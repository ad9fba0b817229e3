//! Laws that the definitions meet, which the contract of `Told::put` cites.

ghost use Rattle.std.specs.Prelude.{◌≡◌, ◌<◌, ℕ, List};
ghost use Rattle.someip_payload_values.specs.Floats.{Precision, SaysBits, bits_size};
ghost use Rattle.someip_payload_values.specs.Numbers.{limit_of};

/// A text says one float of a precision at most, with all its bits.
pub fn a_text_says_one_float()
    ensures { (p : Precision) (a b : ℕ) (text : List ℕ) → a < limit_of (bits_size p)
        → b < limit_of (bits_size p) → SaysBits p a text → SaysBits p b text → a ≡ b }
{}
