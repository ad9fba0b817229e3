//! Laws that the definitions meet, which the contracts of `decode` and `encode` cite.

ghost use Rattle.std.specs.Prelude.{◌≡◌, ◌<◌, ◌++◌, ℕ, List, Ok, length};
ghost use Rattle.someip_payload_values.specs.Check.{checked};
ghost use Rattle.someip_payload_values.specs.Data.{Form, Data};
ghost use Rattle.someip_payload_codec.specs.Grammar.{Reads};
ghost use Rattle.someip_payload_codec.specs.Reading.{decoded};
ghost use Rattle.someip_payload_values.specs.Writing.{encoded};

pub use someip_payload_values::laws::a_text_says_one_float;

/// What `encode` writes is read again as the same value, all of it, whatever bytes follow.
pub fn what_is_written_is_read_again()
    ensures { (f : Form) (d : Data) (text more : List ℕ) → encoded f d ≡ Ok text
        → decoded f (text ++ more) ≡ Ok (d, length text) }
{}

/// What `encode` writes is one of the ways in which the value may be spelled.
pub fn what_is_written_is_spelled_so()
    ensures { (f : Form) (d : Data) (text : List ℕ) → encoded f d ≡ Ok text
        → (checked f ≡ Ok tt) × Reads f d text }
{}

/// Each value of a shape that `check_shape` accepts takes at least one byte. So a fixed number of
/// elements is read at most once more than the input has bytes.
pub fn a_value_takes_a_byte()
    ensures { (f : Form) (d : Data) (text : List ℕ) → checked f ≡ Ok tt → Reads f d text
        → 0 < length text }
{}
