//! Laws that the definitions meet, which the contracts of `decode`, `encode`, `Told::put` and `read_value` cite.

ghost use Rattle.std.specs.Prelude.{◌≡◌, ℕ, List, Ok};
ghost use Rattle.someip_payload_values.specs.Check.{checked};
ghost use Rattle.someip_payload_values.specs.Data.{Form, Data};
ghost use Rattle.someip_payload_values.specs.ToldText.{SaysData};
ghost use Rattle.someip_payload_values.specs.Writing.{encoded};
ghost use Rattle.someip_payload_codec.specs.Grammar.{Reads};
ghost use Rattle.someip_payload.specs.ValueReading.{IsTextOfValue, IsOfForm};

pub use someip_payload_codec::laws::{
    a_text_says_one_float, a_value_takes_a_byte, what_is_written_is_read_again,
    what_is_written_is_spelled_so,
};

/// What `Told::put` prints of a value of a shape is a text of it, which `read_value` reads as that value. Each
/// value that `decode` gives or `encode` takes is one of its shape.
pub fn printed_values_read_back()
    ensures text { (f : Form) (d : Data) (text : List ℕ) → checked f ≡ Ok tt → IsOfForm f d
        → SaysData f d text → IsTextOfValue f d text }
    ensures decoded { (f : Form) (d : Data) (bytes : List ℕ) → Reads f d bytes → IsOfForm f d }
    ensures encoded { (f : Form) (d : Data) (bytes : List ℕ) → encoded f d ≡ Ok bytes → IsOfForm f d }
{
    what_is_written_is_spelled_so();
}
