//! Laws of the definitions behind the contracts. Each is the contract of a function that does
//! nothing.
ghost use Rattle.std.specs.Prelude.{◌≡◌, ℕ, List, true, false, codes, [], ◌∷◌, Some, None};
ghost use Rattle.toml.specs.Data.{Data};
ghost use Rattle.someip_wire.specs.declared.header.MessageType.TheVariants.{Notification, Request, TpNotification};
ghost use Rattle.someipctl_show.specs.types.Examples.{IsOnlyLine, float_types, speed_of, speed_types, named_types, message_with, event_with, keyed, file_with, speed_text, line};
ghost use Rattle.someipctl_show.specs.types.GoodTypes.{has_clash, is_label};
ghost use Rattle.someip_payload_values.specs.Data.{Form};
ghost use Rattle.someip_payload.specs.Named.{NamedForms};
ghost use Rattle.someip_payload.specs.ShapeText.{IsTextIn};
ghost use Rattle.someipctl_show.specs.types.Keys.{kind_of_word, text_at};
ghost use Rattle.someipctl_show.specs.types.Names.{Leads, StandsFor};
ghost use Rattle.someipctl_show.specs.types.References.{Agrees, IsOneOf, KnowsAll, references};
ghost use Rattle.someipctl_show.specs.types.Says.{TextSays, tree_of};
ghost use Rattle.someipctl_show.specs.types.Tables.{has_unknown_key};
ghost use Rattle.someipctl_show.specs.types.Types.{TypesValue};
ghost use Rattle.someipctl_show.specs.types.ValueLine.{IsValueLine, has_value_fault};

/// The line of an event of datagram 3, in which it begins at the place 19: its value, where that takes
/// all bytes of the payload or some, and a fault, whose place counts in the datagram. A member stands
/// behind its name, and a number is told by its name, where it has one.
pub fn what_lines_say()
    ensures value { IsOnlyLine speed_types 3 19 (event_with (0 ∷ 42 ∷ 7 ∷ [])) (codes "3 value speed (42,7)\n") }
    ensures front { IsOnlyLine speed_types 3 19 (event_with (0 ∷ 42 ∷ 7 ∷ 9 ∷ [])) (codes "3 value speed (42,7) used 3 of 4\n") }
    ensures fault { IsOnlyLine speed_types 3 19 (event_with (0 ∷ 42 ∷ [])) (codes "3 value fault Truncated at 37\n") }
    ensures nameless { IsOnlyLine (speed_of Notification None ∷ []) 3 19 (event_with (0 ∷ 42 ∷ 7 ∷ [])) (codes "3 value (42,7)\n") }
    ensures named { IsOnlyLine named_types 3 19 (event_with (0 ∷ 42 ∷ 3 ∷ [])) (codes "3 value speed (speed=42,gear=D)\n") }
    ensures unnamed { IsOnlyLine named_types 3 19 (event_with (0 ∷ 42 ∷ 4 ∷ [])) (codes "3 value speed (speed=42,gear=4)\n") }
    ensures good { has_value_fault speed_types (event_with (0 ∷ 42 ∷ 7 ∷ 9 ∷ [])) ≡ false }
    ensures bad { has_value_fault speed_types (event_with (0 ∷ 42 ∷ [])) ≡ true }
{}

/// A float is told by a decimal that is read as its bits again, and a NaN by its bits in hex alone.
pub fn what_floats_say()
    ensures number { IsValueLine float_types 3 19 (event_with (0x41 ∷ 0xa4 ∷ 0 ∷ 0 ∷ [])) (codes "3 value 20.5\n") }
    ensures nan { IsOnlyLine float_types 3 19 (event_with (0x7f ∷ 0xc0 ∷ 0 ∷ 1 ∷ [])) (codes "3 value nan(7fc00001)\n") }
{}

/// A message has no line where no table has its type, or its Message ID: a segment has none.
pub fn what_has_no_line()
    ensures kind { IsOnlyLine speed_types 3 19 (message_with Request 0x8001 (0 ∷ 42 ∷ 7 ∷ [])) [] }
    ensures segment { IsOnlyLine speed_types 3 19 (message_with TpNotification 0x8001 (0 ∷ 42 ∷ 7 ∷ [])) [] }
    ensures method { IsOnlyLine speed_types 3 19 (message_with Notification 0x8002 (0 ∷ 42 ∷ 7 ∷ [])) [] }
    ensures good { has_value_fault speed_types (message_with Request 0x8001 (0 ∷ 42 ∷ [])) ≡ false }
{}

/// Two tables may have one Message ID where their types differ. Their names do not count.
pub fn what_tables_clash()
    ensures same { has_clash (speed_of Notification None ∷ speed_of Notification (Some (codes "a")) ∷ [])
        ≡ true }
    ensures apart { has_clash (speed_of Notification None ∷ speed_of Request None ∷ []) ≡ false }
    ensures later { has_clash
        (speed_of Request None ∷ speed_of Notification None ∷ speed_of Request None ∷ []) ≡ true }
{}

/// A key is known in the file or in its tables, and not in both, whatever its value.
pub fn what_keys_are_known()
    ensures file { (d : Data) → has_unknown_key (keyed (codes "messages") d) ≡ true }
    ensures table { (d : Data) → has_unknown_key (file_with (keyed (codes "name") d)) ≡ false }
    ensures not_table { (d : Data) → has_unknown_key (file_with (keyed (codes "message") d)) ≡ true }
    ensures not_known { (d : Data) → has_unknown_key (file_with (keyed (codes "id") d)) ≡ true }
{}

/// A name has visible bytes only, and one at least.
pub fn what_names_are()
    ensures name { is_label (codes "speed") ≡ true }
    ensures space { is_label (codes "my speed") ≡ false }
    ensures empty { is_label [] ≡ false }
    ensures ends { is_label (0x21 ∷ 0x7e ∷ []) ≡ true }
    ensures past { is_label (0x7f ∷ []) ≡ false }
{}

/// A word names one of the five types without the TP flag, and only in its own spelling.
pub fn what_types_are_called()
    ensures event { kind_of_word (codes "NOTIFICATION") ≡ Some Notification }
    ensures segment { kind_of_word (codes "TP_NOTIFICATION") ≡ None }
    ensures small { kind_of_word (codes "notification") ≡ None }
{}

/// A text says its tables, and none where it has none; it says nothing where a key is unknown, and a
/// text that is no TOML has no tree.
pub fn what_texts_say()
    ensures tables { TextSays (speed_text []) speed_types }
    ensures empty { TextSays [] [] }
    ensures key { (types : TypesValue) → TextSays (speed_text (line (codes "names = 1"))) types → ⊥ }
    ensures toml { tree_of (codes "message=") ≡ None }
{}

/// What a text says over names depends on those that it refers to alone, and each of these stands for a form.
pub fn what_texts_refer_to()
    ensures agree { (a b : NamedForms) (f : Form) (text : List ℕ) → IsTextIn a f text → Agrees a b (references text)
        → IsTextIn b f text }
    ensures known { (names : NamedForms) (f : Form) (text : List ℕ) → IsTextIn names f text
        → KnowsAll names (references text) }
    ensures longest { references (codes "struct(@speed,limit:@speed_2)") ≡ codes "speed" ∷ (codes "speed_2" ∷ []) }
    ensures unnamed { references (codes "struct(@,@1)") ≡ [] }
{}

/// A name that leads back to itself stands for nothing, and neither does one that refers to such a name.
pub fn what_stands_for_nothing()
    ensures cycle { (types : Data) (name : List ℕ) (f : Form) (text m : List ℕ) → StandsFor types name f
        → text_at name types ≡ Some text → IsOneOf m (references text) → Leads types m name → ⊥ }
    ensures refers { (types : Data) (name text m : List ℕ) (f : Form) → StandsFor types name f
        → text_at name types ≡ Some text → IsOneOf m (references text) → (g : Form) × StandsFor types m g }
{}
