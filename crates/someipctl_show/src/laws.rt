//! Laws of the definitions behind the contracts: what the lines of captures and of files of vectors
//! say, where a message begins in its datagram, and that both forms of a value tell the same. Each is the
//! contract of a function that does nothing.
ghost use Rattle.std.specs.Prelude.{◌≡◌, ◌↔◌, ◌+◌, ◌++◌, [], ◌∷◌, codes, true, Option, None};
ghost use Rattle.std.specs.Prelude.{ℕ, List, drop, length};
ghost use Rattle.std.specs.List.{flat_map};
ghost use Rattle.hex.specs.Hex.{encode_lower, IsBytes};
ghost use Rattle.someip_wire.specs.declared.WireError.{WireError};
ghost use Rattle.someip_wire.specs.Spelling.{MessageValue, spelling};
ghost use Rattle.someip_wire.specs.Datagram.{Datagram, items};
ghost use Rattle.someip_payload_values.specs.Data.{bool};
ghost use Rattle.someip_texts.specs.Lines.{is_left_out};
ghost use Rattle.someipctl_io.specs.declared.form.Form.TheVariants.{Plain};
ghost use Rattle.someipctl_io.specs.ToldItems.{datagram_head, value_lines};
ghost use Rattle.someipctl_io.specs.ToldLines.{ToldField, fields_text};
ghost use Rattle.someipctl_show.specs.types.Types.{TypesValue};
ghost use Rattle.someipctl_show.specs.types.ValueFields.{AreValueFields};
ghost use Rattle.someipctl_show.specs.ShownText.{AreLines, AreTexts, no_types};
ghost use Rattle.someipctl_show.specs.types.ValueLine.{IsValueLine, TellNoFloats};
ghost use Rattle.someipctl_show.specs.TextKinds.{Joined};
ghost use Rattle.someipctl_show.specs.VectorLines.{IsBadBehind, Said, Says, asks, expects};
ghost use Rattle.someipctl_show.specs.VectorLines.{of_datagram, of_payload};
ghost use Rattle.someipctl_show.specs.Payload.{argument_bytes};
ghost use Rattle.someipctl_show.specs.Capture.{bytes_of, is_bad, is_skipped};

/// What lines say: each datagram's hex says that datagram, and then examples.
pub fn what_lines_say()
    ensures spelled { (bytes : List ℕ) → IsBytes bytes → bytes_of (encode_lower bytes) ≡ Some bytes }
    ensures blanks { bytes_of (codes "12 3 4") ≡ Some (0x12 ∷ 0x34 ∷ []) }
    ensures cases { bytes_of (codes "aF") ≡ Some (0xaf ∷ []) }
    ensures dash { bytes_of (codes " - ") ≡ Some [] }
    ensures odd { is_bad (codes "123") ≡ true }
    ensures late_comment { is_bad (codes " #") ≡ true }
    ensures comment { is_skipped (codes "#") ≡ true }
    ensures blank { is_skipped (codes "  ") ≡ true }
{}

/// What lines of a file of vectors say, by example, and which are bad.
pub fn what_vector_lines_say()
    ensures datagram { Says (codes "datagram 12fF") (asks (of_datagram (0x12 ∷ 0xff ∷ []))) }
    ensures empty { Says (codes "datagram -") (asks (of_datagram [])) }
    ensures payload { Says (codes "payload bool 07") (asks (of_payload bool (7 ∷ []))) }
    ensures expected { (text : List ℕ) → Says (codes "> " ++ text) (expects text) }
    ensures comment { is_left_out (codes "# >") ≡ true }
    // Expected text is bad where no vector stands before it, and HEX that is none, anywhere.
    ensures early { (text : List ℕ) → IsBadBehind [] (codes "> " ++ text) }
    ensures no_hex { (sayings : List Said) (hex : List ℕ) → argument_bytes hex ≡ None
        → IsBadBehind sayings (codes "datagram " ++ hex) }
    ensures two_blanks { argument_bytes (codes " 1") ≡ None }
    ensures bare { (sayings : List Said) → IsBadBehind sayings (codes ">") }
    ensures blank { (sayings : List Said) → IsBadBehind sayings (codes " ") }
{}

/// Where a message begins in its datagram: after the bytes of the messages in front of it. That is
/// the place from which its lines are told, and its payload stands 16 bytes further.
pub fn messages_begin_behind_others()
    // Lines of messages are those of the ones in front, and then of the others from there on.
    ensures lines { (k : ℕ) (front others : List MessageValue) (end : Option WireError)
        (types : TypesValue) (text : List ℕ) → (AreLines types k 0 (items (front ++ others) end) text
        ↔ Joined (AreLines types k 0 (items front None))
        (AreLines types k (length (flat_map spelling front)) (items others end)) text) }
    // 16 bytes after the ones in front, its payload stands in the datagram.
    ensures payload { (front others : List MessageValue) (message : MessageValue)
        (end : Option WireError) (bytes : List ℕ) → Datagram (front ++ message ∷ others) end bytes
        → (rest : List ℕ)
        × (drop (length (flat_map spelling front) + 16) bytes ≡ message.payload ++ rest) }
{}

/// What is printed of datagrams is one text, but for floats: a float may be told by each decimal that is
/// read as it.
pub fn datagrams_have_one_text()
    ensures one { (types : TypesValue) → TellNoFloats types → (k : ℕ) (datagrams : List (List ℕ))
        (a b : List ℕ) → AreTexts types k datagrams a → AreTexts types k datagrams b → a ≡ b }
    // Without a types file nothing is told of floats.
    ensures none { TellNoFloats no_types }
{}

/// The plain line of a value is the plain form of the fields of its object: for such fields it is a line of the
/// value, and each line of the value is that of such fields.
pub fn a_plain_value_tells_the_same()
    ensures line { (types : TypesValue) (k place : ℕ) (m : MessageValue) (fields : List ToldField)
        → AreValueFields types place m fields
        → IsValueLine types k place m (value_lines Plain (datagram_head k) (fields_text Plain fields)) }
    ensures fields { (types : TypesValue) (k place : ℕ) (m : MessageValue) (line : List ℕ)
        → IsValueLine types k place m line → (fields : List ToldField) × AreValueFields types place m fields
        × (line ≡ value_lines Plain (datagram_head k) (fields_text Plain fields)) }
{}
