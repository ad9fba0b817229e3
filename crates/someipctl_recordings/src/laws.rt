//! Laws of the definitions behind the contracts: that `recording` prints what `show` does, in either
//! form. Each is the contract of a function that does nothing.
ghost use Rattle.std.specs.Prelude.{ℕ, ◌≡◌, ◌↔◌, ◌+◌, ◌++◌, List, None, codes, false, map, true};
ghost use Rattle.recording_packets.specs.Intake.{ArrivalValue};
ghost use Rattle.someipctl_io.specs.JsonTexts.{json_text};
ghost use Rattle.someipctl_io.specs.ToldItems.{datagram_head, empty_told, fault_told, head_from};
ghost use Rattle.someipctl_io.specs.ToldLines.{ToldLine, line_json, line_text, origin_text};
ghost use Rattle.someipctl_io.specs.declared.form.Form.TheVariants.{Plain};
ghost use Rattle.someipctl_show.specs.ShownForms.{AreTextsIn};
ghost use Rattle.someipctl_show.specs.ShownText.{AreTexts, has_fault};
ghost use Rattle.std.specs.List.{list_any};
ghost use Rattle.std.specs.Prelude.{◌||◌};
ghost use Rattle.someipctl_recordings.specs.Asked.{AskedValue};
ghost use Rattle.someipctl_recordings.specs.Origins.{origin_fields, twelfth};
ghost use Rattle.someipctl_recordings.specs.RecordedText.{AreRecorded, Progress, after_all, line_head, no_heads};
ghost use Rattle.someipctl_recordings.specs.declared.asked.Heads.{Heads};

/// Without `--frames`, `--endpoints` and `--whole`, `recording` prints of datagrams what `show` prints of a capture
/// that holds them, and ends as `show` does.
pub fn recordings_print_what_show_prints()
    ensures text { (asked : AskedValue) (p : Progress) (datagrams : List ArrivalValue) (text : List ℕ)
        → asked.form ≡ Plain → asked.heads ≡ no_heads → p.store ≡ None
        → (AreRecorded asked p datagrams text
        ↔ AreTexts asked.types (p.datagrams + 1) (map (λ a. a.datagram.payload) datagrams) text) }
    // So it is with `--json`.
    ensures in_each_form { (asked : AskedValue) (p : Progress) (datagrams : List ArrivalValue) (text : List ℕ)
        → asked.heads ≡ no_heads → p.store ≡ None
        → (AreRecorded asked p datagrams text
        ↔ AreTextsIn asked.form asked.types (p.datagrams + 1) (map (λ a. a.datagram.payload) datagrams) text) }
    ensures outcome { (asked : AskedValue) (p : Progress) (datagrams : List ArrivalValue) → p.store ≡ None
        → (after_all asked p datagrams).is_faulty
        ≡ (p.is_faulty || list_any (has_fault asked.types) (map (λ a. a.datagram.payload) datagrams)) }
{}

/// What `--frames` and `--endpoints` put before each plain line is the plain form of the fields that objects have
/// for it.
pub fn a_plain_head_tells_the_same()
    ensures head { (heads : Heads) (a : ArrivalValue) → origin_text (origin_fields heads a) ≡ line_head heads a }
    ensures line { (heads : Heads) (a : ArrivalValue) (k : ℕ) (line : ToldLine)
        → line_text Plain (head_from (origin_fields heads a) k) line
        ≡ line_head heads a ++ line_text Plain (datagram_head k) line }
{}

/// Rows that are worked out by hand: a fault in the third datagram, with all that is asked for, and with the number
/// of its packet alone.
pub fn what_objects_of_recordings_say()
    ensures all { json_text (line_json (head_from (origin_fields (record { frame = true; endpoints = true }) twelfth) 3) (fault_told (codes "Truncated") 16))
        ≡ codes "{\"kind\":\"fault\",\"datagram\":3,\"frame\":12,\"time\":\"1700000000.000005000\",\"from\":\"10.0.0.1:30501\",\"to\":\"10.0.0.2:40001\",\"name\":\"Truncated\",\"at\":16}" }
    ensures frame { json_text (line_json (head_from (origin_fields (record { frame = true; endpoints = false }) twelfth) 3) empty_told)
        ≡ codes "{\"kind\":\"empty\",\"datagram\":3,\"frame\":12}" }
{}
