//! Laws of the definitions behind the contracts. Each is the contract of a function that does nothing.
ghost use Rattle.std.specs.Prelude.{◌≡◌, ◌≢◌, ◌≤◌, ◌++◌, ℕ, List, Result, Some, codes};
ghost use Rattle.std.specs.declared.io.ErrorKind.{ErrorKind};
ghost use Rattle.std.specs.declared.io.ErrorKind.TheVariants as kinds;
ghost use Rattle.json.specs.Json.{Json as JsonValue, document, max_depth};
ghost use Rattle.json.specs.Print.{print};
ghost use Rattle.json.specs.Tree.{HasNumbers, depth, json_tokens};
ghost use Rattle.someip_payload_values.specs.Data.{bool};
ghost use Rattle.someip_wire.specs.declared.WireError.{WireError};
ghost use Rattle.someip_wire.specs.Spelling.{MessageValue};
ghost use Rattle.someipctl_io.specs.Inputs.{read_fault};
ghost use Rattle.someipctl_io.specs.Items.{item_lines};
ghost use Rattle.someipctl_io.specs.JsonTexts.{json_text};
ghost use Rattle.someipctl_io.specs.Lines.{dropped_line, empty_line, message_line, whole_line};
ghost use Rattle.someipctl_io.specs.ToldExamples.{at_42_in, event, offer, speed_and_gear};
ghost use Rattle.someipctl_io.specs.ToldItems.{datagram_head, dropped_told, empty_told, entry_told, fault_told};
ghost use Rattle.someipctl_io.specs.ToldItems.{item_text, message_told, value_lines, whole_told};
ghost use Rattle.someipctl_io.specs.ToldLines.{HaveNumbers, ToldHead, ToldLine, line_json, line_text};
ghost use Rattle.someipctl_io.specs.ValueObjects.{value_json};
ghost use Rattle.someipctl_io.specs.declared.form.Form.TheVariants as forms;
ghost use Rattle.someipctl_io.specs.declared.input.ReadFault.TheVariants.{CannotRead, OutOfMemory};

/// A read for which memory ran out is told as that, and any other that failed as one that cannot be read.
/// Examples: a folder, and a file that may not be read.
pub fn errors_of_reads_are_told_by_their_kind()
    ensures memory { read_fault kinds.OutOfMemory ≡ OutOfMemory }
    ensures other { (kind : ErrorKind) → kind ≢ kinds.OutOfMemory → read_fault kind ≡ CannotRead }
    ensures folder { read_fault kinds.IsADirectory ≡ CannotRead }
    ensures permission { read_fault kinds.PermissionDenied ≡ CannotRead }
{}

/// The object of a line reads as just the JSON value that is defined of what the line tells: for every head and
/// line, where its numbers fit 64 bits and a value in it does not lie too deep for the reader.
pub fn an_object_reads_as_its_line()
    ensures object { (head : ToldHead) (line : ToldLine)
        → line_text forms.Json head line ≡ json_text (line_json head line) ++ codes "\n" }
    ensures reads { (head : ToldHead) (line : ToldLine) → HasNumbers (line_json head line)
        → depth (line_json head line) ≤ max_depth
        → document (json_text (line_json head line)) ≡ Some (line_json head line) }
    // The text is that which the kit prints of the value.
    ensures printed { (j : JsonValue) → json_text j ≡ print (json_tokens j) }
    // Its numbers fit where those that its fields tell have 64 bits.
    ensures numbers { (head : ToldHead) (line : ToldLine) → HaveNumbers (head.number ++ (head.origin ++ (head.place ++ line.fields)))
        → HasNumbers (line_json head line) }
{}

/// A plain line is the plain form of what is told: the lines of each datagram are those of its items.
pub fn a_plain_line_tells_the_same()
    ensures message { (k : ℕ) (m : MessageValue) → line_text forms.Plain (datagram_head k) (message_told m) ≡ message_line k m }
    ensures whole { (k : ℕ) (m : MessageValue) → line_text forms.Plain (datagram_head k) (whole_told m) ≡ whole_line k m }
    ensures dropped { (k : ℕ) (name : List ℕ)
        → line_text forms.Plain (datagram_head k) (dropped_told name) ≡ dropped_line k name }
    ensures empty { (k : ℕ) → line_text forms.Plain (datagram_head k) empty_told ≡ empty_line k }
    ensures item { (k place : ℕ) (fields : List ℕ) (item : Result MessageValue WireError)
        → item_text forms.Plain (datagram_head k) place fields item
        ≡ item_lines k place (value_lines forms.Plain (datagram_head k) fields) item }
{}

/// Rows that are worked out by hand: a message, an entry of Service Discovery, a fault, and a value.
pub fn what_objects_say()
    ensures message { json_text (line_json (datagram_head 1) (message_told event))
        ≡ codes "{\"kind\":\"message\",\"datagram\":1,\"service\":\"1234\",\"method\":\"8001\",\"length\":11,\"client\":\"0000\",\"session\":\"0001\",\"interface\":\"01\",\"type\":\"NOTIFICATION\",\"code\":\"00\",\"payload\":\"002a03\"}" }
    ensures entry { json_text (line_json (datagram_head 2) (entry_told offer))
        ≡ codes "{\"kind\":\"offer\",\"datagram\":2,\"service\":\"1234\",\"instance\":\"0001\",\"major\":\"01\",\"ttl\":3,\"minor\":0,\"run1\":[{\"option\":\"load\",\"priority\":5,\"weight\":6}],\"run2\":[]}" }
    ensures fault { json_text (line_json (datagram_head 3) (fault_told (codes "Truncated") 16))
        ≡ codes "{\"kind\":\"fault\",\"datagram\":3,\"name\":\"Truncated\",\"at\":16}" }
    ensures value { json_text (value_json speed_and_gear (at_42_in 3)) ≡ codes "{\"speed\":42,\"gear\":\"D\"}" }
    ensures nameless { json_text (value_json bool (at_42_in 3)) ≡ codes "[42,3]" }
    ensures number { json_text (value_json speed_and_gear (at_42_in 4)) ≡ codes "{\"speed\":42,\"gear\":4}" }
{}
