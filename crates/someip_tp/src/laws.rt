//! Laws of the definitions behind the contracts. Each is the contract of a function that does
//! nothing: it says what holds of segments, parts and calls, whatever body keeps them.
ghost use Rattle.std.specs.Prelude.{◌≡◌, ◌≢◌, ◌↔◌, ◌+◌, ◌<◌, ◌≤◌, ◌^◌, ◌%◌, ℕ, List, [], length, Some, None, Result, Ok, Err, is_some, Bool, true};
ghost use Rattle.std.specs.FinMap as map;
ghost use Rattle.std.specs.FinMap.{get, len};
ghost use Rattle.std.specs.List.{AllByRecursion, Contains};
ghost use Rattle.someip_wire.specs.Spelling.{MessageValue, Fits, spelling};
ghost use Rattle.someip_wire.specs.Faults.{length_field};
ghost use Rattle.someip_tp.specs.declared.calls.TpCall.{TpCall};
ghost use Rattle.someip_reassembly.specs.declared.error.TpError.{TpError};
ghost use Rattle.someip_reassembly.specs.declared.error.TpError.TheVariants.{OutOfMemory};
ghost use Rattle.someip_reassembly.specs.declared.key.ReassemblyKey.{ReassemblyKey};
ghost use Rattle.someip_reassembly.specs.declared.reassembly.Offered.{Offered};
ghost use Rattle.someip_reassembly.specs.declared.reassembly.Offered.TheVariants.{Part as InPart};
ghost use Rattle.someip_reassembly.specs.declared.reassembly.Offered.TheVariants.{Whole};
ghost use Rattle.someip_reassembly.specs.TpHeader.{segment_in};
ghost use Rattle.someip_reassembly.specs.Segments.{SegmentValue, segment_message};
ghost use Rattle.someip_reassembly.specs.Sent.{piece_message, segments_of, sent};
ghost use Rattle.someip_reassembly.specs.Parts.{Limits, Part, Parts, parts_at};
ghost use Rattle.someip_reassembly.specs.SegmentOffers.{SegmentOffer, judgement, parts_after, message_of, message_at};
ghost use Rattle.someip_reassembly.specs.SegmentOffers.{parts_less, no_part, with_offer};
ghost use Rattle.someip_tp.specs.Arrivals.{AllArrive};
ghost use Rattle.someip_tp.specs.Accepted.{HoldsOnly, IsSegmentOf, accepted_through};
ghost use Rattle.someip_tp.specs.Blocks.{IsInterval};
ghost use Rattle.someip_tp.specs.Wholes.{IsWhole, IsWithin};
ghost use Rattle.someip_tp.specs.Calls.{parts_through};

/// The Length field of a segment is 12 and the bytes of its slice (SOME/IP Protocol, "SOME/IP-TP
/// header").
pub fn the_length_of_a_segment_is_12_and_its_slice()
    ensures { (segment : SegmentValue) → 12 + length segment.slice < 2 ^ 32
        → length_field (spelling (segment_message segment)) ≡ 12 + length segment.slice }
{}

/// What is sent as a segment is read as its offset, More Segments and its slice; so is each segment of
/// a message whose numbers fit their fields.
pub fn a_segment_is_read_as_it_was_sent()
    ensures any { (segment : SegmentValue) → segment.offset % 16 ≡ 0 → segment.offset < 2 ^ 32
        → segment_in (segment_message segment).payload
        ≡ Ok (segment.offset, segment.more, segment.slice) }
    ensures own { (message : MessageValue) (segment : SegmentValue) → Fits message
        → Contains (segments_of message) segment
        → segment_in (segment_message segment).payload
        ≡ Ok (segment.offset, segment.more, segment.slice) }
{}

/// The pieces of a message whose numbers fit their fields are messages whose numbers do: what is sent
/// of it is read as it was written.
pub fn each_piece_of_a_message_fits()
    ensures { (message : MessageValue) → Fits message
        → AllByRecursion (λ piece. Fits (piece_message piece)) (sent message) }
{}

/// A part is whole exactly where its places are those below its total, and its message is then its
/// bytes in order: a byte that came twice counts once, and no gap is left.
pub fn a_message_is_the_bytes_of_a_whole_part()
    ensures { (part : Part) (message : List ℕ)
        → (message_of part ≡ Some message) ↔ IsWhole part message }
{}

/// A part into which only segments of one message were accepted gives that message's payload if it is
/// whole, whatever else happened to it and to other keys.
///
/// Step by step: a part of which nothing has come holds no byte but the payload's, a segment of the
/// message changes nothing in that, and where it is whole it is the payload. And for any list of
/// calls: where all segments that were accepted into the part that now stands under a key are the
/// message's, what can be taken under that key is its payload.
pub fn a_part_of_one_message_gives_its_payload()
    ensures begins { (payload : List ℕ) → HoldsOnly payload no_part }
    ensures accepts { (message : MessageValue) (part : Part) (now : ℕ) (segment : SegmentOffer)
        → HoldsOnly message.payload part → IsSegmentOf message segment
        → HoldsOnly message.payload (with_offer part now segment) }
    ensures whole { (payload : List ℕ) (part : Part) (bytes : List ℕ)
        → HoldsOnly payload part → message_of part ≡ Some bytes → bytes ≡ payload }
    ensures calls { (limits : Limits) (message : MessageValue) (key : ReassemblyKey)
        (calls : List TpCall) (bytes : List ℕ)
        → AllByRecursion (IsSegmentOf message) (accepted_through limits key calls map.empty [])
        → message_at (parts_through limits calls map.empty) key ≡ Some bytes
        → bytes ≡ message.payload }
{}

/// All segments of a message make it whole, in whatever order they are offered and however often, to a
/// store that has no part of their key and a free slot. What else is called between them changes
/// nothing, as long as each comes less than the timeout after the one before, the store is told no
/// later moment, and the part is neither taken nor dropped.
pub fn all_segments_of_a_message_make_it_whole()
    ensures { (limits : Limits) (message : MessageValue) (parts : Parts) (now : ℕ) (first : SegmentOffer)
        (calls : List TpCall)
        → get parts first.key ≡ None → len parts < limits.slots
        → length message.payload ≤ limits.limit
        → AllArrive limits message now first calls
        → message_at (parts_through limits calls (parts_after limits now first parts)) first.key
        ≡ Some message.payload }
{}

/// An accepted segment answers `Whole` where it leaves a message that can be taken under its key, and
/// `Part` where it leaves none.
pub fn what_an_offer_makes_whole_can_be_taken()
    ensures whole { (limits : Limits) (now : ℕ) (segment : SegmentOffer) (parts : Parts)
        → judgement limits now segment parts ≡ Ok Whole
        → is_some (message_at (parts_after limits now segment parts) segment.key) ≡ true }
    ensures part { (limits : Limits) (now : ℕ) (segment : SegmentOffer) (parts : Parts)
        → judgement limits now segment parts ≡ Ok InPart
        → message_at (parts_after limits now segment parts) segment.key ≡ None }
{}

/// Whatever calls are made of a store that begins without parts, it never holds more parts than it
/// has slots, nor a byte at or past the message limit.
pub fn parts_stay_within_limits()
    ensures { (limits : Limits) (calls : List TpCall)
        → IsWithin limits (parts_through limits calls map.empty) }
{}

/// The same, call by call, so that it also holds where memory ran out: no parts, as after `make`
/// and `clear`, are within all limits, and where the parts are within them before a call, they are
/// afterwards.
pub fn each_call_keeps_parts_within_limits()
    ensures none { (limits : Limits) → IsWithin limits map.empty }
    ensures offer { (limits : Limits) (now : ℕ) (segment : SegmentOffer) (parts : Parts)
        → IsWithin limits parts → IsWithin limits (parts_after limits now segment parts) }
    // The same of the parts that are left by a call of `offer`, which may have run out of memory.
    ensures offered { (limits : Limits) (now : ℕ) (segment : SegmentOffer) (parts left : Parts)
        (result : Result Offered TpError)
        → (result ≢ Err OutOfMemory → left ≡ parts_after limits now segment parts)
        → (result ≡ Err OutOfMemory → left ≡ parts_at limits now parts)
        → IsWithin limits parts → IsWithin limits left }
    ensures take { (limits : Limits) (key : ReassemblyKey) (parts : Parts)
        → IsWithin limits parts → IsWithin limits (parts_less parts key) }
    ensures expire { (limits : Limits) (now : ℕ) (parts : Parts)
        → IsWithin limits parts → IsWithin limits (parts_at limits now parts) }
{}

/// Intervals of held blocks are apart: one that has a block of a row of held ones has them all, and two
/// that share a block, or touch, are one. So a slice that lies over some leaves one in their place.
pub fn intervals_are_apart()
    ensures whole { (held : ℕ → Bool) (first last from to block : ℕ) → IsInterval held first last
        → ((k : ℕ) → from ≤ k → k < to → held k ≡ true)
        → first ≤ block → block ≤ last → from ≤ block → block < to → (first ≤ from) × (to ≤ last + 1) }
    ensures apart { (held : ℕ → Bool) (a b c d : ℕ) → IsInterval held a b → IsInterval held c d
        → c ≤ b + 1 → a ≤ d + 1 → (a ≡ c) × (b ≡ d) }
{}
