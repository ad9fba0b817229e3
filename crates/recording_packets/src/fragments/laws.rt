//! Laws of the definitions behind the contracts. Each is the contract of a function that does
//! nothing.
ghost use Rattle.std.specs.Prelude.{◌≡◌, ◌≢◌, ◌≤◌, ◌<◌, ◌+◌, ℕ, true, false, is_some, List, []};
ghost use Rattle.std.specs.Prelude.{◌∷◌};
ghost use Rattle.std.specs.Prelude.{length, slice_get, Some, None, if◌then◌else◌};
ghost use Rattle.std.specs.List.{All, Contains};
ghost use Rattle.std.specs.List.Sorted.{IsPermutation};
ghost use Rattle.recording.specs.Packets.{Ipv4Value};
ghost use Rattle.recording_packets.specs.declared.fragments.piece.PacketKey.{PacketKey};
ghost use Rattle.recording_packets.specs.fragments.Pieces.{Piece, key_of, same_key, end_of};
ghost use Rattle.recording_packets.specs.fragments.Cells.{known_at};
ghost use Rattle.recording_packets.specs.fragments.Parts.{Part, differs, is_fresh, with_piece};
ghost use Rattle.recording_packets.specs.fragments.Parts.{payload_of};
ghost use Rattle.recording_packets.specs.fragments.Parts.{part_under, without};
ghost use Rattle.recording_packets.specs.fragments.Stores.{Store, nothing_held, offered};
ghost use Rattle.recording_packets.specs.fragments.Wholes.{IsPieceOf, byte_at, covers, part_of};
ghost use Rattle.recording_packets.specs.fragments.Wholes.{Offer, IsOfferOf, store_after};
ghost use Rattle.recording_packets.specs.fragments.Wholes.{pieces_of, Brings};
ghost use Rattle.recording_packets.specs.fragments.Examples.{front, middle, tail, long_tail};
ghost use Rattle.recording_packets.specs.fragments.Examples.{other_tail, given, sent};
ghost use Rattle.recording_packets.specs.fragments.Examples.{fragment_with, other_front};
ghost use Rattle.recording_packets.specs.fragments.Examples.{past_the_most, at, at_once};

/// Pieces of one payload do not differ, in whatever order they come. They give the payload just
/// when they cover it, and nothing before.
pub fn pieces_give_their_payload()
    ensures agree { (key : PacketKey) (now : ℕ) (payload : List ℕ)
        (piece : Piece) (pieces : List Piece) → All (IsPieceOf payload) (piece ∷ pieces)
        → differs (part_of key now pieces) piece ≡ false }
    ensures told { (key : PacketKey) (now : ℕ) (payload : List ℕ) (pieces : List Piece)
        → All (IsPieceOf payload) pieces → payload_of (part_of key now pieces)
        ≡ (if covers (length payload) pieces then Some payload else None) }
{}

/// Two orders of the same pieces of a payload give the same.
pub fn the_order_of_pieces_does_not_matter()
    ensures { (key : PacketKey) (now : ℕ) (payload : List ℕ) (pieces others : List Piece)
        → All (IsPieceOf payload) pieces → IsPermutation pieces others
        → payload_of (part_of key now pieces) ≡ payload_of (part_of key now others) }
{}

/// Each byte of a payload that is whole is one of a piece that came, at its place. What a store
/// tells was brought to it under the key of the last fragment.
pub fn no_byte_is_invented()
    ensures pieces { (key : PacketKey) (now : ℕ) (payload : List ℕ) (pieces : List Piece)
        (place byte : ℕ)
        → payload_of (part_of key now pieces) ≡ Some payload → slice_get payload place ≡ Some byte
        → (piece : Piece) × Contains pieces piece × (byte_at piece place ≡ Some byte) }
    ensures store { (o : Offer) (offers : List Offer) (payload : List ℕ) (place byte : ℕ)
        → (store_after nothing_held (o ∷ offers)).whole ≡ Some payload
        → slice_get payload place ≡ Some byte
        → Brings (o ∷ offers) (key_of o.packet) place byte }
{}

/// Fragments of one packet are offered, within 30 seconds and in whatever order, to a store that
/// holds none of it. None of them differs, and its payload is told just when the fragments so far
/// cover it: as long as those before do not, the next one tells it if it is covered then, and
/// nothing else.
pub fn a_store_tells_a_payload_just_when_it_is_covered()
    ensures { (s : Store) (key : PacketKey) (payload : List ℕ) (start : ℕ)
        (o : Offer) (offers : List Offer)
        → length payload ≤ 65535 → length s.parts ≤ 64 → part_under key s.parts ≡ None
        → All (IsOfferOf key payload start) (o ∷ offers)
        → covers (length payload) (pieces_of offers) ≡ false
        → ((store_after s (o ∷ offers)).whole
        ≡ (if covers (length payload) (pieces_of (o ∷ offers)) then Some payload else None))
        × ((store_after s (o ∷ offers)).that_differ ≡ s.that_differ) }
{}

/// A piece that does not differ leaves each byte that is known, and the end if it is known. Its own
/// bytes are known then, and the end if it is the last one.
pub fn a_piece_that_does_not_differ_leaves_what_is_known()
    ensures stays { (part : Part) (piece : Piece) (place byte : ℕ) → differs part piece ≡ false
        → known_at part.cells place ≡ Some byte
        → known_at (with_piece part piece).cells place ≡ Some byte }
    ensures known { (part : Part) (piece : Piece) (place byte : ℕ) → byte_at piece place ≡ Some byte
        → known_at (with_piece part piece).cells place ≡ Some byte }
    ensures end_stays { (part : Part) (piece : Piece) (end : ℕ) → differs part piece ≡ false
        → part.end ≡ Some end → (with_piece part piece).end ≡ Some end }
    ensures end_known { (part : Part) (piece : Piece) → piece.last ≡ true
        → (with_piece part piece).end ≡ Some (end_of piece) }
{}

/// The cells of a packet end with the last byte that is known.
pub fn cells_end_with_a_known_byte()
    ensures last { (key : PacketKey) (now : ℕ) (pieces : List Piece) (place : ℕ)
        → length (part_of key now pieces).cells ≡ place + 1
        → is_some (known_at (part_of key now pieces).cells place) ≡ true }
    ensures behind { (part : Part) (place : ℕ) → length part.cells ≤ place
        → known_at part.cells place ≡ None }
{}

/// A store holds a packet in part once, and not any longer once it is whole or differs.
pub fn a_store_holds_a_packet_once()
    ensures once { (offers : List Offer) (key : PacketKey)
        → part_under key (without key (store_after nothing_held offers).parts) ≡ None }
    ensures whole { (offers : List Offer) (o : Offer) (payload : List ℕ)
        → (store_after nothing_held (o ∷ offers)).whole ≡ Some payload
        → part_under (key_of o.packet) (store_after nothing_held (o ∷ offers)).parts ≡ None }
    ensures differs { (offers : List Offer) (o : Offer)
        → (store_after nothing_held (o ∷ offers)).that_differ
        ≢ (store_after nothing_held offers).that_differ
        → part_under (key_of o.packet) (store_after nothing_held (o ∷ offers)).parts ≡ None }
{}

/// A store holds at most 64 packets in part, of at most 65,535 bytes each.
pub fn a_store_is_bounded()
    ensures keeps { (now : ℕ) (v : Ipv4Value) (s : Store) → length s.parts ≤ 64
        → length (offered now v s).parts ≤ 64 }
    ensures packets { (offers : List Offer) → length (store_after nothing_held offers).parts ≤ 64 }
    ensures bytes { (offers : List Offer)
        → All (λ part. length part.cells ≤ 65535) (store_after nothing_held offers).parts }
{}

/// A fragment of another packet leaves a packet in part as it is, where there is room for both and
/// its time is not over.
pub fn fragments_of_other_packets_leave_a_packet()
    ensures { (key : PacketKey) (now : ℕ) (v : Ipv4Value) (s : Store) (part : Part)
        → same_key key (key_of v) ≡ false → part_under key s.parts ≡ Some part
        → is_fresh now part ≡ true → length s.parts < 64
        → part_under key (offered now v s).parts ≡ Some part }
{}

/// Examples, each with the newest fragment first: two fragments in both orders, three, one that
/// overlaps and agrees, a gap, a last one twice, one that differs, and one that comes 30 seconds
/// later, or more.
pub fn worked_fragments()
    ensures two { given (at_once (long_tail ∷ front ∷ [])) ≡ (Some sent, 0, 0, 0) }
    ensures turned { given (at_once (front ∷ long_tail ∷ [])) ≡ (Some sent, 0, 0, 0) }
    ensures three { given (at_once (middle ∷ front ∷ tail ∷ [])) ≡ (Some sent, 0, 0, 0) }
    ensures overlap { given (at_once (front ∷ long_tail ∷ middle ∷ [])) ≡ (Some sent, 0, 0, 0) }
    ensures gap { given (at_once (tail ∷ front ∷ [])) ≡ (None, 1, 0, 0) }
    ensures twice { given (at_once (front ∷ long_tail ∷ long_tail ∷ [])) ≡ (Some sent, 0, 0, 0) }
    ensures last { given (at_once (tail ∷ tail ∷ front ∷ [])) ≡ (None, 1, 0, 0) }
    ensures differs { given (at_once (other_tail ∷ tail ∷ front ∷ [])) ≡ (None, 0, 0, 3) }
    ensures other_end { given (at_once (tail ∷ middle ∷ fragment_with 0x0001 (8 ∷ 9 ∷ []) ∷ []))
        ≡ (None, 1, 0, 2) }
    ensures too_long { given (at_once (past_the_most ∷ front ∷ [])) ≡ (None, 1, 1, 0) }
    ensures alone { given (at_once (fragment_with 0 (1 ∷ 2 ∷ []) ∷ []))
        ≡ (Some (1 ∷ 2 ∷ []), 0, 0, 0) }
    ensures other { given (at_once (other_front ∷ front ∷ [])) ≡ (None, 2, 0, 0) }
    ensures in_time { given (at 30000000005 long_tail ∷ at 5 front ∷ []) ≡ (Some sent, 0, 0, 0) }
    ensures too_late { given (at 30000000006 long_tail ∷ at 5 front ∷ []) ≡ (None, 1, 1, 0) }
{}
