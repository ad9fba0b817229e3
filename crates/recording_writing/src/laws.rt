//! Laws of the definitions behind the contracts. Each is the contract of a function that does nothing.
ghost use Rattle.std.specs.Prelude.{◌≡◌, ◌<◌, ◌≤◌, ◌^◌, ◌++◌, ◌∷◌, ℕ, List, [], length, take, slice_get};
ghost use Rattle.std.specs.Prelude.{IfSome, None, Some, Ok, true, false};
ghost use Rattle.std.specs.List.{AllByRecursion};
ghost use Rattle.recording.specs.Captured.{RecordValue};
ghost use Rattle.recording.specs.HeldItems.{held_of};
ghost use Rattle.recording.specs.HeldSpelling.{IsHeldBlock};
ghost use Rattle.recording.specs.Records.{items_of};
ghost use Rattle.recording.specs.Spelling.{IsBlocks, block_bytes, blocks_bytes};
ghost use Rattle.recording.specs.declared.number.ByteOrder.TheVariants.{Big, Little};
ghost use Rattle.recording.specs.Times.{time_of};
ghost use Rattle.recording_writing.specs.Blocks.{blocks_for, has_ticks, is_simple, is_too_long};
ghost use Rattle.recording_writing.specs.Blocks.{links_after, number_of, put_of, section_block};
ghost use Rattle.recording_writing.specs.declared.writer.Put.TheVariants.{Exact, TooLong, Untimed};
ghost use Rattle.recording_writing.specs.Files.{AreLinkTypes, IsPacket, file_blocks, file_of};
ghost use Rattle.recording_writing.specs.Files.{items_read, links_of, packet_read, packets_blocks};
ghost use Rattle.recording_writing.specs.Files.{time_read};

/// The file of packets is a recording in blocks, and what is read of it is just these packets, in their
/// order, but for those that are too long: whether it is read from memory or as it comes.
pub fn what_is_written_is_read()
    ensures blocks { (ks : List RecordValue) → AllByRecursion IsPacket ks
        → IsBlocks (file_blocks ks) None (file_of ks) }
    ensures read { (ks : List RecordValue) → AllByRecursion IsPacket ks
        → items_of (file_of ks) ≡ Ok (items_read ks) }
    ensures held { (ks : List RecordValue) → AllByRecursion IsPacket ks
        → held_of (file_of ks) ≡ items_read ks }
{}

/// Each packet is read with its link type, its length and its bytes. One that is told as exact is read as it
/// was put, but for the number of its interface.
pub fn packets_are_kept()
    ensures link { (number : ℕ) (k : RecordValue) → (packet_read number k).link ≡ k.link }
    ensures original { (number : ℕ) (k : RecordValue) → (packet_read number k).original ≡ k.original }
    ensures bytes { (number : ℕ) (k : RecordValue) → (packet_read number k).bytes ≡ k.bytes }
    ensures exact { (number : ℕ) (k : RecordValue)
        → IfSome k.time (λ t. t.nanoseconds < 1000000000) → put_of number k ≡ Exact
        → packet_read number k ≡ record k { interface = number } }
{}

/// A packet is read with its time: one that the file can say, or none. One that is told as untimed has the
/// time 0.
pub fn times_are_kept()
    ensures kept { (number : ℕ) (k : RecordValue)
        → IfSome k.time (λ t. t.nanoseconds < 1000000000) → has_ticks k.time ≡ true
        → time_read number k ≡ k.time }
    ensures none { (number : ℕ) (k : RecordValue) → is_simple number k ≡ true
        → time_read number k ≡ k.time }
    ensures lost { (number : ℕ) (k : RecordValue) → put_of number k ≡ Untimed
        → time_read number k ≡ Some (time_of 0) }
{}

/// Each link type has one interface: its number is the place of the link type among those that came. It
/// stays so, and no more interfaces are described than there are link types.
pub fn link_types_have_interfaces()
    ensures has { (links : List ℕ) (k : RecordValue) → is_too_long (number_of links k.link) k ≡ false
        → slice_get (links_after links k) (number_of links k.link) ≡ Some k.link }
    ensures stay { (links : List ℕ) (k : RecordValue)
        → take (length links) (links_after links k) ≡ links }
    ensures once { (links : List ℕ) (k : RecordValue) → IsPacket k → AreLinkTypes links
        → AreLinkTypes (links_after links k) }
    ensures most { (links : List ℕ) → AreLinkTypes links → length links ≤ 65536 }
{}

/// A packet whose block a reader would not hold is left out, and changes nothing; a reader holds each block
/// that is written. What its block has beside the packet is 16 bytes, or 32.
pub fn long_packets_are_left_out()
    ensures nothing { (links : List ℕ) (k : RecordValue) → put_of (number_of links k.link) k ≡ TooLong
        → (blocks_for links k ≡ []) × (links_after links k ≡ links) }
    ensures held { (links : List ℕ) (ks : List RecordValue)
        → AllByRecursion IsHeldBlock (packets_blocks links ks) }
    ensures short { (number : ℕ) (k : RecordValue) → length k.bytes ≤ 16777184
        → is_too_long number k ≡ false }
    ensures long { (number : ℕ) (k : RecordValue) → 16777200 < length k.bytes
        → is_too_long number k ≡ true }
{}

/// A file begins with the head of its section, and grows by the blocks of each packet, whatever packets
/// come behind it.
pub fn files_grow()
    ensures begin { file_of [] ≡ block_bytes Big section_block }
    ensures grow { (ks more : List RecordValue) → file_of (ks ++ more)
        ≡ file_of ks ++ blocks_bytes Little (packets_blocks (links_of [] ks) more) }
    ensures links { (ks more : List RecordValue)
        → links_of [] (ks ++ more) ≡ links_of (links_of [] ks) more }
    ensures one { (links : List ℕ) (k : RecordValue)
        → packets_blocks links (k ∷ []) ≡ blocks_for links k }
{}
