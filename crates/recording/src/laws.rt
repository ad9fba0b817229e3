//! Laws of the definitions behind the contracts. Each is the contract of a function that does nothing:
//! it says what recordings are, whatever code reads them.
ghost use Rattle.std.specs.Prelude.{◌≡◌, ℕ, List, [], ◌∷◌, ◌++◌, Option, Some, None, Ok, Err};
ghost use Rattle.recording.specs.declared.error.RecordingError.TheVariants.{Truncated, BlockTooLong};
ghost use Rattle.recording.specs.declared.error.RecordingError.TheVariants.{NotRecording};
ghost use Rattle.recording.specs.declared.number.ByteOrder.TheVariants.{Little};
ghost use Rattle.recording.specs.declared.time.Time.{Time};
ghost use Rattle.recording.specs.Packets.{DatagramValue, carried_in, datagram, fragment, inner_vlan, nothing};
ghost use Rattle.recording.specs.Packets.{outer_vlan};
ghost use Rattle.recording.specs.declared.record.Skipped.TheVariants.{BadUdpLength, Cut, LinkType, NotIpv4, NotUdp};
ghost use Rattle.recording.specs.PacketSpelling.{Carries};
ghost use Rattle.recording.specs.Spelling.{IsBytes, IsClassic, IsBlocks, IsRecording};
ghost use Rattle.recording.specs.Spelling.{head, plain};
ghost use Rattle.recording.specs.Records.{Item, items_of};
ghost use Rattle.recording.specs.Examples.{sent_at, classic_head, classic_file, cut_file, blocks_file};
ghost use Rattle.recording.specs.Examples.{little_packet, too_long_head, long_head, little_raw};
ghost use Rattle.recording.specs.Examples.{sent_packet, cut_packet, little_section, little_blocks};
ghost use Rattle.recording.specs.Examples.{more_bytes, no_room_bytes, sent_bytes, sent_datagram, short_bytes};
ghost use Rattle.recording.specs.Examples.{tagged_bytes, tcp_bytes};
ghost use Rattle.recording.specs.HeldItems.{held_of, IsRead};
ghost use Rattle.recording.specs.HeldSpelling.{IsHeldWhole, HoldsPackets, HoldsBlocks};
ghost use Rattle.recording.specs.HeldSpelling.{HoldsInterfaces};

/// Examples: classic pcap with no packet, with one, and with a part of another; two sections of pcapng
/// in the two orders of bytes; blocks without a section.
pub fn worked_recordings()
    ensures nothing { items_of classic_head ≡ Ok [] }
    ensures packet { items_of classic_file ≡ Ok (sent_at 5 7000 ∷ []) }
    ensures cut { items_of cut_file ≡ Ok (sent_at 5 7000 ∷ Err (Truncated 71) ∷ []) }
    ensures blocks { items_of blocks_file ≡ Ok (sent_at 3 1000 ∷ sent_at 0 3000001 ∷ []) }
    ensures none { items_of little_packet ≡ Err (NotRecording 0) }
{}

/// A reader that holds one packet or block at a time gives what `Recording` gives of the same bytes, or
/// a beginning of that and then the fault of what it does not hold. Where it holds each packet and block
/// that the file is spelled with, and the interfaces of each section, it gives all. Examples: a recording
/// that is cut; a packet that is one byte too long, and one that is not, and is not there.
pub fn readers_give_what_recordings_give()
    ensures same { (file : List ℕ) → IsRead (items_of file) (held_of file) }
    ensures all { (items : List Item) (file : List ℕ) (r : IsRecording items file)
        → IsHeldWhole items file r → held_of file ≡ items }
    ensures cut { held_of cut_file ≡ sent_at 5 7000 ∷ Err (Truncated 71) ∷ [] }
    ensures blocks { held_of blocks_file ≡ sent_at 3 1000 ∷ sent_at 0 3000001 ∷ [] }
    ensures too_long { held_of (classic_head ++ too_long_head) ≡ Err (BlockTooLong 24) ∷ [] }
    ensures long { held_of (classic_head ++ long_head) ≡ Err (Truncated 24) ∷ [] }
{}

/// Examples of what a reader holds: a recording that is cut, and one of blocks, as they are spelled; a
/// packet that is one byte too long, and one that is not; 65,536 interfaces in a section, and one more.
pub fn what_a_reader_holds()
    ensures spelled { IsClassic little_raw (sent_packet ∷ []) (Some (Truncated 71)) cut_file }
    ensures cut { HoldsPackets little_raw (sent_packet ∷ []) cut_packet }
    ensures too_long { HoldsPackets little_raw [] too_long_head → ⊥ }
    ensures long { HoldsPackets little_raw [] long_head }
    ensures blocks { IsBlocks little_blocks None little_section × HoldsBlocks little_blocks [] }
    ensures most { HoldsInterfaces 65535 (plain 1 [] ∷ []) }
    ensures more { HoldsInterfaces 65536 (plain 1 [] ∷ []) → ⊥ }
    ensures next { HoldsInterfaces 65536 (head Little [] ∷ plain 1 [] ∷ []) }
{}

/// A file is a recording in one way at most, and what that holds is what the plain program reads. Each
/// file that it reads is one.
pub fn each_recording_is_read_in_one_way()
    ensures some { (items : List Item) (file : List ℕ) → IsBytes file → items_of file ≡ Ok items
        → IsRecording items file }
    ensures one { (items others : List Item) (file : List ℕ) → IsRecording items file
        → IsRecording others file → items ≡ others }
    ensures read { (items : List Item) (file : List ℕ) → IsRecording items file
        → items_of file ≡ Ok items }
{}

/// A packet in which a datagram stands under one of the headers of the link layer that are read carries
/// this datagram, whatever stands in the fields that are not looked at, and after it. No other packet
/// carries one.
pub fn a_packet_carries_the_datagram_that_stands_in_it()
    ensures gives { (link : ℕ) (packet : List ℕ) (d : DatagramValue) → Carries link packet d
        → carried_in d.time link packet ≡ datagram d }
    ensures only { (time : Option Time) (link : ℕ) (packet : List ℕ) (d : DatagramValue)
        → IsBytes packet → carried_in time link packet ≡ datagram d
        → Carries link packet d × (d.time ≡ time) }
{}

/// Examples of what a packet carries: a datagram, with two VLAN tags before it and without; a fragment;
/// neither, since its link type is not read, it is no IPv4 or no UDP, it was cut, or UDP has no room.
pub fn what_packets_carry()
    ensures raw { carried_in None 228 sent_bytes ≡ sent_datagram }
    ensures tagged { carried_in None 1 tagged_bytes ≡ sent_datagram }
    ensures outer { outer_vlan 1 tagged_bytes ≡ Some 100 }
    ensures inner { inner_vlan 1 tagged_bytes ≡ Some 7 }
    ensures no_tag { outer_vlan 228 tagged_bytes ≡ None }
    ensures fragment { carried_in None 228 more_bytes ≡ fragment }
    ensures link { carried_in None 147 sent_bytes ≡ nothing LinkType }
    ensures not_ipv4 { carried_in None 1 sent_bytes ≡ nothing NotIpv4 }
    ensures not_udp { carried_in None 228 tcp_bytes ≡ nothing NotUdp }
    ensures cut { carried_in None 228 short_bytes ≡ nothing Cut }
    ensures room { carried_in None 228 no_room_bytes ≡ nothing BadUdpLength }
{}
