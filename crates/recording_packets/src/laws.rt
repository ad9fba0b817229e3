//! Laws of the definitions behind the contracts. Each is the contract of a function that does nothing.
ghost use Rattle.std.specs.Prelude.{◌≡◌, ◌+◌, ◌++◌, ◌∷◌, List, [], length};
ghost use Rattle.std.specs.List.{All};
ghost use Rattle.recording.specs.Records.{Item};
ghost use Rattle.recording_packets.specs.Carried.{HasNoFragment, carried_datagrams, given_by};
ghost use Rattle.recording_packets.specs.Carried.{left_out_by, looked_at};
ghost use Rattle.recording_packets.specs.Chosen.{ChosenValue, all_packets};
ghost use Rattle.recording_packets.specs.Examples.{arrival, back, front, of_vlan, raw, sent};
ghost use Rattle.recording_packets.specs.Examples.{sent_next, tagged, without_copies};
ghost use Rattle.recording_packets.specs.Intake.{IntakeValue, after_packets, arrivals};
ghost use Rattle.recording_packets.specs.LeftOut.{nothing_left_out, total};

/// What a recording gives that goes on in another file is what its beginning gives, and then what the
/// rest gives after that.
pub fn recordings_go_on()
    ensures given { (c : ChosenValue) (s : IntakeValue) (items others : List Item)
        → arrivals c s (items ++ others) ≡ arrivals c s items ++ arrivals c (after_packets c s items) others }
    ensures after { (c : ChosenValue) (s : IntakeValue) (items others : List Item)
        → after_packets c s (items ++ others) ≡ after_packets c (after_packets c s items) others }
{}

/// Without interfaces, VLAN IDs and a window, a recording without fragments gives exactly the
/// datagrams that its packets carry, each with the number of its packet, in order.
pub fn packets_give_their_datagrams()
    ensures { (items : List Item) → All HasNoFragment items
        → given_by all_packets items ≡ carried_datagrams 1 items }
{}

/// In a recording without fragments each packet that is looked at gives a datagram or is counted as
/// left out, and not both.
pub fn no_packet_is_lost()
    ensures { (c : ChosenValue) (items : List Item) → All HasNoFragment items
        → total (left_out_by c items) + length (given_by c items) ≡ looked_at c items }
{}

/// Examples: a packet comes again at the edge of the window, after it, with an earlier time, and where
/// copies are left in; a datagram comes in two fragments around another packet; the second fragment
/// does not come; a packet is of another VLAN.
pub fn worked_recordings()
    ensures copy { given_by (without_copies 100) (raw 5 sent ∷ raw 105 sent ∷ []) ≡ arrival 1 5 ∷ [] }
    ensures copies { left_out_by (without_copies 100) (raw 5 sent ∷ raw 105 sent ∷ [])
        ≡ record nothing_left_out { copies = 1 } }
    ensures late { given_by (without_copies 100) (raw 5 sent ∷ raw 106 sent ∷ [])
        ≡ arrival 1 5 ∷ arrival 2 106 ∷ [] }
    ensures earlier { given_by (without_copies 0) (raw 105 sent ∷ raw 5 sent ∷ []) ≡ arrival 1 105 ∷ [] }
    ensures left_in { given_by all_packets (raw 5 sent ∷ raw 6 sent ∷ [])
        ≡ arrival 1 5 ∷ arrival 2 6 ∷ [] }
    ensures fragments { given_by all_packets (raw 5 front ∷ raw 6 sent_next ∷ raw 7 back ∷ [])
        ≡ arrival 2 6 ∷ arrival 3 7 ∷ [] }
    ensures no_rest { left_out_by all_packets (raw 5 front ∷ raw 6 sent_next ∷ [])
        ≡ record nothing_left_out { fragments_without_rest = 1 } }
    ensures vlan { given_by (of_vlan 5) (tagged 5 6 sent ∷ tagged 6 5 sent ∷ []) ≡ arrival 2 6 ∷ [] }
{}
