//! Laws of the definitions behind the contracts. Each is the contract of a function that does nothing.
ghost use Rattle.std.specs.Prelude.{◌≡◌, ◌++◌, ◌∷◌, ℕ, List, [], length};
ghost use Rattle.recording.specs.Records.{Item};
ghost use Rattle.someipctl_extract.specs.Extraction.{datagrams_from, nothing_taken};
ghost use Rattle.someipctl_recordings.specs.Sought.{nothing_sought, sought_from};
ghost use Rattle.someipctl_recordings.specs.Wanted.{WantedValue};

/// Each datagram that `recording` tells of has its packets, and no other has.
pub fn each_datagram_has_its_packets()
    ensures { (w : WantedValue) (items : List Item) → length (datagrams_from w (nothing_taken w) items)
        ≡ length (sought_from w (nothing_sought w) items) }
{}
