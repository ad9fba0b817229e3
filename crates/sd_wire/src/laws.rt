//! Laws of the definitions behind the contracts. Each is the contract of a function that does
//! nothing: it says what holds of messages and bytes, whatever code reads and writes them.
ghost use Rattle.std.specs.Prelude.{◌≡◌, ◌⊎◌, ◌↔◌, ◌<◌, ◌≤◌, ◌^◌, ℕ, List, [], ◌∷◌, ◌++◌, length, true, Some, None};
ghost use Rattle.std.specs.List.{AllByRecursion};
ghost use Rattle.sd_wire.specs.declared.error.SdError.{SdError};
ghost use Rattle.sd_wire.specs.declared.option.SdOption.{SdOption};
ghost use Rattle.sd_wire.specs.declared.flags.SdFlags.{SdFlags};
ghost use Rattle.sd_wire.specs.layout.Fields.{IsBytes, flags_byte};
ghost use Rattle.sd_wire.specs.contents.Values.{EntryValue, SdValue, SdMessageValue};
ghost use Rattle.sd_wire.specs.decoding.Reading.{SpellsOption, Sd};
ghost use Rattle.sd_wire.specs.decoding.Faults.{option_size, SdFault};
ghost use Rattle.sd_wire.specs.encoding.Writing.{EntryFits, WritesSd, TooMany, as_read};
ghost use Rattle.sd_wire.specs.fronts.Splitting.{FitsDatagram, AreFronts};
ghost use Rattle.sd_wire.specs.encoding.Encoding.{same_option, message_bytes};
ghost use Rattle.sd_wire.specs.fronts.Fronts.{fits_datagram, front_lengths, fronts_of, HasOneEndpointAtMost, IsShortEntry};
ghost use Rattle.sd_wire.specs.Examples.{bytes_from, read_offer, read_bad, two_offers, shared_text, anew_text};

use crate::endpoint::Protocol;
use crate::entry::ServiceEntry;
use crate::flags::SdFlags;

/// Bytes hold one message, or they have a fault, and not both.
pub fn bytes_hold_one_message_or_a_fault()
    ensures some { (bytes : List ℕ) → IsBytes bytes
        → ((v : SdValue) × Sd v bytes) ⊎ ((fault : SdError) × SdFault fault bytes) }
    ensures one { (bytes : List ℕ) (v other : SdValue) → Sd v bytes → Sd other bytes → v ≡ other }
    ensures not_both { (bytes : List ℕ) (v : SdValue) (fault : SdError) → Sd v bytes
        → SdFault fault bytes → ⊥ }
    ensures one_fault { (bytes : List ℕ) (fault other : SdError) → SdFault fault bytes
        → SdFault other bytes → fault ≡ other }
{}

/// No option is found at the front of bytes exactly where they begin with no option.
pub fn no_option_is_found_where_none_begins()
    ensures { (bytes : List ℕ) → IsBytes bytes → (option_size bytes ≡ None)
        ↔ ((o : SdOption) (first rest : List ℕ) → bytes ≡ first ++ rest → SpellsOption o first
        → ⊥) }
{}

/// A message has one text, or one entry that is refused first, and not both.
pub fn a_message_has_one_text()
    ensures one { (m : SdMessageValue) (text other : List ℕ) → WritesSd m text → WritesSd m other
        → text ≡ other }
    ensures not_both { (m : SdMessageValue) (text : List ℕ) (number : ℕ) → WritesSd m text
        → TooMany m.entries number → ⊥ }
    ensures one_refused { (m : SdMessageValue) (number other : ℕ) → TooMany m.entries number
        → TooMany m.entries other → number ≡ other }
{}

/// What is written is read: the text of a message holds it, entry by entry.
pub fn what_is_written_is_read()
    ensures { (m : SdMessageValue) (text : List ℕ) → AllByRecursion EntryFits m.entries
        → WritesSd m text → Sd (as_read m) text }
{}

/// A message has the bytes of the function `message_bytes` exactly where it has a text, and none
/// exactly where an entry is refused.
pub fn a_message_has_its_bytes()
    ensures some { (m : SdMessageValue) (text : List ℕ) → WritesSd m text
        → message_bytes m ≡ Some text }
    ensures text { (m : SdMessageValue) (text : List ℕ) → message_bytes m ≡ Some text
        → length text < 2 ^ 32 → WritesSd m text }
    ensures none { (m : SdMessageValue) (number : ℕ) → TooMany m.entries number
        → message_bytes m ≡ None }
    ensures refused { (m : SdMessageValue) → message_bytes m ≡ None
        → (number : ℕ) × TooMany m.entries number }
{}

/// Entries that fit a datagram are the test `fits_datagram`, and the function `front_lengths` gives
/// their longest fronts.
pub fn entries_have_their_fronts()
    ensures fits { (entries : List EntryValue) → FitsDatagram entries
        ↔ (fits_datagram entries ≡ true) }
    ensures fronts { (entries : List EntryValue) (lengths : List ℕ) → AreFronts entries lengths
        ↔ (lengths ≡ front_lengths entries) }
{}

/// Entries that fit a datagram fit it under any flags.
pub fn a_front_fits_under_any_flags()
    ensures { (flags : SdFlags) (entries : List EntryValue) → FitsDatagram entries
        → (text : List ℕ) × WritesSd (record { flags = flags; entries = entries }) text
        × (length text ≤ 1400) }
{}

/// An entry with few options, or with no option but one endpoint, fits a datagram alone; so all
/// fronts of such entries fit, and writing one of them fails for memory alone.
pub fn small_entries_fit_alone()
    ensures short { (e : EntryValue) → IsShortEntry e → FitsDatagram (e ∷ []) }
    ensures endpoint { (e : EntryValue) → HasOneEndpointAtMost e → FitsDatagram (e ∷ []) }
    ensures alone { (entries : List EntryValue) (lengths : List ℕ)
        → AllByRecursion (λ e. FitsDatagram (e ∷ [])) entries → AreFronts entries lengths
        → AllByRecursion FitsDatagram (fronts_of lengths entries) }
    ensures fronts { (entries : List EntryValue) (lengths : List ℕ)
        → AllByRecursion HasOneEndpointAtMost entries → AreFronts entries lengths
        → AllByRecursion FitsDatagram (fronts_of lengths entries) }
{}

/// Two options are the same where the numbers that they hold are.
pub fn options_are_told_by_their_numbers()
    ensures { (a b : SdOption) → (same_option a b ≡ true) ↔ (a ≡ b) }
{}

/// The constants of the standard.
pub fn constants()
    ensures any_instance { ServiceEntry.ANY_INSTANCE ≡ 0xffff }
    ensures any_major { ServiceEntry.ANY_MAJOR ≡ 0xff }
    ensures any_minor { ServiceEntry.ANY_MINOR ≡ 0xffff_ffff }
    ensures tcp { Protocol.TCP ≡ record { 0 = 0x06 } }
    ensures udp { Protocol.UDP ≡ record { 0 = 0x11 } }
    ensures reboot { flags_byte SdFlags.REBOOT ≡ 0x80 }
    ensures unicast { flags_byte SdFlags.UNICAST ≡ 0x40 }
{}

/// Examples: an Offer over one option, the same with a run that begins after that option, and two
/// Offers with one and the same option.
pub fn worked_messages()
    ensures offer { Sd read_offer (bytes_from 0) }
    ensures bad { Sd read_bad (bytes_from 1) }
    ensures not_fewer { (v : SdValue) → Sd v (bytes_from 1) → v ≡ read_bad }
    ensures shared { WritesSd two_offers shared_text }
    ensures not_anew { WritesSd two_offers anew_text → ⊥ }
{}
