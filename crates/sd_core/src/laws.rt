//! Laws of the definitions that the contracts cite. Each is the contract of a function that does nothing:
//! it says when Offers and Finds go out, whatever code keeps them.
//!
//! The law of moments begins at the delay or before it: ticks before the first due moment change nothing,
//! so it says the same of ticks from 0 on.
ghost use Rattle.std.specs.Prelude.{◌≡◌, ◌↔◌, ◌+◌, ◌≤◌, ℕ, IsTrue, IsFalse, None};
ghost use Rattle.std.specs.Option.{is_some};
ghost use Rattle.std.specs.FinMap as finite;
ghost use Rattle.std.specs.declared.net.socket_addr.SocketAddrV4.{SocketAddrV4};
ghost use Rattle.sd_core.specs.declared.keys.InstanceId.{InstanceId};
ghost use Rattle.sd_core.specs.declared.phases.Phases.{Phases};
ghost use Rattle.sd_core.specs.declared.received.ReceivedOffer.{ReceivedOffer};
ghost use Rattle.sd_core.specs.declared.sending.Sending.{Sending};
ghost use Rattle.sd_core.specs.OfferExamples.{three_repetitions, no_repetitions};
ghost use Rattle.sd_core.specs.OfferMoments.{offer_moment, sends_offer, sends_find};
ghost use Rattle.sd_core.specs.OfferTables.{OfferTable, started, after_tick};
ghost use Rattle.sd_core.specs.SeekTables.{SeekTable, searching, seek_after_tick, learned};
ghost use Rattle.sd_core.specs.Sendings.{wait, first_at, goes_out, due_at, sent_if_due};

/// An instance that was started sends its Offers at exactly these moments, ticked at each millisecond
/// from the delay on, or from a moment before it: at the delay and base * (2^k - 1) after it for k from
/// 0 to the repetitions, and then every cyclic delay (SOME/IP Service Discovery Protocol, "Startup
/// behavior").
pub fn offers_go_out_at_their_moments()
    ensures moments { (phases : Phases) (delay from n : ℕ) (offers : OfferTable)
        (instance : InstanceId) → from ≤ delay
        → IsTrue (is_some (finite.get offers.versions instance))
        → IsTrue (sends_offer phases from n (started delay offers) instance)
        ↔ ((k : ℕ) × (from + n ≡ offer_moment phases delay k)) }
    ensures no_other { (phases : Phases) (delay from n : ℕ) (offers : OfferTable)
        (instance : InstanceId) → finite.get offers.versions instance ≡ None
        → IsFalse (sends_offer phases from n (started delay offers) instance) }
{}

/// A wanted instance that was searched for sends its Finds at the moments at which an offered one sends
/// its Offers up to the last repetition, and at no other; and none from an Offer that counts on.
pub fn finds_go_out_at_their_moments()
    ensures moments { (phases : Phases) (delay from n : ℕ) (table : SeekTable)
        (instance : InstanceId) → from ≤ delay
        → IsTrue (is_some (finite.get table.wanted instance))
        → IsTrue (sends_find phases from n (searching delay table) instance)
        ↔ ((k : ℕ) × (k ≤ phases.repetitions) × (from + n ≡ offer_moment phases delay k)) }
    ensures no_other { (phases : Phases) (delay from n : ℕ) (table : SeekTable)
        (instance : InstanceId) → finite.get table.wanted instance ≡ None
        → IsFalse (sends_find phases from n (searching delay table) instance) }
    ensures known { (phases : Phases) (from n : ℕ) (offer : ReceivedOffer)
        (endpoint : SocketAddrV4) (now : ℕ) (table : SeekTable)
        → IsFalse (sends_find phases from n (learned offer endpoint now table) offer.instance) }
{}

/// A tick sends one Offer, or Find, of an instance, however late it is, and the next is due a delay
/// after that tick.
pub fn a_late_tick_sends_one()
    ensures next { (phases : Phases) (now : ℕ) (sending : Sending) → IsTrue (goes_out now sending)
        → (sent_if_due phases now sending).due ≡ now + wait phases sending.sent }
    ensures offers { (phases : Phases) (now : ℕ) (offers : OfferTable)
        → due_at now (after_tick phases now offers).up ≡ finite.empty }
    ensures finds { (phases : Phases) (now : ℕ) (table : SeekTable)
        → due_at now (seek_after_tick phases now table).finding ≡ finite.empty }
{}

/// Examples: a delay of 10 and a base delay of 30, with three repetitions and without; and one tick
/// at 1000 in place of all before it.
pub fn moments_by_example()
    ensures first { offer_moment three_repetitions 10 0 ≡ 10 }
    ensures second { offer_moment three_repetitions 10 1 ≡ 40 }
    ensures third { offer_moment three_repetitions 10 2 ≡ 100 }
    ensures fourth { offer_moment three_repetitions 10 3 ≡ 220 }
    ensures fifth { offer_moment three_repetitions 10 4 ≡ 1220 }
    ensures sixth { offer_moment three_repetitions 10 5 ≡ 2220 }
    ensures first_of_main { offer_moment no_repetitions 10 0 ≡ 10 }
    ensures second_of_main { offer_moment no_repetitions 10 1 ≡ 1010 }
    ensures third_of_main { offer_moment no_repetitions 10 2 ≡ 2010 }
    ensures late { sent_if_due three_repetitions 1000 (first_at 10) ≡ record { due = 1030; sent = 1 } }
{}
