//! Laws of the definitions behind the contracts. Each is the contract of a function that does nothing: it says what is
//! told of a recording, whatever code goes over it.
ghost use Rattle.std.specs.Prelude.{◌≡◌, ℕ, List, false};
ghost use Rattle.someip_tables.specs.Endpoints.{address_cmp};
ghost use Rattle.audit_services.specs.declared.offered.Offered.{Offered};
ghost use Rattle.audit_services.specs.declared.subscribed.Subscribed.{Subscribed};
ghost use Rattle.audit_services.specs.Histories.{intervals_under, timeline};
ghost use Rattle.audit_services.specs.OfferedKeys.{offered_cmp, places_of_offered, terms_cmp};
ghost use Rattle.audit_services.specs.SubscribedKeys.{no_terms_cmp, place_cmp, places_of_subscribed, subscribed_cmp};
ghost use Rattle.audit_services.specs.Timelines.{intervals_of};
ghost use Rattle.someip_audit.specs.Audits.{Seen};
ghost use Rattle.someip_services.specs.declared.told.Told.{Told};
ghost use Rattle.someip_services.specs.Services.{Known};
ghost use Rattle.someip_services.specs.ServiceTimelines.{TellsAll, offers_in, offers_of, subscriptions_in, subscriptions_of};

/// Of each offer a recording is told just the intervals that its history has, the oldest first, where there was room
/// for all offers: each begins with an Offer, and ends with the StopOffer, the TTL, the reboot or the other Offer that
/// ended it, or is open.
pub fn offers_are_told_by_their_histories()
    ensures { (limit overtake : ℕ) (seens : List Seen) (last : ℕ) (told : List Told) (known : Known)
        → TellsAll limit overtake seens last told known → known.offers.told_full ≡ false → (key : Offered)
        → intervals_under offered_cmp key (offers_in told) ≡ intervals_of terms_cmp
        (timeline address_cmp offered_cmp terms_cmp places_of_offered (offers_of limit overtake seens) key) last }
{}

/// The same of each subscription, which a StopSubscribe, a Nack, a StopOffer, its TTL or a reboot of its client or its
/// server ends.
pub fn subscriptions_are_told_by_their_histories()
    ensures { (limit overtake : ℕ) (seens : List Seen) (last : ℕ) (told : List Told) (known : Known)
        → TellsAll limit overtake seens last told known → known.subscriptions.told_full ≡ false → (key : Subscribed)
        → intervals_under subscribed_cmp key (subscriptions_in told) ≡ intervals_of no_terms_cmp
        (timeline place_cmp subscribed_cmp no_terms_cmp places_of_subscribed (subscriptions_of limit overtake seens) key) last }
{}
