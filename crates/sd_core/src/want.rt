//! A wanted instance.
ghost use Rattle.std.specs.Prelude.{◌≡◌, IfOk, IfErr, OnOk, Some, None, false, not, ◌&&◌};
ghost use Rattle.std.specs.Option.{option_and_then, option_map_or};
ghost use Rattle.someip_tables.specs.Deadlines.{has_passed};
ghost use Rattle.someip_tables.specs.Lastings.{unless_passed};
ghost use Rattle.someip_tables.specs.Retained.{kept_if};
ghost use Rattle.sd_core.specs.Sendings.{goes_out, after_find};
ghost use Rattle.sd_core.specs.SeekTables.{known_at, is_wanted, stands_by};
ghost use Rattle.sd_core.specs.SeekTables.{offer_refusal, counted_as};
ghost use Rattle.sd_core.specs.Waiting.{want_moment};

use crate::received::{Counted, KnownOffer, ReceivedOffer, Uncounted};
use crate::{Phases, Sending};
use someip_tables::{Deadline, Lasting, Moment, Waits, earlier, is_same_key};
use std::net::{Ipv4Addr, SocketAddrV4};

/// A wanted instance.
#[derive(Clone, Copy)]
pub(crate) struct Want {
    /// The major version in which it is wanted.
    pub(crate) major: u8,
    /// The offer that is known of it. It may have passed.
    pub(crate) known: Option<Lasting<KnownOffer>>,
    /// When its next Find goes out, while it is searched for.
    pub(crate) finding: Option<Sending>,
}

impl Want {
    /// The offer that is known, unless it has passed.
    pub(crate) fn known_at(&self, now: Moment) -> Option<KnownOffer>
        ensures { result ≡ known_at now self.now.known }
    {
        match self.known {
            Some(lasting) if !lasting.until.has_passed(now) => Some(lasting.value),
            _ => None,
        }
    }

    /// Whether the time of its offer has passed.
    pub(crate) fn has_passed(&self, now: Moment) -> bool
        ensures { result ≡ option_map_or (λ l. has_passed now l.until) self.now.known false }
    {
        match self.known {
            Some(lasting) => lasting.until.has_passed(now),
            None => false,
        }
    }

    /// Whether a Find of it goes out now.
    pub(crate) fn is_due(&self, now: Moment) -> bool
        ensures { result ≡ option_map_or (goes_out now) self.now.finding false }
    {
        match self.finding {
            Some(finding) => finding.is_due(now),
            None => false,
        }
    }

    /// Whether an offer is known that this peer made.
    pub(crate) fn stands_by(&self, peer: Ipv4Addr, now: Moment) -> bool
        ensures { result ≡ option_map_or (stands_by peer now) self.now.known false }
    {
        match self.known {
            Some(lasting) => {
                !lasting.until.has_passed(now) && is_same_key(&lasting.value.peer, &peer)
            }
            None => false,
        }
    }

    /// Whether a StopOffer of this major version ends the offer that is known, since this peer made it.
    pub(crate) fn is_stopped_by(&self, major: u8, peer: Ipv4Addr, now: Moment) -> bool
        ensures { result ≡ (is_wanted major (Some self.now.major)
            && option_map_or (stands_by peer now) self.now.known false) }
    {
        self.major == major && self.stands_by(peer, now)
    }

    /// The want once the moment came: an offer that has passed is gone, and a Find that is due went out.
    pub(crate) fn after_tick(self, phases: Phases, now: Moment) -> Want
        ensures { result ≡ record {
          major = self.major;
          known = unless_passed now self.known;
          finding = option_and_then (after_find phases now) self.finding;
        } }
    {
        let known = match self.known {
            Some(lasting) if !lasting.until.has_passed(now) => Some(lasting),
            _ => None,
        };
        let finding = match self.finding {
            Some(finding) => finding.after_find(phases, now),
            None => None,
        };
        Want {
            major: self.major,
            known,
            finding,
        }
    }

    /// The want without the offer that is known, if this peer made it.
    pub(crate) fn without_offer_by(self, peer: Ipv4Addr, now: Moment) -> Want
        ensures { result ≡ record {
          major = self.major;
          known = kept_if (λ lasting. not (stands_by peer now lasting)) self.known;
          finding = self.finding;
        } }
    {
        Want {
            major: self.major,
            known: if self.stands_by(peer, now) {
                None
            } else {
                self.known
            },
            finding: self.finding,
        }
    }
}

/// It waits for what comes first: that its offer passes, or its next Find.
impl Waits for Want {
    ghost moment = { want_moment };

    fn waits_for(&self) -> Option<u64> {
        let passes = match self.known {
            Some(
                Lasting {
                    until: Deadline::At(at),
                    ..
                },
            ) => Some(at),
            _ => None,
        };
        let finds = match self.finding {
            Some(finding) => Some(finding.due),
            None => None,
        };
        earlier(passes, finds)
    }
}

/// The endpoint of an Offer, if it counts where this major version is wanted and this offer is known.
pub(crate) fn admit(
    wanted: u8,
    known: Option<KnownOffer>,
    offer: &ReceivedOffer,
) -> Result<SocketAddrV4, Uncounted>
    ensures endpoint { IfOk result (λ endpoint. offer.now.endpoint ≡ Some endpoint) }
    ensures admitted { OnOk result (offer_refusal (Some wanted) known offer.now ≡ None) }
    ensures wanted { OnOk result (wanted ≡ offer.now.major) }
    ensures refused { IfErr result (λ cause.
        offer_refusal (Some wanted) known offer.now ≡ Some cause) }
{
    if wanted != offer.major {
        return Err(Uncounted::Unwanted);
    }
    let Some(endpoint) = offer.endpoint else {
        return Err(Uncounted::NoEndpoint);
    };
    match known {
        Some(known) if !is_same_key(&known.peer, &offer.peer) => Err(Uncounted::OtherPeer),
        _ => Ok(endpoint),
    }
}

/// What an Offer at this endpoint changes, where it counts and this offer is known.
pub(crate) fn counted_as(endpoint: SocketAddrV4, known: Option<KnownOffer>) -> Counted
    ensures { result ≡ counted_as endpoint known }
{
    match known {
        None => Counted::New,
        Some(known) => {
            if is_same_key(&known.endpoint, &endpoint) {
                Counted::Renewed
            } else {
                Counted::Moved
            }
        }
    }
}
