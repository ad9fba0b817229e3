//! What a client keeps of an eventgroup that it wished.
ghost use Rattle.std.specs.Prelude.{◌≡◌, ◌+◌, ◌%◌};

use crate::{Eventgroup, InstanceId};
use sd_wire::{SubscriptionCounter, Ttl};
use someip_tables::{Deadline, Moment, Waits, is_same_key};
use std::net::Ipv4Addr;

/// A subscription that was begun: a Subscribe went out to a server, with a counter.
#[derive(Clone, Copy, Debug, PartialEq, Eq)]
pub struct Beginning {
    /// The address of the server.
    pub peer: Ipv4Addr,
    /// The counter of the Subscribe, and of each that renews it.
    pub counter: SubscriptionCounter,
    /// Until when the client is subscribed, once the server acknowledged.
    pub until: Option<Deadline>,
}

/// How far a wish is.
#[derive(Clone, Copy, Debug, PartialEq, Eq)]
pub enum Stage {
    /// The eventgroup is wished no more.
    Unwished,
    /// It is wished, and no subscription is begun.
    Waiting,
    /// It is wished, and a subscription was begun.
    Begun(Beginning),
}

/// What a client keeps of an eventgroup that it wished.
#[derive(Clone, Copy, Debug, PartialEq, Eq)]
pub struct Wish {
    /// How far the wish is.
    pub stage: Stage,
    /// The counter of the next subscription that is begun.
    pub next_counter: SubscriptionCounter,
}

/// A Subscribe that is to be sent (SOME/IP Service Discovery Protocol, "Subscribe Eventgroup entry").
#[derive(Clone, Copy, Debug, PartialEq, Eq)]
pub struct OutgoingSubscribe {
    /// The eventgroup.
    pub eventgroup: Eventgroup,
    /// The counter.
    pub counter: SubscriptionCounter,
}

/// What an Ack or a Nack says (SOME/IP Service Discovery Protocol, "Subscribe Eventgroup
/// Acknowledgement entry").
#[derive(Clone, Copy, Debug, PartialEq, Eq)]
pub struct SubscribeAnswer {
    /// The eventgroup.
    pub eventgroup: Eventgroup,
    /// Whether its major version is the one that the client wants of the instance.
    pub has_wanted_major: bool,
    /// The address that it came from.
    pub peer: Ipv4Addr,
    /// The counter.
    pub counter: SubscriptionCounter,
}

/// What an Ack brings about.
#[derive(Clone, Copy, Debug, PartialEq, Eq)]
pub enum Acked {
    /// The client is subscribed, and was not before.
    Subscribed,
    /// The client goes on to be subscribed.
    Renewed,
    /// Nothing: no subscription stands that it answers.
    NotPending,
}

/// A wish waits for the moment at which the time of the Ack of its subscription passes.
impl Waits for Wish {
    ghost use Rattle.sd_core.specs.Wishes.{moment_of};

    ghost moment = { moment_of };

    fn waits_for(&self) -> Option<u64> {
        self.stage.passes_at()
    }
}

impl Beginning {
    ghost use Rattle.std.specs.Prelude.{◌≡◌};
    ghost use Rattle.sd_core.specs.Wishes.{is_over, is_with};

    /// Whether the time of its Ack has passed.
    fn is_over(&self, now: Moment) -> bool
        ensures { result ≡ is_over now self.now }
    {
        match self.until {
            Some(until) => until.has_passed(now),
            None => false,
        }
    }

    /// Whether it was begun at this peer.
    fn is_with(&self, peer: Ipv4Addr) -> bool
        ensures { result ≡ is_with peer self.now }
    {
        is_same_key(&self.peer, &peer)
    }
}

impl Stage {
    ghost use Rattle.std.specs.Prelude.{◌≡◌, true};
    ghost use Rattle.sd_core.specs.Wishes.{counter_in, has_begun, is_answered, is_subscribed};
    ghost use Rattle.sd_core.specs.Wishes.{is_wished, is_with, moment_in, stage_acked, standing};
    ghost use Rattle.sd_core.specs.Wishes.{stands_with, told_by_ack};

    /// The moment at which the time of the Ack passes, if there is one, in milliseconds since the
    /// node's start.
    fn passes_at(&self) -> Option<u64>
        ensures { result ≡ moment_in self.now }
    {
        match *self {
            Stage::Begun(
                Beginning {
                    until: Some(Deadline::At(at)),
                    ..
                },
            ) => Some(at),
            _ => None,
        }
    }

    /// Whether a subscription was begun.
    pub fn is_begun(&self) -> bool
        ensures { result ≡ has_begun (λ beginning. true) self.now }
    {
        matches!(*self, Stage::Begun(_))
    }

    /// Whether a subscription was begun at this peer.
    pub fn is_begun_with(&self, peer: Ipv4Addr) -> bool
        ensures { result ≡ has_begun (λ beginning. is_with peer beginning) self.now }
    {
        match *self {
            Stage::Begun(beginning) => beginning.is_with(peer),
            _ => false,
        }
    }

    /// The subscription that stands.
    pub fn standing(&self, now: Moment) -> Option<Beginning>
        ensures { result ≡ standing now self.now }
    {
        match *self {
            Stage::Begun(beginning) if !beginning.is_over(now) => Some(beginning),
            _ => None,
        }
    }

    /// Whether the eventgroup is wished.
    pub fn is_wished(&self) -> bool
        ensures { result ≡ is_wished self.now }
    {
        !matches!(*self, Stage::Unwished)
    }

    /// Whether a subscription stands at this peer.
    fn stands_with(&self, now: Moment, peer: Ipv4Addr) -> bool
        ensures { result ≡ stands_with now peer self.now }
    {
        match self.standing(now) {
            Some(beginning) => beginning.is_with(peer),
            None => false,
        }
    }

    /// Whether the client is subscribed.
    pub fn is_subscribed(&self, now: Moment) -> bool
        ensures { result ≡ is_subscribed now self.now }
    {
        match self.standing(now) {
            Some(beginning) => beginning.until.is_some(),
            None => false,
        }
    }

    /// Whether this is the answer to the subscription that stands.
    pub fn is_answered(&self, now: Moment, answer: &SubscribeAnswer) -> bool
        ensures { result ≡ is_answered now answer.now self.now }
    {
        match self.standing(now) {
            Some(beginning) => {
                answer.has_wanted_major
                    && beginning.is_with(answer.peer)
                    && beginning.counter == answer.counter
            }
            None => false,
        }
    }

    /// What an Ack brings about.
    pub fn told_by_ack(&self, now: Moment, answer: &SubscribeAnswer) -> Acked
        ensures { result ≡ told_by_ack now answer.now self.now }
    {
        if !self.is_answered(now, answer) {
            Acked::NotPending
        } else if self.is_subscribed(now) {
            Acked::Renewed
        } else {
            Acked::Subscribed
        }
    }

    /// The stage once the server acknowledged until a deadline.
    fn acked(&self, until: Deadline) -> Stage
        ensures { result ≡ stage_acked until self.now }
    {
        match *self {
            Stage::Begun(beginning) => Stage::Begun(Beginning {
                peer: beginning.peer,
                counter: beginning.counter,
                until: Some(until),
            }),
            _ => *self,
        }
    }

    /// The counter of the subscription that was begun.
    pub fn counter(&self) -> Option<SubscriptionCounter>
        ensures { result ≡ counter_in self.now }
    {
        match *self {
            Stage::Begun(beginning) => Some(beginning.counter),
            _ => None,
        }
    }
}

impl Wish {
    ghost use Rattle.std.specs.Prelude.{◌≡◌};
    ghost use Rattle.sd_core.specs.Wishes.{acked_wish, begun_at, first_wish, nacked_wish};
    ghost use Rattle.sd_core.specs.Wishes.{is_renewed_by, subscribe_of, subscribing};
    ghost use Rattle.sd_core.specs.Wishes.{unwished, wished_with, wished};

    /// The eventgroup was never wished.
    pub fn first() -> Wish
        ensures { result ≡ first_wish }
    {
        Wish {
            stage: Stage::Unwished,
            next_counter: first_counter(),
        }
    }

    /// The wish stands from now on.
    fn wished(&self) -> Wish
        ensures { result ≡ wished self.now }
    {
        match self.stage {
            Stage::Unwished => self.at(Stage::Waiting),
            _ => *self,
        }
    }

    /// The wish stands from now on, while an offer of a peer is known or while none is.
    pub fn wanted(&self, now: Moment, peer: Option<Ipv4Addr>) -> Wish
        ensures { result ≡ wished_with now peer self.now }
    {
        match peer {
            Some(peer) => self.subscribing(now, peer),
            None => self.wished(),
        }
    }

    /// A Subscribe goes out to a peer.
    pub fn subscribing(&self, now: Moment, peer: Ipv4Addr) -> Wish
        ensures { result ≡ subscribing now peer self.now }
    {
        if self.stage.stands_with(now, peer) {
            *self
        } else {
            self.begun_at(peer)
        }
    }

    /// A subscription is begun at a peer.
    fn begun_at(&self, peer: Ipv4Addr) -> Wish
        ensures { result ≡ begun_at peer self.now }
    {
        let counter = self.next_counter;
        Wish {
            stage: Stage::Begun(Beginning {
                peer,
                counter,
                until: None,
            }),
            next_counter: counter_after(counter),
        }
    }

    /// Whether an Offer of an instance renews it: it is a wish of that instance.
    fn is_renewed_by(&self, instance: InstanceId, eventgroup: &Eventgroup) -> bool
        ensures { result ≡ is_renewed_by instance eventgroup.now self.now }
    {
        is_same_key(&eventgroup.instance, &instance) && self.stage.is_wished()
    }

    /// The Subscribe that goes out when an Offer of an instance came, if one does.
    pub fn subscribe(
        &self,
        now: Moment,
        instance: InstanceId,
        peer: Ipv4Addr,
        eventgroup: &Eventgroup,
    ) -> Option<OutgoingSubscribe>
        ensures { result ≡ subscribe_of now instance peer eventgroup.now self.now }
    {
        if self.is_renewed_by(instance, eventgroup) {
            let counter = self.subscribing(now, peer).stage.counter()?;
            Some(OutgoingSubscribe {
                eventgroup: *eventgroup,
                counter,
            })
        } else {
            None
        }
    }

    /// The wish stands no more.
    pub fn unwished(&self) -> Wish
        ensures { result ≡ unwished self.now }
    {
        self.at(Stage::Unwished)
    }

    /// An Ack came.
    pub fn acked(&self, now: Moment, answer: &SubscribeAnswer, ttl: Ttl) -> Wish
        ensures { result ≡ acked_wish now answer.now ttl self.now }
    {
        if self.stage.is_answered(now, answer) {
            self.at(self.stage.acked(Deadline::after_ttl(now, ttl.seconds())))
        } else {
            *self
        }
    }

    /// A Nack came.
    pub fn nacked(&self, now: Moment, answer: &SubscribeAnswer) -> Wish
        ensures { result ≡ nacked_wish now answer.now self.now }
    {
        if self.stage.is_answered(now, answer) {
            self.at(Stage::Waiting)
        } else {
            *self
        }
    }

    /// The wish at another stage.
    pub fn at(&self, stage: Stage) -> Wish
        ensures { result ≡ record self.now { stage = stage } }
    {
        Wish {
            stage,
            next_counter: self.next_counter,
        }
    }
}

/// The first counter.
fn first_counter() -> SubscriptionCounter
    ensures { result ≡ 0 }
{
    match SubscriptionCounter::new(0) {
        Some(counter) => counter,
        None => unreachable!(),
    }
}

/// The counter after a counter.
fn counter_after(counter: SubscriptionCounter) -> SubscriptionCounter
    ensures { result ≡ (counter + 1) % 16 }
{
    match SubscriptionCounter::new((counter.number() + 1) % 16) {
        Some(next) => next,
        None => unreachable!(),
    }
}
