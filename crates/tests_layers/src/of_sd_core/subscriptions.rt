//! Rows of a client's subscriptions: `want INSTANCE EVENTGROUP HOST` (host 0 where no host offers the instance; answered
//! is the counter of the Subscribe that goes out), `unwant INSTANCE EVENTGROUP`, `offer INSTANCE HOST` (which Subscribes go
//! out, and their counters), `ack` and `nack INSTANCE EVENTGROUP HOST COUNTER TTL MAJOR` (MAJOR is 1 for the wanted
//! version), `stop INSTANCE`, `reboot HOST`, `tick`, `is INSTANCE EVENTGROUP`, `turns COUNT` (so many wishes of the same
//! eventgroup, each stated twice and taken back twice, by the counters of their Subscribes), `clear`.
use super::{address, instance, tell_groups};
use crate::acts::{Act, Subject, Told};
use crate::judging::try_tables;
use sd_core::{Eventgroup, OutgoingSubscribe, SubscribeAnswer, Subscriptions};
use sd_wire::{SubscriptionCounter, Ttl};
use someip_tables::Moment;
use std::alloc::{AllocError, Global};
use std::fmt;
use std::fmt::Write;
use std::net::Ipv4Addr;

/// Counters after sixteen turns, and after a new start.
const ANEW: &str = "
0 turns 17 -> 0 1 2 3 4 5 6 7 8 9 10 11 12 13 14 15 0
0 clear
0 want 1 1 1 -> 0
0 want 1 2 0";

/// Answers each of which is another one in one part.
const OTHERS: &str = "
0 want 1 1 1 -> 0
100 ack 1 1 1 1 5 1 -> NotPending
100 nack 1 1 1 1 0 1 -> false
100 ack 1 1 9 0 5 1 -> NotPending
100 nack 1 1 9 0 0 1 -> false
100 ack 1 1 1 0 5 0 -> NotPending
100 nack 1 1 1 0 0 0 -> false
100 ack 1 2 1 0 5 1 -> NotPending
100 nack 1 2 1 0 0 1 -> false
100 ack 2 1 1 0 5 1 -> NotPending
100 nack 2 1 1 0 0 1 -> false
100 is 1 1 -> false";

/// Acks that come one after the other.
const LATEST: &str = "
0 want 1 1 1 -> 0
100 ack 1 1 1 0 5 1 -> Subscribed
5099 is 1 1 -> true
5100 is 1 1 -> false
200 ack 1 1 1 0 1 1 -> Renewed
1199 is 1 1 -> true
1200 is 1 1 -> false
1200 ack 1 1 1 0 5 1 -> NotPending
1199 is 1 1 -> true
1200 is 1 1 -> false
1200 nack 1 1 1 0 0 1 -> false";

/// Offers, and a Nack between them.
const OFFERED: &str = "
0 want 1 2 0
0 want 1 1 0
0 want 2 1 0
0 offer 1 1 -> 1/1:0 1/2:0
1000 offer 1 1 -> 1/1:0 1/2:0
1000 nack 1 1 1 0 0 1 -> true
1000 nack 1 1 1 0 0 1 -> false
1000 offer 1 1 -> 1/1:1 1/2:0
1000 offer 3 1";

/// Ways in which subscriptions end: time, a StopOffer, a reboot.
const ENDING: &str = "
0 want 2 1 1 -> 0
0 want 1 2 1 -> 0
0 want 1 1 1 -> 0
0 want 3 1 9 -> 0
0 stop 1 -> 1/1 1/2
0 want 1 1 1 -> 1
0 reboot 1 -> 1/1 2/1
0 ack 3 1 9 0 1 1 -> Subscribed
999 tick
1000 tick -> 3/1
1000 tick";

/// A subscription that lasts, and ends with its wish.
const TAKEN_BACK: &str = "
0 want 1 1 1 -> 0
0 ack 1 1 1 0 0xffffff 1 -> Subscribed
1099511627776 unwant 1 1 -> 192.168.0.1 0 Some(Never)
0 is 1 1 -> false
0 offer 1 1";

/// Wishes one after the other, of which each takes memory.
const SEVEN: &str = "
0 want 1 1 1 -> 0
0 want 1 2 1 -> 0
0 want 1 3 0
0 want 2 1 0
0 want 2 2 2 -> 0
0 want 3 1 3 -> 0
0 want 3 2 3 -> 0
10 ack 1 1 1 0 3 1 -> Subscribed
10 ack 1 2 1 0 1 1 -> Subscribed
10 ack 2 2 2 0 3 1 -> Subscribed
10 ack 3 1 3 0 5 1 -> Subscribed
10 ack 3 2 3 0 5 1 -> Subscribed
20 offer 1 1 -> 1/1:0 1/2:0 1/3:0
20 offer 2 2 -> 2/1:0 2/2:0
1010 tick -> 1/2
1020 stop 2 -> 2/1 2/2
1030 reboot 3 -> 3/1 3/2
1040 want 4 1 1 -> 0
1041 ack 4 1 1 0 3 1 -> Subscribed
1041 is 4 1 -> true";

impl Subject for Subscriptions {
    fn make(alloc: Global) -> Result<Subscriptions, AllocError> {
        Ok(Subscriptions::new(alloc))
    }

    fn perform(&mut self, act: &Act<'_>, told: &mut Told) -> fmt::Result {
        let Some(now) = Moment::new(act.at) else {
            return Err(fmt::Error);
        };
        let group = eventgroup(act);
        match act.verb {
            "want" => return tell_counter(told, &self.want(group, host(act.byte(2)), now)),
            "unwant" => return take_back(self, group, now, told),
            "offer" => {
                let host = address(act.byte(1));
                return tell_sent(told, &self.offer(group.instance, host, now));
            }
            "ack" => match (answer(act), Ttl::new(act.word(4))) {
                (Some(ack), Some(ttl)) => write!(told, "{:?}", self.ack(ack, ttl, now))?,
                _ => return Err(fmt::Error),
            },
            "nack" => match answer(act) {
                Some(nack) => write!(told, "{}", self.nack(nack, now))?,
                None => return Err(fmt::Error),
            },
            "stop" => return tell_groups(told, &self.stop(group.instance)),
            "reboot" => return tell_groups(told, &self.peer_reboot(address(act.byte(0)))),
            "tick" => return tell_groups(told, &Subscriptions::tick(self, now, &[])),
            "is" => write!(told, "{}", self.is_subscribed(&group, now))?,
            "turns" => return take_turns(self, act.long(0), now, told),
            "clear" => self.clear(),
            _ => return Err(fmt::Error),
        }
        Ok(())
    }
}

fn eventgroup(act: &Act<'_>) -> Eventgroup {
    Eventgroup {
        instance: instance(act.short(0)),
        id: act.short(1),
    }
}

/// The address of the host that offers an instance, if one does.
fn host(number: u8) -> Option<Ipv4Addr> {
    if number == 0 {
        None
    } else {
        Some(address(number))
    }
}

/// The Ack or the Nack, if there is such a counter.
fn answer(act: &Act<'_>) -> Option<SubscribeAnswer> {
    Some(SubscribeAnswer {
        eventgroup: eventgroup(act),
        has_wanted_major: act.is(5),
        peer: address(act.byte(2)),
        counter: SubscriptionCounter::new(act.byte(3))?,
    })
}

/// Writes down the counter of the Subscribe that goes out, if one does, or the refusal.
fn tell_counter(
    told: &mut Told,
    sent: &Result<Option<SubscriptionCounter>, AllocError>,
) -> fmt::Result {
    match sent {
        Ok(Some(counter)) => write!(told, "{}", counter.number()),
        Ok(None) => Ok(()),
        Err(refusal) => write!(told, "{refusal:?}"),
    }
}

/// Takes a wish back, and writes down what stood: the host, the counter and the deadline.
fn take_back(
    subscriptions: &mut Subscriptions,
    group: Eventgroup,
    now: Moment,
    told: &mut Told,
) -> fmt::Result {
    match subscriptions.unwant(group, now) {
        Some(stood) => {
            let counter = stood.counter.number();
            write!(told, "{} {counter} {:?}", stood.peer, stood.until)
        }
        None => Ok(()),
    }
}

/// Writes down the eventgroups of Subscribes, and their counters.
fn tell_sent(told: &mut Told, sent: &Result<Vec<OutgoingSubscribe>, AllocError>) -> fmt::Result {
    match sent {
        Ok(sent) => {
            for (place, subscribe) in sent.iter().enumerate() {
                let space = if place == 0 { "" } else { " " };
                let group = subscribe.eventgroup;
                let counter = subscribe.counter.number();
                write!(
                    told,
                    "{space}{}/{}:{counter}",
                    group.instance.instance, group.id
                )?;
            }
            Ok(())
        }
        Err(refusal) => write!(told, "{refusal:?}"),
    }
}

/// So many wishes, each stated twice and taken back twice. Only the first of both has an effect.
fn take_turns(
    subscriptions: &mut Subscriptions,
    turns: u64,
    now: Moment,
    told: &mut Told,
) -> fmt::Result {
    let group = Eventgroup {
        instance: instance(1),
        id: 1,
    };
    for turn in 0..turns {
        let space = if turn == 0 { "" } else { " " };
        let first = subscriptions.want(group, host(1), now);
        if first.is_err() {
            return tell_counter(told, &first);
        }
        let second = subscriptions.want(group, host(1), now);
        let stood = subscriptions.unwant(group, now).is_some();
        if first != second || !stood || subscriptions.unwant(group, now).is_some() {
            return Err(fmt::Error);
        }
        write!(told, "{space}")?;
        tell_counter(told, &first)?;
    }
    Ok(())
}

#[test]
fn subscriptions_of_a_client(rt: HostRuntime) {
    let tables = [ANEW, OTHERS, LATEST, OFFERED, ENDING, TAKEN_BACK, SEVEN];
    try_tables::<Subscriptions>(&rt, &tables);
}
