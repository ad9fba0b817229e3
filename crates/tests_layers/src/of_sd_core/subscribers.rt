//! Rows of subscriptions at their server. `subscribe` has what is asked for, and then what the server knows: `INSTANCE
//! EVENTGROUP HOST PORT COUNTER TTL LIMIT RULES`. Port 0 is none; of the rules 4 says that the instance is offered, 2 that
//! its major version is the wanted one, 1 that the eventgroup is known. Further `stop INSTANCE EVENTGROUP HOST PORT
//! COUNTER`, `stop-offer INSTANCE`, `reboot HOST`, `tick`, `live EVENTGROUP EVENTGROUP` of the instance 1,
//! `is-live INSTANCE EVENTGROUP HOST PORT`, `clear`.
use super::{address, endpoint, endpoint_at, instance};
use crate::acts::{Act, Subject, Told, tell, tell_refusal};
use crate::judging::try_tables;
use sd_core::{Subscribe, SubscribeRules, Subscribers, Subscription};
use sd_wire::{SubscriptionCounter, Ttl};
use someip_tables::Moment;
use std::alloc::{AllocError, Global};
use std::fmt;
use std::fmt::Write;

/// A subscription for 3 seconds.
const SHORT: &str = "
0 subscribe 1 1 2 40001 0 3 1 7
2999 live 1 -> {192.168.0.2:40001}
3000 live 1 -> {}";

/// One until the next reboot.
const UNTIL_REBOOT: &str = "
0 subscribe 1 1 2 40001 0 0xffffff 1 7
3000 live 1 -> {192.168.0.2:40001}
9223372036854775807 live 1 -> {192.168.0.2:40001}";

/// One for as long as can be told.
const LONGEST: &str = "
0 subscribe 1 1 2 40001 0 0xfffffe 1 7
16777213999 live 1 -> {192.168.0.2:40001}
16777214000 live 1 -> {}";

/// Two hosts, of which one may be subscribed at a time.
const CROWDED: &str = "
0 subscribe 1 1 2 40001 0 3 1 7
10 subscribe 1 1 3 40001 0 3 1 7 -> Nack(Full)
20 subscribe 1 1 2 40001 0 3 1 7
3019 subscribe 1 1 3 40001 0 3 1 7 -> Nack(Full)
3020 subscribe 1 1 3 40001 0 3 1 7
3020 subscribe 1 1 2 40001 0 3 1 7 -> Nack(Full)
3020 subscribe 1 2 2 40001 0 3 1 7";

/// Requests that have every cause from one on.
const REFUSED: &str = "
0 subscribe 1 1 2 0 0 3 0 0 -> Nack(NotOffered)
0 subscribe 1 1 2 0 0 3 0 4 -> Nack(WrongMajor)
0 subscribe 1 1 2 0 0 3 0 6 -> Nack(UnknownEventgroup)
0 subscribe 1 1 2 0 0 3 0 7 -> Nack(NoEndpoint)
0 subscribe 1 1 2 40001 0 3 0 7 -> Nack(Full)";

/// Two subscriptions of one endpoint, and others.
const ENDPOINTS: &str = "
0 subscribe 1 1 2 40001 0 3 1024 7
0 subscribe 1 1 2 40001 1 3 1024 7
0 subscribe 1 2 2 39999 0 3 1024 7
0 subscribe 1 1 1 40003 0 3 1024 7
0 live 2 1 -> {192.168.0.1:40003, 192.168.0.2:39999, 192.168.0.2:40001}
0 live 2 -> {192.168.0.2:39999}";

/// Ways in which a subscription ends: time, a StopSubscribe, a stopped offer.
const ENDING: &str = "
0 subscribe 1 1 2 40001 0 3 1 7
0 subscribe 2 1 2 40001 0 3 1 7
0 stop 1 1 2 40001 1 -> false
3000 stop 1 1 2 40001 0 -> false
0 subscribe 1 1 2 40001 0 3 1 7
0 is-live 1 1 2 40001 -> true
0 stop 1 1 2 40001 0 -> true
0 is-live 1 1 2 40001 -> false
0 subscribe 1 1 2 40001 0 3 1 7
0 stop-offer 1
0 is-live 1 1 2 40001 -> false
0 is-live 2 1 2 40001 -> true
2999 tick
0 is-live 2 1 2 40001 -> true
3000 tick
0 is-live 2 1 2 40001 -> false
0 subscribe 1 1 2 40001 0 3 1 7
0 clear
0 is-live 1 1 2 40001 -> false";

/// A host that begins again: its own subscription ends, and no other.
const REBOOT: &str = "
0 subscribe 1 1 2 40001 0 3 1024 7
0 subscribe 1 1 3 40001 0 3 1024 7
0 reboot 2
0 live 1 -> {192.168.0.3:40001}";

/// Hosts one after the other, of which each takes memory.
const SEVEN: &str = "
0 subscribe 1 1 2 40001 0 3 8 7
0 subscribe 1 1 3 40001 0 1 8 7
0 subscribe 1 1 4 40001 0 3 8 7
0 subscribe 1 1 5 40001 0 3 8 7
0 subscribe 1 1 6 40001 0 3 8 7
0 subscribe 1 1 7 40001 0 3 8 7
0 subscribe 1 1 8 40001 0 3 8 7
0 subscribe 1 2 2 40001 0 3 8 7
0 live 1 2 -> {192.168.0.2:40001, 192.168.0.3:40001, 192.168.0.4:40001, 192.168.0.5:40001, 192.168.0.6:40001, 192.168.0.7:40001, 192.168.0.8:40001}
500 subscribe 1 1 2 40001 0 3 8 7
1000 tick
1000 live 1 -> {192.168.0.2:40001, 192.168.0.4:40001, 192.168.0.5:40001, 192.168.0.6:40001, 192.168.0.7:40001, 192.168.0.8:40001}
1000 stop 1 1 4 40001 0 -> true
1000 reboot 5
1000 live 1 2 -> {192.168.0.2:40001, 192.168.0.6:40001, 192.168.0.7:40001, 192.168.0.8:40001}
1000 subscribe 1 1 9 40001 0 3 8 7
1000 subscribe 1 1 10 40001 0 3 8 7
1000 subscribe 1 1 11 40001 0 3 8 7
1000 is-live 1 1 9 40001 -> true
1000 is-live 1 1 12 40001 -> false";

impl Subject for Subscribers {
    fn make(alloc: Global) -> Result<Subscribers, AllocError> {
        Ok(Subscribers::new(alloc))
    }

    fn perform(&mut self, act: &Act<'_>, told: &mut Told) -> fmt::Result {
        let Some(now) = Moment::new(act.at) else {
            return Err(fmt::Error);
        };
        match act.verb {
            "subscribe" => match request(act) {
                Some(asked) => return tell_refusal(told, &self.subscribe(rules(act), asked, now)),
                None => return Err(fmt::Error),
            },
            "stop" => match subscription(act) {
                Some(stopped) => write!(told, "{}", self.stop(stopped, now))?,
                None => return Err(fmt::Error),
            },
            "stop-offer" => self.stop_offer(instance(act.short(0))),
            "reboot" => self.peer_reboot(address(act.byte(0))),
            "tick" => Subscribers::tick(self, now),
            "live" => {
                return tell(
                    told,
                    &self.live(instance(1), &[act.short(0), act.short(1)], now),
                );
            }
            "is-live" => {
                let endpoint = endpoint(act.byte(2), act.short(3));
                let is_live = self.is_live(instance(act.short(0)), act.short(1), endpoint, now);
                write!(told, "{is_live}")?;
            }
            "clear" => self.clear(),
            _ => return Err(fmt::Error),
        }
        Ok(())
    }
}

/// What the server knows.
fn rules(act: &Act<'_>) -> SubscribeRules {
    let known = act.long(7);
    SubscribeRules {
        is_offered: known >= 4,
        is_same_major: known % 4 >= 2,
        is_known_eventgroup: known % 2 == 1,
        limit: usize::from(act.short(6)),
    }
}

/// The Subscribe, if there are such a counter and TTL.
fn request(act: &Act<'_>) -> Option<Subscribe> {
    Some(Subscribe {
        instance: instance(act.short(0)),
        eventgroup: act.short(1),
        peer: address(act.byte(2)),
        endpoint: endpoint_at(act.byte(2), act.short(3)),
        counter: SubscriptionCounter::new(act.byte(4))?,
        ttl: Ttl::new(act.word(5))?,
    })
}

/// What a StopSubscribe ends, if there is such a counter.
fn subscription(act: &Act<'_>) -> Option<Subscription> {
    Some(Subscription {
        instance: instance(act.short(0)),
        eventgroup: act.short(1),
        peer: address(act.byte(2)),
        endpoint: endpoint(act.byte(2), act.short(3)),
        counter: SubscriptionCounter::new(act.byte(4))?,
    })
}

#[test]
fn subscriptions_at_a_server(rt: HostRuntime) {
    let tables = [
        SHORT,
        UNTIL_REBOOT,
        LONGEST,
        CROWDED,
        REFUSED,
        ENDPOINTS,
        ENDING,
        REBOOT,
        SEVEN,
    ];
    try_tables::<Subscribers>(&rt, &tables);
}
