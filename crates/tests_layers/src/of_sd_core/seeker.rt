//! Rows of finds and of offers that are known: `add INSTANCE MAJOR`, `start DELAY`, `tick` (which offers end, and behind
//! a bar which Finds go out), `quiet UNTIL`, `offer INSTANCE MAJOR TTL PORT BY` (of an endpoint of host 1, port 0 for
//! none), `stop INSTANCE MAJOR BY`, `reboot HOST`, `known INSTANCE`.
use super::{NO_REPETITIONS, THREE, address, endpoint_at, instance, tell_instances, tell_numbers};
use crate::acts::{Act, Subject, Told, tell, tell_refusal};
use crate::judging::try_tables;
use sd_core::{Phases, ReceivedOffer, Seeker, Ticked};
use sd_wire::Ttl;
use someip_tables::Moment;
use std::alloc::{AllocError, Global};
use std::fmt;
use std::fmt::Write;

/// Finds at 10, 40, 100 and 220.
const IN_PHASES: &str = "
0 add 1 1
0 start 10
0 quiet 10
10 tick -> | 1
11 quiet 40
40 tick -> | 1
41 quiet 100
100 tick -> | 1
101 quiet 220
220 tick -> | 1
221 quiet 1500";

/// An Offer at 50, which passes at 3050.
const FOUND: &str = "
0 add 1 1
0 start 10
0 quiet 10
10 tick -> | 1
10 known 1
11 quiet 40
40 tick -> | 1
40 known 1
41 quiet 51
50 offer 1 1 3 30509 1 -> New
50 known 1 -> 192.168.0.1 192.168.0.1:30509
51 quiet 3050
3049 known 1 -> 192.168.0.1 192.168.0.1:30509
3050 tick -> 1 |
3050 known 1
3051 quiet 3500";

/// A tick that is late, and those after it.
const LATE: &str = "
0 add 2 1
0 add 1 1
0 start 10
1000 tick -> | 1 2
1029 tick
1030 tick -> | 1 2
1090 tick -> | 1 2";

/// Without repetitions, and one more start.
const ONCE: &str = "
0 once
0 add 1 1
0 start 10
9 tick
10 tick -> | 1
40 tick
1010 tick
5000 tick
5000 start 20
20 tick -> | 1";

/// Offers that count, and those that do not.
const COUNTED: &str = "
0 add 1 1
0 start 10
50 offer 2 1 3 0 1 -> Unwanted
50 offer 1 2 3 0 1 -> Unwanted
50 offer 1 1 3 0 1 -> NoEndpoint
50 offer 1 1 3 30509 1 -> New
50 offer 1 1 3 30509 1 -> Renewed
50 offer 1 1 3 30510 1 -> Moved
50 offer 1 1 3 0 1 -> NoEndpoint
50 offer 1 1 3 30510 2 -> OtherPeer
50 known 1 -> 192.168.0.1 192.168.0.1:30510
50 known 2";

/// An offer that passes at 3050, while host 2 offers the instance too.
const PASSING: &str = "
0 add 1 1
0 start 10
50 offer 1 1 3 30509 1 -> New
3049 offer 1 1 0xffffff 30509 2 -> OtherPeer
3050 stop 1 1 1 -> false
3050 offer 1 1 0xffffff 30509 2 -> New
9223372036854775807 known 1 -> 192.168.0.2 192.168.0.1:30509";

/// StopOffers, and a start while an offer is known.
const STOPPED: &str = "
0 add 1 1
50 offer 1 1 0xffffff 30509 1 -> New
50 stop 2 1 1 -> false
50 known 1 -> 192.168.0.1 192.168.0.1:30509
50 stop 1 2 1 -> false
50 known 1 -> 192.168.0.1 192.168.0.1:30509
50 stop 1 1 2 -> false
50 known 1 -> 192.168.0.1 192.168.0.1:30509
50 stop 1 1 1 -> true
50 known 1
50 stop 1 1 1 -> false
50 known 1
50 offer 1 1 0xffffff 30509 1 -> New
50 start 10
50 known 1";

/// Three offers, one of them by host 2, which begins again: its own ends, and nothing else.
const TOGETHER: &str = "
0 add 3 1
50 offer 3 1 3 30509 1 -> New
50 add 2 1
50 offer 2 1 3 30509 2 -> New
50 add 1 1
50 offer 1 1 3 30509 1 -> New
50 reboot 2 -> 2
50 reboot 2
50 known 1 -> 192.168.0.1 192.168.0.1:30509
50 known 2
3050 tick -> 1 3 |
3050 tick";

/// Seven instances, of which each takes memory.
const SEVEN: &str = "
0 add 1 1
0 add 2 1
0 add 3 1
0 add 4 1
0 add 5 1
0 add 6 1
0 add 7 1
0 start 10
10 tick -> | 1 2 3 4 5 6 7
20 offer 1 1 3 30509 1 -> New
20 offer 2 1 1 30509 1 -> New
20 offer 3 1 3 30509 2 -> New
20 offer 4 1 3 30509 2 -> New
40 tick -> | 5 6 7
50 reboot 2 -> 3 4
1020 tick -> 2 | 5 6 7
1030 offer 5 1 0xffffff 30509 3 -> New
1040 reboot 1 -> 1
1042 known 5 -> 192.168.0.3 192.168.0.1:30509
1042 known 6";

/// The seeker, and the phases of its ticks.
#[derive(Drop)]
struct Seeking {
    seeker: Seeker,
    phases: Phases,
}

impl Subject for Seeking {
    fn make(alloc: Global) -> Result<Seeking, AllocError> {
        Ok(Seeking {
            seeker: Seeker::new(alloc),
            phases: THREE,
        })
    }

    fn perform(&mut self, act: &Act<'_>, told: &mut Told) -> fmt::Result {
        let Some(now) = Moment::new(act.at) else {
            return Err(fmt::Error);
        };
        let number = instance(act.short(0));
        match act.verb {
            "once" => self.phases = NO_REPETITIONS,
            "add" => return tell_refusal(told, &self.seeker.add(number, act.byte(1))),
            "start" => self.seeker.start(act.word(0)),
            "tick" => return tell_ticked(told, &self.seeker.tick(now, self.phases)),
            "quiet" => return self.tick_until(act, told),
            "offer" => match received(act) {
                Some(offer) => return tell(told, &self.seeker.offer(&offer, now)),
                None => return Err(fmt::Error),
            },
            "stop" => {
                let is_ended = self
                    .seeker
                    .stop(number, act.byte(1), address(act.byte(2)), now);
                write!(told, "{is_ended}")?;
            }
            "reboot" => {
                return tell_instances(told, &self.seeker.peer_reboot(address(act.byte(0)), now));
            }
            "known" => {
                if let Some(offer) = self.seeker.known(number, now) {
                    write!(told, "{} {}", offer.peer, offer.endpoint)?;
                }
            }
            _ => return Err(fmt::Error),
        }
        Ok(())
    }
}

impl Seeking {
    fn tick_until(&mut self, act: &Act<'_>, told: &mut Told) -> fmt::Result {
        for millis in act.at..act.long(0) {
            match Moment::new(millis) {
                Some(now) => tell_ticked(told, &self.seeker.tick(now, self.phases))?,
                None => return Err(fmt::Error),
            }
        }
        Ok(())
    }
}

/// Writes down what ended, and behind a bar which Finds go out, if anything comes of a tick.
fn tell_ticked(told: &mut Told, ticked: &Result<Ticked, AllocError>) -> fmt::Result {
    match ticked {
        Ok(ticked) if ticked.ended.is_empty() && ticked.finds.is_empty() => Ok(()),
        Ok(ticked) => {
            tell_numbers(told, &ticked.ended)?;
            let space = if ticked.ended.is_empty() { "" } else { " " };
            write!(told, "{space}|")?;
            for instance in &ticked.finds {
                write!(told, " {}", instance.instance)?;
            }
            Ok(())
        }
        Err(refusal) => write!(told, "{refusal:?}"),
    }
}

/// The Offer as it arrives, if there is such a TTL.
fn received(act: &Act<'_>) -> Option<ReceivedOffer> {
    Some(ReceivedOffer {
        instance: instance(act.short(0)),
        major: act.byte(1),
        ttl: Ttl::new(act.word(2))?,
        endpoint: endpoint_at(1, act.short(3)),
        peer: address(act.byte(4)),
    })
}

#[test]
fn finds_and_known_offers(rt: HostRuntime) {
    let tables = [
        IN_PHASES, FOUND, LATE, ONCE, COUNTED, PASSING, STOPPED, TOGETHER, SEVEN,
    ];
    try_tables::<Seeking>(&rt, &tables);
}
