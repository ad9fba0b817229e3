//! Rows of offers, and of answers to finds: `add INSTANCE MAJOR MINOR`, `start DELAY`, `tick`, `quiet UNTIL` (a tick at
//! each moment before that one), `find SERVICE INSTANCE MAJOR MINOR`, `stop INSTANCE`, `up INSTANCE`.
use super::{NO_REPETITIONS, THREE, instance, tell_instances};
use crate::acts::{Act, Subject, Told, tell_refusal};
use crate::judging::try_tables;
use sd_core::{Offers, Phases, Sought, Version};
use someip_tables::Moment;
use std::alloc::{AllocError, Global};
use std::fmt;
use std::fmt::Write;

/// Offers at 10, 40, 100, 220 and 1220.
const IN_PHASES: &str = "
0 add 1 1 0
0 start 10
0 quiet 10
10 tick -> 1
11 quiet 40
40 tick -> 1
41 quiet 100
100 tick -> 1
101 quiet 220
220 tick -> 1
221 quiet 1220
1220 tick -> 1
1221 quiet 1500";

/// Without repetitions, at a few moments.
const CYCLIC: &str = "
0 once
0 add 1 1 0
0 start 10
9 tick
10 tick -> 1
1009 tick
1010 tick -> 1
2009 tick
2010 tick -> 1";

/// A tick that is late, and those after it.
const LATE: &str = "
0 add 2 1 0
0 add 1 1 0
0 start 10
1000 tick -> 1 2
1029 tick
1030 tick -> 1 2";

/// Finds before and after the first Offer, and while instances are down.
const FINDS: &str = "
0 add 1 1 7
0 add 2 2 7
0 start 10
9 tick
9 find 0x1111 0xffff 0xff 0xffffffff
10 tick -> 1 2
10 find 0x1111 0xffff 0xff 0xffffffff -> 1 2
10 stop 1 -> true
10 stop 1 -> false
10 up 1 -> false
10 find 0x1111 0xffff 0xff 0xffffffff -> 2
10 start 10
10 up 1 -> true
10 find 0x1111 0xffff 0xff 0xffffffff";

/// Which finds fit the instance 1 in version 1.7.
const FITS: &str = "
0 fits 0x1111 1 1 7 -> true
0 fits 0x1112 1 1 7 -> false
0 fits 0xffff 1 1 7 -> false
0 fits 0x1111 2 1 7 -> false
0 fits 0x1111 0xffff 1 7 -> true
0 fits 0x1111 1 2 7 -> false
0 fits 0x1111 1 0xff 7 -> true
0 fits 0x1111 1 1 8 -> false
0 fits 0x1111 1 1 0xffffffff -> true
0 fits 0x1111 0xffff 0xff 0xffffffff -> true";

/// Seven instances, of which each takes memory.
const SEVEN: &str = "
0 add 1 1 0
0 add 2 1 0
0 add 3 1 0
0 add 4 1 0
0 add 5 1 0
0 add 6 1 0
0 add 7 1 0
0 start 10
5 find 0x1111 0xffff 0xff 0xffffffff
10 tick -> 1 2 3 4 5 6 7
20 find 0x1111 0xffff 0xff 0xffffffff -> 1 2 3 4 5 6 7
30 find 0x1111 2 0xff 0xffffffff -> 2
40 tick -> 1 2 3 4 5 6 7
45 stop 3 -> true
100 tick -> 1 2 4 5 6 7
220 tick -> 1 2 4 5 6 7
1220 find 0x1111 0xffff 0xff 0xffffffff -> 1 2 4 5 6 7
1220 tick -> 1 2 4 5 6 7
1221 up 3 -> false";

/// The offers, and the phases of their ticks.
#[derive(Drop)]
struct Offering {
    offers: Offers,
    phases: Phases,
}

impl Subject for Offering {
    fn make(alloc: Global) -> Result<Offering, AllocError> {
        Ok(Offering {
            offers: Offers::new(alloc),
            phases: THREE,
        })
    }

    fn perform(&mut self, act: &Act<'_>, told: &mut Told) -> fmt::Result {
        let number = instance(act.short(0));
        match act.verb {
            "once" => self.phases = NO_REPETITIONS,
            "add" => {
                let version = Version {
                    major: act.byte(1),
                    minor: act.word(2),
                };
                return tell_refusal(told, &self.offers.add(number, version));
            }
            "start" => self.offers.start(act.word(0)),
            "tick" => return self.tick(act.at, told),
            "quiet" => return self.tick_until(act, told),
            "find" => return tell_instances(told, &self.offers.find(sought(act))),
            "fits" => {
                let version = Version { major: 1, minor: 7 };
                write!(told, "{}", sought(act).fits(&instance(1), &version))?;
            }
            "stop" => write!(told, "{}", self.offers.stop(number))?,
            "up" => write!(told, "{}", self.offers.is_up(number))?,
            _ => return Err(fmt::Error),
        }
        Ok(())
    }
}

impl Offering {
    fn tick(&mut self, millis: u64, told: &mut Told) -> fmt::Result {
        match Moment::new(millis) {
            Some(now) => tell_instances(told, &self.offers.tick(now, self.phases)),
            None => Err(fmt::Error),
        }
    }

    fn tick_until(&mut self, act: &Act<'_>, told: &mut Told) -> fmt::Result {
        for millis in act.at..act.long(0) {
            self.tick(millis, told)?;
        }
        Ok(())
    }
}

/// What is asked for.
fn sought(act: &Act<'_>) -> Sought {
    Sought {
        service: act.short(0),
        instance: act.short(1),
        major: act.byte(2),
        minor: act.word(3),
    }
}

#[test]
fn offers(rt: HostRuntime) {
    try_tables::<Offering>(&rt, &[IN_PHASES, CYCLIC, LATE, FINDS, FITS, SEVEN]);
}
