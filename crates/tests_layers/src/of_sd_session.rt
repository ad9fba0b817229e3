//! Rows of sessions and of peers: `unicast` and `multicast HOST SESSION REBOOT`, `next`, and `skip` of so many sessions.
use crate::acts::{Act, Subject, Told, tell};
use crate::judging::try_tables;
use sd_session::{Channel, Counter, PeerTable};
use std::alloc::{AllocError, Global};
use std::fmt;
use std::fmt::Write;
use std::net::Ipv4Addr;

/// Both channels of one host, in turn.
const CHANNELS: &str = "
peers 64
multicast 1 5 1 -> Same
unicast 1 3 1 -> Same
unicast 1 3 1 -> Rebooted
multicast 1 2 1 -> Same
len -> 1
clear
len -> 0";

/// Two hosts, and a table for one.
const CROWDED: &str = "
peers 1
multicast 1 5 1 -> Same
multicast 2 1 1 -> PeersFull
unicast 1 1 1 -> Same";

/// Two messages of a host, and what the second one shows.
const PAIRS: &str = "
peers 6
unicast 1 5 1 -> Same
unicast 1 5 1 -> Rebooted
unicast 2 0xffff 1 -> Same
unicast 2 1 0 -> Same
unicast 3 9 0 -> Same
unicast 3 1 1 -> Rebooted
unicast 4 9 0 -> Same
unicast 4 3 0 -> Same
unicast 5 5 1 -> Same
unicast 5 6 1 -> Same
unicast 6 5 1 -> Same
unicast 6 3 1 -> Rebooted";

/// The sessions of a counter, and its Reboot flag.
const COUNTER: &str = "
next -> (1, true)
skip 65533
next -> (65535, true)
next -> (1, false)
skip 65534
next -> (1, false)";

/// Twelve peers, of which each takes memory as it comes.
const PEERS: &str = "
peers 12
unicast 1 1 1 -> Same
multicast 2 5 1 -> Same
unicast 3 1 1 -> Same
unicast 4 1 1 -> Same
unicast 5 1 0 -> Same
unicast 6 1 1 -> Same
multicast 7 7 1 -> Same
unicast 8 1 1 -> Same
unicast 9 1 1 -> Same
unicast 10 1 1 -> Same
unicast 11 1 1 -> Same
unicast 12 1 1 -> Same
unicast 1 2 1 -> Same
multicast 2 5 1 -> Rebooted
unicast 5 1 1 -> Rebooted
unicast 13 1 1 -> PeersFull";

/// Peers, and a counter.
#[derive(Drop)]
struct Sessions {
    alloc: Global,
    peers: PeerTable,
    counter: Counter,
}

impl Subject for Sessions {
    fn make(alloc: Global) -> Result<Sessions, AllocError> {
        Ok(Sessions {
            alloc,
            peers: PeerTable::new(alloc, 1),
            counter: Counter::new(),
        })
    }

    fn perform(&mut self, act: &Act<'_>, told: &mut Told) -> fmt::Result {
        match act.verb {
            "peers" => self.peers = PeerTable::new(self.alloc, usize::from(act.short(0))),
            "unicast" => return self.hear(Channel::Unicast, act, told),
            "multicast" => return self.hear(Channel::Multicast, act, told),
            "len" => write!(told, "{}", self.peers.len())?,
            "clear" => self.peers.clear(),
            "next" => write!(told, "{:?}", self.counter.next())?,
            "skip" => self.skip(act.word(0)),
            _ => return Err(fmt::Error),
        }
        Ok(())
    }
}

impl Sessions {
    fn hear(&mut self, channel: Channel, act: &Act<'_>, told: &mut Told) -> fmt::Result {
        let peer = Ipv4Addr::new(192, 168, 0, act.byte(0));
        tell(
            told,
            &self.peers.saw(peer, channel, act.short(1), act.is(2)),
        )
    }

    fn skip(&mut self, count: u32) {
        for _ in 0..count {
            let _ = self.counter.next();
        }
    }
}

#[test]
fn sessions_and_peers(rt: HostRuntime) {
    try_tables::<Sessions>(&rt, &[CHANNELS, CROWDED, PAIRS, COUNTER, PEERS]);
}
