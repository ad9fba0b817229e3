//! The instances that a node wants: what it knows of each, and which it still searches for.
//!
//! A seeker keeps one entry of its table for each wanted instance, with the known offer and its deadline in
//! it, and one moment: the first of its next Find and the end of its offer. The room of that moment is
//! taken with the entry, so an Offer that comes in never runs out of memory, and a tick looks at what is
//! due alone. `known` is O(log n).
//!
//! Finds that are over leave the table: what stands in `finding` is searched for. So 'no Find once an offer
//! was known' is the absence of an entry, and an offer that has passed brings none back.
//!
//! What has passed is told by the next tick alone: a StopOffer or a reboot ends only offers that have not
//! passed, so each offer that ended by its time is told once. Only an Offer that counts replaces a passed
//! one untold; a node never sees this, since its clock moves by ticks.
ghost use Rattle.std.specs.Prelude.{◌≡◌, ◌≢◌, OnOk, OnErr, IfOk, IfErr, None, Some};
ghost use Rattle.std.specs.Bool.{OnTrue, OnFalse};
ghost use Rattle.std.specs.FinMap as finite;
ghost use Rattle.std.specs.declared.net.socket_addr.SocketAddrV4.{SocketAddrV4};
ghost use Rattle.someip_tables.specs.Lastings.{expired};
ghost use Rattle.someip_tables.specs.Tables.{map_of};
ghost use Rattle.sd_core.specs.Keys.{instance_cmp};
ghost use Rattle.someip_tables.specs.Waits.{HoldsFrom, due_by};
ghost use Rattle.sd_core.specs.Sendings.{due_at};
ghost use Rattle.sd_core.specs.SeekTables.{seek_of, searching, seek_after_tick};
ghost use Rattle.sd_core.specs.SeekTables.{IsQuiet, KnowsWanted, uncounted, counted_as, known_at, learned};
ghost use Rattle.sd_core.specs.SeekTables.{is_stopped, known_of, forgetting};
ghost use Rattle.sd_core.specs.Waiting.{want_moment};

use crate::among::keys_among;
use crate::chosen::keys_where;
use crate::received::{Counted, KnownOffer, ReceivedOffer, Uncounted};
use crate::want::{Want, admit, counted_as};
use crate::{InstanceId, Phases, Sending};
use someip_tables::{Deadline, Lasting, Moment, TimedMap};
use std::alloc::{AllocError, Global};
use std::marker::Model;
use std::net::Ipv4Addr;

/// What a moment brings to the instances that a node wants.
#[derive(Drop)]
pub struct Ticked {
    /// Those whose known offer ended because its time passed, by rising instance.
    pub ended: Vec<InstanceId>,
    /// Those that send a Find now, by rising instance.
    pub finds: Vec<InstanceId>,
}

/// The instances that a node wants, each in one major version: the offer that it knows of each, and
/// when each that it still searches for sends its next Find (SOME/IP Service Discovery Protocol,
/// "Startup behavior"). A contract sees a map of each of the three.
///
/// Whoever moves the clock calls [`Seeker::tick`] with it, which tells the offers whose time has
/// passed: until then they are kept, and count for nothing. An instance stays in the table while nothing
/// is known of it, so that [`Seeker::start`] and [`Seeker::offer`] take no memory. The moments at which
/// an offer passes or a Find goes out stand in order beside the instances, so that `tick` looks only at
/// those that have come.
#[derive(Drop)]
pub struct Seeker {
    alloc: Global,
    wants: TimedMap<InstanceId, Want>,
}

impl Model for Seeker {
    ghost use Rattle.someip_tables.specs.Tables.{map_of};
    ghost use Rattle.sd_core.specs.Keys.{instance_cmp};
    ghost use Rattle.sd_core.specs.SeekTables.{SeekTable, seek_of, coded_seek};

    ghost Value = { SeekTable };

    ghost coded = { coded_seek };

    ghost view = { λ s. seek_of (map_of instance_cmp s.wants) };
}

impl Seeker {
    /// No instance. It takes no memory.
    pub fn new(alloc: Global) -> Seeker
        ensures { result ≡ record {
          wanted = finite.empty;
          known = finite.empty;
          finding = finite.empty;
        } }
    {
        Seeker {
            alloc,
            wants: TimedMap::new(alloc),
        }
    }

    /// Adds an instance that is wanted in a major version. Nothing is known of it, and it is searched
    /// for from the next start on. Running out of memory leaves the instances as they were, and comes
    /// only for a new one.
    pub fn add(&mut self, instance: InstanceId, major: u8) -> Result<(), AllocError>
        ensures ok { OnOk result (self.new ≡ record {
          wanted = finite.insert self.old.wanted instance major;
          known = finite.remove self.old.known instance;
          finding = finite.remove self.old.finding instance;
        }) }
        ensures err { OnErr result (self.new ≡ self.old) }
        ensures grows { OnErr result (finite.get self.old.wanted instance ≡ None) }
    {
        let want = Want {
            major,
            known: None,
            finding: None,
        };
        self.wants.insert(instance, want)
    }

    /// Searches for every instance, as if nothing had been known and no Find sent: the first goes out
    /// at this many milliseconds of the node's clock. It takes no memory.
    pub fn start(&mut self, delay: u32)
        ensures { self.new ≡ searching delay self.old }
    {
        let first = Sending::first_at(delay);
        self.wants.change_all(|_, want| Want {
            major: want.major,
            known: None,
            finding: Some(first),
        });
    }

    /// What a moment brings: the offers end whose time has passed, and the instances that are searched
    /// for and due send a Find, one each, however late. The next is due a delay after this moment, and
    /// none after the repetition phase (SOME/IP Service Discovery Protocol, "Repetition Phase"). Running
    /// out of memory leaves all as it was, and comes only where an offer ends or a Find is due. An offer
    /// is known only of an instance that is wanted.
    pub fn tick(&mut self, now: Moment, phases: Phases) -> Result<Ticked, AllocError>
        ensures ended { IfOk result (λ ticked.
            ticked.ended.items ≡ finite.keys (expired now self.old.known)) }
        ensures finds { IfOk result (λ ticked.
            ticked.finds.items ≡ finite.keys (due_at now self.old.finding)) }
        ensures after { OnOk result (self.new ≡ seek_after_tick phases now self.old) }
        ensures err { OnErr result (self.new ≡ self.old) }
        ensures grows { OnErr result (¬ (IsQuiet now self.old)) }
        ensures wanted { KnowsWanted self.old }
    {
        let due = self.wants.due_keys(self.alloc, now)?;
        let ticked = brought(&self.wants, self.alloc, &due, now)?;
        advance(&mut self.wants, &due, now, phases);
        Ok(ticked)
    }

    /// When a known offer next passes or a Find is due, in milliseconds since the node's start: the first
    /// moment at which [`Seeker::tick`] answers an instance, if there is one. An offer is known only of an
    /// instance that is wanted.
    pub fn next_due(&self) -> Option<u64>
        ensures due { HoldsFrom result (λ now. ¬ (IsQuiet now self.now)) }
        ensures wanted { KnowsWanted self.now }
    {
        self.wants.first_due()
    }

    /// Learns from an Offer, if it counts: its instance is wanted in its major version, it has an
    /// endpoint, and no offer by another peer is known. It is then known until its TTL has passed, and
    /// Finds of the instance go out no more until the next start (SOME/IP Service Discovery Protocol,
    /// "Offer Service entry"). It takes no memory.
    pub fn offer(&mut self, offer: &ReceivedOffer, now: Moment) -> Result<Counted, Uncounted>
        ensures counts { OnOk result (uncounted offer.now now self.old ≡ None) }
        ensures counted { IfOk result (λ counted. (endpoint : SocketAddrV4)
            → offer.now.endpoint ≡ Some endpoint → counted
            ≡ counted_as endpoint (known_at now (finite.get self.old.known offer.now.instance))) }
        ensures learned { OnOk result ((endpoint : SocketAddrV4)
            → offer.now.endpoint ≡ Some endpoint
            → self.new ≡ learned offer.now endpoint now self.old) }
        ensures refused { IfErr result (λ cause. uncounted offer.now now self.old ≡ Some cause) }
        ensures unchanged { OnErr result (self.new ≡ self.old) }
    {
        let Some(want) = self.wants.get(&offer.instance).copied() else {
            return Err(Uncounted::Unwanted);
        };
        let known = want.known_at(now);
        let endpoint = admit(want.major, known, offer)?;
        let value = KnownOffer {
            peer: offer.peer,
            endpoint,
        };
        let until = Deadline::after_ttl(now, offer.ttl.seconds());
        let found = Want {
            major: want.major,
            known: Some(Lasting { value, until }),
            finding: None,
        };
        self.wants.replace(offer.instance, found);
        Ok(counted_as(endpoint, known))
    }

    /// Ends the offer of an instance by a StopOffer, and says whether one ended: the instance is wanted
    /// in this major version, and the offer that is known is by this peer (SOME/IP Service Discovery
    /// Protocol, "Stop Offer Service entry"). It takes no memory.
    pub fn stop(&mut self, instance: InstanceId, major: u8, peer: Ipv4Addr, now: Moment) -> bool
        ensures ended { result ≡ is_stopped instance major peer now self.old }
        ensures gone { OnTrue result (self.new
            ≡ record self.old { known = finite.remove self.old.known instance }) }
        ensures unchanged { OnFalse result (self.new ≡ self.old) }
    {
        let Some(want) = self.wants.get(&instance).copied() else {
            return false;
        };
        if !want.is_stopped_by(major, peer, now) {
            return false;
        }
        let left = Want {
            major: want.major,
            known: None,
            finding: want.finding,
        };
        self.wants.replace(instance, left);
        true
    }

    /// Ends every offer that is known of a peer, since it began again, and answers their instances, by
    /// rising instance (SOME/IP Service Discovery Protocol, "Detection of reboots"). Running out of
    /// memory leaves all as it was, and comes only where an offer ends.
    pub fn peer_reboot(
        &mut self,
        peer: Ipv4Addr,
        now: Moment,
    ) -> Result<Vec<InstanceId>, AllocError>
        ensures ended { IfOk result (λ ended.
            ended.items ≡ finite.keys (known_of peer now self.old)) }
        ensures forgotten { OnOk result (self.new ≡ forgetting peer now self.old) }
        ensures err { OnErr result (self.new ≡ self.old) }
        ensures grows { OnErr result (known_of peer now self.old ≢ finite.empty) }
    {
        let ended = known_now(&self.wants, self.alloc, peer, now)?;
        forget(&mut self.wants, &ended, peer, now);
        Ok(ended)
    }

    /// The offer that is known of an instance.
    pub fn known(&self, instance: InstanceId, now: Moment) -> Option<KnownOffer>
        ensures { result ≡ known_at now (finite.get self.now.known instance) }
    {
        match self.wants.get(&instance) {
            Some(want) => want.known_at(now),
            None => None,
        }
    }
}

/// What a moment brings to the instances whose own moment has come, which are these: those whose offer
/// has passed, and those whose Find is due. Memory runs out only where there are any.
fn brought(
    wants: &TimedMap<InstanceId, Want>,
    alloc: Global,
    due: &[InstanceId],
    now: Moment,
) -> Result<Ticked, AllocError>
    requires { due.now ≡ finite.keys (due_by want_moment now (map_of instance_cmp wants.now)) }
    ensures ended { IfOk result (λ ticked. ticked.ended.items
        ≡ finite.keys (expired now (seek_of (map_of instance_cmp wants.now)).known)) }
    ensures finds { IfOk result (λ ticked. ticked.finds.items
        ≡ finite.keys (due_at now (seek_of (map_of instance_cmp wants.now)).finding)) }
    ensures grows { OnErr result (¬ (IsQuiet now (seek_of (map_of instance_cmp wants.now)))) }
{
    if due.is_empty() {
        return Ok(Ticked {
            ended: Vec::new(alloc),
            finds: Vec::new(alloc),
        });
    }
    let held = wants.held();
    let ended = keys_among(held, alloc, due, |_, want| want.has_passed(now))?;
    let finds = keys_among(held, alloc, due, |_, want| want.is_due(now))?;
    Ok(Ticked { ended, finds })
}

/// The instances whose offer is known of a peer.
fn known_now(
    wants: &TimedMap<InstanceId, Want>,
    alloc: Global,
    peer: Ipv4Addr,
    now: Moment,
) -> Result<Vec<InstanceId>, AllocError>
    ensures known { IfOk result (λ known. known.items
        ≡ finite.keys (known_of peer now (seek_of (map_of instance_cmp wants.now)))) }
    ensures grows { OnErr result
        (known_of peer now (seek_of (map_of instance_cmp wants.now)) ≢ finite.empty) }
{
    keys_where(wants.held(), alloc, |_, want| want.stands_by(peer, now))
}

/// Drops the offers that have passed, and counts the Finds that are due as sent, of these instances.
fn advance(wants: &mut TimedMap<InstanceId, Want>, due: &[InstanceId], now: Moment, phases: Phases)
    requires { due.now ≡ finite.keys (due_by want_moment now (map_of instance_cmp wants.old)) }
    ensures { seek_of (map_of instance_cmp wants.new)
        ≡ seek_after_tick phases now (seek_of (map_of instance_cmp wants.old)) }
{
    wants.change_those(due, |_, want| want.after_tick(phases, now));
}

/// Drops the offers of these instances, those that are known of a peer.
fn forget(wants: &mut TimedMap<InstanceId, Want>, known: &[InstanceId], peer: Ipv4Addr, now: Moment)
    requires { known.now
        ≡ finite.keys (known_of peer now (seek_of (map_of instance_cmp wants.old))) }
    ensures { seek_of (map_of instance_cmp wants.new)
        ≡ forgetting peer now (seek_of (map_of instance_cmp wants.old)) }
{
    wants.change_those(known, |_, want| want.without_offer_by(peer, now));
}
