//! The instances that a node offers, and when each sends its next Offer.
//!
//! An instance that is down stays in the table, with its version, so that a start of all instances takes no
//! memory. A contract sees the map of those that are up.
//!
//! A table keeps the allocator that it was made with, and its calls take none.
//!
//! The delays are handed to each tick, so that a node keeps its configuration once.
ghost use Rattle.std.specs.Prelude.{◌≡◌, ◌≢◌, OnOk, OnErr, IfOk, None, false, is_some};
ghost use Rattle.std.specs.FinMap as finite;
ghost use Rattle.someip_tables.specs.Tables.{map_of};
ghost use Rattle.someip_tables.specs.Waits.{HoldsFrom};
ghost use Rattle.sd_core.specs.Keys.{instance_cmp};
ghost use Rattle.std.specs.Option.{option_map, option_map_or};
ghost use Rattle.sd_core.specs.Sendings.{has_sent, after_sending, due_at};
ghost use Rattle.sd_core.specs.OfferTables.{offers_of, started, started_at, after_tick};
ghost use Rattle.sd_core.specs.OfferTables.{answering, without};
ghost use Rattle.sd_core.specs.Waiting.{offering_moment};

use crate::chosen::keys_where;
use crate::version::{Sought, Version};
use crate::{InstanceId, Phases, Sending};
use someip_tables::{Moment, TimedMap, Waits};
use std::alloc::{AllocError, Global};
use std::marker::Model;

/// An instance that the node may offer: its version, and when it sends its next Offer while it is up.
#[derive(Clone, Copy)]
struct Offering {
    version: Version,
    sending: Option<Sending>,
}

impl Offering {
    /// The instance once its Offer went out.
    fn after_sending(&self, phases: Phases, now: Moment) -> Offering
        ensures { result ≡ record {
          version = self.now.version;
          sending = option_map (after_sending phases now) self.now.sending;
        } }
    {
        let sending = match self.sending {
            Some(sending) => Some(sending.after_sending(phases, now)),
            None => None,
        };
        Offering {
            version: self.version,
            sending,
        }
    }
}

/// While it is up, it waits for its next Offer.
impl Waits for Offering {
    ghost moment = { offering_moment };

    fn waits_for(&self) -> Option<u64> {
        match self.sending {
            Some(sending) => Some(sending.due),
            None => None,
        }
    }
}

/// The instances that a node offers, and when each that is up sends its next Offer (SOME/IP Service
/// Discovery Protocol, "Startup behavior"). A contract sees the versions of the instances, and the
/// map of those that are up.
///
/// An instance stays in the table while it is down, so that [`Offers::start`] takes no memory. The
/// moments of the Offers stand in order beside the instances, so that [`Offers::tick`] looks only at
/// those that are due.
#[derive(Drop)]
pub struct Offers {
    alloc: Global,
    offerings: TimedMap<InstanceId, Offering>,
}

impl Model for Offers {
    ghost use Rattle.someip_tables.specs.Tables.{map_of};
    ghost use Rattle.sd_core.specs.Keys.{instance_cmp};
    ghost use Rattle.sd_core.specs.OfferTables.{OfferTable, offers_of, coded_offers};

    ghost Value = { OfferTable };

    ghost coded = { coded_offers };

    ghost view = { λ o. offers_of (map_of instance_cmp o.offerings) };
}

impl Offers {
    /// No instance. It takes no memory.
    pub fn new(alloc: Global) -> Offers
        ensures { result ≡ record { versions = finite.empty; up = finite.empty } }
    {
        Offers {
            alloc,
            offerings: TimedMap::new(alloc),
        }
    }

    /// Adds an instance, which is down until the next start. Running out of memory leaves the instances
    /// as they were, and comes only for a new one.
    pub fn add(&mut self, instance: InstanceId, version: Version) -> Result<(), AllocError>
        ensures ok { OnOk result (self.new ≡ record {
          versions = finite.insert self.old.versions instance version;
          up = finite.remove self.old.up instance;
        }) }
        ensures err { OnErr result (self.new ≡ self.old) }
        ensures grows { OnErr result (finite.get self.old.versions instance ≡ None) }
    {
        let offering = Offering {
            version,
            sending: None,
        };
        self.offerings.insert(instance, offering)
    }

    /// Starts every instance, as if none had sent an Offer: the first goes out at this many
    /// milliseconds of the node's clock. It takes no memory.
    pub fn start(&mut self, delay: u32)
        ensures { self.new ≡ started delay self.old }
    {
        start_all(&mut self.offerings, Sending::first_at(delay));
    }

    /// The instances that send an Offer now, by rising instance: each that is up and due sends one,
    /// however late it is, and the next is due a delay after this moment (SOME/IP Service Discovery
    /// Protocol, "Repetition Phase", "Main Phase"). Running out of memory leaves all as it was, and comes
    /// only where an Offer is due.
    pub fn tick(&mut self, now: Moment, phases: Phases) -> Result<Vec<InstanceId>, AllocError>
        ensures due { IfOk result (λ due. due.items ≡ finite.keys (due_at now self.old.up)) }
        ensures after { OnOk result (self.new ≡ after_tick phases now self.old) }
        ensures err { OnErr result (self.new ≡ self.old) }
        ensures grows { OnErr result (due_at now self.old.up ≢ finite.empty) }
    {
        let due = self.offerings.due_keys(self.alloc, now)?;
        self.offerings
            .change_those(&due, |_, offering| offering.after_sending(phases, now));
        Ok(due)
    }

    /// When the next Offer is due, in milliseconds since the node's start: at the first moment at which
    /// [`Offers::tick`] answers an instance, if there is one.
    pub fn next_due(&self) -> Option<u64>
        ensures { HoldsFrom result (λ now. due_at now self.now.up ≢ finite.empty) }
    {
        self.offerings.first_due()
    }

    /// The instances that answer a Find, by rising instance: those that it asks for, that are up and
    /// have sent their first Offer (SOME/IP Service Discovery Protocol, "Find Service entry"). It takes
    /// memory only where there are any.
    pub fn find(&self, sought: Sought) -> Result<Vec<InstanceId>, AllocError>
        ensures found { IfOk result (λ found. found.items ≡ finite.keys (answering sought self.now)) }
        ensures grows { OnErr result (answering sought self.now ≢ finite.empty) }
    {
        keys_where(self.offerings.held(), self.alloc, |instance, offering| {
            sought.fits(instance, &offering.version) && has_sent(&offering.sending)
        })
    }

    /// Takes an instance down until the next start, and says whether it was up. It takes no memory.
    pub fn stop(&mut self, instance: InstanceId) -> bool
        ensures was_up { result ≡ is_some (finite.get self.old.up instance) }
        ensures down { self.new ≡ without instance self.old }
    {
        take_down(&mut self.offerings, instance)
    }

    /// Whether an instance is up.
    pub fn is_up(&self, instance: InstanceId) -> bool
        ensures { result ≡ is_some (finite.get self.now.up instance) }
    {
        match self.offerings.get(&instance) {
            Some(offering) => offering.sending.is_some(),
            None => false,
        }
    }
}

/// Gives every instance this next Offer.
fn start_all(offerings: &mut TimedMap<InstanceId, Offering>, first: Sending)
    ensures { offers_of (map_of instance_cmp offerings.new)
        ≡ started_at first (offers_of (map_of instance_cmp offerings.old)) }
{
    offerings.change_all(|_, offering| Offering {
        version: offering.version,
        sending: Some(first),
    });
}

fn has_sent(sending: &Option<Sending>) -> bool
    ensures { result ≡ option_map_or has_sent sending.now false }
{
    match sending {
        Some(sending) => 0 < sending.sent,
        None => false,
    }
}

/// Takes an instance down, if there is such an instance, and says whether it was up.
fn take_down(offerings: &mut TimedMap<InstanceId, Offering>, instance: InstanceId) -> bool
    ensures was_up { result
        ≡ is_some (finite.get (offers_of (map_of instance_cmp offerings.old)).up instance) }
    ensures down { offers_of (map_of instance_cmp offerings.new)
        ≡ without instance (offers_of (map_of instance_cmp offerings.old)) }
{
    let Some(offering) = offerings.get(&instance).copied() else {
        return false;
    };
    let down = Offering {
        version: offering.version,
        sending: None,
    };
    offerings.replace(instance, down);
    offering.sending.is_some()
}
