//! What a recording shows of offers and subscriptions, datagram by datagram.
ghost use Rattle.std.specs.Prelude.{◌≡◌, ◌++◌, [], OnOk};
ghost use Rattle.someip_services.specs.Services.{Ends, IsNextBy, Passes, Takes, due_by, expired_taken, nothing_known, open_told};

use crate::messages::{append_offers, append_subscriptions};
use crate::told::Told;
use audit_sd::sessions::SessionBook;
use audit_services::{Ended, Intervals, NoTerms, OfferTerms, Offered, Place, Subscribed};
use someip_tables::hashed::Origin;
use someip_tables::{Moment, earlier};
use someip_wire::Messages;
use std::alloc::{AllocError, Global};
use std::marker::Model;
use std::net::Ipv4Addr;

/// The settings of a history.
#[derive(Clone, Copy, Debug, PartialEq, Eq)]
pub struct HistoryRules {
    /// How many offers are held at most, how many subscriptions, and the sessions of how many pairs of addresses.
    pub limit: usize,
    /// How many milliseconds after a message one may come that it overtook: from 0 to 60000.
    pub overtake_ms: u32,
}

/// What a recording shows of offers and subscriptions so far, and what was told last.
#[derive(Drop)]
pub struct ServiceHistory {
    pub(crate) sessions: SessionBook,
    pub(crate) offers: Intervals<Ipv4Addr, Offered, OfferTerms>,
    pub(crate) subscriptions: Intervals<Place, Subscribed, NoTerms>,
    pub(crate) told: Vec<Told>,
    /// Room for what ends at once.
    pub(crate) ended_offers: Vec<Ended<Offered, OfferTerms>>,
    pub(crate) ended_subscriptions: Vec<Ended<Subscribed, NoTerms>>,
}

impl Model for ServiceHistory {
    ghost use Rattle.audit_services.specs.Books.{book_of};
    ghost use Rattle.audit_services.specs.OfferedKeys.{offered_cmp};
    ghost use Rattle.audit_services.specs.SubscribedKeys.{subscribed_cmp};
    ghost use Rattle.someip_services.specs.Codes.{coded_work};
    ghost use Rattle.someip_services.specs.Services.{Work};

    ghost Value = { Work };

    ghost coded = { coded_work };

    ghost view = { λ h. record {
      known = record {
        sessions = h.sessions;
        offers = book_of offered_cmp h.offers;
        subscriptions = book_of subscribed_cmp h.subscriptions;
      };
      told = h.told.items;
    } };
}

impl ServiceHistory {
    /// Before the first datagram. It takes no memory.
    pub fn new(alloc: Global, rules: HistoryRules) -> ServiceHistory
        ensures { result ≡ record { known = nothing_known rules.limit rules.overtake_ms; told = [] } }
    {
        ServiceHistory {
            sessions: SessionBook::new(alloc, rules.limit, rules.overtake_ms),
            offers: Intervals::new(alloc, rules.limit),
            subscriptions: Intervals::new(alloc, rules.limit),
            told: Vec::new(alloc),
            ended_offers: Vec::new(alloc),
            ended_subscriptions: Vec::new(alloc),
        }
    }

    /// What was told of the last datagram, or of the end.
    pub fn told(&self) -> &[Told]
        ensures { result.now ≡ self.now.told }
    {
        self.told.as_slice()
    }

    /// Takes the next datagram. What ended by its moment is told, each at its deadline, and then what its messages of
    /// Service Discovery end. Where memory runs out, nothing is promised.
    pub fn saw(
        &mut self,
        alloc: Global,
        now: Moment,
        origin: &Origin,
        datagram: &[u8],
    ) -> Result<(), AllocError>
        ensures { OnOk result (Takes (record { now = now; origin = origin.now; bytes = datagram.now })
            self.old.known self.new.told self.new.known) }
    {
        self.pass(alloc, now)?;
        for item in Messages::new(datagram) {
            self.take_item(alloc, now, origin, &item)?;
        }
        Ok(())
    }

    /// Ends a recording at its last moment. What ended by then is told, and then what still stands, by rising key.
    /// Where memory runs out, nothing is promised.
    pub fn end(&mut self, alloc: Global, last: Moment) -> Result<(), AllocError>
        ensures { OnOk result (Ends last self.old.known self.new.told) }
    {
        self.pass(alloc, last)?;
        self.tell_open(last)
    }

    /// All that has expired by a moment ends, each at its deadline. What was told before is told no more.
    fn pass(&mut self, alloc: Global, now: Moment) -> Result<(), AllocError>
        ensures { OnOk result (Passes now self.old.known self.new) }
    {
        self.told.clear();
        while let Some(at) = self.next_end(now) {
            self.expire(alloc, at)?;
        }
        Ok(())
    }

    /// The first deadline, if it has come.
    fn next_end(&self, now: Moment) -> Option<Moment>
        ensures { IsNextBy now self.now.known result }
    {
        let next = earlier(self.offers.next_due(), self.subscriptions.next_due());
        due_by(now, next)
    }

    /// What has expired by a moment ends then.
    fn expire(&mut self, alloc: Global, at: Moment) -> Result<(), AllocError>
        ensures { OnOk result (self.new ≡ expired_taken at self.old) }
    {
        self.ended_offers.clear();
        self.ended_subscriptions.clear();
        self.offers.expire(alloc, at, &mut self.ended_offers)?;
        self.subscriptions
            .expire(alloc, at, &mut self.ended_subscriptions)?;
        append_offers(&mut self.told, &self.ended_offers)?;
        append_subscriptions(&mut self.told, &self.ended_subscriptions)
    }

    /// Tells what still stands.
    fn tell_open(&mut self, last: Moment) -> Result<(), AllocError>
        ensures { OnOk result (self.new.told ≡ self.old.told ++ open_told last self.old.known) }
    {
        self.ended_offers.clear();
        self.ended_subscriptions.clear();
        self.offers.tell_open(last, &mut self.ended_offers)?;
        self.subscriptions
            .tell_open(last, &mut self.ended_subscriptions)?;
        append_offers(&mut self.told, &self.ended_offers)?;
        append_subscriptions(&mut self.told, &self.ended_subscriptions)
    }
}

/// A moment in milliseconds, if it has come.
fn due_by(now: Moment, next: Option<u64>) -> Option<Moment>
    ensures { result ≡ due_by now next }
{
    match next {
        Some(at) if at <= now.as_millis() => Moment::new(at),
        _ => None,
    }
}
