//! Subscriptions that expire, over the books.
ghost use Rattle.std.specs.Prelude.{◌≡◌, OnErr, OnOk};
ghost use Rattle.someip_audit.specs.Audits.{each_disturbed, each_unwatched, without_passed};

use crate::books::Books;
use audit_sd::subscriptions::SubscriptionKey;
use audit_traffic::cycles::CycleBook;
use audit_traffic::sequence::SequenceBook;
use someip_reassembly::Reassembly;
use someip_tables::Moment;
use std::alloc::{AllocError, Global};
use std::collections::BTreeSet;

impl<S: Reassembly> Books<S> {
    /// Drops the subscriptions that have expired, disturbs the flows of the service of each between its client and its
    /// server, and ends the watches of its events. Memory is taken only where there are any, and what is refused for want of it changes
    /// nothing.
    pub(crate) fn expire(&mut self, alloc: Global, now: Moment) -> Result<(), AllocError>
        ensures ok { OnOk result (self.new ≡ without_passed now self.old) }
        ensures err { OnErr result (self.new ≡ self.old) }
    {
        let ended = self.receivers.expire(alloc, now)?;
        disturb_each(&mut self.events, &ended);
        unwatch_each(&mut self.cycles, &ended);
        Ok(())
    }
}

/// Disturbs the flows of the service of each of these subscriptions between its client and its server.
fn disturb_each(events: &mut SequenceBook, ended: &BTreeSet<SubscriptionKey>)
    ensures { events.new ≡ each_disturbed ended.now.keys events.old }
{
    for key in ended.iter() {
        events.disturb(key.client, key.server, key.service);
    }
}

/// Ends the watches of the events of each of these subscriptions.
fn unwatch_each(cycles: &mut CycleBook, ended: &BTreeSet<SubscriptionKey>)
    ensures { cycles.new ≡ each_unwatched ended.now.keys cycles.old }
{
    for key in ended.iter() {
        cycles.unsubscribed(key.server, key.service, key.client);
    }
}
