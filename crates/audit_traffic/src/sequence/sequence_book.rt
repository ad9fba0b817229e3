//! The last event of each flow, and the sessions that are missing.
ghost use Rattle.std.specs.Prelude.{◌≡◌, ◌≢◌, IfOk, OnErr};
ghost use Rattle.std.specs.FinMap as finite;
ghost use Rattle.someip_tables.specs.Waits.{HoldsFrom, due_by};
ghost use Rattle.audit_traffic.specs.gaps.GapRules.{waits_until};
ghost use Rattle.audit_traffic.specs.gaps.GapTables.{FallsDue};
ghost use Rattle.audit_traffic.specs.sequence.Sequences.{IsLeft, after_change, after_due, after_event, after_withdrawal};
ghost use Rattle.audit_traffic.specs.sequence.Sequences.{gap_of, new_sequence, of_gap, told_behind, told_by, without};

use crate::events::{EventBook, Notification};
use crate::gaps::{Gap, GapBook, LostEvent, MissingEvent};
use crate::sequence::counting::Counting;
use crate::sequence::finding::Finding;
use crate::{events, gaps};
use someip_tables::Moment;
use someip_tables::hashed::Numbers;
use std::alloc::{AllocError, Global};
use std::marker::Model;
use std::net::Ipv4Addr;

/// The settings of a book of sequences.
#[derive(Clone, Copy, Debug, PartialEq, Eq)]
pub struct SequenceRules {
    /// How many flows it holds at most, and how many sessions that are missing.
    pub limit: usize,
    /// How many milliseconds after a later event one may come that was overtaken.
    pub overtake_ms: u32,
    /// Which events a sender counts together.
    pub counting: Counting,
}

/// The last event of each flow, and the sessions that are missing and may still come.
///
/// Whoever goes over a recording calls [`SequenceBook::due`] until it tells nothing, with the moment of each
/// datagram, and then [`SequenceBook::saw`] with its events.
#[derive(Drop)]
pub struct SequenceBook {
    counting: Counting,
    events: EventBook,
    gaps: GapBook,
}

impl Model for SequenceBook {
    ghost use Rattle.audit_traffic.specs.sequence.Sequences.{Sequence, coded_sequence};

    ghost Value = { Sequence };

    ghost coded = { coded_sequence };

    ghost view = { λ b. record {
      counting = b.counting;
      events = b.events;
      gaps = b.gaps;
    } };
}

impl SequenceBook {
    /// A book that saw nothing. It takes no memory.
    pub fn new(alloc: Global, rules: SequenceRules) -> SequenceBook
        ensures { result ≡ new_sequence rules }
    {
        SequenceBook {
            counting: rules.counting,
            events: EventBook::new(alloc, rules.limit),
            gaps: GapBook::new(alloc, rules.limit, rules.overtake_ms),
        }
    }

    /// Takes note of an event of the datagram with these numbers, and says what its session shows.
    ///
    /// One without a session shows nothing. One with the session of the last event of its flow is repeated.
    /// One up to 64 sessions behind that one was overtaken, if its session was missing, and else shows
    /// nothing. Of one that skips sessions, where none of them may have gone to nobody or to another
    /// receiver, these are missing from now on: each by itself, and more than 64 as one run. A session that comes is
    /// missing no more, whoever gets it. Where memory runs out the event may be taken and some of what it
    /// skips may be missing, from the first on; nothing else is changed.
    pub fn saw(
        &mut self,
        now: Moment,
        numbers: Numbers,
        event: Notification,
    ) -> Result<Option<Finding>, AllocError>
        ensures told { IfOk result (λ told. told ≡ told_by numbers event self.old) }
        ensures after { IfOk result (λ told. self.new ≡ after_event now numbers event self.old) }
        ensures err { OnErr result (IsLeft now numbers event self.old self.new) }
    {
        if event.session == 0 {
            return Ok(None);
        }
        let flow = self.counting.flow(&event.flow);
        let seen = Notification {
            flow,
            session: event.session,
        };
        let shown = self.events.saw(seen)?;
        let was_missing = self.gaps.came(&MissingEvent::of(&flow, event.session));
        match shown {
            None => Ok(None),
            Some(events::Finding::Repeated) => Ok(Some(Finding::Repeated)),
            Some(events::Finding::Behind) => Ok(told_behind(was_missing)),
            Some(events::Finding::Full) => Ok(Some(Finding::EventsFull)),
            Some(events::Finding::Gap { session, expected }) => {
                let gap = gap_of(flow, event.flow, numbers, expected, session);
                Ok(of_gap(self.gaps.skipped(now, &gap)?))
            }
        }
    }

    /// Takes note that a subscription of a client to a service at a server began, by a Subscribe or an Ack, or
    /// ended, by a StopSubscribe or a Nack, or because it expired. What the next event of that service, or of
    /// whatever is counted with it, from the server to that client, or to a multicast group, skips is not
    /// missing. It takes no memory.
    pub fn disturb(&mut self, client: Ipv4Addr, server: Ipv4Addr, service: u16)
        ensures { self.new ≡ after_change client server service self.old }
    {
        self.events
            .disturb(client, server, self.counting.service(service));
    }

    /// Takes note that a server withdrew an offer of a service by a StopOffer: what the next event of each
    /// flow of that service skips is not missing. It looks at the source of every flow, and takes no memory.
    pub fn withdraw(&mut self, server: Ipv4Addr, service: u16)
        ensures { self.new ≡ after_withdrawal server service self.old }
    {
        self.events.withdraw(server, self.counting.service(service));
    }

    /// Forgets the flows from an address that began again, and those to it: the next event of each is the first. What
    /// is missing of its own events is so no more. It takes no memory.
    pub fn forget(&mut self, address: Ipv4Addr)
        ensures { self.new ≡ without address self.old }
    {
        self.events.forget(address);
        self.gaps.forget(address);
    }

    /// The session that is lost first, by deadline and then by session, if one is. It is missing no more then.
    /// It takes no memory.
    pub fn due(&mut self, now: Moment) -> Option<LostEvent>
        ensures told { FallsDue now self.old.gaps.waiting result }
        ensures after { self.new ≡ after_due result self.old }
    {
        self.gaps.due(now)
    }

    /// When [`SequenceBook::due`] next tells a session, in milliseconds: the first deadline, if one is missing.
    pub fn next_due(&self) -> Option<u64>
        ensures { HoldsFrom result (λ now. due_by waits_until now self.now.gaps.waiting ≢ finite.empty) }
    {
        self.gaps.next_due()
    }
}

/// What an event behind the last one shows.
fn told_behind(was_missing: bool) -> Option<Finding>
    ensures { result ≡ told_behind was_missing }
{
    if was_missing {
        Some(Finding::Overtaken)
    } else {
        None
    }
}

/// The sessions that an event skips.
fn gap_of(
    flow: events::EventFlow,
    shown_by: events::EventFlow,
    numbers: Numbers,
    first: u16,
    session: u16,
) -> Gap
    ensures { result ≡ gap_of flow shown_by numbers first session }
{
    Gap {
        flow,
        shown_by,
        numbers,
        first,
        session,
    }
}

/// What a gap shows, as an event's finding.
fn of_gap(shown: Option<gaps::Finding>) -> Option<Finding>
    ensures { result ≡ of_gap shown }
{
    match shown {
        None => None,
        Some(gaps::Finding::Full) => Some(Finding::GapsFull),
    }
}
