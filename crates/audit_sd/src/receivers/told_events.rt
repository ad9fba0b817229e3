//! The events that were told.
ghost use Rattle.std.specs.Prelude.{◌≡◌, OnErr, OnOk, is_some};
ghost use Rattle.std.specs.FinMap as finite;
ghost use Rattle.audit_sd.specs.receivers.ReceiverTables.{untold};

use crate::receivers::delivery::Delivery;
use crate::receivers::event_end::EventEnd;
use crate::receivers::steps::goes_by;
use crate::receivers::untelling::{Noted, put_at, untell_at};
use crate::subscriptions::SubscriptionKey;
use audit_index::Index;
use someip_tables::hashed::DueTable;
use std::alloc::{AllocError, Global};
use std::marker::Model;
use std::net::SocketAddrV4;

/// The events that were told. They are found by where they went, so that a Subscribe looks at its own alone. Where
/// memory for this was refused, all are looked at from then on.
#[derive(Drop)]
pub(crate) struct ToldEvents {
    held: DueTable<Delivery, Noted>,
    ends: Index<EventEnd, Delivery>,
    is_whole: bool,
}

impl Model for ToldEvents {
    ghost use Rattle.std.specs.Prelude.{◌≡◌, true};
    ghost use Rattle.std.specs.FinMap as finite;
    ghost use base.Stored.{coded_unit};
    ghost use Rattle.someip_tables.specs.Tables.{map_of};
    ghost use Rattle.audit_index.specs.Places.{AreAt};
    ghost use Rattle.audit_index.specs.Slots.{stands};
    ghost use Rattle.audit_sd.specs.receivers.DeliveryKeys.{coded_delivery, delivery_cmp};
    ghost use Rattle.audit_sd.specs.receivers.NotedEvents.{is_noted, told_in};
    ghost use Rattle.audit_sd.specs.receivers.ReceiverPlaces.{end_cmp, end_of};
    ghost use Rattle.audit_sd.specs.receivers.ReceiverTables.{Told};

    ghost Value = { Told };

    ghost coded = { finite.code coded_delivery coded_unit };

    ghost view = { λ t. told_in (map_of delivery_cmp t.held) };

    ghost invariant = { λ t. t.is_whole ≡ true
        → AreAt (λ delivery _. end_of delivery) is_noted (stands end_cmp delivery_cmp t.ends) (map_of delivery_cmp t.held) };
}

impl ToldEvents {
    /// None. It takes no memory.
    pub(crate) fn new(alloc: Global) -> ToldEvents
        ensures { result ≡ finite.empty }
    {
        ToldEvents {
            held: DueTable::new(alloc),
            ends: Index::new(alloc),
            is_whole: true,
        }
    }

    /// How many there are.
    pub(crate) fn len(&self) -> usize
        ensures { result ≡ finite.len self.now }
    {
        self.held.len()
    }

    /// Whether an event was told.
    pub(crate) fn contains(&self, delivery: &Delivery) -> bool
        ensures { result ≡ is_some (finite.get self.now delivery.now) }
    {
        match self.held.get(delivery) {
            Some(_) => true,
            None => false,
        }
    }

    /// Takes note that an event was told.
    pub(crate) fn insert(&mut self, delivery: Delivery) -> Result<(), AllocError>
        ensures ok { OnOk result (self.new ≡ finite.insert self.old delivery tt) }
        ensures err { OnErr result (self.new ≡ self.old) }
    {
        self.held.insert(delivery, Noted)?;
        if !put_at(&mut self.ends, &delivery) {
            self.is_whole = false;
        }
        Ok(())
    }

    /// What was told of events that may go by a subscription with this endpoint is told again, should it end.
    pub(crate) fn untell(&mut self, key: &SubscriptionKey, endpoint: SocketAddrV4)
        ensures { self.new ≡ untold key.now endpoint self.old }
    {
        let key = *key;
        if !self.is_whole {
            self.held
                .retain(|delivery, _| !goes_by(delivery, &key, endpoint));
            return;
        }
        untell_at(&mut self.held, &mut self.ends, EventEnd::at(&key, endpoint));
    }
}
