//! The newest exchange of each key.
ghost use Rattle.std.specs.Prelude.{◌≡◌, OnOk};
ghost use Rattle.someip_world_verdict.specs.Books.{none_taken, taken_at, taken_with};
ghost use Rattle.someip_world_verdict.specs.Views.{view_taken};

use someip_tables::{put_value, value_at};
use someip_world_rules::exchanges::{
    CallExchange, EventExchange, ExchangeKey, SubscriptionExchange,
};
use std::alloc::{AllocError, Global};
use std::collections::BTreeMap;

/// The step that opened the newest exchange of each key.
#[derive(Drop)]
pub(crate) struct Taken {
    calls: BTreeMap<CallExchange, usize>,
    events: BTreeMap<EventExchange, usize>,
    subscriptions: BTreeMap<SubscriptionExchange, usize>,
}

impl Taken {
    /// No key is taken.
    pub(crate) fn new(alloc: Global) -> Taken
        ensures { view_taken result ≡ none_taken }
    {
        Taken {
            calls: BTreeMap::new(alloc),
            events: BTreeMap::new(alloc),
            subscriptions: BTreeMap::new(alloc),
        }
    }

    /// The step that took a key last.
    pub(crate) fn at(&self, key: ExchangeKey) -> Option<usize>
        ensures { result ≡ taken_at (view_taken self.now) key }
    {
        match key {
            ExchangeKey::Call(call) => value_at(&self.calls, call),
            ExchangeKey::Event(event) => value_at(&self.events, event),
            ExchangeKey::Subscription(subscription) => value_at(&self.subscriptions, subscription),
        }
    }

    /// A step takes a key.
    pub(crate) fn take(&mut self, key: ExchangeKey, step: usize) -> Result<(), AllocError>
        ensures { OnOk result (view_taken self.new ≡ taken_with key step (view_taken self.old)) }
    {
        match key {
            ExchangeKey::Call(call) => put_value(&mut self.calls, call, step),
            ExchangeKey::Event(event) => put_value(&mut self.events, event, step),
            ExchangeKey::Subscription(subscription) => {
                put_value(&mut self.subscriptions, subscription, step)
            }
        }
    }
}
