//! What a node keeps for Service Discovery (SOME/IP Service Discovery Protocol, "Startup behavior",
//! "Publish/Subscribe"): the offers that it makes, the services that it seeks, and subscriptions at
//! both ends. Each type is a table that contracts see as a map.
//!
//! - [`Offers`]: the instances that a node offers, and when each sends its next Offer; [`Version`]: what
//!   they are versions of; [`Sought`]: what a Find asks for;
//! - [`Seeker`]: the instances that a node wants, what it knows of each, and when each that is still
//!   searched for sends its next Find; [`ReceivedOffer`] is what it learns from;
//! - [`Subscriptions`]: the eventgroups that a client wished, and how far each [`Wish`] is;
//! - [`laws`]: what the definitions behind the contracts promise, and at which moments Offers and
//!   Finds go out.
//!
//! Beside these tables:
//!
//! - [`InstanceId`], what tells instances apart; [`Eventgroup`], an eventgroup of an instance; [`Phases`],
//!   the delays between the Offers, or Finds, of an instance; [`Sending`], when its next goes out;
//! - [`Wish`], what is kept of an eventgroup that was wished, with [`Stage`] and [`Beginning`]; what goes
//!   out and comes back: [`OutgoingSubscribe`], [`SubscribeAnswer`], [`Acked`];
//! - [`Subscribers`], the subscriptions that a server accepted; [`Subscription`] is what tells them apart,
//!   [`Subscribe`] what a client asks for, [`SubscribeRules`] what the server knows of that, and
//!   [`SubscribeError`] with its [`Cause`] why it is not accepted.
//!
//! How it keeps what it keeps. `Offers` and `Seeker` have a `TimedMap` of the configured instances. An
//! instance is added once and stays, so a start takes no memory, nor does an Offer that comes in. Each waits
//! for one moment: that of its next Offer, or the first of its next Find and the end of its known offer. So a
//! tick looks at what is due alone. Contracts see a map for each part: the instances that are up and when
//! each sends; what is `wanted`, `known` and searched for (`finding`). `want` is one wanted instance, and
//! judges an Offer.
//!
//! `Subscriptions` has each eventgroup that was ever wished in this life, since its counter goes on, in a
//! `TimedMap`: a wish waits for the end of its Ack's time. The wishes of one instance stand together, so an
//! Offer and a StopOffer look at these alone. How far a wish is, is one enum (`Stage`), so no subscription is
//! begun without a wish. `wish_table` is the table, `ending` why subscriptions end. The laws of moments say
//! when Offers and Finds go out if a tick comes at each millisecond.
//!
//! `Subscribers` is a `DeadlineMap` under instance, eventgroup, peer, endpoint and counter, in this order: the
//! subscriptions of an eventgroup stand together, and a Subscribe or an event looks at these alone. Those of
//! a peer stand together among them, so a reboot finds them from eventgroup to eventgroup. `subscribe` is
//! handed what the offers and the setup know: whether the instance is up, its major version, whether it has
//! the eventgroup, and how many subscriptions that may have. `live` answers the endpoints that an event goes
//! to, as a sorted set.
#![tactic(auto)]

mod among;
mod chosen;
mod ending;
mod error;
mod eventgroup;
mod keys;
pub mod laws;
mod offers;
mod phases;
mod received;
mod seeker;
mod sending;
mod subscribe;
mod subscriber_table;
mod subscribers;
mod subscription;
mod subscriptions;
mod version;
mod want;
mod wish;
mod wish_table;

pub use error::{Cause, SubscribeError};
pub use eventgroup::Eventgroup;
pub use keys::InstanceId;
pub use offers::Offers;
pub use phases::Phases;
pub use received::{Counted, KnownOffer, ReceivedOffer, Uncounted};
pub use seeker::{Seeker, Ticked};
pub use sending::Sending;
pub use subscribe::{Subscribe, SubscribeRules};
pub use subscribers::Subscribers;
pub use subscription::Subscription;
pub use subscriptions::Subscriptions;
pub use version::{Sought, Version};
pub use wish::{Acked, Beginning, OutgoingSubscribe, Stage, SubscribeAnswer, Wish};
