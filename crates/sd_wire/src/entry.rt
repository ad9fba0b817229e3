//! Entries (SOME/IP Service Discovery, "Entry Format").
ghost use Rattle.std.specs.Prelude.{◌≡◌, ◌<◌, ◌≤◌, ◌%◌, ◌↔◌, IsTrue, Some, None};
ghost use Rattle.sd_wire.specs.contents.Kinds.{is_find, is_offer, is_stop_offer, is_subscribe, is_stop_subscribe, is_ack, is_nack};
ghost use Rattle.sd_wire.specs.declared.entry.ServiceKind.TheVariants.{Find, Offer};
ghost use Rattle.sd_wire.specs.declared.entry.EventgroupKind.TheVariants.{Subscribe, Ack};

use crate::option::SdOption;
use crate::ttl::Ttl;
use std::marker::Model;

/// Tells beginnings of one subscription apart: a number of four bits.
///
/// Contracts see it as that number.
#[derive(Clone, Copy, Debug, PartialEq, Eq, PartialOrd, Ord)]
pub struct SubscriptionCounter(u8);

impl Model for SubscriptionCounter {
    ghost use Rattle.std.specs.Prelude.{ℕ, ◌<◌};

    ghost Value = { ℕ };

    ghost view = { λ c. c.0 };

    ghost invariant = { λ c. c.0 < 16 };

    ghost inverse = { λ n. record { 0 = n } };
}

impl SubscriptionCounter {
    /// This number, if it fits four bits.
    pub fn new(number: u8) -> Option<SubscriptionCounter>
        ensures some { number < 16 → result ≡ Some number }
        ensures none { 16 ≤ number → result ≡ None }
    {
        if number < 16 {
            Some(SubscriptionCounter(number))
        } else {
            None
        }
    }

    /// The counter in the lowest four bits of a field, whose other bits are reserved.
    pub(crate) fn from_field(number: u16) -> SubscriptionCounter
        ensures { result ≡ number % 16 }
    {
        SubscriptionCounter((number % 16) as u8)
    }

    /// The number.
    pub fn number(self) -> u8
        ensures value { result ≡ self }
        ensures fits { self < 16 }
    {
        self.0
    }
}

/// What a service entry is for.
#[derive(Clone, Copy, Debug, PartialEq, Eq)]
pub enum ServiceKind {
    /// 00: a search for instances.
    Find = 0x00,
    /// 01: an instance is offered, or with TTL 0 no longer.
    Offer = 0x01,
}

/// What an eventgroup entry is for.
#[derive(Clone, Copy, Debug, PartialEq, Eq)]
pub enum EventgroupKind {
    /// 06: a client subscribes, or with TTL 0 no longer.
    Subscribe = 0x06,
    /// 07: a server accepts a subscription, or with TTL 0 refuses it.
    Ack = 0x07,
}

/// An entry about an instance of a service (SOME/IP Service Discovery, "Entry Format").
///
/// ```text
///  0               8               16              24            31
/// +---------------+---------------+---------------+-------+-------+
/// |  00 Find      | index of the  | index of the  | count | count |
/// |  01 Offer     |   first run   |  second run   |  of 1 |  of 2 |
/// +---------------+---------------+---------------+-------+-------+
/// |          Service ID           |          Instance ID          |
/// +---------------+---------------+---------------+---------------+
/// | major version |                TTL in seconds                 |
/// +---------------+---------------+---------------+---------------+
/// |                         minor version                         |
/// +---------------+---------------+---------------+---------------+
/// ```
#[derive(Clone, Copy, Debug, PartialEq, Eq)]
pub struct ServiceEntry {
    /// Find or Offer.
    pub kind: ServiceKind,
    /// Service ID.
    pub service: u16,
    /// Instance ID.
    pub instance: u16,
    /// Major version, the Interface Version of the service's messages.
    pub major: u8,
    /// How long the entry is valid.
    pub ttl: Ttl,
    /// Minor version.
    pub minor: u32,
}

impl ServiceEntry {
    /// In a Find: any instance.
    pub const ANY_INSTANCE: u16 = 0xffff;
    /// In a Find: any major version.
    pub const ANY_MAJOR: u8 = 0xff;
    /// In a Find: any minor version.
    pub const ANY_MINOR: u32 = 0xffff_ffff;

    /// A Find, whatever its TTL is.
    pub fn is_find(&self) -> bool
        ensures means { IsTrue result ↔ (self.now.kind ≡ Find) }
        ensures exact { result ≡ is_find self.now }
    {
        self.kind == ServiceKind::Find
    }

    /// An Offer with a TTL above 0.
    pub fn is_offer(&self) -> bool
        ensures means { IsTrue result ↔ (self.now.kind ≡ Offer) × (0 < self.now.ttl) }
        ensures exact { result ≡ is_offer self.now }
    {
        self.kind == ServiceKind::Offer && !self.ttl.is_zero()
    }

    /// An Offer with TTL 0: the instance is no longer offered.
    pub fn is_stop_offer(&self) -> bool
        ensures means { IsTrue result ↔ (self.now.kind ≡ Offer) × (self.now.ttl ≡ 0) }
        ensures exact { result ≡ is_stop_offer self.now }
    {
        self.kind == ServiceKind::Offer && self.ttl.is_zero()
    }
}

/// An entry about an eventgroup of an instance (SOME/IP Service Discovery, "Entry Format"). Its first 12
/// bytes are as those of a [`ServiceEntry`], with type 06 for Subscribe and 07 for Ack.
///
/// ```text
///  0                      12      16                            31
/// +-----------------------+-------+-------------------------------+
/// |      reserved, 0      |counter|         Eventgroup ID         |
/// +-----------------------+-------+-------------------------------+
/// ```
#[derive(Clone, Copy, Debug, PartialEq, Eq)]
pub struct EventgroupEntry {
    /// Subscribe or Ack.
    pub kind: EventgroupKind,
    /// Service ID.
    pub service: u16,
    /// Instance ID.
    pub instance: u16,
    /// Major version, the Interface Version of the service's messages.
    pub major: u8,
    /// How long the entry is valid.
    pub ttl: Ttl,
    /// Tells the beginnings of one client's subscription apart.
    pub counter: SubscriptionCounter,
    /// Eventgroup ID.
    pub eventgroup: u16,
}

impl EventgroupEntry {
    /// A Subscribe with a TTL above 0.
    pub fn is_subscribe(&self) -> bool
        ensures means { IsTrue result ↔ (self.now.kind ≡ Subscribe) × (0 < self.now.ttl) }
        ensures exact { result ≡ is_subscribe self.now }
    {
        self.kind == EventgroupKind::Subscribe && !self.ttl.is_zero()
    }

    /// A Subscribe with TTL 0: the client no longer subscribes.
    pub fn is_stop_subscribe(&self) -> bool
        ensures means { IsTrue result ↔ (self.now.kind ≡ Subscribe) × (self.now.ttl ≡ 0) }
        ensures exact { result ≡ is_stop_subscribe self.now }
    {
        self.kind == EventgroupKind::Subscribe && self.ttl.is_zero()
    }

    /// An Ack with a TTL above 0: the subscription is accepted.
    pub fn is_ack(&self) -> bool
        ensures means { IsTrue result ↔ (self.now.kind ≡ Ack) × (0 < self.now.ttl) }
        ensures exact { result ≡ is_ack self.now }
    {
        self.kind == EventgroupKind::Ack && !self.ttl.is_zero()
    }

    /// An Ack with TTL 0: the subscription is refused.
    pub fn is_nack(&self) -> bool
        ensures means { IsTrue result ↔ (self.now.kind ≡ Ack) × (self.now.ttl ≡ 0) }
        ensures exact { result ≡ is_nack self.now }
    {
        self.kind == EventgroupKind::Ack && self.ttl.is_zero()
    }
}

/// An entry without its options. The indexes and counts of its runs follow from the options.
#[derive(Clone, Copy, Debug, PartialEq, Eq)]
pub enum EntryHead {
    /// Find or Offer.
    Service(ServiceEntry),
    /// Subscribe or Ack.
    Eventgroup(EventgroupEntry),
}

/// An entry with its options: those of the first run, and then those of the second.
#[derive(Debug, Drop, PartialEq, Eq)]
pub struct Entry {
    /// The entry without its options.
    pub head: EntryHead,
    /// The options of the first run.
    pub run1: Vec<SdOption>,
    /// The options of the second run.
    pub run2: Vec<SdOption>,
}
