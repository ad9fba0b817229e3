//! Options (SOME/IP Service Discovery, "Options Format").
//!
//! A raw option shares its bytes with its copies (`Rc`): many runs may name one long option.
//!
//! A definition about one kind of option or message names that kind alone, and `_` stands for all others,
//! so that a new kind changes what is said of it and nothing else. Which option types have a layout, and
//! how long it is, stands once (`layout_len`); that each message type comes back from its number is proved
//! once and cited.
ghost use Rattle.std.specs.Prelude.{◌≡◌, Some, None};
ghost use Rattle.sd_wire.specs.contents.Raw.{RawValue, IsRaw, layout_len};

use crate::endpoint::{Ipv4Endpoint, Ipv6Endpoint};
use std::alloc::AllocError;
use std::marker::Model;
use std::rc::Rc;

/// An option of a type without a layout here, a configuration option among them: its type, and the
/// bytes that its length counts, as they were read. None of them counts as reserved.
///
/// Copies share the bytes, so an option that many runs name is held once.
#[derive(Debug, Drop)]
pub struct RawOption {
    kind: u8,
    bytes: Rc<Vec<u8>>,
}

impl Model for RawOption {
    ghost use Rattle.sd_wire.specs.contents.Raw.{RawValue, IsRaw};

    ghost Value = { RawValue };

    ghost view = { λ o. record { kind = o.kind; bytes = o.bytes.value.items } };

    ghost invariant = { λ o. IsRaw o.kind o.bytes.value.items };
}

impl RawOption {
    /// An option of this type with these bytes. None where the type has a layout, or where there
    /// are no bytes or more than 65535.
    pub fn new(kind: u8, bytes: Rc<Vec<u8>>) -> Option<RawOption>
        ensures some { IsRaw kind bytes.value.items
            → result ≡ Some record { kind = kind; bytes = bytes.value.items } }
        ensures none { (IsRaw kind bytes.value.items → ⊥) → result ≡ None }
    {
        if layout_len(kind).is_some() || bytes.is_empty() || bytes.len() > 0xffff {
            return None;
        }
        Some(RawOption { kind, bytes })
    }

    /// The same, where the type and the bytes are known to fit.
    pub(crate) fn kept(kind: u8, bytes: Rc<Vec<u8>>) -> RawOption
        requires { IsRaw kind bytes.value.items }
        ensures { result ≡ record { kind = kind; bytes = bytes.value.items } }
    {
        RawOption { kind, bytes }
    }

    /// The type.
    pub fn kind(&self) -> u8
        ensures { result ≡ self.now.kind }
    {
        self.kind
    }

    /// The bytes that the length counts: at least one.
    pub fn bytes(&self) -> &[u8]
        ensures value { result.now ≡ self.now.bytes }
        ensures raw { IsRaw self.now.kind self.now.bytes }
    {
        self.bytes.as_slice()
    }
}

impl PartialEq for RawOption {
    ghost use Rattle.std.specs.Cmp.Rules.{comparing};
    ghost use Rattle.std.proofs.Common.{rules};
    ghost use Rattle.sd_wire.specs.contents.Raw.{raw_eq};

    ghost eq = { raw_eq };

    ghost laws = { Prim.search (comparing, rules) };

    fn eq(&self, other: &RawOption) -> bool {
        self.kind == other.kind && self.bytes == other.bytes
    }
}

impl Eq for RawOption {
    ghost use Rattle.std.specs.Cmp.Rules.{comparing};
    ghost use Rattle.std.proofs.Common.{rules};

    ghost laws = { Prim.search (comparing, rules) };
}

impl Clone for RawOption {
    ghost is_clone = { λ o copy. copy ≡ o };

    fn clone(&self) -> Result<RawOption, AllocError> {
        let bytes = self.bytes.clone()?;
        Ok(RawOption {
            kind: self.kind,
            bytes,
        })
    }
}

/// What the Length field of an option of the type holds, where the type has a layout.
pub(crate) fn layout_len(kind: u8) -> Option<usize>
    ensures { result ≡ layout_len kind }
{
    match kind {
        0x02 => Some(5),
        0x04 | 0x14 | 0x24 => Some(9),
        0x06 | 0x16 | 0x26 => Some(21),
        _ => None,
    }
}

/// An option. The byte after the type is reserved, and so is the one after an address: both are
/// ignored on reading and written 0.
///
/// ```text
///  0               8               16              24            31
/// +---------------+---------------+---------------+---------------+
/// |  length: the bytes from here  |     type      |   reserved    |
/// |  on, without the type         |               |               |
/// +---------------+---------------+---------------+---------------+
/// | 04, 14, 24: an IPv4 address; 06, 16, 26: an IPv6 address       |
/// +---------------+---------------+---------------+---------------+
/// |   reserved    |   protocol    |             port              |
/// +---------------+---------------+---------------+---------------+
///
/// 0009 04 00 c0a80001 00 11 772d    the IPv4 endpoint 192.168.0.1:30509 over UDP
/// 0005 02 00 0001 0002              load balancing: priority 1, weight 2
/// 0003 01 00 6162                   a raw option of type 01 with the bytes 006162
/// ```
#[derive(Clone, Debug, Drop, PartialEq, Eq)]
pub enum SdOption {
    /// 02: which instance of a service to take.
    LoadBalancing {
        /// A lower number is taken first.
        priority: u16,
        /// Among those of one priority, a higher number is taken more often.
        weight: u16,
    },
    /// 04: where an instance or a client is reached.
    Endpoint4(Ipv4Endpoint),
    /// 14: where events are sent to a group.
    Multicast4(Ipv4Endpoint),
    /// 24: where the sender's Service Discovery is reached.
    SdEndpoint4(Ipv4Endpoint),
    /// 06: where an instance or a client is reached.
    Endpoint6(Ipv6Endpoint),
    /// 16: where events are sent to a group.
    Multicast6(Ipv6Endpoint),
    /// 26: where the sender's Service Discovery is reached.
    SdEndpoint6(Ipv6Endpoint),
    /// An option of any other type.
    Raw(RawOption),
}
