//! The words of a line that are IDs and endpoints.
ghost use Rattle.std.specs.Prelude.{◌≡◌, ◌<◌, Some, None, MatchOption};
ghost use Rattle.someip_world_schedule.specs.StepWords.{cut_in, id_in, method_in};
ghost use Rattle.someip_world_schedule.specs.StepWords.{byte_in, code_in, instance_in, eventgroup_in, address_in};
ghost use Rattle.someip_world_schedule.specs.StepWords.{endpoint_in};
ghost use Rattle.someip_world_schedule.specs.declared.step_words.WordFault.TheVariants.{OutOfMemory};

use crate::step_method::MethodId;
use sd_core::{Eventgroup, InstanceId};
use someip_texts::{plain_u8, plain_u16};
use someip_wire::ReturnCode;
use std::alloc::AllocError;
use std::net::{Ipv4Addr, SocketAddrV4};

/// Why words were not read.
#[derive(Clone, Copy)]
pub enum WordFault {
    /// They stand for nothing.
    Bad,
    /// The allocator gave no memory.
    OutOfMemory,
}

impl From<AllocError> for WordFault {
    ghost from_gives = { λ _ e. e ≡ OutOfMemory };

    fn from(_error: AllocError) -> WordFault {
        WordFault::OutOfMemory
    }
}

/// What stands before the first separator of a word, and after it.
pub fn cut<'t>(word: &'t str, separator: char) -> Option<(&'t str, &'t str)>
    requires { separator < 128 }
    ensures { MatchOption result (cut_in separator word.now ≡ None)
        (λ parts. cut_in separator word.now ≡ Some (parts.0.now, parts.1.now)) }
{
    word.split_once(separator)
}

/// An ID: four hex digits.
pub fn id(word: &str) -> Option<u16>
    ensures { result ≡ id_in word.now }
{
    let mut bytes = [0u8; 2];
    match hex::decode_to_slice(word, &mut bytes) {
        Ok(()) => Some(u16::from_be_bytes(bytes)),
        Err(_) => None,
    }
}

/// A Method ID.
pub fn method(word: &str) -> Option<MethodId>
    ensures { result ≡ method_in word.now }
{
    MethodId::new(id(word)?)
}

/// A byte: two hex digits.
pub fn byte(word: &str) -> Option<u8>
    ensures { result ≡ byte_in word.now }
{
    let mut bytes = [0u8; 1];
    match hex::decode_to_slice(word, &mut bytes) {
        Ok(()) => Some(bytes[0]),
        Err(_) => None,
    }
}

/// A Return Code.
pub fn code(word: &str) -> Option<ReturnCode>
    ensures { result ≡ code_in word.now }
{
    Some(ReturnCode(byte(word)?))
}

/// SERVICE.INSTANCE.
pub fn instance(word: &str) -> Option<InstanceId>
    ensures { result ≡ instance_in word.now }
{
    let (service, instance) = cut(word, '.')?;
    Some(InstanceId {
        service: id(service)?,
        instance: id(instance)?,
    })
}

/// SERVICE.INSTANCE and the ID of an eventgroup.
pub fn eventgroup(word: &str, group: &str) -> Option<Eventgroup>
    ensures { result ≡ eventgroup_in word.now group.now }
{
    Some(Eventgroup {
        instance: instance(word)?,
        id: id(group)?,
    })
}

/// The address A.B.C.D.
fn address(word: &str) -> Option<Ipv4Addr>
    ensures { MatchOption result (address_in word.now ≡ None)
        (λ address. address_in word.now ≡ Some address.octets) }
{
    let (a, word) = cut(word, '.')?;
    let (b, word) = cut(word, '.')?;
    let (c, d) = cut(word, '.')?;
    Some(Ipv4Addr::new(plain_u8(a)?, plain_u8(b)?, plain_u8(c)?, plain_u8(d)?))
}

/// The endpoint A.B.C.D:PORT.
pub fn endpoint(word: &str) -> Option<SocketAddrV4>
    ensures { result ≡ endpoint_in word.now }
{
    let (ip, digits) = cut(word, ':')?;
    Some(SocketAddrV4::new(address(ip)?, plain_u16(digits)?))
}
