//! The services whose datagrams are asked for.
ghost use Rattle.std.specs.Prelude.{◌≡◌, IfOk, Some, Err, map, is_none, true};
ghost use Rattle.std.specs.List.{list_any};
ghost use Rattle.std.specs.Option.{option_map};
ghost use Rattle.someip_wire.specs.Reading.{items_of};
ghost use Rattle.someip_wire.specs.View.{view_item};
ghost use Rattle.someipctl_show.specs.Services.{asks_header, asks_item, asks_method, is_asked_by, id_in, service_in};
ghost use Rattle.someipctl_show.specs.Words.{comma_words};
ghost use Rattle.someipctl_show.specs.declared.services.ServicesError.TheVariants.{OutOfMemory};

use crate::words::comma_words;
use someip_wire::{Header, Message, Messages, WireError};
use std::alloc::{AllocError, AllocFailed, Global};
use thiserror::Error;

/// A service whose datagrams are asked for, or one method or event of it.
#[derive(Clone, Copy, PartialEq, Eq)]
pub struct AskedService {
    /// Service ID.
    pub service: u16,
    /// Method ID, or Event ID. None asks for all of the service.
    pub method: Option<u16>,
}

/// Why a text names no services.
#[derive(Clone, Copy, Debug, PartialEq, Eq, Error)]
pub enum ServicesError {
    /// One of its words is no service.
    #[error("bad services")]
    BadServices,
    /// Memory ran out.
    #[error("out of memory")]
    OutOfMemory,
}

impl From<AllocError> for ServicesError {
    ghost from_gives = { λ _ e. e ≡ OutOfMemory };

    fn from(_e: AllocError) -> ServicesError {
        ServicesError::OutOfMemory
    }
}

impl<T: Drop> From<AllocFailed<T>> for ServicesError {
    ghost from_gives = { λ _ e. e ≡ OutOfMemory };

    fn from(_e: AllocFailed<T>) -> ServicesError {
        ServicesError::OutOfMemory
    }
}

/// The services that a text names: Service IDs of four hex digits, each perhaps with a dot and a Method
/// ID of four hex digits after it, with commas between them and nothing else, as in `1111,2222.8001`.
pub fn services_in(alloc: Global, text: &str) -> Result<Vec<AskedService>, ServicesError>
    ensures ok { IfOk result (λ services.
        map (λ s. Some s) services.items ≡ map service_in (comma_words text.now)) }
    ensures bad { (result ≡ Err ServicesError.BadServices)
        → list_any (λ word. is_none (service_in word)) (comma_words text.now) ≡ true }
{
    let words = comma_words(alloc, text)?;
    read_services(alloc, words.as_slice())
}

/// The services that words name.
fn read_services(alloc: Global, words: &[&str]) -> Result<Vec<AskedService>, ServicesError>
    ensures ok { IfOk result (λ services.
        map (λ s. Some s) services.items ≡ map service_in (map (λ w. w.now) words.now)) }
    ensures bad { (result ≡ Err ServicesError.BadServices)
        → list_any (λ word. is_none (service_in word)) (map (λ w. w.now) words.now) ≡ true }
{
    let mut services = Vec::new(alloc);
    for word in words {
        match service_of(word.as_bytes()) {
            Some(service) => services.push(service)?,
            None => return Err(ServicesError::BadServices),
        }
    }
    Ok(services)
}

/// The service that a word names.
fn service_of(word: &[u8]) -> Option<AskedService>
    ensures { result ≡ service_in word.now }
{
    match word {
        [a, b, c, d] => {
            let service = id_of(&[*a, *b, *c, *d])?;
            Some(AskedService {
                service,
                method: None,
            })
        }
        [a, b, c, d, b'.', e, f, g, h] => {
            let service = id_of(&[*a, *b, *c, *d])?;
            let method = id_of(&[*e, *f, *g, *h])?;
            Some(AskedService {
                service,
                method: Some(method),
            })
        }
        _ => None,
    }
}

/// The ID that four hex digits write.
pub fn id_of(digits: &[u8]) -> Option<u16>
    ensures { result ≡ id_in digits.now }
{
    let mut bytes = [0u8; 2];
    match hex::decode_to_slice(digits, &mut bytes) {
        Ok(()) => Some(u16::from_be_bytes(bytes)),
        Err(_) => None,
    }
}

/// Whether a datagram is asked for: all are where no services are named, and else those of which one
/// message is of one of them.
pub fn is_asked_by(services: Option<&[AskedService]>, datagram: &[u8]) -> bool
    ensures { result ≡ is_asked_by (option_map (λ s. s.now) services.entry) datagram.now }
{
    match services {
        Some(services) => names_message(services, datagram),
        None => true,
    }
}

/// Whether one of a datagram's messages is of one of the services.
fn names_message(services: &[AskedService], datagram: &[u8]) -> bool
    ensures { result ≡ list_any (asks_item services.now) (items_of datagram.now) }
{
    for item in Messages::new(datagram) {
        if asks_item(services, &item) {
            return true;
        }
    }
    false
}

fn asks_item(services: &[AskedService], item: &Result<Message<'_>, WireError>) -> bool
    ensures { result ≡ asks_item services.now (view_item item.now) }
{
    match item {
        Ok(message) => names_header(services, &message.header),
        Err(_) => false,
    }
}

/// Whether a message with this header is of one of the services.
pub fn names_header(services: &[AskedService], header: &Header) -> bool
    ensures { result ≡ list_any (asks_header header.now) services.now }
{
    services.iter().any(|s| asks_header(s, header))
}

fn asks_header(service: &AskedService, header: &Header) -> bool
    ensures { result ≡ asks_header header.now service.now }
{
    service.service == header.service && asks_method(service.method, header.method)
}

fn asks_method(asked: Option<u16>, method: u16) -> bool
    ensures { result ≡ asks_method asked method }
{
    match asked {
        Some(asked) => asked == method,
        None => true,
    }
}
