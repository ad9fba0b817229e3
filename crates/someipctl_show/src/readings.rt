//! What the Service Discovery messages of a capture hold, read before anything is written.
//!
//! What was read is one list for the whole capture, and the printing takes from its front what the next
//! message holds. A list for each datagram would need no such order, but costs 40 bytes a datagram.
ghost use Rattle.std.specs.Prelude.{◌≡◌, ◌++◌, ◌∷◌, [], OnOk, IfOk, is_some, map, option_map};
ghost use Rattle.std.specs.Option.{option_to_list};
ghost use Rattle.someip_wire.specs.View.{view_item};
ghost use Rattle.someip_wire.specs.Reading.{items_of};
ghost use Rattle.sd_wire.specs.decoding.Program.{reading};
ghost use Rattle.someipctl_io.specs.Discovery.{discovery_in, view_found, view_reading};
ghost use Rattle.someipctl_show.specs.Readings.{BeginWith, readings_in, readings_of};

use sd_wire::{SdError, SdRead, read_sd};
use someip_wire::{Message, Messages, WireError};
use std::alloc::{AllocError, Global};

/// What the payloads of the Service Discovery messages of these datagrams hold, in order. The only
/// error is that memory ran out.
pub fn read_ahead(
    alloc: Global,
    datagrams: &[Vec<u8>],
) -> Result<Vec<Result<SdRead, SdError>>, AllocError>
    ensures ok { IfOk result (λ readings.
        map view_reading readings.items ≡ readings_of (map (λ d. d.items) datagrams.now)) }
{
    let mut readings = Vec::new(alloc);
    for datagram in datagrams {
        read_datagram(alloc, datagram, &mut readings)?;
    }
    Ok(readings)
}

/// The same of one datagram, after what is there already.
pub fn read_datagram(
    alloc: Global,
    datagram: &[u8],
    readings: &mut Vec<Result<SdRead, SdError>>,
) -> Result<(), AllocError>
    ensures ok { OnOk result (map view_reading readings.new.items
        ≡ map view_reading readings.old.items ++ readings_in (items_of datagram.now)) }
{
    for item in Messages::new(datagram) {
        read_item(alloc, &item, readings)?;
    }
    Ok(())
}

/// Puts what an item holds for Service Discovery after what is there, where it is such a message.
fn read_item(
    alloc: Global,
    item: &Result<Message<'_>, WireError>,
    readings: &mut Vec<Result<SdRead, SdError>>,
) -> Result<(), AllocError>
    ensures ok { OnOk result (map view_reading readings.new.items
        ≡ map view_reading readings.old.items ++ option_to_list (discovery_in (view_item item.now))) }
{
    let Some(reading) = reading_of(alloc, item)? else {
        return Ok(());
    };
    keep(readings, reading)
}

/// What an item holds for Service Discovery, where it is such a message. The only error is that memory
/// ran out.
pub fn reading_of(
    alloc: Global,
    item: &Result<Message<'_>, WireError>,
) -> Result<Option<Result<SdRead, SdError>>, AllocError>
    ensures { IfOk result (λ found. option_map view_reading found ≡ discovery_in (view_item item.now)) }
{
    match item {
        Ok(message) => {
            if !message.header.is_discovery() {
                return Ok(None);
            }
            let reading = read_payload(alloc, message.payload)?;
            Ok(Some(reading))
        }
        Err(_) => Ok(None),
    }
}

fn read_payload(alloc: Global, payload: &[u8]) -> Result<Result<SdRead, SdError>, AllocError>
    ensures ok { IfOk result (λ found. view_reading found ≡ reading payload.now) }
{
    match read_sd(alloc, payload) {
        Err(SdError::OutOfMemory) => Err(AllocError),
        found => Ok(found),
    }
}

fn keep(
    readings: &mut Vec<Result<SdRead, SdError>>,
    reading: Result<SdRead, SdError>,
) -> Result<(), AllocError>
    ensures ok { OnOk result (readings.new.items ≡ readings.old.items ++ reading ∷ []) }
{
    readings.push(reading)?;
    Ok(())
}

/// What an item holds for Service Discovery, where it is such a message: then it is the first of the
/// readings that are left, and is taken from them.
pub fn next_reading<'r>(
    item: &Result<Message<'_>, WireError>,
    left: &mut &'r [Result<SdRead, SdError>],
) -> Option<&'r Result<SdRead, SdError>>
    requires { BeginWith (map view_reading left.old.now)
        (option_to_list (discovery_in (view_item item.now))) }
    ensures found { view_found result ≡ discovery_in (view_item item.now) }
    ensures left { map view_reading left.old.now
        ≡ option_to_list (view_found result) ++ map view_reading left.new.now }
{
    if holds_discovery(item) {
        left.split_off_first()
    } else {
        None
    }
}

fn holds_discovery(item: &Result<Message<'_>, WireError>) -> bool
    ensures { result ≡ is_some (discovery_in (view_item item.now)) }
{
    match item {
        Ok(message) => message.header.is_discovery(),
        Err(_) => false,
    }
}
