//! Which datagrams of recordings are asked for.
ghost use Rattle.std.specs.Prelude.{◌≡◌, ◌+◌, ◌*◌, option_map};
ghost use Rattle.std.specs.List.{list_any};
ghost use Rattle.recording.specs.View.{view_datagram};
ghost use Rattle.someip_wire.specs.Reading.{items_of};
ghost use Rattle.someip_wire.specs.View.{view_item};
ghost use Rattle.someipctl_recordings.specs.Wanted.{address_of, all_wanted, asks_message, asks_messages, asks_services, is_at_address};
ghost use Rattle.someipctl_recordings.specs.Wanted.{is_at_port, is_client, is_in_span, is_wanted, nanoseconds_of};
ghost use Rattle.someipctl_recordings.specs.Wanted.{view_wanted};

use recording::{Datagram, Endpoint, Time};
use recording_packets::ChosenPackets;
use someip_wire::{Header, Message, Messages, WireError};
use someipctl_show::services::{AskedService, names_header};

/// What of recordings is asked for: which packets are looked at, and which of their datagrams are told.
#[derive(Clone, Copy)]
pub struct Wanted<'a> {
    /// Which packets are looked at.
    pub packets: ChosenPackets<'a>,
    /// Whether only datagrams from or to port 30490, one of the ports, or an endpoint that an Offer or a
    /// Subscribe named before are asked for.
    pub learned: bool,
    /// Only datagrams from or to one of these ports. None asks for all.
    pub ports: Option<&'a [u16]>,
    /// Only datagrams from or to one of these addresses, each as a number whose highest byte stands first.
    /// None asks for all.
    pub addresses: Option<&'a [u32]>,
    /// Only datagrams with a message of one of these services. None asks for all.
    pub services: Option<&'a [AskedService]>,
    /// Only datagrams with a message of this Client ID; where services are named, with one of both.
    pub client: Option<u16>,
    /// Only datagrams that were recorded at this time or after it. None asks for all.
    pub from: Option<Time>,
    /// Only datagrams that were recorded before this time. None asks for all.
    pub until: Option<Time>,
}

impl<'a> Wanted<'a> {
    /// All datagrams are asked for.
    pub fn all() -> Wanted<'a>
        ensures { view_wanted result ≡ all_wanted }
    {
        Wanted {
            packets: ChosenPackets::all(),
            learned: false,
            ports: None,
            addresses: None,
            services: None,
            client: None,
            from: None,
            until: None,
        }
    }

    /// Whether a datagram is asked for. One without a time is asked for only where no time is named.
    pub fn wants(&self, datagram: &Datagram<'_>) -> bool
        ensures { result ≡ is_wanted (view_wanted self.now) (view_datagram datagram.now) }
    {
        (self.learned || is_at_port(self.ports, datagram))
            && is_at_address(self.addresses, datagram)
            && is_in_span(self.from, self.until, datagram.time)
            && asks_messages(self.services, self.client, datagram.payload)
    }
}

fn is_at_port(ports: Option<&[u16]>, datagram: &Datagram<'_>) -> bool
    ensures { result ≡ is_at_port (option_map (λ p. p.now) ports.entry) (view_datagram datagram.now) }
{
    match ports {
        Some(ports) => ports.contains(&datagram.from.port) || ports.contains(&datagram.to.port),
        None => true,
    }
}

fn is_at_address(addresses: Option<&[u32]>, datagram: &Datagram<'_>) -> bool
    ensures { result ≡ is_at_address (option_map (λ a. a.now) addresses.entry) (view_datagram datagram.now) }
{
    match addresses {
        Some(addresses) => {
            addresses.contains(&address_of(datagram.from))
                || addresses.contains(&address_of(datagram.to))
        }
        None => true,
    }
}

/// The address of an endpoint as a number, whose highest byte stands first.
fn address_of(endpoint: Endpoint) -> u32
    ensures { result ≡ address_of endpoint }
{
    u32::from_be_bytes(endpoint.ip)
}

/// Whether a time is not before one and before another, where they are named.
pub fn is_in_span(from: Option<Time>, until: Option<Time>, time: Option<Time>) -> bool
    ensures { result ≡ is_in_span from until time }
{
    if from.is_none() && until.is_none() {
        return true;
    }
    let Some(time) = time else {
        return false;
    };
    let at = nanoseconds_of(time);
    let is_late = match from {
        Some(from) => nanoseconds_of(from) <= at,
        None => true,
    };
    let is_early = match until {
        Some(until) => at < nanoseconds_of(until),
        None => true,
    };
    is_late && is_early
}

/// The nanoseconds since 1970.
fn nanoseconds_of(time: Time) -> u128
    ensures { result ≡ nanoseconds_of time }
{
    u128::from(time.seconds) * 1_000_000_000 + u128::from(time.nanoseconds)
}

/// Whether a datagram with these bytes is asked for by its messages: all are where neither services nor a
/// client are named.
fn asks_messages(services: Option<&[AskedService]>, client: Option<u16>, datagram: &[u8]) -> bool
    ensures { result ≡ asks_messages (option_map (λ s. s.now) services.entry) client datagram.now }
{
    if services.is_none() && client.is_none() {
        return true;
    }
    names_message(services, client, datagram)
}

/// Whether one of a datagram's messages is asked for.
fn names_message(services: Option<&[AskedService]>, client: Option<u16>, datagram: &[u8]) -> bool
    ensures { result ≡ list_any (asks_message (option_map (λ s. s.now) services.entry) client)
        (items_of datagram.now) }
{
    for item in Messages::new(datagram) {
        if asks_message(services, client, &item) {
            return true;
        }
    }
    false
}

fn asks_message(
    services: Option<&[AskedService]>,
    client: Option<u16>,
    item: &Result<Message<'_>, WireError>,
) -> bool
    ensures { result ≡ asks_message (option_map (λ s. s.now) services.entry) client (view_item item.now) }
{
    match item {
        Ok(message) => {
            asks_services(services, &message.header) && is_client(client, message.header.client)
        }
        Err(_) => false,
    }
}

fn asks_services(services: Option<&[AskedService]>, header: &Header) -> bool
    ensures { result ≡ asks_services (option_map (λ s. s.now) services.entry) header.now }
{
    match services {
        Some(services) => names_header(services, header),
        None => true,
    }
}

fn is_client(client: Option<u16>, found: u16) -> bool
    ensures { result ≡ is_client client found }
{
    match client {
        Some(client) => client == found,
        None => true,
    }
}
