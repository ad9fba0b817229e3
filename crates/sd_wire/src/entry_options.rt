//! The options of an entry (SOME/IP Service Discovery, "Referencing Options from Entries").
ghost use Rattle.std.specs.Prelude.{◌≡◌};
ghost use Rattle.sd_wire.specs.contents.Values.{view_entry};
ghost use Rattle.sd_wire.specs.contents.Endpoints.{options_of, udp_endpoint, first_udp_endpoint};

use crate::endpoint::Protocol;
use crate::entry::Entry;
use crate::option::SdOption;
use std::net::SocketAddrV4;

impl Entry {
    /// Address and port of the entry's first IPv4 endpoint option over UDP, the options of the
    /// first run before those of the second. Multicast options and those of Service Discovery
    /// itself are no endpoints of an instance or a client.
    pub fn udp_endpoint(&self) -> Option<SocketAddrV4>
        ensures { result ≡ first_udp_endpoint (options_of (view_entry self.now)) }
    {
        match first_udp_endpoint(&self.run1) {
            Some(endpoint) => Some(endpoint),
            None => first_udp_endpoint(&self.run2),
        }
    }
}

/// The first of some options that is an IPv4 endpoint over UDP.
fn first_udp_endpoint(options: &[SdOption]) -> Option<SocketAddrV4>
    ensures { result ≡ first_udp_endpoint options.now }
{
    for option in options {
        if let Some(endpoint) = udp_endpoint(option) {
            return Some(endpoint);
        }
    }
    None
}

/// Address and port of an option, if it is an IPv4 endpoint over UDP.
fn udp_endpoint(option: &SdOption) -> Option<SocketAddrV4>
    ensures { result ≡ udp_endpoint option.now }
{
    match option {
        SdOption::Endpoint4(endpoint) if endpoint.protocol == Protocol::UDP => {
            Some(endpoint.socket)
        }
        _ => None,
    }
}
