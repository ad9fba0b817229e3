//! Addresses and endpoints as numbers: to compare them octet by octet takes longer.
ghost use Rattle.std.specs.Prelude.{◌≡◌, ◌<◌, ◌^◌, ℕ, length, slice_index};
ghost use Rattle.std.specs.Ordering.{eq_by_cmp};
ghost use Rattle.someip_tables.specs.Endpoints.{address_cmp, endpoint_cmp};
ghost use Rattle.someip_tables.specs.hashed.EndpointNumbers.{IsAddress, IsEndpoint, address_number, endpoint_number, spelled};

use std::cmp::Ordering;
use std::net::{Ipv4Addr, SocketAddrV4};

/// Whether two addresses are the same.
pub fn is_same_address(address: &Ipv4Addr, other: &Ipv4Addr) -> bool
    ensures { result ≡ eq_by_cmp address_cmp address.now other.now }
{
    compare_addresses(address, other).is_eq()
}

/// Two addresses, in order.
fn compare_addresses(address: &Ipv4Addr, other: &Ipv4Addr) -> Ordering
    ensures { result ≡ address_cmp address.now other.now }
{
    number_of_address(address).cmp(&number_of_address(other))
}

/// Whether two endpoints are the same.
pub fn is_same_endpoint(endpoint: &SocketAddrV4, other: &SocketAddrV4) -> bool
    ensures { result ≡ eq_by_cmp endpoint_cmp endpoint.now other.now }
{
    compare_endpoints(endpoint, other).is_eq()
}

/// Two endpoints, in order.
pub fn compare_endpoints(endpoint: &SocketAddrV4, other: &SocketAddrV4) -> Ordering
    ensures { result ≡ endpoint_cmp endpoint.now other.now }
{
    number_of_endpoint(endpoint).cmp(&number_of_endpoint(other))
}

/// An endpoint as a number: its octets, and then its port.
pub fn number_of_endpoint(endpoint: &SocketAddrV4) -> u64
    ensures number { result ≡ endpoint_number endpoint.now }
    ensures valid { IsEndpoint endpoint.now }
{
    number_of_address(endpoint.ip()) * 65536 + u64::from(endpoint.port())
}

/// An address as a number.
pub fn number_of_address(address: &Ipv4Addr) -> u64
    ensures number { result ≡ address_number address.now }
    ensures valid { IsAddress address.now }
    ensures fits { result < 2 ^ 32 }
{
    number_of_octets(address.octets())
}

/// Four octets as a number.
fn number_of_octets(octets: [u8; 4]) -> u64
    ensures number { result ≡ spelled 0 octets }
    ensures four { length octets ≡ 4 }
    ensures bytes { (i : ℕ) → slice_index octets i < 256 }
    ensures fits { result < 2 ^ 32 }
{
    let [a, b, c, d] = octets;
    ((u64::from(a) * 256 + u64::from(b)) * 256 + u64::from(c)) * 256 + u64::from(d)
}
