//! Addresses compared as numbers: to compare them octet by octet takes longer.
ghost use Rattle.std.specs.Prelude.{◌≡◌};
ghost use Rattle.someip_tables.specs.Endpoints.{address_cmp};

use someip_tables::hashed::number_of_address;
use std::cmp::Ordering;
use std::net::Ipv4Addr;

/// Two addresses, in order.
pub fn compare_addresses(address: &Ipv4Addr, other: &Ipv4Addr) -> Ordering
    ensures { result ≡ address_cmp address.now other.now }
{
    number_of_address(address).cmp(&number_of_address(other))
}
