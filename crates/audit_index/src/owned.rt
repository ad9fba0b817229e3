//! Which addresses own a value.
ghost use Rattle.std.specs.Prelude.{◌≡◌};
ghost use Rattle.std.specs.declared.net.ipv4_addr.Ipv4Addr.{Ipv4Addr};

use someip_tables::Waits;
use std::net::Ipv4Addr;

/// What two addresses own, which may be one.
pub trait Owned<K>: Waits {
    ghost owners: { K → Self → Ipv4Addr × Ipv4Addr };

    /// The addresses that own the value of a key.
    fn owners(&self, key: &K) -> (Ipv4Addr, Ipv4Addr)
        ensures { result ≡ owners key.now self.now };
}
