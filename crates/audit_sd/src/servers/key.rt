//! What tells servers apart.
ghost use Rattle.audit_sd.specs.servers.ServerOrder.{exact_servers};

use someip_tables::Key;
use someip_tables::hashed::{compare_endpoints, number_of_endpoint};
use std::cmp::Ordering;
use std::hash::{Hash, Hasher};
use std::net::SocketAddrV4;

/// What tells servers apart: by rising service, and then by endpoint. Two instances of a service at one node
/// have two ports.
#[derive(Clone, Copy, Debug, PartialEq, Eq)]
pub struct ServerKey {
    /// Service ID.
    pub service: u16,
    /// The endpoint that messages go to and come from.
    pub endpoint: SocketAddrV4,
}

impl Key for ServerKey {
    ghost exact = { exact_servers };
}

impl PartialOrd for ServerKey {
    ghost use Rattle.std.specs.Prelude.{Some, refl};
    ghost use Rattle.std.specs.Cmp.{partial_order_from_agreeing_total};
    ghost use Rattle.audit_sd.specs.servers.ServerKeys.{server_cmp};
    ghost use Rattle.audit_sd.specs.servers.ServerOrder.{servers_total};
    ghost use Rattle.std.specs.Cmp.Rules.{comparing};
    ghost use Rattle.std.proofs.Common.{rules};

    ghost partial_cmp = { λ x y. Some (server_cmp x y) };

    ghost laws = { partial_order_from_agreeing_total server_cmp servers_total (λ x y. refl) (Prim.search (comparing, rules)) };

    fn partial_cmp(&self, other: &ServerKey) -> Option<Ordering> {
        Some(self.cmp(other))
    }
}

/// The endpoint is compared as a number: octet by octet takes longer.
impl Ord for ServerKey {
    ghost use Rattle.std.specs.Cmp.Rules.{comparing};
    ghost use Rattle.std.proofs.Common.{rules};
    ghost use Rattle.audit_sd.specs.servers.ServerKeys.{server_cmp};
    ghost use Rattle.audit_sd.specs.servers.ServerOrder.{servers_total};

    ghost cmp = { server_cmp };

    ghost total = { servers_total };

    ghost matches_partial_cmp = { Prim.search (comparing, rules) };

    ghost matches_eq = { Prim.search (comparing, rules) };

    fn cmp(&self, other: &ServerKey) -> Ordering {
        match self.service.cmp(&other.service) {
            Ordering::Equal => compare_endpoints(&self.endpoint, &other.endpoint),
            different => different,
        }
    }
}

impl Hash for ServerKey {
    ghost use Rattle.std.specs.Prelude.{◌++◌};
    ghost use Rattle.std.specs.Hash as fed;
    ghost use Rattle.std.specs.Cmp.Rules.{comparing, hashing};
    ghost use Rattle.std.proofs.Common.{rules};
    ghost use Rattle.someip_tables.specs.hashed.EndpointNumbers.{endpoint_number};

    ghost hash_input = { λ k. fed.u64 (endpoint_number k.endpoint) ++ fed.u16 k.service };

    ghost respects_eq = { Prim.search (hashing, comparing, rules) };

    fn hash<H: Hasher>(&self, state: &mut H) {
        state.write_u64(number_of_endpoint(&self.endpoint));
        state.write_u16(self.service);
    }
}
