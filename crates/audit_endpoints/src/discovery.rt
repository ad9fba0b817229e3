//! Messages of Service Discovery, for whatever goes over a recording.
ghost use Rattle.std.specs.Prelude.{◌≡◌, IfOk};
ghost use Rattle.std.specs.Result.{result_map_both};
ghost use Rattle.sd_wire.specs.contents.Values.{view_sd};
ghost use Rattle.sd_wire.specs.decoding.Program.{reading};
ghost use Rattle.audit_endpoints.specs.DiscoveryMessages.{is_at_discovery, is_sd};

use sd_wire::{SdError, SdRead, read_sd};
use someip_tables::hashed::Origin;
use someip_wire::Header;
use std::alloc::{AllocError, Global};

/// The port of Service Discovery.
const DISCOVERY_PORT: u16 = 30490;

/// Whether a datagram comes from or goes to the port of Service Discovery.
pub fn is_at_discovery(origin: &Origin) -> bool
    ensures { result ≡ is_at_discovery origin.now }
{
    origin.from.port() == DISCOVERY_PORT || origin.to.port() == DISCOVERY_PORT
}

/// Whether a message is one of Service Discovery: it has the header of one, and goes from or to port 30490.
pub fn is_sd(origin: &Origin, header: &Header) -> bool
    ensures { result ≡ is_sd origin.now header.now }
{
    is_at_discovery(origin) && header.is_discovery()
}

/// Reads the payload of a message of Service Discovery, and keeps want of memory apart from its faults.
pub fn read_payload(alloc: Global, payload: &[u8]) -> Result<Result<SdRead, SdError>, AllocError>
    ensures { IfOk result (λ found. result_map_both view_sd (λ e. e) found ≡ reading payload.now) }
{
    SdError::apart(read_sd(alloc, payload))
}
