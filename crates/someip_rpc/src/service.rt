//! A service instance, as it is set up at its server.
ghost use Rattle.someip_rpc.specs.Copies.{IsCopyOfRules};

use std::alloc::AllocError;
use std::collections::{BTreeMap, BTreeSet};
use std::net::SocketAddrV4;

/// A service instance that a server offers, as it is set up.
#[derive(Debug, Drop)]
pub struct ServiceRules {
    /// Service ID.
    pub service: u16,
    /// Instance ID.
    pub instance: u16,
    /// The major version: the Interface Version of its messages.
    pub major: u8,
    /// The endpoint at which its requests come, and from which all that it says is sent.
    pub endpoint: SocketAddrV4,
    /// The Method IDs that are declared for REQUEST.
    pub methods: BTreeSet<u16>,
    /// The Method IDs that are declared for REQUEST_NO_RETURN.
    pub oneways: BTreeSet<u16>,
    /// The Event IDs, each with the eventgroups that it belongs to.
    pub events: BTreeMap<u16, BTreeSet<u16>>,
}

impl Clone for ServiceRules {
    ghost is_clone = { λ rules copy. IsCopyOfRules rules copy };

    fn clone(&self) -> Result<ServiceRules, AllocError> {
        let methods = self.methods.clone()?;
        let oneways = self.oneways.clone()?;
        let events = self.events.clone()?;
        Ok(ServiceRules {
            service: self.service,
            instance: self.instance,
            major: self.major,
            endpoint: self.endpoint,
            methods,
            oneways,
            events,
        })
    }
}
