//! What is known of a server.
use crate::servers::key::ServerKey;
use crate::servers::offer::Served;
use audit_index::Owned;
use someip_tables::{Deadline, Waits};
use std::net::Ipv4Addr;

/// Whether a server is offered.
#[derive(Clone, Copy, Debug, PartialEq, Eq)]
pub enum ServerState {
    /// It is offered until its TTL has passed. From then on it has ended.
    Offered(Deadline),
    /// A StopOffer ended it.
    Ended,
    /// It had ended, and a REQUEST to it was told since.
    Told,
}

/// A server of which something is known.
#[derive(Clone, Copy, Debug, PartialEq, Eq)]
pub struct Server {
    /// What its newest Offer offers.
    pub served: Served,
    /// The address that its newest Offer was sent from.
    pub sender: Ipv4Addr,
    /// Whether it is offered.
    pub state: ServerState,
}

/// A server waits for no moment: whether its TTL has passed is asked where a message comes.
impl Waits for Server {
    ghost use Rattle.audit_sd.specs.servers.ServerTables.{waits_for_none};

    ghost moment = { waits_for_none };

    fn waits_for(&self) -> Option<u64> {
        None
    }
}

/// A server is the sender's of its newest Offer.
impl Owned<ServerKey> for Server {
    ghost use Rattle.audit_sd.specs.servers.ServerTables.{owners_of};

    ghost owners = { owners_of };

    fn owners(&self, _key: &ServerKey) -> (Ipv4Addr, Ipv4Addr) {
        (self.sender, self.sender)
    }
}
