//! The tables of a node.
ghost use Rattle.std.specs.Prelude.{◌≡◌};
ghost use Rattle.someip_node_rules.specs.steps.Limits.{HoldsWithinLimits};

use sd_core::{InstanceId, Offers, Seeker, Subscribers, Subscriptions};
use sd_session::{Counter, PeerTable};
use someip_node_rules::Config;
use someip_rpc::{ClientCore, ServerCore};
use someip_tables::Moment;
use someip_tp::Reassembly;
use std::alloc::Global;
use std::collections::BTreeMap;
use std::marker::Model;
use std::net::Ipv4Addr;

/// The tables of a node. A contract sees them as the answers to the questions to what the node met.
#[derive(Drop)]
pub struct Engine<R: Reassembly> {
    pub(crate) alloc: Global,
    pub(crate) config: Config,
    /// The instance at each port, so that none is searched for.
    pub(crate) ports: BTreeMap<u16, InstanceId>,
    pub(crate) clock: Moment,
    pub(crate) store: R,
    pub(crate) peers: PeerTable,
    pub(crate) multicast: Counter,
    pub(crate) unicast: BTreeMap<Ipv4Addr, Counter>,
    pub(crate) offers: Offers,
    pub(crate) seeker: Seeker,
    pub(crate) subscribers: Subscribers,
    pub(crate) subscriptions: Subscriptions,
    pub(crate) client: ClientCore,
    pub(crate) server: ServerCore,
}

impl<R: Reassembly> Model for Engine<R> {
    ghost use Rattle.std.specs.Prelude.{◌≡◌, ◌≤◌};
    ghost use Rattle.std.specs.Coded.{codes};
    ghost use Rattle.std.specs.Ordering.{nat_cmp};
    ghost use Rattle.someip_node_rules.specs.contracts.config.Config as config_row;
    ghost use Rattle.someip_node_rules.specs.forms.GoodConfigs.{greatest_message_limit};
    ghost use Rattle.someip_tables.specs.Endpoints.{address_cmp};
    ghost use Rattle.someip_tables.specs.Tables.{map_of};
    ghost use Rattle.someip_reassembly.specs.Parts.{NoneAfter, coded_parts};
    ghost use Rattle.someip_node_rules.specs.histories.OfferQuestions.{versions_of};
    ghost use Rattle.someip_node_rules.specs.histories.SeekQuestions.{majors_of};
    ghost use Rattle.someip_node_rules.specs.forms.Setups.{limits_of, ports_of};
    ghost use Rattle.someip_node_rules.specs.histories.Tables.{Tables, coded_held, coded_stamps_to};
    ghost use Rattle.sd_core.specs.OfferTables.{coded_offers};
    ghost use Rattle.sd_core.specs.SeekTables.{coded_seek};
    ghost use Rattle.sd_core.specs.SubscriberTables.{coded_subscribers};
    ghost use Rattle.sd_core.specs.WishTables.{coded_wishes};
    ghost use Rattle.someip_rpc.specs.Calls.{coded_client};
    ghost use Rattle.someip_rpc.specs.Servers.{coded_server};

    ghost Value = { Tables };

    ghost coded = { Prim.hlevel (
      codes,
      config_row.the_row.coded,
      coded_parts,
      coded_held,
      coded_stamps_to,
      coded_offers,
      coded_seek,
      coded_subscribers,
      coded_wishes,
      coded_client,
      coded_server,
    ) };

    ghost view = { λ n. record {
      config = n.config;
      clock = n.clock;
      parts = R.parts n.store;
      peers = n.peers.held;
      multicast = n.multicast;
      unicast = map_of address_cmp n.unicast.entries;
      offers = n.offers;
      seek = n.seeker;
      subscribers = n.subscribers;
      wishes = n.subscriptions;
      client = n.client;
      server = n.server;
    } };

    ghost invariant = { λ n.
        (map_of nat_cmp n.ports.entries ≡ ports_of n.config)
        × (R.limits n.store ≡ limits_of n.config) × NoneAfter n.clock (R.parts n.store)
        × (n.peers.limit ≡ n.config.common.peers) × (n.config.common.message_limit ≤ greatest_message_limit)
        × (n.offers.versions ≡ versions_of n.config) × (n.seeker.wanted ≡ majors_of n.config) };
}

impl<R: Reassembly> Engine<R> {
    /// What the node is set up with.
    pub fn config(&self) -> &Config
        ensures { result.now ≡ self.now.config }
    {
        &self.config
    }

    /// There are no more peers than the configuration allows, and at most 1024 calls and 1024 requests
    /// wait for their answers.
    pub fn holds_within_limits(&self)
        ensures { HoldsWithinLimits self.now }
    {
        // The contracts of these say how many there are at most.
        let _ = self.peers.len();
        let _ = self.client.pending_calls();
        let _ = self.server.open_requests();
    }
}
