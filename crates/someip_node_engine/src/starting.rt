//! The start of a node.
ghost use Rattle.std.specs.Prelude.{◌≡◌, ◌≤◌, OnOk, IfOk, IfErr, false, true, Err, map};
ghost use Rattle.std.specs.FinMap as finite;
ghost use Rattle.std.specs.Ordering.{nat_cmp};
ghost use Rattle.someip_tables.specs.Tables.{map_of};
ghost use Rattle.sd_core.specs.Keys.{instance_cmp};
ghost use Rattle.sd_core.specs.OfferTables.{started};
ghost use Rattle.sd_core.specs.SeekTables.{searching};
ghost use Rattle.someip_reassembly.specs.Parts.{NoneAfter};
ghost use Rattle.someip_node_rules.specs.forms.GoodConfigs.{greatest_message_limit, is_good, is_good_delay};
ghost use Rattle.someip_node_rules.specs.histories.OfferQuestions.{version_of, versions_of};
ghost use Rattle.someip_node_rules.specs.histories.SeekQuestions.{majors_of};
ghost use Rattle.someip_node_rules.specs.forms.Setups.{limits_of, ports_of};
ghost use Rattle.someip_node_rules.specs.histories.Starts.{started_tables};
ghost use Rattle.someip_node_rules.specs.declared.error.NodeError.TheVariants as fault;

use crate::config_checks::{is_good, is_good_delay};
use crate::engine::Engine;
use sd_core::{InstanceId, Offers, Seeker, Subscribers, Subscriptions, Version};
use sd_session::{Counter, PeerTable};
use someip_node_rules::{Config, NodeError, OfferedService, WantedService};
use someip_rpc::{ClientCore, ServerCore};
use someip_tables::Moment;
use someip_tp::Reassembly;
use std::alloc::{AllocError, Global};
use std::collections::BTreeMap;

/// Adds instances that a node offers, each with its version.
fn add_offers(
    offers: &mut Offers,
    services: &BTreeMap<InstanceId, OfferedService>,
) -> Result<(), AllocError>
    requires { offers.old.versions ≡ finite.empty }
    ensures { OnOk result (offers.new.versions
        ≡ map_of instance_cmp (map (λ e. (e.0, version_of e.1)) services.now.entries)) }
{
    // The last goes in first, as the definition makes a map of entries.
    for (instance, service) in services.iter().rev() {
        offers.add(*instance, version_of(service))?;
    }
    Ok(())
}

/// The version of an instance.
fn version_of(service: &OfferedService) -> Version
    ensures { result ≡ version_of service.now }
{
    Version {
        major: service.rules.major,
        minor: service.minor,
    }
}

/// Adds instances that a node wants, each in its major version.
fn add_wants(
    seeker: &mut Seeker,
    wants: &BTreeMap<InstanceId, WantedService>,
) -> Result<(), AllocError>
    requires { seeker.old.wanted ≡ finite.empty }
    ensures { OnOk result (seeker.new.wanted
        ≡ map_of instance_cmp (map (λ e. (e.0, e.1.major)) wants.now.entries)) }
{
    // The last goes in first, as the definition makes a map of entries.
    for (instance, want) in wants.iter().rev() {
        seeker.add(*instance, want.major)?;
    }
    Ok(())
}

impl<R: Reassembly> Engine<R> {
    /// The tables of a start, with a delay in milliseconds before the first Offers and Finds.
    pub fn start(alloc: Global, config: Config, delay: u32) -> Result<Engine<R>, NodeError>
        ensures ok { IfOk result (λ e. e ≡ started_tables config delay) }
        ensures bad_config { is_good config ≡ false → result ≡ Err fault.BadConfig }
        ensures bad_delay { is_good config ≡ true → is_good_delay config delay ≡ false
            → result ≡ Err fault.BadDelay }
        ensures good { OnOk result
            ((is_good config ≡ true) × (is_good_delay config delay ≡ true)) }
        ensures memory { is_good config ≡ true → is_good_delay config delay ≡ true
            → IfErr result (λ error. error ≡ fault.OutOfMemory) }
    {
        if !is_good(&config) {
            return Err(NodeError::BadConfig);
        }
        if !is_good_delay(&config, delay) {
            return Err(NodeError::BadDelay);
        }
        Ok(Engine::<R>::of_good(alloc, config, delay)?)
    }

    /// The tables of a start with a good configuration.
    fn of_good(alloc: Global, config: Config, delay: u32) -> Result<Engine<R>, AllocError>
        requires { config.common.message_limit ≤ greatest_message_limit }
        ensures { IfOk result (λ e. e ≡ started_tables config delay) }
    {
        let offers = started_offers(alloc, &config, delay)?;
        let seeker = started_seeker(alloc, &config, delay)?;
        let ports = index_of_ports(alloc, &config)?;
        let store = Engine::<R>::empty_store(alloc, &config)?;
        let peers = PeerTable::new(alloc, config.common.peers);
        Ok(Engine {
            alloc,
            config,
            ports,
            clock: Moment::start(),
            store,
            peers,
            multicast: Counter::new(),
            unicast: BTreeMap::new(alloc),
            offers,
            seeker,
            subscribers: Subscribers::new(alloc),
            subscriptions: Subscriptions::new(alloc),
            client: ClientCore::new(alloc),
            server: ServerCore::new(alloc),
        })
    }

    /// All is as at a start, with the same configuration. It takes no memory.
    pub fn restart(&mut self, delay: u32)
        ensures { self.new ≡ started_tables self.old.config delay }
    {
        self.clock = Moment::start();
        self.store.clear();
        self.peers.clear();
        self.multicast = Counter::new();
        self.unicast.clear();
        self.offers.start(delay);
        self.seeker.start(delay);
        self.subscribers.clear();
        self.subscriptions.clear();
        self.client.clear();
        self.server.clear();
    }

    /// A store for messages that come in part, without any.
    fn empty_store(alloc: Global, config: &Config) -> Result<R, AllocError>
        ensures parts { IfOk result (λ store. R.parts store ≡ finite.empty) }
        ensures limits { IfOk result (λ store. R.limits store ≡ limits_of config.now) }
        ensures moments { IfOk result (λ store. NoneAfter 0 (R.parts store)) }
    {
        let common = &config.common;
        match R::make(
            alloc,
            common.slots,
            common.message_limit,
            u64::from(common.reassembly_timeout_ms),
        ) {
            Ok(store) => Ok(store),
            Err(_) => Err(AllocError),
        }
    }
}

/// The instances that a node offers, as started.
fn started_offers(alloc: Global, config: &Config, delay: u32) -> Result<Offers, AllocError>
    ensures { IfOk result (λ offers. offers
        ≡ started delay (record { versions = versions_of config.now; up = finite.empty })) }
{
    let mut offers = Offers::new(alloc);
    add_offers(&mut offers, &config.offers)?;
    offers.start(delay);
    Ok(offers)
}

/// The instances that a node wants, as started.
fn started_seeker(alloc: Global, config: &Config, delay: u32) -> Result<Seeker, AllocError>
    ensures { IfOk result (λ seeker. seeker ≡ searching delay (record {
      wanted = majors_of config.now;
      known = finite.empty;
      finding = finite.empty;
    })) }
{
    let mut seeker = Seeker::new(alloc);
    add_wants(&mut seeker, &config.wants)?;
    seeker.start(delay);
    Ok(seeker)
}

/// The instance at each port.
fn index_of_ports(alloc: Global, config: &Config) -> Result<BTreeMap<u16, InstanceId>, AllocError>
    ensures { IfOk result (λ ports. map_of nat_cmp ports.entries ≡ ports_of config.now) }
{
    let mut ports = BTreeMap::new(alloc);
    add_ports(&mut ports, &config.offers)?;
    Ok(ports)
}

/// Adds instances at their ports.
fn add_ports(
    ports: &mut BTreeMap<u16, InstanceId>,
    services: &BTreeMap<InstanceId, OfferedService>,
) -> Result<(), AllocError>
    requires { map_of nat_cmp ports.old.entries ≡ finite.empty }
    ensures { OnOk result (map_of nat_cmp ports.new.entries
        ≡ map_of nat_cmp (map (λ e. (e.1.rules.endpoint.port, e.0)) services.now.entries)) }
{
    // The last goes in first, as the definition makes a map of entries.
    for (instance, service) in services.iter().rev() {
        add_port(ports, service.rules.endpoint.port(), *instance)?;
    }
    Ok(())
}

/// Adds an instance at its port.
fn add_port(
    ports: &mut BTreeMap<u16, InstanceId>,
    port: u16,
    instance: InstanceId,
) -> Result<(), AllocError>
    ensures { OnOk result (map_of nat_cmp ports.new.entries
        ≡ finite.insert (map_of nat_cmp ports.old.entries) port instance) }
{
    ports.insert(port, instance)?;
    Ok(())
}
