//! Which values a node may be set up with.
//!
//! A configuration's clash of ports is judged without memory, by comparing each pair of instances: they are
//! few, and a refusal takes no memory.
ghost use Rattle.std.specs.Prelude.{◌≡◌, ◌≤◌, length};
ghost use Rattle.std.specs.Bool.{OnTrue};
ghost use Rattle.std.specs.List.{list_all, list_any};
ghost use Rattle.std.specs.BTreeSet.{contains};
ghost use Rattle.std.specs.Ordering.{nat_cmp};
ghost use Rattle.someip_node_engine.specs.Ports.{at_port, is_alone};
ghost use Rattle.someip_node_rules.specs.forms.GoodConfigs as good;
ghost use Rattle.someip_node_rules.specs.forms.GoodConfigs.{greatest_message_limit};

use sd_core::InstanceId;
use sd_wire::Ttl;
use someip_node_rules::{Common, Config, OfferedService, WantedService};
use someip_rpc::ServiceRules;
use someip_tables::is_same_key;
use std::collections::{BTreeMap, BTreeSet};

/// Whether a node may be set up with this. It takes no memory.
pub(crate) fn is_good(config: &Config) -> bool
    ensures good { result ≡ good.is_good config.now }
    ensures limit { OnTrue result (config.now.common.message_limit ≤ greatest_message_limit) }
{
    is_good_common(&config.common)
        && !is_same_key(&config.address, &config.common.group)
        && is_good_port(config.client_port)
        && are_good_offers(config)
        && are_good_wants(&config.wants)
        && has_own_ports(config)
}

/// Whether a delay lies in the range that the configuration gives.
pub fn is_good_delay(config: &Config, delay: u32) -> bool
    ensures { result ≡ good.is_good_delay config.now delay }
{
    config.common.initial_min_ms <= delay && delay <= config.common.initial_max_ms
}

/// Whether the delays, limits and timeouts of all nodes are in their ranges.
fn is_good_common(common: &Common) -> bool
    ensures good { result ≡ good.is_good_common common.now }
    ensures limit { OnTrue result (common.now.message_limit ≤ greatest_message_limit) }
{
    common.initial_min_ms <= common.initial_max_ms
        && common.initial_max_ms <= 60000
        && (1400 <= common.message_limit && common.message_limit <= Common::GREATEST_MESSAGE_LIMIT)
        && (1 <= common.slots && common.slots <= 1024)
        && (1 <= common.peers && common.peers <= 1024)
        && (1 <= common.reassembly_timeout_ms && common.reassembly_timeout_ms <= 3_600_000)
        && (1 <= common.call_timeout_ms && common.call_timeout_ms <= 3_600_000)
}

/// Whether a port may be a node's own.
fn is_good_port(port: u16) -> bool
    ensures { result ≡ good.is_good_port port }
{
    port != 0 && port != Config::DISCOVERY_PORT
}

/// Whether a Service ID, an Instance ID or an Eventgroup ID stands for one.
fn is_good_id(id: u16) -> bool
    ensures { result ≡ good.is_good_id id }
{
    1 <= id && id <= 0xfffe
}

/// Whether the IDs of an instance each stand for one.
fn is_good_instance(instance: &InstanceId) -> bool
    ensures { result ≡ good.is_good_instance instance.now }
{
    is_good_id(instance.service) && is_good_id(instance.instance)
}

/// Whether an ID is that of an event.
fn is_good_event(event: u16) -> bool
    ensures { result ≡ good.is_good_event event }
{
    0x8000 <= event && event <= 0xfffe
}

/// Whether each of several IDs stands for one.
fn are_good_ids(ids: &BTreeSet<u16>) -> bool
    ensures { result ≡ list_all good.is_good_id ids.now.keys }
{
    ids.iter().all(|id| is_good_id(*id))
}

/// Whether each of several IDs is that of an event.
fn are_good_events(events: &BTreeSet<u16>) -> bool
    ensures { result ≡ list_all good.is_good_event events.now.keys }
{
    events.iter().all(|event| is_good_event(*event))
}

/// Whether each of several IDs is that of a method.
fn are_good_methods(methods: &BTreeSet<u16>) -> bool
    ensures { result ≡ good.are_good_methods methods.now }
{
    methods.iter().all(|method| *method <= 0x7fff)
}

/// Whether a method is declared for both types.
fn has_common_method(rules: &ServiceRules) -> bool
    ensures { result ≡ list_any (contains nat_cmp rules.now.methods) rules.now.oneways.keys }
{
    rules
        .oneways
        .iter()
        .any(|method| rules.methods.contains(method))
}

/// Whether an event has an ID of its own, and eventgroups.
fn has_good_eventgroups(event: u16, eventgroups: &BTreeSet<u16>) -> bool
    ensures { result ≡ good.has_good_eventgroups (event, eventgroups.now) }
{
    is_good_event(event) && !eventgroups.is_empty() && are_good_ids(eventgroups)
}

/// Whether all events of an instance are good.
fn have_good_eventgroups(events: &BTreeMap<u16, BTreeSet<u16>>) -> bool
    ensures { result ≡ list_all good.has_good_eventgroups events.now.entries }
{
    events.iter().all(|(event, eventgroups)| has_good_eventgroups(*event, eventgroups))
}

/// Whether a node may offer an instance so.
fn is_good_offer(config: &Config, instance: &InstanceId, service: &OfferedService) -> bool
    ensures { result ≡ good.is_good_offer config.now (instance.now, service.now) }
{
    let rules = &service.rules;
    is_good_instance(instance)
        && rules.service == instance.service
        && rules.instance == instance.instance
        && rules.major <= 0xfe
        && service.minor <= 0xffff_fffe
        && service.ttl != Ttl::ZERO
        && is_same_key(rules.endpoint.ip(), &config.address)
        && is_good_port(rules.endpoint.port())
        && rules.endpoint.port() != config.client_port
        && are_good_methods(&rules.methods)
        && are_good_methods(&rules.oneways)
        && !has_common_method(rules)
        && have_good_eventgroups(&rules.events)
        && (1 <= service.subscribers && service.subscribers <= 1024)
}

/// Whether a node may offer its instances so, but for their ports.
fn are_good_offers(config: &Config) -> bool
    ensures { result ≡ list_all (good.is_good_offer config.now) config.now.offers.entries }
{
    config.offers.iter().all(|(instance, service)| is_good_offer(config, instance, service))
}

/// Whether a node may subscribe to an eventgroup so.
fn is_good_eventgroup(eventgroup: u16, events: &BTreeSet<u16>) -> bool
    ensures { result ≡ good.is_good_eventgroup (eventgroup, events.now) }
{
    is_good_id(eventgroup) && are_good_events(events)
}

/// Whether a node may subscribe to eventgroups so.
fn are_good_eventgroups(groups: &BTreeMap<u16, BTreeSet<u16>>) -> bool
    ensures { result ≡ list_all good.is_good_eventgroup groups.now.entries }
{
    groups.iter().all(|(eventgroup, events)| is_good_eventgroup(*eventgroup, events))
}

/// Whether a node may want an instance so.
fn is_good_want(instance: &InstanceId, want: &WantedService) -> bool
    ensures { result ≡ good.is_good_want (instance.now, want.now) }
{
    is_good_instance(instance)
        && want.major <= 0xfe
        && want.ttl != Ttl::ZERO
        && are_good_eventgroups(&want.groups)
}

/// Whether a node may want its instances so.
fn are_good_wants(wants: &BTreeMap<InstanceId, WantedService>) -> bool
    ensures { result ≡ list_all good.is_good_want wants.now.entries }
{
    wants
        .iter()
        .all(|(instance, want)| is_good_want(instance, want))
}

/// Whether no two instances have one port.
fn has_own_ports(config: &Config) -> bool
    ensures { result ≡ good.has_own_ports config.now }
{
    has_each_port_once(&config.offers)
}

/// Whether each instance is the only one at its port.
fn has_each_port_once(offers: &BTreeMap<InstanceId, OfferedService>) -> bool
    ensures { result ≡ list_all (λ offer. is_alone offers.now.entries offer.1)
        offers.now.entries }
{
    offers.iter().all(|(_, service)| is_alone(offers, service))
}

/// Whether an instance is the only one at its port.
fn is_alone(offers: &BTreeMap<InstanceId, OfferedService>, service: &OfferedService) -> bool
    ensures { result ≡ is_alone offers.now.entries service.now }
{
    count_at(offers, service.rules.endpoint.port()) == 1
}

/// How many instances have a port.
fn count_at(offers: &BTreeMap<InstanceId, OfferedService>, port: u16) -> usize
    ensures { result ≡ length (at_port port offers.now.entries) }
{
    offers
        .iter()
        .filter(|(_, service)| is_same_key(&port, &service.rules.endpoint.port()))
        .count()
}
