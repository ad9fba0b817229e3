//! Whether two configurations have the same values. The contracts say what `true` tells, and nothing of
//! `false`, for which the setup of a log is given up.
ghost use Rattle.std.specs.Prelude.{◌≡◌, true};
ghost use Rattle.someip_world_setup_keys.specs.Made.{config_view, keys_of_set, offered_view, plain_entries, wanted_view};

use sd_core::{InstanceId, Phases};
use someip_node_rules::{Common, Config, OfferedService, WantedService};
use someip_rpc::ServiceRules;
use std::collections::{BTreeMap, BTreeSet};

/// Whether two configurations have the same values.
pub fn is_same_config(a: &Config, b: &Config) -> bool
    ensures { result ≡ true → config_view a.now ≡ config_view b.now }
{
    if !is_same_common(&a.common, &b.common) || !has_same_client(a, b) {
        return false;
    }
    if !have_same_offers(&a.offers, &b.offers) {
        return false;
    }
    have_same_wants(&a.wants, &b.wants)
}

/// Whether two networks share the same.
fn is_same_common(a: &Common, b: &Common) -> bool
    ensures { result ≡ true → a.now ≡ b.now }
{
    if !have_same_delays(a, b) {
        return false;
    }
    have_same_limits(a, b)
}

/// Whether two networks share the same group and the same delays.
fn have_same_delays(a: &Common, b: &Common) -> bool
    ensures { result ≡ true → (a.now.group ≡ b.now.group)
        × ((a.now.initial_min_ms ≡ b.now.initial_min_ms)
        × ((a.now.initial_max_ms ≡ b.now.initial_max_ms) × (a.now.phases ≡ b.now.phases))) }
{
    if a.group != b.group || !are_same_phases(&a.phases, &b.phases) {
        return false;
    }
    a.initial_min_ms == b.initial_min_ms && a.initial_max_ms == b.initial_max_ms
}

/// Whether the delays after the first one are the same.
fn are_same_phases(a: &Phases, b: &Phases) -> bool
    ensures { result ≡ true → a.now ≡ b.now }
{
    a.base == b.base && a.repetitions == b.repetitions && a.cyclic == b.cyclic
}

/// Whether two networks share the same limits and timeouts.
fn have_same_limits(a: &Common, b: &Common) -> bool
    ensures { result ≡ true → (a.now.message_limit ≡ b.now.message_limit)
        × ((a.now.slots ≡ b.now.slots) × ((a.now.peers ≡ b.now.peers)
        × ((a.now.reassembly_timeout_ms ≡ b.now.reassembly_timeout_ms)
        × (a.now.call_timeout_ms ≡ b.now.call_timeout_ms)))) }
{
    a.message_limit == b.message_limit
        && a.slots == b.slots
        && a.peers == b.peers
        && a.reassembly_timeout_ms == b.reassembly_timeout_ms
        && a.call_timeout_ms == b.call_timeout_ms
}

/// Whether two nodes have the same address, and their clients the same ID and port.
fn has_same_client(a: &Config, b: &Config) -> bool
    ensures { result ≡ true → (a.now.address ≡ b.now.address)
        × ((a.now.client_id ≡ b.now.client_id) × (a.now.client_port ≡ b.now.client_port)) }
{
    a.address == b.address && a.client_id == b.client_id && a.client_port == b.client_port
}

/// Whether the same is offered.
fn have_same_offers(
    a: &BTreeMap<InstanceId, OfferedService>,
    b: &BTreeMap<InstanceId, OfferedService>,
) -> bool
    ensures { result ≡ true → plain_entries offered_view a.now.entries ≡ plain_entries offered_view b.now.entries }
{
    let mut others = b.iter();
    for (instance, offer) in a {
        let Some((other, other_offer)) = others.next() else {
            return false;
        };
        if instance != other || !is_same_offer(offer, other_offer) {
            return false;
        }
    }
    others.next().is_none()
}

/// Whether two offers have the same values.
fn is_same_offer(a: &OfferedService, b: &OfferedService) -> bool
    ensures { result ≡ true → offered_view a.now ≡ offered_view b.now }
{
    if !has_same_ids(&a.rules, &b.rules) || !has_same_terms(a, b) {
        return false;
    }
    if !have_same_keys(&a.rules.methods, &b.rules.methods) {
        return false;
    }
    if !have_same_keys(&a.rules.oneways, &b.rules.oneways) {
        return false;
    }
    have_same_lists(&a.rules.events, &b.rules.events)
}

/// Whether an instance has the same IDs, version and endpoint.
fn has_same_ids(a: &ServiceRules, b: &ServiceRules) -> bool
    ensures { result ≡ true → (a.now.service ≡ b.now.service) × ((a.now.instance ≡ b.now.instance)
        × ((a.now.major ≡ b.now.major) × (a.now.endpoint ≡ b.now.endpoint))) }
{
    a.service == b.service
        && a.instance == b.instance
        && a.major == b.major
        && a.endpoint == b.endpoint
}

/// Whether an offer has the same terms.
fn has_same_terms(a: &OfferedService, b: &OfferedService) -> bool
    ensures { result ≡ true → (a.now.minor ≡ b.now.minor) × ((a.now.ttl ≡ b.now.ttl)
        × (a.now.subscribers ≡ b.now.subscribers)) }
{
    a.minor == b.minor && a.ttl == b.ttl && a.subscribers == b.subscribers
}

/// Whether two sets are the same.
fn have_same_keys(a: &BTreeSet<u16>, b: &BTreeSet<u16>) -> bool
    ensures { result ≡ true → a.now.keys ≡ b.now.keys }
{
    a == b
}

/// Whether the same sets stand at the same keys.
fn have_same_lists(a: &BTreeMap<u16, BTreeSet<u16>>, b: &BTreeMap<u16, BTreeSet<u16>>) -> bool
    ensures { result ≡ true → plain_entries keys_of_set a.now.entries ≡ plain_entries keys_of_set b.now.entries }
{
    a == b
}

/// Whether the same is wanted.
fn have_same_wants(
    a: &BTreeMap<InstanceId, WantedService>,
    b: &BTreeMap<InstanceId, WantedService>,
) -> bool
    ensures { result ≡ true → plain_entries wanted_view a.now.entries ≡ plain_entries wanted_view b.now.entries }
{
    let mut others = b.iter();
    for (instance, want) in a {
        let Some((other, other_want)) = others.next() else {
            return false;
        };
        if instance != other || !is_same_want(want, other_want) {
            return false;
        }
    }
    others.next().is_none()
}

/// Whether two wants have the same values.
fn is_same_want(a: &WantedService, b: &WantedService) -> bool
    ensures { result ≡ true → wanted_view a.now ≡ wanted_view b.now }
{
    if a.major != b.major || a.ttl != b.ttl {
        return false;
    }
    have_same_lists(&a.groups, &b.groups)
}
