//! The numbers that steps and setups hold fit the fields of messages. Each function looks at a value and
//! does nothing: its contract says what holds of every value that a program has, by the types of its
//! fields.
//!
//! Which numbers fit is said of setups and steps by functions that do nothing (`setup_fits`, `steps_fit`):
//! the widths come from the Rust types of the fields, which a law over definitions does not see.
ghost use Rattle.std.specs.Prelude.{◌≡◌, ◌≢◌, ◌<◌, ◌^◌, ℕ, true, length, slice_index};
ghost use Rattle.std.specs.List.{AllByRecursion};
ghost use Rattle.std.specs.Net.Addr.{IsIpv4Addr};
ghost use Rattle.std.specs.Net.Socket.{IsSocketAddrV4};
ghost use Rattle.someip_rpc.specs.Servers.{code_of_reply};
ghost use Rattle.someip_node_laws.specs.Fitting.{FitsConfig, FitsInstance, FitsOffer, FitsWant};
ghost use Rattle.someip_node_rules.specs.forms.GoodConfigs.{is_good};
ghost use Rattle.someip_world_rules.specs.Announced.{FitNodes, FitsStep};

use sd_core::InstanceId;
use someip_node_rules::{Config, OfferedService, WantedService};
use someip_rpc::Reply;
use someip_world_schedule::Step;
use someip_world_setup::{Setup, SetupNode};
use std::collections::BTreeMap;
use std::net::{Ipv4Addr, SocketAddrV4};

/// The numbers of steps fit their fields.
pub fn steps_fit(steps: &[Step])
    ensures { AllByRecursion FitsStep steps.now }
{
    for step in steps {
        step_fits(step);
    }
}

/// The numbers of the nodes of a setup fit their fields.
pub fn setup_fits(setup: &Setup)
    ensures { FitNodes setup.now.nodes }
{
    nodes_fit(setup.nodes());
}

// ---- steps

/// The numbers of a step.
fn step_fits(step: &Step)
    ensures { FitsStep step.now }
{
    match step {
        Step::Call {
            instance,
            method,
            ..
        } => {
            instance_fits(*instance);
            let _method = method.id();
        }
        Step::Answer { reply, .. } => reply_fits(*reply),
        Step::Publish { event, .. } | Step::PublishTo { event, .. } => number_fits(*event),
        Step::Subscribe { eventgroup, .. } | Step::Unsubscribe { eventgroup, .. } => number_fits(
            eventgroup.id,
        ),
        Step::Inject { payload, .. } => payload.holds_bytes(),
        Step::Tick { .. } | Step::Deliver { .. } | Step::StopOffer { .. } | Step::Restart { .. } =>
            {}
    }
}

/// A number of 16 bits.
fn number_fits(number: u16)
    ensures { number < 2 ^ 16 }
{
    let _number = number;
}

/// An instance.
fn instance_fits(instance: InstanceId)
    ensures { FitsInstance instance }
{
    number_fits(instance.service);
    number_fits(instance.instance);
}

/// The code of a reply.
fn reply_fits(reply: Reply)
    ensures { code_of_reply reply < 2 ^ 8 }
{
    match reply {
        Reply::Response(code) | Reply::Error(code) => {
            let _code = code.0;
        }
    }
}

// ---- setups

/// The nodes of a setup.
fn nodes_fit(nodes: &[SetupNode])
    requires { AllByRecursion (λ node. is_good node.config ≡ true) nodes.now }
    ensures { FitNodes nodes.now }
{
    for node in nodes {
        config_fits(&node.config);
    }
}

/// A configuration.
fn config_fits(config: &Config)
    requires { is_good config.now ≡ true }
    ensures { FitsConfig config.now }
{
    address_fits(config.address);
    number_fits(config.client_id);
    number_fits(config.client_port);
    offers_fit(&config.offers);
    wants_fit(&config.wants);
}

/// Does nothing: its contract says what the type of four octets says of them.
fn octets_fit(octets: &[u8])
    requires { length octets.now ≡ 4 }
    ensures { (k : ℕ) → slice_index octets.now k < 2 ^ 8 }
{}

/// An address.
fn address_fits(address: Ipv4Addr)
    ensures { IsIpv4Addr address }
{
    octets_fit(&address.octets());
}

/// An endpoint.
fn endpoint_fits(endpoint: SocketAddrV4)
    ensures { IsSocketAddrV4 endpoint }
{
    address_fits(*endpoint.ip());
    number_fits(endpoint.port());
}

/// What a node offers.
fn offers_fit(offers: &BTreeMap<InstanceId, OfferedService>)
    ensures { AllByRecursion (λ offer. offer.1.rules.service ≢ 0xFFFF → FitsOffer offer)
        offers.now.entries }
{
    for (instance, offer) in offers {
        offer_fits(*instance, offer);
    }
}

/// An instance that is offered.
fn offer_fits(instance: InstanceId, offer: &OfferedService)
    ensures { offer.now.rules.service ≢ 0xFFFF → FitsOffer (instance, offer.now) }
{
    instance_fits(instance);
    number_fits(offer.rules.service);
    endpoint_fits(offer.rules.endpoint);
    let _ttl = offer.ttl.seconds();
    let _major = offer.rules.major;
    let _minor = offer.minor;
}

/// What it wants.
fn wants_fit(wants: &BTreeMap<InstanceId, WantedService>)
    ensures { AllByRecursion FitsWant wants.now.entries }
{
    for (instance, want) in wants {
        want_fits(*instance, want);
    }
}

/// An instance that is wanted.
fn want_fits(instance: InstanceId, want: &WantedService)
    ensures { FitsWant (instance, want.now) }
{
    instance_fits(instance);
    let _ttl = want.ttl.seconds();
    let _major = want.major;
}
