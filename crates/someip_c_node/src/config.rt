//! The configuration of a node that a setup's text names.
ghost use Rattle.std.specs.Prelude.{◌≡◌, true, IfOk, IfErr};
ghost use Rattle.std.specs.Option.{option_copied};
ghost use Rattle.someip_node_rules.specs.forms.GoodConfigs.{is_good};
ghost use Rattle.someip_world_setup.specs.GoodSetups.{IsGoodNetwork};
ghost use Rattle.someip_world_setup_keys.specs.Values.{common_view};
ghost use Rattle.someip_c_node.specs.Texts.{AreDelaysIn, IsUnread, delays_of};
ghost use Rattle.someip_c_node.specs.Texts.{IsConfigIn, IsCopyIn, IsLacking, IsRefused, fault_outcome, first_named, is_node_of};

use crate::outcome::Outcome;
use someip_node_rules::{Common, Config};
use someip_world_setup::{Setup, SetupError, SetupNode};
use std::alloc::Global;

/// The configuration of the node of a name, in the setup that a text says. It is one that a node can
/// be started with.
///
/// It is refused as `NotToml`, `Missing`, `WrongKind`, `OutOfRange`, `UnknownKey` or `Clash` where the
/// text says no setup, as `NoSuchNode` where its setup has no such node or that is a liar, and as
/// `OutOfMemory`.
pub fn config_in(alloc: Global, text: &str, name: &[u8]) -> Result<Config, Outcome>
    ensures found { IfOk result (IsConfigIn text.now name.now) }
    ensures good { IfOk result (λ config. is_good config ≡ true) }
    ensures refused { IfErr result (IsRefused text.now name.now) }
{
    match Setup::read(alloc, text) {
        Ok(setup) => config_of(&setup, name),
        Err(error) => Err(setup_fault(&error)),
    }
}

/// The least and the greatest delay with which a node can be started.
#[derive(Clone, Copy, PartialEq, Eq)]
pub struct Delays {
    /// The least, in milliseconds.
    pub least_ms: u32,
    /// The greatest.
    pub greatest_ms: u32,
}

/// The delays of the nodes in the setup that a text says, before their first Offers and Finds.
///
/// It is refused as `NotText` where the text is not UTF-8, and as [`config_in`] refuses it.
pub fn delays_in(alloc: Global, text: &[u8]) -> Result<Delays, Outcome>
    ensures found { IfOk result (AreDelaysIn text.now) }
    ensures refused { IfErr result (IsUnread text.now) }
{
    let Ok(text) = str::from_utf8(text) else {
        return Err(Outcome::NotText);
    };
    match Setup::read(alloc, text) {
        Ok(setup) => Ok(delays_of(setup.common())),
        Err(error) => Err(setup_fault(&error)),
    }
}

/// The delays that all nodes share.
fn delays_of(common: &Common) -> Delays
    ensures { result ≡ delays_of (common_view common.now) }
{
    Delays {
        least_ms: common.initial_min_ms,
        greatest_ms: common.initial_max_ms,
    }
}

/// The configuration of the node of a name in a setup.
fn config_of(setup: &Setup, name: &[u8]) -> Result<Config, Outcome>
    ensures good { IsGoodNetwork setup.now }
    ensures found { IfOk result (IsCopyIn name.now setup.now.nodes) }
    ensures refused { IfErr result (IsLacking name.now setup.now.nodes) }
{
    match node_named(setup.nodes(), name) {
        Some(node) => match node.config.clone() {
            Ok(config) => Ok(config),
            Err(_) => Err(Outcome::OutOfMemory),
        },
        None => Err(Outcome::NoSuchNode),
    }
}

/// Whether a node has a name, and is no liar.
fn is_node_of(node: &SetupNode, name: &[u8]) -> bool
    ensures { result ≡ is_node_of name.now node.now }
{
    node.name.as_bytes() == name && !node.is_liar
}

/// The first node of a name that is no liar.
fn node_named<'a>(nodes: &'a [SetupNode], name: &[u8]) -> Option<&'a SetupNode>
    ensures { option_copied result ≡ first_named name.now nodes.now }
{
    for node in nodes {
        if is_node_of(node, name) {
            return Some(node);
        }
    }
    None
}

/// Why a text says no setup, as an outcome.
pub(crate) fn setup_fault(error: &SetupError) -> Outcome
    ensures { result ≡ fault_outcome error.now }
{
    match error {
        SetupError::NotToml => Outcome::NotToml,
        SetupError::Missing(_) => Outcome::Missing,
        SetupError::WrongKind(_) => Outcome::WrongKind,
        SetupError::OutOfRange(_) => Outcome::OutOfRange,
        SetupError::UnknownKey(_) => Outcome::UnknownKey,
        SetupError::Clash(_) => Outcome::Clash,
        SetupError::OutOfMemory => Outcome::OutOfMemory,
    }
}
