//! A setup.
ghost use Rattle.std.specs.Prelude.{◌≡◌, IfOk, IfErr, IsSomeAnd};
ghost use Rattle.toml.specs.View.{view};
ghost use Rattle.someip_world_setup.specs.GoodSetups.{IsGoodNetwork};
ghost use Rattle.someip_world_setup.specs.Readings.{tree_of, sound_setup_of, setup_of_text, HasValues, IsOwed, HasFault, TextHasFault};

use crate::building::built_nodes;
use crate::setup_node::SetupNode;
use someip_node_rules::Common;
use someip_world_setup_keys::{SetupError, parts_of, refuse_clashes, refuse_unknown};
use std::alloc::Global;
use std::marker::Model;
use toml::Value;

/// What a network is set up with: values in their ranges, of which none clash. [`Setup::read`] makes
/// it.
#[derive(Debug, Drop)]
pub struct Setup {
    common: Common,
    nodes: Vec<SetupNode>,
}

impl Model for Setup {
    ghost use Rattle.someip_world_setup.specs.GoodSetups.{Network, coded_network, IsGoodNetwork};

    ghost Value = { Network };

    ghost coded = { coded_network };

    ghost view = { λ s. record { common = s.common; nodes = s.nodes.items } };

    ghost invariant = { λ s. IsGoodNetwork (record { common = s.common; nodes = s.nodes.items }) };
}

/// The setup that a tree says.
fn setup_in(alloc: Global, tree: &Value) -> Result<Setup, SetupError>
    ensures said { IfOk result (λ s. IsSomeAnd (sound_setup_of (view tree.now)) (HasValues s)) }
    ensures fault { IfErr result (HasFault (view tree.now)) }
{
    let parts = parts_of(alloc, tree)?;
    refuse_unknown(alloc, tree)?;
    refuse_clashes(alloc, &parts)?;
    let common = parts.common;
    let nodes = built_nodes(alloc, common, &parts.nodes)?;
    Ok(Setup { common, nodes })
}

impl Setup {
    /// The setup that a text says.
    pub fn read(alloc: Global, text: &str) -> Result<Setup, SetupError>
        // It is what the tree of the text says, with the defaults; each key is one of the format, and
        // no values clash.
        ensures said { IfOk result (λ s. IsSomeAnd (setup_of_text text.now) (HasValues s)) }
        // Whatever setup a text says is read, unless memory runs out.
        ensures only { IfErr result (IsOwed (setup_of_text text.now)) }
        // An error tells a fault that is there.
        ensures fault { IfErr result (TextHasFault (tree_of text.now)) }
    {
        match toml::table_from_str(alloc, text) {
            Ok(table) => setup_in(alloc, &Value::Table(table)),
            Err(error) if error.is_memory() => Err(SetupError::OutOfMemory),
            Err(_) => Err(SetupError::NotToml),
        }
    }

    /// What all nodes share.
    pub fn common(&self) -> &Common
        ensures { result.now ≡ self.now.common }
    {
        &self.common
    }

    /// The nodes, in the order of the text.
    pub fn nodes(&self) -> &[SetupNode]
        ensures nodes { result.now ≡ self.now.nodes }
        // Each can be started, and none clashes with another.
        ensures good { IsGoodNetwork self.now }
    {
        &self.nodes
    }
}
