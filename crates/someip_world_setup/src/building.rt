//! From what a setup says to its nodes.
ghost use Rattle.std.specs.Prelude.{◌≡◌, map, IfOk};
ghost use Rattle.someip_world_setup_keys.specs.Values.{node_view};
ghost use Rattle.someip_world_setup.specs.NodesMade.{node_made, made_view};

use crate::setup_node::SetupNode;
use someip_node_rules::Common;
use someip_world_setup_keys::{NodeParts, config};
use std::alloc::{AllocError, Global};

/// A node with its configuration.
fn built(alloc: Global, common: Common, node: &NodeParts) -> Result<SetupNode, AllocError>
    ensures { IfOk result (λ n. made_view n ≡ node_made common (node_view node.now)) }
{
    let config = config(alloc, common, node)?;
    let name = node.name.clone()?;
    Ok(SetupNode {
        name,
        delay: node.delay,
        is_liar: node.is_liar,
        config,
    })
}

/// The nodes with their configurations.
pub(crate) fn built_nodes(
    alloc: Global,
    common: Common,
    nodes: &[NodeParts],
) -> Result<Vec<SetupNode>, AllocError>
    ensures { IfOk result (λ v. map made_view v.items ≡ map (node_made common) (map node_view nodes.now)) }
{
    let mut made = Vec::new(alloc);
    for node in nodes {
        made.push(built(alloc, common, node)?)?;
    }
    Ok(made)
}
