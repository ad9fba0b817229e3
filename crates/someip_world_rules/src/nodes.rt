//! The nodes of a setup by their names.
ghost use Rattle.std.specs.Prelude.{◌≡◌};
ghost use Rattle.someip_world_rules.specs.Runs.{place_of};

use someip_world_setup::SetupNode;

/// The place of the node of a name, counted from 0, if there is one. A setup has at most 64 nodes.
pub fn place_of(nodes: &[SetupNode], name: &str) -> Option<usize>
    ensures { result ≡ place_of nodes.now name.now }
{
    for (place, node) in nodes.iter().enumerate() {
        if node.name.as_str() == name {
            return Some(place);
        }
    }
    None
}
