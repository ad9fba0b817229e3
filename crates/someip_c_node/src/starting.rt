//! The start of a node, by a setup's text and a name.
ghost use Rattle.std.specs.Prelude.{IfOk, IfErr};
ghost use Rattle.someip_c_node.specs.Starts.{IsNotStarted, IsStarted};

use crate::config::config_in;
use crate::node::CNode;
use crate::outcome::Outcome;
use std::alloc::Global;

/// The node of a name in the setup that a text says. Its first Offers and Finds go out so many
/// milliseconds after the start: the setup's own delay of the node is not used.
///
/// It is refused, by the first that holds, as `NotText` where the text is not UTF-8, as [`config_in`]
/// refuses it, as `BadDelay` where the delay is outside the range that the setup gives, and as
/// `OutOfMemory`.
pub fn started(alloc: Global, text: &[u8], name: &[u8], delay: u32) -> Result<CNode, Outcome>
    ensures started { IfOk result (IsStarted text.now name.now delay) }
    ensures refused { IfErr result (IsNotStarted text.now name.now delay) }
{
    let Ok(text) = str::from_utf8(text) else {
        return Err(Outcome::NotText);
    };
    let config = config_in(alloc, text, name)?;
    CNode::start(alloc, config, delay)
}
