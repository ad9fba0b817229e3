//! What a call of a node gives, while it is gathered.
ghost use Rattle.std.specs.Prelude.{◌≡◌, ◌++◌, ◌∷◌, [], OnOk};
ghost use Rattle.someip_node_rules.specs.declared.output.Output.TheVariants.{Dropped};

use sd_wire::Entry;
use someip_node_rules::{DropReason, Output};
use std::alloc::{AllocError, Global};

/// What a call of a node gives so far, and the replies to the message of Service Discovery that is read,
/// which go out after all of its entries.
#[derive(Drop)]
pub struct Giving {
    /// What is given, in order.
    pub outputs: Vec<Output>,
    /// The replies, in order.
    pub replies: Vec<Entry>,
}

impl Giving {
    /// Nothing.
    pub fn new(alloc: Global) -> Giving
        ensures outputs { result.outputs.items ≡ [] }
        ensures replies { result.replies.items ≡ [] }
    {
        Giving {
            outputs: Vec::new(alloc),
            replies: Vec::new(alloc),
        }
    }

    /// What came is dropped for this reason.
    pub(crate) fn dropped(&mut self, reason: DropReason) -> Result<(), AllocError>
        ensures outputs { OnOk result
            (self.new.outputs.items ≡ self.old.outputs.items ++ Dropped reason ∷ []) }
        ensures replies { self.new.replies ≡ self.old.replies }
    {
        tell_dropped(&mut self.outputs, reason)
    }
}

/// Tells that what came is dropped for this reason.
pub(crate) fn tell_dropped(outputs: &mut Vec<Output>, reason: DropReason) -> Result<(), AllocError>
    ensures { OnOk result (outputs.new.items ≡ outputs.old.items ++ Dropped reason ∷ []) }
{
    outputs.push(Output::Dropped { reason })?;
    Ok(())
}
