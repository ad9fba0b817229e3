//! Moves that can't happen in any schedule over the nodes of a setup.
ghost use Rattle.std.specs.Prelude.{◌≡◌};
ghost use Rattle.someip_explore.specs.Misfits.{is_injection, misfit, misfit_named, misfit_of, step_misfit};

use crate::moves::Move;
use someip_world::{SetupNode, Step, StepFault};
use someip_world_rules::place_of;

/// Why nothing of this kind happens at a node or a liar: a liar only injects, and no one else does.
fn misfit_of(is_liar: bool, injects: bool) -> Option<StepFault>
    ensures { result ≡ misfit_of is_liar injects }
{
    match (is_liar, injects) {
        (true, false) => Some(StepFault::IsLiar),
        (false, true) => Some(StepFault::NotLiar),
        _ => None,
    }
}

/// The same of the node of a name.
fn misfit_named(nodes: &[SetupNode], injects: bool, name: &str) -> Option<StepFault>
    ensures { result ≡ misfit_named nodes.now injects name.now }
{
    let Some(place) = place_of(nodes, name) else {
        return Some(StepFault::UnknownNode);
    };
    match nodes.get(place) {
        Some(node) => misfit_of(node.is_liar, injects),
        None => misfit_of(false, injects),
    }
}

/// Whether a step injects.
fn is_injection(step: &Step) -> bool
    ensures { result ≡ is_injection step.now }
{
    matches!(step, Step::Inject { .. })
}

/// The same of a step.
fn step_misfit(nodes: &[SetupNode], step: &Step) -> Option<StepFault>
    ensures { result ≡ step_misfit nodes.now step.now }
{
    misfit_named(nodes, is_injection(step), step.node().as_str())
}

impl Move {
    /// Why no step for which the move stands can happen over the nodes of a setup, whatever happened before:
    /// the setup has no node of its name (`UnknownNode`), a node that is no liar injects (`NotLiar`), or a liar
    /// does something else (`IsLiar`). `None` where the setup alone does not rule it out.
    pub fn misfit(&self, nodes: &[SetupNode]) -> Option<StepFault>
        ensures { result ≡ misfit nodes.now self.now }
    {
        match self {
            Move::Plain(plain) => step_misfit(nodes, plain.step()),
            Move::DeliverAnyTo(node) => misfit_named(nodes, false, node.as_str()),
            Move::DeliverAny => None,
            Move::AnswerAny(answer) => step_misfit(nodes, answer.step()),
        }
    }
}
