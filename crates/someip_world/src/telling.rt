//! What a node gave in a step, as lines.
ghost use Rattle.std.specs.Prelude.{◌≡◌, ◌++◌, OnOk, Ok};
ghost use Rattle.someip_world_rules.specs.Runs.{told_lines};
ghost use Rattle.someip_world.specs.Performing.{Puts};

use crate::log::Log;
use crate::performing::StepError;
use someip_node::Output;
use someip_world_rules::{Line, RunError, Told};
use std::alloc::AllocError;

/// Adds the lines of what a node gave.
fn tell_outputs(
    log: &mut Log,
    step: usize,
    node: usize,
    outputs: Vec<Output>,
) -> Result<(), AllocError>
    ensures { OnOk result (log.new ≡ log.old ++ told_lines step node (Ok outputs.items)) }
{
    for output in outputs {
        let told = Told::Gave(output);
        log.push(Line { step, node, told })?;
    }
    Ok(())
}

/// Adds the lines of what a node gave in a step, or that of its refusal.
pub(crate) fn tell(
    log: &mut Log,
    step: usize,
    node: usize,
    given: Result<Vec<Output>, StepError>,
) -> Result<(), RunError>
    ensures { Puts step node given log.old result log.new }
{
    match given {
        Ok(outputs) => tell_outputs(log, step, node, outputs)?,
        Err(StepError::Refused(refusal)) => {
            let told = Told::Refused(refusal);
            log.push(Line { step, node, told })?;
        }
        Err(StepError::Bad(fault)) => return Err(RunError::BadStep(step, fault)),
        Err(StepError::OutOfMemory) => return Err(RunError::OutOfMemory),
    }
    Ok(())
}
