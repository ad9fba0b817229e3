//! Steps that are tried again and again.
ghost use Rattle.std.specs.Prelude.{◌≡◌, IfOk};
ghost use Rattle.someip_world_schedule.specs.StepWords.{IsReadOf};
ghost use Rattle.someip_world_schedule.specs.Steps.{step_of_words, words_in};

use someip_world_schedule::{Step, WordFault, step_of_line};
use std::alloc::{AllocError, Global};
use std::marker::Model;

/// A step, with the line that spells it: so it can be made again. Contracts see the step.
#[derive(Drop)]
pub struct PlainMove {
    line: String,
    step: Step,
}

impl Model for PlainMove {
    ghost use Rattle.std.specs.Prelude.{◌≡◌, Some, string_bytes};
    ghost use Rattle.someip_world_schedule.specs.Steps.{step_of_words, words_in};
    ghost use Rattle.someip_world_schedule.specs.declared.step.Step.{Step};

    ghost Value = { Step };

    ghost view = { λ m. m.step };

    ghost invariant = { λ m. step_of_words (words_in (string_bytes m.line)) ≡ Some m.step };
}

impl PlainMove {
    /// The step that a line spells.
    pub fn read(alloc: Global, line: &str) -> Result<PlainMove, WordFault>
        ensures { IsReadOf (step_of_words (words_in line.now)) result }
    {
        let step = step_of_line(alloc, line)?;
        let line = String::from_str(alloc, line)?;
        Ok(PlainMove { line, step })
    }

    /// The step.
    pub fn step(&self) -> &Step
        ensures { result.now ≡ self.now }
    {
        &self.step
    }

    /// The same step, made again.
    pub fn copy(&self, alloc: Global) -> Result<Step, AllocError>
        ensures { IfOk result (λ step. step ≡ self.now) }
    {
        step_of_line(alloc, self.line.as_str()).map_err(|_| AllocError)
    }
}
