//! What the definitions behind the contracts promise. Each law is the contract of a function that does
//! nothing.
ghost use Rattle.std.specs.Prelude.{◌≡◌, ℕ, List, [], ◌∷◌, codes, true, None, Some};
ghost use Rattle.std.specs.List.{AllByRecursion};
ghost use Rattle.someip_explore.specs.Goals.{told_words};
ghost use Rattle.someip_world_rules.specs.declared.line.Told.{Told};
ghost use Rattle.someip_world_schedule.specs.declared.step.Step.{Step};
ghost use Rattle.someipctl_run.specs.Commands.{SpellsSteps};
ghost use Rattle.someipctl_explore.specs.GoalTexts.{begins_told, goal_fault, words_fault};
ghost use Rattle.someipctl_explore.specs.declared.error.GoalRefusal.TheVariants.{UnknownNode, UnknownWord};
ghost use Rattle.someipctl_explore.specs.StepLines.{steps_text};
ghost use Rattle.someipctl_explore.specs.WholeSteps.{IsWhole};

/// What is printed of steps is a schedule that is read as just these steps.
#[tactic(auto, using(crate::proofs::TextLemmas::steps_spelled))]
pub fn what_is_printed_reads()
    ensures { (steps : List Step) → AllByRecursion IsWhole steps → SpellsSteps (steps_text steps) steps }
{}

/// Examples: words that a goal, or a condition of it, may not have where the setup has no node, and words of a
/// verdict, which stands behind all lines.
pub fn goals_are_refused_by_example()
    ensures no_node { goal_fault [] (codes "c" ∷ codes "event" ∷ []) ≡ Some UnknownNode }
    ensures no_verdict { goal_fault [] (codes "reuse" ∷ codes "bad" ∷ []) ≡ Some UnknownWord }
    ensures verdict { goal_fault [] (codes "reuse" ∷ codes "broken" ∷ []) ≡ None }
    ensures any_verdict { goal_fault [] (codes "reuse" ∷ []) ≡ None }
    ensures verdict_before { words_fault [] (codes "reuse" ∷ codes "broken" ∷ []) ≡ Some UnknownNode }
    ensures no_verdict_before { words_fault [] (codes "reuse" ∷ codes "bad" ∷ []) ≡ Some UnknownWord }
{}

/// Each line of a trace has a second word that a goal may ask for.
#[tactic(auto, using(crate::proofs::GoalLemmas::each_is_told))]
pub fn goals_ask_for_each_line()
    ensures { (number : ℕ) (told : Told) → begins_told (told_words number told) ≡ true }
{}
