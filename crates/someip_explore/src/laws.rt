//! Laws of runs and schedules. Each is the contract of a function that does nothing.
ghost use Rattle.std.specs.Prelude.{◌≡◌, ◌≤◌, ◌++◌, [], ◌∷◌, ℕ, true, false, List, codes, length, slice_get, Result, Ok, Err, Some, None};
ghost use Rattle.std.specs.List.{Contains};
ghost use Rattle.std.specs.Option.{option_map};
ghost use Rattle.someip_world_schedule.specs.declared.step.Step.{Step};
ghost use Rattle.someip_world_schedule.specs.declared.step.Step.TheVariants.{Restart, Tick};
ghost use Rattle.someip_world_schedule.specs.Steps.{step_of_words};
ghost use Rattle.someip_world_setup.specs.declared.setup_node.SetupNode.{SetupNode};
ghost use Rattle.someip_world_rules.specs.declared.error.RunError.{RunError};
ghost use Rattle.someip_world_rules.specs.declared.line.Line.{Line};
ghost use Rattle.someip_node_rules.specs.histories.History.{History};
ghost use Rattle.someip_world_schedule.specs.StepNodes.{node_of};
ghost use Rattle.someip_world_rules.specs.Runs.{ComesTo, World, happens, place_of};
ghost use Rattle.someip_world_rules.specs.declared.step_fault.StepFault.{StepFault};
ghost use Rattle.someip_world_rules.specs.declared.step_fault.StepFault.TheVariants.{UnknownNode};
ghost use Rattle.someip_world_rules.specs.declared.reuse.Reuse.{Reuse};
ghost use Rattle.someip_world_rules.specs.declared.reuse.Reuse.TheVariants.{Broken, Clean};
ghost use Rattle.someip_world_rules.specs.exchanges.CleanReuse.{IsVerdictOn};
ghost use Rattle.someip_explore.specs.declared.moves.Move.{Move};
ghost use Rattle.someip_explore.specs.declared.moves.Move.TheVariants.{AnswerAny, DeliverAny, DeliverAnyTo, Plain};
ghost use Rattle.someip_explore.specs.GoalExamples.{ack_dropped, broken_reuse, three_lines, told_as};
ghost use Rattle.someip_explore.specs.Goals.{begins_with, reaches, run_reaches};
ghost use Rattle.someip_explore.specs.Misfits.{misfit, step_misfit};
ghost use Rattle.someip_explore.specs.MoveExamples.{answer_with, requests, steps_with};
ghost use Rattle.someip_explore.specs.MoveWords.{move_of_words};
ghost use Rattle.someip_explore.specs.Moves.{next_steps, numbers_to, stands_for};
ghost use Rattle.someip_explore.specs.Search.{MayGoOn, up_to};
ghost use Rattle.someip_explore.specs.Traces.{trace_of, verdict_of};
ghost use Rattle.someip_explore.specs.Watching.{millions_to};

use someip_world::run_laws::all_that_a_setup_gives_fits;
use someip_world::{Setup, Step};

/// One schedule has one trace, or one first bad step: whatever it comes to over copies of the configurations
/// of a setup, it comes to over these themselves.
pub fn one_schedule_has_one_trace()
    ensures one { (nodes : List SetupNode) (steps : List Step) (a b : Result (List Line) RunError)
        → ComesTo nodes steps a → ComesTo nodes steps b → a ≡ b }
    ensures is { (nodes : List SetupNode) (steps : List Step) → ComesTo nodes steps (trace_of nodes steps) }
{}

/// One schedule has one verdict: whether it reuses the keys of its exchanges cleanly, or the first step that
/// breaks that.
pub fn one_schedule_has_one_verdict()
    ensures { (nodes : List SetupNode) (steps : List Step) (lines : List Line) (a b : Reuse)
        → trace_of nodes steps ≡ Ok lines → IsVerdictOn nodes steps lines a
        → IsVerdictOn nodes steps lines b → a ≡ b }
{}

/// That verdict is `verdict_of`, over the nodes of a setup.
pub fn verdicts_are_told(setup: &Setup, steps: &[Step])
    ensures { (lines : List Line) → IsVerdictOn setup.now.nodes steps.now lines
        (verdict_of setup.now.nodes steps.now lines) }
{
    let _nodes = setup.nodes();
    all_that_a_setup_gives_fits(setup, steps);
}

/// The schedules that are tried are exactly those that begin so and go on by at most so many steps, each of
/// which a move stands for after what is before it.
pub fn every_schedule_is_tried()
    ensures all { (nodes : List SetupNode) (moves : List Move) (count : ℕ) (beginning more : List Step)
        → length more ≤ count → MayGoOn (next_steps nodes moves) beginning more
        → Contains (up_to (next_steps nodes moves) count beginning) (beginning ++ more) }
    ensures only { (nodes : List SetupNode) (moves : List Move) (count : ℕ) (beginning schedule : List Step)
        → Contains (up_to (next_steps nodes moves) count beginning) schedule
        → (more : List Step) × (schedule ≡ beginning ++ more) × (length more ≤ count)
        × MayGoOn (next_steps nodes moves) beginning more }
{}

/// A schedule that begins with a bad one is bad, by the same step: so nothing is lost where none goes on behind
/// a bad step.
pub fn bad_beginnings_stay_bad()
    ensures { (nodes : List SetupNode) (beginning more : List Step) (error : RunError)
        → trace_of nodes beginning ≡ Err error → trace_of nodes (beginning ++ more) ≡ Err error }
{}

/// A step that does not fit the nodes of a setup can't happen in any world over them, and is bad by the fault
/// that tells why it does not fit. A move that does not fit stands for such steps alone.
pub fn misfits_can_not_happen()
    ensures unknown { (nodes : List SetupNode) (index : ℕ) (w : World) (s : Step)
        → place_of nodes (node_of s) ≡ None
        → (step_misfit nodes s ≡ Some UnknownNode) × (happens nodes index w s ≡ Err UnknownNode) }
    ensures known { (nodes : List SetupNode) (index : ℕ) (w : World) (s : Step) (place : ℕ) (h : History)
        (fault : StepFault) → place_of nodes (node_of s) ≡ Some place
        → slice_get w.histories place ≡ Some h → step_misfit nodes s ≡ Some fault
        → happens nodes index w s ≡ Err fault }
    ensures moves { (nodes : List SetupNode) (steps : List Step) (lines : List Line) (move : Move)
        (fault : StepFault) (s : Step) → misfit nodes move ≡ Some fault
        → Contains (stands_for nodes steps lines move) s → step_misfit nodes s ≡ Some fault }
{}

/// Example: of two numbers by which each list goes on, those lists with at most two, in order.
pub fn orders_by_example()
    ensures { up_to {S = ℕ} (λ before. 1 ∷ 2 ∷ []) 2 []
        ≡ [] ∷ (1 ∷ []) ∷ (2 ∷ []) ∷ (1 ∷ 1 ∷ []) ∷ (1 ∷ 2 ∷ []) ∷ (2 ∷ 1 ∷ []) ∷ (2 ∷ 2 ∷ []) ∷ [] }
{}

/// Examples: a step stands for itself, and `deliver * a` for nothing where nothing was sent. An answer with a star
/// stands for one to each token since the last restart, and for none to a request without a token.
pub fn moves_by_example()
    ensures plain { (lines : List Line)
        → stands_for [] [] lines (Plain (Tick (codes "a") 5)) ≡ Tick (codes "a") 5 ∷ [] }
    ensures none { stands_for [] [] three_lines (DeliverAnyTo (codes "a")) ≡ [] }
    ensures numbers { numbers_to 3 ≡ 1 ∷ 2 ∷ 3 ∷ [] }
    ensures restarted { stands_for [] (steps_with (Restart [] 10)) requests (AnswerAny (answer_with 0))
        ≡ answer_with 1 ∷ [] }
    ensures lives_on { stands_for [] (steps_with (Tick [] 10)) requests (AnswerAny (answer_with 0))
        ≡ answer_with 1 ∷ answer_with 2 ∷ answer_with 1 ∷ [] }
    ensures other_restarted { stands_for [] (steps_with (Restart (codes "b") 10)) requests (AnswerAny (answer_with 0))
        ≡ answer_with 1 ∷ answer_with 2 ∷ answer_with 1 ∷ [] }
{}

/// Examples: the words of a move with a star, and of others.
pub fn moves_are_read_by_example()
    ensures to_one { move_of_words (codes "deliver" ∷ codes "*" ∷ codes "a" ∷ [])
        ≡ Some (DeliverAnyTo (codes "a")) }
    ensures to_all { move_of_words (codes "deliver" ∷ codes "*" ∷ codes "*" ∷ []) ≡ Some DeliverAny }
    ensures one_to_all { move_of_words (codes "deliver" ∷ codes "1" ∷ codes "*" ∷ []) ≡ None }
    ensures tick_any { move_of_words (codes "tick" ∷ codes "*" ∷ codes "5" ∷ []) ≡ None }
    ensures answer { move_of_words (codes "answer" ∷ codes "a" ∷ codes "*" ∷ codes "00" ∷ codes "-" ∷ [])
        ≡ option_map AnswerAny (step_of_words
        (codes "answer" ∷ codes "a" ∷ codes "0" ∷ codes "00" ∷ codes "-" ∷ [])) }
    ensures answer_of_any { move_of_words
        (codes "answer" ∷ codes "*" ∷ codes "*" ∷ codes "00" ∷ codes "-" ∷ []) ≡ None }
{}

/// Examples: of which numbers of schedules a watcher hears.
pub fn watchers_hear_by_example()
    ensures none { millions_to 999999 ≡ [] }
    ensures one { millions_to 1000000 ≡ 1000000 ∷ [] }
    ensures two { millions_to 2999999 ≡ 1000000 ∷ 2000000 ∷ [] }
{}

/// Examples: in a trace of three lines an Ack is dropped in the second step, after an instance was gone. Lines
/// of the beginning don't count for the goal, but they do for what was told before. A line has words that are
/// its first ones, and no others. The verdict stands behind all lines, also those of the beginning.
pub fn goals_by_example()
    ensures reached { reaches [] (ack_dropped [] []) 0 three_lines ≡ true }
    ensures reached_later { reaches [] (ack_dropped [] []) 1 three_lines ≡ true }
    ensures in_the_beginning { reaches [] (ack_dropped [] []) 2 three_lines ≡ false }
    ensures once { reaches [] (ack_dropped (told_as (codes "gone" ∷ []) ∷ []) []) 1 three_lines ≡ true }
    ensures not_once { reaches [] (ack_dropped (told_as (codes "known" ∷ []) ∷ []) []) 0 three_lines ≡ false }
    ensures never { reaches [] (ack_dropped [] (told_as (codes "gone" ∷ []) ∷ [])) 1 three_lines ≡ false }
    ensures not_before { reaches [] (ack_dropped [] (told_as (codes "dropped" ∷ []) ∷ [])) 0 three_lines ≡ true }
    ensures front { begins_with (codes "b" ∷ codes "gone" ∷ [])
        (codes "b" ∷ codes "gone" ∷ codes "1111.0001" ∷ []) ≡ true }
    ensures no_front { begins_with (codes "gone" ∷ []) (codes "b" ∷ codes "gone" ∷ []) ≡ false }
    ensures broken { run_reaches [] (broken_reuse [] []) 3 three_lines (Broken 2) ≡ true }
    ensures clean { run_reaches [] (broken_reuse [] []) 3 three_lines Clean ≡ false }
    ensures broken_once { run_reaches [] (broken_reuse (told_as (codes "gone" ∷ []) ∷ []) []) 3 three_lines
        (Broken 2) ≡ true }
    ensures broken_never { run_reaches [] (broken_reuse [] (told_as (codes "gone" ∷ []) ∷ [])) 3 three_lines
        (Broken 2) ≡ false }
    ensures no_part { begins_with (codes "b" ∷ codes "gon" ∷ []) (codes "b" ∷ codes "gone" ∷ []) ≡ false }
{}
