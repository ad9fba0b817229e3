//! Verdicts by example, and what is kept of liars, computed from the definitions. Each is the contract of a
//! function that does nothing.
ghost use Rattle.std.specs.Prelude.{◌≡◌, ◌+◌, ℕ, false, List, ◌∷◌, ◌++◌, [], Some, Ok};
ghost use Rattle.std.specs.declared.net.socket_addr.SocketAddrV4.{SocketAddrV4};
ghost use Rattle.someip_node_laws.specs.WorkedRun.{OffersEvent, WantsEvent};
ghost use Rattle.someip_node_rules.specs.declared.config.Config.{Config};
ghost use Rattle.someip_node_rules.specs.declared.output.Output.TheVariants.{Sent};
ghost use Rattle.someip_world_schedule.specs.declared.step.Step.TheVariants.{Inject};
ghost use Rattle.someip_world_setup.specs.GoodSetups.{Network};
ghost use Rattle.someip_world_rules.specs.LateAnswer.{answered_late, answered_late_lines, answered_late_trace};
ghost use Rattle.someip_world_rules.specs.Runs.{run_of, told_lines};
ghost use Rattle.someip_world_rules.specs.WorkedTrace.{a, b};
ghost use Rattle.someip_world_rules.specs.declared.reuse.Reuse.TheVariants.{Broken, Clean};
ghost use Rattle.someip_world_rules.specs.exchanges.CleanReuse.{IsVerdictOn};
ghost use Rattle.someip_world_verdict.specs.Booking.{arrived_with, booked, mute_note};
ghost use Rattle.someip_world_verdict.specs.Books.{Book, LifeKept, TakenKeys, is_breach};
ghost use Rattle.someip_world_verdict.specs.VerdictExamples.{IsOfTwo, IsVerdictThen};

/// A client calls, begins again, and makes a call with the key of the first. The answer of the first call breaks clean
/// reuse in the last step; the request of the second call in its place does not. The lines are those before the last
/// step, whatever that tells. And such a run there is: that of the old answer has just these lines, over nodes one of
/// which offers what the other wants, and in the last the client hands up the answer of the first call for the second.
pub fn verdicts_by_example()
    ensures old_answer { (network : Network) → IsOfTwo network
        → IsVerdictThen network.nodes (answered_late 4 b) answered_late_lines (Broken 9) }
    ensures old_answer_run { (network : Network) (two : IsOfTwo network)
        → OffersEvent two.first.config → WantsEvent two.second.config
        → (run_of network.nodes (two.first.config ∷ two.second.config ∷ []) (answered_late 4 b)
        ≡ Ok answered_late_trace)
        × IsVerdictOn network.nodes (answered_late 4 b) answered_late_trace (Broken 9) }
    ensures request_behind_the_answer { (network : Network) → IsOfTwo network
        → IsVerdictThen network.nodes (answered_late 3 a) answered_late_lines Clean }
{}

/// What a liar sends is kept as a datagram that says nothing, whatever its bytes: it takes no key, belongs to no
/// exchange, and no segment comes with it.
pub fn what_liars_send_is_kept_mute()
    ensures kept { (config : Config) (n place : ℕ) (node : List ℕ) (port : ℕ) (from to : SocketAddrV4)
        (bytes : List ℕ) (life : LifeKept) (book : Book)
        → booked config n place (Inject node port to bytes)
        (told_lines (n + 1) place (Ok (Sent from to bytes ∷ []))) life book
        ≡ record book { notes = book.notes ++ mute_note n ∷ [] } }
    ensures mute { (timeout : ℕ) (taken : TakenKeys) (life : LifeKept) (n : ℕ)
        → is_breach timeout taken life (mute_note n) ≡ false }
    ensures arrives { (life : LifeKept) (n : ℕ) → arrived_with (Some (mute_note n)) life ≡ life }
{}
