//! A run by example: the trace of two nodes, computed from the definitions. Each is the contract of a
//! function that does nothing.
ghost use Rattle.std.specs.Prelude.{◌≡◌, true, [], ◌∷◌, Ok, Err};
ghost use Rattle.someip_node_laws.specs.WorkedRun.{OffersEvent, WantsEvent};
ghost use Rattle.someip_node_rules.specs.declared.config.Config.{Config};
ghost use Rattle.someip_node_rules.specs.forms.GoodConfigs.{is_good_delay};
ghost use Rattle.someip_world_schedule.specs.declared.step.Step.TheVariants.{Deliver};
ghost use Rattle.someip_world_setup.specs.declared.setup_node.SetupNode.{SetupNode};
ghost use Rattle.someip_world_rules.specs.declared.error.RunError.TheVariants.{BadStep};
ghost use Rattle.someip_world_rules.specs.declared.step_fault.StepFault.TheVariants.{NoSuchDatagram};
ghost use Rattle.someip_world_rules.specs.LateAnswer.{answered_late, answered_late_trace};
ghost use Rattle.someip_world_rules.specs.Runs.{run_of};
ghost use Rattle.someip_world_rules.specs.WorkedTrace.{AreNamed, b, schedule, trace};

/// A schedule over two nodes, one of which offers an instance: the trace of its eleven steps has just these
/// lines, with each datagram to the byte. A delivery before anything was sent is a bad step. In another run, whose
/// client may begin again with the delay of its start, the answer of a call comes when the client has begun again
/// and made a second one of the same session: it hands that answer up for the second call.
pub fn traces_by_example()
    ensures trace { (first second : SetupNode) (own other : Config) → AreNamed first second
        → OffersEvent own → WantsEvent other
        → run_of (first ∷ second ∷ []) (own ∷ other ∷ []) schedule ≡ Ok trace }
    ensures bad_step { (first second : SetupNode) (own other : Config) → AreNamed first second
        → OffersEvent own → WantsEvent other
        → run_of (first ∷ second ∷ []) (own ∷ other ∷ []) (Deliver 1 b ∷ [])
        ≡ Err (BadStep 1 NoSuchDatagram) }
    ensures late_answer { (first second : SetupNode) (own other : Config) → AreNamed first second
        → OffersEvent own → WantsEvent other → is_good_delay other 10 ≡ true
        → run_of (first ∷ second ∷ []) (own ∷ other ∷ []) (answered_late 4 b) ≡ Ok answered_late_trace }
{}
