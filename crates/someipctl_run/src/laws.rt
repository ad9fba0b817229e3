//! What the definitions of traces promise.
ghost use Rattle.std.specs.Prelude.{◌≡◌, ℕ, List, Option, None, Some, codes};
ghost use Rattle.someip_world_rules.specs.declared.line.Line.{Line};
ghost use Rattle.someip_world_rules.specs.declared.reuse.Reuse.{Reuse};
ghost use Rattle.someip_world_rules.specs.declared.reuse.Reuse.TheVariants as verdicts;
ghost use Rattle.someip_world_setup.specs.declared.setup_node.SetupNode.{SetupNode};
ghost use Rattle.someipctl_io.specs.JsonTexts.{json_text};
ghost use Rattle.someipctl_io.specs.ToldLines.{line_json};
ghost use Rattle.someipctl_io.specs.declared.form.Form.TheVariants as forms;
ghost use Rattle.someipctl_run.specs.ToldExamples.{second_step, second_step_on_its_line, two_bytes, unanswered};
ghost use Rattle.someipctl_run.specs.ToldOutputs.{output_told};
ghost use Rattle.someipctl_run.specs.ToldTraces.{reuse_text, reuse_told, trace_line, verdict_head, whole_trace};
ghost use Rattle.someipctl_run.specs.Traces.{marked_line, marked_trace, marked_verdict};
ghost use Rattle.someipctl_run.specs.Laws.{FormsTellOneTrace, MemoryRefusesNoSetup, StepsStandOnTheirLines};

/// A trace with the lines of its schedule is the trace, but for the first word of each line.
pub fn forms_tell_one_trace()
    ensures { FormsTellOneTrace }
{}

/// Each step stands on the line that is told of it: that line spells it.
pub fn steps_stand_on_their_lines()
    ensures { StepsStandOnTheirLines }
{}

/// That memory ran out is never told as a fault of the setup, which may be good.
pub fn memory_refuses_no_setup()
    ensures { MemoryRefusesNoSetup }
{}

/// A plain trace is the plain form of what is told: each line, with the line of the schedule or without, and the
/// verdict. Its objects are made of the same.
pub fn a_plain_trace_tells_the_same()
    ensures line { (step_lines : Option (List ℕ)) (nodes : List SetupNode) (k : ℕ) (line : Line)
        → trace_line forms.Plain step_lines nodes k line ≡ marked_line step_lines nodes k line }
    ensures verdict { (step_lines : Option (List ℕ)) (verdict : Reuse)
        → reuse_text forms.Plain step_lines verdict ≡ marked_verdict step_lines verdict }
    ensures trace { (step_lines : Option (List ℕ)) (nodes : List SetupNode) (lines : List Line) (verdict : Reuse)
        → whole_trace forms.Plain step_lines nodes lines verdict ≡ marked_trace step_lines nodes lines verdict }
{}

/// Rows that are worked out by hand: a datagram, a request that waits for no answer, and the verdict.
pub fn what_objects_of_a_trace_say()
    ensures sent { json_text (line_json second_step (output_told 7 two_bytes))
        ≡ codes "{\"kind\":\"sent\",\"step\":2,\"node\":\"b\",\"datagram\":7,\"from\":\"192.168.0.2:40001\",\"to\":\"192.168.0.1:30509\",\"payload\":\"1234\"}" }
    ensures request { json_text (line_json second_step_on_its_line (output_told 7 unanswered))
        ≡ codes "{\"kind\":\"request\",\"step\":2,\"node\":\"b\",\"line\":4,\"token\":null,\"service\":\"1111\",\"instance\":\"0001\",\"method\":\"0421\",\"payload\":\"\"}" }
    ensures clean { json_text (line_json (verdict_head None) (reuse_told verdicts.Clean))
        ≡ codes "{\"kind\":\"reuse\",\"result\":\"clean\"}" }
    ensures broken { (step_lines : List ℕ)
        → json_text (line_json (verdict_head (Some step_lines)) (reuse_told (verdicts.Broken 5)))
        ≡ codes "{\"kind\":\"reuse\",\"line\":null,\"result\":\"broken\",\"at\":5}" }
{}
