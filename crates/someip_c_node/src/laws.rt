//! What the numbers tell.
ghost use Rattle.std.specs.Prelude.{◌≡◌, ◌≢◌, None, Some};
ghost use Rattle.someip_rpc.specs.declared.error.RpcError.TheVariants as rpc;
ghost use Rattle.someip_node_rules.specs.declared.error.NodeError.{NodeError};
ghost use Rattle.someip_node_rules.specs.declared.error.NodeError.TheVariants as refusal;
ghost use Rattle.someip_c_node.specs.Outcomes.{IsToldAs, number_of, outcome_of, refusal_outcome, refusal_text};
ghost use Rattle.someip_c_node.specs.declared.outcome.Outcome.{Outcome};
ghost use Rattle.someip_c_node.specs.declared.outcome.Outcome.TheVariants as told;

/// The number of an outcome tells it.
pub fn numbers_tell_outcomes()
    ensures { (outcome : Outcome) → outcome_of (number_of outcome) ≡ Some outcome }
{}

/// What no call of a started node is refused as has no outcome, and the numbers that it had in earlier
/// headers tell nothing.
pub fn what_no_call_is_refused_as_has_no_number()
    ensures config { refusal_outcome refusal.BadConfig ≡ None }
    ensures pending { refusal_outcome (refusal.Rpc rpc.NotPending) ≡ None }
    ensures was_config { outcome_of 15 ≡ None }
    ensures was_pending { outcome_of 25 ≡ None }
{}

/// A node that failed before is told by another number than one whose memory runs out in this call.
pub fn a_node_that_failed_is_told_apart()
    ensures failed { refusal_outcome refusal.Failed ≡ Some told.Failed }
    ensures memory { refusal_outcome refusal.OutOfMemory ≡ Some told.OutOfMemory }
    ensures numbers { number_of told.Failed ≢ number_of told.OutOfMemory }
{}

/// What is told of a refusal is the line that `someipctl run` has of it, in the words of a trace.
pub fn a_refusal_is_told_as_in_a_trace()
    ensures { (error : NodeError) (outcome : Outcome) → refusal_outcome error ≡ Some outcome
        → IsToldAs error outcome (refusal_text outcome) }
{}
