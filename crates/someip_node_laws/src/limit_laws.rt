//! Laws of how much of what came a node holds. Each is the contract of a function that does nothing.
ghost use Rattle.someip_tp.specs.Wholes.{IsWithin};
ghost use Rattle.someip_node_rules.specs.histories.History.{History, answers_of};
ghost use Rattle.someip_node_rules.specs.forms.Setups.{limits_of};

/// Whatever a node met, it never holds more messages in part than it has slots, nor a byte of one at or
/// past the message limit.
pub fn held_parts_stay_within_limits()
    ensures { (h : History) → IsWithin (limits_of h.config) (answers_of h).parts }
{}
