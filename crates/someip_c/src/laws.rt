//! What the definitions of a handle promise.
ghost use Rattle.std.specs.Prelude.{◌≡◌, ℕ, None, Some};
ghost use Rattle.someip_c_node.specs.Calls.{CNodeView};
ghost use Rattle.someip_c.specs.Handles.{Closes};

/// The end of a node is told as done (0), and that of a handle without one as closed (1).
pub fn closing_tells_whether_there_was_a_node()
    ensures held { (node : CNodeView) (number : ℕ) → Closes (Some node) number → number ≡ 0 }
    ensures empty { (number : ℕ) → Closes None number → number ≡ 1 }
{}
