//! Laws of the definitions behind the contracts, by example. Each is the contract of a function that does
//! nothing.
ghost use Rattle.std.specs.Prelude.{◌≡◌, ◌<◌, ◌*◌, ℕ, List, [], ◌∷◌, length, slice_index, true, false, None, Some};
ghost use Rattle.audit_rules.specs.Fitting.{answer_ms_by, cycle_ms_by, first_that_fits, weight_by};
ghost use Rattle.audit_rules.specs.Kinds.{kind_number};
ghost use Rattle.audit_rules.specs.Scenes.{came, lenient, of_service, strict};
ghost use Rattle.audit_rules.specs.Weighing.{NamedFinding, all_weighed, count_of, does_count, exceeded, fails};
ghost use Rattle.audit_rules.specs.Weighing.{is_allowed, is_any, is_counted_at, weights_begun};
ghost use Rattle.audit_rules.specs.declared.rule.Rule.{Rule};
ghost use Rattle.audit_rules.specs.declared.kind.Kind.TheVariants.{EventGap, Late, Reboot, Unanswered};
ghost use Rattle.audit_rules.specs.declared.rules.Weight.TheVariants.{Allowed, Bounded, Counts};

/// Which rule counts, by example: the first that fits. One of a service fits each of its methods, and what names
/// none; one without a service fits all, also what names none.
pub fn the_first_rule_that_fits_counts()
    ensures method { first_that_fits (Some 0x1234) (Some 0x0421) of_service ≡ Some 0 }
    ensures other_method { first_that_fits (Some 0x1234) (Some 0x0422) of_service ≡ Some 1 }
    ensures no_method { first_that_fits (Some 0x1234) None of_service ≡ Some 1 }
    ensures other_service { first_that_fits (Some 0x1235) (Some 0x0421) of_service ≡ None }
    ensures nothing { first_that_fits None None of_service ≡ None }
    ensures any { first_that_fits (Some 0x1235) (Some 0x0421) (strict None None ∷ []) ≡ Some 0 }
    ensures any_nothing { first_that_fits None None (strict None None ∷ []) ≡ Some 0 }
    ensures first { first_that_fits (Some 0x1234) (Some 0x0421) (lenient None None ∷ of_service) ≡ Some 0 }
{}

/// What findings weigh, by example: by the first rule that fits, though a later one allows them.
pub fn findings_weigh_by_the_first_rule()
    ensures allowed { weight_by of_service (kind_number Late) (Some 0x1234) (Some 0x0422) ≡ Allowed }
    ensures bounded { weight_by of_service (kind_number EventGap) (Some 0x1234) (Some 0x0422) ≡ Bounded 44 }
    ensures other_kind { weight_by of_service (kind_number Unanswered) (Some 0x1234) (Some 0x0422) ≡ Counts }
    ensures strict_first { weight_by of_service (kind_number Late) (Some 0x1234) (Some 0x0421) ≡ Counts }
    ensures no_rule { weight_by of_service (kind_number Late) (Some 0x1235) (Some 0x0422) ≡ Counts }
    ensures nothing { weight_by of_service (kind_number Reboot) None None ≡ Counts }
{}

/// How long an answer may take, by example: as the first rule that fits says, though a later one says so.
pub fn answers_may_take_so_long()
    ensures said { answer_ms_by of_service 0x1234 0x0422 ≡ Some 5000 }
    ensures unsaid { answer_ms_by of_service 0x1234 0x0421 ≡ None }
    ensures no_rule { answer_ms_by of_service 0x1235 0x0422 ≡ None }
{}

/// How long after an event the next one is to come, by example: as the first rule that fits says.
pub fn events_come_so_often()
    ensures said { cycle_ms_by of_service 0x1234 0x0422 ≡ Some 100 }
    ensures unsaid { cycle_ms_by of_service 0x1234 0x0421 ≡ None }
    ensures no_rule { cycle_ms_by of_service 0x1235 0x0422 ≡ None }
{}

/// What fails, by example: a finding that counts, and more of a kind than may come. As many as may come do not, nor
/// do those that are allowed.
pub fn what_came_fails_by_example()
    ensures nothing { fails (weights_begun of_service) ≡ false }
    ensures as_many { fails (came 3 EventGap (weights_begun of_service)) ≡ false }
    ensures more { fails (came 4 EventGap (weights_begun of_service)) ≡ true }
    ensures which { exceeded (came 4 EventGap (weights_begun of_service))
        ≡ record { service = Some 0x1234; method = None; kind = 16; most = 3; came = 4 } ∷ [] }
    ensures allowed { fails (came 9 Late (weights_begun of_service)) ≡ false }
    ensures how_many { (came 9 Late (weights_begun of_service)).allowed ≡ 9 }
    ensures counts { fails (came 1 Unanswered (weights_begun of_service)) ≡ true }
    ensures no_rules { fails (came 1 Late (weights_begun [])) ≡ true }
{}

/// Without rules any finding fails the audit, and nothing else does.
pub fn without_rules_any_finding_fails()
    ensures { (came : List NamedFinding) → fails (all_weighed came (weights_begun [])) ≡ is_any came }
{}

/// A book has counted, of all findings that came, those that count, those that are allowed, and at each place those
/// that are counted there.
pub fn what_came_is_counted()
    ensures counting { (rules : List Rule) (came : List NamedFinding)
        → (all_weighed came (weights_begun rules)).counting ≡ count_of rules does_count came }
    ensures allowed { (rules : List Rule) (came : List NamedFinding)
        → (all_weighed came (weights_begun rules)).allowed ≡ count_of rules is_allowed came }
    ensures bounded { (rules : List Rule) (came : List NamedFinding) (place : ℕ) → place < length rules * 28
        → slice_index (all_weighed came (weights_begun rules)).bounded place ≡ count_of rules (is_counted_at place) came }
{}
