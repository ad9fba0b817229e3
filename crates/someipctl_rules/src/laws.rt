//! What texts say, by example. Each law is the contract of a function that does nothing.
ghost use Rattle.std.specs.Prelude.{◌≡◌, [], None, Some, codes, map, pos, replicate};
ghost use Rattle.audit_rules.specs.Kinds.{all_kinds, kind_words};
ghost use Rattle.audit_rules.specs.declared.rule.Treatment.TheVariants.{Counts};
ghost use Rattle.someipctl_rules.specs.Saying.{rules_in, rules_said};
ghost use Rattle.someipctl_rules.specs.Scenes.{allowing, both, bounding, file_of, keyed, late_allowed, three_late, treating};
ghost use Rattle.someipctl_rules.specs.Treating.{all_words};
ghost use Rattle.toml.specs.Data.{integer, no_members, table};

/// A text that is no TOML says no rules.
pub fn what_is_no_toml_says_nothing()
    ensures { rules_said None ≡ None }
{}

/// The words that `allow` and `at_most` may name are those of the kinds of findings.
pub fn all_kinds_can_be_named()
    ensures { all_words ≡ map kind_words all_kinds }
{}

/// What trees say, by example: none, one rule by which each finding counts, one that allows a kind, and one that
/// bounds it, though it allows it too. A method without a service, a kind that there is not and an unknown key say
/// nothing.
pub fn what_trees_say()
    ensures nothing { rules_in (table no_members) ≡ Some [] }
    ensures each { rules_in (file_of (table no_members)) ≡ Some (treating (replicate 28 Counts)) }
    ensures allowed { rules_in (file_of (allowing (codes "late"))) ≡ Some (treating late_allowed) }
    ensures bounded { rules_in (file_of (bounding (codes "late") 3)) ≡ Some (treating three_late) }
    ensures both { rules_in (file_of (both (codes "late"))) ≡ Some (treating three_late) }
    ensures method_alone { rules_in (file_of (keyed (codes "method") (integer (pos 1)))) ≡ None }
    ensures unknown_kind { rules_in (file_of (allowing (codes "lat"))) ≡ None }
    ensures unknown_bound { rules_in (file_of (bounding (codes "lat") 3)) ≡ None }
    ensures unknown_key { rules_in (file_of (keyed (codes "zoo") (integer (pos 1)))) ≡ None }
    ensures no_service { rules_in (file_of (keyed (codes "service") (integer (pos 0x10000)))) ≡ None }
{}
