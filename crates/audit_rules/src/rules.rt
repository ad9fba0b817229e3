//! The rules of a bench.
ghost use Rattle.std.specs.Prelude.{◌≡◌, ◌<◌, ◌≤◌, IfNone, IfOk, IfSome, [], length};
ghost use Rattle.audit_rules.specs.Fitting.{answer_ms_by, cycle_ms_by, first_that_fits, weight_by, weight_in};

use crate::kind::KIND_COUNT;
use crate::rule::{Rule, Treatment};
use std::alloc::{AllocError, Global};
use std::marker::Model;

/// How many rules there may be.
pub const MOST_RULES: usize = 256;

/// What a finding weighs.
#[derive(Clone, Copy, Debug, PartialEq, Eq)]
pub enum Weight {
    /// It counts for the exit status.
    Counts,
    /// It is allowed.
    Allowed,
    /// A rule allows only so many of its kind. They are counted at this place: 28 times the number of the rule,
    /// from 0, and the number of the kind.
    Bounded(usize),
}

/// The rules of a bench, in their order. The first that fits counts.
#[derive(Drop)]
pub struct Rules {
    rules: Vec<Rule>,
}

impl Model for Rules {
    ghost use Rattle.std.specs.Prelude.{◌≤◌, List, length};
    ghost use Rattle.audit_rules.specs.declared.rule.Rule.{Rule};
    ghost use Rattle.audit_rules.specs.RuleCodes.{coded_rules};

    ghost Value = { List Rule };

    ghost coded = { coded_rules };

    ghost view = { λ r. r.rules.items };

    ghost invariant = { λ r. length r.rules.items ≤ 256 };
}

impl Rules {
    /// No rules: each finding counts. It takes no memory.
    pub fn none(alloc: Global) -> Rules
        ensures { result ≡ [] }
    {
        Rules {
            rules: Vec::new(alloc),
        }
    }

    /// These rules, where there are no more than 256.
    pub fn of(rules: Vec<Rule>) -> Option<Rules>
        ensures few { IfSome result (λ r. r ≡ rules.items) }
        ensures many { IfNone result (256 < length rules.items) }
    {
        if rules.len() <= MOST_RULES {
            Some(Rules { rules })
        } else {
            None
        }
    }

    /// How many rules there are: at most 256.
    pub fn len(&self) -> usize
        ensures count { result ≡ length self.now }
        ensures few { result ≤ MOST_RULES }
    {
        self.rules.len()
    }

    /// The rules, in their order.
    pub fn as_slice(&self) -> &[Rule]
        ensures rules { result.now ≡ self.now }
        ensures few { length result.now ≤ MOST_RULES }
    {
        self.rules.as_slice()
    }

    /// The number, from 0, of the first rule that fits what names this service and this method, or none.
    pub fn first(&self, service: Option<u16>, method: Option<u16>) -> Option<usize>
        ensures first { result ≡ first_that_fits service method self.now }
        ensures among { IfSome result (λ number. number < length self.now) }
    {
        first_of(&self.rules, service, method)
    }

    /// How many milliseconds an answer to such a REQUEST may take, if the rules say so.
    pub fn answer_ms(&self, service: u16, method: u16) -> Option<u32>
        ensures { result ≡ answer_ms_by self.now service method }
    {
        let number = self.first(Some(service), Some(method))?;
        self.rules[number].answer_ms
    }

    /// How many milliseconds after such an event the next one is to come, if the rules say so.
    pub fn cycle_ms(&self, service: u16, event: u16) -> Option<u32>
        ensures { result ≡ cycle_ms_by self.now service event }
    {
        let number = self.first(Some(service), Some(event))?;
        self.rules[number].cycle_ms
    }

    /// What a finding of the kind with this number weighs that names this service and this method, or none.
    pub fn weight(&self, kind: u8, service: Option<u16>, method: Option<u16>) -> Weight
        ensures { result ≡ weight_by self.now kind service method }
    {
        let Some(number) = self.first(service, method) else {
            return Weight::Counts;
        };
        match self.rules[number].treatments.get(usize::from(kind)) {
            Some(treatment) => weight_of(*treatment, number, kind),
            None => Weight::Counts,
        }
    }

    /// The same rules.
    pub fn copy(&self, alloc: Global) -> Result<Rules, AllocError>
        ensures { IfOk result (λ rules. rules ≡ self.now) }
    {
        let mut rules = Vec::new(alloc);
        rules.extend_from_slice(&self.rules)?;
        Ok(Rules { rules })
    }
}

/// What a finding of a kind weighs that the rule with this number treats so.
fn weight_of(treatment: Treatment, number: usize, kind: u8) -> Weight
    requires { number < MOST_RULES }
    ensures { result ≡ weight_in number kind treatment }
{
    match treatment {
        Treatment::Counts => Weight::Counts,
        Treatment::Allowed => Weight::Allowed,
        Treatment::AtMost(_) => Weight::Bounded(number * KIND_COUNT + usize::from(kind)),
    }
}

/// The number of the first of these rules that fits.
fn first_of(rules: &[Rule], service: Option<u16>, method: Option<u16>) -> Option<usize>
    ensures first { result ≡ first_that_fits service method rules.now }
    ensures among { IfSome result (λ number. number < length rules.now) }
{
    for (i, rule) in rules.iter().enumerate() {
        if rule.fits(service, method) {
            return Some(i);
        }
    }
    None
}
