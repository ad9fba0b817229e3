//! What came by the rules of a bench.
ghost use Rattle.std.specs.Prelude.{◌≡◌, ◌+◌, ◌<◌, ◌++◌, IfOk, OnErr, OnOk, slice_index};
ghost use Rattle.audit_rules.specs.Fitting.{weight_by};
ghost use Rattle.audit_rules.specs.Weighing.{exceeded, exceeded_by, exceeded_from, fails, number_as, weighed, weighed_as, weights_begun};

use crate::kind::KIND_COUNT;
use crate::rule::{Rule, Treatment};
use crate::rules::{MOST_RULES, Rules, Weight};
use std::alloc::{AllocError, Global};
use std::marker::Model;

/// More findings of a kind came by a rule than it allows.
#[derive(Clone, Copy, Debug, PartialEq, Eq)]
pub struct Exceeded {
    /// The Service ID of the rule, or any.
    pub service: Option<u16>,
    /// The Method ID or Event ID of the rule, or any.
    pub method: Option<u16>,
    /// The number of the kind.
    pub kind: usize,
    /// How many may come.
    pub most: usize,
    /// How many came.
    pub came: usize,
}

/// What came by the rules of a bench: how many findings count, how many are allowed, and how many came of which a
/// rule allows so many.
#[derive(Drop)]
pub struct WeightBook {
    rules: Rules,
    counting: usize,
    allowed: usize,
    bounded: Vec<usize>,
}

impl Model for WeightBook {
    ghost use Rattle.audit_rules.specs.Weighing.{Weights, coded_weights};

    ghost Value = { Weights };

    ghost coded = { coded_weights };

    ghost view = { λ w. record {
      rules = w.rules;
      counting = w.counting;
      allowed = w.allowed;
      bounded = w.bounded.items;
    } };
}

impl WeightBook {
    /// A book of these rules, before any finding came.
    pub fn new(alloc: Global, rules: &Rules) -> Result<WeightBook, AllocError>
        ensures { IfOk result (λ book. book ≡ weights_begun rules.now) }
    {
        let rules = rules.copy(alloc)?;
        let mut bounded = Vec::new(alloc);
        bounded.resize(rules.len() * KIND_COUNT, 0)?;
        Ok(WeightBook {
            rules,
            counting: 0,
            allowed: 0,
            bounded,
        })
    }

    /// One more finding of the kind with this number came, that names this service and this method, or none. The
    /// error is that as many came that weigh so as the machine can count.
    pub fn came(
        &mut self,
        kind: u8,
        service: Option<u16>,
        method: Option<u16>,
    ) -> Result<(), AllocError>
        ensures ok { OnOk result (self.new ≡ weighed kind service method self.old) }
        ensures err { OnErr result (self.new ≡ self.old) }
        ensures full { OnErr result (number_as (weight_by self.old.rules kind service method) self.old ≡ usize.MAX) }
    {
        match self.rules.weight(kind, service, method) {
            Weight::Counts => self.counting = one_more(self.counting)?,
            Weight::Allowed => self.allowed = one_more(self.allowed)?,
            Weight::Bounded(place) => {
                if let Some(number) = self.bounded.get_mut(place) {
                    *number = one_more(*number)?;
                }
            }
        }
        Ok(())
    }

    /// How many findings count.
    pub fn counting(&self) -> usize
        ensures { result ≡ self.now.counting }
    {
        self.counting
    }

    /// How many findings are allowed.
    pub fn allowed(&self) -> usize
        ensures { result ≡ self.now.allowed }
    {
        self.allowed
    }

    /// Whether what came fails: one finding counts, or more came of a kind than may.
    pub fn fails(&self, alloc: Global) -> Result<bool, AllocError>
        ensures { IfOk result (λ does. does ≡ fails self.now) }
    {
        let list = self.exceeded(alloc)?;
        Ok(self.counting > 0 || !list.is_empty())
    }

    /// Of which kinds more came by which rule than may: by the rules in their order, and of one rule by kind.
    pub fn exceeded(&self, alloc: Global) -> Result<Vec<Exceeded>, AllocError>
        ensures { IfOk result (λ list. list.items ≡ exceeded self.now) }
    {
        let mut list = Vec::new(alloc);
        for (number, rule) in self.rules.as_slice().iter().enumerate() {
            add_exceeded(&mut list, rule, &self.bounded, number)?;
        }
        Ok(list)
    }
}

/// Adds of which kinds more came than may by the rule with this number.
fn add_exceeded(
    list: &mut Vec<Exceeded>,
    rule: &Rule,
    bounded: &[usize],
    number: usize,
) -> Result<(), AllocError>
    requires { number < MOST_RULES }
    ensures { OnOk result (list.new.items
        ≡ list.old.items ++ exceeded_from rule.now bounded.now number 0 rule.now.treatments) }
{
    for (kind, treatment) in rule.treatments.iter().enumerate() {
        let came = number_at(bounded, number * KIND_COUNT + kind);
        add_one(list, rule, kind, came, *treatment)?;
    }
    Ok(())
}

/// Adds a kind of which so many came, if more came than may.
fn add_one(
    list: &mut Vec<Exceeded>,
    rule: &Rule,
    kind: usize,
    came: usize,
    treatment: Treatment,
) -> Result<(), AllocError>
    ensures { OnOk result (list.new.items ≡ list.old.items ++ exceeded_by rule.now kind came treatment) }
{
    match treatment {
        Treatment::AtMost(most) if most < came => {
            list.push(Exceeded {
                service: rule.service,
                method: rule.method,
                kind,
                most,
                came,
            })?;
        }
        _ => {}
    }
    Ok(())
}

/// The number at a place, or 0.
fn number_at(numbers: &[usize], place: usize) -> usize
    ensures { result ≡ slice_index numbers.now place }
{
    match numbers.get(place) {
        Some(number) => *number,
        None => 0,
    }
}

/// The next number, if there is room for it.
fn one_more(number: usize) -> Result<usize, AllocError>
    ensures next { IfOk result (λ next. next ≡ number + 1) }
    ensures full { OnErr result (number ≡ usize.MAX) }
{
    number.checked_add(1).ok_or(AllocError)
}
