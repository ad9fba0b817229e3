//! One rule.
ghost use Rattle.std.specs.Prelude.{◌≡◌};
ghost use Rattle.audit_rules.specs.Fitting.{fits, is_named};

use crate::kind::KIND_COUNT;

/// How a rule takes the findings of a kind.
#[derive(Clone, Copy, Debug, PartialEq, Eq)]
pub enum Treatment {
    /// Each counts for the exit status.
    Counts,
    /// Each is told as allowed, and counts for nothing.
    Allowed,
    /// So many may come. They count once more came.
    AtMost(usize),
}

/// A rule: whose findings it is about, and how it takes them.
#[derive(Clone, Copy, Debug, PartialEq, Eq)]
pub struct Rule {
    /// The Service ID of the findings, or any, and those that name none.
    pub service: Option<u16>,
    /// The Method ID or Event ID of the findings, or any, and those that name none.
    pub method: Option<u16>,
    /// How many milliseconds an answer to a REQUEST may take, if the rule says so.
    pub answer_ms: Option<u32>,
    /// How many milliseconds after an event the next one is to come, if the rule says so.
    pub cycle_ms: Option<u32>,
    /// How findings of each kind are taken, by the number of the kind.
    pub treatments: [Treatment; KIND_COUNT],
}

impl Rule {
    /// Whether the rule is about what names this service and this method, or none.
    pub fn fits(&self, service: Option<u16>, method: Option<u16>) -> bool
        ensures { result ≡ fits service method self.now }
    {
        is_named(self.service, service) && is_named(self.method, method)
    }
}

/// Whether an ID is named as a rule asks for it.
fn is_named(asked: Option<u16>, named: Option<u16>) -> bool
    ensures { result ≡ is_named asked named }
{
    match (asked, named) {
        (None, _) => true,
        (Some(asked), Some(named)) => asked == named,
        (Some(_), None) => false,
    }
}
