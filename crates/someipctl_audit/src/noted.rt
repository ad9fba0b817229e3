//! What is noted of the findings that are told.
ghost use Rattle.std.specs.Prelude.{◌≡◌, IfOk};
ghost use Rattle.someipctl_audit.specs.Groupings.{groups_begun};
ghost use Rattle.someipctl_audit.specs.Notes.{is_shown, note, noted_begun};

use audit_rules::{Rules, WeightBook};
use someip_audit::groups::{GroupBook, GroupKey};
use std::alloc::{AllocError, Global};

/// What came of each group, if findings are grouped, and by the rules of the bench.
#[derive(Drop)]
pub(crate) struct Noted {
    /// How many of each group, if findings are grouped.
    pub(crate) groups: Option<GroupBook>,
    /// What came by the rules.
    pub(crate) weights: WeightBook,
}

impl Noted {
    /// Nothing yet, by the rules of a bench. Findings may be grouped.
    pub(crate) fn new(alloc: Global, group: bool, bench: &Rules) -> Result<Noted, AllocError>
        ensures { IfOk result (λ noted. noted ≡ noted_begun group bench.now) }
    {
        let weights = WeightBook::new(alloc, bench)?;
        Ok(Noted {
            groups: groups_begun(alloc, group),
            weights,
        })
    }

    /// Takes note of one more of a group, and says whether it is shown. The error is that memory ran out, or that
    /// there is no room for its number.
    pub(crate) fn shows(&mut self, key: GroupKey) -> Result<bool, AllocError>
        ensures shown { IfOk result (λ shown. shown ≡ is_shown self.old key) }
        ensures after { IfOk result (λ shown. self.new ≡ note key self.old) }
    {
        self.weights.came(key.kind, key.service, key.method)?;
        match &mut self.groups {
            Some(groups) => groups.came(key),
            None => Ok(true),
        }
    }
}

/// A book of groups, if findings are grouped.
fn groups_begun(alloc: Global, group: bool) -> Option<GroupBook>
    ensures { result ≡ groups_begun group }
{
    if group {
        Some(GroupBook::new(alloc, 65536))
    } else {
        None
    }
}
