//! How many findings of each group came.
ghost use Rattle.std.specs.Prelude.{◌≡◌, ◌++◌, ◌==◌, IfOk, OnErr, OnOk, None, is_none, true, false};
ghost use Rattle.std.specs.FinMap as finite;
ghost use Rattle.someip_tables.specs.Tables.{map_of};
ghost use Rattle.someip_audit.specs.groups.GroupKeys.{group_cmp};
ghost use Rattle.someip_audit.specs.groups.GroupTables.{after_one, is_one_told, more_by, more_in, number_of, one_more, told_more};

use crate::groups::group_key::{GroupKey, Grouped};
use someip_tables::hashed::Room;
use someip_tables::{put_value, value_at};
use std::alloc::{AllocError, Global};
use std::collections::BTreeMap;
use std::marker::Model;

/// How many findings of each group came.
#[derive(Drop)]
pub struct GroupBook {
    alloc: Global,
    room: Room,
    numbers: BTreeMap<GroupKey, usize>,
}

impl Model for GroupBook {
    ghost use Rattle.someip_tables.specs.Tables.{map_of};
    ghost use Rattle.someip_audit.specs.groups.GroupKeys.{group_cmp};
    ghost use Rattle.someip_audit.specs.groups.GroupTables.{Groups, coded_groups};

    ghost Value = { Groups };

    ghost coded = { coded_groups };

    ghost view = { λ b. record { limit = b.room.limit; numbers = map_of group_cmp b.numbers.entries } };
}

impl GroupBook {
    /// A book that holds at most so many groups, and none yet. It takes no memory.
    pub fn new(alloc: Global, limit: usize) -> GroupBook
        ensures { result ≡ record { limit = limit; numbers = finite.empty } }
    {
        GroupBook {
            alloc,
            room: Room::new(limit),
            numbers: BTreeMap::new(alloc),
        }
    }

    /// Takes note of one more of a group, and says whether it is told: it is one of the first three, or there
    /// is no room for its group. Memory is taken for a new group alone, and what is refused for want of it
    /// leaves the book as it was.
    pub fn came(&mut self, key: GroupKey) -> Result<bool, AllocError>
        ensures told { IfOk result (λ told. told ≡ is_one_told key self.old) }
        ensures after { IfOk result (λ told. self.new ≡ after_one key self.old) }
        ensures err { OnErr result (self.new ≡ self.old) }
        ensures grows { OnErr result (finite.get self.old.numbers key ≡ None) }
    {
        let before = value_at(&self.numbers, key);
        if !self.room.may_hold(before.is_some(), self.numbers.len()) {
            return Ok(true);
        }
        let number = number_of(before);
        put_value(&mut self.numbers, key, one_more(number))?;
        Ok(number < 3)
    }

    /// The groups of which more than three came, in their order.
    pub fn more(&self) -> Result<Vec<Grouped>, AllocError>
        ensures { IfOk result (λ groups. groups.items ≡ more_by self.now) }
    {
        more_in(&self.numbers, self.alloc)
    }
}

/// How many of a group came, by what is kept of it.
fn number_of(kept: Option<usize>) -> usize
    ensures { result ≡ number_of kept }
{
    kept.unwrap_or(0)
}

/// One more, as long as there is room for the number.
fn one_more(number: usize) -> usize
    ensures { result ≡ one_more number }
{
    match number.checked_add(1) {
        Some(more) => more,
        None => number,
    }
}

/// The groups of which more than three came.
fn more_in(numbers: &BTreeMap<GroupKey, usize>, alloc: Global) -> Result<Vec<Grouped>, AllocError>
    ensures { IfOk result (λ groups. groups.items ≡ more_in (map_of group_cmp numbers.now.entries)) }
{
    let mut groups = Vec::new(alloc);
    for (key, number) in numbers.iter() {
        tell_more(*key, *number, &mut groups)?;
    }
    Ok(groups)
}

/// Appends a group of which so many came, if these are more than three.
fn tell_more(key: GroupKey, number: usize, groups: &mut Vec<Grouped>) -> Result<(), AllocError>
    ensures { OnOk result (groups.new.items ≡ groups.old.items ++ told_more (key, number)) }
{
    if number <= 3 {
        return Ok(());
    }
    groups.push(Grouped {
        key,
        more: number - 3,
    })?;
    Ok(())
}
