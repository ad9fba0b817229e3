//! How many messages went each way.
ghost use Rattle.std.specs.Prelude.{◌≡◌, ◌++◌, ◌==◌, IfOk, OnErr, OnOk, None, is_none, true, false};
ghost use Rattle.std.specs.FinMap as finite;
ghost use Rattle.someip_tables.specs.Tables.{map_of};
ghost use Rattle.audit_traffic.specs.ways.WayKeys.{back, way_cmp};
ghost use Rattle.audit_traffic.specs.ways.WayTables.{after_message, is_one_way, number_of, one_more, one_ways, one_ways_in};
ghost use Rattle.audit_traffic.specs.ways.WayTables.{told_by, told_one_way};

use crate::ways::finding::Finding;
use crate::ways::way::{OneWay, Way};
use someip_tables::hashed::Room;
use someip_tables::{put_value, value_at};
use std::alloc::{AllocError, Global};
use std::collections::BTreeMap;
use std::marker::Model;

/// How many messages went each way, as far as a recording was read.
#[derive(Drop)]
pub struct WayBook {
    alloc: Global,
    room: Room,
    numbers: BTreeMap<Way, usize>,
}

impl Model for WayBook {
    ghost use Rattle.std.specs.Prelude.{◌≤◌};
    ghost use Rattle.std.specs.FinMap as finite;
    ghost use Rattle.someip_tables.specs.Tables.{map_of};
    ghost use Rattle.audit_traffic.specs.ways.WayKeys.{way_cmp};
    ghost use Rattle.audit_traffic.specs.ways.WayTables.{Ways, coded_ways};

    ghost Value = { Ways };

    ghost coded = { coded_ways };

    ghost view = { λ b. record {
      limit = b.room.limit;
      numbers = map_of way_cmp b.numbers.entries;
      told_full = b.room.told_full;
    } };
}

impl WayBook {
    /// A book that holds at most so many ways, and none yet. It takes no memory.
    pub fn new(alloc: Global, limit: usize) -> WayBook
        ensures { result ≡ record { limit = limit; numbers = finite.empty; told_full = false } }
    {
        WayBook {
            alloc,
            room: Room::new(limit),
            numbers: BTreeMap::new(alloc),
        }
    }

    /// Takes note that a message went a way, and says what this shows. Memory is taken for a new way alone,
    /// and what is refused for want of it leaves the book as it was.
    pub fn saw(&mut self, way: Way) -> Result<Option<Finding>, AllocError>
        ensures told { IfOk result (λ told. told ≡ told_by way self.old) }
        ensures after { IfOk result (λ told. self.new ≡ after_message way self.old) }
        ensures err { OnErr result (self.new ≡ self.old) }
        ensures grows { OnErr result (finite.get self.old.numbers way ≡ None) }
    {
        let before = value_at(&self.numbers, way);
        if !self.room.may_hold(before.is_some(), self.numbers.len()) {
            return Ok(self.room.tell_full(Finding::Full));
        }
        put_value(&mut self.numbers, way, one_more(number_of(before)))?;
        Ok(None)
    }

    /// The ways that at least eight messages went, while none came back, in the order of the ways. Where the
    /// book was ever full there are none, since what came back may not have been taken.
    pub fn one_ways(&self) -> Result<Vec<OneWay>, AllocError>
        ensures { IfOk result (λ ways. ways.items ≡ one_ways self.now) }
    {
        if self.room.told_full {
            return Ok(Vec::new(self.alloc));
        }
        one_ways_in(&self.numbers, self.alloc)
    }

    /// How many ways there are.
    pub fn len(&self) -> usize
        ensures { result ≡ finite.len self.now.numbers }
    {
        self.numbers.len()
    }
}

/// How many messages went a way, by what is kept of it.
fn number_of(kept: Option<usize>) -> usize
    ensures { result ≡ number_of kept }
{
    kept.unwrap_or(0)
}

/// One more, as long as there is room for the number.
fn one_more(number: usize) -> usize
    ensures { result ≡ one_more number }
{
    match number.checked_add(1) {
        Some(more) => more,
        None => number,
    }
}

/// The ways that at least eight messages went, while none came back.
fn one_ways_in(numbers: &BTreeMap<Way, usize>, alloc: Global) -> Result<Vec<OneWay>, AllocError>
    ensures { IfOk result (λ ways. ways.items ≡ one_ways_in (map_of way_cmp numbers.now.entries)) }
{
    let mut ways = Vec::new(alloc);
    for (way, number) in numbers.iter() {
        tell_one_way(numbers, *way, *number, &mut ways)?;
    }
    Ok(ways)
}

/// Appends a way that so many messages went, if they went it alone.
fn tell_one_way(
    numbers: &BTreeMap<Way, usize>,
    way: Way,
    number: usize,
    ways: &mut Vec<OneWay>,
) -> Result<(), AllocError>
    ensures { OnOk result (ways.new.items
        ≡ ways.old.items ++ told_one_way (map_of way_cmp numbers.now.entries) (way, number)) }
{
    if !is_one_way(numbers, way, number) {
        return Ok(());
    }
    ways.push(OneWay {
        way,
        messages: number,
    })?;
    Ok(())
}

/// Whether so many messages that went a way are at least eight, and none came back.
fn is_one_way(numbers: &BTreeMap<Way, usize>, way: Way, number: usize) -> bool
    ensures { result ≡ is_one_way (map_of way_cmp numbers.now.entries) (way, number) }
{
    8 <= number && value_at(numbers, back(way)).is_none()
}

/// The way back.
fn back(way: Way) -> Way
    ensures { result ≡ back way }
{
    Way {
        from: way.to,
        to: way.from,
    }
}
