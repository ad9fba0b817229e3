//! The lines of a run, with its datagrams by their numbers.
//!
//! A datagram is kept once, in the line that tells of it; beside the lines a run keeps only where these
//! stand, so that a delivery finds its datagram by its number.

use someip_world_rules::{Datagram, Line};
use std::alloc::{AllocError, Global};
use std::marker::Model;

/// The lines of a run so far. Contracts see their list.
#[derive(Drop)]
pub(crate) struct Log {
    lines: Vec<Line>,
    /// The places of the lines that tell of datagrams: that of number 1 first.
    datagrams: Vec<usize>,
}

impl Model for Log {
    ghost use Rattle.std.specs.Prelude.{◌≡◌, List};
    ghost use Rattle.someip_world_rules.specs.declared.line.Line.{Line};
    ghost use Rattle.someip_world.specs.Places.{places_from};

    ghost Value = { List Line };

    ghost view = { λ l. l.lines.items };

    ghost invariant = { λ l. l.datagrams.items ≡ places_from 0 l.lines.items };
}

impl Log {
    ghost use Rattle.std.specs.Prelude.{◌≡◌, ◌++◌, [], ◌∷◌, None, Some, MatchOption, OnOk};
    ghost use Rattle.someip_world_rules.specs.Datagrams.{datagram_at};

    /// No lines yet.
    pub(crate) fn new(alloc: Global) -> Log
        ensures { result ≡ [] }
    {
        Log {
            lines: Vec::new(alloc),
            datagrams: Vec::new(alloc),
        }
    }

    /// The datagram of a number, if so many were sent. It is found by its number, not by a search.
    pub(crate) fn datagram(&self, number: u64) -> Option<Datagram<'_>>
        ensures { MatchOption result (datagram_at self.now number ≡ None)
            (λ d. datagram_at self.now number
            ≡ Some (record { from = d.from; to = d.to; bytes = d.bytes.now })) }
    {
        if number == 0 {
            return None;
        }
        let place = *self.datagrams.get((number - 1) as usize)?;
        self.lines.get(place)?.datagram()
    }

    /// Adds a line.
    pub(crate) fn push(&mut self, line: Line) -> Result<(), AllocError>
        ensures { OnOk result (self.new ≡ self.old ++ line ∷ []) }
    {
        let place = self.lines.len();
        let is_datagram = line.datagram().is_some();
        self.lines.push(line)?;
        if is_datagram {
            if let Err(_) = self.datagrams.push(place) {
                self.lines.pop();
                return Err(AllocError);
            }
        }
        Ok(())
    }

    /// The lines.
    pub(crate) fn into_lines(self) -> Vec<Line>
        ensures { result.items ≡ self }
    {
        self.lines
    }
}
