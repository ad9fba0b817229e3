//! What is kept of a run beside its nodes, to judge how it reuses keys.
ghost use Rattle.std.specs.Prelude.{◌≡◌, ◌<◌, length, map, slice_get, Some, IfOk, OnOk};
ghost use Rattle.someip_world_verdict.specs.Books.{breaks_at, new_life};
ghost use Rattle.someip_world_verdict.specs.Booking.{booked};
ghost use Rattle.someip_world_verdict.specs.Judging.{first_book};
ghost use Rattle.someip_world_verdict.specs.Views.{view_book, view_life, view_lives};
ghost use Rattle.someip_world_verdict.specs.declared.life.Life.{Life};

use crate::booking::{DoneStep, book_at, note_at};
use crate::breach::is_breach;
use crate::life::Life;
use crate::note::Note;
use crate::numbers::number_long;
use crate::taken::Taken;
use crate::telling::is_refused;
use someip_world_schedule::Step;
use someip_world_setup::SetupNode;
use std::alloc::{AllocError, Global};
use std::collections::BTreeMap;

/// What is kept of a run.
#[derive(Drop)]
pub(crate) struct Ledger {
    /// The newest exchange of each key.
    pub(crate) taken: Taken,
    /// Of each datagram, that of number 1 first.
    pub(crate) notes: Vec<Note>,
    /// Of the present life of each node, in the order of the setup.
    pub(crate) lives: Vec<Life>,
    /// The numbers of long payloads.
    pub(crate) payloads: BTreeMap<Vec<u8>, usize>,
}

impl Ledger {
    /// Nothing has happened.
    pub(crate) fn new(alloc: Global, nodes: &[SetupNode]) -> Result<Ledger, AllocError>
        ensures { IfOk result (λ ledger. view_book ledger ≡ first_book nodes.now) }
    {
        let lives = new_lives(alloc, nodes)?;
        Ok(Ledger {
            taken: Taken::new(alloc),
            notes: Vec::new(alloc),
            lives,
            payloads: BTreeMap::new(alloc),
        })
    }

    /// Whether a step breaks clean reuse at the node that it names.
    pub(crate) fn breaks(&self, timeout_ms: u32, life: &Life, step: &Step) -> bool
        ensures { result ≡ breaks_at timeout_ms (view_book self.now) (view_life life.now) step.now }
    {
        match step {
            Step::Deliver { number, .. } => match note_at(&self.notes, *number) {
                Some(note) => is_breach(timeout_ms, &self.taken, life, note),
                None => false,
            },
            _ => false,
        }
    }

    /// A step is done at the node or the liar of a place.
    pub(crate) fn book(
        &mut self,
        alloc: Global,
        place: usize,
        done: DoneStep<'_>,
    ) -> Result<(), AllocError>
        requires { place < length self.old.lives.items }
        ensures { OnOk result ((life : Life) → slice_get self.old.lives.items place ≡ Some life
            → view_book self.new ≡ booked done.entry.config.now done.entry.index place done.entry.step.now done.entry.lines.now
            (view_life life) (view_book self.old)) }
    {
        if is_refused(done.lines) {
            return Ok(());
        }
        if let Step::Inject { .. } = done.step {
            self.notes.push(Note::mute(alloc, done.index))?;
            return Ok(());
        }
        let payload = number_long(alloc, &mut self.payloads, done.index, done.step)?;
        book_at(
            alloc,
            done,
            payload,
            &mut self.taken,
            &mut self.notes,
            &mut self.lives[place],
        )?;
        Ok(())
    }
}

/// A life of each node.
fn new_lives(alloc: Global, nodes: &[SetupNode]) -> Result<Vec<Life>, AllocError>
    ensures { IfOk result (λ lives. view_lives lives.items ≡ map (λ node. new_life) nodes.now) }
{
    let mut lives = Vec::new(alloc);
    for _node in nodes {
        lives.push(Life::new(alloc))?;
    }
    Ok(lives)
}
