//! How a step changes what is kept of a run.
ghost use Rattle.std.specs.Prelude.{◌≡◌, ◌++◌, ◌∷◌, [], IfOk, OnOk};
ghost use Rattle.std.specs.Option.{option_map};
ghost use Rattle.std.specs.Ordering.{nat_cmp};
ghost use Rattle.someip_tables.specs.Tables.{map_of};
ghost use Rattle.someip_world_rules.specs.Datagrams.{datagrams_in};
ghost use Rattle.someip_world_verdict.specs.Books.{note_at};
ghost use Rattle.someip_world_verdict.specs.Booking.{answered_in, handed_up, life_after, life_on, note_of, notes_of, opened_by_all, openings_after, published_key, published_session, said_by_lines, tokens_told};
ghost use Rattle.someip_world_verdict.specs.Views.{view_life, view_note, view_notes, view_openings, view_publication, view_taken};

use crate::content::{said_in, stream_in};
use crate::life::Life;
use crate::note::Note;
use crate::opening::open_all;
use crate::publishing::{Publication, publication_in};
use crate::stream::Stream;
use crate::taken::Taken;
use crate::telling::token_in;
use sd_core::Eventgroup;
use someip_node_rules::Config;
use someip_tables::{put_value, value_at};
use someip_world_rules::{Datagram, Line};
use someip_world_schedule::Step;
use std::alloc::{AllocError, Global};
use std::collections::BTreeMap;

/// A step of a run, with what it gave.
#[derive(Clone, Copy)]
pub(crate) struct DoneStep<'d> {
    /// The configuration of the node that it names.
    pub(crate) config: &'d Config,
    /// Its index: steps count from 0.
    pub(crate) index: usize,
    /// The step.
    pub(crate) step: &'d Step,
    /// The lines that tell what was given.
    pub(crate) lines: &'d [Line],
}

/// What is kept of the datagram of a number: they count from 1.
pub(crate) fn note_at(notes: &[Note], number: u64) -> Option<&Note>
    ensures { option_map (λ note. view_note note.now) result ≡ note_at (view_notes notes.now) number }
{
    if number == 0 {
        return None;
    }
    let place = (number - 1) as usize;
    if place < notes.len() {
        Some(&notes[place])
    } else {
        None
    }
}

/// The step that sent what a step answers: what it delivers, or the request of its token.
fn answered_in(notes: &[Note], life: &Life, step: &Step) -> Option<usize>
    ensures { result ≡ answered_in (view_notes notes.now) (view_life life.now) step.now }
{
    match step {
        Step::Deliver { number, .. } => Some(note_at(notes, *number)?.step),
        Step::Answer { token, .. } => value_at(&life.tokens, *token),
        _ => None,
    }
}

/// What a step does to its node before that gives anything.
fn live_on(alloc: Global, notes: &[Note], life: &mut Life, step: &Step) -> Result<(), AllocError>
    ensures { OnOk result (view_life life.new
        ≡ life_on (view_notes notes.now) (view_life life.old) step.now) }
{
    match step {
        Step::Tick { ms, .. } => life.tick(*ms),
        Step::Deliver { number, .. } => {
            if let Some(note) = note_at(notes, *number) {
                life.arrive(note.stream, note.payload)?;
            }
        }
        Step::Restart { .. } => *life = Life::new(alloc),
        _ => {}
    }
    Ok(())
}

/// An event that a step publishes takes its key.
fn publish(
    taken: &mut Taken,
    life: &mut Life,
    step: usize,
    publication: Option<Publication>,
) -> Result<(), AllocError>
    ensures taken { OnOk result (view_taken taken.new
        ≡ published_key step (option_map view_publication publication) (view_taken taken.old)) }
    ensures life { OnOk result (view_life life.new
        ≡ published_session (option_map view_publication publication) (view_life life.old)) }
{
    if let Some(publication) = publication {
        taken.take(publication.key, step)?;
        put_value(&mut life.sessions, publication.event, publication.session)?;
    }
    Ok(())
}

/// The requests that a step hands up have tokens, each for the step that sent what is answered.
fn hand_up(
    tokens: &mut BTreeMap<u64, usize>,
    sent: Option<usize>,
    lines: &[Line],
) -> Result<(), AllocError>
    ensures { OnOk result (map_of nat_cmp tokens.new.entries
        ≡ handed_up sent (tokens_told lines.now) (map_of nat_cmp tokens.old.entries)) }
{
    let Some(sent) = sent else {
        return Ok(());
    };
    for line in lines {
        if let Some(token) = token_in(&line.told) {
            put_value(tokens, token, sent)?;
        }
    }
    Ok(())
}

/// What is kept of each datagram of a step.
#[derive(Clone, Copy)]
struct Sending {
    /// The step that sends it.
    step: usize,
    /// The step that sent what it answers.
    answers: Option<usize>,
    /// The number of the payload of the message that it may be a segment of.
    payload: Option<usize>,
}

/// The datagrams that a step sends open exchanges, and are kept.
fn note_all(
    alloc: Global,
    taken: &mut Taken,
    counters: &mut BTreeMap<Eventgroup, u8>,
    notes: &mut Vec<Note>,
    sending: Sending,
    lines: &[Line],
) -> Result<(), AllocError>
    ensures openings { OnOk result (view_openings taken.new counters.new
        ≡ opened_by_all sending.step (said_by_lines lines.now) (view_openings taken.old counters.old)) }
    ensures notes { OnOk result (view_notes notes.new.items ≡ view_notes notes.old.items
        ++ notes_of sending.step sending.answers sending.payload (datagrams_in lines.now)) }
{
    for line in lines {
        note_line(alloc, taken, counters, notes, sending, line)?;
    }
    Ok(())
}

/// The datagram that a line tells of, if it tells of one.
fn note_line(
    alloc: Global,
    taken: &mut Taken,
    counters: &mut BTreeMap<Eventgroup, u8>,
    notes: &mut Vec<Note>,
    sending: Sending,
    line: &Line,
) -> Result<(), AllocError>
    ensures openings { OnOk result (view_openings taken.new counters.new
        ≡ opened_by_all sending.step (said_by_lines (line.now ∷ [])) (view_openings taken.old counters.old)) }
    ensures notes { OnOk result (view_notes notes.new.items ≡ view_notes notes.old.items
        ++ notes_of sending.step sending.answers sending.payload (datagrams_in (line.now ∷ []))) }
{
    if let Some(datagram) = line.datagram() {
        let note = note_of(alloc, sending, &datagram)?;
        open_all(taken, counters, sending.step, &note.said)?;
        notes.push(note)?;
    }
    Ok(())
}

/// What is kept of a datagram.
fn note_of(alloc: Global, sending: Sending, datagram: &Datagram<'_>) -> Result<Note, AllocError>
    ensures { IfOk result (λ note. view_note note
        ≡ note_of sending.step sending.answers sending.payload (record {
          from = datagram.now.from;
          to = datagram.now.to;
          bytes = datagram.now.bytes.now;
        })) }
{
    let said = said_in(alloc, datagram)?;
    let stream = stream_in(datagram).map(|key| Stream::of(&key));
    Ok(Note {
        step: sending.step,
        answers: sending.answers,
        said,
        stream,
        payload: sending.payload,
    })
}

/// A step that was not refused is done at a node. The number is that of the payload of the message that its
/// datagrams may be segments of.
pub(crate) fn book_at(
    alloc: Global,
    done: DoneStep<'_>,
    payload: Option<usize>,
    taken: &mut Taken,
    notes: &mut Vec<Note>,
    life: &mut Life,
) -> Result<(), AllocError>
    ensures taken { OnOk result (view_taken taken.new
        ≡ (openings_after done.entry.config.now (view_notes notes.old.items) (view_taken taken.old)
        (view_life life.old) done.entry.index done.entry.step.now done.entry.lines.now).taken) }
    ensures life { OnOk result (view_life life.new
        ≡ life_after done.entry.config.now (view_notes notes.old.items) (view_life life.old) done.entry.step.now done.entry.lines.now
        (openings_after done.entry.config.now (view_notes notes.old.items) (view_taken taken.old)
        (view_life life.old) done.entry.index done.entry.step.now done.entry.lines.now).counters) }
    ensures notes { OnOk result (view_notes notes.new.items ≡ view_notes notes.old.items
        ++ notes_of done.entry.index (answered_in (view_notes notes.old.items) (view_life life.old) done.entry.step.now)
        payload (datagrams_in done.entry.lines.now)) }
{
    let answers = answered_in(notes, life, done.step);
    let publication = publication_in(done.config, life, done.step);
    live_on(alloc, notes, life, done.step)?;
    publish(taken, life, done.index, publication)?;
    hand_up(&mut life.tokens, answers, done.lines)?;
    let sending = Sending {
        step: done.index,
        answers,
        payload,
    };
    note_all(alloc, taken, &mut life.counters, notes, sending, done.lines)
}
