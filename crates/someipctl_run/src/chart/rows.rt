//! Which row of a picture is whose.

use someip_texts::is_left_out;
use someip_world::Line;
use std::alloc::{AllocError, Global};

/// The rows of the steps and of the lines of a trace. A step has a row for each of its lines, and one
/// where it has none.
#[derive(Drop)]
pub(crate) struct Rows {
    /// The first row of each step, and then how many rows there are.
    firsts: Vec<usize>,
    /// The row of each line.
    lines: Vec<usize>,
}

impl Rows {
    /// The rows of so many steps, and of the lines that they gave.
    pub(crate) fn new(alloc: Global, steps: usize, lines: &[Line]) -> Result<Rows, AllocError> {
        let firsts = firsts_of(alloc, steps, lines)?;
        let lines = rows_of_lines(alloc, &firsts, lines)?;
        Ok(Rows { firsts, lines })
    }

    /// The first row of the step of an index, counted from 0.
    pub(crate) fn of_step(&self, index: usize) -> usize {
        self.firsts.get(index).copied().unwrap_or(0)
    }

    /// The row after the last one of the step of an index, counted from 0.
    pub(crate) fn behind_step(&self, index: usize) -> usize {
        self.firsts
            .get(index.saturating_add(1))
            .copied()
            .unwrap_or(self.count())
    }

    /// The row of the line of an index, counted from 0.
    pub(crate) fn of_line(&self, index: usize) -> usize {
        self.lines.get(index).copied().unwrap_or(0)
    }

    /// How many rows there are.
    pub(crate) fn count(&self) -> usize {
        self.firsts.last().copied().unwrap_or(0)
    }
}

/// The first row of each step, and then the row after the last one.
fn firsts_of(alloc: Global, steps: usize, lines: &[Line]) -> Result<Vec<usize>, AllocError> {
    let counts = counts_of(alloc, steps, lines)?;
    places_of(alloc, &counts)
}

/// Where each of some groups of lines begins, and where the last one ends. One without lines has a row
/// too.
fn places_of(alloc: Global, counts: &[usize]) -> Result<Vec<usize>, AllocError> {
    let mut places = Vec::new(alloc);
    let mut place: usize = 0;
    for count in counts {
        places.push(place)?;
        place = place.saturating_add((*count).max(1));
    }
    places.push(place)?;
    Ok(places)
}

/// How many lines each step has.
fn counts_of(alloc: Global, steps: usize, lines: &[Line]) -> Result<Vec<usize>, AllocError> {
    let mut counts: Vec<usize> = Vec::new(alloc);
    counts.resize(steps, 0)?;
    for line in lines {
        if let Some(count) = counts.get_mut(line.step.saturating_sub(1)) {
            *count = (*count).saturating_add(1);
        }
    }
    Ok(counts)
}

/// The row of each line, by the first row of each step.
fn rows_of_lines(
    alloc: Global,
    firsts: &[usize],
    lines: &[Line],
) -> Result<Vec<usize>, AllocError> {
    let mut rows = Vec::new(alloc);
    let mut step = 0;
    let mut row: usize = 0;
    for line in lines {
        if line.step == step {
            row = row.saturating_add(1);
        } else {
            step = line.step;
            row = firsts.get(step.saturating_sub(1)).copied().unwrap_or(0);
        }
        rows.push(row)?;
    }
    Ok(rows)
}

/// The lines of a schedule that spell its steps, in order.
pub(crate) fn step_texts(alloc: Global, text: &[u8]) -> Result<Vec<&[u8]>, AllocError> {
    let mut texts = Vec::new(alloc);
    for line in text.split(|b| *b == b'\n') {
        if !is_left_out(line) {
            texts.push(line)?;
        }
    }
    Ok(texts)
}
