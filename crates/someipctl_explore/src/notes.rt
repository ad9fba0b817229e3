//! What is told of a search while it goes on.
ghost use Rattle.std.specs.Prelude.{◌≡◌, IfOk, string_bytes};
ghost use Rattle.someipctl_explore.specs.Noting.{NotedAs, progress_line};
ghost use Rattle.someipctl_explore.specs.declared.notes.Progress.TheVariants as states;

use someip_explore::Watcher;
use someipctl_io::{CannotWrite, write_text};
use std::alloc::{AllocError, Global};
use std::io::Write;

/// Whether the progress of a search is told.
#[derive(Clone, Copy, Debug, PartialEq, Eq)]
pub enum Progress {
    /// It is not.
    Silent,
    /// It is, with a line for each million schedules that were judged.
    Lines,
    /// It was, until a line could not be made or written.
    Stopped,
}

/// Where the progress of a search is told.
#[derive(Drop)]
pub struct Notes<N> {
    /// The memory for a line.
    pub alloc: Global,
    /// Whether it is told.
    pub progress: Progress,
    /// Where it is told.
    pub writer: N,
}

/// The line that tells how many schedules were judged.
fn progress_line(alloc: Global, judged: u64) -> Result<String, AllocError>
    ensures { IfOk result (λ line. string_bytes line ≡ progress_line judged) }
{
    format!(in alloc; "{judged} schedules\n")
}

/// Writes the line that tells how many schedules were judged, and says whether more are to come.
fn put_progress<N: Write>(alloc: Global, writer: &mut N, judged: u64) -> Progress
    ensures { NotedAs states.Lines result (N.contents writer.old) (N.contents writer.new) (progress_line judged) }
{
    let Ok(line) = progress_line(alloc, judged) else {
        return Progress::Stopped;
    };
    match write_text(writer, line.as_bytes()) {
        Ok(()) => Progress::Lines,
        Err(CannotWrite) => Progress::Stopped,
    }
}

impl<N: Write> Watcher for Notes<N> {
    ghost use Rattle.someipctl_explore.specs.Noting.{Noted, progress_line};

    ghost hears = { λ old judged new. Noted N.contents old new (progress_line judged) };

    fn hear(&mut self, judged: u64) {
        match self.progress {
            Progress::Lines => {
                self.progress = put_progress(self.alloc, &mut self.writer, judged);
            }
            Progress::Silent | Progress::Stopped => {}
        }
    }
}
