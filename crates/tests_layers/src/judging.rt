//! What the answers of acts are held against: what their tables say, also where memory is refused.
//!
//! Where no growth of memory is refused, each act answers what its line says. `sweeps/memory.sh` refuses one growth
//! after the other, each in a run of its own. Then the act that was refused it answers that memory ran out, and nothing
//! else. It is done again, and it and all after it answer what they have to; or, where the environment has
//! `LEFT_OUT`, it is left out, and all after it answer as with another subject with which it was never done. At last
//! the table is tried once more, as nothing was left in the process.
use crate::acts::{Act, Subject, Told};
use std::alloc::{AllocError, Global};
use std::process::Abort;
use std::rt::Env;
use std::{env, fmt};

/// Why a table was not tried to its end.
#[derive(Clone, Copy, Debug)]
pub(crate) enum Trouble {
    /// A growth was refused outside of what is judged.
    Unjudged,
    /// An act is not known, or its answer has no room.
    Untold,
    /// The act of this line answers otherwise.
    Wrong(usize),
}

impl From<AllocError> for Trouble {
    fn from(_error: AllocError) -> Trouble {
        Trouble::Unjudged
    }
}

impl From<fmt::Error> for Trouble {
    fn from(_error: fmt::Error) -> Trouble {
        Trouble::Untold
    }
}

/// Room for answers, and what became of memory.
#[derive(Drop)]
struct Judge {
    alloc: Global,
    /// Whether an act that was refused memory is left out, and not done again.
    leaves_out: bool,
    told: Told,
    others: Told,
    /// Whether an act was refused memory.
    was_refused: bool,
}

impl Judge {
    fn new(alloc: Global, leaves_out: bool) -> Result<Judge, AllocError> {
        Ok(Judge {
            alloc,
            leaves_out,
            told: Told::new(alloc)?,
            others: Told::new(alloc)?,
            was_refused: false,
        })
    }

    /// Tries a table, and once more where an act of it was refused memory.
    fn judge<S: Subject>(&mut self, table: &str) -> Result<(), Trouble> {
        let was_refused = self.was_refused;
        self.pass::<S>(table)?;
        if self.was_refused == was_refused {
            return Ok(());
        }
        self.pass::<S>(table)
    }

    /// Does the acts of a table with a new subject.
    fn pass<S: Subject>(&mut self, table: &str) -> Result<(), Trouble> {
        let mut subject = S::make(self.alloc)?;
        for (place, line) in table.lines().enumerate() {
            let Some(act) = Act::read(line) else {
                continue;
            };
            self.perform(&mut subject, &act)?;
            if self.told.is_of_memory() && !self.was_refused {
                self.was_refused = true;
                if self.leaves_out {
                    return self.leave_out(&mut subject, table, place);
                }
                self.perform(&mut subject, &act)?;
            }
            if self.told.bytes() != act.wanted.as_bytes() {
                return Err(Trouble::Wrong(place));
            }
        }
        Ok(())
    }

    fn perform<S: Subject>(&mut self, subject: &mut S, act: &Act<'_>) -> fmt::Result {
        self.told.clear();
        subject.perform(act, &mut self.told)
    }

    /// Goes on without the act of a line, which was refused memory, beside another subject with which it was never done.
    fn leave_out<S: Subject>(
        &mut self,
        subject: &mut S,
        table: &str,
        refused: usize,
    ) -> Result<(), Trouble> {
        let mut other = S::make(self.alloc)?;
        for (place, line) in table.lines().enumerate() {
            let Some(act) = Act::read(line) else {
                continue;
            };
            if place == refused {
                continue;
            }
            self.others.clear();
            other.perform(&act, &mut self.others)?;
            if place > refused {
                self.perform(subject, &act)?;
                if self.told.bytes() != self.others.bytes() {
                    return Err(Trouble::Wrong(place));
                }
            }
        }
        Ok(())
    }
}

/// Whether an act of these tables was refused memory, where all answer as they have to; else the table that does not.
fn judge_each<S: Subject>(
    alloc: Global,
    leaves_out: bool,
    tables: &[&str],
) -> Result<bool, (usize, Trouble)> {
    let mut judge = match Judge::new(alloc, leaves_out) {
        Ok(judge) => judge,
        Err(_) => return Err((0, Trouble::Unjudged)),
    };
    for (place, table) in tables.iter().enumerate() {
        if let Err(trouble) = judge.judge::<S>(table) {
            return Err((place, trouble));
        }
    }
    Ok(judge.was_refused)
}

/// Ends the test where an act of these tables answers otherwise. What became of a refused growth is printed.
pub(crate) fn try_tables<S: Subject>(
    rt: &(impl Abort + Print + Env + AllocGlobal),
    tables: &[&str],
) {
    let leaves_out = env::var(rt, "LEFT_OUT").is_ok();
    match judge_each::<S>(rt.alloc(), leaves_out, tables) {
        Ok(true) => {
            let _ = println!(rt; "refused");
        }
        Ok(false) => {}
        Err((_, Trouble::Unjudged)) => {
            let _ = println!(rt; "unjudged");
        }
        Err((table, trouble)) => {
            assert!(rt; false, "table {table}: {trouble:?}");
        }
    }
}
