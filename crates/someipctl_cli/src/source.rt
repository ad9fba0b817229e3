//! The files that a call names, and where recordings are read from.
ghost use Rattle.someipctl_cli.specs.Sources.{remaining_of};

use crate::failure::{Failure, Refusal};
use audit_rules::Rules;
use someipctl_rules::read_rules;
use someipctl_show::types::{MessageTypes, read_types};
use std::io::{ErrorKind, Read};
use std::rt::Files;
use std::{fs, io};

/// Where a recording is read from.
#[derive(Drop)]
pub(crate) enum Source<F, I> {
    /// A file.
    File(F),
    /// Standard input.
    Standard(I),
}

impl<F: Read, I: Read> Read for Source<F, I> {
    ghost remaining = { λ s. remaining_of F.remaining I.remaining s };

    fn read(&mut self, buf: &mut [u8]) -> io::Result<usize> {
        match self {
            Source::File(file) => file.read(buf),
            Source::Standard(input) => input.read(buf),
        }
    }
}

/// All recordings at these paths, and the one that comes on standard input, which is called `-`.
pub(crate) fn open_sources<'p, R: Files + Input + AllocGlobal>(
    rt: &R,
    paths: &[&'p str],
) -> Result<Vec<Source<R::File, R::Reader>>, Failure<'p>> {
    let mut sources = Vec::new(rt.alloc());
    for path in paths {
        let source = if *path == "-" {
            Source::Standard(rt.reader())
        } else {
            Source::File(open_file(rt, path)?)
        };
        sources.push(source).map_err(|_| Failure::OutOfMemory)?;
    }
    Ok(sources)
}

pub(crate) fn open_file<'p, R: Files>(rt: &R, path: &'p str) -> Result<R::File, Failure<'p>> {
    fs::open(rt, path).map_err(|error| match error.kind() {
        ErrorKind::OutOfMemory => Failure::OutOfMemory,
        _ => Failure::CannotRead(path),
    })
}

/// What the types file at a path says, if there is one.
pub(crate) fn types_at<'p, R: Files + AllocGlobal>(
    rt: &R,
    path: Option<&'p str>,
) -> Result<MessageTypes, Failure<'p>> {
    let Some(path) = path else {
        return Ok(MessageTypes::none(rt.alloc()));
    };
    let mut file = open_file(rt, path)?;
    read_types(rt.alloc(), &mut file).map_err(|fault| Failure::of(fault.map(Refusal::Types), path))
}

/// The rules that the file at a path says, if there is one.
pub(crate) fn rules_at<'p, R: Files + AllocGlobal>(
    rt: &R,
    path: Option<&'p str>,
) -> Result<Rules, Failure<'p>> {
    let Some(path) = path else {
        return Ok(Rules::none(rt.alloc()));
    };
    let mut file = open_file(rt, path)?;
    read_rules(rt.alloc(), &mut file).map_err(|fault| Failure::of(fault.map(Refusal::Rules), path))
}
