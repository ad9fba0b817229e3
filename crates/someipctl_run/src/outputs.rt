//! What the lines of a trace tell, word by word.
ghost use Rattle.std.specs.Prelude.{◌≡◌, ◌∷◌, [], IfOk, OnOk, OnErr, codes, map};
ghost use Rattle.someip_texts.specs.Words.{word_text};
ghost use Rattle.someipctl_io.specs.Sending.{Sends, Stops};
ghost use Rattle.someipctl_io.specs.Words.{ended};
ghost use Rattle.someip_node_rules.specs.rules.DropNames.{node_error_name};
ghost use Rattle.someipctl_run.specs.Outputs.{told_words};

use someip_node::{NodeError, Output};
use someip_world::Told;
use someipctl_io::{Buffer, CannotWrite, Word, put_end};
use std::alloc::{AllocError, Global};
use std::io::Write;

/// The text of what a line tells, to the end of its line, where the next datagram has a number.
pub fn told_text(alloc: Global, number: usize, told: &Told) -> Result<Vec<u8>, AllocError>
    ensures { IfOk result (λ text. text.items ≡ ended (told_words number told.now)) }
{
    let mut text = Vec::new(alloc);
    let mut buffer = Buffer::new(alloc)?;
    put_told(&mut buffer, &mut text, number, told).map_err(|_| AllocError)?;
    buffer.flush(&mut text).map_err(|_| AllocError)?;
    Ok(text)
}

/// Prints what a line tells, where the next datagram has a number.
pub(crate) fn put_told<W: Write>(
    buffer: &mut Buffer,
    writer: &mut W,
    number: usize,
    told: &Told,
) -> Result<(), CannotWrite>
    ensures ok { OnOk result (Sends (W.contents writer.old) buffer.old
        (W.contents writer.new) buffer.new (ended (told_words number told.now))) }
    ensures err { OnErr result (Stops (W.contents writer.old) buffer.old
        (W.contents writer.new) (ended (told_words number told.now))) }
{
    match told {
        Told::Gave(output) => {
            let words = output.words(Some(number));
            put_end(buffer, writer, words.as_slice())
        }
        Told::Refused(refusal) => put_end(buffer, writer, &refused(refusal)),
    }
}

/// A refusal by its name.
fn refused(refusal: &NodeError) -> [Word<'static>; 2]
    ensures { map word_text result ≡ codes "refused" ∷ node_error_name refusal.now ∷ [] }
{
    [Word::Text("refused"), Word::Text(refusal.name())]
}
