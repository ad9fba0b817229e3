//! What a node gave, in the words of a trace.
ghost use Rattle.std.specs.Prelude.{◌≡◌, ◌∷◌, [], Some, IfOk, decimal, map, string_bytes};
ghost use Rattle.std.specs.Fmt.{WritesOnOk};
ghost use Rattle.someip_texts.specs.Words.{spaced, word_text};
ghost use Rattle.someip_c_node.specs.Tellings.{TellsNext, told_text};

use crate::node::CNode;
use crate::outcome::Outcome;
use someip_node_rules::Output;
use someip_texts::Word;
use std::alloc::Global;
use std::fmt;
use std::fmt::Display;

/// An output, with the number that it has where it is a datagram.
#[derive(Drop)]
struct NumberedOutput<'o> {
    number: usize,
    output: &'o Output,
}

impl<'o> Display for NumberedOutput<'o> {
    ghost output = { λ numbered. Some (told_text numbered.number numbered.output.now) };

    fn fmt<W: fmt::Write>(&self, f: &mut fmt::Formatter<W>) -> fmt::Result {
        let words = self.output.words(Some(self.number));
        match words.as_slice() {
            [first, others @ ..] => {
                write!(f, "{first}")?;
                write_others(f, others)
            }
            [] => Ok(()),
        }
    }
}

/// Writes words, each after a space.
fn write_others<W: fmt::Write>(f: &mut fmt::Formatter<W>, words: &[Word<'_>]) -> fmt::Result
    ensures { WritesOnOk W.write_str_gives f.old result (spaced (map word_text words.now)) f.new }
{
    for word in words {
        write!(f, " {word}")?;
    }
    Ok(())
}

impl CNode {
    /// The words by which a trace tells the next output, without the step and the node. A datagram that is
    /// sent is told with a number. The output is not taken.
    ///
    /// It is refused as `NothingLeft`, and as `NoMemory`.
    pub fn next_text(&self, alloc: Global, number: usize) -> Result<String, Outcome>
        ensures { TellsNext number self.now.waiting result }
    {
        let Some(output) = self.next_output() else {
            return Err(Outcome::NothingLeft);
        };
        let numbered = NumberedOutput { number, output };
        match format!(in alloc; "{numbered}") {
            Ok(text) => Ok(text),
            Err(_) => Err(Outcome::NoMemory),
        }
    }
}
