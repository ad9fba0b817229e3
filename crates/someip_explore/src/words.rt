//! Whether a line of a trace has some words: its first words are these.
ghost use Rattle.std.specs.Prelude.{◌≡◌, ◌∷◌, [], IfOk, bytes_eq, map, string_bytes};
ghost use Rattle.someip_texts.specs.Words.{word_text};
ghost use Rattle.someip_explore.specs.Goals.{begins_with, line_words, node_name, told_words};

use someip_node_rules::Output;
use someip_texts::Word;
use someip_world::{Line, SetupNode, Told};
use std::alloc::{AllocError, Global};

/// Whether a word has a text.
fn is_word(alloc: Global, word: &Word, text: &str) -> Result<bool, AllocError>
    ensures { IfOk result (λ same. same ≡ bytes_eq (word_text word.now) text.now) }
{
    if let Word::Text(own) = word {
        return Ok(*own == text);
    }
    let own = format!(in alloc; "{word}")?;
    Ok(own.as_str() == text)
}

/// Whether the first of some words are these.
pub(crate) fn begins_with(
    alloc: Global,
    front: &[String],
    words: &[Word],
) -> Result<bool, AllocError>
    ensures { IfOk result (λ begins. begins ≡ begins_with (map string_bytes front.now)
        (map word_text words.now)) }
{
    let [text, texts @ ..] = front else {
        return Ok(true);
    };
    let [word, others @ ..] = words else {
        return Ok(false);
    };
    if !is_word(alloc, word, text.as_str())? {
        return Ok(false);
    }
    begins_with(alloc, texts, others)
}

/// Whether what a line tells begins with some words, where the next datagram has a number.
fn tells(alloc: Global, front: &[String], number: usize, told: &Told) -> Result<bool, AllocError>
    ensures { IfOk result (λ begins. begins ≡ begins_with (map string_bytes front.now)
        (told_words number told.now)) }
{
    match told {
        Told::Gave(output) => begins_with(alloc, front, output.words(Some(number)).as_slice()),
        Told::Refused(refusal) => {
            let words = [Word::Text("refused"), Word::Text(refusal.name())];
            begins_with(alloc, front, &words)
        }
    }
}

/// The name of the node at a place.
pub(crate) fn node_name(nodes: &[SetupNode], place: usize) -> &str
    ensures { result.now ≡ node_name nodes.now place }
{
    match nodes.get(place) {
        Some(node) => node.name.as_str(),
        None => "",
    }
}

/// Whether a line has some words, where the next datagram has a number.
pub(crate) fn has_words(
    alloc: Global,
    nodes: &[SetupNode],
    front: &[String],
    number: usize,
    line: &Line,
) -> Result<bool, AllocError>
    ensures { IfOk result (λ has. has ≡ begins_with (map string_bytes front.now)
        (line_words nodes.now number line.now)) }
{
    let [name, texts @ ..] = front else {
        return Ok(true);
    };
    if node_name(nodes, line.node) != name.as_str() {
        return Ok(false);
    }
    tells(alloc, texts, number, &line.told)
}
