//! The moves that lines spell.
ghost use Rattle.std.specs.Prelude.{◌≡◌, ◌&&◌, ◌∷◌, [], IfOk, bytes_eq, codes, map, string_bytes};
ghost use Rattle.std.specs.List.{AllByRecursion};
ghost use Rattle.std.specs.Option.{option_map};
ghost use Rattle.someip_world_schedule.specs.StepWords.{IsReadOf};
ghost use Rattle.someip_world_schedule.specs.Steps.{IsUnparted, step_of_words, words_in};
ghost use Rattle.someip_explore.specs.MoveWords.{any_answer, answer_move, deliveries_to, is_answer_word, is_star, move_of_words, plain_move};
ghost use Rattle.someip_explore.specs.declared.moves.Move.TheVariants.{AnswerAny};

use crate::moves::Move;
use crate::plain_move::PlainMove;
use someip_world::NodeName;
use someip_world_schedule::WordFault;
use someip_world_schedule::schedule_laws::what_words_are;
use std::alloc::{AllocError, Global};

/// The words of a line.
fn words_of<'t>(alloc: Global, line: &'t str) -> Result<Vec<&'t str>, AllocError>
    ensures { IfOk result (λ words. map (λ w. w.now) words.items ≡ words_in line.now) }
{
    line.split(' ').collect(alloc)
}

/// Whether a word is a star.
fn is_star(word: &str) -> bool
    ensures { result ≡ is_star word.now }
{
    word == "*"
}

/// Whether a word is that of an answer's line.
fn is_answer_word(word: &str) -> bool
    ensures { result ≡ is_answer_word word.now }
{
    word == "answer" || word == "error"
}

/// NODE or `*`, after `deliver *`.
fn deliveries_to(alloc: Global, node: &str) -> Result<Move, WordFault>
    ensures { IsReadOf (deliveries_to node.now) result }
{
    if is_star(node) {
        return Ok(Move::DeliverAny);
    }
    match NodeName::read(alloc, node)? {
        Some(node) => Ok(Move::DeliverAnyTo(node)),
        None => Err(WordFault::Bad),
    }
}

/// The line of an answer to the token 0, by its other words.
fn line_to_first(
    alloc: Global,
    word: &str,
    node: &str,
    code: &str,
    payload: &str,
) -> Result<String, AllocError>
    requires { AllByRecursion IsUnparted (word.now ∷ node.now ∷ code.now ∷ payload.now ∷ []) }
    ensures { IfOk result (λ line. words_in (string_bytes line)
        ≡ word.now ∷ node.now ∷ codes "0" ∷ code.now ∷ payload.now ∷ []) }
{
    let line = format!(in alloc; "{word} {node} 0 {code} {payload}")?;
    Ok(line)
}

/// The move of the answer that a line spells.
fn answer_of(alloc: Global, line: &str) -> Result<Move, WordFault>
    ensures { IsReadOf (option_map AnswerAny (step_of_words (words_in line.now))) result }
{
    Ok(Move::AnswerAny(PlainMove::read(alloc, line)?))
}

/// The move of the answer to the token 0 that has these other words.
fn any_answer(
    alloc: Global,
    word: &str,
    node: &str,
    code: &str,
    payload: &str,
) -> Result<Move, WordFault>
    requires { AllByRecursion IsUnparted (word.now ∷ node.now ∷ code.now ∷ payload.now ∷ []) }
    ensures { IsReadOf (any_answer word.now node.now code.now payload.now) result }
{
    let line = line_to_first(alloc, word, node, code, payload)?;
    answer_of(alloc, line.as_str())
}

/// The move of the step that a line spells.
fn plain(alloc: Global, line: &str) -> Result<Move, WordFault>
    ensures { IsReadOf (plain_move (words_in line.now)) result }
{
    Ok(Move::Plain(PlainMove::read(alloc, line)?))
}

/// Whether words are those of an answer with a star.
fn is_any_answer(word: &str, star: &str) -> bool
    ensures { result ≡ (is_answer_word word.now && is_star star.now) }
{
    is_answer_word(word) && is_star(star)
}

/// Whether words are those of a delivery with a star.
fn is_any_delivery(word: &str, star: &str) -> bool
    ensures { result ≡ (bytes_eq word.now (codes "deliver") && is_star star.now) }
{
    word == "deliver" && is_star(star)
}

/// An answer with a star, or else the step that the line of these words spells.
fn answer_move(alloc: Global, line: &str, words: &[&str]) -> Result<Move, WordFault>
    requires words { map (λ w. w.now) words.now ≡ words_in line.now }
    requires unparted { AllByRecursion IsUnparted (map (λ w. w.now) words.now) }
    ensures { IsReadOf (answer_move (map (λ w. w.now) words.now)) result }
{
    let [word, node, star, code, payload] = words else {
        return plain(alloc, line);
    };
    if is_any_answer(word, star) {
        any_answer(alloc, word, node, code, payload)
    } else {
        plain(alloc, line)
    }
}

/// The move that the words of a line spell.
fn move_of(alloc: Global, line: &str, words: &[&str]) -> Result<Move, WordFault>
    requires words { map (λ w. w.now) words.now ≡ words_in line.now }
    requires unparted { AllByRecursion IsUnparted (map (λ w. w.now) words.now) }
    ensures { IsReadOf (move_of_words (map (λ w. w.now) words.now)) result }
{
    let [word, star, node] = words else {
        return answer_move(alloc, line, words);
    };
    if is_any_delivery(word, star) {
        deliveries_to(alloc, node)
    } else {
        plain(alloc, line)
    }
}

impl Move {
    /// The move that a line spells: one of those with a star, or a step as in a schedule. It is refused as `Bad`
    /// where it spells neither.
    pub fn read(alloc: Global, line: &str) -> Result<Move, WordFault>
        ensures { IsReadOf (move_of_words (words_in line.now)) result }
    {
        let words = words_of(alloc, line)?;
        what_words_are();
        move_of(alloc, line, words.as_slice())
    }
}
