//! The names of nodes.
ghost use Rattle.std.specs.Prelude.{◌≡◌, IfOk, IsTrue};
ghost use Rattle.std.specs.List.{list_all};
ghost use Rattle.someip_world_schedule.specs.StepWords.{IsReadOf, is_name, is_name_byte, name_in};

use crate::step_words::WordFault;
use std::alloc::{AllocError, Global};
use std::marker::Model;

/// The name of a node: one to 16 letters from `a` to `z` and digits. Contracts see its bytes.
#[derive(Drop)]
pub struct NodeName {
    text: String,
}

impl Model for NodeName {
    ghost use Rattle.std.specs.Prelude.{ℕ, List, IsTrue, string_bytes};
    ghost use Rattle.someip_world_schedule.specs.StepWords.{is_name};

    ghost Value = { List ℕ };

    ghost view = { λ n. string_bytes n.text };

    ghost invariant = { λ n. IsTrue (is_name (string_bytes n.text)) };
}

impl NodeName {
    /// The node of this name, if it is one.
    pub fn read(alloc: Global, text: &str) -> Result<Option<NodeName>, AllocError>
        ensures { IfOk result (λ found. found ≡ name_in text.now) }
    {
        if !is_name(text.as_bytes()) {
            return Ok(None);
        }
        let text = String::from_str(alloc, text)?;
        Ok(Some(NodeName { text }))
    }

    /// The name.
    pub fn as_str(&self) -> &str
        ensures { result.now ≡ self.now }
    {
        self.text.as_str()
    }
}

fn is_name(text: &[u8]) -> bool
    ensures { result ≡ is_name text.now }
{
    1 <= text.len() && text.len() <= 16 && are_name_bytes(text)
}

fn are_name_bytes(text: &[u8]) -> bool
    ensures { result ≡ list_all is_name_byte text.now }
{
    text.iter().all(|b| (b'a' <= *b && *b <= b'z') || (b'0' <= *b && *b <= b'9'))
}

/// Reads a node's name.
pub fn name(alloc: Global, word: &str) -> Result<NodeName, WordFault>
    ensures { IsReadOf (name_in word.now) result }
{
    NodeName::read(alloc, word)?.ok_or(WordFault::Bad)
}
