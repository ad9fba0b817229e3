//! What texts are made of: lines, decimal numbers and keys of what is read, and words of what is told.
//!
//! - [`plain_u64`], [`plain_u16`] and [`plain_u8`]: the number that a word writes;
//! - [`text_of`]: the text that bytes are, if they are UTF-8;
//! - [`is_left_out`]: whether a line is empty or a comment;
//! - [`is_one_of`]: whether a key is one of those that are known; [`lesser`]: which of two is named first;
//! - [`Word`]: a word of a line that is told;
//! - [`laws`]: what the definitions behind the contracts promise.
//!
//! `number_in` of `specs/Numbers.antt` says which number digits write, below which limit; `positive_in` says
//! the same where 0 alone is none, as for ports. `lines_of` of `specs/Lines.antt` parts a text at line feeds.
//! `word_text` of `specs/Words.antt` says which bytes a word is.
//! `proofs/` is open to the crates above: `NumberLemmas`, `LineLemmas` (a text that is read line by line, up
//! to the first bad line), `FoundLemmas` (whether one of a list passes a test).
#![tactic(auto)]

mod key;
pub mod laws;
mod line;
mod number;
mod utf8;
mod word;

pub use key::{is_one_of, lesser};
pub use line::is_left_out;
pub use number::{plain_u8, plain_u16, plain_u64};
pub use utf8::text_of;
pub use word::Word;
