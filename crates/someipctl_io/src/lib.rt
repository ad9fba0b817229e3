//! What the commands of `someipctl` have in common: what they read, what they print (text in parts,
//! through a buffer, to a writer; and the lines of messages, segments and Service Discovery), and how
//! they end.
//!
//! - [`read_all`]: an input, read whole;
//! - [`Outcome`]: how a command that did its work ended; [`Fault`]: why one did not;
//! - [`PrintFault`]: why a text was not printed whole;
//! - [`Buffer`], [`write_text`]: text on its way out;
//! - [`Part`], [`put_parts`]: the parts of a line;
//! - [`Word`], [`put_words`], [`put_end`]: the words of a line;
//! - [`put_item`], [`put_empty`]: the lines of what a datagram holds, of a [`FoundItem`] each;
//! - [`put_whole_line`], [`put_dropped`]: the lines of segments that are put together.
//!
//! The lines of messages and segments stand in `lines`, those of Service Discovery in `discovery`,
//! its options in `options`, and `items` puts them together.
//!
//! A line is a value: an array of parts (text, a number, an ID, bytes in hex) whose one clause says its text,
//! or an array of words with spaces between. `put_parts` and `put_end` alone print, so a new line needs no
//! word on writers. The buffer has a fixed size and takes its memory before the first byte is written. What
//! was printed is at each moment what was written and then what the buffer holds: this sentence (`Sends` of
//! `specs/Sending.antt`) is the contract of every function that prints.
#![tactic(auto)]

mod discovery;
mod fault;
mod form;
mod input;
mod items;
mod laws;
mod lines;
mod message_objects;
mod objects;
mod options;
mod outcome;
mod output;
mod parts;
mod told;
mod told_entries;
mod told_items;
mod told_lines;
mod told_options;
mod words;

pub use fault::{Fault, PrintFault};
pub use form::Form;
pub use input::{ReadFault, read_all};
pub use items::{FoundItem, item_len, put_item};
pub use laws::{
    a_plain_line_tells_the_same, an_object_reads_as_its_line,
    errors_of_reads_are_told_by_their_kind, what_objects_say,
};
pub use lines::{put_dropped, put_empty, put_whole_line};
pub use outcome::Outcome;
pub use output::{Buffer, CannotWrite, write_text};
pub use parts::{Part, put_parts};
pub use someip_texts::Word;
pub use told::{Field, Line, LineHead, Said, put_begin, put_end_of_line, put_fields, put_line};
pub use told_items::{
    datagram_field, put_dropped_object, put_empty_object, put_item_objects, put_told_item,
    put_value_object, put_whole_object,
};
pub use told_lines::{put_dropped_in, put_empty_in, put_fault_in, put_whole_in};
pub use words::{put_end, put_words};
