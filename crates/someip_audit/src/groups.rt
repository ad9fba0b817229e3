//! Findings of one group, of which the first three are told and the others counted.
//!
//! - [`GroupBook`]: how many findings of each group came; [`GroupKey`]: what those of one have in common;
//! - [`Grouped`]: a group of which more came than are told;
//! - [`laws`]: what the definitions behind the contracts promise.

mod group_book;
mod group_key;
pub mod laws;

pub use group_book::GroupBook;
pub use group_key::{GroupKey, Grouped};
