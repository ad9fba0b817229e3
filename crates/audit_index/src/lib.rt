//! Keys by the places at which they are: what an audit finds without a look at the rest.
//!
//! - [`Index`]: keys at their places; [`Slot`]: a key at its place;
//! - [`OwnedTable`]: a table of what addresses own, and which an address loses without a look at the rest;
//! - [`Owned`]: which addresses own a value;
//! - [`compare_addresses`]: two addresses, in order.
//!
//! An index has at least the keys that are at a place. It may have more, which whoever takes them looks for in vain:
//! so a key is put in before its value, and taken out after it.
#![tactic(auto)]

mod addresses;
mod index;
mod owned;
mod owned_table;
mod owners;
mod slot;

pub use addresses::compare_addresses;
pub use index::Index;
pub use owned::Owned;
pub use owned_table::OwnedTable;
pub use slot::Slot;
