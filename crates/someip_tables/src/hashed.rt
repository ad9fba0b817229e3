//! Tables of what is audited, whose keys are found by their hash.
//!
//! - [`DueTable`]: values that wait for a moment each, or for none, and which of them is due first;
//! - [`Due`]: a key at the moment that its value waits for;
//! - [`KeySet`]: keys alone;
//! - [`compare_endpoints`], [`is_same_endpoint`], [`number_of_endpoint`], [`is_same_address`], [`number_of_address`]:
//!   endpoints and addresses as numbers;
//! - [`Origin`]: the datagram of a recording that something came in; [`Numbers`]: its numbers;
//! - [`Room`]: how many entries a table may hold, and whether it was told that it is full;
//! - [`laws`]: what the definitions behind the contracts promise.

mod due;
mod due_table;
mod endpoint;
mod key_set;
pub mod laws;
mod origin;
mod room;
mod tracked;

pub use due::Due;
pub use due_table::DueTable;
pub use endpoint::{
    compare_endpoints, is_same_address, is_same_endpoint, number_of_address, number_of_endpoint,
};
pub use key_set::KeySet;
pub use origin::{Numbers, Origin};
pub use room::Room;
