//! Between which endpoints messages went one way alone, as where a tap sees one direction of a network.
//!
//! - [`WayBook`]: how many messages went from each endpoint to each other one; [`Way`]: from one to another;
//! - [`OneWay`]: a way that so many messages went, while none came back;
//! - [`Finding`]: that a book is full;
//! - [`laws`]: what the definitions behind the contracts promise.

mod finding;
pub mod laws;
mod way;
mod way_book;

pub use finding::Finding;
pub use way::{OneWay, Way};
pub use way_book::WayBook;
