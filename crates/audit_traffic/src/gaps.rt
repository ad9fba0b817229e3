//! The sessions of events that are missing, for as long as they may still come (SOME/IP Protocol, "Session
//! ID"): an event may overtake another on its way.
//!
//! - [`GapBook`]: the sessions that are missing;
//! - [`Gap`]: what it is told of sessions that are skipped; [`MissingEvent`]: one of them;
//! - [`Finding`]: what a gap shows at once; [`LostEvent`]: a session that did not come in time;
//! - [`laws`]: what the definitions behind the contracts promise.

mod awaited;
mod finding;
mod gap;
mod gap_book;
mod key;
pub mod laws;
mod waiting;

pub use awaited::Awaited;
pub use finding::{Finding, LostEvent};
pub use gap::Gap;
pub use gap_book::GapBook;
pub use key::MissingEvent;
