//! What the sessions of Service Discovery in a recording show: which sender began again, which message was
//! lost or came twice, and which was overtaken on its way (SOME/IP Service Discovery Protocol, "Session
//! ID", "Reboot flag" and "Detection of reboots").
//!
//! - [`SessionBook`]: the last message of each sender to each destination, as [`Last`] has it;
//! - [`SdMessage`]: what it is told of a message; [`Finding`]: what it tells;
//! - [`laws`]: what the definitions behind the contracts promise.

mod finding;
mod last;
pub mod laws;
mod message;
mod others;
mod pair;
mod session_book;

pub use finding::Finding;
pub use last::Last;
pub use message::SdMessage;
pub use session_book::SessionBook;
