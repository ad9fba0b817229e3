//! Calls and their answers in a recording (SOME/IP Protocol, "Request/Response Communication" and
//! "Error Handling"): which calls stayed without an answer, which answers came late, twice or unasked,
//! and which Request IDs were used again while their call was open.
//!
//! - [`CallBook`]: the calls that are known, and what is told of them;
//! - [`CallRules`]: its settings;
//! - [`AuditedCall`]: what tells calls apart;
//! - [`CallFinding`] and [`Unanswered`]: what is told;
//! - [`laws`]: the definitions behind the contracts by example, and [`history_laws`]: what they say over
//!   all messages of a recording, whatever code keeps them.

mod call;
mod call_book;
mod call_table;
mod excerpt;
mod finding;
pub mod history_laws;
mod key_laws;
mod known;
pub mod laws;
mod steps;

pub use call::AuditedCall;
pub use call_book::CallBook;
pub use finding::{CallFinding, CallRules, Unanswered};
