//! What the sessions of events in a recording show: which event came twice, which is behind, and which sessions
//! it skips (SOME/IP Protocol, "Session ID").
//!
//! - [`EventBook`]: the last event of each flow;
//! - [`Notification`]: what it is told of an event; [`EventFlow`]: which event it is, from whom, and to
//!   whom;
//! - [`Finding`]: what these show; [`LastEvent`]: what is kept of a flow;
//! - [`laws`]: what the definitions behind the contracts promise.
//!
//! The flows of a book stand in `flow_table`, those of one source of events together in `groups`, each by its
//! receiver in `receivers`; what sessions show is in `steps`. What may disturb flows finds them by `steady`, and an
//! address that begins again by `forgetting`; `found_flows` has both beside the table.

mod event_book;
mod finding;
mod flow;
mod flow_place;
mod flow_table;
mod forgetting;
mod found_flows;
mod groups;
mod last_event;
pub mod laws;
mod notification;
mod offering;
mod receiver;
mod receivers;
mod route;
mod source;
mod steady;
mod steps;

pub use event_book::EventBook;
pub use finding::Finding;
pub use flow::EventFlow;
pub use last_event::LastEvent;
pub use notification::Notification;
pub(crate) use steps::ahead;
