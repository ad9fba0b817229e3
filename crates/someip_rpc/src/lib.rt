//! Calls and answers between a client and a server (SOME/IP Protocol, "Request/Response
//! Communication", "Fire&Forget Communication" and "Error Handling").
//!
//! - [`ClientCore`]: the calls that a client waits for, and the sessions that its calls were given;
//! - [`Call`] and [`CallKind`]: what a client calls; [`ClientRules`]: its settings;
//! - [`ServerCore`]: the requests that a server has to answer, and the sessions of its events;
//! - [`ServiceRules`]: a service instance, as it is set up;
//! - [`Arrived`]: what becomes of a message that came to an instance; [`Asked`]: who asked what;
//!   [`RequestFault`]: the checks of an instance; [`Reply`]: how a request is answered;
//! - [`Publication`]: an event that is to be sent; [`Subscriber`]: to whom alone it may go;
//! - [`Outgoing`]: what is to be sent, from which endpoint and to which;
//! - [`MessageId`], [`CallKey`] and [`EventId`]: what tells methods, calls and events apart;
//! - [`RpcError`]: why a call is refused; [`DropCause`]: why an answer that came is dropped;
//! - [`laws`]: what the definitions behind the contracts promise, whatever code keeps them.
//!
//! How it keeps what it keeps. [`ClientCore`] has two tables: the calls that wait for an answer, in a
//! `DeadlineMap` under Message ID and session, and the last session of each Message ID, in an ordered map. At
//! most 1024 calls wait, so the search for a free session ends within 1025 look-ups. `call` is handed the
//! settings, which its caller keeps once, and the endpoint of the known offer. What it answers, [`Outgoing`],
//! lends the payload from where it was lent.
//!
//! [`ServerCore`] has the requests that wait for their answer (a `slab`, and an ordered index from tokens to
//! its keys), the number of the next token, and the last session of each event of an instance. Contracts see
//! two maps and a number. What it needs of other tables is an argument: the instance as it is set up, whether
//! it is up, and for `publish_to` whether the one endpoint is live. `publish` answers one [`Publication`],
//! and `Publication::to` what goes to one endpoint, so the payload is lent to all of them. `checks` holds the
//! checks of an instance, `events` what may be published, `open` the requests that wait.
#![tactic(auto)]

mod call;
mod checks;
mod client;
mod error;
mod events;
mod ids;
mod key_laws;
pub mod laws;
mod open;
mod pending;
mod publication;
mod request;
mod server;
mod service;

pub use call::{Awaited, Call, CallKind, ClientRules, Outgoing};
pub use client::ClientCore;
pub use error::{DropCause, RpcError};
pub use ids::{CallKey, EventId, MessageId};
pub use publication::{Publication, Subscriber};
pub use request::{Arrived, Asked, Reply, RequestFault};
pub use server::ServerCore;
pub use service::ServiceRules;
