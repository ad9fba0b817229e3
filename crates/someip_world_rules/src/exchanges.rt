//! The exchanges of a run of SOME/IP nodes: calls, publications and subscriptions, what belongs to them,
//! and when their keys are reused cleanly.
//!
//! - [`ExchangeKey`]: what two exchanges share where one is taken for the other;
//! - [`Naming`], [`Side`]: which key a message or an entry names, and whose word that is;
//! - [`laws`]: what holds of the exchanges of every run.
//!
//! The request of a token is the last one that was handed up under it in the present life of the node.
//! Tokens count on within a life, so there is just one; said so, the definition needs no proof of that.
//!
//! Which exchange is meant is one number, the step as of which it is the newest of its key: what the opener
//! says is meant as of the step in which it is said, what the other end says as of the step that sent what
//! it answers. A table of exchanges would say the same with more words.

mod exchange_key;
pub mod laws;
mod naming;

pub use exchange_key::{CallExchange, EventExchange, ExchangeKey, SubscriptionExchange};
pub use naming::{Naming, Side};
