//! What a SOME/IP node is and does: the rules, without a line that carries them out.
//!
//! - [`Config`], with [`Common`], [`OfferedService`] and [`WantedService`]: what a node is set up with;
//! - [`Output`], with [`Payload`] and [`DropReason`]: what a node gives; [`NodeError`]: why it refuses;
//! - [`Target`], [`Receiver`]: what is reached at its endpoints, and who it sends to.
//!
//! The definitions stand in the rooms of `specs/`, and are best read in this order:
//!
//! 1. `forms`: what a node is set up with, sends and gives: `Setups`, `GoodConfigs`, `Entries`,
//!    `Receivers`, `Outputs`, `OutputWords`.
//! 2. `histories`: what it meets, and what it answers of that: `Items`, then question by question
//!    `Questions`, `DiscoveryQuestions`, `CallQuestions`, `SubscriberQuestions`, `OfferQuestions`,
//!    `SeekQuestions`, `WishQuestions`, and all answers together `Tables`, `Starts`, `History`.
//! 3. `rules`: what it does: `Outcomes` and `Plans`, rule by rule `Messages`, `Learning`, `Offering`,
//!    `ServerSubscribing`, `ClientSubscribing`, `Announcing`, `Ticking`, `Calling`, `Answering`,
//!    `Publishing`, datagram by datagram `Handling`, input by input `Inputs`, `Errors`; and the names of
//!    drops and refusals, `DropNames`.
//! 4. `steps`: a step, and many of them: `Steps`, `Advances`, `Waking`, `Lives`, `Limits`,
//!    `SubscriberLimits`.
//! 5. `trails`: which rule gave what, for those who prove more of nodes: `Trails`, `Packets`,
//!    `Bringing`, `Replies`, `SendingRules`, `Meanings`, `Meetings`; beside them `Copies`.
//!
//! What the definitions promise, whatever code carries them out, and worked steps stand in
//! `someip_node_laws`.
//!
//! A node's contract has three parts. *What a node met* is a list of items, newest first (`Items`); a
//! question to it is asked of the list, key by key, and `answers_of` gives the answers to all questions, as
//! `Tables`. *What it does* are rules, functions of the tables of the moment: which items the node meets,
//! what it gives, what it replies. A plan (`Plans`) is rules one after the other, and one function `run` does
//! a plan over the tables of a node or over a history, whose tables are its answers. *What a call promises*
//! is `Reacts` in `Steps`: for every history that the node stands for, the call gives exactly the step of it,
//! and the node then stands for the history with it; or memory ran out, and it stands for none.
//!
//! The proof is cut in two. The engine promises to run the plan over its tables, and knows no history.
//! `proofs/histories/Shown.antt` shows once, for every plan, that a plan over a history shows the same as the
//! plan over its answers.
//!
//! Sessions, tokens and counters that a node gives out are counted from the items of its history: a message
//! of Service Discovery to a receiver, a request that was handed up and a publication are items that a step
//! itself adds.
//!
//! The tick is one item that lets the clock go on. What has passed with it is told by the answers before
//! it, at the new moment; so at rest the tables hold nothing that has passed.
//!
//! A known offer, and a subscription with it, ends at the tick at which its time has passed; so the
//! question names the tick as what decides it. Between ticks no time goes by.
#![tactic(auto)]

mod config;
mod drops;
mod error;
mod output;
mod output_text;
mod payload;
mod receiver;
mod target;

pub use config::{Common, Config, OfferedService, WantedService};
pub use drops::DropReason;
pub use error::NodeError;
pub use output::Output;
pub use output_text::OutputWords;
pub use payload::Payload;
pub use receiver::Receiver;
pub use target::Target;
