//! What the TOML tree of a setup says, key by key, with the defaults: as plain parts, in the order of
//! the text, and the configurations that are made of them. `someip_world_setup` reads setups with it.
//!
//! - [`parts_of`]: what a tree says; [`SetupParts`], with [`NodeParts`], [`OfferParts`], [`WantParts`] and
//!   [`Listed`];
//! - [`refuse_unknown`]: keys that the format does not have; [`refuse_clashes`]: values that may not be
//!   the same;
//! - [`config`]: the configuration of a node;
//! - [`SetupError`]: why a text is no setup.
#![tactic(auto)]

mod addresses;
mod clashes;
mod commons;
mod configs;
mod error;
mod flags;
mod gathered;
mod key_numbers;
mod lists;
mod names;
mod nodes;
mod offers;
mod parts;
mod repeats;
mod tables;
mod unknown;
mod wants;

pub use clashes::refuse_clashes;
pub use configs::config;
pub use error::SetupError;
pub use nodes::parts_of;
pub use parts::{Listed, NodeParts, OfferParts, SetupParts, WantParts};
pub use unknown::refuse_unknown;
