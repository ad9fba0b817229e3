//! The setup of a network, read from TOML: what its nodes share, and each node with what it offers and
//! wants.
//!
//! - [`Setup`] and [`SetupNode`]: what is read; [`Setup::read`] reads it;
//! - [`SetupError`]: why a text is no setup;
//! - [`laws`]: what the definitions behind the contracts promise.
#![tactic(auto)]

mod building;
pub mod laws;
mod setup;
mod setup_node;

pub use setup::Setup;
pub use setup_node::SetupNode;
pub use someip_world_setup_keys::SetupError;
