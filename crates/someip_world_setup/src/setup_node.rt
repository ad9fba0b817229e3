//! The nodes of a setup.

use someip_node_rules::Config;

/// A node of a setup.
#[derive(Debug, Drop)]
pub struct SetupNode {
    /// Its name: 1 to 16 of a to z, 0 to 9.
    pub name: String,
    /// The delay before its first Offers and Finds, in milliseconds.
    pub delay: u32,
    /// Whether it is a liar: it runs no node, and sends any bytes under its own address.
    pub is_liar: bool,
    /// What it is set up with.
    pub config: Config,
}
