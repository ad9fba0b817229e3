//! What a message or an entry says of an exchange.

use someip_world_rules::exchanges::Naming;

/// What a message or an entry says of an exchange.
#[derive(Clone, Copy)]
pub(crate) struct Said {
    /// The key that it names, and whose word it is.
    pub(crate) naming: Naming,
    /// Whether it is a Subscribe with a TTL above 0.
    pub(crate) subscribes: bool,
}
