//! What a datagram says of an exchange.

use crate::exchanges::exchange_key::ExchangeKey;

/// Which end of an exchange speaks.
#[derive(Clone, Copy)]
pub enum Side {
    /// The one that opened the exchange: who calls, publishes or subscribes.
    Opener,
    /// The other end, which answers.
    Answerer,
}

/// A message or an entry names the key of an exchange, in the word of one of its ends.
#[derive(Clone, Copy)]
pub struct Naming {
    /// The key.
    pub key: ExchangeKey,
    /// Whose word it is.
    pub side: Side,
}
