//! The tables of a SOME/IP node, and what each input does with them by the rules of a node.
//!
//! - [`Engine`]: the tables, from a start to the last input;
//! - [`Giving`]: what a call gives, while it is gathered;
//! - [`is_good_delay`]: whether a node may be started with a delay.
//!
//! The way of a datagram: `datagram` asks what is at the destination (`Target`): Service
//! Discovery on one of its two channels, the client, an instance by the index of ports, or nothing; `arrival`
//! keeps both endpoints. A message with the TP flag goes through `segments` to the store, and a whole one
//! goes on with the flag cleared. `serving` takes messages to an instance, `client` takes answers and events,
//! `discovery` messages of Service Discovery: `peers` enters the peer and ends what a reboot ends,
//! `entries` takes the entries one by one to `offering`, `server_subscribing` and `known_offers`. Replies are
//! gathered in [`Giving`] beside the outputs; after the last entry `announcing` splits them into messages,
//! each with the next session of its receiver.
//!
//! The way out: `answering`, `calling` and `publishing` ask the cores of `someip_rpc` what is to be sent, and
//! `message_sending` sends it whole or in segments. `config_checks` refuses a configuration at a start, and
//! `waking` tells when a tick next gives something. What came has a name in `_came`; what the application
//! asks has the verb.
#![tactic(auto)]

mod announcing;
mod answering;
mod arrival;
mod calling;
mod client;
mod client_subscribing;
mod config_checks;
mod datagram;
mod discovery;
mod endings;
mod engine;
mod entries;
mod entry_making;
mod known_offers;
mod message_sending;
mod offering;
mod outputs;
mod own_config;
mod passed;
mod peers;
mod publishing;
mod received_payload;
mod segments;
mod server_subscribing;
mod serving;
mod starting;
mod ticking;
mod waking;

pub use config_checks::is_good_delay;
pub use engine::Engine;
pub use outputs::Giving;
