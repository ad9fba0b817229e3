//! Reassembly in memory that is reserved once.
//!
//! - `interval_pool`: the store;
//! - `slots`: its slots, those that a message stands in, by rising keys, and free ones;
//! - `key_order`: the order of keys;
//! - `part`: a message that has come in part, in the room of its slot;
//! - `room`: that room: the bytes at their places, and which of them are held;
//! - `block`: what is noted of 16 places, and the intervals that held ones make.

mod block;
mod interval_pool;
mod key_order;
mod part;
mod room;
mod slots;

pub use interval_pool::IntervalPool;
