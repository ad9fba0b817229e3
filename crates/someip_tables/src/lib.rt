//! What the layers above share on tables with keys and deadlines, on the standard library alone.
//!
//! - [`Moment`]: a point of a node's clock;
//! - [`Deadline`]: until when something lasts;
//! - [`Key`] and [`is_same_key`]: what tells the entries of a table apart;
//! - [`DeadlineMap`]: a map whose values last until a deadline each, as [`Lasting`] says;
//! - [`TimedMap`]: a map whose values wait for a moment each, or for none, as [`Waits`] says;
//! - [`value_at`] and [`put_value`]: a map whose values stay until they are replaced;
//! - [`next_session`] and [`session_after_last`]: Session IDs in cyclic order;
//! - [`earlier`]: which of two moments comes first;
//! - [`hashed`]: tables whose keys are found by their hash, for the audit of recordings;
//! - [`laws`]: what the definitions behind the contracts promise, whatever body keeps them.
//!
//! How tables are kept. A moment never passes 2^63 - 1 milliseconds, and its type says so: no call that takes
//! the clock has a condition on it. A deadline may lie past the last moment.
//!
//! - `DeadlineMap` is an ordered map, and beside it an ordered set of (deadline, key) with exactly the
//!   deadlines of the map (`Tracks`). A key is found, put in or taken out in O(log n), and what has expired
//!   is found without a look at the rest. A deadline that never passes stands in the map alone. `insert` adds
//!   the new deadline before it takes the old one out, and takes it out again where the map cannot grow: a
//!   refused call leaves all as it was. What has expired stays until `drop_expired`; `unexpired` does not
//!   show it.
//! - `TimedMap` is an ordered map, and beside it a list of (moment, key) that falls, so that what is due
//!   stands at its end. The list has exactly the moments of the map (`IsAgenda`), and room for one of each
//!   entry. So a change of a value finds room, and only `insert` of a new key takes memory, and `due_keys`
//!   where something is due.
//! - Contracts see the list of a map's entries, and say what a call does to the finite map that they make
//!   (`map_of`). A key type says by `impl Key` that only equal values tie in its order, so two maps that
//!   answer alike are equal.
//! - `proofs/` is open to the crates above: `MapLaws` (two changes in turn), `Expiry` (what time leaves),
//!   `Entries` (lists without a key twice, as maps), `Sorted`, `Members`, `SortedEntries` (sorted sets),
//!   `RunLemmas` (keys in a row), `ChangedLemmas` (maps with values changed), `Trees` (std's ordered map as a
//!   finite map), `Outcomes` (what follows of a `Result`).
#![tactic(auto)]

mod agenda;
mod awaited;
mod deadline;
mod deadline_map;
mod due;
pub mod hashed;
mod key;
mod lasting;
pub mod laws;
mod moment;
mod plain_map;
mod session;
mod timed_map;
mod tracked;
mod waits;

pub use deadline::{Deadline, TTL_FOREVER};
pub use deadline_map::DeadlineMap;
pub use key::{Key, is_same_key};
pub use lasting::Lasting;
pub use moment::Moment;
pub use plain_map::{put_value, value_at};
pub use session::{next_session, session_after_last};
pub use timed_map::TimedMap;
pub use waits::{Waits, earlier};
