//! The command `audit` of `someipctl`: what is wrong in recordings of network traffic, finding by finding, and what it
//! comes to.
//!
//! - [`show_audit`]: prints what an audit tells; [`AuditAsked`]: what it goes by;
//! - [`SeenDatagram`], [`seen_next`], [`watch_of`]: the datagrams that are looked at, each with its moment and its
//!   number, for whatever else goes over a recording as an audit does;
//! - [`subject`]: what a finding is about, and which are told;
//! - [`time_at`], [`origin_of_due`], [`put_headless`]: the time, the datagram and a line without either, for other
//!   lines of what an audit shows;
//! - [`rules_in`]: the settings that texts say;
//! - [`laws`]: what the definitions behind the contracts promise.
//!
//! `audits` goes over the recordings by `read_loop` of `someipctl_recordings`, and `auditing` hands each datagram to
//! the books of `someip_audit`. `lines` puts time and datagram before a finding; `says` and `fields` tell the rest.
//! `tally` counts by kind, and `noted` by group and by rule of a bench. The summary is printed by `summary`, `groups`,
//! `weights`, and by `unjudged` and `left_out`, which tell what no finding can.
#![tactic(auto)]

mod asked;
mod auditing;
mod audits;
mod fields;
mod group;
mod groups;
pub mod laws;
mod left_out;
mod lines;
mod noted;
mod says;
mod settings;
pub mod subject;
mod summary;
mod tally;
mod unjudged;
mod weights;

pub use asked::AuditAsked;
pub use auditing::SeenDatagram;
pub use audits::{seen_next, show_audit, watch_of};
pub use lines::{origin_of_due, time_at};
pub use settings::{SettingError, SettingTexts, rules_in};
pub use unjudged::put_headless;
