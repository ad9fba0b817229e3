//! The rules of a bench, as a file says them.
//!
//! - [`read_rules`]: reads a file of rules whole;
//! - [`RulesError`]: why a text says no rules, and where; [`KeyError`]: why one of its parts says nothing;
//! - [`laws`]: what texts say, by example.
//!
//! `specs/Saying.antt` says which rules the tree of a text says, and `specs/Told.antt` what is told of one that says
//! none.
#![tactic(auto)]

mod error;
mod key_error;
mod keys;
pub mod laws;
mod reading;
mod rule_reading;
mod treatments;
mod unknown;

pub use error::{RulesError, RulesRefusal};
pub use key_error::KeyError;
pub use reading::read_rules;
