//! The kinds of findings of an audit, and the rules by which findings are taken.
//!
//! - [`Kind`]: a kind of findings, by the words of its lines;
//! - [`Rules`]: the rules of a bench: the first [`Rule`] that fits a service and a method counts;
//! - [`Treatment`]: how a rule takes the findings of a kind; [`Weight`]: what a finding weighs by the rules;
//! - [`WeightBook`]: what came by the rules; [`Exceeded`]: of which kind more came than may;
//! - [`laws`]: the definitions behind the contracts, by example.
#![tactic(auto)]

mod kind;
pub mod laws;
mod rule;
mod rules;
mod weights;

pub use kind::{KIND_COUNT, Kind, kinds};
pub use rule::{Rule, Treatment};
pub use rules::{MOST_RULES, Rules, Weight};
pub use weights::{Exceeded, WeightBook};
