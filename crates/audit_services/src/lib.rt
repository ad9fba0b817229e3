//! Who offered what in a recording and when, and which client was subscribed to what.
//!
//! - [`Intervals`]: what stands under keys, and the intervals of what ended; [`Ended`], [`Interval`], [`Since`],
//!   [`Why`]; [`Shown`]: what changes it; [`Placed`]: at which places a key is, which end what is there;
//! - [`Offered`] and [`Subscribed`]: the keys of offers and of subscriptions; [`OfferTerms`], [`NoTerms`]: what stands
//!   under them; [`Place`], with [`OfferPlace`] and [`Asked`]: where subscriptions are, or [`all_of`] an address;
//! - [`laws`]: which intervals a history has.
//!
//! How it is kept. What stands is in order, with its deadlines beside it. The keys of a place are found without a
//! look at the rest, so a reboot costs what it ends.
#![tactic(auto)]

mod intervals;
pub mod laws;
mod offered;
mod placed;
mod shown;
mod stay;
mod subscribed;
mod table;
mod why;

pub use intervals::Intervals;
pub use offered::{OfferTerms, Offered};
pub use placed::Placed;
pub use shown::Shown;
pub use stay::{Ended, Interval, Since};
pub use subscribed::{Asked, NoTerms, OfferPlace, Place, Subscribed, all_of};
pub use why::Why;
