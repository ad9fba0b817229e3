//! The figures of a recording: how many calls, answers, events and messages of Service Discovery there were, and how
//! long answers took and events stayed away.
//!
//! - [`Figures`]: takes note of what is seen, and shows the figures by rising key; [`FigureLimits`]: how much it
//!   keeps; [`Full`]: that there is no room for more;
//! - [`Flow`] and [`Way`]: the keys of methods and events, and of Service Discovery;
//! - [`MethodFigures`], [`EventFigures`], [`DiscoveryFigures`]: what is counted under each;
//! - [`Spread`]: how values spread; [`Summary`]: what is told of them;
//! - [`laws`]: what figures tell of a recording, whatever code keeps them.
//!
//! How they are kept. Each kind of figures stands in an ordered map, whose keys are compared as numbers, and since when
//! calls wait in a table that is found by hash. So a message takes as many steps as its map is deep, and none is gone
//! over. A spread keeps counts of buckets and no values. The seed of the hashes is that of std, and fixed, so a
//! recording can be made whose calls stand in one place, as many as may wait; each look then goes over all of these.
//!
//! A message searches its map once, and looks at the room only where its key is new. A call that wants an answer looks
//! at the room first, by how many methods there are: only where these are as many as may be, it searches twice.
//!
//! How much at most. A method and an event have one spread each, of at most 896 buckets with two numbers of eight bytes:
//! 14 kB, and some 35 kB with what the map itself takes. A call that waits takes less than 40 bytes beside its place in
//! the table. So 4,096 methods and 4,096 events take up to 290 MB. But each bucket was made by a message of its own, and
//! mostly there are dozens.
#![tactic(auto)]

mod calls;
mod counts;
mod discovery;
mod events;
mod figures;
mod full;
mod keys;
pub mod laws;
mod methods;
mod sight;
mod spread;
mod table;
mod wait_table;

pub use discovery::DiscoveryFigures;
pub use events::EventFigures;
pub use figures::Figures;
pub use full::{FigureLimits, Full};
pub use keys::{Flow, Way};
pub use methods::MethodFigures;
pub use spread::{Spread, Summary};
