//! The last message of a sender to a destination.
use sd_session::Stamp;
use someip_tables::Moment;

/// The last message of a sender to a destination, where those that were overtaken do not count.
#[derive(Clone, Copy, Debug, PartialEq, Eq)]
pub struct Last {
    /// Its session and Reboot flag.
    pub stamp: Stamp,
    /// The moment at which it came.
    pub at: Moment,
}
