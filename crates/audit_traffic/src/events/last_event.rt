//! The last event of a flow.

/// The last event of a flow, and what is known since then.
#[derive(Clone, Copy, Debug, PartialEq, Eq)]
pub struct LastEvent {
    /// Its session.
    pub session: u16,
    /// Whether something came since by which events may have gone to nobody: a change of a subscription
    /// of the receiver at the sender, or a StopOffer of the service.
    pub is_disturbed: bool,
    /// By how many sessions the nearest one is ahead that another receiver got since, if one did: 1 is
    /// the next one.
    pub nearest: Option<u16>,
}
