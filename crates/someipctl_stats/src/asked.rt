//! What is asked for.
use someip_audit::AuditRules;
use someipctl_io::Form;
use someipctl_recordings::Wanted;

/// What is asked for of recordings: which packets are looked at, what of them counts, and in which form the figures are
/// printed.
#[derive(Clone, Copy)]
pub struct StatsAsked<'a> {
    /// The settings of the audit that learns endpoints, and tells which sessions of events are lost and who began
    /// again. What they say of its other books counts for nothing.
    pub rules: AuditRules,
    /// Which packets are looked at, at which ports and endpoints, and of which services, clients, addresses and times
    /// things count.
    pub wanted: Wanted<'a>,
    /// How the lines are printed.
    pub form: Form,
}
