//! What an audit goes by.
use audit_rules::Rules;
use someip_audit::AuditRules;
use someipctl_io::Form;
use someipctl_recordings::Wanted;

/// What an audit goes by.
#[derive(Clone, Copy)]
pub struct AuditAsked<'a> {
    /// Its settings.
    pub rules: AuditRules,
    /// The rules of the bench, by which findings weigh.
    pub bench: &'a Rules,
    /// Which packets are looked at, and the ports that are beside that of Service Discovery: where none are
    /// named, or where that is asked for, also the endpoints that Offers and Subscribes named so far. The rest
    /// chooses the findings that are told, and not what is looked at: those of the services, the client, the
    /// addresses and the times that are named. That a book is full is always told.
    pub wanted: Wanted<'a>,
    /// How the lines are printed.
    pub form: Form,
    /// Whether each line tells the number of its packet: a plain one begins with it, as in `#12`.
    pub frames: bool,
    /// Whether only the first three findings of a group are shown, and the others counted: of those with one kind,
    /// service, method, sender and receiver.
    pub group: bool,
}
