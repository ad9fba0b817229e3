//! What is told of calls.
use crate::calls::call::AuditedCall;
use someip_tables::Moment;
use someip_tables::hashed::Numbers;

/// The settings of a book of calls.
#[derive(Clone, Copy, Debug, PartialEq, Eq)]
pub struct CallRules {
    /// How many calls are known at most.
    pub limit: usize,
    /// The moment at which the recording begins.
    pub begins: Moment,
}

/// What a message shows that is not as it should be.
#[derive(Clone, Copy, Debug, PartialEq, Eq)]
pub enum CallFinding {
    /// A REQUEST with a session has the key of another one that is still open.
    KeyReused,
    /// An answer came so many milliseconds after its REQUEST, and not within the time for it.
    Late(u64),
    /// An answer came to a call that was answered already.
    Repeated,
    /// An answer came to no call that is known.
    Unasked,
    /// A REQUEST finds no place, and nothing more is known of its call. It is told of the first one
    /// alone.
    Full,
}

/// A call that had no answer until its deadline.
#[derive(Clone, Copy, Debug, PartialEq, Eq)]
pub struct Unanswered {
    /// The call.
    pub call: AuditedCall,
    /// The numbers of the datagram with its REQUEST.
    pub numbers: Numbers,
    /// The moment of its REQUEST, in milliseconds.
    pub since: u64,
    /// Its deadline, in milliseconds.
    pub until: u64,
}
