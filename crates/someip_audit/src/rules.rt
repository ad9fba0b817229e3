//! The settings of an audit.
use audit_traffic::segments::SegmentRules;
use audit_traffic::sequence::Counting;

/// The settings of an audit.
#[derive(Clone, Copy, Debug, PartialEq, Eq)]
pub struct AuditRules {
    /// How many keys a book holds at most by which endpoints are learnt, and sessions told as lost and reboots; and how
    /// many endpoints are learnt.
    pub limit: usize,
    /// How many keys a book holds at most that judges something else: calls, offers, servers, Subscribes, events that
    /// come in cycles, and ways. Where it is 0 these hold nothing, and what is told of sessions and reboots is the same.
    pub judged: usize,
    /// How many milliseconds an answer may take: that to a REQUEST of which the rules of the bench say nothing,
    /// and that to a Subscribe.
    pub answer_ms: u32,
    /// How many milliseconds after a message one may come that it overtook: from 0 to 60000.
    pub overtake_ms: u32,
    /// Which events a sender counts together.
    pub counting: Counting,
    /// For how many milliseconds from the beginning of the recording no event is told that has no
    /// subscription: its Subscribe may be before the recording.
    pub settle_ms: u32,
    /// How segments are put together.
    pub segments: SegmentRules,
}
