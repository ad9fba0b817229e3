//! A law of what an audit tells of sessions that are lost, and of senders that began again. It is the contract of a
//! function that does nothing.
ghost use Rattle.std.specs.Prelude.{◌≡◌, ℕ, Bool, List};
ghost use Rattle.audit_rules.specs.declared.Rule.{Rule};
ghost use Rattle.someip_audit.specs.Audits.{AuditState, Audits, Report, Seen, audit_begun};
ghost use Rattle.someip_audit.specs.Losses.{AgreeOnLosses, session_reports};
ghost use Rattle.someip_audit.specs.declared.rules.AuditRules.{AuditRules};

/// What an audit tells of sessions that are lost and of senders that began again rests on few of its rules. How long
/// answers may take, from when on events are told that have no subscription, how much the books hold that only judge,
/// and the rules of a bench change nothing of it. So an audit whose judging books hold nothing tells the same of it.
pub fn sessions_rest_on_few_rules()
    ensures { (rules other : AuditRules) (bench others : List Rule) (ports : List ℕ) (learns : Bool) (begins last : ℕ)
        (datagrams : List Seen) (reports more : List Report) (left after : AuditState) → AgreeOnLosses rules other
        → Audits last (audit_begun rules bench ports learns begins) datagrams reports left
        → Audits last (audit_begun other others ports learns begins) datagrams more after
        → session_reports reports ≡ session_reports more }
{}
