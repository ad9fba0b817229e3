//! The settings of an audit, as texts.
ghost use Rattle.std.specs.Prelude.{◌≡◌, IfErr, IfOk};
ghost use Rattle.someipctl_recordings.specs.WholeLimits.{view_text};
ghost use Rattle.someipctl_audit.specs.Settings.{IsRefusedSetting, SaysRules, answer_in, counting_in, overtake_in};
ghost use Rattle.someipctl_audit.specs.Settings.{counting_of, settle_in, view_settings};

use audit_traffic::segments::SegmentRules;
use audit_traffic::sequence::Counting;
use someip_audit::AuditRules;
use someipctl_recordings::number_or;
use thiserror::Error;

/// The texts of the settings of an audit, as far as they are given.
#[derive(Clone, Copy, Debug, PartialEq, Eq)]
pub struct SettingTexts<'t> {
    /// How many milliseconds an answer may take.
    pub answer_ms: Option<&'t str>,
    /// For how many milliseconds at first no event without a subscription is told.
    pub settle_ms: Option<&'t str>,
    /// How many milliseconds after a later one a message may come that was overtaken.
    pub overtake_ms: Option<&'t str>,
    /// Which events a sender counts together.
    pub sessions: Option<&'t str>,
}

/// Which of the texts says no setting.
#[derive(Clone, Copy, Debug, PartialEq, Eq, Error)]
pub enum SettingError {
    /// The time for an answer is no number from 1 to 4294967295.
    #[error("1 to 4294967295")]
    BadAnswer,
    /// The time at first is no number from 0 to 4294967295.
    #[error("0 to 4294967295")]
    BadSettle,
    /// The time for what was overtaken is no number from 0 to 60000.
    #[error("0 to 60000")]
    BadOvertake,
    /// The sessions are neither counted by event nor by sender.
    #[error("event or sender")]
    BadSessions,
}

/// The settings of an audit that texts say; times are milliseconds, as decimal numbers without leading zeros.
/// Without a text an answer may take 2000, for 10000 no event without a subscription is told, what was overtaken
/// may come 100 later, and sessions are counted by event. A book holds at most 65536 keys; 16 messages may have
/// come in part, each with 1048576 bytes at most, and for 5000 milliseconds after its last segment.
pub fn rules_in(texts: &SettingTexts<'_>) -> Result<AuditRules, SettingError>
    ensures said { IfOk result (SaysRules (view_settings texts.now)) }
    ensures refused { IfErr result (IsRefusedSetting (view_settings texts.now)) }
{
    let Some(answer_ms) = answer_in(texts.answer_ms) else {
        return Err(SettingError::BadAnswer);
    };
    let Some(settle_ms) = settle_in(texts.settle_ms) else {
        return Err(SettingError::BadSettle);
    };
    let Some(overtake_ms) = overtake_in(texts.overtake_ms) else {
        return Err(SettingError::BadOvertake);
    };
    let Some(counting) = counting_in(texts.sessions) else {
        return Err(SettingError::BadSessions);
    };
    Ok(AuditRules {
        limit: 65536,
        judged: 65536,
        answer_ms,
        overtake_ms,
        counting,
        settle_ms,
        segments: SegmentRules {
            slots: 16,
            limit: 1_048_576,
            timeout_ms: 5000,
        },
    })
}

/// How many milliseconds an answer may take.
fn answer_in(text: Option<&str>) -> Option<u32>
    ensures { result ≡ answer_in (view_text text.entry) }
{
    Some(number_or(text, 2000, 1, 4_294_967_295)? as u32)
}

/// For how many milliseconds no event without a subscription is told.
fn settle_in(text: Option<&str>) -> Option<u32>
    ensures { result ≡ settle_in (view_text text.entry) }
{
    Some(number_or(text, 10000, 0, 4_294_967_295)? as u32)
}

/// How many milliseconds after a later one a message may come that was overtaken.
fn overtake_in(text: Option<&str>) -> Option<u32>
    ensures { result ≡ overtake_in (view_text text.entry) }
{
    Some(number_or(text, 100, 0, 60000)? as u32)
}

/// Which events a sender counts together.
fn counting_in(text: Option<&str>) -> Option<Counting>
    ensures { result ≡ counting_in (view_text text.entry) }
{
    match text {
        Some(text) => counting_of(text),
        None => Some(Counting::ByEvent),
    }
}

fn counting_of(text: &str) -> Option<Counting>
    ensures { result ≡ counting_of text.now }
{
    match text {
        "event" => Some(Counting::ByEvent),
        "sender" => Some(Counting::BySender),
        _ => None,
    }
}
