//! Keys and kinds that there are not.
ghost use Rattle.std.specs.Prelude.{◌≡◌, false, true, map, option_map, IfErr, OnErr, OnOk, string_bytes};
ghost use Rattle.toml.specs.View.{view};
ghost use Rattle.someipctl_show.specs.types.Tables.{has_unknown};
ghost use Rattle.someipctl_rules.specs.Saying.{good_bounds, only_known};
ghost use Rattle.someipctl_rules.specs.Told.{IsUnsaid, TellsUnknown, TellsUnknownKind};
ghost use Rattle.someipctl_rules.specs.Treating.{has_only_kinds};

use crate::key_error::KeyError;
use someipctl_show::types::first_unknown;
use std::alloc::Global;
use toml::Value;

/// The words of all kinds.
pub(crate) const KIND_WORDS: [&str; 28] = [
    "malformed",
    "bad run",
    "no endpoint",
    "reboot",
    "sd session",
    "sd overtaken",
    "unanswered",
    "late",
    "error",
    "unasked",
    "repeated",
    "key reused",
    "interface",
    "not offered",
    "event repeated",
    "event overtaken",
    "event gap",
    "event unsubscribed",
    "silent",
    "segments",
    "segments missing",
    "offer expired",
    "offer moved",
    "nack",
    "subscribe unanswered",
    "unasked ack",
    "unasked nack",
    "full",
];

/// Refuses a table that has a key which is none of these.
pub(crate) fn refuse_unknown(alloc: Global, table: &Value, known: &[&str]) -> Result<(), KeyError>
    ensures ok { OnOk result (has_unknown (map (λ k. k.now) known.now) (view table.now) ≡ false) }
    ensures unsaid { IfErr result (IsUnsaid (only_known (map (λ k. k.now) known.now) (view table.now))) }
    ensures err { IfErr result (TellsUnknown (map (λ k. k.now) known.now) (view table.now)) }
{
    let Some(key) = first_unknown(table, known) else {
        return Ok(());
    };
    let key = String::from_str(alloc, key)?;
    Err(KeyError::UnknownKey(key))
}

/// Refuses a table that has a key which is the words of no kind.
pub(crate) fn refuse_unknown_kinds(alloc: Global, bounds: Option<&Value>) -> Result<(), KeyError>
    ensures ok { OnOk result (has_only_kinds (option_map (λ b. view b.now) bounds.entry) ≡ true) }
    ensures unsaid { IfErr result (IsUnsaid (good_bounds (option_map (λ b. view b.now) bounds.entry))) }
    ensures err { IfErr result (TellsUnknownKind (option_map (λ b. view b.now) bounds.entry)) }
{
    let Some(bounds) = bounds else {
        return Ok(());
    };
    let Some(words) = first_unknown(bounds, &KIND_WORDS) else {
        return Ok(());
    };
    let words = String::from_str(alloc, words)?;
    Err(KeyError::UnknownKind(words))
}
