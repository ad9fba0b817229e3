//! How a rule treats the kinds of findings.
ghost use Rattle.std.specs.Prelude.{◌≡◌, codes, map, not, option_map, true, IfErr, OnErr, OnOk, Some, None};
ghost use Rattle.std.specs.List.{find, list_all, list_any};
ghost use Rattle.toml.specs.View.{view};
ghost use Rattle.someipctl_show.specs.types.Tables.{as_list};
ghost use Rattle.someipctl_rules.specs.Keys.{IsAsFound, IsListFound};
ghost use Rattle.audit_rules.specs.Kinds.{all_kinds, kind_words};
ghost use Rattle.someipctl_rules.specs.Saying.{good_list};
ghost use Rattle.someipctl_rules.specs.Told.{IsUnsaid, ListTold};
ghost use Rattle.someipctl_rules.specs.Treating.{bound_in, each_treated, is_text_of, list_at, names_kind, names_one, number_of, treated, treated_in};

use crate::key_error::KeyError;
use crate::unknown::KIND_WORDS;
use audit_rules::{KIND_COUNT, Kind, Treatment, kinds};
use someip_texts::is_one_of;
use std::alloc::Global;
use toml::Value;

/// Whether words are those of a kind.
fn names_kind(words: &str) -> bool
    ensures { result ≡ names_kind words.now }
{
    is_one_of(words, &KIND_WORDS)
}

/// The elements of an array.
fn elements(value: &Value) -> Option<&[Value]>
    ensures { option_map (λ s. map view s.now) result ≡ as_list (view value.now) }
{
    match value.as_array() {
        Some(list) => Some(list),
        None => None,
    }
}

/// The list at a key, or an empty one.
pub(crate) fn list_at<'a>(table: &'a Value, key: &'static str) -> Result<&'a [Value], KeyError>
    ensures { IsListFound (λ list. map view list.now) result key.now (list_at key.now (view table.now)) }
{
    let Some(value) = table.get(key) else {
        return Ok(&[]);
    };
    match elements(value) {
        Some(list) => Ok(list),
        None => Err(KeyError::WrongKind(key)),
    }
}

/// Refuses values of which one is no text of a kind's words.
pub(crate) fn refuse_kinds(alloc: Global, allowed: &[Value]) -> Result<(), KeyError>
    ensures ok { OnOk result (list_all names_one (map view allowed.now) ≡ true) }
    ensures unsaid { IfErr result (IsUnsaid (good_list (map view allowed.now))) }
    ensures err { IfErr result (ListTold (map view allowed.now)) }
{
    let Some(value) = first_other(allowed) else {
        return Ok(());
    };
    let Some(words) = value.as_str() else {
        return Err(KeyError::WrongKind("allow"));
    };
    let words = String::from_str(alloc, words)?;
    Err(KeyError::UnknownKind(words))
}

/// The first of these values that is no text of a kind's words.
fn first_other(values: &[Value]) -> Option<&Value>
    ensures { option_map (λ v. v.now) result ≡ find (λ v. not (names_one (view v))) values.now }
{
    values.iter().find(|value| !names_one(value))
}

/// Whether a value is the text of a kind's words.
fn names_one(value: &Value) -> bool
    ensures { result ≡ names_one (view value.now) }
{
    match value.as_str() {
        Some(words) => names_kind(words),
        None => false,
    }
}

/// How each kind is treated, where these are allowed and a table bounds some.
pub(crate) fn treatments_of(
    allowed: &[Value],
    bounds: Option<&Value>,
) -> Result<[Treatment; KIND_COUNT], KeyError>
    ensures { IsAsFound (λ treatments. treatments) result (codes "at_most")
        (each_treated (map view allowed.now) (option_map (λ b. view b.now) bounds.entry) all_kinds) }
{
    let mut treatments = [Treatment::Counts; KIND_COUNT];
    for (i, kind) in kinds().iter().enumerate() {
        treatments[i] = treatment_of(allowed, bounds, *kind)?;
    }
    Ok(treatments)
}

/// How a kind is treated.
fn treatment_of(
    allowed: &[Value],
    bounds: Option<&Value>,
    kind: Kind,
) -> Result<Treatment, KeyError>
    ensures { IsAsFound (λ treatment. treatment) result (codes "at_most")
        (treated_in (map view allowed.now) (option_map (λ b. view b.now) bounds.entry) kind) }
{
    match bound_in(bounds, kind)? {
        Some(most) => Ok(Treatment::AtMost(most)),
        None if is_among(allowed, kind.words()) => Ok(Treatment::Allowed),
        None => Ok(Treatment::Counts),
    }
}

/// Whether one of these values is the text of these words.
fn is_among(values: &[Value], words: &str) -> bool
    ensures { result ≡ list_any (is_text_of words.now) (map view values.now) }
{
    has_text(values, words)
}

/// The same of values.
fn has_text(values: &[Value], words: &str) -> bool
    ensures { result ≡ list_any (λ v. is_text_of words.now (view v)) values.now }
{
    values.iter().any(|value| is_text_of(value, words))
}

/// Whether a value is the text of these words.
fn is_text_of(value: &Value, words: &str) -> bool
    ensures { result ≡ is_text_of words.now (view value.now) }
{
    match value.as_str() {
        Some(text) => text == words,
        None => false,
    }
}

/// How many of a kind may come, if a table says so.
fn bound_in(bounds: Option<&Value>, kind: Kind) -> Result<Option<usize>, KeyError>
    ensures { IsAsFound (λ bound. bound) result (codes "at_most")
        (bound_in kind (option_map (λ b. view b.now) bounds.entry)) }
{
    let Some(bounds) = bounds else {
        return Ok(None);
    };
    let Some(value) = bounds.get(kind.words()) else {
        return Ok(None);
    };
    let Some(number) = value.as_integer() else {
        return Err(KeyError::WrongKind("at_most"));
    };
    match u32::try_from(number) {
        Ok(number) => Ok(Some(number as usize)),
        Err(_) => Err(KeyError::OutOfRange("at_most")),
    }
}
