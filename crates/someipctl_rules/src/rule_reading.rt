//! Reading one rule.
ghost use Rattle.std.specs.Prelude.{◌≡◌, Some, codes, option_map, IfErr, IfOk};
ghost use Rattle.toml.specs.View.{view};
ghost use Rattle.someipctl_rules.specs.Keys.{IsAsFound};
ghost use Rattle.someipctl_rules.specs.Saying.{message_in, rule_in, treatments_in};
ghost use Rattle.someipctl_rules.specs.Told.{RefusesMessage, RefusesRule, RefusesTreatments};
ghost use Rattle.someipctl_rules.specs.Treating.{bounds_at};

use crate::key_error::KeyError;
use crate::keys::{cycle_at, id_at, millis_at};
use crate::treatments::{list_at, refuse_kinds, treatments_of};
use crate::unknown::{refuse_unknown, refuse_unknown_kinds};
use audit_rules::{KIND_COUNT, Rule, Treatment};
use std::alloc::Global;
use toml::Value;

/// The keys that a rule may have.
const RULE_KEYS: [&str; 6] = [
    "service",
    "method",
    "answer_ms",
    "cycle_ms",
    "allow",
    "at_most",
];

/// The rule that a table says.
pub(crate) fn rule_in(alloc: Global, table: &Value) -> Result<Rule, KeyError>
    ensures ok { IfOk result (λ rule. rule_in (view table.now) ≡ Some rule) }
    ensures err { IfErr result (RefusesRule (view table.now)) }
{
    let message = message_in(table)?;
    let answer_ms = millis_at(table, "answer_ms")?;
    let cycle_ms = cycle_at(table, "cycle_ms")?;
    let treatments = treatments_in(alloc, table)?;
    refuse_unknown(alloc, table, &RULE_KEYS)?;
    Ok(Rule {
        service: message.0,
        method: message.1,
        answer_ms,
        cycle_ms,
        treatments,
    })
}

/// The service and the method of a rule: it names no method without a service.
fn message_in(table: &Value) -> Result<(Option<u16>, Option<u16>), KeyError>
    ensures ok { IfOk result (λ message. message_in (view table.now) ≡ Some message) }
    ensures err { IfErr result (RefusesMessage (view table.now)) }
{
    let service = id_at(table, "service")?;
    if service.is_none() && table.get("method").is_some() {
        return Err(KeyError::Missing("service"));
    }
    Ok((service, id_at(table, "method")?))
}

/// How a rule treats each kind.
fn treatments_in(alloc: Global, table: &Value) -> Result<[Treatment; KIND_COUNT], KeyError>
    ensures ok { IfOk result (λ treatments. treatments_in (view table.now) ≡ Some treatments) }
    ensures err { IfErr result (RefusesTreatments (view table.now)) }
{
    let allowed = list_at(table, "allow")?;
    refuse_kinds(alloc, allowed)?;
    let bounds = bounds_at(table)?;
    refuse_unknown_kinds(alloc, bounds)?;
    treatments_of(allowed, bounds)
}

/// The table at `at_most`, if there is one.
fn bounds_at(table: &Value) -> Result<Option<&Value>, KeyError>
    ensures { IsAsFound (λ bounds. option_map (λ b. view b.now) bounds) result (codes "at_most") (bounds_at (view table.now)) }
{
    match table.get("at_most") {
        None => Ok(None),
        Some(bounds) if bounds.is_table() => Ok(Some(bounds)),
        Some(_) => Err(KeyError::WrongKind("at_most")),
    }
}
