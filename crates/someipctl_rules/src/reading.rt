//! Reading a file of rules.
ghost use Rattle.std.specs.Prelude.{◌≡◌, ◌≤◌, Some, map, length, IfOk, IfErr};
ghost use Rattle.std.specs.List.{list_all};
ghost use Rattle.toml.specs.View.{view};
ghost use Rattle.someipctl_show.specs.types.Says.{tree_of};
ghost use Rattle.someipctl_show.specs.types.Tables.{is_table};
ghost use Rattle.someipctl_rules.specs.Inputs.{BytesSay, InputSays, RefusesBytes, RefusesInput};
ghost use Rattle.someipctl_rules.specs.Saying.{each_rule, rules_in, rules_said, tables_at};
ghost use Rattle.someipctl_rules.specs.Told.{RefusesTables, RefusesText, RefusesTree, TellsRule, in_file, in_rule};

use crate::error::{RulesError, RulesRefusal};
use crate::key_error::KeyError;
use crate::rule_reading::rule_in;
use crate::treatments::list_at;
use crate::unknown::refuse_unknown;
use audit_rules::{MOST_RULES, Rule, Rules};
use someip_texts::text_of;
use someipctl_io::{Fault, read_all};
use std::alloc::Global;
use std::io::Read;
use toml::Value;

/// The keys that the file may have.
const FILE_KEYS: [&str; 1] = ["rule"];

/// Reads a file of rules whole.
///
/// ```text
/// [[rule]]
/// service = 0x1234
/// method = 0x0421
/// answer_ms = 5000
/// allow = ["late", "unanswered"]
/// at_most = { "event gap" = 3 }
///
/// [[rule]]
/// allow = ["reboot"]
/// ```
pub fn read_rules<R: Read>(alloc: Global, source: &mut R) -> Result<Rules, Fault<RulesRefusal>>
    // They are those of the bytes that the source had left.
    ensures said { IfOk result (InputSays (R.remaining source.old)) }
    // Bytes that are refused have the fault that is told.
    ensures refused { IfErr result (RefusesInput (R.remaining source.old)) }
{
    let bytes = read_all(alloc, source)?;
    rules_of(alloc, &bytes)
}

/// The rules that some bytes say: bytes that are no UTF-8 are no TOML.
fn rules_of(alloc: Global, bytes: &[u8]) -> Result<Rules, Fault<RulesRefusal>>
    ensures said { IfOk result (BytesSay bytes.now) }
    ensures refused { IfErr result (RefusesBytes bytes.now) }
{
    let Some(text) = text_of(bytes) else {
        return Err(Fault::Refused(RulesRefusal(RulesError::NotToml)));
    };
    match rules_said(alloc, text) {
        Ok(rules) => Ok(rules),
        Err(RulesError::OutOfMemory) => Err(Fault::OutOfMemory),
        Err(error) => Err(Fault::Refused(RulesRefusal(error))),
    }
}

/// The rules that a text says.
fn rules_said(alloc: Global, text: &str) -> Result<Rules, RulesError>
    ensures ok { IfOk result (λ rules. rules_said (tree_of text.now) ≡ Some rules) }
    ensures err { IfErr result (RefusesText (tree_of text.now)) }
{
    match toml::table_from_str(alloc, text) {
        Ok(table) => rules_in(alloc, &Value::Table(table)),
        Err(error) if error.is_memory() => Err(RulesError::OutOfMemory),
        Err(_) => Err(RulesError::NotToml),
    }
}

/// The rules that a tree says.
fn rules_in(alloc: Global, tree: &Value) -> Result<Rules, RulesError>
    ensures ok { IfOk result (λ rules. rules_in (view tree.now) ≡ Some rules) }
    ensures err { IfErr result (RefusesTree (view tree.now)) }
{
    let tables = match tables_at(tree) {
        Ok(tables) => tables,
        Err(error) => return Err(RulesError::File(error)),
    };
    let rules = each_rule(alloc, tables)?;
    if let Err(error) = refuse_unknown(alloc, tree, &FILE_KEYS) {
        return Err(in_file(error));
    }
    match Rules::of(rules) {
        Some(rules) => Ok(rules),
        None => Err(RulesError::File(KeyError::TooMany)),
    }
}

/// What is told of the file itself.
fn in_file(error: KeyError) -> RulesError
    ensures { result ≡ in_file error }
{
    match error {
        KeyError::OutOfMemory => RulesError::OutOfMemory,
        error => RulesError::File(error),
    }
}

/// The tables at `rule`, or none.
fn tables_at(tree: &Value) -> Result<&[Value], KeyError>
    ensures ok { IfOk result (λ tables. tables_at (view tree.now) ≡ Some (map view tables.now)) }
    ensures few { IfOk result (λ tables. length tables.now ≤ MOST_RULES) }
    ensures err { IfErr result (RefusesTables (view tree.now)) }
{
    let tables = list_at(tree, "rule")?;
    if tables.len() > MOST_RULES {
        return Err(KeyError::TooMany);
    }
    if !are_tables(tables) {
        return Err(KeyError::WrongKind("rule"));
    }
    Ok(tables)
}

/// Whether each value is a table.
fn are_tables(values: &[Value]) -> bool
    ensures { result ≡ list_all is_table (map view values.now) }
{
    is_each_table(values)
}

/// The same of values.
fn is_each_table(values: &[Value]) -> bool
    ensures { result ≡ list_all (λ v. is_table (view v)) values.now }
{
    values.iter().all(|value| value.is_table())
}

/// The rules that tables say, in their order.
fn each_rule(alloc: Global, tables: &[Value]) -> Result<Vec<Rule>, RulesError>
    ensures ok { IfOk result (λ rules. each_rule (map view tables.now) ≡ Some rules.items) }
    ensures count { IfOk result (λ rules. length rules.items ≡ length tables.now) }
    ensures err { IfErr result (TellsRule (map view tables.now)) }
{
    let mut rules = Vec::new(alloc);
    for (i, table) in tables.iter().enumerate() {
        match rule_in(alloc, table) {
            Ok(rule) => rules.push(rule)?,
            Err(error) => return Err(in_rule(i + 1, error)),
        }
    }
    Ok(rules)
}

/// What is told of the rule with a number.
fn in_rule(number: usize, error: KeyError) -> RulesError
    ensures { result ≡ in_rule number error }
{
    match error {
        KeyError::OutOfMemory => RulesError::OutOfMemory,
        error => RulesError::Rule(number, error),
    }
}
