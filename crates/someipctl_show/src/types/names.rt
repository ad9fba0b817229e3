//! Names for shapes: what the table `types` of a types file says.
//!
//! A text may refer to texts before it and after it, so a name is judged after those that its text refers to.
//! A list holds the names on the way down, and how far their texts were looked through, so that no chain of
//! names takes stack.
ghost use Rattle.std.specs.Prelude.{◌≡◌, ◌+◌, ◌≤◌, ◌++◌, ◌||◌, ◌∷◌, ℕ, [], Some, None, true, false, List, Ok, IfOk, IfErr, OnOk, string_bytes, option_map};
ghost use Rattle.std.specs.BTreeSet.{contains_text};
ghost use Rattle.std.specs.Str.{bytes_eq};
ghost use Rattle.std.specs.List.{list_all};
ghost use Rattle.toml.specs.Data.{as_table};
ghost use Rattle.toml.specs.View.{view, table_view};
ghost use Rattle.someip_payload_values.specs.Check.{is_first, is_later, is_name};
ghost use Rattle.someipctl_show.specs.types.Faults.{NamesHaveFault};
ghost use Rattle.someipctl_show.specs.types.Judging.{AllNames, BeginsWith, HasNames, IsPut, Judged, KnowsMore, NoShape, NoStep, OpensMore, StepFits, TellsIn, TellsName, TellsOf, TextsFail, WayFits, step_weight, way_weight};
ghost use Rattle.someipctl_show.specs.types.Keys.{text_at};
ghost use Rattle.someipctl_show.specs.types.Names.{are_texts, most_written};
ghost use Rattle.someipctl_show.specs.types.References.{Knows};

use crate::types::error::TypesError;
use crate::types::key_error::KeyError;
use crate::types::references::{next_name, read_in};
use someip_payload::NamedShapes;
use std::alloc::Global;
use std::collections::BTreeSet;
use toml::{Table, Value};

/// The most shapes that may be written out for names, in all texts of a file.
const MOST_WRITTEN: u64 = 65_536;

/// The longest name.
const MAX_NAME_LEN: usize = 64;

/// The shapes that names stand for, and how many shapes may still be written out for names.
#[derive(Drop)]
pub(crate) struct Names {
    /// The shapes by their names.
    pub shapes: NamedShapes,
    /// How many shapes may still be written out.
    pub left: u64,
}

/// A name on the way down, and the place from which its text is still to be looked through.
#[derive(Drop)]
pub(crate) struct Step {
    /// The name.
    pub name: String,
    /// The place in its text.
    pub from: usize,
}

/// The way down to a name: each step refers to the next.
#[derive(Drop)]
pub(crate) struct Way {
    /// The steps.
    pub path: Vec<Step>,
    /// The names of these steps, and of earlier ones, which were judged.
    pub opened: BTreeSet<String>,
}

/// What the names of a tree stand for.
pub(crate) fn names_in(alloc: Global, tree: &Value) -> Result<Names, TypesError>
    ensures ok { IfOk result (HasNames (view tree.now)) }
    ensures err { IfErr result (NamesHaveFault (view tree.now)) }
{
    let Some(types) = tree.get("types") else {
        return Ok(no_names(alloc));
    };
    let Some(table) = types.as_table() else {
        return Err(TypesError::File(KeyError::WrongKind("types")));
    };
    refuse_texts(alloc, table)?;
    names_of(alloc, types, table)
}

/// No name stands for a shape.
fn no_names(alloc: Global) -> Names
    ensures { (result.shapes ≡ []) × (result.left ≡ 65536) }
{
    Names {
        shapes: NamedShapes::new(alloc),
        left: MOST_WRITTEN,
    }
}

/// Refuses a table that has a key which is no name, or a value which is no text.
fn refuse_texts(alloc: Global, table: &Table) -> Result<(), TypesError>
    ensures ok { OnOk result (are_texts (table_view table.now) ≡ true) }
    ensures err { IfErr result (TextsFail (table_view table.now)) }
{
    for (name, value) in table.iter() {
        if !is_name(name.as_bytes()) {
            let name = String::from_str(alloc, name.as_str())?;
            return Err(TypesError::Types(KeyError::UnknownKey(name)));
        }
        if value.as_str().is_none() {
            let name = String::from_str(alloc, name.as_str())?;
            return Err(TypesError::Named(name, KeyError::WrongKind("shape")));
        }
    }
    Ok(())
}

/// Whether a text is a name: a letter or `_`, then letters, digits and `_`, at most 64 bytes.
fn is_name(text: &[u8]) -> bool
    ensures { result ≡ is_name text.now }
{
    match text {
        [] => false,
        [first, rest @ ..] => { is_first(*first) && are_later(rest) && rest.len() < MAX_NAME_LEN }
    }
}

/// A letter of ASCII or an underscore.
fn is_first(byte: u8) -> bool
    ensures { result ≡ is_first byte }
{
    byte.is_ascii_alphabetic() || byte == b'_'
}

/// Whether a name may go on with each byte.
fn are_later(bytes: &[u8]) -> bool
    ensures { result ≡ list_all is_later bytes.now }
{
    bytes.iter().all(|b| is_later(*b))
}

/// The same, or a digit.
fn is_later(byte: u8) -> bool
    ensures { result ≡ is_later byte }
{
    is_first(byte) || byte.is_ascii_digit()
}

/// What the names of a table of texts stand for.
fn names_of(alloc: Global, types: &Value, table: &Table) -> Result<Names, TypesError>
    requires table { as_table (view types.now) ≡ Some (table_view table.now) }
    requires texts { are_texts (table_view table.now) ≡ true }
    ensures ok { IfOk result (AllNames (view types.now)) }
    ensures err { IfErr result (TellsName (view types.now)) }
{
    let mut names = no_names(alloc);
    for name in table.keys() {
        judge(alloc, types, name.as_str(), &mut names)?;
    }
    Ok(names)
}

/// Judges a name after those that its text refers to, and these after those that theirs do.
fn judge(alloc: Global, types: &Value, first: &str, names: &mut Names) -> Result<(), TypesError>
    requires judged { Judged (view types.now) names.old }
    requires there { (text : List ℕ) × (text_at first.now (view types.now) ≡ Some text) }
    ensures ok { OnOk result (Judged (view types.now) names.new) }
    ensures known { OnOk result (Knows names.new.shapes first.now) }
    ensures more { OnOk result (KnowsMore names.old.shapes names.new.shapes) }
    ensures err { IfErr result (TellsIn (view types.now) names.old.shapes first.now) }
{
    let mut way = Way {
        path: Vec::new(alloc),
        opened: BTreeSet::new(alloc),
    };
    open(alloc, first, &mut way)?;
    while let Some(step) = way.path.pop() {
        go_on(alloc, types, step, names, &mut way)?;
    }
    Ok(())
}

/// Goes down to a name.
fn open(alloc: Global, name: &str, way: &mut Way) -> Result<(), TypesError>
    ensures path { OnOk result ((n : _) × (string_bytes n ≡ name.now)
        × (way.new.path.items ≡ way.old.path.items ++ record { name = n; from = 0 } ∷ [])) }
    ensures opened { OnOk result ((n : List ℕ)
        → contains_text way.new.opened n ≡ (bytes_eq name.now n || contains_text way.old.opened n)) }
    ensures err { IfErr result (λ e. e ≡ TypesError.OutOfMemory) }
{
    way.opened.insert(String::from_str(alloc, name)?)?;
    let name = String::from_str(alloc, name)?;
    way.path.push(Step { name, from: 0 })?;
    Ok(())
}

/// Goes on from a step: down to the next name that its text refers to, or back, where the name is judged.
fn go_on(
    alloc: Global,
    types: &Value,
    step: Step,
    names: &mut Names,
    way: &mut Way,
) -> Result<(), TypesError>
    requires judged { Judged (view types.now) names.old }
    requires step { StepFits (view types.now) names.old.shapes step None }
    requires way { WayFits (view types.now) names.old.shapes way.old (Some (string_bytes step.name)) }
    ensures judged { OnOk result (Judged (view types.now) names.new) }
    ensures more { OnOk result (KnowsMore names.old.shapes names.new.shapes) }
    ensures way { OnOk result (WayFits (view types.now) names.new.shapes way.new None) }
    ensures opened { OnOk result (OpensMore way.old way.new) }
    ensures shorter { OnOk result (way_weight (view types.now) way.new + 1
        ≤ way_weight (view types.now) way.old + step_weight (view types.now) step) }
    ensures begins { OnOk result ((first : List ℕ)
        → BeginsWith (way.old.path.items ++ step ∷ []) first → BeginsWith way.new.path.items first) }
    ensures err { IfErr result (TellsOf (view types.now) names.old.shapes (string_bytes step.name)) }
{
    let Some(text) = text_named(types, step.name.as_str()) else {
        return Ok(());
    };
    let Some((other, end)) = next_name(text, step.from) else {
        return put_name(alloc, step.name, text, names);
    };
    let is_new = is_new(alloc, types, names, way, step.name.as_str(), other)?;
    let name = step.name;
    way.path.push(Step { name, from: end })?;
    if is_new {
        open(alloc, other, way)?;
    }
    Ok(())
}

/// The text of a name.
fn text_named<'a>(types: &'a Value, name: &str) -> Option<&'a str>
    ensures { option_map (λ text. text.now) result ≡ text_at name.now (view types.now) }
{
    match types.get(name) {
        Some(value) => value.as_str(),
        None => None,
    }
}

/// Whether a name that the text of another refers to is still to be judged. Refuses one that has no text, and
/// one that was opened and not judged: then its own text leads back to it.
fn is_new(
    alloc: Global,
    types: &Value,
    names: &Names,
    way: &Way,
    name: &str,
    other: &str,
) -> Result<bool, TypesError>
    ensures known { IfOk result (λ new. new ≡ false → Knows names.now.shapes other.now) }
    ensures there { IfOk result (λ new. new ≡ true
        → (text : List ℕ) × (text_at other.now (view types.now) ≡ Some text)) }
    ensures unopened { IfOk result (λ new. new ≡ true → contains_text way.now.opened other.now ≡ false) }
    ensures err { IfErr result (NoStep (view types.now) names.now.shapes way.now name.now other.now) }
{
    if names.shapes.get(other).is_some() {
        return Ok(false);
    }
    let has_text = text_named(types, other).is_some();
    if has_text && !way.opened.contains(other) {
        return Ok(true);
    }
    let name = String::from_str(alloc, name)?;
    let other = String::from_str(alloc, other)?;
    if has_text {
        Err(TypesError::Named(name, KeyError::Cycle(other)))
    } else {
        Err(TypesError::Named(name, KeyError::Unknown(other)))
    }
}

/// Gives a name the shape of its text, unless it has it.
fn put_name(alloc: Global, name: String, text: &str, names: &mut Names) -> Result<(), TypesError>
    requires { names.old.left ≤ most_written }
    ensures ok { OnOk result (IsPut names.old names.new (string_bytes name) text.now) }
    ensures err { IfErr result (NoShape names.old (string_bytes name) text.now) }
{
    if names.shapes.get(name.as_str()).is_some() {
        return Ok(());
    }
    match read_in(alloc, &names.shapes, names.left, text) {
        Ok((shape, left)) => {
            names.shapes.insert(name, shape)?;
            names.left = left;
            Ok(())
        }
        Err(KeyError::OutOfMemory) => Err(TypesError::OutOfMemory),
        Err(error) => Err(TypesError::Named(name, error)),
    }
}
