//! Keys that the format does not have.
ghost use Rattle.std.specs.Prelude.{◌≡◌, ◌||◌, not, map, codes, string_bytes};
ghost use Rattle.std.specs.List.{list_any, find};
ghost use Rattle.std.specs.Option.{is_some, option_map};
ghost use Rattle.std.specs.BTreeMap.{keys};
ghost use Rattle.toml.specs.View.{view};
ghost use Rattle.someip_world_setup_keys.specs.KnownKeys.{known_keys, is_known_key, has_unknown, listed_at, listed_in, has_unknown_key};
ghost use Rattle.someip_world_setup_keys.specs.Refusals.{RefusesKey};

use crate::error::SetupError;
use crate::tables::listed_at;
use someip_texts::{is_one_of, lesser};
use std::alloc::Global;
use toml::{Table, Value};

/// What a table is about.
#[derive(Clone, Copy)]
pub(crate) enum Subject {
    /// The setup.
    Setup,
    /// A node.
    Node,
    /// An offer.
    Offer,
    /// A want.
    Want,
    /// An event of an offer.
    Event,
    /// An eventgroup of a want.
    Eventgroup,
}

/// The keys that a table about a subject may have.
fn known_keys(subject: Subject) -> &'static [&'static str]
    ensures { map (λ key. key.now) result.now ≡ known_keys subject }
{
    match subject {
        Subject::Setup => &[
            "group",
            "initial_min",
            "initial_max",
            "base",
            "repetitions",
            "cyclic",
            "message_limit",
            "slots",
            "peers",
            "reassembly_timeout",
            "call_timeout",
            "node",
        ],
        Subject::Node => &[
            "name",
            "address",
            "client_id",
            "client_port",
            "delay",
            "liar",
            "offer",
            "want",
        ],
        Subject::Offer => &[
            "service",
            "instance",
            "major",
            "minor",
            "ttl",
            "port",
            "methods",
            "oneways",
            "events",
            "subscribers",
        ],
        Subject::Want => &["service", "instance", "major", "ttl", "groups"],
        Subject::Event => &["id", "groups"],
        Subject::Eventgroup => &["id", "events"],
    }
}

/// Whether a table about a subject may have a key.
fn is_known_key(subject: Subject, key: &str) -> bool
    ensures { result ≡ is_known_key subject key.now }
{
    is_one_of(key, known_keys(subject))
}

/// The least of the keys that a table about a subject may not have.
fn unknown_member(members: &Table, subject: Subject) -> Option<&String>
    ensures { option_map (λ key. key.now) result
        ≡ find (λ key. not (is_known_key subject (string_bytes key))) (keys members.now) }
{
    members
        .keys()
        .find(|key| !is_known_key(subject, key.as_str()))
}

/// The least key of a table that it may not have.
fn first_unknown(table: &Value, subject: Subject) -> Option<&str>
    ensures { is_some result ≡ has_unknown subject (view table.now) }
{
    let Some(members) = table.as_table() else {
        return None;
    };
    match unknown_member(members, subject) {
        Some(key) => Some(key.as_str()),
        None => None,
    }
}

/// The least unknown key of some tables.
fn unknown_of(tables: &[Value], subject: Subject) -> Option<&str>
    ensures { is_some result ≡ list_any (has_unknown subject) (map view tables.now) }
{
    let mut least = None;
    for table in tables {
        least = lesser(least, first_unknown(table, subject));
    }
    least
}

/// The least unknown key of the tables that stand in lists at a key.
fn unknown_at<'a>(tables: &'a [Value], key: &str, subject: Subject) -> Option<&'a str>
    ensures { is_some result
        ≡ list_any (has_unknown subject) (listed_in key.now (map view tables.now)) }
{
    let mut least = None;
    for table in tables {
        least = lesser(least, unknown_of(listed_at(table, key), subject));
    }
    least
}

/// The least unknown key of the tables that stand in lists at one key, of tables that stand in lists at
/// another.
fn unknown_below<'a>(
    tables: &'a [Value],
    outer: &str,
    inner: &str,
    subject: Subject,
) -> Option<&'a str>
    ensures { is_some result
        ≡ list_any (has_unknown subject)
        (listed_in inner.now (listed_in outer.now (map view tables.now))) }
{
    let mut least = None;
    for table in tables {
        least = lesser(least, unknown_at(listed_at(table, outer), inner, subject));
    }
    least
}

/// The least unknown key of the offers and wants of nodes.
fn unknown_of_instances(nodes: &[Value]) -> Option<&str>
    ensures { is_some result
        ≡ (list_any (has_unknown Subject.Offer) (listed_in (codes "offer") (map view nodes.now))
        || list_any (has_unknown Subject.Want) (listed_in (codes "want") (map view nodes.now))) }
{
    lesser(
        unknown_at(nodes, "offer", Subject::Offer),
        unknown_at(nodes, "want", Subject::Want),
    )
}

/// The least unknown key of the events and eventgroups of nodes.
fn unknown_of_lists(nodes: &[Value]) -> Option<&str>
    ensures { is_some result
        ≡ (list_any (has_unknown Subject.Event)
        (listed_in (codes "events") (listed_in (codes "offer") (map view nodes.now)))
        || list_any (has_unknown Subject.Eventgroup)
        (listed_in (codes "groups") (listed_in (codes "want") (map view nodes.now)))) }
{
    lesser(
        unknown_below(nodes, "offer", "events", Subject::Event),
        unknown_below(nodes, "want", "groups", Subject::Eventgroup),
    )
}

/// The least unknown key at the least depth that has one.
fn unknown_in(tree: &Value) -> Option<&str>
    ensures { is_some result ≡ has_unknown_key (view tree.now) }
{
    let nodes = listed_at(tree, "node");
    if let Some(key) = first_unknown(tree, Subject::Setup) {
        return Some(key);
    }
    if let Some(key) = unknown_of(nodes, Subject::Node) {
        return Some(key);
    }
    if let Some(key) = unknown_of_instances(nodes) {
        return Some(key);
    }
    unknown_of_lists(nodes)
}

/// Refuses a tree with an unknown key.
pub fn refuse_unknown(alloc: Global, tree: &Value) -> Result<(), SetupError>
    ensures { RefusesKey (has_unknown_key (view tree.now)) result }
{
    match unknown_in(tree) {
        Some(key) => Err(SetupError::UnknownKey(String::from_str(alloc, key)?)),
        None => Ok(()),
    }
}
