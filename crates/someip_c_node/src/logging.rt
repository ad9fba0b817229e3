//! The setup to play the log of a node again with.
//!
//! Its text is printed of the tree of the node's own setup, with other nodes. Before it is given it is read
//! again, and compared with what it has to say.
ghost use Rattle.std.specs.Prelude.{◌≡◌, ◌∷◌, ◌++◌, [], IfErr, IfOk, OnOk, if◌then◌else◌, length, map, string_bytes};
ghost use Rattle.someip_c_node.specs.LogSetups.{IsNoLog, IsLogIn, IsLogOf, is_other, liar_names};

use crate::config::config_in;
use crate::endpoint::Endpoint;
use crate::log_rows::has_rows;
use crate::log_tree::log_tree;
use crate::outcome::Outcome;
use crate::peers::refuse_peers;
use someip_node_rules::Config;
use someip_world_setup::Setup;
use std::alloc::{AllocError, Global};

/// The text of a setup with what all nodes of a text's setup share, the node of a name alone, with a
/// delay, and a liar at the address of each peer, whose ports are not looked at. The liars are named, in
/// the order of the peers, by the first of p1, p2, .. that is not the node's name.
///
/// It is refused as `NotText`, as [`config_in`] refuses the text and the name, as `BadDelay`, as
/// `OutOfRange` for more than 63 peers, as `Clash` where two peers have one address, or one has the
/// node's or the group's, and as `OutOfMemory`.
pub fn log_setup(
    alloc: Global,
    text: &[u8],
    name: &[u8],
    delay: u32,
    peers: &[Endpoint],
) -> Result<String, Outcome>
    ensures log { IfOk result (λ log. IsLogOf text.now name.now delay peers.now (string_bytes log)) }
    ensures refused { IfErr result (IsNoLog text.now name.now delay peers.now) }
{
    let Ok(text) = str::from_utf8(text) else {
        return Err(Outcome::NotText);
    };
    let config = config_in(alloc, text, name)?;
    if delay < config.common.initial_min_ms || config.common.initial_max_ms < delay {
        return Err(Outcome::BadDelay);
    }
    refuse_peers(&config, peers)?;
    let Ok(log) = logged(alloc, text, name, delay, peers, &config) else {
        return Err(Outcome::OutOfMemory);
    };
    Ok(log)
}

/// The text of the log's setup.
fn logged(
    alloc: Global,
    text: &str,
    name: &[u8],
    delay: u32,
    peers: &[Endpoint],
    config: &Config,
) -> Result<String, AllocError>
    ensures { IfOk result (λ log. IsLogIn name.now delay (liar_names name.now (length peers.now)) peers.now config.now (string_bytes log)) }
{
    let names = liar_names(alloc, name, peers)?;
    let tree = log_tree(alloc, text, name, delay, &names, peers)?;
    let Ok(log) = toml::table_to_string(alloc, &tree) else {
        return Err(AllocError);
    };
    judged(alloc, log.as_str(), name, delay, &names, peers, config)?;
    Ok(log)
}

/// Reads a text again, and compares it with what it has to say. One that says anything else is given up as
/// for want of memory.
fn judged(
    alloc: Global,
    log: &str,
    name: &[u8],
    delay: u32,
    names: &[String],
    peers: &[Endpoint],
    config: &Config,
) -> Result<(), AllocError>
    ensures { OnOk result (IsLogIn name.now delay (map string_bytes names.now) peers.now config.now log.now) }
{
    let Ok(setup) = Setup::read(alloc, log) else {
        return Err(AllocError);
    };
    if has_rows(setup.nodes(), name, delay, names, peers, config) {
        Ok(())
    } else {
        Err(AllocError)
    }
}

/// Those of p1, p2, .., one more than there are peers, that are not the node's name.
fn liar_names(alloc: Global, name: &[u8], peers: &[Endpoint]) -> Result<Vec<String>, AllocError>
    ensures { IfOk result (λ names. map string_bytes names.items
        ≡ liar_names name.now (length peers.now)) }
{
    let mut names = Vec::new(alloc);
    for number in 1..peers.len() + 2 {
        let liar = format!(in alloc; "p{number}")?;
        push_other(&mut names, liar, name)?;
    }
    Ok(names)
}

/// Adds a name to some, unless it is the node's.
fn push_other(names: &mut Vec<String>, liar: String, name: &[u8]) -> Result<(), AllocError>
    ensures { OnOk result (map string_bytes names.new.items
        ≡ (if is_other name.now (string_bytes liar)
        then map string_bytes names.old.items ++ string_bytes liar ∷ []
        else map string_bytes names.old.items)) }
{
    if liar.as_bytes() == name {
        return Ok(());
    }
    names.push(liar)?;
    Ok(())
}
