//! The names of nodes.
ghost use Rattle.std.specs.Prelude.{◌≡◌, string_bytes};
ghost use Rattle.std.specs.List.{list_all};
ghost use Rattle.toml.specs.View.{view};
ghost use Rattle.someip_world_setup_keys.specs.Keys.{IsAsFound, is_name, is_name_byte, name_at};

use crate::error::SetupError;
use std::alloc::Global;
use toml::Value;

/// Whether each byte is one of a to z, 0 to 9.
fn are_name_bytes(text: &[u8]) -> bool
    ensures { result ≡ list_all is_name_byte text.now }
{
    text.iter()
        .all(|b| (97 <= *b && *b <= 122) || (48 <= *b && *b <= 57))
}

/// Whether a text is 1 to 16 of a to z, 0 to 9.
fn is_name(text: &str) -> bool
    ensures { result ≡ is_name text.now }
{
    1 <= text.len() && text.len() <= 16 && are_name_bytes(text.as_bytes())
}

/// The name of a node's table.
pub(crate) fn name_at(alloc: Global, table: &Value) -> Result<String, SetupError>
    ensures { IsAsFound string_bytes result (name_at (view table.now)) }
{
    let Some(value) = table.get("name") else {
        return Err(SetupError::Missing("name"));
    };
    let Some(text) = value.as_str() else {
        return Err(SetupError::WrongKind("name"));
    };
    if !is_name(text) {
        return Err(SetupError::OutOfRange("name"));
    }
    Ok(String::from_str(alloc, text)?)
}
