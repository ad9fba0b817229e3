//! The flags at the keys of a table.
ghost use Rattle.toml.specs.View.{view};
ghost use Rattle.someip_world_setup_keys.specs.Keys.{IsAsFound, flag_or};

use crate::error::SetupError;
use toml::Value;

/// The flag at a key, or its default.
pub(crate) fn flag_or(table: &Value, key: &'static str, default: bool) -> Result<bool, SetupError>
    ensures { IsAsFound (λ b. b) result (flag_or key.now default (view table.now)) }
{
    let Some(value) = table.get(key) else {
        return Ok(default);
    };
    value.as_bool().ok_or(SetupError::WrongKind(key))
}
