//! The numbers at the keys of a rule.
ghost use Rattle.std.specs.Prelude.{◌≡◌, OnErr, OnOk, None, IfErr};
ghost use Rattle.toml.specs.View.{view};
ghost use Rattle.someipctl_rules.specs.Keys.{IsAsFound, cycle_at, cycle_of, id_at, id_of, millis_at, millis_of};

use crate::key_error::KeyError;
use toml::Value;

/// The longest cycle: ten minutes.
const MOST_CYCLE_MS: u32 = 600_000;

/// The ID at a key, from 0 to FFFF, if there is one.
pub(crate) fn id_at(table: &Value, key: &'static str) -> Result<Option<u16>, KeyError>
    ensures { IsAsFound (λ id. id) result key.now (id_at key.now (view table.now)) }
{
    let Some(value) = table.get(key) else {
        return Ok(None);
    };
    let Some(number) = value.as_integer() else {
        return Err(KeyError::WrongKind(key));
    };
    match u16::try_from(number) {
        Ok(id) => Ok(Some(id)),
        Err(_) => Err(KeyError::OutOfRange(key)),
    }
}

/// The milliseconds at a key, from 1 to 4294967295, if there are any.
pub(crate) fn millis_at(table: &Value, key: &'static str) -> Result<Option<u32>, KeyError>
    ensures { IsAsFound (λ millis. millis) result key.now (millis_at key.now (view table.now)) }
{
    let Some(value) = table.get(key) else {
        return Ok(None);
    };
    let Some(number) = value.as_integer() else {
        return Err(KeyError::WrongKind(key));
    };
    match u32::try_from(number) {
        Ok(millis) if millis > 0 => Ok(Some(millis)),
        _ => Err(KeyError::OutOfRange(key)),
    }
}

/// The milliseconds of a cycle at a key, from 1 to 600000, if there are any.
pub(crate) fn cycle_at(table: &Value, key: &'static str) -> Result<Option<u32>, KeyError>
    ensures { IsAsFound (λ millis. millis) result key.now (cycle_at key.now (view table.now)) }
{
    let Some(value) = table.get(key) else {
        return Ok(None);
    };
    let Some(number) = value.as_integer() else {
        return Err(KeyError::WrongKind(key));
    };
    match u32::try_from(number) {
        Ok(millis) if millis > 0 && millis <= MOST_CYCLE_MS => Ok(Some(millis)),
        _ => Err(KeyError::OutOfRange(key)),
    }
}
