//! The numbers at the keys of a table.
ghost use Rattle.std.specs.Prelude.{◌≡◌, ◌≤◌, true, IfOk};
ghost use Rattle.someip_node_rules.specs.forms.GoodConfigs.{is_within};
ghost use Rattle.toml.specs.View.{view};
ghost use Rattle.someip_world_setup_keys.specs.Keys.{IsAsFound, integer_at, integer_or, number_or, within};
ghost use Rattle.someip_world_setup_keys.specs.SaidByKeys.{id_at, port_at, major_at, ttl_at, count_or, time_or};

use crate::error::SetupError;
use sd_wire::Ttl;
use toml::Value;

/// The number at a key that is needed.
pub(crate) fn integer(table: &Value, key: &'static str) -> Result<i64, SetupError>
    ensures { IsAsFound (λ z. z) result (integer_at key.now (view table.now)) }
{
    let Some(value) = table.get(key) else {
        return Err(SetupError::Missing(key));
    };
    value.as_integer().ok_or(SetupError::WrongKind(key))
}

/// The number at a key, or its default.
pub(crate) fn integer_or(table: &Value, key: &'static str, default: i64) -> Result<i64, SetupError>
    ensures { IsAsFound (λ z. z) result (integer_or key.now default (view table.now)) }
{
    let Some(value) = table.get(key) else {
        return Ok(default);
    };
    value.as_integer().ok_or(SetupError::WrongKind(key))
}

/// A number of 32 bits, from `low` to `high`.
pub(crate) fn word(key: &'static str, number: i64, low: u32, high: u32) -> Result<u32, SetupError>
    ensures found { IsAsFound (λ n. n) result (within low high number) }
    ensures range { IfOk result (λ n. (low ≤ n) × (n ≤ high)) }
    ensures good { IfOk result (λ n. is_within low high n ≡ true) }
{
    match u32::try_from(number) {
        Ok(number) if low <= number && number <= high => Ok(number),
        _ => Err(SetupError::OutOfRange(key)),
    }
}

/// The number at a key, from `low` to `high`, or its default.
pub(crate) fn word_or(
    table: &Value,
    key: &'static str,
    default: i64,
    low: u32,
    high: u32,
) -> Result<u32, SetupError>
    ensures found { IsAsFound (λ n. n) result (number_or key.now default low high (view table.now)) }
    ensures range { IfOk result (λ n. (low ≤ n) × (n ≤ high)) }
    ensures good { IfOk result (λ n. is_within low high n ≡ true) }
{
    word(key, integer_or(table, key, default)?, low, high)
}

/// A number of 16 bits, from `low` to `high`.
pub(crate) fn short(key: &'static str, number: i64, low: u16, high: u16) -> Result<u16, SetupError>
    ensures found { IsAsFound (λ n. n) result (within low high number) }
    ensures range { IfOk result (λ n. (low ≤ n) × (n ≤ high)) }
    ensures good { IfOk result (λ n. is_within low high n ≡ true) }
{
    match u16::try_from(number) {
        Ok(number) if low <= number && number <= high => Ok(number),
        _ => Err(SetupError::OutOfRange(key)),
    }
}

/// A number of 8 bits, up to `high`.
pub(crate) fn byte(key: &'static str, number: i64, high: u8) -> Result<u8, SetupError>
    ensures found { IsAsFound (λ n. n) result (within 0 high number) }
    ensures range { IfOk result (λ n. (0 ≤ n) × (n ≤ high)) }
{
    match u8::try_from(number) {
        Ok(number) if number <= high => Ok(number),
        _ => Err(SetupError::OutOfRange(key)),
    }
}

/// The ID at a key: of a service, of an instance or of an eventgroup, from 1 to FFFE.
pub(crate) fn id_at(table: &Value, key: &'static str) -> Result<u16, SetupError>
    ensures { IsAsFound (λ n. n) result (id_at key.now (view table.now)) }
{
    short(key, integer(table, key)?, 1, 0xfffe)
}

/// The port at a key, from 1 to 65535.
pub(crate) fn port_at(table: &Value, key: &'static str) -> Result<u16, SetupError>
    ensures { IsAsFound (λ n. n) result (port_at key.now (view table.now)) }
{
    short(key, integer(table, key)?, 1, 0xffff)
}

/// The major version of a table, from 0 to FE.
pub(crate) fn major_at(table: &Value) -> Result<u8, SetupError>
    ensures { IsAsFound (λ n. n) result (major_at (view table.now)) }
{
    byte("major", integer(table, "major")?, 0xfe)
}

/// The TTL of a table in seconds, from 1 to FFFFFF.
pub(crate) fn ttl_at(table: &Value) -> Result<Ttl, SetupError>
    ensures { IsAsFound (λ n. n) result (ttl_at (view table.now)) }
{
    let seconds = word("ttl", integer(table, "ttl")?, 1, 0xff_ffff)?;
    Ttl::new(seconds).ok_or(SetupError::OutOfRange("ttl"))
}

/// The number of things at a key, from 1 to 1024, or its default.
pub(crate) fn count_or(table: &Value, key: &'static str, default: i64) -> Result<usize, SetupError>
    ensures found { IsAsFound (λ n. n) result (count_or key.now default (view table.now)) }
    ensures range { IfOk result (λ n. (1 ≤ n) × (n ≤ 1024)) }
    ensures good { IfOk result (λ n. is_within 1 1024 n ≡ true) }
{
    Ok(word_or(table, key, default, 1, 1024)? as usize)
}

/// The time at a key in milliseconds, from 1 to an hour, or its default.
pub(crate) fn time_or(table: &Value, key: &'static str, default: i64) -> Result<u32, SetupError>
    ensures found { IsAsFound (λ n. n) result (time_or key.now default (view table.now)) }
    ensures range { IfOk result (λ n. (1 ≤ n) × (n ≤ 3600000)) }
    ensures good { IfOk result (λ n. is_within 1 3600000 n ≡ true) }
{
    word_or(table, key, default, 1, 3_600_000)
}
