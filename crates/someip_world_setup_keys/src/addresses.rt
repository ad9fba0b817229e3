//! IPv4 addresses.
ghost use Rattle.toml.specs.View.{view};
ghost use Rattle.someip_world_setup_keys.specs.Keys.{IsAsFound, address_of, address_at};

use crate::error::SetupError;
use std::net::Ipv4Addr;
use toml::Value;

/// The address that a text is: four decimal numbers up to 255 without leading zeros, with dots between
/// them.
fn parsed(text: &str, key: &'static str) -> Result<Ipv4Addr, SetupError>
    ensures { IsAsFound (λ a. a) result (address_of text.now) }
{
    match Ipv4Addr::parse_ascii(text.as_bytes()) {
        Ok(address) => Ok(address),
        Err(_) => Err(SetupError::OutOfRange(key)),
    }
}

/// The address at a key.
pub(crate) fn address_at(table: &Value, key: &'static str) -> Result<Ipv4Addr, SetupError>
    ensures { IsAsFound (λ a. a) result (address_at key.now (view table.now)) }
{
    let Some(value) = table.get(key) else {
        return Err(SetupError::Missing(key));
    };
    let Some(text) = value.as_str() else {
        return Err(SetupError::WrongKind(key));
    };
    parsed(text, key)
}
