//! The words by which a setup is refused.
ghost use Rattle.std.specs.Prelude.{◌≡◌, IfOk, IfErr, string_bytes};
ghost use Rattle.someip_c_node.specs.FaultWords.{TellsFault, WordsOf};
ghost use Rattle.someip_c_node.specs.declared.outcome.Outcome.TheVariants.{OutOfMemory};

use crate::outcome::Outcome;
use someip_world_setup::{Setup, SetupError};
use std::alloc::Global;

/// The words by which a text is refused as a setup, as `Missing group`: the name of the fault and the key
/// at which it is. There are none where the text says a setup. Bytes that are not UTF-8 are no TOML.
///
/// It is refused as `OutOfMemory` alone.
pub fn fault_of_setup(alloc: Global, text: &[u8]) -> Result<String, Outcome>
    ensures words { IfOk result (λ words. TellsFault text.now (string_bytes words)) }
    ensures memory { IfErr result (λ outcome. outcome ≡ OutOfMemory) }
{
    let Ok(text) = str::from_utf8(text) else {
        return words_of(alloc, &SetupError::NotToml);
    };
    match Setup::read(alloc, text) {
        Ok(_) => Ok(String::new(alloc)),
        Err(error) => words_of(alloc, &error),
    }
}

/// The words of a fault.
fn words_of(alloc: Global, error: &SetupError) -> Result<String, Outcome>
    ensures words { IfOk result (λ words. WordsOf error.now (string_bytes words)) }
    ensures memory { IfErr result (λ outcome. outcome ≡ OutOfMemory) }
{
    let (name, key) = match error {
        SetupError::NotToml => ("NotToml", "-"),
        SetupError::Missing(key) => ("Missing", *key),
        SetupError::WrongKind(key) => ("WrongKind", *key),
        SetupError::OutOfRange(key) => ("OutOfRange", *key),
        SetupError::UnknownKey(key) => ("UnknownKey", key.as_str()),
        SetupError::Clash(key) => ("Clash", *key),
        SetupError::OutOfMemory => return Err(Outcome::OutOfMemory),
    };
    match format!(in alloc; "{name} {key}") {
        Ok(words) => Ok(words),
        Err(_) => Err(Outcome::OutOfMemory),
    }
}
