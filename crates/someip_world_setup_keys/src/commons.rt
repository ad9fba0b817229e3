//! What all nodes share.
ghost use Rattle.std.specs.Prelude.{◌≡◌, true, pos, codes, IfOk};
ghost use Rattle.someip_node_rules.specs.forms.GoodConfigs.{greatest_message_limit, is_good_common, is_within};
ghost use Rattle.toml.specs.View.{view};
ghost use Rattle.someip_world_setup_keys.specs.Keys.{IsAsFound, number_or};
ghost use Rattle.someip_world_setup_keys.specs.SaidByKeys.{said_phases, said_common};
ghost use Rattle.someip_world_setup_keys.specs.Values.{phases_view, common_view};

use crate::addresses::address_at;
use crate::error::SetupError;
use crate::key_numbers::{byte, count_or, integer_or, time_or, word_or};
use sd_core::Phases;
use someip_node_rules::Common;
use toml::Value;

/// The delays after the first one.
fn phases(table: &Value) -> Result<Phases, SetupError>
    ensures { IsAsFound phases_view result (said_phases (view table.now)) }
{
    let base = word_or(table, "base", 30, 1, 60000)?;
    let repetitions = byte("repetitions", integer_or(table, "repetitions", 3)?, 16)?;
    let cyclic = time_or(table, "cyclic", 1000)?;
    Ok(Phases {
        base,
        repetitions,
        cyclic,
    })
}

/// The greatest payload of a message.
fn message_limit(table: &Value) -> Result<usize, SetupError>
    ensures good { IfOk result (λ n. is_within 1400 greatest_message_limit n ≡ true) }
    ensures found { IsAsFound (λ n. n) result (number_or (codes "message_limit") (pos 65536) 1400 greatest_message_limit (view table.now)) }
{
    Ok(word_or(
        table,
        "message_limit",
        65536,
        1400,
        Common::GREATEST_MESSAGE_LIMIT as u32,
    )? as usize)
}

/// What all nodes share.
pub(crate) fn common(table: &Value) -> Result<Common, SetupError>
    ensures found { IsAsFound common_view result (said_common (view table.now)) }
    ensures good { IfOk result (λ c. is_good_common c ≡ true) }
{
    let group = address_at(table, "group")?;
    let initial_min_ms = word_or(table, "initial_min", 10, 0, 60000)?;
    let initial_max_ms = word_or(table, "initial_max", 100, initial_min_ms, 60000)?;
    let phases = phases(table)?;
    let message_limit = message_limit(table)?;
    let slots = count_or(table, "slots", 16)?;
    let peers = count_or(table, "peers", 64)?;
    let reassembly_timeout_ms = time_or(table, "reassembly_timeout", 1000)?;
    let call_timeout_ms = time_or(table, "call_timeout", 2000)?;
    Ok(Common {
        group,
        initial_min_ms,
        initial_max_ms,
        phases,
        message_limit,
        slots,
        peers,
        reassembly_timeout_ms,
        call_timeout_ms,
    })
}
