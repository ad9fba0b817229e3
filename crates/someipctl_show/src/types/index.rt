//! Where the table of each key stands.
ghost use Rattle.std.specs.Prelude.{◌≡◌, false, IfOk, IfErr, OnOk};
ghost use Rattle.someipctl_show.specs.types.GoodTypes.{has_clash};
ghost use Rattle.someipctl_show.specs.types.Faults.{FirstClashes, TellsTable};
ghost use Rattle.someipctl_show.specs.types.Views.{IsIndex, types_view};

use crate::types::error::TypesError;
use crate::types::key_error::KeyError;
use crate::types::message_key::{MessageKey, key_by};
use crate::types::typed_message::TypedMessage;
use std::alloc::Global;
use std::collections::BTreeMap;

/// The index of the table of each key, unless two tables have one key.
pub(crate) fn index_of(
    alloc: Global,
    tables: &[TypedMessage],
) -> Result<BTreeMap<MessageKey, usize>, TypesError>
    ensures index { IfOk result (λ places. IsIndex places tables.now) }
    ensures apart { OnOk result (has_clash (types_view tables.now) ≡ false) }
    ensures clash { IfErr result (TellsTable (FirstClashes (types_view tables.now))) }
{
    let mut places = BTreeMap::new(alloc);
    for (i, table) in tables.iter().enumerate() {
        let key = key_by(table.service, table.method, table.kind);
        if places.insert(key, i)?.is_some() {
            return Err(TypesError::Message(i + 1, KeyError::Clash));
        }
    }
    Ok(places)
}
