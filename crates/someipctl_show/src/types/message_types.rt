//! What a types file says.
ghost use Rattle.std.specs.Prelude.{◌≡◌, ◌+◌, ◌≤◌, ◌↔◌, IsTrue, [], length, OnErr, IfErr, IfOk, OnOk, string_bytes, option_map};
ghost use Rattle.someip_wire.specs.Spelling.{spelling};
ghost use Rattle.someip_wire.specs.View.{view as message_view};
ghost use Rattle.toml.specs.View.{view};
ghost use Rattle.someipctl_show.specs.types.GoodTypes.{IsGoodTypes};
ghost use Rattle.someipctl_show.specs.types.Faults.{HasFault, TextHasFault, IsReadUnlessMemory};
ghost use Rattle.someipctl_show.specs.types.Says.{SaysTypes, TextSays, tree_of};
ghost use Rattle.someipctl_show.specs.types.Types.{TypesValue, table_for};
ghost use Rattle.someipctl_show.specs.types.ValueFields.{AreValueFields, IsFieldsBehind};
ghost use Rattle.someipctl_show.specs.types.ValueLine.{IsValueLine, has_value_fault};
ghost use Rattle.someipctl_show.specs.types.Views.{typed_view};

use crate::types::error::TypesError;
use crate::types::index::index_of;
use crate::types::message_key::{MessageKey, key_by};
use crate::types::names::names_in;
use crate::types::tables::{message_tables, typed_messages};
use crate::types::typed_message::TypedMessage;
use crate::types::unknown::refuse_unknown;
use crate::types::value_fields::put_payload_fields;
use crate::types::value_line::put_payload_line;
use someip_wire::{Header, Message};
use std::alloc::{AllocError, Global};
use std::collections::BTreeMap;
use std::marker::Model;
use toml::Value;

/// The shapes of the payloads of messages, by service, method or event, and type: what a types file
/// says.
#[derive(Drop)]
pub struct MessageTypes {
    tables: Vec<TypedMessage>,
    places: BTreeMap<MessageKey, usize>,
}

impl Model for MessageTypes {
    ghost use Rattle.someipctl_show.specs.types.GoodTypes.{IsGoodTypes};
    ghost use Rattle.someipctl_show.specs.types.Types.{TypesValue};
    ghost use Rattle.someipctl_show.specs.types.TypesCode.{coded_types};
    ghost use Rattle.someipctl_show.specs.types.Views.{types_view, IsIndex};

    ghost Value = { TypesValue };

    ghost coded = { coded_types };

    ghost view = { λ m. types_view m.tables.items };

    ghost invariant = { λ m. IsGoodTypes (types_view m.tables.items) × IsIndex m.places m.tables.items };
}

/// The types that a tree says.
fn types_in(alloc: Global, tree: &Value) -> Result<MessageTypes, TypesError>
    ensures said { IfOk result (SaysTypes (view tree.now)) }
    ensures only { (types : TypesValue) → SaysTypes (view tree.now) types → IsReadUnlessMemory types result }
    ensures fault { IfErr result (HasFault (view tree.now)) }
{
    let names = names_in(alloc, tree)?;
    let listed = message_tables(tree)?;
    let tables = typed_messages(alloc, &names, listed)?;
    refuse_unknown(alloc, tree, listed)?;
    let places = index_of(alloc, &tables)?;
    Ok(MessageTypes { tables, places })
}

impl MessageTypes {
    /// What says nothing of any message. It takes no memory.
    pub fn none(alloc: Global) -> MessageTypes
        ensures { result ≡ [] }
    {
        MessageTypes {
            tables: Vec::new(alloc),
            places: BTreeMap::new(alloc),
        }
    }

    /// What a text says. The names in `types` stand for shapes.
    ///
    /// ```text
    /// [types]
    /// gear = "u8{0=P,3=D}"
    ///
    /// [[message]]
    /// service = 0x1234
    /// method = 0x8001
    /// type = "NOTIFICATION"
    /// shape = "struct(u16,@gear)"
    /// name = "speed"
    /// ```
    pub fn read(alloc: Global, text: &str) -> Result<MessageTypes, TypesError>
        // It is what the tree of the text says; each key is one of the format, and no two tables name
        // the same messages.
        ensures said { IfOk result (TextSays text.now) }
        // Whatever types a text says are read, and no others, unless memory runs out.
        ensures only { (types : TypesValue) → TextSays text.now types → IsReadUnlessMemory types result }
        // An error tells a fault that is there.
        ensures fault { IfErr result (TextHasFault (tree_of text.now)) }
    {
        match toml::table_from_str(alloc, text) {
            Ok(table) => types_in(alloc, &Value::Table(table)),
            Err(error) if error.is_memory() => Err(TypesError::OutOfMemory),
            Err(_) => Err(TypesError::NotToml),
        }
    }

    /// Whether nothing is said of any message.
    pub fn is_empty(&self) -> bool
        ensures empty { IsTrue result ↔ (self.now ≡ []) }
        // Each shape is one that payloads can have, and no two tables name the same messages.
        ensures good { IsGoodTypes self.now }
    {
        self.tables.is_empty()
    }

    /// Makes a line of the value of a message of the k-th datagram, in place of what the line held: an
    /// empty one where no table names the message. Says whether it tells a fault. The message begins at
    /// the place in the datagram.
    ///
    /// ```text
    /// 1 value speed 42 used 2 of 3
    /// 2 value fault Truncated at 17
    /// ```
    pub fn make_value_line(
        &self,
        alloc: Global,
        k: usize,
        place: usize,
        message: &Message<'_>,
        line: &mut String,
    ) -> Result<bool, AllocError>
        requires room { place + length (spelling (message_view message.now)) ≤ usize.MAX }
        ensures ok { OnOk result (IsValueLine self.now k place (message_view message.now)
            (string_bytes line.new)) }
        ensures faulty { IfOk result (λ faulty. faulty ≡ has_value_fault self.now (message_view message.now)) }
        // Memory ran out: the line is empty.
        ensures err { OnErr result (string_bytes line.new ≡ []) }
    {
        line.clear();
        let Some(table) = self.table_for(&message.header) else {
            return Ok(false);
        };
        let made = put_payload_line(alloc, table, k, place, message.payload, line);
        if made.is_err() {
            line.clear();
        }
        made
    }

    /// Puts the fields of the object of the value of a message behind others: none where no table names the
    /// message. Says whether they tell a fault. The message begins at the place in its datagram. `text` is room
    /// for the text of a float.
    pub(crate) fn put_value_fields(
        &self,
        alloc: Global,
        place: usize,
        message: &Message<'_>,
        out: Vec<u8>,
        text: &mut String,
    ) -> Result<(Vec<u8>, bool), AllocError>
        requires room { place + length (spelling (message_view message.now)) ≤ usize.MAX }
        ensures ok { IfOk result (λ r. IsFieldsBehind out.items
            (AreValueFields self.now place (message_view message.now)) r.0.items) }
        ensures faulty { IfOk result (λ r. r.1 ≡ has_value_fault self.now (message_view message.now)) }
    {
        let Some(table) = self.table_for(&message.header) else {
            return Ok((out, false));
        };
        put_payload_fields(alloc, table, place, message.payload, out, text)
    }

    /// The table that names the messages with a header, if there is one.
    fn table_for(&self, header: &Header) -> Option<&TypedMessage>
        ensures { option_map (λ t. typed_view t.now) result ≡ table_for self.now header.now }
    {
        let key = key_by(header.service, header.method, header.kind);
        match self.places.get(&key) {
            Some(place) => self.tables.get(*place),
            None => None,
        }
    }
}
