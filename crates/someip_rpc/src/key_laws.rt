//! Message IDs, calls and events as keys of tables.
ghost use Rattle.someip_rpc.specs.IdOrder.{exact_messages, exact_calls, exact_events};

use crate::ids::{CallKey, EventId, MessageId};
use someip_tables::Key;

/// By Service ID, and then by Method ID.
impl Key for MessageId {
    ghost exact = { exact_messages };
}

/// By Message ID, and then by Session ID.
impl Key for CallKey {
    ghost exact = { exact_calls };
}

/// By Service ID, then by Instance ID, and then by Event ID.
impl Key for EventId {
    ghost exact = { exact_events };
}
