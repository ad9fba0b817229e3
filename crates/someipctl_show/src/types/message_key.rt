//! What tells the messages of tables apart.
ghost use Rattle.std.specs.Prelude.{◌≡◌};
ghost use Rattle.someipctl_show.specs.types.Views.{key_by};

use someip_wire::MessageType;

/// A service, a method or event of it, and a type of messages.
#[derive(Clone, Copy, PartialEq, Eq, PartialOrd, Ord)]
pub(crate) struct MessageKey {
    /// Service ID.
    pub service: u16,
    /// Method ID, or Event ID.
    pub method: u16,
    /// The number of the Message Type.
    pub kind: u8,
}

/// The key of a service, a method or event, and a type.
pub(crate) fn key_by(service: u16, method: u16, kind: MessageType) -> MessageKey
    ensures { result ≡ key_by service method kind }
{
    MessageKey {
        service,
        method,
        kind: kind.number(),
    }
}
