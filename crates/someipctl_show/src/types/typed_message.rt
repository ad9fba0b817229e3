//! A table of a types file.
use someip_payload::Shape;
use someip_wire::MessageType;

/// The messages of a service, a method or event and a type, and the shape of their payload.
#[derive(Drop)]
pub(crate) struct TypedMessage {
    /// Service ID.
    pub service: u16,
    /// Method ID, or Event ID.
    pub method: u16,
    /// The type, one without the TP flag.
    pub kind: MessageType,
    /// What the payload is read by.
    pub shape: Shape,
    /// What its value is called.
    pub name: Option<String>,
}
