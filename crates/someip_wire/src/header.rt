//! The header of a message (SOME/IP Protocol, "Header").
//!
//! A message of Service Discovery is told by Message ID, interface and type alone, whatever its Client ID,
//! session or return code are.
//!
//! A message of Service Discovery is told by one test everywhere, `Header::is_discovery` of `someip_wire`:
//! Message ID FFFF8100, Interface Version 1, NOTIFICATION. A node asks for a session other than 0 too,
//! since its peers count theirs; the audit, for port 30490. Where a datagram of a run is read back, the
//! verdict asks that one test: of what nodes send, it tells exactly the messages of Service Discovery,
//! since no service of a setup has the ID FFFF.
ghost use Rattle.std.specs.Prelude.{◌≡◌};
ghost use Rattle.someip_wire.specs.Kinds.{kind_byte, kind_of, has_tp_flag, with_tp_flag, without_tp_flag};
ghost use Rattle.someip_wire.specs.Discovery.{is_discovery};

/// What a message is for (SOME/IP Protocol, "Message Type"). The five with `Tp` have the TP flag,
/// hex 20: they are segments of such a message.
#[derive(Clone, Copy, Debug, PartialEq, Eq)]
pub enum MessageType {
    /// 00, a call that waits for an answer.
    Request = 0x00,
    /// 01, a call without an answer.
    RequestNoReturn = 0x01,
    /// 02, an event.
    Notification = 0x02,
    /// 80, the answer to a call.
    Response = 0x80,
    /// 81, the answer to a call that failed.
    Error = 0x81,
    /// 20, a segment of a REQUEST.
    TpRequest = 0x20,
    /// 21, a segment of a REQUEST_NO_RETURN.
    TpRequestNoReturn = 0x21,
    /// 22, a segment of a NOTIFICATION.
    TpNotification = 0x22,
    /// A0, a segment of a RESPONSE.
    TpResponse = 0xa0,
    /// A1, a segment of an ERROR.
    TpError = 0xa1,
}

impl MessageType {
    /// The number of the type.
    pub fn number(self) -> u8
        ensures { result ≡ kind_byte self }
    {
        self as u8
    }

    /// Whether the TP flag is set: the message is a segment.
    pub fn has_tp_flag(self) -> bool
        ensures { result ≡ has_tp_flag self }
    {
        match self {
            MessageType::Request
            | MessageType::RequestNoReturn
            | MessageType::Notification
            | MessageType::Response
            | MessageType::Error => false,
            MessageType::TpRequest
            | MessageType::TpRequestNoReturn
            | MessageType::TpNotification
            | MessageType::TpResponse
            | MessageType::TpError => true,
        }
    }

    /// The type with the TP flag set: that of the segments of such a message.
    pub fn with_tp_flag(self) -> MessageType
        ensures { result ≡ with_tp_flag self }
    {
        match self {
            MessageType::Request | MessageType::TpRequest => MessageType::TpRequest,
            MessageType::RequestNoReturn | MessageType::TpRequestNoReturn => {
                MessageType::TpRequestNoReturn
            }
            MessageType::Notification | MessageType::TpNotification => MessageType::TpNotification,
            MessageType::Response | MessageType::TpResponse => MessageType::TpResponse,
            MessageType::Error | MessageType::TpError => MessageType::TpError,
        }
    }

    /// The type with the TP flag cleared: that of the whole message, with which it goes on once its
    /// segments are put together.
    pub fn without_tp_flag(self) -> MessageType
        ensures { result ≡ without_tp_flag self }
    {
        match self {
            MessageType::Request | MessageType::TpRequest => MessageType::Request,
            MessageType::RequestNoReturn | MessageType::TpRequestNoReturn => {
                MessageType::RequestNoReturn
            }
            MessageType::Notification | MessageType::TpNotification => MessageType::Notification,
            MessageType::Response | MessageType::TpResponse => MessageType::Response,
            MessageType::Error | MessageType::TpError => MessageType::Error,
        }
    }
}

/// A return code (SOME/IP Protocol, "Return Code"). Codes without a name are kept as numbers.
#[derive(Clone, Copy, Debug, PartialEq, Eq)]
pub struct ReturnCode(pub u8);

impl ReturnCode {
    /// No error.
    pub const E_OK: ReturnCode = ReturnCode(0x00);
    /// An error without a name of its own.
    pub const E_NOT_OK: ReturnCode = ReturnCode(0x01);
    /// The Service ID is not known.
    pub const E_UNKNOWN_SERVICE: ReturnCode = ReturnCode(0x02);
    /// The Method ID is not known.
    pub const E_UNKNOWN_METHOD: ReturnCode = ReturnCode(0x03);
    /// The service is not ready.
    pub const E_NOT_READY: ReturnCode = ReturnCode(0x04);
    /// The service cannot be reached.
    pub const E_NOT_REACHABLE: ReturnCode = ReturnCode(0x05);
    /// No answer came in time.
    pub const E_TIMEOUT: ReturnCode = ReturnCode(0x06);
    /// The Protocol Version is not supported.
    pub const E_WRONG_PROTOCOL_VERSION: ReturnCode = ReturnCode(0x07);
    /// The Interface Version does not fit.
    pub const E_WRONG_INTERFACE_VERSION: ReturnCode = ReturnCode(0x08);
    /// The payload cannot be read.
    pub const E_MALFORMED_MESSAGE: ReturnCode = ReturnCode(0x09);
    /// The Message Type does not fit.
    pub const E_WRONG_MESSAGE_TYPE: ReturnCode = ReturnCode(0x0a);
}

/// The header of a message. Its Length field follows from the payload, and its Protocol Version is
/// always 01, so neither is a field here.
///
/// ```text
///  0               8               16              24            31
/// +---------------+---------------+---------------+---------------+
/// |          Service ID           |           Method ID           |  Message ID
/// +---------------+---------------+---------------+---------------+
/// |                Length: 8 and the bytes of payload             |
/// +---------------+---------------+---------------+---------------+
/// |           Client ID           |          Session ID           |  Request ID
/// +---------------+---------------+---------------+---------------+
/// | Protocol V. 01| Interface V.  | Message Type  |  Return Code  |
/// +---------------+---------------+---------------+---------------+
/// |                            payload                            |
/// ```
#[derive(Clone, Copy, Debug, PartialEq, Eq)]
pub struct Header {
    /// Service ID, the first half of the Message ID.
    pub service: u16,
    /// Method ID, the second half of the Message ID. The top bit is set for an event.
    pub method: u16,
    /// Client ID, the first half of the Request ID.
    pub client: u16,
    /// Session ID, the second half of the Request ID.
    pub session: u16,
    /// Interface Version: the service's major version.
    pub interface: u8,
    /// Message Type.
    pub kind: MessageType,
    /// Return Code.
    pub code: ReturnCode,
}

impl Header {
    /// The bytes of a header, in front of the payload.
    pub const LEN: usize = 16;

    /// The Service ID of Service Discovery.
    pub const DISCOVERY_SERVICE: u16 = 0xffff;

    /// The Method ID of Service Discovery.
    pub const DISCOVERY_METHOD: u16 = 0x8100;

    /// The Interface Version of Service Discovery.
    pub const DISCOVERY_INTERFACE: u8 = 1;

    /// Whether this is the header of a message of Service Discovery, whatever its Request ID and Return
    /// Code (SOME/IP Service Discovery Protocol, "SOME/IP-SD message").
    pub fn is_discovery(&self) -> bool
        ensures { result ≡ is_discovery self.now }
    {
        self.service == Header::DISCOVERY_SERVICE
            && self.method == Header::DISCOVERY_METHOD
            && self.interface == Header::DISCOVERY_INTERFACE
            && matches!(self.kind, MessageType::Notification)
    }
}

/// The type with this number, if there is one.
pub(crate) fn kind_of_byte(byte: u8) -> Option<MessageType>
    ensures { result ≡ kind_of byte }
{
    match byte {
        0x00 => Some(MessageType::Request),
        0x01 => Some(MessageType::RequestNoReturn),
        0x02 => Some(MessageType::Notification),
        0x80 => Some(MessageType::Response),
        0x81 => Some(MessageType::Error),
        0x20 => Some(MessageType::TpRequest),
        0x21 => Some(MessageType::TpRequestNoReturn),
        0x22 => Some(MessageType::TpNotification),
        0xa0 => Some(MessageType::TpResponse),
        0xa1 => Some(MessageType::TpError),
        _ => None,
    }
}
