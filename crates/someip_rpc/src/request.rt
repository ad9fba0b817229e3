//! What comes to a service instance, and what becomes of it.
//!
//! `RequestFault` has the five checks in their order, beside the `DropCause` of answers: a check has a
//! Return Code where a REQUEST fails it, and a name where a REQUEST_NO_RETURN does. A REQUEST_NO_RETURN
//! never fails `NotReady`.
ghost use Rattle.std.specs.Prelude.{◌≡◌};
ghost use Rattle.someip_rpc.specs.Names.{request_fault_name};
ghost use Rattle.someip_rpc.specs.Requests.{answer_header, asked, fault_code};

use crate::call::Outgoing;
use crate::ids::MessageId;
use crate::service::ServiceRules;
use someip_wire::{Header, Message, MessageType, ReturnCode};
use std::net::SocketAddrV4;
use thiserror::Error;

/// A request: who asked what.
#[derive(Clone, Copy, Debug, PartialEq, Eq)]
pub struct Asked {
    /// The endpoint that it came from.
    pub peer: SocketAddrV4,
    /// The endpoint of the instance that it came to.
    pub endpoint: SocketAddrV4,
    /// Its Message ID.
    pub message: MessageId,
    /// Its Client ID.
    pub client: u16,
    /// Its Session ID.
    pub session: u16,
    /// Its Interface Version.
    pub interface: u8,
}

impl Asked {
    /// The request that a message with this header is, which came from an endpoint to an instance.
    pub(crate) fn new(rules: &ServiceRules, peer: SocketAddrV4, header: &Header) -> Asked
        ensures { result ≡ asked rules.now peer header.now }
    {
        Asked {
            peer,
            endpoint: rules.endpoint,
            message: MessageId {
                service: header.service,
                method: header.method,
            },
            client: header.client,
            session: header.session,
            interface: header.interface,
        }
    }

    /// The message that answers it: with its IDs and Interface Version, from the endpoint that it came
    /// to, to the one that it came from.
    pub(crate) fn answered<'a>(
        self,
        kind: MessageType,
        code: ReturnCode,
        payload: &'a [u8],
    ) -> Outgoing<'a>
        ensures from { result.from ≡ self.endpoint }
        ensures to { result.to ≡ self.peer }
        ensures header { result.message.header ≡ answer_header self kind code.0 }
        ensures payload { result.message.payload.now ≡ payload.now }
    {
        let header = Header {
            service: self.message.service,
            method: self.message.method,
            client: self.client,
            session: self.session,
            interface: self.interface,
            kind,
            code,
        };
        Outgoing {
            from: self.endpoint,
            to: self.peer,
            message: Message { header, payload },
        }
    }
}

/// Why an instance does not take a message, in the order of its checks (SOME/IP Protocol, "Error
/// Handling").
#[derive(Clone, Copy, Debug, PartialEq, Eq, Error)]
pub enum RequestFault {
    /// The service is not offered, or is another one.
    #[error("UnknownService")]
    UnknownService,
    /// The Interface Version is not the major version of the service.
    #[error("WrongInterface")]
    WrongInterface,
    /// The method is declared for no type.
    #[error("UnknownMethod")]
    UnknownMethod,
    /// The method is not declared for this Message Type, or no method can be.
    #[error("WrongType")]
    WrongType,
    /// No further request can wait for its answer.
    #[error("NotReady")]
    NotReady,
}

impl RequestFault {
    /// The name of the fault, as a trace tells it.
    pub fn name(&self) -> &'static str
        ensures { result.now ≡ request_fault_name self.now }
    {
        match self {
            RequestFault::UnknownService => "UnknownService",
            RequestFault::WrongInterface => "WrongInterface",
            RequestFault::UnknownMethod => "UnknownMethod",
            RequestFault::WrongType => "WrongType",
            RequestFault::NotReady => "NotReady",
        }
    }

    /// The Return Code of the ERROR that tells it (SOME/IP Protocol, "Return Code").
    pub fn code(self) -> ReturnCode
        ensures { result.0 ≡ fault_code self }
    {
        match self {
            RequestFault::UnknownService => ReturnCode::E_UNKNOWN_SERVICE,
            RequestFault::WrongInterface => ReturnCode::E_WRONG_INTERFACE_VERSION,
            RequestFault::UnknownMethod => ReturnCode::E_UNKNOWN_METHOD,
            RequestFault::WrongType => ReturnCode::E_WRONG_MESSAGE_TYPE,
            RequestFault::NotReady => ReturnCode::E_NOT_READY,
        }
    }
}

/// What becomes of a message that came to an instance.
#[derive(Clone, Copy, Debug, PartialEq, Eq)]
pub enum Arrived {
    /// A REQUEST is to be handed up, with this token: its answer names it.
    Request(u64),
    /// A REQUEST_NO_RETURN is to be handed up.
    Oneway,
    /// A REQUEST is refused, and this ERROR is to be sent.
    Refused(Outgoing<'static>),
    /// The message is dropped.
    Dropped(RequestFault),
}

/// How a request is answered.
#[derive(Clone, Copy, Debug, PartialEq, Eq)]
pub enum Reply {
    /// By a RESPONSE with this code.
    Response(ReturnCode),
    /// By an ERROR with this code, which is not E_OK.
    Error(ReturnCode),
}
