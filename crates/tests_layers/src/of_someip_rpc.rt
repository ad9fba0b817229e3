//! Rows of calls and answers, and of events. The server is 192.168.0.1:30509, the client 192.168.0.2:40001. What is sent is
//! told by its endpoints and its header.
use crate::acts::{Told, tell_bytes};
use someip_rpc::{Outgoing, RpcError};
use someip_wire::{Header, Message, MessageType, ReturnCode, header_bytes};
use std::fmt;
use std::fmt::Write;
use std::net::{Ipv4Addr, SocketAddrV4};

mod client;
mod server;

/// The answer to the first call of the method 0423 of the service 1111.
const ANSWER: Header = Header {
    service: 0x1111,
    method: 0x0423,
    client: 0x0102,
    session: 1,
    interface: 1,
    kind: MessageType::Response,
    code: ReturnCode::E_OK,
};

/// What each payload is a front of. It has a byte more than the message limit.
const PAYLOAD: &[u8] = &[7; 1401];

fn payload(len: u16) -> &'static [u8] {
    PAYLOAD.get(..usize::from(len)).unwrap_or(PAYLOAD)
}

fn server_endpoint() -> SocketAddrV4 {
    SocketAddrV4::new(Ipv4Addr::new(192, 168, 0, 1), 30509)
}

fn client_endpoint() -> SocketAddrV4 {
    SocketAddrV4::new(Ipv4Addr::new(192, 168, 0, 2), 40001)
}

/// Writes down what is sent, or the refusal.
fn tell_sent(told: &mut Told, sent: &Result<Outgoing<'_>, RpcError>) -> fmt::Result {
    match sent {
        Ok(sent) => {
            write!(told, "{} > {} ", sent.from, sent.to)?;
            tell_header(told, &sent.message)
        }
        Err(refusal) => write!(told, "{refusal:?}"),
    }
}

fn tell_header(told: &mut Told, message: &Message<'_>) -> fmt::Result {
    match message.payload.len() {
        len @ 0..=65535 => tell_bytes(told, &header_bytes(&message.header, len as u32)),
        _ => Err(fmt::Error),
    }
}
