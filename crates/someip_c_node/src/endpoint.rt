//! An endpoint, as it crosses to C.
ghost use Rattle.std.specs.Prelude.{◌≡◌};
ghost use Rattle.someip_c_node.specs.Records.{endpoint_of, socket_of};

use std::net::{Ipv4Addr, SocketAddrV4};

/// An IPv4 address and a UDP port.
///
/// ```text
/// 10.0.0.2:40000    address = { 10, 0, 0, 2 }, port = 40000
/// ```
#[repr(C)]
#[derive(Clone, Copy, PartialEq, Eq)]
pub struct Endpoint {
    /// The four bytes of the address, as they are written.
    pub address: [u8; 4],
    /// The port, as a number of the machine.
    pub port: u16,
}

impl Endpoint {
    /// No endpoint: all 0.
    pub const NONE: Endpoint = Endpoint {
        address: [0, 0, 0, 0],
        port: 0,
    };

    /// This socket address.
    pub fn of(socket: &SocketAddrV4) -> Endpoint
        ensures { result ≡ endpoint_of socket.now }
    {
        Endpoint {
            address: socket.ip().octets(),
            port: socket.port(),
        }
    }

    /// The socket address.
    pub fn socket(self) -> SocketAddrV4
        ensures { result ≡ socket_of self }
    {
        SocketAddrV4::new(Ipv4Addr::from_octets(self.address), self.port)
    }
}
