//! Rows of segments and of their reassembly.
use someip_wire::{Header, MessageType, ReturnCode};
use std::alloc::{AllocError, Global};

mod calls;
mod rows;
mod segments;
mod slices;
mod store;

const HEADER: Header = Header {
    service: 0x1234,
    method: 0x0421,
    client: 1,
    session: 1,
    interface: 1,
    kind: MessageType::Response,
    code: ReturnCode::E_OK,
};

/// So many bytes, of which each tells its place.
fn payload_of(alloc: Global, len: u32) -> Result<Vec<u8>, AllocError> {
    let mut bytes = Vec::new(alloc);
    for i in 0..len {
        bytes.push((i % 251) as u8)?;
    }
    Ok(bytes)
}
