//! The checks of an instance on what comes to it.
ghost use Rattle.std.specs.Prelude.{◌≡◌, Some, None};
ghost use Rattle.someip_rpc.specs.Requests.{is_declared, is_known_method, has_no_room, lacks_room};
ghost use Rattle.someip_rpc.specs.Requests.{request_fault};

use crate::open::OpenRequests;
use crate::request::RequestFault;
use crate::service::ServiceRules;
use someip_wire::{Header, MessageType};

/// How many requests may wait at once.
const MOST_OPEN: usize = 1024;

/// The first check that a REQUEST or REQUEST_NO_RETURN fails (SOME/IP Protocol, "Error Handling").
pub(crate) fn request_fault(
    rules: &ServiceRules,
    is_up: bool,
    header: &Header,
    requests: &OpenRequests,
    next: u64,
) -> Option<RequestFault>
    ensures { result ≡ request_fault rules.now is_up header.now requests.now next }
{
    if !(is_up && header.service == rules.service) {
        Some(RequestFault::UnknownService)
    } else if header.interface != rules.major {
        Some(RequestFault::WrongInterface)
    } else if !is_known_method(rules, header.method) {
        Some(RequestFault::UnknownMethod)
    } else if !is_declared(rules, header.kind, header.method) {
        Some(RequestFault::WrongType)
    } else if lacks_room(header.kind, requests, next) {
        Some(RequestFault::NotReady)
    } else {
        None
    }
}

/// Whether a method is declared for messages of this type.
fn is_declared(rules: &ServiceRules, kind: MessageType, method: u16) -> bool
    ensures { result ≡ is_declared rules.now kind method }
{
    match kind {
        MessageType::Request => rules.methods.contains(&method),
        MessageType::RequestNoReturn => rules.oneways.contains(&method),
        _ => false,
    }
}

/// Whether a method is declared for REQUEST or for REQUEST_NO_RETURN.
fn is_known_method(rules: &ServiceRules, method: u16) -> bool
    ensures { result ≡ is_known_method rules.now method }
{
    is_declared(rules, MessageType::Request, method)
        || is_declared(rules, MessageType::RequestNoReturn, method)
}

/// Whether no further request can wait. The number of a token never repeats in a life.
fn has_no_room(requests: &OpenRequests, next: u64) -> bool
    ensures { result ≡ has_no_room requests.now next }
{
    requests.len() >= MOST_OPEN || next == u64::MAX
}

/// Whether a message of this type has to wait for its answer, and cannot.
fn lacks_room(kind: MessageType, requests: &OpenRequests, next: u64) -> bool
    ensures { result ≡ lacks_room kind requests.now next }
{
    match kind {
        MessageType::Request => has_no_room(requests, next),
        _ => false,
    }
}
