//! What a liar does in a step.
ghost use Rattle.std.specs.Prelude.{◌≡◌, [], ◌∷◌, IfOk};
ghost use Rattle.someip_node_rules.specs.declared.output.Output.TheVariants.{Sent};
ghost use Rattle.someip_world_rules.specs.Deeds.{injection, liar_deed};
ghost use Rattle.someip_world.specs.Acting.{Lies};

use crate::performing::StepError;
use someip_node::Output;
use someip_world_rules::StepFault;
use someip_world_schedule::{Step, StepPayload};
use std::alloc::{AllocError, Global};
use std::net::{Ipv4Addr, SocketAddrV4};

/// The greatest payload of a UDP datagram over IPv4 (RFC 791, 3.1 "Total Length"; RFC 768, "Length").
const DATAGRAM_LIMIT: usize = 65507;

/// Does as a liar of an address what a step says.
pub(crate) fn lie(alloc: Global, address: Ipv4Addr, step: &Step) -> Result<Vec<Output>, StepError>
    ensures { Lies (liar_deed address step.now) result }
{
    match step {
        Step::Inject {
            port,
            to,
            payload,
            ..
        } => inject(
            alloc,
            SocketAddrV4::new(address, port.number()),
            *to,
            payload,
        ),
        _ => Err(StepError::Bad(StepFault::IsLiar)),
    }
}

/// Sends bytes from an endpoint to another, in one datagram.
fn inject(
    alloc: Global,
    from: SocketAddrV4,
    to: SocketAddrV4,
    payload: &StepPayload,
) -> Result<Vec<Output>, StepError>
    ensures { Lies (injection from.ip from.port to payload.now) result }
{
    if DATAGRAM_LIMIT < payload.len() {
        return Err(StepError::Bad(StepFault::PayloadTooLong));
    }
    let outputs = sent(alloc, from, to, payload)?;
    Ok(outputs)
}

/// The output of one datagram.
fn sent(
    alloc: Global,
    from: SocketAddrV4,
    to: SocketAddrV4,
    payload: &StepPayload,
) -> Result<Vec<Output>, AllocError>
    ensures { IfOk result (λ outputs. outputs.items ≡ Sent from to payload.now ∷ []) }
{
    let bytes = payload.to_payload(alloc)?;
    let mut outputs = Vec::new(alloc);
    outputs.push(Output::Sent { from, to, bytes })?;
    Ok(outputs)
}
