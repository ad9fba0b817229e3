//! That steps are as their types keep them. A name, a Method ID and a port are always right; their types keep
//! that to themselves, so they are asked again here.
ghost use Rattle.std.specs.Prelude.{◌≡◌, ◌<◌, ◌^◌, ℕ, length, slice_index, true, OnOk};
ghost use Rattle.std.specs.List.{AllByRecursion};
ghost use Rattle.std.specs.Net.Addr.{IsIpv4Addr};
ghost use Rattle.std.specs.Net.Socket.{IsSocketAddrV4};
ghost use Rattle.someipctl_explore.specs.StepLines.{reply_code};
ghost use Rattle.someipctl_explore.specs.WholeSteps.{FitsGroup, FitsInstance, IsName, IsWhole};

use sd_core::{Eventgroup, InstanceId};
use someip_rpc::Reply;
use someip_world::{NodeName, Step};
use someip_world_schedule::{MethodId, SourcePort};
use std::alloc::{AllocError, Global};
use std::net::{Ipv4Addr, SocketAddrV4};

/// A number of 16 bits.
fn number_fits(number: u16)
    ensures { number < 2 ^ 16 }
{
    let _number = number;
}

/// A number of 64 bits.
fn long_fits(number: u64)
    ensures { number < 2 ^ 64 }
{
    let _number = number;
}

/// An instance.
fn instance_fits(instance: InstanceId)
    ensures { FitsInstance instance }
{
    number_fits(instance.service);
    number_fits(instance.instance);
}

/// An eventgroup.
fn group_fits(eventgroup: Eventgroup)
    ensures { FitsGroup eventgroup }
{
    instance_fits(eventgroup.instance);
    number_fits(eventgroup.id);
}

/// The Return Code of an answer.
fn code_fits(reply: Reply)
    ensures { reply_code reply < 2 ^ 8 }
{
    match reply {
        Reply::Response(code) | Reply::Error(code) => {
            let _code = code.0;
        }
    }
}

/// Does nothing: its contract says what the type of four octets says of them.
fn octets_fit(octets: &[u8])
    ensures { (k : ℕ) → slice_index octets.now k < 2 ^ 8 }
{}

/// An address.
fn address_fits(address: Ipv4Addr)
    ensures { IsIpv4Addr address }
{
    octets_fit(&address.octets());
}

/// An endpoint.
fn endpoint_fits(endpoint: SocketAddrV4)
    ensures { IsSocketAddrV4 endpoint }
{
    address_fits(*endpoint.ip());
    number_fits(endpoint.port());
}

/// A node's name.
fn name_is_whole(alloc: Global, node: &NodeName) -> Result<(), AllocError>
    ensures { OnOk result (IsName node.now) }
{
    match NodeName::read(alloc, node.as_str())? {
        Some(_) => Ok(()),
        None => Err(AllocError),
    }
}

/// A Method ID.
fn method_is_whole(method: MethodId) -> Result<(), AllocError>
    ensures { OnOk result (method < 0x8000) }
{
    match MethodId::new(method.id()) {
        Some(_) => Ok(()),
        None => Err(AllocError),
    }
}

/// A port that is sent from.
fn port_is_whole(port: SourcePort) -> Result<(), AllocError>
    ensures { OnOk result ((0 < port) × (port < 2 ^ 16)) }
{
    let number = port.number();
    number_fits(number);
    match SourcePort::new(number) {
        Some(_) => Ok(()),
        None => Err(AllocError),
    }
}

/// A step. An error says that memory ran out.
fn step_is_whole(alloc: Global, step: &Step) -> Result<(), AllocError>
    ensures { OnOk result (IsWhole step.now) }
{
    name_is_whole(alloc, step.node())?;
    match step {
        Step::Tick { ms, .. } => long_fits(*ms),
        Step::Deliver { number, .. } => long_fits(*number),
        Step::Call {
            instance,
            method,
            payload,
            ..
        } => {
            instance_fits(*instance);
            payload.holds_bytes();
            method_is_whole(*method)?;
        }
        Step::Answer {
            token,
            reply,
            payload,
            ..
        } => {
            long_fits(*token);
            code_fits(*reply);
            payload.holds_bytes();
        }
        Step::Publish {
            instance,
            event,
            payload,
            ..
        } => {
            instance_fits(*instance);
            number_fits(*event);
            payload.holds_bytes();
        }
        Step::PublishTo {
            eventgroup,
            to,
            event,
            payload,
            ..
        } => {
            group_fits(*eventgroup);
            endpoint_fits(*to);
            number_fits(*event);
            payload.holds_bytes();
        }
        Step::Subscribe { eventgroup, .. } | Step::Unsubscribe { eventgroup, .. } => group_fits(
            *eventgroup,
        ),
        Step::StopOffer { instance, .. } => instance_fits(*instance),
        Step::Restart { delay, .. } => long_fits(*delay),
        Step::Inject {
            port,
            to,
            payload,
            ..
        } => {
            endpoint_fits(*to);
            payload.holds_bytes();
            port_is_whole(*port)?;
        }
    }
    Ok(())
}

/// Some steps. An error says that memory ran out.
pub(crate) fn steps_are_whole(alloc: Global, steps: &[Step]) -> Result<(), AllocError>
    ensures { OnOk result (AllByRecursion IsWhole steps.now) }
{
    for step in steps {
        step_is_whole(alloc, step)?;
    }
    Ok(())
}
