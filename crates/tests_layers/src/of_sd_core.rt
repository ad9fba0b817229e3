//! Rows of the tables of Service Discovery. An instance is told by its number, of the service 1111, and a host by the
//! last byte of its address, 192.168.0.n.
use crate::acts::Told;
use sd_core::{Eventgroup, InstanceId, Phases};
use std::alloc::AllocError;
use std::fmt;
use std::fmt::{Debug, Write};
use std::net::{Ipv4Addr, SocketAddrV4};

mod offers;
mod seeker;
mod subscribers;
mod subscriptions;

/// Three repetitions: base 30, cyclic 1000.
const THREE: Phases = Phases {
    base: 30,
    repetitions: 3,
    cyclic: 1000,
};

/// The same without repetitions.
const NO_REPETITIONS: Phases = Phases {
    base: 30,
    repetitions: 0,
    cyclic: 1000,
};

fn instance(number: u16) -> InstanceId {
    InstanceId {
        service: 0x1111,
        instance: number,
    }
}

/// The address of a host.
fn address(host: u8) -> Ipv4Addr {
    Ipv4Addr::new(192, 168, 0, host)
}

/// A port of a host.
fn endpoint(host: u8, port: u16) -> SocketAddrV4 {
    SocketAddrV4::new(address(host), port)
}

/// The same, where there is a port.
fn endpoint_at(host: u8, port: u16) -> Option<SocketAddrV4> {
    if port == 0 {
        None
    } else {
        Some(endpoint(host, port))
    }
}

/// Writes down the numbers of instances, or the refusal.
fn tell_instances(told: &mut Told, answer: &Result<Vec<InstanceId>, AllocError>) -> fmt::Result {
    match answer {
        Ok(instances) => tell_numbers(told, instances),
        Err(refusal) => write!(told, "{refusal:?}"),
    }
}

fn tell_numbers(told: &mut Told, instances: &[InstanceId]) -> fmt::Result {
    for (place, instance) in instances.iter().enumerate() {
        let comma = if place == 0 { "" } else { " " };
        write!(told, "{comma}{}", instance.instance)?;
    }
    Ok(())
}

/// Writes down eventgroups by their instances and numbers, or the refusal.
fn tell_groups(told: &mut Told, answer: &Result<Vec<Eventgroup>, AllocError>) -> fmt::Result {
    match answer {
        Ok(groups) => {
            for (place, group) in groups.iter().enumerate() {
                let comma = if place == 0 { "" } else { " " };
                write!(told, "{comma}{}/{}", group.instance.instance, group.id)?;
            }
            Ok(())
        }
        Err(refusal) => write!(told, "{refusal:?}"),
    }
}
