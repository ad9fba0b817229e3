//! Where a flow that is not disturbed is found, by what may disturb it.
ghost use Rattle.std.specs.Prelude.{◌≡◌, if◌then◌else◌};
ghost use Rattle.audit_traffic.specs.events.EventRules.{is_group};
ghost use Rattle.audit_traffic.specs.events.FlowPlaces.{all_groups, offering_of, reached, route_of};
ghost use Rattle.audit_traffic.specs.declared.events.flow.EventFlow.{EventFlow};

use crate::events::flow::EventFlow;
use crate::events::offering::Offering;
use crate::events::receivers::is_group;
use crate::events::route::Route;
use someip_tables::Key;
use std::net::Ipv4Addr;

/// A place at which a flow is found.
pub(crate) trait FlowPlace: Key {
    ghost place_of: { EventFlow → Self };

    /// The place of a flow.
    fn of_flow(flow: &EventFlow) -> Self
        ensures { result ≡ place_of flow.now };
}

impl FlowPlace for Route {
    ghost place_of = { route_of };

    fn of_flow(flow: &EventFlow) -> Route {
        Route {
            server: *flow.sender.ip(),
            service: flow.service,
            receiver: reached(flow.receiver.ip()),
        }
    }
}

impl FlowPlace for Offering {
    ghost place_of = { offering_of };

    fn of_flow(flow: &EventFlow) -> Offering {
        Offering {
            server: *flow.sender.ip(),
            service: flow.service,
        }
    }
}

/// The address that stands for all multicast groups.
pub(crate) fn all_groups() -> Ipv4Addr
    ensures { result ≡ all_groups }
{
    Ipv4Addr::new(224, 0, 0, 0)
}

/// The address by which one that events go to is found: a client's, or that of all multicast groups.
fn reached(address: &Ipv4Addr) -> Ipv4Addr
    ensures { result ≡ reached address.now }
{
    if is_group(address) {
        all_groups()
    } else {
        *address
    }
}
