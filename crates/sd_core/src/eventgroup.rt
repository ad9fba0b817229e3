//! The eventgroups of instances.
ghost use Rattle.sd_core.specs.EventgroupOrder.{exact_eventgroups};

use crate::keys::InstanceId;
use someip_tables::Key;

/// An eventgroup of an instance: by rising service and instance, and then by Eventgroup ID.
#[derive(Clone, Copy, Debug, PartialEq, Eq, PartialOrd, Ord)]
pub struct Eventgroup {
    /// The instance whose events are in it.
    pub instance: InstanceId,
    /// Eventgroup ID.
    pub id: u16,
}

impl Key for Eventgroup {
    ghost exact = { exact_eventgroups };
}
