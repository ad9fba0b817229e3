//! What tells the entries of the tables apart.
ghost use Rattle.sd_core.specs.KeyOrder.{exact_instances};

use someip_tables::Key;

/// An instance of a service: by rising service, and then by instance.
#[derive(Clone, Copy, Debug, PartialEq, Eq, PartialOrd, Ord)]
pub struct InstanceId {
    /// Service ID.
    pub service: u16,
    /// Instance ID.
    pub instance: u16,
}

impl Key for InstanceId {
    ghost exact = { exact_instances };
}
