//! The version of an instance, and what a Find asks for.
use crate::InstanceId;

/// The version of an instance's interface.
#[derive(Clone, Copy, Debug, PartialEq, Eq)]
pub struct Version {
    /// Major version.
    pub major: u8,
    /// Minor version.
    pub minor: u32,
}

/// What a Find asks for (SOME/IP Service Discovery Protocol, "Find Service entry").
#[derive(Clone, Copy, Debug, PartialEq, Eq)]
pub struct Sought {
    /// Service ID.
    pub service: u16,
    /// Instance ID; FFFF is any.
    pub instance: u16,
    /// Major version; FF is any.
    pub major: u8,
    /// Minor version; FFFFFFFF is any.
    pub minor: u32,
}

impl Sought {
    ghost use Rattle.std.specs.Prelude.{◌≡◌};
    ghost use Rattle.sd_core.specs.OfferTables.{is_sought};

    /// Whether this asks for an instance of a version.
    pub fn fits(&self, instance: &InstanceId, version: &Version) -> bool
        ensures { result ≡ is_sought self.now instance.now version.now }
    {
        instance.service == self.service
            && (self.instance == 0xffff || instance.instance == self.instance)
            && (self.major == 0xff || version.major == self.major)
            && (self.minor == 0xffff_ffff || version.minor == self.minor)
    }
}
