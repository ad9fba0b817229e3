//! The flags of a Service Discovery message (SOME/IP Service Discovery, "SOME/IP-SD Header").
ghost use Rattle.std.specs.Prelude.{◌≡◌, [], ◌∷◌, map, codes};
ghost use Rattle.sd_wire.specs.layout.Fields.{flags_byte, flags_in};

use bitflags::{Flag, Flags};

/// The flags of a Service Discovery message. The other six bits of their byte are ignored on
/// reading and written 0, so no value holds one of them.
///
/// As a set of `bitflags`, `from_bits_retain` leaves those six bits out too.
#[derive(Clone, Copy, Debug, PartialEq, Eq)]
pub struct SdFlags {
    /// 80: the sender has not used up its session numbers since it started.
    pub reboot: bool,
    /// 40: the sender takes unicast messages.
    pub unicast: bool,
}

impl SdFlags {
    /// Reboot alone.
    pub const REBOOT: SdFlags = SdFlags {
        reboot: true,
        unicast: false,
    };

    /// Unicast alone.
    pub const UNICAST: SdFlags = SdFlags {
        reboot: false,
        unicast: true,
    };

    /// The flags by name.
    pub const FLAGS: &'static [Flag<SdFlags>] = &[
        Flag {
            name: "REBOOT",
            value: SdFlags::REBOOT,
        },
        Flag {
            name: "UNICAST",
            value: SdFlags::UNICAST,
        },
    ];

    /// The byte of the wire.
    pub fn byte(self) -> u8
        ensures { result ≡ flags_byte self }
    {
        match (self.reboot, self.unicast) {
            (false, false) => 0,
            (false, true) => 0x40,
            (true, false) => 0x80,
            (true, true) => 0xc0,
        }
    }

    /// The flags in a byte of the wire.
    pub fn from_byte(byte: u8) -> SdFlags
        ensures { result ≡ flags_in byte }
    {
        SdFlags {
            reboot: byte >= 0x80,
            unicast: byte % 0x80 >= 0x40,
        }
    }
}

impl Flags for SdFlags {
    type Bits = u8;

    fn flags<'a>() -> &'a [Flag<SdFlags>]
        ensures names { map (λ f. f.name.now) result.now
            ≡ codes "REBOOT" ∷ codes "UNICAST" ∷ [] }
        ensures values { map (λ f. flags_byte f.value) result.now ≡ 0x80 ∷ 0x40 ∷ [] }
    {
        SdFlags::FLAGS
    }

    fn bits(&self) -> u8
        ensures { result ≡ flags_byte self.now }
    {
        self.byte()
    }

    fn from_bits_retain(bits: u8) -> SdFlags
        ensures { result ≡ flags_in bits }
    {
        SdFlags::from_byte(bits)
    }
}
