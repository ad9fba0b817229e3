//! The delays between the Offers, or Finds, of an instance.
ghost use Rattle.std.specs.Prelude.{◌≤◌};

/// The delays between the Offers, or Finds, of an instance, in milliseconds (SOME/IP Service Discovery
/// Protocol, "Startup behavior").
#[derive(Clone, Copy, Debug, PartialEq, Eq)]
pub struct Phases {
    /// The first delay of the repetition phase, from 1 to 60000. Each further one is twice as long.
    pub base: u32,
    /// How many delays the repetition phase has, at most 16.
    pub repetitions: u8,
    /// The delay of the main phase, from 1 to 3600000.
    pub cyclic: u32,
    ghost base_from: { 1 ≤ base },
    ghost base_to: { base ≤ 60000 },
    ghost repetitions_to: { repetitions ≤ 16 },
    ghost cyclic_from: { 1 ≤ cyclic },
    ghost cyclic_to: { cyclic ≤ 3600000 },
}

impl Phases {
    ghost use Rattle.std.specs.Prelude.{◌≡◌};
    ghost use Rattle.sd_core.specs.Sendings.{wait};

    /// How long after an Offer the next one goes out, by how many went out before it.
    pub fn wait(self, earlier: u8) -> u64
        ensures { result ≡ wait self earlier }
    {
        if earlier < self.repetitions {
            u64::from(self.base) << earlier
        } else {
            u64::from(self.cyclic)
        }
    }
}
