//! What changes are counted into.
ghost use Rattle.std.specs.Prelude.{◌≡◌, OnErr, OnOk, Bool, true};

use std::alloc::{AllocError, Global};

/// Figures that changes are counted into.
pub(crate) trait Counts<C: Copy>: Drop {
    ghost none: { Self };

    ghost after: { C → Self → Self };

    ghost takes: { C → Self → Bool };

    /// No change was counted yet. It takes no memory.
    fn none(alloc: Global) -> Self
        ensures { result ≡ none };

    /// Counts a change. Where memory is refused nothing changes.
    fn count(&mut self, change: C) -> Result<(), AllocError>
        ensures ok { OnOk result (self.new ≡ after change self.old) }
        ensures err { OnErr result (self.new ≡ self.old) }
        ensures grows { OnErr result (takes change self.old ≡ true) };
}
