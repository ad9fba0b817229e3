//! When a node's clock next brings something.
ghost use Rattle.std.specs.Prelude.{◌≡◌, IfNone, IfSome, false, true, ℕ};
ghost use Rattle.someip_tables.specs.Waits.{is_due_by};
ghost use Rattle.sd_core.specs.SeekTables.{KnowsWanted};
ghost use Rattle.someip_node_engine.specs.Passings.{BringsFirstAfter, BringsNothing, NeverBrings};

use crate::engine::Engine;
use someip_tables::{Moment, earlier};
use someip_tp::Reassembly;

impl<R: Reassembly> Engine<R> {
    /// After how many milliseconds a tick next brings something, if one does: none where no deadline
    /// stands and nothing is to be sent, or where the first moment lies past the clock's bound. It looks
    /// at the first moment of each table alone.
    pub fn next_due(&self) -> Option<u64>
        ensures due { IfSome result (λ ms. BringsFirstAfter ms self.now) }
        ensures none { IfNone result (NeverBrings self.now) }
        ensures wanted { KnowsWanted self.now.seek }
    {
        let Some(first) = self.first_due() else {
            return None;
        };
        let Some(due) = Moment::new(first) else {
            return None;
        };
        Some(due.as_millis().saturating_sub(self.clock.as_millis()))
    }

    /// The first moment that brings something, if there is one. It may have passed, or lie past the
    /// clock's bound.
    fn first_due(&self) -> Option<u64>
        ensures before { (now : ℕ) → is_due_by now result ≡ false → BringsNothing now self.now }
        ensures from { (now : ℕ) → is_due_by now result ≡ true → ¬ (BringsNothing now self.now) }
        ensures wanted { KnowsWanted self.now.seek }
    {
        let answers = earlier(self.client.next_due(), self.subscriptions.next_due());
        let instances = earlier(self.seeker.next_due(), self.offers.next_due());
        earlier(answers, instances)
    }
}
