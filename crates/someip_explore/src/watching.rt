//! Who is told how far a search has come.
ghost use Rattle.std.specs.Prelude.{◌≡◌, ◌+◌, ◌<◌};
ghost use Rattle.someip_explore.specs.Watching.{HearsOf};

/// After so many schedules a watcher is told, and again each time after as many more.
const STRIDE: u64 = 1_000_000;

/// Who is told how far a search has come. It changes nothing of what the search comes to.
pub trait Watcher {
    ghost use Rattle.std.specs.Prelude.{ℕ};

    ghost hears: { Self → ℕ → Self → Type 0 };

    /// Takes note that so many schedules were judged: a million, two millions, and so on.
    fn hear(&mut self, judged: u64)
        ensures { hears self.old judged self.new };
}

/// Counts one more schedule that was judged. With each million the watcher is told.
pub(crate) fn counted<W: Watcher>(watcher: &mut W, judged: u64) -> u64
    requires { judged < u64.MAX }
    ensures counted { result ≡ judged + 1 }
    ensures watched { (first : W) → HearsOf W.hears judged first watcher.old
        → HearsOf W.hears (judged + 1) first watcher.new }
{
    let now = judged + 1;
    if now % STRIDE == 0 {
        watcher.hear(now);
    }
    now
}
