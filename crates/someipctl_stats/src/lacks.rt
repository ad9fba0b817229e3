//! What figures lack since a book of the audit was full.
ghost use Rattle.std.specs.Prelude.{◌≡◌};
ghost use Rattle.someipctl_stats.specs.Lacks.{lacks, lacks_none, with_lack};

use crate::shown::Lack;

/// What figures lack since a book of the audit was full.
#[derive(Clone, Copy, Drop)]
pub(crate) struct Lacks {
    /// Datagrams at endpoints that were not learnt.
    pub(crate) endpoints: bool,
    /// Sessions of events that are lost.
    pub(crate) gaps: bool,
    /// Senders that began again.
    pub(crate) reboots: bool,
}

impl Lacks {
    /// Nothing.
    pub(crate) fn none() -> Lacks
        ensures { result ≡ lacks_none }
    {
        Lacks {
            endpoints: false,
            gaps: false,
            reboots: false,
        }
    }

    /// Takes note that something lacks.
    pub(crate) fn note(&mut self, lack: Lack)
        ensures { self.new ≡ with_lack lack self.old }
    {
        match lack {
            Lack::Endpoints => self.endpoints = true,
            Lack::Gaps => self.gaps = true,
            Lack::Reboots => self.reboots = true,
        }
    }

    /// Whether something lacks.
    pub(crate) fn lacks(&self, lack: Lack) -> bool
        ensures { result ≡ lacks lack self.now }
    {
        match lack {
            Lack::Endpoints => self.endpoints,
            Lack::Gaps => self.gaps,
            Lack::Reboots => self.reboots,
        }
    }
}
