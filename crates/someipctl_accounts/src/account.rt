//! What goes over datagrams.
ghost use Rattle.std.specs.Prelude.{ℕ, List, OnErr, OnOk};
ghost use Rattle.someipctl_accounts.specs.Accounts.{Came, PutsEnd, PutsTaken, StopsEnd, StopsTaken, view_came};

use someip_tables::Moment;
use someipctl_audit::SeenDatagram;
use someipctl_io::{Buffer, PrintFault};
use std::io::Write;

/// What goes over the datagrams of a recording, in order, and prints what it tells of them.
pub trait Account {
    // Of a datagram it prints this text, and is as the last one says then.
    ghost takes: { Self → Came → List ℕ → Self → Type 0 };

    // At the end of a recording, whose last moment this is, it prints this text.
    ghost ends: { Self → ℕ → List ℕ → Type 0 };

    /// Takes the next datagram, and prints what is told of it. Where memory runs out or writing fails, nothing or a
    /// beginning of that was printed.
    fn take<W: Write>(
        &mut self,
        buffer: &mut Buffer,
        writer: &mut W,
        seen: &SeenDatagram<'_>,
    ) -> Result<(), PrintFault>
        ensures puts { OnOk result (PutsTaken takes self.old (view_came seen.entry.now) self.new
            (W.contents writer.old) buffer.old (W.contents writer.new) buffer.new) }
        ensures stops { OnErr result (StopsTaken takes self.old (view_came seen.entry.now)
            (W.contents writer.old) buffer.old (W.contents writer.new)) };

    /// Prints what is told at the end, at the last moment.
    fn end<W: Write>(
        &mut self,
        buffer: &mut Buffer,
        writer: &mut W,
        last: Moment,
    ) -> Result<(), PrintFault>
        ensures puts { OnOk result (PutsEnd ends self.old last
            (W.contents writer.old) buffer.old (W.contents writer.new) buffer.new) }
        ensures stops { OnErr result (StopsEnd ends self.old last
            (W.contents writer.old) buffer.old (W.contents writer.new)) };
}
