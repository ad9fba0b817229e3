//! What comes next of a recording, as it is read.
ghost use Rattle.std.specs.Prelude.{◌≡◌, ◌<◌, [], OnOk, OnErr, IfOk, IfErr};
ghost use Rattle.std.specs.IoError.{error_kind};
ghost use Rattle.someipctl_io.specs.Faults.{fault_of_read};
ghost use Rattle.someipctl_io.specs.Inputs.{read_fault};
ghost use Rattle.someipctl_io.specs.Sending.{Sends, Stops};
ghost use Rattle.someipctl_recordings.specs.Coming.{Comes, IsEnded, IsFurther, IsStopped, coming_items};

use recording::{Next, RecordingError, RecordingReader};
use someipctl_io::{Buffer, Fault, ReadFault};
use std::convert::Infallible;
use std::io;
use std::io::{Read, Write};

/// What comes next of a recording.
#[derive(Clone, Copy)]
pub enum Coming {
    /// A record: that of the reader.
    Record,
    /// The fault that ends the recording.
    Fault(RecordingError),
    /// Nothing.
    End,
}

/// Goes on to the next record of a recording, to its fault or to its end. What waits in the buffer is
/// written before each read.
///
/// The only errors are that the recording could not be read, that writing failed, and that memory ran out.
pub fn next_coming<R: Read, W: Write>(
    recording: &mut RecordingReader,
    source: &mut R,
    buffer: &mut Buffer,
    writer: &mut W,
) -> Result<Coming, Fault<Infallible>>
    ensures comes { IfOk result (λ coming. Comes recording.old recording.new (R.remaining source.old)
        (R.remaining source.new) (coming_items coming recording.new.current)) }
    ensures further { IfOk result (λ coming.
        IsFurther coming recording.old.place recording.new.place) }
    ensures ended { IfOk result (λ coming. IsEnded coming recording.new) }
    // No error stands for what the bytes that are held tell: neither for an item nor for a fault.
    ensures machine { IfErr result (λ fault. IsStopped recording.old (R.remaining source.old) fault) }
    ensures sends { OnOk result (Sends (W.contents writer.old) buffer.old (W.contents writer.new)
        buffer.new []) }
    ensures stops { OnErr result (Stops (W.contents writer.old) buffer.old (W.contents writer.new) []) }
{
    loop {
        match recording.next() {
            Ok(Next::Record) => return Ok(Coming::Record),
            Ok(Next::End) => return Ok(Coming::End),
            Err(RecordingError::OutOfMemory) => return Err(Fault::OutOfMemory),
            Err(fault) => return Ok(Coming::Fault(fault)),
            Ok(Next::Unread) => {}
        }
        buffer.flush(writer)?;
        match recording.read_from(source) {
            Ok(()) => {}
            Err(error) => return Err(fault_of_read(&error)),
        }
    }
}

/// Why a recording could not be read on.
fn fault_of_read(error: &io::Error) -> Fault<Infallible>
    ensures { result ≡ fault_of_read (read_fault (error_kind error.now)) }
{
    Fault::from(ReadFault::of(error))
}
