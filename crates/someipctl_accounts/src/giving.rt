//! The account of recordings, as they are read.
ghost use Rattle.std.specs.Prelude.{◌≡◌, ◌≤◌, ◌<◌, ◌+◌, ◌^◌, [], IfErr, IfOk, OnErr, OnOk, length, map};
ghost use Rattle.recording.specs.View.{view_record};
ghost use Rattle.recording_packets.specs.Intake.{after_packet, arrived};
ghost use Rattle.recording_packets.specs.View.{view_arrival, view_chosen};
ghost use Rattle.someipctl_accounts.specs.Accounts.{BeginsAccount, GivesAccount, PutsAccount, PutsEnd, StopsEnd, StopsTaken};
ghost use Rattle.someipctl_accounts.specs.Accounts.{came_next, shown_with};
ghost use Rattle.someipctl_accounts.specs.Giving.{PutsArrival, PutsRecord, StopsRecord};
ghost use Rattle.someipctl_io.specs.declared.Fault.TheVariants.{CannotRead};

use crate::account::Account;
use recording::{Record, RecordingReader};
use recording_packets::{Arrival, ChosenPackets, Intake, LeftOut};
use someip_tables::Moment;
use someipctl_audit::seen_next;
use someipctl_io::{Buffer, Fault, Outcome, PrintFault};
use someipctl_recordings::read_loop::{Coming, next_coming};
use someipctl_recordings::{FileFault, ShownRecording, StoppedAt};
use std::alloc::Global;
use std::convert::Infallible;
use std::io::{Read, Write};

/// How far recordings are gone over.
#[derive(Clone, Copy)]
pub(crate) struct Going {
    /// How many datagrams came.
    pub(crate) datagrams: usize,
    /// The latest moment.
    pub(crate) now: Moment,
}

/// Gives the datagrams of recordings to an account, as they are read, one after the other as one recording, and writes
/// what it prints. What waits to be written is written before each read. One packet or block is held at a time, and
/// what the account holds.
///
/// A recording is not refused: a fault in one ends all, and stands in what is told of them.
pub fn give_account<A: Account, R: Read, W: Write>(
    alloc: Global,
    sources: &mut [R],
    chosen: &ChosenPackets<'_>,
    account: &mut A,
    writer: &mut W,
) -> Result<ShownRecording, StoppedAt>
    // The account of what comes before the fault was written, or of all, and what is told is so.
    ensures given { IfOk result (λ shown. GivesAccount A.takes A.ends (map R.remaining sources.old) (view_chosen chosen.now)
        account.old shown (W.contents writer.old) (W.contents writer.new)) }
    // Else a beginning of it was.
    ensures begun { OnErr result (BeginsAccount A.takes A.ends (map R.remaining sources.old) (view_chosen chosen.now)
        account.old (W.contents writer.old) (W.contents writer.new)) }
    // Only one of the files can be a file that could not be read.
    ensures unread { IfErr result (λ stopped. stopped.fault ≡ CannotRead → stopped.file < length sources.old) }
{
    let mut file = 0;
    match give_files(alloc, sources, chosen, account, &mut file, writer) {
        Ok(shown) => Ok(shown),
        Err(fault) => Err(StoppedAt { file, fault }),
    }
}

/// The same, which tells the number of the file at which it stopped.
fn give_files<A: Account, R: Read, W: Write>(
    alloc: Global,
    sources: &mut [R],
    chosen: &ChosenPackets<'_>,
    account: &mut A,
    file: &mut usize,
    writer: &mut W,
) -> Result<ShownRecording, Fault<Infallible>>
    requires first { file.old ≡ 0 }
    ensures given { IfOk result (λ shown. GivesAccount A.takes A.ends (map R.remaining sources.old) (view_chosen chosen.now)
        account.old shown (W.contents writer.old) (W.contents writer.new)) }
    ensures begun { OnErr result (BeginsAccount A.takes A.ends (map R.remaining sources.old) (view_chosen chosen.now)
        account.old (W.contents writer.old) (W.contents writer.new)) }
    ensures unread { IfErr result (λ fault. fault ≡ CannotRead → file.new < length sources.old) }
{
    let mut buffer = Buffer::new(alloc)?;
    let shown = put_files(alloc, sources, chosen, account, file, &mut buffer, writer)?;
    buffer.flush(writer)?;
    Ok(shown)
}

/// Prints the account of files, one after the other.
fn put_files<A: Account, R: Read, W: Write>(
    alloc: Global,
    sources: &mut [R],
    chosen: &ChosenPackets<'_>,
    account: &mut A,
    file: &mut usize,
    buffer: &mut Buffer,
    writer: &mut W,
) -> Result<ShownRecording, Fault<Infallible>>
    requires first { file.old ≡ 0 }
    requires empty { buffer.old ≡ [] }
    ensures puts { IfOk result (λ shown. PutsAccount A.takes A.ends (map R.remaining sources.old) (view_chosen chosen.now)
        account.old shown (W.contents writer.old) (W.contents writer.new) buffer.new) }
    ensures begun { OnErr result (BeginsAccount A.takes A.ends (map R.remaining sources.old) (view_chosen chosen.now)
        account.old (W.contents writer.old) (W.contents writer.new)) }
    ensures unread { IfErr result (λ fault. fault ≡ CannotRead → file.new < length sources.old) }
{
    let mut intake = Intake::new(alloc, chosen);
    let mut going = Going {
        datagrams: 0,
        now: Moment::start(),
    };
    let mut recording = RecordingReader::new(alloc);
    while *file < sources.len() {
        let coming = next_coming(&mut recording, &mut sources[*file], buffer, writer)?;
        match coming {
            Coming::Record => {}
            Coming::Fault(fault) => {
                let fault = Some(FileFault { file: *file, fault });
                return put_end(buffer, writer, account, going.now, intake.left_out(), fault);
            }
            Coming::End => {
                recording = RecordingReader::new(alloc);
                *file += 1;
                continue;
            }
        }
        if let Some(found) = recording.record() {
            put_record(
                buffer,
                writer,
                chosen,
                &found,
                &mut intake,
                account,
                &mut going,
            )?;
        }
    }
    put_end(buffer, writer, account, going.now, intake.left_out(), None)
}

/// Takes a record, and gives its datagram to the account, if it gives one.
fn put_record<A: Account, W: Write>(
    buffer: &mut Buffer,
    writer: &mut W,
    chosen: &ChosenPackets<'_>,
    found: &Record<'_>,
    intake: &mut Intake,
    account: &mut A,
    going: &mut Going,
) -> Result<(), PrintFault>
    requires few { going.old.datagrams ≤ intake.old.frames }
    ensures puts { OnOk result (PutsRecord A.takes
        (arrived (view_chosen chosen.now) intake.old (view_record found.now)) account.old account.new going.old going.new
        (W.contents writer.old) buffer.old (W.contents writer.new) buffer.new) }
    ensures took { OnOk result (intake.new ≡ after_packet (view_chosen chosen.now) intake.old (view_record found.now)) }
    ensures few { OnOk result (going.new.datagrams ≤ intake.new.frames) }
    ensures stops { OnErr result (StopsRecord A.takes
        (arrived (view_chosen chosen.now) intake.old (view_record found.now)) account.old going.old
        (W.contents writer.old) buffer.old (W.contents writer.new)) }
{
    let taken = intake.take(chosen, found)?;
    match intake.arrival(taken) {
        Some(arrival) => put_arrival(buffer, writer, &arrival, account, going),
        None => Ok(()),
    }
}

/// Gives the next datagram to the account, and counts it.
fn put_arrival<A: Account, W: Write>(
    buffer: &mut Buffer,
    writer: &mut W,
    arrival: &Arrival<'_>,
    account: &mut A,
    going: &mut Going,
) -> Result<(), PrintFault>
    requires few { going.old.datagrams + 1 < 2 ^ 64 }
    ensures puts { OnOk result (PutsArrival A.takes (view_arrival arrival.now) account.old account.new going.old going.new
        (W.contents writer.old) buffer.old (W.contents writer.new) buffer.new) }
    ensures stops { OnErr result (StopsTaken A.takes account.old
        (came_next going.old.datagrams going.old.now (view_arrival arrival.now))
        (W.contents writer.old) buffer.old (W.contents writer.new)) }
{
    let seen = seen_next(going.datagrams, going.now, arrival);
    account.take(buffer, writer, &seen)?;
    going.datagrams += 1;
    going.now = seen.now;
    Ok(())
}

/// Prints what is told at the end.
fn put_end<A: Account, W: Write>(
    buffer: &mut Buffer,
    writer: &mut W,
    account: &mut A,
    last: Moment,
    left_out: LeftOut,
    fault: Option<FileFault>,
) -> Result<ShownRecording, Fault<Infallible>>
    ensures puts { OnOk result (PutsEnd A.ends account.old last
        (W.contents writer.old) buffer.old (W.contents writer.new) buffer.new) }
    ensures tells { IfOk result (λ shown. shown ≡ shown_with left_out fault) }
    ensures stops { OnErr result (StopsEnd A.ends account.old last
        (W.contents writer.old) buffer.old (W.contents writer.new)) }
    ensures read { IfErr result (λ fault. fault ≡ CannotRead → ⊥) }
{
    account.end(buffer, writer, last)?;
    Ok(ShownRecording {
        outcome: Outcome::Done,
        left_out,
        is_full: false,
        fault,
    })
}
