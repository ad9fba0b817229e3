//! The command `recording`: the datagrams of recordings of network traffic, message by message, as they are
//! read.
ghost use Rattle.std.specs.Prelude.{◌≡◌, ◌≤◌, ◌<◌, ◌+◌, ◌^◌, [], ◌∷◌, Ok, OnOk, OnErr, IfErr, IfOk, length, map, option_map};
ghost use Rattle.recording.specs.View.{view_record};
ghost use Rattle.recording_packets.specs.LeftOut.{total};
ghost use Rattle.recording_packets.specs.View.{view_arrival};
ghost use Rattle.someipctl_recordings.specs.Gathered.{IsInTime, view_store};
ghost use Rattle.someipctl_recordings.specs.Asked.{asked_from};
ghost use Rattle.someipctl_recordings.specs.RecordedText.{after_all, after_datagram, empty_store};
ghost use Rattle.someipctl_recordings.specs.RecordedText.{AreRecorded, IsRecordedText};
ghost use Rattle.someipctl_show.specs.TextKinds.{SendsOne, StopsOne};
ghost use Rattle.someipctl_io.specs.declared.Fault.TheVariants.{CannotRead};
ghost use Rattle.someipctl_recordings.specs.RecordingResult.{BeginsRecording, PutsRecording, ShowsRecording};
ghost use Rattle.someipctl_recordings.specs.Sought.{after_items, is_full, learner_of};
ghost use Rattle.someipctl_recordings.specs.RecordingResult.{nothing_shown, progress_of};
ghost use Rattle.someipctl_recordings.specs.RecordingResult.{shown_recording, view_asked, view_limits};

use crate::asked::{Asked, WholeLimits};
use crate::datagrams::{Telling, put_numbered};
use crate::moments::moment_of;
use crate::read_loop::{Coming, next_coming};
use crate::sought::{is_full, learner_of, seeks};
use audit_endpoints::Learner;
use recording::{Record, RecordingError, RecordingReader};
use recording_packets::{Arrival, Intake, LeftOut};
use someip_reassembly::Reassembly;
use someipctl_io::{Buffer, Fault, Outcome, PrintFault};
use someipctl_show::value_lines::ValueLines;
use std::alloc::{AllocError, Global};
use std::convert::Infallible;
use std::io::{Read, Write};

/// The fault that ends recordings, and the number of the file that has it, counted from 0.
#[derive(Clone, Copy, PartialEq, Eq)]
pub struct FileFault {
    /// The number of the file.
    pub file: usize,
    /// The fault.
    pub fault: RecordingError,
}

/// Why recordings were not gone over, and the number of the file at which that was, counted from 0.
#[derive(Drop, PartialEq, Eq)]
pub struct StoppedAt {
    /// The number of the file.
    pub file: usize,
    /// Why.
    pub fault: Fault<Infallible>,
}

/// How showing recordings ended.
#[derive(Clone, Copy, PartialEq, Eq)]
pub struct ShownRecording {
    /// Whether a fault of a message was shown.
    pub outcome: Outcome,
    /// The packets that give no datagram, of those that are looked at.
    pub left_out: LeftOut,
    /// Whether an endpoint was named where no more may be learned: from then on every datagram is looked at. Of
    /// an audit, which tells this as a finding, it is false.
    pub is_full: bool,
    /// The fault that ends the recordings, if one does. What comes before it was shown.
    pub fault: Option<FileFault>,
}

/// What was shown of recordings so far.
#[derive(Clone, Copy)]
struct Shown {
    /// How many datagrams that were asked for.
    datagrams: usize,
    /// The moment of the last, in milliseconds.
    now: u64,
    /// Whether a fault of a message was among them.
    is_faulty: bool,
}

/// What goes from record to record.
#[derive(Drop)]
struct Recorder<'t, S> {
    /// What was shown so far.
    shown: Shown,
    /// Holds the lines of a datagram that get something before them. Between datagrams it is empty.
    lines: Buffer,
    /// Learns endpoints, where that is asked for.
    learner: Option<Learner>,
    telling: Telling<'t, S>,
}

/// Writes what recordings show, as they are read, one after the other as one recording: of each datagram
/// that is asked for the lines of `show`, with what is asked for before each, and after the lines of a
/// segment that makes its message whole that message, where messages are put together; the body `S` does
/// that. What waits to be written is written before each read.
///
/// One packet or block of a recording is held at a time, what its datagram says of Service Discovery, and
/// what the body holds of messages that have come in part.
///
/// A recording is not refused: a fault in one ends all, and stands in what is told of them.
pub fn show_recording<S: Reassembly + Drop, R: Read, W: Write>(
    alloc: Global,
    sources: &mut [R],
    asked: &Asked<'_>,
    writer: &mut W,
) -> Result<ShownRecording, StoppedAt>
    // A text of what comes before the fault was written, or of all, and what is told is so.
    ensures shown { IfOk result (λ shown. ShowsRecording (map R.remaining sources.old) (view_asked asked.now)
        shown (W.contents writer.old) (W.contents writer.new)) }
    // Else a beginning of such a text was.
    ensures begun { OnErr result (BeginsRecording (map R.remaining sources.old) (view_asked asked.now)
        (W.contents writer.old) (W.contents writer.new)) }
    // Only one of the files can be a file that could not be read.
    ensures unread { IfErr result (λ stopped. stopped.fault ≡ CannotRead → stopped.file < length sources.old) }
{
    let mut file = 0;
    match show_files::<S, R, W>(alloc, sources, asked, &mut file, writer) {
        Ok(shown) => Ok(shown),
        Err(fault) => Err(StoppedAt { file, fault }),
    }
}

/// The same, which tells the number of the file at which it stopped.
fn show_files<S: Reassembly + Drop, R: Read, W: Write>(
    alloc: Global,
    sources: &mut [R],
    asked: &Asked<'_>,
    file: &mut usize,
    writer: &mut W,
) -> Result<ShownRecording, Fault<Infallible>>
    requires first { file.old ≡ 0 }
    ensures shown { IfOk result (λ shown. ShowsRecording (map R.remaining sources.old) (view_asked asked.now)
        shown (W.contents writer.old) (W.contents writer.new)) }
    ensures begun { OnErr result (BeginsRecording (map R.remaining sources.old) (view_asked asked.now)
        (W.contents writer.old) (W.contents writer.new)) }
    ensures unread { IfErr result (λ fault. fault ≡ CannotRead → file.new < length sources.old) }
{
    let mut buffer = Buffer::new(alloc)?;
    let mut recorder = Recorder {
        shown: Shown::nothing(),
        lines: Buffer::new(alloc)?,
        learner: learner_of(alloc, &asked.wanted)?,
        telling: Telling {
            alloc,
            values: ValueLines::new(alloc, asked.types),
            store: store_for::<S>(alloc, asked.whole)?,
            bytes: Vec::new(alloc),
        },
    };
    let shown = put_files(sources, asked, file, &mut recorder, &mut buffer, writer)?;
    buffer.flush(writer)?;
    Ok(shown)
}

/// A store of messages that come in part, where there are limits.
fn store_for<S: Reassembly + Drop>(
    alloc: Global,
    limits: Option<WholeLimits>,
) -> Result<Option<S>, AllocError>
    ensures store { IfOk result (λ store. view_store S.limits S.parts store
        ≡ option_map empty_store (option_map view_limits limits)) }
    ensures in_time { IfOk result (IsInTime S.parts 0) }
{
    let Some(limits) = limits else {
        return Ok(None);
    };
    match S::make(alloc, limits.slots, limits.limit, limits.timeout_ms) {
        Ok(store) => Ok(Some(store)),
        Err(_) => Err(AllocError),
    }
}

/// Prints what the files show, one after the other.
fn put_files<S: Reassembly + Drop, R: Read, W: Write>(
    sources: &mut [R],
    asked: &Asked<'_>,
    file: &mut usize,
    recorder: &mut Recorder<'_, S>,
    buffer: &mut Buffer,
    writer: &mut W,
) -> Result<ShownRecording, Fault<Infallible>>
    requires first { file.old ≡ 0 }
    requires empty { buffer.old ≡ [] }
    requires shown { recorder.old.shown ≡ nothing_shown }
    requires lines { recorder.old.lines ≡ [] }
    requires learner { recorder.old.learner ≡ learner_of (view_asked asked.now).wanted }
    requires types { recorder.old.telling.values.types.now ≡ asked.now.types.now }
    requires store { view_store S.limits S.parts recorder.old.telling.store
        ≡ option_map empty_store (option_map view_limits asked.now.whole) }
    requires in_time { IsInTime S.parts 0 recorder.old.telling.store }
    ensures puts { IfOk result (λ shown. PutsRecording (map R.remaining sources.old) (view_asked asked.now)
        shown (W.contents writer.old) (W.contents writer.new) buffer.new) }
    ensures begun { OnErr result (BeginsRecording (map R.remaining sources.old) (view_asked asked.now)
        (W.contents writer.old) (W.contents writer.new)) }
    ensures within { OnErr result (file.new < length sources.old) }
{
    let alloc = recorder.telling.alloc;
    let mut intake = Intake::new(alloc, &asked.wanted.packets);
    let mut recording = RecordingReader::new(alloc);
    while *file < sources.len() {
        let coming = next_coming(&mut recording, &mut sources[*file], buffer, writer)?;
        match coming {
            Coming::Record => {}
            Coming::Fault(fault) => {
                let fault = FileFault { file: *file, fault };
                return Ok(recorder.ended(intake.left_out(), Some(fault)));
            }
            Coming::End => {
                recording = RecordingReader::new(alloc);
                *file += 1;
                continue;
            }
        }
        if let Some(found) = recording.record() {
            put_record(buffer, writer, &found, asked, &mut intake, recorder)?;
        }
    }
    Ok(recorder.ended(intake.left_out(), None))
}

impl Shown {
    /// Before the first record.
    fn nothing() -> Shown
        ensures { result ≡ nothing_shown }
    {
        Shown {
            datagrams: 0,
            now: 0,
            is_faulty: false,
        }
    }
}

impl<S: Reassembly + Drop> Recorder<'_, S> {
    /// What is told at the end of the recordings, or at their fault.
    fn ended(&self, left_out: LeftOut, fault: Option<FileFault>) -> ShownRecording
        ensures { result ≡ shown_recording self.now.shown left_out (is_full self.now.learner) fault }
    {
        ShownRecording {
            outcome: Outcome::of(self.shown.is_faulty),
            left_out,
            is_full: is_full(&self.learner),
            fault,
        }
    }
}

/// Takes a record, and prints what its datagram shows, if it gives one that is asked for.
fn put_record<S: Reassembly + Drop, W: Write>(
    buffer: &mut Buffer,
    writer: &mut W,
    found: &Record<'_>,
    asked: &Asked<'_>,
    intake: &mut Intake,
    recorder: &mut Recorder<'_, S>,
) -> Result<(), PrintFault>
    requires empty { recorder.old.lines ≡ [] }
    requires few { recorder.old.shown.datagrams ≤ intake.old.frames }
    requires types { recorder.old.telling.values.types.now ≡ asked.now.types.now }
    requires in_time { IsInTime S.parts recorder.old.shown.now recorder.old.telling.store }
    ensures empty { OnOk result (recorder.new.lines ≡ []) }
    ensures ok { OnOk result (SendsOne (AreRecorded (view_asked asked.now)
        (progress_of recorder.old.shown (view_store S.limits S.parts recorder.old.telling.store))
        (asked_from (view_asked asked.now) (record { intake = intake.old; learner = recorder.old.learner })
        (Ok (view_record found.now) ∷ [])))
        (W.contents writer.old) buffer.old (W.contents writer.new) buffer.new) }
    ensures progress { OnOk result (progress_of recorder.new.shown (view_store S.limits S.parts recorder.new.telling.store)
        ≡ after_all (view_asked asked.now)
        (progress_of recorder.old.shown (view_store S.limits S.parts recorder.old.telling.store))
        (asked_from (view_asked asked.now) (record { intake = intake.old; learner = recorder.old.learner })
        (Ok (view_record found.now) ∷ []))) }
    ensures took { OnOk result (record { intake = intake.new; learner = recorder.new.learner }
        ≡ after_items (view_asked asked.now).wanted (record { intake = intake.old; learner = recorder.old.learner })
        (Ok (view_record found.now) ∷ [])) }
    ensures few { OnOk result (recorder.new.shown.datagrams ≤ intake.new.frames) }
    ensures in_time { OnOk result (IsInTime S.parts recorder.new.shown.now recorder.new.telling.store) }
    ensures err { OnErr result (StopsOne (AreRecorded (view_asked asked.now)
        (progress_of recorder.old.shown (view_store S.limits S.parts recorder.old.telling.store))
        (asked_from (view_asked asked.now) (record { intake = intake.old; learner = recorder.old.learner })
        (Ok (view_record found.now) ∷ [])))
        (W.contents writer.old) buffer.old (W.contents writer.new)) }
    ensures types { recorder.new.telling.values.types.now ≡ recorder.old.telling.values.types.now }
{
    let taken = intake.take(&asked.wanted.packets, found)?;
    let Some(arrival) = intake.arrival(taken) else {
        return Ok(());
    };
    let alloc = recorder.telling.alloc;
    if !seeks(alloc, &asked.wanted, &mut recorder.learner, &arrival)? {
        return Ok(());
    }
    put_next(buffer, writer, arrival, asked, recorder)
}

/// Prints the text of the next datagram that is asked for, and counts it.
fn put_next<S: Reassembly + Drop, W: Write>(
    buffer: &mut Buffer,
    writer: &mut W,
    arrival: Arrival<'_>,
    asked: &Asked<'_>,
    recorder: &mut Recorder<'_, S>,
) -> Result<(), PrintFault>
    requires empty { recorder.old.lines ≡ [] }
    requires few { recorder.old.shown.datagrams + 1 < 2 ^ 64 }
    requires types { recorder.old.telling.values.types.now ≡ asked.now.types.now }
    requires in_time { IsInTime S.parts recorder.old.shown.now recorder.old.telling.store }
    ensures empty { OnOk result (recorder.new.lines ≡ []) }
    ensures ok { OnOk result (SendsOne (IsRecordedText (view_asked asked.now)
        (progress_of recorder.old.shown (view_store S.limits S.parts recorder.old.telling.store))
        (view_arrival arrival.entry)) (W.contents writer.old) buffer.old (W.contents writer.new) buffer.new) }
    ensures progress { OnOk result (progress_of recorder.new.shown (view_store S.limits S.parts recorder.new.telling.store)
        ≡ after_datagram (view_asked asked.now)
        (progress_of recorder.old.shown (view_store S.limits S.parts recorder.old.telling.store))
        (view_arrival arrival.entry)) }
    ensures learner { recorder.new.learner ≡ recorder.old.learner }
    ensures one { OnOk result (recorder.new.shown.datagrams ≡ recorder.old.shown.datagrams + 1) }
    ensures in_time { OnOk result (IsInTime S.parts recorder.new.shown.now recorder.new.telling.store) }
    ensures err { OnErr result (StopsOne (IsRecordedText (view_asked asked.now)
        (progress_of recorder.old.shown (view_store S.limits S.parts recorder.old.telling.store))
        (view_arrival arrival.entry)) (W.contents writer.old) buffer.old (W.contents writer.new)) }
    ensures types { recorder.new.telling.values.types.now ≡ recorder.old.telling.values.types.now }
{
    let k = recorder.shown.datagrams + 1;
    let now = moment_of(recorder.shown.now, arrival.datagram.time);
    let is_faulty = put_numbered(
        buffer,
        writer,
        k,
        now,
        arrival,
        asked,
        &mut recorder.lines,
        &mut recorder.telling,
    )?;
    recorder.shown.datagrams = k;
    recorder.shown.now = now;
    recorder.shown.is_faulty |= is_faulty;
    Ok(())
}
