//! The packets of the datagrams that are asked for, as recordings are read.
ghost use Rattle.std.specs.Prelude.{◌≡◌, ◌<◌, ◌∷◌, [], Ok, IfOk, IfErr, OnOk, OnErr, length, map, option_and_then};
ghost use Rattle.std.specs.List.{AllByRecursion};
ghost use Rattle.recording.specs.View.{view_record};
ghost use Rattle.recording.specs.Spelling.{blocks_bytes};
ghost use Rattle.recording.specs.declared.number.ByteOrder.TheVariants.{Little};
ghost use Rattle.recording_packets.specs.fragments.Parts.{held_under};
ghost use Rattle.recording_writing.specs.Files.{IsPacket, packets_blocks};
ghost use Rattle.someipctl_extract.specs.Extraction.{after_records, datagrams_from, gives, nothing_taken};
ghost use Rattle.someipctl_extract.specs.Extraction.{packets_of, with_datagrams};
ghost use Rattle.someipctl_extract.specs.Extracted.{BeginsExtract, Extracts, PutsExtract};
ghost use Rattle.someipctl_extract.specs.Extracted.{extracted_recording, view_extraction};
ghost use Rattle.someipctl_io.specs.Sending.{Sends, Stops};
ghost use Rattle.someipctl_io.specs.declared.Fault.TheVariants.{CannotRead};
ghost use Rattle.someipctl_recordings.specs.Sought.{after_items};
ghost use Rattle.someipctl_recordings.specs.Wanted.{view_wanted};

use crate::kept::{Kept, fragment_key};
use crate::output::{Losses, Output};
use audit_endpoints::Learner;
use recording::{Record, RecordingReader};
use recording_packets::fragments::{HeldFragments, PacketKey};
use recording_packets::{Intake, LeftOut};
use someipctl_io::{Buffer, Fault, PrintFault};
use someipctl_recordings::read_loop::{Coming, next_coming};
use someipctl_recordings::sought::{is_full, learner_of, seeks};
use someipctl_recordings::{FileFault, StoppedAt, Wanted};
use std::alloc::{AllocError, Global};
use std::convert::Infallible;
use std::io::{Read, Write};

/// How extracting from recordings ended.
#[derive(Clone, Copy, PartialEq, Eq)]
pub struct ExtractedRecording {
    /// What the packets lose in the file.
    pub losses: Losses,
    /// The packets that give no datagram, of those that are looked at.
    pub left_out: LeftOut,
    /// Whether an endpoint was named where no more may be learned: from then on every datagram is looked at.
    pub is_full: bool,
    /// The fault that ends the recordings, if one does. The packets of what comes before it were written.
    pub fault: Option<FileFault>,
}

/// What is known of recordings so far.
#[derive(Drop)]
struct Extractor {
    alloc: Global,
    /// Takes the packets.
    intake: Intake,
    /// Learns endpoints, where that is asked for.
    learner: Option<Learner>,
    /// The packets with the fragments that are held.
    kept: Kept,
}

/// Writes the packets of the datagrams of recordings that are asked for, byte for byte, as one recording, as the
/// files are read, one after the other. Of a datagram that came in fragments all are written, once it is whole.
///
/// Beside what `recording` holds, there are the packets with fragments: at most 512 KiB of each IPv4 packet, and
/// of at most 128 of these.
///
/// A recording is not refused: a fault in one ends all, and stands in what is told of them.
pub fn extract_recording<R: Read, W: Write>(
    alloc: Global,
    sources: &mut [R],
    wanted: &Wanted<'_>,
    writer: &mut W,
) -> Result<ExtractedRecording, StoppedAt>
    // The file of the packets before the fault was written, or of all, and what is told is so.
    ensures extracted { IfOk result (λ done. Extracts (map R.remaining sources.old) (view_wanted wanted.now)
        done (W.contents writer.old) (W.contents writer.new)) }
    // Else a beginning of it was.
    ensures begun { OnErr result (BeginsExtract (map R.remaining sources.old) (view_wanted wanted.now)
        (W.contents writer.old) (W.contents writer.new)) }
    // Only one of the files can be a file that could not be read.
    ensures unread { IfErr result (λ stopped. stopped.fault ≡ CannotRead → stopped.file < length sources.old) }
{
    let mut file = 0;
    match extract_files(alloc, sources, wanted, &mut file, writer) {
        Ok(done) => Ok(done),
        Err(fault) => Err(StoppedAt { file, fault }),
    }
}

/// The same, which tells the number of the file at which it stopped.
fn extract_files<R: Read, W: Write>(
    alloc: Global,
    sources: &mut [R],
    wanted: &Wanted<'_>,
    file: &mut usize,
    writer: &mut W,
) -> Result<ExtractedRecording, Fault<Infallible>>
    requires first { file.old ≡ 0 }
    ensures extracted { IfOk result (λ done. Extracts (map R.remaining sources.old) (view_wanted wanted.now)
        done (W.contents writer.old) (W.contents writer.new)) }
    ensures begun { OnErr result (BeginsExtract (map R.remaining sources.old) (view_wanted wanted.now)
        (W.contents writer.old) (W.contents writer.new)) }
    ensures unread { IfErr result (λ fault. fault ≡ CannotRead → file.new < length sources.old) }
{
    let mut buffer = Buffer::new(alloc)?;
    let mut extractor = Extractor {
        alloc,
        intake: Intake::new(alloc, &wanted.packets),
        learner: learner_of(alloc, wanted)?,
        kept: Kept::new(alloc),
    };
    let done = put_files(sources, wanted, file, &mut extractor, &mut buffer, writer)?;
    buffer.flush(writer)?;
    Ok(done)
}

/// Writes the file of the packets, as the files are read, one after the other.
fn put_files<R: Read, W: Write>(
    sources: &mut [R],
    wanted: &Wanted<'_>,
    file: &mut usize,
    extractor: &mut Extractor,
    buffer: &mut Buffer,
    writer: &mut W,
) -> Result<ExtractedRecording, Fault<Infallible>>
    requires first { file.old ≡ 0 }
    requires empty { buffer.old ≡ [] }
    requires nothing { view_extraction extractor.old ≡ nothing_taken (view_wanted wanted.now) }
    ensures puts { IfOk result (λ done. PutsExtract (map R.remaining sources.old) (view_wanted wanted.now)
        done (W.contents writer.old) (W.contents writer.new) buffer.new) }
    ensures begun { OnErr result (BeginsExtract (map R.remaining sources.old) (view_wanted wanted.now)
        (W.contents writer.old) (W.contents writer.new)) }
    ensures unread { IfErr result (λ fault. fault ≡ CannotRead → file.new < length sources.old) }
{
    let mut output = Output::begin(extractor.alloc, buffer, writer)?;
    let mut recording = RecordingReader::new(extractor.alloc);
    while *file < sources.len() {
        let coming = next_coming(&mut recording, &mut sources[*file], buffer, writer)?;
        match coming {
            Coming::Record => {}
            Coming::Fault(fault) => {
                let fault = FileFault { file: *file, fault };
                return Ok(extractor.ended(output.losses, Some(fault)));
            }
            Coming::End => {
                recording = RecordingReader::new(extractor.alloc);
                *file += 1;
                continue;
            }
        }
        if let Some(found) = recording.record() {
            put_record(buffer, writer, &found, wanted, extractor, &mut output)?;
        }
    }
    Ok(extractor.ended(output.losses, None))
}

/// Takes a record, and writes the packets of its datagram, if it gives one that is asked for.
fn put_record<W: Write>(
    buffer: &mut Buffer,
    writer: &mut W,
    found: &Record<'_>,
    wanted: &Wanted<'_>,
    extractor: &mut Extractor,
    output: &mut Output,
) -> Result<(), PrintFault>
    ensures ok { OnOk result (Sends (W.contents writer.old) buffer.old (W.contents writer.new) buffer.new
        (blocks_bytes Little (packets_blocks output.old.packets (packets_of
        (datagrams_from (view_wanted wanted.now) (view_extraction extractor.old) (Ok (view_record found.now) ∷ [])))))) }
    ensures after { OnOk result (output.new ≡ with_datagrams output.old
        (datagrams_from (view_wanted wanted.now) (view_extraction extractor.old) (Ok (view_record found.now) ∷ []))) }
    ensures fits { OnOk result (AllByRecursion IsPacket (packets_of
        (datagrams_from (view_wanted wanted.now) (view_extraction extractor.old) (Ok (view_record found.now) ∷ [])))) }
    ensures took { OnOk result (view_extraction extractor.new
        ≡ after_records (view_wanted wanted.now) (view_extraction extractor.old) (Ok (view_record found.now) ∷ [])) }
    ensures err { OnErr result (Stops (W.contents writer.old) buffer.old (W.contents writer.new)
        (blocks_bytes Little (packets_blocks output.old.packets (packets_of
        (datagrams_from (view_wanted wanted.now) (view_extraction extractor.old) (Ok (view_record found.now) ∷ [])))))) }
{
    let key = fragment_key(found);
    let before = held(&extractor.intake, key);
    if extractor.seeks(wanted, found)? {
        output.put_datagram(buffer, writer, key, &extractor.kept, found)?;
    }
    if let Some(key) = key {
        extractor
            .kept
            .follow(key, before, &extractor.intake, found)?;
    }
    Ok(())
}

/// The fragments that are held of an IPv4 packet, if it is one of fragments.
fn held(intake: &Intake, key: Option<PacketKey>) -> Option<HeldFragments>
    ensures { result ≡ option_and_then (λ key. held_under key intake.now.fragments.parts) key }
{
    match key {
        Some(key) => intake.held(&key),
        None => None,
    }
}

impl Extractor {
    /// Takes a packet, and tells whether it gives a datagram that is asked for.
    fn seeks(&mut self, wanted: &Wanted<'_>, found: &Record<'_>) -> Result<bool, AllocError>
        ensures sought { IfOk result (λ is. is ≡ gives (view_wanted wanted.now)
            (view_extraction self.old).sought (view_record found.now)) }
        ensures after { OnOk result ((view_extraction self.new).sought ≡ after_items (view_wanted wanted.now)
            (view_extraction self.old).sought (Ok (view_record found.now) ∷ [])) }
        ensures kept { self.new.kept ≡ self.old.kept }
    {
        let taken = self.intake.take(&wanted.packets, found)?;
        match self.intake.arrival(taken) {
            Some(arrival) => seeks(self.alloc, wanted, &mut self.learner, &arrival),
            None => Ok(false),
        }
    }

    /// What is told at the end of the recordings, or at their fault.
    fn ended(&self, losses: Losses, fault: Option<FileFault>) -> ExtractedRecording
        ensures { result ≡ extracted_recording (view_extraction self.now) losses fault }
    {
        ExtractedRecording {
            losses,
            left_out: self.intake.left_out(),
            is_full: is_full(&self.learner),
            fault,
        }
    }
}
