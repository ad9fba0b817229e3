//! The records of a recording, one after the other.
ghost use Rattle.std.specs.Prelude.{◌≡◌, ◌≤◌, ◌∷◌, [], Ok, Err, IfOk, IfErr, OnErr, IfSome, IfNone};
ghost use Rattle.std.specs.Prelude.{IsOkAnd, List, Some, None, length, drop};
ghost use Rattle.recording.specs.declared.error.RecordingError.TheVariants.{NotRecording};
ghost use Rattle.recording.specs.Records.{Item, items_of, format_of};
ghost use Rattle.recording.specs.Spelling.{IsRecording};
ghost use Rattle.recording.specs.View.{view_record};
ghost use Rattle.recording.specs.Steps.{IsLast};

use crate::block::SECTION;
use crate::classic::{HEADER_LEN, classic_in};
use crate::error::RecordingError;
use crate::format::Format;
use crate::interface::Interface;
use crate::number::{ByteOrder, u32_at};
use crate::parts::next_record;
use crate::record::Record;
use std::alloc::Global;
use std::marker::Model;

/// The records of a recording in order, and then the fault that ends it, if one does.
///
/// Contracts see it as the list of what is left to come. After a fault nothing is.
#[derive(Drop)]
pub struct Recording<'a> {
    file: &'a [u8],
    place: usize,
    format: Format,
    interfaces: Vec<Interface>,
}

impl<'a> Model for Recording<'a> {
    ghost use Rattle.std.specs.Prelude.{List, drop, length, ◌≤◌};
    ghost use Rattle.recording.specs.Records.{Item, items_from};

    ghost Value = { List Item };

    ghost view = { λ s. items_from s.format s.interfaces.items s.place (drop s.place s.file.now) };

    ghost invariant = { λ s. s.place ≤ length s.file.now };
}

impl<'a> Recording<'a> {
    /// The recording that the bytes of a file are. The format is told by the first four.
    ///
    /// ```text
    /// a1b2c3d4 or d4c3b2a1, and 20 bytes    classic pcap, microseconds
    /// a1b23c4d or 4d3cb2a1, and 20 bytes    classic pcap, nanoseconds
    /// 0a0d0d0a, and 8 bytes                 pcapng
    /// anything else                         NotRecording(0)
    /// ```
    pub fn open(alloc: Global, file: &'a [u8]) -> Result<Recording<'a>, RecordingError>
        // The file is a recording, and what it holds is left to come.
        ensures found { IfOk result (λ items. IsRecording items file.now) }
        // Whatever recording the file is, what that holds is left to come.
        ensures only { (items : List Item) → IsRecording items file.now
            → IsOkAnd result (λ left. left ≡ items) }
        // It is what the plain program reads.
        ensures read { IfOk result (λ items. items_of file.now ≡ Ok items) }
        // An error is that the file is no recording.
        ensures err { IfErr result (λ e. e ≡ NotRecording 0) }
    {
        let (format, place) = format_of(file)?;
        Ok(Recording {
            file,
            place,
            format,
            interfaces: Vec::new(alloc),
        })
    }

    /// The next record, or the fault that ends the recording. None at the end, and after a fault.
    ///
    /// The blocks of pcapng without a packet are skipped. Out of memory, which only the description of
    /// an interface can be, ends the recording as a fault does.
    pub fn next(&mut self) -> Option<Result<Record<'a>, RecordingError>>
        // A record is the first of what was left, and the others are left.
        ensures record { IfSome result (λ item. IfOk item (λ record_.
            self.old ≡ Ok (view_record record_) ∷ self.new)) }
        // A fault is all that was left.
        ensures fault { IfSome result (λ item. IfErr item (λ e. IsLast e self.old)) }
        // Then nothing is left.
        ensures ended { IfSome result (λ item. OnErr item (self.new ≡ [])) }
        // There is none where nothing was left, and nothing is.
        ensures none { IfNone result (self.old ≡ []) }
        ensures nothing { IfNone result (self.new ≡ []) }
    {
        match next_record(self.format, &mut self.interfaces, self.file, self.place) {
            Ok(Some(part)) => {
                self.format = part.format;
                self.place = part.end;
                Some(Ok(part.record))
            }
            Ok(None) => {
                self.place = self.file.len();
                None
            }
            Err(e) => {
                self.place = self.file.len();
                Some(Err(e))
            }
        }
    }
}

/// The format of a file, and the place of its first packet or block.
pub(crate) fn format_of(file: &[u8]) -> Result<(Format, usize), RecordingError>
    ensures start { IfOk result (λ r. format_of file.now ≡ Some r) }
    ensures no_start { OnErr result (format_of file.now ≡ None) }
    ensures none { IfErr result (λ e. e ≡ NotRecording 0) }
    ensures within { IfOk result (λ r. r.1 ≤ length file.now) }
{
    if file.len() < 12 {
        return Err(RecordingError::NotRecording(0));
    }
    if u32_at(ByteOrder::Big, file, 0) == SECTION {
        return Ok((Format::Blocks(ByteOrder::Big), 0));
    }
    if file.len() < HEADER_LEN {
        return Err(RecordingError::NotRecording(0));
    }
    match classic_in(file) {
        Some(classic) => Ok((Format::Classic(classic), HEADER_LEN)),
        None => Err(RecordingError::NotRecording(0)),
    }
}
