//! A recording that is read as it comes.
ghost use Rattle.std.specs.Prelude.{◌≡◌, ◌≢◌, ◌≤◌, ◌<◌, ◌+◌, ◌-◌, ◌^◌, ◌++◌, drop, ℕ, List, [], false, None, length, take};
ghost use Rattle.std.specs.Prelude.{IfOk, IfErr, OnOk, OnErr, option_map};
ghost use Rattle.std.specs.Io.{ReadsAtMost};
ghost use Rattle.std.specs.IoError.{error_kind};
ghost use Rattle.std.specs.declared.io.ErrorKind.TheVariants.{Interrupted};
ghost use Rattle.std.specs.Io.KnownBytes.{Keeps, Consumes, IsAtEnd};
ghost use Rattle.recording.specs.declared.stage.Stage.TheVariants.{Head};
ghost use Rattle.recording.specs.Readers.{inside, to_come, memory_limit, CanFollow, IsNext, IsAfterRead};
ghost use Rattle.recording.specs.Readers.{LacksMemory};
ghost use Rattle.recording.specs.View.{view_record};
ghost use Rattle.recording.specs.Steps.{IsLast, OnMemory};

use crate::classic::HEADER_LEN;
use crate::error::RecordingError;
use crate::format::Format;
use crate::held::{HELD_LEN, next_told};
use crate::interface::Interface;
use crate::packet::{Packet, behind, record_at};
use crate::record::Record;
use crate::recording::format_of;
use crate::stage::Stage;
use std::alloc::Global;
use std::io;
use std::io::{ErrorKind, Read};
use std::marker::Model;

/// How many bytes are read at once at most.
const ROOM: usize = 65_536;

/// What comes next of a recording that is read as it comes.
#[derive(Clone, Copy, Debug, PartialEq, Eq)]
pub enum Next {
    /// A record: that of [`RecordingReader::record`].
    Record,
    /// That is not known before more of the recording was read.
    Unread,
    /// Nothing: the recording is at its end, or had a fault.
    End,
}

/// A recording that is read as it comes, of which one packet or block is held at a time, and what else
/// was read with it.
///
/// It gives what `Recording` gives of the same bytes, if no packet or block is longer with its header
/// than 16 MiB, and no section of pcapng describes more than 65,536 interfaces; else what comes before
/// the first of these, and then the fault `BlockTooLong` or `TooManyInterfaces`.
///
/// Its memory is that of the interfaces of a section and a buffer: at each read the bytes that are held,
/// at most as many that were taken before them, and room for 64 KiB. The buffer grows by doubling and is
/// kept: it has 128 KiB for short packets and blocks, and 32 MiB for one of 16 MiB, for which 48 MiB are
/// taken while it grows. Where a caller reads before `next` wants more, it may have 64 MiB, and 96 while
/// it grows.
///
/// ```text
/// loop:  match reader.next()?    Record    reader.record() is the next record
///                                Unread    reader.read_from(&mut file)?
///                                End       nothing more comes
/// ```
#[derive(Drop)]
pub struct RecordingReader {
    /// What was read, but for what was forgotten.
    bytes: Vec<u8>,
    /// How many of these were taken.
    start: usize,
    /// The place in the recording of the first that was not.
    place: usize,
    /// The recording has no more bytes.
    is_whole: bool,
    stage: Stage,
    interfaces: Vec<Interface>,
    packet: Option<Packet>,
}

impl Model for RecordingReader {
    ghost use Rattle.std.specs.Prelude.{◌≤◌, ◌<◌, ◌+◌, ◌^◌, drop, length, option_map};
    ghost use Rattle.recording.specs.Readers.{ReaderValue, memory_limit};
    ghost use Rattle.recording.specs.View.{record_at, LiesIn};

    ghost Value = { ReaderValue };

    ghost view = { λ s. record {
      stage = s.stage;
      interfaces = s.interfaces.items;
      place = s.place;
      held = drop s.start s.bytes.items;
      taken = s.start;
      is_whole = s.is_whole;
      current = option_map (record_at s.bytes.items) s.packet;
    } };

    ghost invariant = { λ s. (s.start ≤ length s.bytes.items)
        × (s.place + length (drop s.start s.bytes.items) < 2 ^ 64) × LiesIn s.bytes.items s.packet
        × (length s.bytes.items ≤ memory_limit) };
}

impl RecordingReader {
    /// A reader of a recording of which nothing was read yet.
    pub fn new(alloc: Global) -> RecordingReader
        ensures { result ≡ record {
          stage = Head;
          interfaces = [];
          place = 0;
          held = [];
          taken = 0;
          is_whole = false;
          current = None;
        } }
    {
        RecordingReader {
            bytes: Vec::new(alloc),
            start: 0,
            place: 0,
            is_whole: false,
            stage: Stage::Head,
            interfaces: Vec::new(alloc),
            packet: None,
        }
    }

    /// Goes on to the next record, or to the fault that ends the recording, if what was read tells it.
    /// Nothing comes after a fault.
    ///
    /// The head of a recording is told once 24 bytes are held, the header of classic pcap, or all that
    /// there is. A packet or block is told once it is held whole, and what is too long by its head alone.
    ///
    /// The blocks of pcapng without a packet are skipped. Out of memory, which only the description of
    /// an interface can be, ends the recording as a fault does.
    pub fn next(&mut self) -> Result<Next, RecordingError>
        // What is answered is so, whatever can follow the bytes that are held.
        ensures next { IfOk result (IsNext self.old self.new) }
        // A fault is all that was to come.
        ensures fault { IfErr result (λ e. (rest : List ℕ) → CanFollow self.old.is_whole rest
            → IsLast e (to_come self.old rest)) }
        // Out of memory is for the description of an interface, which is held and may be.
        ensures memory { IfErr result (λ e. OnMemory e (LacksMemory self.old.is_whole self.old.place
            self.old.held (to_come self.old))) }
        // Then nothing is to come.
        ensures ended { OnErr result ((rest : List ℕ) → to_come self.new rest ≡ []) }
        // And it has no record.
        ensures none { OnErr result (self.new.current ≡ None) }
        // Nothing is read.
        ensures whole { self.new.is_whole ≡ self.old.is_whole }
        // Nothing is forgotten, and no memory is taken for more bytes.
        ensures kept { self.new.taken + length self.new.held ≡ self.old.taken + length self.old.held }
        ensures most { self.new.taken + length self.new.held ≤ memory_limit }
        // It only goes forward, and places are numbers of 64 bits.
        ensures forward { self.old.place ≤ self.new.place }
        ensures bounded { self.new.place + length self.new.held < 2 ^ 64 }
        // It goes forward by what it takes of the bytes that are held.
        ensures through { self.new.place + length self.new.held ≡ self.old.place + length self.old.held }
    {
        self.packet = None;
        let next = match self.stage {
            Stage::Head => self.open(),
            Stage::Inside(format) => self.take(format),
            Stage::Over => Ok(Next::End),
        };
        if next.is_err() {
            self.stage = Stage::Over;
        }
        next
    }

    /// Goes on from the beginning of the recording.
    fn open(&mut self) -> Result<Next, RecordingError>
        requires head { self.old.stage ≡ Head }
        requires none { self.old.current ≡ None }
        ensures next { IfOk result (IsNext self.old self.new) }
        ensures fault { IfErr result (λ e. (rest : List ℕ) → CanFollow self.old.is_whole rest
            → IsLast e (to_come self.old rest)) }
        ensures memory { IfErr result (λ e. OnMemory e (LacksMemory self.old.is_whole self.old.place
            self.old.held (to_come self.old))) }
        ensures none { OnErr result (self.new.current ≡ None) }
        ensures whole { self.new.is_whole ≡ self.old.is_whole }
        ensures kept { self.new.taken + length self.new.held ≡ self.old.taken + length self.old.held }
        ensures forward { self.old.place ≤ self.new.place }
        ensures through { self.new.place + length self.new.held ≡ self.old.place + length self.old.held }
    {
        let held = &self.bytes[self.start..];
        if held.len() < HEADER_LEN && !self.is_whole {
            return Ok(Next::Unread);
        }
        let (format, len) = format_of(held)?;
        self.start += len;
        self.place += len;
        self.take(format)
    }

    /// Goes on where a packet or a block begins.
    fn take(&mut self, format: Format) -> Result<Next, RecordingError>
        requires { self.old.current ≡ None }
        ensures next { IfOk result (IsNext (inside format self.old) self.new) }
        ensures fault { IfErr result (λ e. (rest : List ℕ) → CanFollow self.old.is_whole rest
            → IsLast e (to_come (inside format self.old) rest)) }
        ensures memory { IfErr result (λ e. OnMemory e (LacksMemory self.old.is_whole self.old.place
            self.old.held (to_come (inside format self.old)))) }
        ensures none { OnErr result (self.new.current ≡ None) }
        ensures whole { self.new.is_whole ≡ self.old.is_whole }
        ensures kept { self.new.taken + length self.new.held ≡ self.old.taken + length self.old.held }
        ensures forward { self.old.place ≤ self.new.place }
        ensures through { self.new.place + length self.new.held ≡ self.old.place + length self.old.held }
    {
        let held = &self.bytes[self.start..];
        let told = next_told(
            format,
            &mut self.interfaces,
            self.place,
            held,
            self.is_whole,
        )?;
        self.packet = behind(told.packet, self.start);
        self.stage = Stage::Inside(told.format);
        self.start += told.len;
        self.place += told.len;
        Ok(match told.packet {
            Some(_) => Next::Record,
            None => {
                if self.is_whole {
                    Next::End
                } else {
                    Next::Unread
                }
            }
        })
    }

    /// The record to which `next` went, if it did, and nothing was read since.
    pub fn record(&self) -> Option<Record<'_>>
        ensures { option_map view_record result ≡ self.now.current }
    {
        match self.packet {
            Some(packet) => Some(record_at(&self.bytes, packet)),
            None => None,
        }
    }

    /// Reads once from what has the rest of the recording, 64 KiB at most and none where 16 MiB are
    /// held, and forgets the record. What was taken is forgotten where that makes room for what is held.
    ///
    /// An error is one of the read, or of memory, or that a recording of more than 2^64 - 1 bytes was
    /// read.
    pub fn read_from<R: Read>(&mut self, reader: &mut R) -> io::Result<()>
        // What was read is held after what was, and nothing else changed.
        ensures read { OnOk result
            (IsAfterRead self.old self.new (R.remaining reader.old) (R.remaining reader.new)) }
        // A read that a signal interrupts is asked again, and no error.
        ensures asked { IfErr result (λ e. error_kind e ≢ Interrupted) }
        // Nothing was read, and nothing else is to come.
        ensures unread { OnErr result (Keeps (R.remaining reader.old) (R.remaining reader.new)) }
        ensures same { OnErr result ((rest : List ℕ) → to_come self.new rest ≡ to_come self.old rest) }
        ensures whole { OnErr result (self.new.is_whole ≡ self.old.is_whole) }
        // The record is forgotten, and perhaps bytes that were taken, and nothing else changed.
        ensures kept { OnErr result
            (self.new ≡ record self.old { taken = self.new.taken; current = None }) }
        // What was taken grows by no read, and never are more bytes in memory than these.
        ensures fewer { self.new.taken ≤ self.old.taken }
        ensures most { self.new.taken + length self.new.held ≤ memory_limit }
    {
        self.packet = None;
        let held = self.bytes.len() - self.start;
        if self.is_whole || held >= HELD_LEN {
            return Ok(());
        }
        if self.place.checked_add(held + ROOM).is_none() {
            return Err(io::Error::other("the recording is too long"));
        }
        self.forget_taken();
        let len = append_read(reader, &mut self.bytes)?;
        self.is_whole = len == 0;
        Ok(())
    }

    /// Forgets what was taken, where that makes room for what is held.
    fn forget_taken(&mut self)
        requires { self.old.current ≡ None }
        ensures same { self.new ≡ record self.old { taken = self.new.taken } }
        ensures fewer { self.new.taken ≤ self.old.taken }
        ensures room { self.new.taken ≤ length self.new.held }
    {
        let held = self.bytes.len() - self.start;
        if held <= self.start {
            to_front(&mut self.bytes, self.start);
            self.bytes.truncate(held);
            self.start = 0;
        }
    }
}

/// Copies the bytes from a place on to the front.
fn to_front(bytes: &mut [u8], start: usize)
    requires { (start ≤ length bytes.old) × (length bytes.old - start ≤ start) }
    ensures { take (length bytes.old - start) bytes.new ≡ drop start bytes.old }
{
    let len = bytes.len() - start;
    let (front, back) = bytes.split_at_mut(start);
    front[..len].copy_from_slice(back);
}

/// Appends what one read gives, and says how many bytes that is: none at the end.
fn append_read<R: Read>(reader: &mut R, bytes: &mut Vec<u8>) -> io::Result<usize>
    ensures appends { IfOk result (λ n. (more : List ℕ) × (length more ≡ n) × (n ≤ 65536)
        × (bytes.new.items ≡ bytes.old.items ++ more)
        × Consumes (R.remaining reader.old) (R.remaining reader.new) more) }
    ensures end { IfOk result (λ n. n ≡ 0 → IsAtEnd (R.remaining reader.new)) }
    ensures unread { OnErr result (Keeps (R.remaining reader.old) (R.remaining reader.new)) }
    ensures same { OnErr result (bytes.new.items ≡ bytes.old.items) }
    ensures asked { IfErr result (λ e. error_kind e ≢ Interrupted) }
{
    let held = bytes.len();
    bytes.resize(held + ROOM, 0)?;
    let read = read_behind(reader, bytes, held);
    match read {
        Ok(len) => bytes.truncate(held + len),
        Err(_) => bytes.truncate(held),
    }
    read
}

/// Reads once to the place after the bytes that are held.
fn read_behind<R: Read>(reader: &mut R, bytes: &mut [u8], held: usize) -> io::Result<usize>
    requires { held ≤ length bytes.old }
    ensures len { length bytes.new ≡ length bytes.old }
    ensures front { take held bytes.new ≡ take held bytes.old }
    ensures bound { IfOk result (λ n. held + n ≤ length bytes.new) }
    ensures read { IfOk result (λ n. Consumes (R.remaining reader.old) (R.remaining reader.new)
        (take n (drop held bytes.new))) }
    ensures end { IfOk result (λ n. n ≡ 0 → held < length bytes.old
        → IsAtEnd (R.remaining reader.new)) }
    ensures unread { OnErr result (Keeps (R.remaining reader.old) (R.remaining reader.new)) }
    ensures asked { IfErr result (λ e. error_kind e ≢ Interrupted) }
{
    read_once(reader, &mut bytes[held..])
}

/// Reads once, and again where a signal interrupts it.
fn read_once<R: Read>(reader: &mut R, room: &mut [u8]) -> io::Result<usize>
    ensures bound { ReadsAtMost result room.new }
    ensures read { IfOk result (λ n.
        Consumes (R.remaining reader.old) (R.remaining reader.new) (take n room.new)) }
    ensures end { IfOk result (λ n. n ≡ 0 → 0 < length room.old
        → IsAtEnd (R.remaining reader.new)) }
    ensures unread { OnErr result (Keeps (R.remaining reader.old) (R.remaining reader.new)) }
    ensures asked { IfErr result (λ e. error_kind e ≢ Interrupted) }
{
    for _ in 0..u64::MAX {
        match reader.read(room) {
            Ok(len) => return Ok(len),
            Err(e) => {
                if e.kind() != ErrorKind::Interrupted {
                    return Err(e);
                }
            }
        }
    }
    Err(io::Error::other("the read was interrupted too often"))
}
