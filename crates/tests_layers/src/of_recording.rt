//! The rows of recordings: what is read from files, and from the packets in them.
//!
//! `file HEX` tells what a file gives, which a reader gives too whose bytes come seven at a time; `slice HEX` the same
//! without a reader; `packet LINK HEX` what a file of classic pcap gives with one packet of this link type. `reading FRONT
//! TIMES BLOCK BACK` tells what a reader gives, whether many bytes come at once or fewer. A datagram is told by its
//! seconds and nanoseconds, and its payload. All go from 192.168.0.1:30490 to 192.168.0.2:30501.
use crate::acts::{Act, Subject, Told, tell_bytes};
use crate::judging::try_tables;
use recording::{
    Carried, Datagram, Endpoint, Next, Record, Recording, RecordingError, RecordingReader,
};
use std::alloc::{AllocError, Global};
use std::fmt;
use std::fmt::Write;

mod packets;
mod pcap;
mod pcapng;
mod reading;

/// What has no state.
#[derive(Drop)]
struct Recordings {
    alloc: Global,
}

impl Subject for Recordings {
    fn make(alloc: Global) -> Result<Recordings, AllocError> {
        Ok(Recordings { alloc })
    }

    fn perform(&mut self, act: &Act<'_>, told: &mut Told) -> fmt::Result {
        let mut file = Vec::new(self.alloc);
        if add_file(self.alloc, act, &mut file).is_none() {
            return write!(told, "OutOfMemory");
        }
        match act.verb {
            "reading" => {
                let mut other = Told::new(self.alloc).map_err(|_| fmt::Error)?;
                tell_read(self.alloc, &file, 65_536, told)?;
                tell_read(self.alloc, &file, 4099, &mut other)?;
                compare(told, &other)
            }
            "file" => {
                let mut other = Told::new(self.alloc).map_err(|_| fmt::Error)?;
                tell_given(self.alloc, &file, told)?;
                tell_read(self.alloc, &file, 7, &mut other)?;
                compare(told, &other)
            }
            _ => tell_given(self.alloc, &file, told),
        }
    }
}

/// Adds the bytes of a file.
fn add_file(alloc: Global, act: &Act<'_>, file: &mut Vec<u8>) -> Option<()> {
    let (first, rest) = act.rest.split_once(' ').unwrap_or((act.rest, ""));
    match act.verb {
        "packet" => add_packet(alloc, act.short(0), rest, file),
        "reading" => add_parts(alloc, act, file),
        _ => add_hex(alloc, first, file),
    }
}

/// Adds bytes in hex digits, which are `-` for none.
fn add_hex(alloc: Global, digits: &str, file: &mut Vec<u8>) -> Option<()> {
    let digits = if digits == "-" { "" } else { digits };
    let bytes = hex::decode(alloc, digits).ok()?;
    file.extend_from_slice(&bytes).ok()
}

/// The header of a file of classic pcap, but for the lower half of the link type: the numbers have their highest byte
/// first, and the fractions are microseconds.
const HEADER: &[u8] = &[
    0xa1, 0xb2, 0xc3, 0xd4, 0, 2, 0, 4, 0, 0, 0, 0, 0, 0, 0, 0, 0, 0, 0xff, 0xff, 0xf0, 0,
];

/// The head of a packet, but for its lengths: one second, and one microsecond.
const PACKET: &[u8] = &[0, 0, 0, 1, 0, 0, 0, 1, 0, 0];

/// Adds a file with one packet of a link type. It was longer, which is not looked at.
fn add_packet(alloc: Global, link: u16, digits: &str, file: &mut Vec<u8>) -> Option<()> {
    let mut packet = Vec::new(alloc);
    add_hex(alloc, digits, &mut packet)?;
    let length = (packet.len() % 0x10000) as u16;
    file.extend_from_slice(HEADER).ok()?;
    file.extend_from_slice(&link.to_be_bytes()).ok()?;
    file.extend_from_slice(PACKET).ok()?;
    file.extend_from_slice(&length.to_be_bytes()).ok()?;
    file.extend_from_slice(&[0, 0, 0, 99]).ok()?;
    file.extend_from_slice(&packet).ok()
}

/// Adds what a file begins with, what comes next so many times, and what it ends with.
fn add_parts(alloc: Global, act: &Act<'_>, file: &mut Vec<u8>) -> Option<()> {
    let mut parts = act.rest.split_whitespace();
    add_hex(alloc, parts.next()?, file)?;
    let mut block = Vec::new(alloc);
    add_hex(alloc, parts.nth(1)?, &mut block)?;
    for _ in 0..act.word(1) {
        file.extend_from_slice(&block).ok()?;
    }
    add_hex(alloc, parts.next()?, file)
}

/// Writes down that a reader tells otherwise, where it does.
fn compare(told: &mut Told, other: &Told) -> fmt::Result {
    if told.bytes() == other.bytes() {
        Ok(())
    } else {
        write!(told, ", and a reader otherwise")
    }
}

/// Writes down what a file gives.
fn tell_given(alloc: Global, file: &[u8], told: &mut Told) -> fmt::Result {
    let mut recording = match Recording::open(alloc, file) {
        Ok(recording) => recording,
        Err(fault) => return tell_fault(told, fault),
    };
    for _ in 0..u64::MAX {
        match recording.next() {
            Some(Ok(record)) => tell_record(told, &record)?,
            Some(Err(fault)) => tell_fault(told, fault)?,
            None => break,
        }
    }
    Ok(())
}

/// Writes down what a reader gives of a file of which at most so many bytes come at once.
fn tell_read(alloc: Global, file: &[u8], most: usize, told: &mut Told) -> fmt::Result {
    let mut reader = RecordingReader::new(alloc);
    let mut rest = file;
    for _ in 0..u64::MAX {
        match reader.next() {
            Ok(Next::Unread) => {
                let (mut part, others) = rest.split_at(most.min(rest.len()));
                rest = others;
                reader.read_from(&mut part).map_err(|_| fmt::Error)?;
            }
            Ok(Next::Record) => match reader.record() {
                Some(record) => tell_record(told, &record)?,
                None => return Err(fmt::Error),
            },
            Ok(Next::End) => break,
            Err(fault) => tell_fault(told, fault)?,
        }
    }
    Ok(())
}

fn tell_fault(told: &mut Told, fault: RecordingError) -> fmt::Result {
    let comma = if told.bytes().is_empty() { "" } else { ", " };
    write!(told, "{comma}{fault:?}")
}

fn tell_record(told: &mut Told, record: &Record<'_>) -> fmt::Result {
    let comma = if told.bytes().is_empty() { "" } else { ", " };
    write!(told, "{comma}")?;
    match record.carried() {
        Carried::Datagram(datagram) => tell_datagram(told, &datagram),
        Carried::Fragment => write!(told, "fragment"),
        Carried::Nothing(skipped) => write!(told, "nothing {skipped:?}"),
    }
}

fn tell_datagram(told: &mut Told, datagram: &Datagram<'_>) -> fmt::Result {
    let from = Endpoint {
        ip: [192, 168, 0, 1],
        port: 30490,
    };
    let to = Endpoint {
        ip: [192, 168, 0, 2],
        port: 30501,
    };
    if datagram.from != from || datagram.to != to {
        write!(told, "elsewhere ")?;
    }
    match datagram.time {
        Some(time) => write!(told, "{}+{} ", time.seconds, time.nanoseconds)?,
        None => write!(told, "untimed ")?,
    }
    match datagram.payload {
        [] => write!(told, "-"),
        payload => tell_bytes(told, payload),
    }
}

#[test]
fn files(rt: HostRuntime) {
    let tables = [
        pcap::FILES,
        pcapng::SECTIONS,
        pcapng::TIMES,
        pcapng::PACKETS,
        pcapng::LENGTHS,
        pcapng::UNKNOWN,
        pcapng::LONG,
        packets::PACKETS,
    ];
    try_tables::<Recordings>(&rt, &tables);
}

#[test]
fn readers(rt: HostRuntime) {
    try_tables::<Recordings>(&rt, &[reading::READERS]);
}
