//! Rows of discovery messages.
//!
//! `read HEX` tells the flags and what the entries are, or the fault, and keeps the good ones in place of those that it
//! had; `fronts HEX` tells how many fronts of the bytes are refused as truncated at their end. `write FLAGS` tells the
//! message of the entries, and leaves what stands before it; `options` those of the last entry, `endpoint` its first UDP
//! endpoint. `split` tells the lengths of the fronts that fit into a message. `ttl SECONDS`, `counter NUMBER` and `raw
//! KIND LENGTH` (an option of so many zero bytes) tell whether there is such a value.
//!
//! After `none` there are no entries. They are added by `offer`, without options; by `numbered FIRST COUNT`, an Offer with so many options of type 77,
//! whose bytes are numbers from one on; by `ports COUNT`, so many Offers, each at a port of its own; and by `copies
//! COUNT`, so many of the last entry. Its first run gets a numbered option more by `more NUMBER`, and one of so many zero
//! bytes by `zeros LENGTH`. `index PLACE` is a byte of the message that is written.
use crate::acts::{Act, Subject, Told, tell, tell_bytes};
use crate::judging::try_tables;
use rows::{
    BAD_RUNS, EMPTY_RUNS, FAULTY, FIELDS, INDICES, KINDS, LONGEST, OPTIONS, RAW, REACHED, RESERVED,
    RUNS, SHARED, TWICE_FAULTY, UNFIT, WORKED,
};
use sd_wire::{
    Entry, EntryHead, Ipv4Endpoint, Protocol, RawOption, ReadEntry, SdError, SdFlags, SdMessage,
    SdOption, SdRead, ServiceEntry, ServiceKind, SubscriptionCounter, Ttl, read_sd, split_entries,
    write_sd,
};
use std::alloc::{AllocError, Global};
use std::fmt;
use std::fmt::Write;
use std::net::{Ipv4Addr, SocketAddrV4};
use std::rc::Rc;

mod rows;

/// Entries, and the bytes that they were written to.
#[derive(Drop)]
struct Discovery {
    alloc: Global,
    entries: Vec<Entry>,
    out: Vec<u8>,
}

impl Subject for Discovery {
    fn make(alloc: Global) -> Result<Discovery, AllocError> {
        Ok(Discovery {
            alloc,
            entries: Vec::new(alloc),
            out: Vec::new(alloc),
        })
    }

    fn perform(&mut self, act: &Act<'_>, told: &mut Told) -> fmt::Result {
        let count = act.short(0);
        match act.verb {
            "read" | "fronts" => self.take_bytes(act, told),
            "write" => self.write(act.byte(0), told),
            "index" => self.tell_byte(act.word(0) as usize, told),
            "options" | "endpoint" => self.tell_last(act.verb, told),
            "split" => tell(told, &split_entries(self.alloc, &self.entries)),
            "ttl" => tell_ttl(told, act.word(0)),
            "counter" => write!(told, "{:?}", counter(act.byte(0))),
            "raw" => {
                let option = raw(self.alloc, act.byte(0), act.word(1) as usize);
                write!(told, "{}", option.is_some())
            }
            "none" => {
                self.entries = Vec::new(self.alloc);
                Ok(())
            }
            "offer" => done(self.add(0, 0)),
            "numbered" => done(self.add(count, act.short(1))),
            "more" => done(self.put(numbered(self.alloc, count))),
            "zeros" => done(self.put(zeros(self.alloc, act.word(0) as usize))),
            "ports" => done(self.add_ports(count)),
            "copies" => done(self.add_copies(count)),
            _ => Err(fmt::Error),
        }
    }
}

impl Discovery {
    fn take_bytes(&mut self, act: &Act<'_>, told: &mut Told) -> fmt::Result {
        let Ok(bytes) = hex::decode(self.alloc, act.rest) else {
            return write!(told, "OutOfMemory");
        };
        if act.verb == "fronts" {
            return tell_fronts(self.alloc, &bytes, told);
        }
        match read_sd(self.alloc, &bytes) {
            Ok(read) => self.keep(read, told),
            Err(fault) => write!(told, "{fault:?}"),
        }
    }

    /// Keeps the good entries, and writes down what was read; or all stays as it was.
    fn keep(&mut self, read: SdRead, told: &mut Told) -> fmt::Result {
        let Ok(mut entries) = Vec::with_capacity(self.alloc, read.entries.len()) else {
            return write!(told, "OutOfMemory");
        };
        write!(told, "{:02x}", read.flags.byte())?;
        for entry in read.entries {
            match entry {
                ReadEntry::Good(entry) => {
                    write!(told, " {}", kind_of(&entry.head))?;
                    let _ = entries.push(entry);
                }
                ReadEntry::BadRun(_) => write!(told, " bad run")?,
            }
        }
        self.entries = entries;
        Ok(())
    }

    /// Writes the entries behind a byte, if a message has room for so many.
    fn pack(&mut self, flags: u8) -> Result<(), SdError> {
        self.out.clear();
        self.out.push(0xee)?;
        if self.entries.len() > 65535 {
            return Ok(());
        }
        let message = SdMessage {
            flags: SdFlags::from_byte(flags),
            entries: &self.entries,
        };
        write_sd(&message, &mut self.out)
    }

    fn write(&mut self, flags: u8, told: &mut Told) -> fmt::Result {
        let packed = self.pack(flags);
        match (packed, self.out.as_slice()) {
            (Ok(()), [0xee, bytes @ ..]) => tell_bytes(told, bytes),
            (Err(fault), [0xee] | []) => write!(told, "{fault:?}"),
            _ => Err(fmt::Error),
        }
    }

    fn tell_byte(&mut self, place: usize, told: &mut Told) -> fmt::Result {
        match (self.pack(0xc0), self.out.get(place.saturating_add(1))) {
            (Ok(()), Some(byte)) => write!(told, "{byte:02x}"),
            _ => Err(fmt::Error),
        }
    }

    fn tell_last(&self, verb: &str, told: &mut Told) -> fmt::Result {
        match (self.entries.last(), verb) {
            (Some(entry), "options") => write!(told, "{:?} {:?}", entry.run1, entry.run2),
            (Some(entry), _) => match entry.udp_endpoint() {
                Some(endpoint) => write!(told, "{endpoint}"),
                None => write!(told, "none"),
            },
            (None, _) => Err(fmt::Error),
        }
    }

    /// Adds an Offer with so many numbered options.
    fn add(&mut self, first: u16, count: u16) -> Option<()> {
        self.entries.push(bare(self.alloc)?).ok()?;
        for number in 0..count {
            self.put(numbered(self.alloc, first.checked_add(number)?))?;
        }
        Some(())
    }

    /// Puts an option into the first run of the last entry.
    fn put(&mut self, option: Option<SdOption>) -> Option<()> {
        self.entries.last_mut()?.run1.push(option?).ok()
    }

    fn add_ports(&mut self, count: u16) -> Option<()> {
        for port in 0..count {
            self.entries.push(bare(self.alloc)?).ok()?;
            self.put(Some(SdOption::Endpoint4(Ipv4Endpoint {
                socket: SocketAddrV4::new(Ipv4Addr::new(192, 168, 0, 1), port),
                protocol: Protocol::UDP,
            })))?;
        }
        Some(())
    }

    fn add_copies(&mut self, count: u16) -> Option<()> {
        for _ in 0..count {
            let copy = copied(self.alloc, self.entries.last()?)?;
            self.entries.push(copy).ok()?;
        }
        Some(())
    }
}

/// What an entry is.
fn kind_of(head: &EntryHead) -> &'static str {
    match head {
        EntryHead::Service(entry) if entry.is_find() => "find",
        EntryHead::Service(entry) if entry.is_offer() => "offer",
        EntryHead::Service(entry) if entry.is_stop_offer() => "stop-offer",
        EntryHead::Eventgroup(entry) if entry.is_subscribe() => "subscribe",
        EntryHead::Eventgroup(entry) if entry.is_stop_subscribe() => "stop-subscribe",
        EntryHead::Eventgroup(entry) if entry.is_ack() => "ack",
        EntryHead::Eventgroup(entry) if entry.is_nack() => "nack",
        _ => "nothing",
    }
}

fn tell_fronts(alloc: Global, bytes: &[u8], told: &mut Told) -> fmt::Result {
    let mut count = 0;
    for len in 0..bytes.len() {
        let front = bytes.get(..len).unwrap_or(bytes);
        match read_sd(alloc, front) {
            Err(SdError::Truncated(place)) if place == len => count = len,
            _ => return write!(told, "{len}"),
        }
    }
    write!(told, "all to {count}")
}

fn tell_ttl(told: &mut Told, seconds: u32) -> fmt::Result {
    match Ttl::new(seconds) {
        Some(ttl) => write!(told, "{} {}", ttl.seconds(), ttl.is_until_reboot()),
        None => write!(told, "none"),
    }
}

/// The number of the counter with this number.
fn counter(number: u8) -> Option<u8> {
    Some(SubscriptionCounter::new(number)?.number())
}

/// An act that adds something.
fn done(added: Option<()>) -> fmt::Result {
    added.ok_or(fmt::Error)
}

/// An Offer of 1111.0001 without options, for 3 seconds.
fn bare(alloc: Global) -> Option<Entry> {
    Some(Entry {
        head: EntryHead::Service(ServiceEntry {
            kind: ServiceKind::Offer,
            service: 0x1111,
            instance: 1,
            major: 1,
            ttl: Ttl::new(3)?,
            minor: 0,
        }),
        run1: Vec::new(alloc),
        run2: Vec::new(alloc),
    })
}

/// The same entry with the options of its first run.
fn copied(alloc: Global, entry: &Entry) -> Option<Entry> {
    let mut copy = Entry {
        head: entry.head,
        run1: Vec::new(alloc),
        run2: Vec::new(alloc),
    };
    for option in &entry.run1 {
        copy.run1.push(option.clone().ok()?).ok()?;
    }
    Some(copy)
}

/// An option of type 77 whose bytes are a number.
fn numbered(alloc: Global, number: u16) -> Option<SdOption> {
    let bytes = Vec::from_slice(alloc, &number.to_be_bytes()).ok()?;
    let option = RawOption::new(0x77, Rc::new(alloc, bytes).ok()?)?;
    Some(SdOption::Raw(option))
}

/// An option of so many zero bytes, if there is one.
fn raw(alloc: Global, kind: u8, len: usize) -> Option<RawOption> {
    let bytes = vec![in alloc; 0u8; len].ok()?;
    RawOption::new(kind, Rc::new(alloc, bytes).ok()?)
}

fn zeros(alloc: Global, len: usize) -> Option<SdOption> {
    Some(SdOption::Raw(raw(alloc, 1, len)?))
}

#[test]
fn messages(rt: HostRuntime) {
    let tables = [
        WORKED, KINDS, OPTIONS, SHARED, EMPTY_RUNS, RESERVED, BAD_RUNS, REACHED,
    ];
    try_tables::<Discovery>(&rt, &tables);
}

#[test]
fn faults_runs_and_fronts(rt: HostRuntime) {
    let tables = [
        FAULTY,
        TWICE_FAULTY,
        FIELDS,
        RAW,
        RUNS,
        INDICES,
        LONGEST,
        UNFIT,
    ];
    try_tables::<Discovery>(&rt, &tables);
}
