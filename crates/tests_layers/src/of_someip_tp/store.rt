//! Rows of both bodies of reassembly: `make SLOTS LIMIT`, with a timeout of a second; `more` and `last KEY OFFSET SLICE`,
//! a segment that is not the last one, or is; `payload LENGTH`, then `cut KEY FROM END MORE CHANGED`, a segment out of it,
//! whose last byte may be another one; `mixed SIZE STEP`, all its segments of so many bytes, each so many
//! behind the one before, by the last answer; `take KEY`, `expire`, `clear`. `bytes SLICE` and `front LENGTH` say whether
//! these bytes, or so many of the payload, were taken. A key is told by its Session ID, but that 2 may be `other FIELD`.
ghost use Rattle.someip_reassembly.specs.Parts.{NoneAfter};

use super::rows::{
    ANOTHER_ORDER, CHANGED, KEYS, LONGEST, ONE_SLOT, OVERLAPS, REFUSALS, SEVEN, TIMES, TOTALS,
    TWO_SEGMENTS,
};
use super::slices::slice;
use super::{HEADER, payload_of};
use crate::acts::{Act, Subject, Told, tell};
use crate::judging::try_tables;
use someip_tp::{IntervalPool, Offered, Reassembly, ReassemblyKey, SegmentList, TpError};
use someip_wire::{MessageType, ReturnCode};
use std::alloc::{AllocError, Global};
use std::fmt;
use std::fmt::Write;
use std::net::{Ipv4Addr, SocketAddrV4};

/// A store that was made, and the moment that it is told.
#[derive(Drop)]
struct Kept<R: Reassembly> {
    store: R,
    now: u64,
    ghost timely: { NoneAfter now (R.parts store) },
}

impl<R: Reassembly> Kept<R> {
    fn make(alloc: Global, slots: usize, limit: usize) -> Result<Kept<R>, TpError> {
        let store = R::make(alloc, slots, limit, 1000)?;
        Ok(Kept { store, now: 0 })
    }

    fn offer(
        &mut self,
        key: ReassemblyKey,
        offset: u32,
        more: bool,
        bytes: &[u8],
    ) -> Option<Result<Offered, TpError>> {
        if offset % 16 != 0 {
            return None;
        }
        Some(self.store.offer(key, offset, more, bytes, self.now))
    }

    fn pass(&mut self, at: u64) {
        self.now = self.now.max(at);
    }

    fn take(&mut self, key: &ReassemblyKey, bytes: &mut Vec<u8>) -> Result<bool, TpError> {
        self.store.take(key, bytes)
    }

    fn expire(&mut self) {
        self.store.expire(self.now);
    }

    fn clear(&mut self) {
        self.store.clear();
    }
}

/// A store, once it is made, the second key, a payload, and the bytes that were taken.
#[derive(Drop)]
struct Store<R: Reassembly> {
    alloc: Global,
    kept: Option<Kept<R>>,
    second: ReassemblyKey,
    payload: Vec<u8>,
    bytes: Vec<u8>,
}

impl<R: Reassembly> Subject for Store<R> {
    fn make(alloc: Global) -> Result<Store<R>, AllocError> {
        Ok(Store {
            alloc,
            kept: None,
            second: key(2),
            payload: Vec::new(alloc),
            bytes: Vec::new(alloc),
        })
    }

    fn perform(&mut self, act: &Act<'_>, told: &mut Told) -> fmt::Result {
        if let Some(kept) = &mut self.kept {
            kept.pass(act.at);
        }
        match act.verb {
            "make" => self.make_anew(act, told),
            "other" => {
                self.second = other(act.rest);
                Ok(())
            }
            "payload" => match payload_of(self.alloc, act.word(0)) {
                Ok(payload) => {
                    self.payload = payload;
                    Ok(())
                }
                Err(refusal) => write!(told, "{refusal:?}"),
            },
            "more" | "last" | "cut" => self.offer(act, told),
            "mixed" => self.offer_mixed(act.long(0), act.long(1), told),
            "take" => self.take(act, told),
            "bytes" => write!(told, "{}", self.bytes.as_slice() == slice(act.rest)),
            "front" => {
                let front = self.payload.get(..act.word(0) as usize);
                write!(told, "{}", front == Some(self.bytes.as_slice()))
            }
            _ => self.end(act.verb),
        }
    }
}

impl<R: Reassembly> Store<R> {
    /// The key of a number.
    fn key(&self, number: u16) -> ReassemblyKey {
        if number == 2 {
            self.second
        } else {
            key(number)
        }
    }

    fn make_anew(&mut self, act: &Act<'_>, told: &mut Told) -> fmt::Result {
        match Kept::make(self.alloc, usize::from(act.byte(0)), act.word(1) as usize) {
            Ok(kept) => {
                self.kept = Some(kept);
                self.second = key(2);
                self.bytes.clear();
                Ok(())
            }
            Err(refusal) => write!(told, "{refusal:?}"),
        }
    }

    /// Offers a segment whose bytes stand in the payload, or in a table of slices.
    fn offer(&mut self, act: &Act<'_>, told: &mut Told) -> fmt::Result {
        let key = self.key(act.short(0));
        let (is_cut, offset) = (act.verb == "cut", act.word(1));
        let (from, end) = (act.word(1) as usize, act.word(2) as usize);
        if is_cut && act.is(4) {
            self.flip(end);
        }
        let offered = match (&mut self.kept, self.payload.get(from..end)) {
            (Some(kept), Some(bytes)) if is_cut => kept.offer(key, offset, more_of(act), bytes),
            (Some(kept), _) => kept.offer(key, offset, more_of(act), slice_of(act)),
            (None, _) => None,
        };
        if is_cut && act.is(4) {
            self.flip(end);
        }
        tell_offered(told, &offered)
    }

    /// Changes the byte of the payload before a place, or changes it back.
    fn flip(&mut self, end: usize) {
        if let Some(byte) = self.payload.get_mut(end.saturating_sub(1)) {
            *byte ^= 0xff;
        }
    }

    fn offer_mixed(&mut self, size: u64, step: u64, told: &mut Told) -> fmt::Result {
        let len = self.payload.len() as u64;
        let count = len.div_ceil(size.max(1)).max(1);
        let mut last = None;
        for number in 0..count {
            let from = (number.saturating_mul(step) % count).saturating_mul(size);
            let end = from.saturating_add(size).min(len);
            let bytes = self.payload.get(from as usize..end as usize);
            let offset = u32::try_from(from).unwrap_or(0);
            last = match (&mut self.kept, bytes) {
                (Some(kept), Some(bytes)) => kept.offer(key(1), offset, end < len, bytes),
                _ => None,
            };
        }
        tell_offered(told, &last)
    }

    fn take(&mut self, act: &Act<'_>, told: &mut Told) -> fmt::Result {
        let key = self.key(act.short(0));
        match &mut self.kept {
            Some(kept) => tell(told, &kept.take(&key, &mut self.bytes)),
            None => Err(fmt::Error),
        }
    }

    /// An act that answers nothing.
    fn end(&mut self, verb: &str) -> fmt::Result {
        match (verb, &mut self.kept) {
            ("expire", Some(kept)) => kept.expire(),
            ("clear", Some(kept)) => kept.clear(),
            _ => return Err(fmt::Error),
        }
        Ok(())
    }
}

/// Whether More Segments is set.
fn more_of(act: &Act<'_>) -> bool {
    act.verb == "more" || act.is(3)
}

fn tell_offered(told: &mut Told, offered: &Option<Result<Offered, TpError>>) -> fmt::Result {
    match offered {
        Some(offered) => tell(told, offered),
        None => Err(fmt::Error),
    }
}

/// The bytes that an act names third.
fn slice_of(act: &Act<'_>) -> &'static [u8] {
    slice(act.rest.split_whitespace().nth(2).unwrap_or(""))
}

/// The key of the segments of a response with this Session ID.
pub(super) fn key(session: u16) -> ReassemblyKey {
    let mut header = HEADER;
    header.kind = MessageType::TpResponse;
    header.session = session;
    ReassemblyKey::new(endpoint(1, 30509), endpoint(2, 40000), &header)
}

/// A port of 192.168.0.x.
fn endpoint(last: u8, port: u16) -> SocketAddrV4 {
    SocketAddrV4::new(Ipv4Addr::new(192, 168, 0, last), port)
}

/// The first key, but for a field.
fn other(field: &str) -> ReassemblyKey {
    let mut other = key(1);
    match field {
        "source-address" => other.source = endpoint(9, 30509),
        "source-port" => other.source = endpoint(1, 30510),
        "destination-address" => other.destination = endpoint(9, 40000),
        "destination-port" => other.destination = endpoint(2, 40001),
        "service" => other.service = 0x1235,
        "method" => other.method = 0x0422,
        "client" => other.client = 2,
        "session" => other.session = 2,
        "interface" => other.interface = 2,
        "kind" => other.kind = MessageType::TpError,
        "code" => other.code = ReturnCode::E_NOT_OK,
        _ => {}
    }
    other
}

/// The tables whose growths of memory are refused.
const TABLES: &[&str] = &[
    TOTALS,
    OVERLAPS,
    REFUSALS,
    TIMES,
    KEYS,
    ANOTHER_ORDER,
    CHANGED,
    ONE_SLOT,
    TWO_SEGMENTS,
    SEVEN,
];

#[test]
fn segment_lists(rt: HostRuntime) {
    try_tables::<Store<SegmentList>>(&rt, TABLES);
}

#[test]
fn interval_pools(rt: HostRuntime) {
    try_tables::<Store<IntervalPool>>(&rt, TABLES);
}

#[test]
fn longest_messages(rt: HostRuntime) {
    try_tables::<Store<SegmentList>>(&rt, &[LONGEST]);
    try_tables::<Store<IntervalPool>>(&rt, &[LONGEST]);
}
