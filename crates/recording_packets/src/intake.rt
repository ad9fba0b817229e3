//! The datagrams that the packets of recordings give.
ghost use Rattle.std.specs.Prelude.{◌≡◌, ◌<◌, ◌^◌, true, [], IfOk, OnErr, OnOk, is_some};
ghost use Rattle.std.specs.Prelude.{option_map};
ghost use Rattle.recording.specs.View.{view_carried, view_ipv4, view_record};
ghost use Rattle.recording_packets.specs.Intake.{after_packet, arrived, carried_whole, clock_after};
ghost use Rattle.recording_packets.specs.Intake.{is_kept, is_known, left_out_at, nanoseconds_of};
ghost use Rattle.recording_packets.specs.Intake.{nothing_taken, remembering, taken_packet};
ghost use Rattle.recording_packets.specs.Intake.{taken_with, wants_memory};
ghost use Rattle.recording_packets.specs.LeftOut.{total};
ghost use Rattle.recording_packets.specs.View.{arrival_of, packet_under, view_arrival, view_chosen};
ghost use Rattle.recording_packets.specs.fragments.Parts.{held_under};
ghost use Rattle.recording_packets.specs.fragments.Stores.{all_fragments, offered};

use crate::chosen::ChosenPackets;
use crate::copies::Copies;
use crate::fragments::{Fragments, HeldFragments, PacketKey};
use crate::left_out::LeftOut;
use recording::{Carried, Datagram, Ipv4Packet, Record, Time};
use std::alloc::{AllocError, Global};
use std::marker::Model;

/// A datagram, and the number of the packet that gave it.
#[derive(Clone, Copy, Debug, PartialEq, Eq)]
pub struct Arrival<'a> {
    /// The number of the packet among all packets, looked at or not, from 1: as tools that open a
    /// recording count them. Of fragments it is that of the one that made their packet whole.
    pub frame: usize,
    /// The datagram.
    pub datagram: Datagram<'a>,
}

/// What a packet gave.
#[derive(Clone, Copy, Debug, PartialEq, Eq)]
pub enum Taken<'a> {
    /// No datagram.
    Nothing,
    /// Its own datagram.
    Datagram(Arrival<'a>),
    /// The datagram that the fragments make with it: [`Intake::whole`] has it.
    Whole,
}

/// What is known of the last fragment beside its bytes.
#[derive(Clone, Copy)]
pub(crate) struct Header {
    pub(crate) frame: usize,
    pub(crate) time: Option<Time>,
    pub(crate) source: [u8; 4],
    pub(crate) destination: [u8; 4],
    pub(crate) identification: u16,
    pub(crate) protocol: u8,
}

/// Takes the packets of recordings, one after the other, and tells the datagrams that they give.
#[derive(Drop)]
pub struct Intake {
    frames: usize,
    clock: u64,
    copies: Option<Copies>,
    fragments: Fragments,
    last: Option<Header>,
    skipped: LeftOut,
}

impl Model for Intake {
    ghost use Rattle.std.specs.Prelude.{◌≤◌, ◌<◌, ◌^◌};
    ghost use Rattle.recording_packets.specs.Intake.{IntakeValue};
    ghost use Rattle.recording_packets.specs.Codes.{coded_intake};
    ghost use Rattle.recording_packets.specs.LeftOut.{total};
    ghost use Rattle.recording_packets.specs.View.{whole_of};
    ghost use Rattle.recording_packets.specs.fragments.Stores.{all_fragments};

    ghost Value = { IntakeValue };

    ghost coded = { coded_intake };

    ghost view = { λ s. record {
      frames = s.frames;
      clock = s.clock;
      copies = s.copies;
      fragments = s.fragments;
      whole = whole_of s.last s.fragments.whole;
      skipped = s.skipped;
    } };

    ghost invariant = { λ s. (total s.skipped ≤ s.frames) × (all_fragments s.fragments ≤ s.frames)
        × (s.frames < 2 ^ 64) };
}

impl Intake {
    /// Before the first packet. Where a window is chosen copies are left out.
    pub fn new(alloc: Global, chosen: &ChosenPackets<'_>) -> Intake
        ensures { result ≡ nothing_taken (view_chosen chosen.now) }
    {
        Intake {
            frames: 0,
            clock: 0,
            copies: copies_within(alloc, chosen.window_ns),
            fragments: Fragments::new(alloc),
            last: None,
            skipped: LeftOut::new(),
        }
    }

    /// Takes the next packet, and tells the datagram that it gives, if it gives one.
    ///
    /// Copies are told within the window that [`Intake::new`] took. The error is out of memory, or
    /// that 2^64 packets came, of which no recording has so many; after it nothing is promised.
    pub fn take<'a>(
        &mut self,
        chosen: &ChosenPackets<'_>,
        found: &Record<'a>,
    ) -> Result<Taken<'a>, AllocError>
        ensures arrived { IfOk result (λ taken. arrival_of taken self.new
            ≡ arrived (view_chosen chosen.now) self.old (view_record found.now)) }
        ensures after { OnOk result (self.new
            ≡ after_packet (view_chosen chosen.now) self.old (view_record found.now)) }
        ensures bounded { OnOk result (self.new.frames < 2 ^ 64) }
        ensures err { OnErr result
            (wants_memory (view_chosen chosen.now) self.old (view_record found.now) ≡ true) }
    {
        self.frames = self.frames.checked_add(1).ok_or(AllocError)?;
        if !chosen.chooses(found) {
            return Ok(Taken::Nothing);
        }
        self.clock = clock_after(self.clock, found.time);
        match found.ipv4() {
            Ok(packet) => self.take_packet(found.time, &packet),
            Err(skipped) => {
                self.skipped.add(skipped);
                Ok(Taken::Nothing)
            }
        }
    }

    /// Takes an IPv4 packet that is looked at, recorded at this time.
    fn take_packet<'a>(
        &mut self,
        time: Option<Time>,
        packet: &Ipv4Packet<'a>,
    ) -> Result<Taken<'a>, AllocError>
        requires countable { total self.old.skipped < self.old.frames }
        requires offerable { all_fragments self.old.fragments < self.old.frames }
        ensures arrived { IfOk result (λ taken. arrival_of taken self.new
            ≡ (taken_packet time (view_ipv4 packet.now) self.old).arrival) }
        ensures after { OnOk result (self.new
            ≡ (taken_packet time (view_ipv4 packet.now) self.old).after) }
        ensures err { OnErr result (is_kept self.old.copies (view_ipv4 packet.now) ≡ true) }
    {
        if is_known(&mut self.copies, self.clock, packet)? {
            self.skipped.copies += 1;
            return Ok(Taken::Nothing);
        }
        match packet.carried(time) {
            Carried::Fragment => self.take_fragment(time, packet),
            Carried::Datagram(datagram) => Ok(Taken::Datagram(Arrival {
                frame: self.frames,
                datagram,
            })),
            Carried::Nothing(skipped) => {
                self.skipped.add(skipped);
                Ok(Taken::Nothing)
            }
        }
    }

    /// Takes a fragment, and tells whether it made a datagram whole.
    fn take_fragment<'a>(
        &mut self,
        time: Option<Time>,
        packet: &Ipv4Packet<'a>,
    ) -> Result<Taken<'a>, AllocError>
        requires countable { total self.old.skipped < self.old.frames }
        requires offerable { all_fragments self.old.fragments < self.old.frames }
        ensures arrived { IfOk result (λ taken. arrival_of taken self.new
            ≡ (taken_with time (view_ipv4 packet.now)
            (offered self.old.clock (view_ipv4 packet.now) self.old.fragments) self.old).arrival) }
        ensures after { OnOk result (self.new
            ≡ (taken_with time (view_ipv4 packet.now)
            (offered self.old.clock (view_ipv4 packet.now) self.old.fragments) self.old).after) }
    {
        let is_whole = self.fragments.offer(self.clock, packet)?;
        let header = Header {
            frame: self.frames,
            time,
            source: packet.source,
            destination: packet.destination,
            identification: packet.identification,
            protocol: packet.protocol,
        };
        self.last = Some(header);
        if !is_whole {
            return Ok(Taken::Nothing);
        }
        match carried_whole(&header, &self.fragments) {
            Carried::Datagram(_) => Ok(Taken::Whole),
            Carried::Fragment => Ok(Taken::Nothing),
            Carried::Nothing(skipped) => {
                self.skipped.add(skipped);
                Ok(Taken::Nothing)
            }
        }
    }

    /// The datagram of the packet that was taken last, if it gave one.
    pub fn arrival<'a>(&'a self, taken: Taken<'a>) -> Option<Arrival<'a>>
        ensures { option_map view_arrival result ≡ arrival_of taken.entry self.now }
    {
        match taken {
            Taken::Nothing => None,
            Taken::Datagram(arrival) => Some(arrival),
            Taken::Whole => self.whole(),
        }
    }

    /// The datagram that the last fragment made whole, if it made one. After [`Taken::Whole`] it
    /// did.
    pub fn whole(&self) -> Option<Arrival<'_>>
        ensures { option_map view_arrival result ≡ self.now.whole }
    {
        let header = self.last?;
        match carried_whole(&header, &self.fragments) {
            Carried::Datagram(datagram) => Some(Arrival {
                frame: header.frame,
                datagram,
            }),
            Carried::Fragment | Carried::Nothing(_) => None,
        }
    }

    /// The fragments that are held of the packet with a key, if any are.
    pub fn held(&self, key: &PacketKey) -> Option<HeldFragments>
        ensures { result ≡ held_under key.now self.now.fragments.parts }
    {
        self.fragments.held(key)
    }

    /// How many packets came.
    pub fn frames(&self) -> usize
        ensures { result ≡ self.now.frames }
    {
        self.frames
    }

    /// What is left out so far, by kind. Fragments that are held count as those without the rest.
    pub fn left_out(&self) -> LeftOut
        ensures { result ≡ left_out_at self.now }
    {
        let given_up = self.fragments.given_up();
        LeftOut {
            fragments_without_rest: given_up.without_rest as usize,
            fragments_that_differ: given_up.that_differ as usize,
            ..self.skipped
        }
    }
}

/// What tells copies within a window, where there is one.
fn copies_within(alloc: Global, window_ns: Option<u64>) -> Option<Copies>
    ensures { result ≡ option_map (λ window. record { window = window; remembered = [] }) window_ns }
{
    match window_ns {
        Some(window_ns) => Some(Copies::new(alloc, window_ns)),
        None => None,
    }
}

/// The clock after a packet of this time, in nanoseconds since 1970.
fn clock_after(clock: u64, time: Option<Time>) -> u64
    ensures { result ≡ clock_after clock time }
{
    match time {
        Some(time) => clock.max(nanoseconds_of(time)),
        None => clock,
    }
}

/// The nanoseconds since 1970, at most 2^64 - 1.
fn nanoseconds_of(time: Time) -> u64
    ensures { result ≡ nanoseconds_of time }
{
    let seconds = time.seconds.saturating_mul(1_000_000_000);
    seconds.saturating_add(u64::from(time.nanoseconds))
}

/// Whether a packet is a copy of one that is remembered, and remembers it, where copies are left out.
fn is_known(
    copies: &mut Option<Copies>,
    now: u64,
    packet: &Ipv4Packet<'_>,
) -> Result<bool, AllocError>
    ensures known { IfOk result (λ known. known ≡ is_known now (view_ipv4 packet.now) copies.old) }
    ensures after { OnOk result (copies.new ≡ remembering now (view_ipv4 packet.now) copies.old) }
    ensures err { OnErr result (is_some copies.old ≡ true) }
{
    match copies {
        Some(copies) => copies.sees(now, packet),
        None => Ok(false),
    }
}

/// What the packet carries of which this is the last fragment, once its payload is whole.
fn carried_whole<'a>(header: &Header, fragments: &'a Fragments) -> Carried<'a>
    ensures { view_carried result
        ≡ carried_whole header.now.time (packet_under header.now) fragments.now.whole }
{
    match fragments.whole() {
        Some(payload) => Ipv4Packet {
            source: header.source,
            destination: header.destination,
            identification: header.identification,
            fragment: 0,
            protocol: header.protocol,
            payload,
        }
        .carried(header.time),
        None => Carried::Fragment,
    }
}
