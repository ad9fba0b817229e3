//! The packets with the fragments that are held of IPv4 packets.
ghost use Rattle.std.specs.Prelude.{◌≡◌, ◌≤◌, ◌+◌, [], IfOk, OnOk, length, option_map};
ghost use Rattle.recording.specs.View.{view_record};
ghost use Rattle.recording_packets.specs.fragments.Parts.{held_under};
ghost use Rattle.recording_packets.specs.fragments.Pieces.{same_key};
ghost use Rattle.someipctl_extract.specs.Kept.{begun, cleaned, cost_of, fragment_key, is_same, joined, kept_by};
ghost use Rattle.someipctl_extract.specs.Kept.{packets_under, place_of, put, without};

use recording::{Record, Time};
use recording_packets::Intake;
use recording_packets::fragments::{HeldFragments, PacketKey};
use std::alloc::{AllocError, Global};
use std::marker::Model;

/// The most that is kept of an IPv4 packet.
const LIMIT: usize = 524_288;

/// What a packet counts beside its bytes.
const PACKET_COST: usize = 128;

/// How many IPv4 packets are kept before those go that are no longer held.
const MOST: usize = 128;

/// The number of UDP among the protocols that IPv4 carries.
const UDP: u8 = 17;

/// Of which IPv4 packet a packet has a fragment, if it has one of UDP.
pub(crate) fn fragment_key(found: &Record<'_>) -> Option<PacketKey>
    ensures { result ≡ fragment_key (view_record found.now) }
{
    match found.ipv4() {
        Ok(packet) if packet.protocol == UDP && packet.is_fragment() => {
            Some(PacketKey::new(&packet))
        }
        _ => None,
    }
}

/// A packet that is kept, with bytes of its own.
#[derive(Drop)]
pub(crate) struct KeptPacket {
    time: Option<Time>,
    interface: usize,
    link: u16,
    original: u32,
    bytes: Vec<u8>,
}

impl Model for KeptPacket {
    ghost use Rattle.recording.specs.Captured.{RecordValue};
    ghost use Rattle.someipctl_extract.specs.Codes.{coded_record};

    ghost Value = { RecordValue };

    ghost coded = { coded_record };

    ghost view = { λ k. record {
      time = k.time;
      interface = k.interface;
      link = k.link;
      original = k.original;
      bytes = k.bytes.items;
    } };
}

impl KeptPacket {
    fn new(alloc: Global, found: &Record<'_>) -> Result<KeptPacket, AllocError>
        ensures { IfOk result (λ kept. kept ≡ view_record found.now) }
    {
        Ok(KeptPacket {
            time: found.time,
            interface: found.interface,
            link: found.link,
            original: found.original,
            bytes: Vec::from_slice(alloc, found.bytes)?,
        })
    }

    /// The packet, as a reader gives it.
    pub(crate) fn record(&self) -> Record<'_>
        ensures { view_record result ≡ self.now }
    {
        Record {
            time: self.time,
            interface: self.interface,
            link: self.link,
            original: self.original,
            bytes: &self.bytes,
        }
    }
}

/// The packets with the fragments that are held of an IPv4 packet. None are kept where they are too many.
#[derive(Drop)]
struct KeptPart {
    key: PacketKey,
    packets: Vec<KeptPacket>,
    cost: usize,
    is_over: bool,
}

impl Model for KeptPart {
    ghost use Rattle.std.specs.Prelude.{◌≡◌, ◌≤◌, false, if◌then◌else◌, None, Some};
    ghost use Rattle.std.specs.List.{sum_by};
    ghost use Rattle.someipctl_extract.specs.Codes.{coded_part};
    ghost use Rattle.someipctl_extract.specs.Kept.{PartValue, cost_of};

    ghost Value = { PartValue };

    ghost coded = { coded_part };

    ghost view = { λ p. record { key = p.key; packets = if p.is_over then None else Some p.packets.items } };

    ghost invariant = { λ p. (p.cost ≤ 524288) × (p.is_over ≡ false → p.cost ≡ sum_by cost_of p.packets.items) };
}

impl KeptPart {
    /// None are kept yet.
    fn new(alloc: Global, key: PacketKey) -> KeptPart
        ensures { result ≡ begun key }
    {
        KeptPart {
            key,
            packets: Vec::new(alloc),
            cost: 0,
            is_over: false,
        }
    }

    fn is_for(&self, key: &PacketKey) -> bool
        ensures { result ≡ same_key key.now self.now.key }
    {
        key.is_same(&self.key)
    }

    /// The packets, unless they are too many.
    fn packets(&self) -> Option<&[KeptPacket]>
        ensures { option_map (λ packets. packets.now) result ≡ self.now.packets }
    {
        if self.is_over {
            None
        } else {
            Some(&self.packets)
        }
    }

    /// Keeps a packet more, unless they are too many then.
    fn join(&mut self, alloc: Global, found: &Record<'_>) -> Result<(), AllocError>
        ensures ok { OnOk result (self.new ≡ joined self.old (view_record found.now)) }
    {
        if self.is_over {
            return Ok(());
        }
        let cost = found.bytes.len() + PACKET_COST;
        if cost > LIMIT - self.cost {
            self.packets.clear();
            self.is_over = true;
            return Ok(());
        }
        self.packets.push(KeptPacket::new(alloc, found)?)?;
        self.cost += cost;
        Ok(())
    }
}

/// The packets with the fragments that are held, by the IPv4 packets that they are of.
#[derive(Drop)]
pub(crate) struct Kept {
    alloc: Global,
    parts: Vec<KeptPart>,
}

impl Model for Kept {
    ghost use Rattle.std.specs.Prelude.{List};
    ghost use Rattle.someipctl_extract.specs.Codes.{coded_parts};
    ghost use Rattle.someipctl_extract.specs.Kept.{PartValue};

    ghost Value = { List PartValue };

    ghost coded = { coded_parts };

    ghost view = { λ k. k.parts.items };
}

impl Kept {
    /// None are kept yet.
    pub(crate) fn new(alloc: Global) -> Kept
        ensures { result ≡ [] }
    {
        Kept {
            alloc,
            parts: Vec::new(alloc),
        }
    }

    /// The packets that are kept of an IPv4 packet, unless they are too many.
    pub(crate) fn packets(&self, key: &PacketKey) -> Option<&[KeptPacket]>
        ensures { option_map (λ packets. packets.now) result ≡ packets_under key.now self.now }
    {
        let place = place_of(&self.parts, key);
        if place == self.parts.len() {
            return Some(&[]);
        }
        self.parts[place].packets()
    }

    /// Keeps what is held after a packet with a fragment of this IPv4 packet, of which this was held before it.
    /// Out of memory leaves nothing promised.
    pub(crate) fn follow(
        &mut self,
        key: PacketKey,
        before: Option<HeldFragments>,
        intake: &Intake,
        found: &Record<'_>,
    ) -> Result<(), AllocError>
        ensures { OnOk result (self.new ≡ cleaned intake.now.fragments.parts
            (kept_by key before (held_under key intake.now.fragments.parts) (view_record found.now) self.old)) }
    {
        match intake.held(&key) {
            None => forget(&mut self.parts, &key),
            Some(held) => {
                if !is_same(before, held) {
                    keep(&mut self.parts, self.alloc, key, held.count == 1, found)?;
                }
            }
        }
        clean(&mut self.parts, intake);
        Ok(())
    }
}

/// Where the IPv4 packet with a key stands, or the number of all where it is not kept.
fn place_of(parts: &[KeptPart], key: &PacketKey) -> usize
    ensures value { result ≡ place_of key.now parts.now }
    ensures most { result ≤ length parts.now }
{
    let mut place = 0;
    while place < parts.len() {
        if parts[place].is_for(key) {
            return place;
        }
        place += 1;
    }
    place
}

/// Keeps no packets of an IPv4 packet any longer.
fn forget(parts: &mut Vec<KeptPart>, key: &PacketKey)
    ensures { parts.new.items ≡ without key.now parts.old.items }
{
    let place = place_of(parts, key);
    if place < parts.len() {
        parts.remove(place);
    }
}

/// Keeps a packet of an IPv4 packet: behind those that are kept, or alone where it is the first.
fn keep(
    parts: &mut Vec<KeptPart>,
    alloc: Global,
    key: PacketKey,
    is_first: bool,
    found: &Record<'_>,
) -> Result<(), AllocError>
    ensures { OnOk result (parts.new.items ≡ put key is_first (view_record found.now) parts.old.items) }
{
    let place = place_of(parts, &key);
    if place == parts.len() {
        parts.push(KeptPart::new(alloc, key))?;
    } else if is_first {
        parts[place] = KeptPart::new(alloc, key);
    }
    parts[place].join(alloc, found)
}

/// Where many are kept, keeps no longer what is no longer held.
fn clean(parts: &mut Vec<KeptPart>, intake: &Intake)
    ensures { parts.new.items ≡ cleaned intake.now.fragments.parts parts.old.items }
{
    if parts.len() > MOST {
        parts.retain(|part| intake.held(&part.key).is_some());
    }
}

/// Whether the same is held as before.
fn is_same(before: Option<HeldFragments>, held: HeldFragments) -> bool
    ensures { result ≡ is_same before held }
{
    match before {
        Some(before) => before.first == held.first && before.count == held.count,
        None => false,
    }
}
