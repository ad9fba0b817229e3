//! The bytes of entries.
ghost use Rattle.std.specs.Prelude.{◌≡◌, ◌<◌, ◌≤◌, ◌^◌, ◌+◌, ◌*◌, ◌++◌, ◌∷◌, length, take, drop};
ghost use Rattle.sd_wire.specs.layout.Spelling.{RunsFit, entry_bytes, ServiceFits, EventgroupFits, HeadFits};
ghost use Rattle.sd_wire.specs.declared.entry.EntryHead.TheVariants.{Service, Eventgroup};
ghost use Rattle.sd_wire.specs.layout.Fields.{number16, number24};
ghost use Rattle.sd_wire.specs.encoding.Written.{view_runs};

use crate::entry::{EntryHead, EventgroupEntry, ServiceEntry};
use crate::ttl::Ttl;
use byteorder::{BigEndian, ByteOrder};

/// Where the two runs of an entry begin among the options, and how many options they have.
#[derive(Clone, Copy)]
pub(crate) struct RunFields {
    pub(crate) index1: u8,
    pub(crate) index2: u8,
    pub(crate) count1: u8,
    pub(crate) count2: u8,
}

/// Writes the type and the runs to the first four bytes.
fn write_runs(text: &mut [u8], kind: u8, runs: RunFields)
    requires room { 16 ≤ length text.old }
    requires fits { RunsFit (view_runs runs) }
    ensures { text.new ≡ kind ∷ runs.index1 ∷ runs.index2 ∷ (16 * runs.count1 + runs.count2)
        ∷ drop 4 text.old }
{
    text[0] = kind;
    text[1] = runs.index1;
    text[2] = runs.index2;
    text[3] = 16 * runs.count1 + runs.count2;
}

/// Writes Service ID, Instance ID, major version and TTL to the next eight bytes.
fn write_ids(text: &mut [u8], service: u16, instance: u16, major: u8, ttl: Ttl)
    requires { 16 ≤ length text.old }
    ensures text { text.new ≡ take 4 text.old
        ++ (number16 service ++ number16 instance ++ major ∷ number24 ttl) ++ drop 12 text.old }
    ensures service { service < 2 ^ 16 }
    ensures instance { instance < 2 ^ 16 }
    ensures major { major < 2 ^ 8 }
    ensures ttl { ttl < 2 ^ 24 }
{
    BigEndian::write_u16(&mut text[4..], service);
    BigEndian::write_u16(&mut text[6..], instance);
    text[8] = major;
    BigEndian::write_u24(&mut text[9..], ttl.seconds());
}

/// The bytes of a service entry.
fn service_text(entry: &ServiceEntry, runs: RunFields) -> [u8; 16]
    requires { RunsFit (view_runs runs) }
    ensures text { result ≡ entry_bytes 0 (view_runs runs) (Service entry.now) }
    ensures fits { ServiceFits entry.now }
{
    let mut text = [0; 16];
    write_runs(&mut text, entry.kind as u8, runs);
    write_ids(
        &mut text,
        entry.service,
        entry.instance,
        entry.major,
        entry.ttl,
    );
    let minor = entry.minor;
    BigEndian::write_u32(&mut text[12..], minor);
    text
}

/// The bytes of an eventgroup entry.
fn eventgroup_text(entry: &EventgroupEntry, runs: RunFields) -> [u8; 16]
    requires { RunsFit (view_runs runs) }
    ensures text { result ≡ entry_bytes 0 (view_runs runs) (Eventgroup entry.now) }
    ensures fits { EventgroupFits entry.now }
{
    let mut text = [0; 16];
    write_runs(&mut text, entry.kind as u8, runs);
    write_ids(
        &mut text,
        entry.service,
        entry.instance,
        entry.major,
        entry.ttl,
    );
    BigEndian::write_u16(&mut text[12..], u16::from(entry.counter.number()));
    let eventgroup = entry.eventgroup;
    BigEndian::write_u16(&mut text[14..], eventgroup);
    text
}

/// The bytes of an entry.
pub(crate) fn entry_text(head: &EntryHead, runs: RunFields) -> [u8; 16]
    requires { RunsFit (view_runs runs) }
    ensures text { result ≡ entry_bytes 0 (view_runs runs) head.now }
    ensures fits { HeadFits head.now }
{
    match head {
        EntryHead::Service(entry) => service_text(entry, runs),
        EntryHead::Eventgroup(entry) => eventgroup_text(entry, runs),
    }
}
