//! The bytes of a payload that are known: beside each byte stands whether it is.
ghost use Rattle.std.specs.Prelude.{◌≡◌, ◌≤◌, ◌<◌, ◌+◌, length, drop, OnOk, OnErr};
ghost use Rattle.recording_packets.specs.fragments.Cells.{has_another, with_bytes, grown};
ghost use Rattle.recording_packets.specs.fragments.Views.{cells_of, count_known};

use std::alloc::AllocError;

/// Whether a known byte differs from one of these, which stand from a place on.
pub(crate) fn differ_at(known: &[bool], bytes: &[u8], offset: usize, new: &[u8]) -> bool
    requires long { length known.now ≤ length bytes.now }
    requires place { offset ≤ 65535 }
    ensures { result ≡ has_another new.now (drop offset (cells_of known.now bytes.now)) }
{
    for (i, byte) in new.iter().enumerate() {
        let place = offset + i;
        if place >= known.len() {
            return false;
        }
        if known[place] && bytes[place] != *byte {
            return true;
        }
    }
    false
}

/// Makes room for so many bytes, of which the new ones are not known.
pub(crate) fn grow(known: &mut Vec<bool>, bytes: &mut Vec<u8>, len: usize) -> Result<(), AllocError>
    requires long { length known.old.items ≤ length bytes.old.items }
    ensures long { length known.new.items ≤ length bytes.new.items }
    ensures count { count_known known.new.items ≡ count_known known.old.items }
    ensures room { OnOk result (len ≤ length known.new.items) }
    ensures ok { OnOk result (cells_of known.new.items bytes.new.items
        ≡ grown len (cells_of known.old.items bytes.old.items)) }
    ensures err { OnErr result (cells_of known.new.items bytes.new.items
        ≡ cells_of known.old.items bytes.old.items) }
{
    let cells = len.max(known.len());
    bytes.resize(cells.max(bytes.len()), 0)?;
    known.resize(cells, false)?;
    Ok(())
}

/// Writes bytes from a place on, and tells how many of them were not known.
pub(crate) fn put(known: &mut [bool], bytes: &mut [u8], offset: usize, new: &[u8]) -> usize
    requires long { length known.old ≤ length bytes.old }
    requires within { offset + length new.now ≤ length known.old }
    ensures known_len { length known.new ≡ length known.old }
    ensures bytes_len { length bytes.new ≡ length bytes.old }
    ensures count { count_known known.new ≡ count_known known.old + result }
    ensures cells { cells_of known.new bytes.new
        ≡ with_bytes offset new.now (cells_of known.old bytes.old) }
{
    let mut added = 0;
    for (i, byte) in new.iter().enumerate() {
        let place = offset + i;
        if !known[place] {
            added += 1;
        }
        known[place] = true;
        bytes[place] = *byte;
    }
    added
}
