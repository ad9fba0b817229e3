//! Datagrams of a recording over the books.
ghost use Rattle.std.specs.Prelude.{◌≡◌, ◌≤◌, ◌+◌, IfOk, OnErr, OnOk};
ghost use Rattle.someip_wire.specs.Reading.{items_of};
ghost use Rattle.someip_wire.specs.View.{view_item};
ghost use Rattle.someip_audit.specs.AnyShown.{item_count, item_len, item_shown, items_shown, message_count};
ghost use Rattle.someip_audit.specs.SdShown.{IsBegun, working};

use crate::books::Books;
use crate::discovery::tell;
use crate::finding::Finding;
use someip_reassembly::Reassembly;
use someip_tables::Moment;
use someip_tables::hashed::Origin;
use someip_wire::{Header, Message, Messages, WireError, written_len};
use std::alloc::{AllocError, Global};

impl<S: Reassembly> Books<S> {
    /// Takes note of a datagram, and appends what its messages show in order, and its fault where it has
    /// one. Says how many messages it has. `bytes` is room for the payload of a message in segments.
    /// Where memory runs out, what was appended is a beginning of what is to be told, and nothing else is
    /// promised.
    pub(crate) fn saw_datagram(
        &mut self,
        alloc: Global,
        now: Moment,
        origin: &Origin,
        datagram: &[u8],
        bytes: &mut Vec<u8>,
        findings: &mut Vec<Finding>,
    ) -> Result<usize, AllocError>
        ensures ok { OnOk result (working self.new findings.new.items ≡ items_shown now origin.now 0
            (items_of datagram.now) (working self.old findings.old.items)) }
        ensures count { IfOk result (λ count. count ≡ message_count (items_of datagram.now)) }
        ensures err { OnErr result (IsBegun findings.old.items findings.new.items
            (items_shown now origin.now 0 (items_of datagram.now) (working self.old findings.old.items)).told) }
    {
        let mut place = 0;
        let mut count = 0;
        for item in Messages::new(datagram) {
            self.saw_item(alloc, now, origin, place, &item, bytes, findings)?;
            place += item_len(&item);
            count += item_count(&item);
        }
        Ok(count)
    }

    /// An item of a datagram comes, which begins at a place.
    fn saw_item(
        &mut self,
        alloc: Global,
        now: Moment,
        origin: &Origin,
        place: usize,
        item: &Result<Message<'_>, WireError>,
        bytes: &mut Vec<u8>,
        findings: &mut Vec<Finding>,
    ) -> Result<(), AllocError>
        requires { place + item_len (view_item item.now) ≤ usize.MAX }
        ensures ok { OnOk result (working self.new findings.new.items ≡ item_shown now origin.now place
            (view_item item.now) (working self.old findings.old.items)) }
        ensures err { OnErr result (IsBegun findings.old.items findings.new.items
            (item_shown now origin.now place (view_item item.now) (working self.old findings.old.items)).told) }
    {
        match item {
            Ok(message) => {
                let begins = place + Header::LEN;
                self.saw(alloc, now, origin, begins, message, bytes, findings)
            }
            Err(fault) => tell(findings, Finding::Malformed(*fault)),
        }
    }
}

/// How many bytes of its datagram an item takes.
fn item_len(item: &Result<Message<'_>, WireError>) -> usize
    ensures { result ≡ item_len (view_item item.now) }
{
    match item {
        Ok(message) => written_len(message),
        Err(_) => 0,
    }
}

/// How many messages an item has: one, or none where it is a fault.
fn item_count(item: &Result<Message<'_>, WireError>) -> usize
    ensures { result ≡ item_count (view_item item.now) }
{
    match item {
        Ok(_) => 1,
        Err(_) => 0,
    }
}
