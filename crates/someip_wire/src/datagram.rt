//! The messages of a datagram, one after the other (SOME/IP Protocol, "UDP Binding": several
//! messages in one datagram).
//!
//! After a fault the rest of a datagram is dropped. Where a message's Length cannot be trusted, nothing
//! after it can.
//!
//! `Messages` shows itself to contracts as the list of what is left to come, and neither as the datagram
//! nor as a place in it.
ghost use Rattle.std.specs.Prelude.{◌≡◌};

use crate::error::WireError;
use crate::message::{Message, message_at};
use std::marker::Model;

/// The messages of a datagram in order, and then the fault that ends it, if one does.
///
/// Contracts see it as the list of what is left to come. After a fault the rest of the datagram is
/// dropped. An empty datagram has neither messages nor a fault.
#[derive(Drop)]
pub struct Messages<'a> {
    datagram: &'a [u8],
    place: usize,
}

impl<'a> Model for Messages<'a> {
    ghost use Rattle.std.specs.Prelude.{List, Result, drop, length, ◌≤◌};
    ghost use Rattle.someip_wire.specs.declared.error.WireError.{WireError};
    ghost use Rattle.someip_wire.specs.Spelling.{MessageValue};
    ghost use Rattle.someip_wire.specs.Reading.{items_from};

    ghost Value = { List (Result MessageValue WireError) };

    ghost view = { λ s. items_from s.place (drop s.place s.datagram.now) };

    ghost invariant = { λ s. s.place ≤ length s.datagram.now };
}

impl<'a> Messages<'a> {
    ghost use Rattle.std.specs.Prelude.{List, Option, length};
    ghost use Rattle.std.specs.List.{AllByRecursion};
    ghost use Rattle.someip_wire.specs.declared.error.WireError.{WireError};
    ghost use Rattle.someip_wire.specs.Spelling.{MessageValue};
    ghost use Rattle.someip_wire.specs.Datagram.{Datagram, LiesWithin, items};
    ghost use Rattle.someip_wire.specs.Reading.{items_of};

    /// The messages of this datagram, and its end.
    ///
    /// ```text
    /// 12340421 00000008 00010001 01010000    a message, and the end without a fault
    /// the same and 12340421 00               a message, and then Truncated(21)
    /// ```
    pub fn new(datagram: &'a [u8]) -> Messages<'a>
        // The datagram is some messages and an end, and these are given.
        ensures found { (messages : List MessageValue) × (end : Option WireError)
            × Datagram messages end datagram.now × (result ≡ items messages end) }
        // No others are.
        ensures only { (messages : List MessageValue) (end : Option WireError)
            → Datagram messages end datagram.now → result ≡ items messages end }
        // They are those that the plain program reads.
        ensures read { result ≡ items_of datagram.now }
        // No payload is longer than the datagram, less the 16 bytes of a header.
        ensures within { AllByRecursion (LiesWithin (length datagram.now)) result }
    {
        Messages { datagram, place: 0 }
    }
}

impl<'a> Iterator for Messages<'a> {
    ghost use Rattle.std.specs.Iterator.{YieldsFirstBy, item_count};
    ghost use Rattle.someip_wire.specs.View.{view_item};

    type Item = Result<Message<'a>, WireError>;

    ghost next_gives = { YieldsFirstBy view_item (λ left. left) };

    ghost remaining = { item_count (λ left. left) };

    fn next(&mut self) -> Option<Result<Message<'a>, WireError>> {
        if self.place == self.datagram.len() {
            return None;
        }
        match message_at(self.datagram, self.place) {
            Ok((message, end)) => {
                self.place = end;
                Some(Ok(message))
            }
            Err(fault) => {
                self.place = self.datagram.len();
                Some(Err(fault))
            }
        }
    }
}
