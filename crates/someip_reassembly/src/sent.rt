//! A message as it is sent: alone, or in segments.
ghost use Rattle.std.specs.Prelude.{◌≤◌, length};

use crate::segment::Segment;
use crate::segments::Segments;
use someip_wire::Message;
use std::marker::Model;

/// The most bytes of a payload that is sent in one piece; a longer one goes in segments (SOME/IP
/// Protocol, "SOME/IP-TP").
pub const ALONE_LEN: usize = 1400;

/// A message that is sent alone: its payload has at most 1400 bytes.
#[derive(Clone, Copy, Debug, PartialEq, Eq)]
pub struct ShortMessage<'a> {
    /// The message.
    pub message: Message<'a>,
    ghost short: { length message.payload.now ≤ 1400 },
}

/// A piece of a message as it is sent, in a datagram of its own. [`append_piece`] writes it.
///
/// [`append_piece`]: crate::append_piece
#[derive(Clone, Copy, Debug, PartialEq, Eq)]
pub enum SentPiece<'a> {
    /// The message itself.
    Alone(ShortMessage<'a>),
    /// One of its segments.
    Segment(Segment<'a>),
}

/// The pieces of a message as it is sent, in order: the message alone up to 1400 bytes of payload,
/// else its segments. Nothing is copied: each slice lies in the message's payload.
///
/// Contracts see it as the list of the pieces that are left to come.
#[derive(Drop)]
pub struct Sent<'a> {
    alone: Option<ShortMessage<'a>>,
    segments: Segments<'a>,
}

impl<'a> Model for Sent<'a> {
    ghost use Rattle.std.specs.Prelude.{List, ◌++◌, map};
    ghost use Rattle.someip_reassembly.specs.Sent.{PieceValue, InSegment, alone_in};

    ghost Value = { List PieceValue };

    ghost view = { λ s. alone_in s.alone ++ map InSegment s.segments };
}

impl<'a> Sent<'a> {
    ghost use Rattle.std.specs.Prelude.{◌≡◌, ◌≤◌, ◌<◌, ◌+◌, ◌^◌, [], ◌∷◌, List, length, map};
    ghost use Rattle.std.specs.List.{flat_map};
    ghost use Rattle.someip_wire.specs.View.{view};
    ghost use Rattle.someip_reassembly.specs.Segments.{SegmentValue, AreSegments};
    ghost use Rattle.someip_reassembly.specs.Sent.{Alone, InSegment, slice_of, sent};

    /// The pieces of this message.
    ///
    /// ```text
    /// 1400 bytes    the message alone
    /// 1401 bytes    segments of 1392 and 9 bytes
    /// ```
    pub fn new(message: &Message<'a>) -> Sent<'a>
        requires { 8 + length message.now.payload.now < 2 ^ 32 }
        ensures alone { length message.now.payload.now ≤ 1400
            → result ≡ Alone (view message.now) ∷ [] }
        ensures segments { (segments : List SegmentValue) → 1400 < length message.now.payload.now
            → AreSegments (view message.now) segments → result ≡ map InSegment segments }
        // Both as a function of the message.
        ensures exact { result ≡ sent (view message.now) }
        // Their slices side by side are the payload.
        ensures whole { flat_map slice_of result ≡ message.now.payload.now }
    {
        if message.payload.len() > ALONE_LEN {
            return Sent {
                alone: None,
                segments: Segments::new(message),
            };
        }
        let none = Message {
            header: message.header,
            payload: &[],
        };
        Sent {
            alone: Some(ShortMessage { message: *message }),
            segments: Segments::new(&none),
        }
    }
}

impl<'a> Iterator for Sent<'a> {
    ghost use Rattle.std.specs.Iterator.{YieldsFirstBy, item_count};
    ghost use Rattle.someip_reassembly.specs.Sent.{view_piece};

    type Item = SentPiece<'a>;

    ghost next_gives = { YieldsFirstBy view_piece (λ left. left) };

    ghost remaining = { item_count (λ left. left) };

    fn next(&mut self) -> Option<SentPiece<'a>> {
        if let Some(short) = self.alone.take() {
            return Some(SentPiece::Alone(short));
        }
        match self.segments.next() {
            Some(segment) => Some(SentPiece::Segment(segment)),
            None => None,
        }
    }
}
