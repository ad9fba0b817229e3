//! The segments of a message.
ghost use Rattle.std.specs.Prelude.{◌≡◌, ◌+◌, ◌%◌, ◌^◌, ◌<◌, length};
ghost use Rattle.someip_reassembly.specs.Segments.{view_segment, segment_at};

use crate::segment::Segment;
use someip_wire::{Header, Message};
use std::marker::Model;

/// The most bytes of a slice: each segment but the last has so many.
pub const SLICE_LEN: usize = 1392;

/// The segments of a message, in order. Nothing is copied: each slice lies in the message's payload.
///
/// Contracts see it as the list of the segments that are left to come.
#[derive(Drop)]
pub struct Segments<'a> {
    header: Header,
    payload: &'a [u8],
    place: usize,
}

impl<'a> Model for Segments<'a> {
    ghost use Rattle.std.specs.Prelude.{List, drop, length, ◌≡◌, ◌≤◌, ◌<◌, ◌^◌, ◌+◌, ◌%◌};
    ghost use Rattle.someip_reassembly.specs.Segments.{SegmentValue, segments_from};

    ghost Value = { List SegmentValue };

    ghost view = { λ s. segments_from s.header s.place (drop s.place s.payload.now) };

    ghost invariant = { λ s. (s.place ≤ length s.payload.now) × (8 + length s.payload.now < 2 ^ 32)
        × (s.place < length s.payload.now → s.place % 16 ≡ 0) };
}

impl<'a> Segments<'a> {
    ghost use Rattle.someip_wire.specs.View.{view};
    ghost use Rattle.std.specs.List.{flat_map};
    ghost use Rattle.std.specs.Prelude.{List};
    ghost use Rattle.someip_reassembly.specs.Segments.{SegmentValue, AreSegments};

    /// The segments of this message. A message without a payload has none.
    ///
    /// ```text
    /// 5880 bytes    1392 from 0, from 1392, from 2784 and from 4176, and 312 from 5568
    /// ```
    pub fn new(message: &Message<'a>) -> Segments<'a>
        requires { 8 + length message.now.payload.now < 2 ^ 32 }
        ensures segments { AreSegments (view message.now) result }
        // No other list is that of its segments.
        ensures only { (others : List SegmentValue) → AreSegments (view message.now) others
            → result ≡ others }
        // Their slices side by side are the payload.
        ensures whole { flat_map (λ segment. segment.slice) result ≡ message.now.payload.now }
    {
        let mut header = message.header;
        header.kind = header.kind.with_tp_flag();
        Segments {
            header,
            payload: message.payload,
            place: 0,
        }
    }
}

impl<'a> Iterator for Segments<'a> {
    ghost use Rattle.std.specs.Iterator.{YieldsFirstBy, item_count};
    ghost use Rattle.someip_reassembly.specs.Segments.{view_segment};

    type Item = Segment<'a>;

    ghost next_gives = { YieldsFirstBy view_segment (λ left. left) };

    ghost remaining = { item_count (λ left. left) };

    fn next(&mut self) -> Option<Segment<'a>> {
        let rest = &self.payload[self.place..];
        if rest.is_empty() {
            return None;
        }
        let segment = segment_of(self.header, self.place, rest);
        self.place += rest.len().min(SLICE_LEN);
        Some(segment)
    }
}

/// The first segment of the rest of a payload that begins at an offset.
fn segment_of(header: Header, offset: usize, rest: &[u8]) -> Segment<'_>
    requires fits { offset + length rest.now < 2 ^ 32 }
    requires aligned { offset % 16 ≡ 0 }
    ensures { view_segment result ≡ segment_at header offset rest.now }
{
    let len = rest.len().min(SLICE_LEN);
    Segment {
        header,
        offset: offset as u32,
        more: rest.len() > SLICE_LEN,
        slice: &rest[..len],
    }
}
