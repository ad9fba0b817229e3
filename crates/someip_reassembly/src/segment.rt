//! One segment (SOME/IP Protocol, "SOME/IP-TP header").
//!
//! A segment's alignment and Length are facts of its type, so writing one has no condition; the append
//! functions answer `AllocError`, since out of memory is their only error.
ghost use Rattle.std.specs.Prelude.{◌≡◌, ◌<◌, ◌+◌, ◌%◌, ◌^◌, length, IfOk};
ghost use Rattle.someip_reassembly.specs.TpHeader.{reads_segment, segment_in, view_read_segment};

use crate::error::TpError;
use someip_wire::Header;

/// A segment of a message: the message's header with the TP flag, the offset, More Segments, and a
/// slice of the message's payload.
///
/// On the wire it is a message: its payload is the TP header, big-endian, which holds the offset and
/// More Segments, and then the slice. So the offset is a multiple of 16, and the slice leaves room for 12 bytes in
/// the Length field.
///
/// ```text
///  0               8               16              24      28    31
/// +---------------+---------------+---------------+-------+-----+-+
/// |              offset in units of 16 bytes              |  0  |M|
/// +---------------+---------------+---------------+-------+-----+-+
/// |                             slice                             |
///
/// 12340421 00000015 00010001 0101a000    a RESPONSE; Length 21 is 12 and nine bytes of slice
/// 00000570                               offset 1392, More Segments 0
/// 71727374 75767778 79                   the slice
/// ```
#[derive(Clone, Copy, Debug, PartialEq, Eq)]
pub struct Segment<'a> {
    /// The message's header, with the TP flag set in its type.
    pub header: Header,
    /// Where the slice begins in the message's payload, in bytes: a multiple of 16.
    pub offset: u32,
    /// More Segments: bytes of the message are left after the slice.
    pub more: bool,
    /// The slice of the message's payload that begins at the offset.
    pub slice: &'a [u8],
    ghost aligned: { offset % 16 ≡ 0 },
    ghost fits: { 12 + length slice.now < 2 ^ 32 },
}

impl Segment<'_> {
    ghost use Rattle.someip_reassembly.specs.Segments.{view_segment, tp_header_of};

    /// The TP header in front of the slice: the offset in its upper 28 bits, in units of 16 bytes,
    /// three reserved bits of 0, and More Segments in the lowest bit.
    pub fn tp_header(&self) -> u32
        ensures { result ≡ tp_header_of (view_segment self.now) }
    {
        if self.more {
            self.offset + 1
        } else {
            self.offset
        }
    }
}

/// The TP header and the slice in the payload of a segment: the offset in bytes, More Segments, and
/// the slice. The three reserved bits of the TP header are ignored.
///
/// A payload of fewer than four bytes is `NoHeader`, and nothing else is an error.
///
/// ```text
/// 0000057f 2a    offset 1392, More Segments, the slice 2a
/// 0000057e       offset 1392, no more segments, an empty slice
/// 000005         NoHeader
/// ```
pub fn read_segment(payload: &[u8]) -> Result<(u32, bool, &[u8]), TpError>
    ensures read { reads_segment payload.now result }
    // The same as a function of the payload.
    ensures exact { view_read_segment result ≡ segment_in payload.now }
    // So it may be offered to a `Reassembly`.
    ensures aligned { IfOk result (λ (offset, more, slice). offset % 16 ≡ 0) }
{
    let [a, b, c, d, slice @ ..] = payload else {
        return Err(TpError::NoHeader);
    };
    let tp_header = u32::from_be_bytes([*a, *b, *c, *d]);
    Ok((tp_header - tp_header % 16, tp_header % 2 == 1, slice))
}
