//! Packets that are written, byte for byte.
use recording::{Record, Time};
use recording_writing::{PacketWriter, Put};
use someipctl_io::{Buffer, PrintFault};
use std::alloc::Global;

/// A packet, what is told of it, and the bytes that it adds to a file of those before it.
struct Row {
    link: u16,
    time: Option<Time>,
    original: u32,
    captured: &'static [u8],
    put: Put,
    bytes: &'static [u8],
}

/// The head of the section.
const SECTION: &[u8] = &[
    0x0a, 0x0d, 0x0d, 0x0a, 28, 0, 0, 0, 0x4d, 0x3c, 0x2b, 0x1a, 1, 0, 0, 0, 0xff, 0xff, 0xff,
    0xff, 0xff, 0xff, 0xff, 0xff, 28, 0, 0, 0,
];

const ROWS: &[Row] = &[
    // The first of Ethernet, at 3,001,000,001 nanoseconds, which is padded.
    Row {
        link: 1,
        time: Some(Time {
            seconds: 3,
            nanoseconds: 1_000_001,
        }),
        original: 5,
        captured: &[1, 2, 3, 4, 5],
        put: Put::Exact,
        bytes: &[
            1, 0, 0, 0, 32, 0, 0, 0, 1, 0, 0, 0, 0, 0, 0, 0, 9, 0, 1, 0, 9, 0, 0, 0, 0, 0, 0, 0,
            32, 0, 0, 0, 6, 0, 0, 0, 40, 0, 0, 0, 0, 0, 0, 0, 0, 0, 0, 0, 0x41, 0xa0, 0xdf, 0xb2,
            5, 0, 0, 0, 5, 0, 0, 0, 1, 2, 3, 4, 5, 0, 0, 0, 40, 0, 0, 0,
        ],
    },
    // One without a time, of the first interface.
    Row {
        link: 1,
        time: None,
        original: 4,
        captured: &[6, 7, 8, 9],
        put: Put::Exact,
        bytes: &[3, 0, 0, 0, 20, 0, 0, 0, 4, 0, 0, 0, 6, 7, 8, 9, 20, 0, 0, 0],
    },
    // One of raw IPv4, which has no byte.
    Row {
        link: 228,
        time: None,
        original: 0,
        captured: &[],
        put: Put::Untimed,
        bytes: &[
            1, 0, 0, 0, 32, 0, 0, 0, 228, 0, 0, 0, 0, 0, 0, 0, 9, 0, 1, 0, 9, 0, 0, 0, 0, 0, 0, 0,
            32, 0, 0, 0, 6, 0, 0, 0, 32, 0, 0, 0, 1, 0, 0, 0, 0, 0, 0, 0, 0, 0, 0, 0, 0, 0, 0, 0,
            0, 0, 0, 0, 32, 0, 0, 0,
        ],
    },
    // One that was cut.
    Row {
        link: 1,
        time: None,
        original: 9,
        captured: &[1],
        put: Put::Untimed,
        bytes: &[
            6, 0, 0, 0, 36, 0, 0, 0, 0, 0, 0, 0, 0, 0, 0, 0, 0, 0, 0, 0, 1, 0, 0, 0, 9, 0, 0, 0, 1,
            0, 0, 0, 36, 0, 0, 0,
        ],
    },
    // The last time that the file can say, and the next.
    Row {
        link: 228,
        time: Some(Time {
            seconds: 18_446_744_073,
            nanoseconds: 709_551_615,
        }),
        original: 1,
        captured: &[7],
        put: Put::Exact,
        bytes: &[
            6, 0, 0, 0, 36, 0, 0, 0, 1, 0, 0, 0, 0xff, 0xff, 0xff, 0xff, 0xff, 0xff, 0xff, 0xff, 1,
            0, 0, 0, 1, 0, 0, 0, 7, 0, 0, 0, 36, 0, 0, 0,
        ],
    },
    Row {
        link: 228,
        time: Some(Time {
            seconds: 18_446_744_073,
            nanoseconds: 709_551_616,
        }),
        original: 1,
        captured: &[7],
        put: Put::Untimed,
        bytes: &[
            6, 0, 0, 0, 36, 0, 0, 0, 1, 0, 0, 0, 0, 0, 0, 0, 0, 0, 0, 0, 1, 0, 0, 0, 1, 0, 0, 0, 7,
            0, 0, 0, 36, 0, 0, 0,
        ],
    },
];

/// The packet of a row, which came from an interface of another number.
fn packet_of(row: &Row) -> Record<'static> {
    Record {
        time: row.time,
        interface: 7,
        link: row.link,
        original: row.original,
        bytes: row.captured,
    }
}

/// Writes the head of the section and the rows. Tells whether each was told so.
fn write_rows(alloc: Global, file: &mut Vec<u8>) -> Result<bool, PrintFault> {
    let mut buffer = Buffer::new(alloc)?;
    let mut packets = PacketWriter::begin(alloc, &mut buffer, file)?;
    let mut is_told = true;
    for row in ROWS {
        let put = packets.put(&mut buffer, file, &packet_of(row))?;
        is_told = is_told && put == row.put;
    }
    buffer.flush(file)?;
    Ok(is_told)
}

/// Whether these bytes are the head of the section and those of the rows.
fn are_rows(bytes: &[u8]) -> bool {
    let Some(mut rest) = bytes.strip_prefix(SECTION) else {
        return false;
    };
    for row in ROWS {
        match rest.strip_prefix(row.bytes) {
            Some(others) => rest = others,
            None => return false,
        }
    }
    rest.is_empty()
}

#[test]
fn packets_are_written(rt: HostRuntime) {
    let mut file = Vec::new(rt.alloc());
    assert!(rt; matches!(write_rows(rt.alloc(), &mut file), Ok(true)));
    assert!(rt; are_rows(&file));
}
