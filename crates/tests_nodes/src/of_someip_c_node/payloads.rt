//! Payloads, as the texts of their values.
use super::is_text;
use someip_c_node::{Outcome, value_bytes, value_text};

/// A shape, a payload and its value.
const VALUES: &[(&[u8], &[u8], &str)] = &[
    (
        b"struct(speed:f32,gear:u8{0=P,3=D})",
        &[0x41, 0xa4, 0, 0, 3],
        "(speed=20.5,gear=D)",
    ),
    (b"u16le", &[1, 0], "1"),
    (b"fixed/8<2,u16>", &[4, 0, 1, 0, 2], "[1,2]"),
];

/// A shape, a payload and a text of which neither is one of a value, and why.
const FAULTS: &[(&[u8], &[u8], Outcome, &[u8], Outcome)] = &[
    (
        b"u8",
        &[1, 2],
        Outcome::BadPayload,
        b"256",
        Outcome::BadValue,
    ),
    (b"u8", &[], Outcome::BadPayload, b"\xff", Outcome::NotText),
    (b"u7", &[1], Outcome::BadShape, b"1", Outcome::BadShape),
    (
        b"fixed<0,u8>",
        &[],
        Outcome::BadShape,
        b"[]",
        Outcome::BadShape,
    ),
    (
        b"array<1,u8>",
        &[0, 0, 0, 2, 7, 7],
        Outcome::BadPayload,
        b"[7,7]",
        Outcome::BadValue,
    ),
    (b"\xff", &[1], Outcome::NotText, b"1", Outcome::NotText),
];

/// Whether the payload of a text's value was made, or refused, as it is wanted.
fn are_bytes(made: Result<Vec<u8>, Outcome>, wanted: Result<&[u8], Outcome>) -> bool {
    match (&made, wanted) {
        (Ok(bytes), Ok(wanted)) => bytes.as_slice() == wanted,
        (Err(outcome), Err(wanted)) => *outcome == wanted,
        _ => false,
    }
}

#[test]
fn payloads_are_told(rt: HostRuntime) {
    for (shape, payload, value) in VALUES {
        assert!(rt; is_text(value_text(rt.alloc(), shape, payload), Ok(*value)));
        assert!(rt;
            are_bytes(
                value_bytes(rt.alloc(), shape, value.as_bytes()),
                Ok(*payload)
            )
        );
    }
    for (shape, payload, wanted, text, of_text) in FAULTS {
        assert!(rt; is_text(value_text(rt.alloc(), shape, payload), Err(*wanted)));
        assert!(rt; are_bytes(value_bytes(rt.alloc(), shape, text), Err(*of_text)));
    }
}
