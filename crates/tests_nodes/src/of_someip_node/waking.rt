//! When a tick next gives something.
use super::acts::Act::{Call, Datagram, NextDue, Tick};
use super::acts::Row;
use super::nodes::{INSTANCE, SD_OF_ALL, SD_OF_SERVER};
use someip_rpc::CallKind;

/// An Offer of the instance until the next reboot.
const LASTING: &str =
    "ffff8100000000300000000101010200c000000000000010010000101111000101ffffff000000000000000c00090400c0a800010011772d";

/// Offers go out at 10 and 40, and then at 100.
pub(crate) const OF_OFFERS: &[Row] = &[
    (NextDue(Some(10)), ""),
    (Tick(9), ""),
    (NextDue(Some(1)), ""),
    (
        Tick(1),
        "sent 192.168.0.1:30490 239.0.0.1:30490 ffff8100000000300000000101010200c000000000000010010000101111000101000003000000000000000c00090400c0a800010011772d\n",
    ),
    (NextDue(Some(30)), ""),
    (
        Tick(30),
        "sent 192.168.0.1:30490 239.0.0.1:30490 ffff8100000000300000000201010200c000000000000010010000101111000101000003000000000000000c00090400c0a800010011772d\n",
    ),
    (NextDue(Some(60)), ""),
];

/// A Find is due until an offer is known, that offer lasts, and so a call that waits is due alone.
pub(crate) const OF_A_CALL: &[Row] = &[
    (NextDue(Some(10)), ""),
    (
        Datagram(SD_OF_SERVER, SD_OF_ALL, LASTING),
        "known 1111.0001 192.168.0.1:30509\n",
    ),
    (NextDue(None), ""),
    (
        Call(CallKind::Request, INSTANCE, 0x0421, ""),
        "call 1111.0421 0001\nsent 192.168.0.2:40001 192.168.0.1:30509 11110421000000080102000101010000\n",
    ),
    (NextDue(Some(2000)), ""),
    (Tick(1999), ""),
    (NextDue(Some(1)), ""),
    (Tick(1), "timeout 1111.0421 0001\n"),
    (NextDue(None), ""),
];

/// At the last moment of the clock the next Offer lies past it.
pub(crate) const AT_THE_END: &[Row] = &[
    (
        Tick(9223372036854775807),
        "sent 192.168.0.1:30490 239.0.0.1:30490 ffff8100000000300000000101010200c000000000000010010000101111000101000003000000000000000c00090400c0a800010011772d\n",
    ),
    (NextDue(None), ""),
    (Tick(1), "refused ClockPast\n"),
];
