//! Tables of reassembly. Each of their runs begins with a store of so many slots and such a limit; at its end stand
//! the bytes that were taken.

/// Totals and empty slices.
pub(super) const TOTALS: &str = "
# A total at a held place.
0 make 1 1392
0 more 1 0 One -> Part
0 last 1 0 Fifteen -> Conflict
0 last 1 16 No -> Part
0 take 1 -> false
0 bytes No -> true
# A total below a held place.
0 make 1 1392
0 more 1 32 Three -> Part
0 last 1 0 One -> Conflict
0 last 1 0 One -> Whole
0 take 1 -> true
0 bytes One -> true
# A total after the last held place.
0 make 1 1392
0 more 1 0 One -> Part
0 last 1 0 One -> Whole
0 take 1 -> true
0 bytes One -> true
# A lower second total.
0 make 1 1392
0 last 1 32 No -> Part
0 last 1 16 No -> Conflict
0 more 1 0 OneTwo -> Part
0 last 1 32 No -> Whole
0 take 1 -> true
0 bytes OneTwo -> true
# A higher second total.
0 make 1 1392
0 last 1 16 No -> Part
0 last 1 32 No -> Conflict
0 more 1 0 One -> Part
0 take 1 -> false
0 bytes No -> true
# The same total twice.
0 make 1 1392
0 last 1 16 No -> Part
0 last 1 16 No -> Part
0 more 1 0 One -> Whole
0 take 1 -> true
0 bytes One -> true
# A byte at the total.
0 make 1 1392
0 last 1 16 No -> Part
0 more 1 16 Two -> Conflict
0 more 1 0 One -> Part
0 bytes No -> true
# A byte past the total.
0 make 1 1392
0 last 1 0 One -> Whole
0 more 1 32 Three -> Conflict
0 take 1 -> false
0 bytes No -> true
# An empty slice has no byte past the total.
0 make 1 1392
0 last 1 0 One -> Whole
0 more 1 32 No -> Whole
0 take 1 -> true
0 bytes One -> true
# An empty slice takes a slot.
0 make 1 1392
0 more 1 16 No -> Part
0 last 2 0 One -> NoSlot
0 more 1 0 No -> Part
0 take 1 -> false
0 bytes No -> true
# A message without bytes.
0 make 1 1392
0 last 1 0 No -> Whole
0 take 1 -> true
0 take 1 -> false
0 bytes No -> true";

/// Slices that lie over one another.
pub(super) const OVERLAPS: &str = "
# Repeats fill no gap.
0 make 1 48
0 more 1 0 One -> Part
0 last 1 32 Three -> Part
0 more 1 0 One -> Part
0 take 1 -> false
0 more 1 16 Two -> Whole
0 take 1 -> true
0 bytes All -> true
# A longer slice over a shorter one.
0 make 1 48
0 more 1 16 Two -> Part
0 more 1 0 OneTwo -> Part
0 last 1 0 All -> Whole
0 take 1 -> true
0 bytes All -> true
# A slice within another.
0 make 1 48
0 last 1 0 All -> Whole
0 more 1 16 Two -> Whole
0 more 1 0 OneTwo -> Whole
0 take 1 -> true
0 bytes All -> true
# Another byte at the end of a held slice.
0 make 1 48
0 more 1 0 OneTwo -> Part
0 more 1 16 OtherTwo -> Conflict
0 last 1 32 Three -> Part
0 more 1 0 OneTwo -> Whole
0 take 1 -> true
0 bytes All -> true
# Another byte where a longer slice lies over a held one.
0 make 1 48
0 more 1 16 Two -> Part
0 last 1 0 Other -> Conflict
0 last 1 0 Other -> Whole
0 take 1 -> true
0 bytes Other -> true
# A message that waits to be taken is a part like others.
0 make 1 48
0 last 1 0 All -> Whole
0 last 2 0 One -> NoSlot
0 last 1 0 Other -> Conflict
0 take 1 -> false
0 bytes No -> true
# A slice over three that are apart, twice.
0 make 1 80
0 more 1 64 One -> Part
0 more 1 0 One -> Part
0 more 1 32 Three -> Part
0 more 1 0 Five -> Part
0 more 1 0 Five -> Part
0 last 1 80 No -> Whole
0 take 1 -> true
0 bytes Five -> true
# A conflict frees the slot.
0 make 1 48
0 more 1 0 One -> Part
0 more 2 0 One -> NoSlot
0 more 1 0 Two -> Conflict
0 more 2 0 One -> Part
0 bytes No -> true";

/// Which refusal comes first, and what it leaves.
pub(super) const REFUSALS: &str = "
# The TP header fffffff1 leaves the other parts.
0 make 2 1400
0 more 1 0 One -> Part
0 more 2 0xfffffff0 One -> TooLong
0 last 1 16 No -> Whole
0 take 1 -> true
0 bytes One -> true
# Refusals leave the part of their key.
0 make 1 32
0 more 1 0 One -> Part
0 more 1 16 Fifteen -> Unaligned
0 more 1 32 Three -> TooLong
0 last 1 16 No -> Whole
0 take 1 -> true
0 bytes One -> true
# The last slice has any length.
0 make 1 32
0 last 1 0 Fifteen -> Whole
0 take 1 -> true
0 bytes Fifteen -> true
# Unaligned before too long.
0 make 1 16
0 more 1 16 Fifteen -> Unaligned
0 bytes No -> true
# Unaligned before no slot.
0 make 1 16
0 more 1 0 One -> Part
0 more 2 0 Fifteen -> Unaligned
0 bytes No -> true
# Unaligned before a conflict.
0 make 1 16
0 last 1 0 Two -> Whole
0 more 1 0 Fifteen -> Unaligned
0 take 1 -> true
0 bytes Two -> true
# Too long before no slot.
0 make 1 16
0 more 1 0 One -> Part
0 more 2 16 Two -> TooLong
0 more 2 0 Two -> NoSlot
0 last 1 16 No -> Whole
0 take 1 -> true
0 take 2 -> false
0 bytes One -> true
# Too long before a conflict.
0 make 1 16
0 last 1 0 One -> Whole
0 more 1 16 Two -> TooLong
0 take 1 -> true
0 bytes One -> true
# The limit is a place too far.
0 make 2 1407
0 last 1 1392 Fifteen -> Part
0 last 2 1392 One -> TooLong
0 more 2 1408 No -> TooLong
0 bytes No -> true
# An empty slice may stand at the limit.
0 make 1 16
0 last 1 16 No -> Part
0 more 1 16 No -> Part
0 more 1 32 No -> TooLong
0 bytes No -> true";

/// How long parts stand: less than 1000 milliseconds.
pub(super) const TIMES: &str = "
# One before the timeout it stands.
0 make 1 48
0 more 1 0 One -> Part
999 last 1 16 Two -> Whole
999 take 1 -> true
999 bytes OneTwo -> true
# At the timeout it is gone.
0 make 1 48
5 more 1 0 One -> Part
1005 last 1 16 Two -> Part
1005 more 1 0 One -> Whole
1005 take 1 -> true
1005 bytes OneTwo -> true
# The slot is taken until the timeout.
0 make 1 48
0 more 1 0 One -> Part
999 more 2 0 Two -> NoSlot
1000 more 2 0 Two -> Part
1000 last 2 16 No -> Whole
1000 take 2 -> true
1000 bytes Two -> true
# The time counts from the last segment.
0 make 1 48
0 more 1 0 One -> Part
999 more 1 16 Two -> Part
1998 last 1 32 Three -> Whole
1998 take 1 -> true
1998 bytes All -> true
# And no further.
0 make 1 48
0 more 1 0 One -> Part
999 more 1 16 Two -> Part
1999 last 1 32 Three -> Part
1999 bytes No -> true
# A repeat is a last segment.
0 make 1 48
0 more 1 0 One -> Part
999 more 1 0 One -> Part
1998 last 1 16 No -> Whole
1998 take 1 -> true
1998 bytes One -> true
# A refused segment is not.
0 make 1 48
0 more 1 0 One -> Part
999 more 1 16 Fifteen -> Unaligned
1000 last 1 16 No -> Part
1000 bytes No -> true
# A refused segment tells the time to the other parts.
0 make 1 48
0 last 1 0 One -> Whole
1000 more 2 0 Fifteen -> Unaligned
1000 take 1 -> false
1000 bytes No -> true
# What is whole stands until the store is told the time.
0 make 1 48
0 last 1 0 One -> Whole
999 expire
999 take 1 -> true
999 last 2 0 Two -> Whole
1998 expire
1998 last 1 0 One -> NoSlot
1999 expire
1999 take 2 -> false
1999 bytes One -> true
# All parts are dropped at once.
0 make 2 48
0 more 1 0 One -> Part
0 last 2 0 Two -> Whole
0 clear
0 take 2 -> false
0 last 1 16 No -> Part
0 take 1 -> false
0 bytes No -> true";

/// Keys that differ from the first in one field: their messages do not meet.
pub(super) const KEYS: &str = "
0 make 2 48
0 other source-address
0 more 1 0 One -> Part
0 more 2 0 Two -> Part
0 last 2 16 No -> Whole
0 take 1 -> false
0 take 2 -> true
0 bytes Two -> true
0 make 2 48
0 other source-port
0 more 1 0 One -> Part
0 more 2 0 Two -> Part
0 last 2 16 No -> Whole
0 take 1 -> false
0 take 2 -> true
0 bytes Two -> true
0 make 2 48
0 other destination-address
0 more 1 0 One -> Part
0 more 2 0 Two -> Part
0 last 2 16 No -> Whole
0 take 1 -> false
0 take 2 -> true
0 bytes Two -> true
0 make 2 48
0 other destination-port
0 more 1 0 One -> Part
0 more 2 0 Two -> Part
0 last 2 16 No -> Whole
0 take 1 -> false
0 take 2 -> true
0 bytes Two -> true
0 make 2 48
0 other service
0 more 1 0 One -> Part
0 more 2 0 Two -> Part
0 last 2 16 No -> Whole
0 take 1 -> false
0 take 2 -> true
0 bytes Two -> true
0 make 2 48
0 other method
0 more 1 0 One -> Part
0 more 2 0 Two -> Part
0 last 2 16 No -> Whole
0 take 1 -> false
0 take 2 -> true
0 bytes Two -> true
0 make 2 48
0 other client
0 more 1 0 One -> Part
0 more 2 0 Two -> Part
0 last 2 16 No -> Whole
0 take 1 -> false
0 take 2 -> true
0 bytes Two -> true
0 make 2 48
0 other session
0 more 1 0 One -> Part
0 more 2 0 Two -> Part
0 last 2 16 No -> Whole
0 take 1 -> false
0 take 2 -> true
0 bytes Two -> true
0 make 2 48
0 other interface
0 more 1 0 One -> Part
0 more 2 0 Two -> Part
0 last 2 16 No -> Whole
0 take 1 -> false
0 take 2 -> true
0 bytes Two -> true
0 make 2 48
0 other kind
0 more 1 0 One -> Part
0 more 2 0 Two -> Part
0 last 2 16 No -> Whole
0 take 1 -> false
0 take 2 -> true
0 bytes Two -> true
0 make 2 48
0 other code
0 more 1 0 One -> Part
0 more 2 0 Two -> Part
0 last 2 16 No -> Whole
0 take 1 -> false
0 take 2 -> true
0 bytes Two -> true";

/// The five segments of 5880 bytes in another order, and one again.
pub(super) const ANOTHER_ORDER: &str = "
0 make 1 5880
0 payload 5880
0 cut 1 5568 5880 0 -> Part
0 cut 1 2784 4176 1 -> Part
0 cut 1 2784 4176 1 -> Part
0 cut 1 0 1392 1 -> Part
0 cut 1 4176 5568 1 -> Part
0 cut 1 1392 2784 1 -> Whole
0 take 1 -> true
0 take 1 -> false
0 front 5880 -> true";

/// Once a byte of the second has changed, the message is whole only when all five have come again.
pub(super) const CHANGED: &str = "
0 make 1 5880
0 payload 5880
0 cut 1 0 1392 1 -> Part
0 cut 1 1392 2784 1 -> Part
0 cut 1 1392 2784 1 1 -> Conflict
0 cut 1 2784 4176 1 -> Part
0 cut 1 4176 5568 1 -> Part
0 cut 1 5568 5880 0 -> Part
0 take 1 -> false
0 cut 1 1392 2784 1 -> Part
0 cut 1 0 1392 1 -> Whole
0 take 1 -> true
0 front 5880 -> true";

/// One slot, which is free at the timeout of its part.
pub(super) const ONE_SLOT: &str = "
0 make 1 5880
0 payload 5880
0 cut 1 0 1392 1 -> Part
999 cut 2 0 1392 1 -> NoSlot
1000 cut 2 0 1392 1 -> Part";

/// A last slice of nine bytes, and an empty one, which tells the total.
pub(super) const TWO_SEGMENTS: &str = "
0 make 1 1401
0 payload 1401
0 cut 1 0 1392 1 -> Part
0 cut 1 1392 1401 0 -> Whole
0 take 1 -> true
0 front 1401 -> true
0 make 1 1401
0 cut 1 0 1392 1 -> Part
0 cut 1 1392 1392 0 -> Whole
0 take 1 -> true
0 front 1392 -> true";

/// A mebibyte, its last slice first; and slices of 16 bytes, those at every other place first.
pub(super) const LONGEST: &str = "
0 make 1 1048576
0 payload 1048576
0 mixed 1392 753 -> Whole
0 take 1 -> true
0 front 1048576 -> true
0 make 1 65536
0 payload 65536
0 mixed 16 2047 -> Whole
0 take 1 -> true
0 front 65536 -> true";

/// Messages in segments in any order, of which each takes memory.
pub(super) const SEVEN: &str = "
0 make 2 2800
0 payload 2800
0 cut 1 0 1392 1 -> Part
0 cut 1 2784 2791 0 -> Part
0 cut 2 160 176 1 -> Part
0 cut 2 64 80 1 -> Part
0 cut 2 0 16 1 -> Part
0 take 1 -> false
0 cut 1 1392 2784 1 -> Whole
0 take 1 -> true
0 front 2791 -> true
0 cut 3 32 64 1 -> Part
0 cut 2 0 80 1 -> Part
0 cut 2 80 160 1 -> Part
0 cut 2 176 176 0 -> Whole
0 take 2 -> true
900 cut 4 1376 1400 0 -> Part
900 cut 4 0 1376 1 -> Whole
1100 take 4 -> true
1100 cut 5 0 16 0 -> Whole
1100 take 5 -> true
1100 expire
1100 clear";
