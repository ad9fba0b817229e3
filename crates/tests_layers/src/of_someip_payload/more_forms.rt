//! Little-endian numbers, texts in so many bytes, fixed counts and unions with widths of their own, and names.

/// Both ways where the last is true.
pub(super) const READ: &str = r#"
read u16le 0100 -> 2 1 same
read u32le 01020000 -> 4 513 same
read u64le 0000000000000080 -> 8 9223372036854775808 same
read i16le feff -> 2 -2 same
read i32le 00000080 -> 4 -2147483648 same
read i64le ffffffffffffffff -> 8 -1 same
read struct(u16,u16le) 00010100 -> 4 (1,1) same
read tagged/8(1:u16le) 0410010200 -> 5 {2} same
read fixed/8<2,u16> 0400010002 -> 5 [1,2] same
read fixed/8<1,u8> 03070809 -> 4 [7] other
read tagged/8(1:fixed/8<2,u8>) 055001020708 -> 6 {[7,8]} same
read union/8/8(1:u8) 010107 -> 3 1:7 same
read union/8/16(1:u8) 01000107 -> 4 1:7 same
read union/16/8(1:u8) 000000 -> 3 none same
read union/8/32(300:u8) 010000012c05 -> 6 300:5 same
read utf8fix<8> efbbbf4100000000 -> 8 "A" same
read utf8fix<4> efbbbf00 -> 4 "" same
# What stands after the terminator is not looked at, though it is no text.
read utf8fix<6> 4100ffffffff -> 6 "A" other
read utf16fix<8> feff004100000000 -> 8 "A" same
read utf16fix<6> fffe41000000 -> 6 "A" other"#;

/// With names: they change the text alone.
pub(super) const NAMED: &str = r#"
read struct(speed:u16,level:u8) 002a03 -> 3 (speed=42,level=3) same
read struct(speed:u16,u8) 002a03 -> 3 (speed=42,3) same
read struct(u8:u16) 0100 -> 2 (u8=256) same
read struct(speed:u16,gear:u8{0=P,3=D}) 002a03 -> 3 (speed=42,gear=D) same
read struct(speed:u16,gear:u8{0=P,3=D}) 002a04 -> 3 (speed=42,gear=4) same
read i16le{-2=DOWN,0=REST} feff -> 2 DOWN same
read u64{18446744073709551615=INVALID} ffffffffffffffff -> 8 INVALID same
read array/8<3,u8{0=OPEN,1=CLOSED}> 03000102 -> 4 [OPEN,CLOSED,2] same
read tagged/8(door:1:u8{0=OPEN,1=CLOSED}) 03000101 -> 4 {door=CLOSED} same
read struct(at:struct(x:i8,y:i8),all:array/8<2,u8>) 01ff020708 -> 5 (at=(x=1,y=-1),all=[7,8]) same
read tagged/8(speed:1:u16,level:2?:u8) 041001002a -> 5 {speed=42,level=-} same
read union/8/8(1:struct(a:u8),2:u8) 010107 -> 3 1:(a=7) same"#;

/// Bytes that are none of the shape, and shapes that no payload has.
pub(super) const FAULTY: &str = r#"
read u16le 01 -> Truncated(0)
read fixed/8<2,u16> 0300010002 -> LengthMismatch(3)
read fixed/8<2,u16> 04000100 -> Truncated(0)
read utf8fix<8> 4142434445464748 -> NoTerminator(0)
read utf8fix<4> ff000000 -> BadText(0)
read utf8fix<4> 410000 -> Truncated(0)
read struct/8(u8,utf8fix<4>) 0401000000 -> LengthMismatch(2)
read utf16fix<4> 00410000 -> BadText(0)
read utf16fix<4> feff0041 -> NoTerminator(0)
# The zero byte at 1 belongs to the unit 0x4100, which is no terminator.
read utf16fix<6> feff41004200 -> NoTerminator(0)
read union/8/8(1:u8) 010207 -> UnknownVariant(1)
read union/8/16(1:u8) 010000 -> LengthMismatch(0)
read union/8/16(1:u8) 0100 -> Truncated(1)
read utf8fix<3> - -> BadShape(0)
read utf8fix<1048577> - -> BadShape(0)
read utf16fix<5> - -> BadShape(0)
read union/8/8(256:u8) - -> BadShape(0)
read union/8/16(65536:u8) - -> BadShape(0)
read tagged(1:utf8fix<4>) - -> BadShape(0)
read fixed/8<1,fixed<1,u8>> - -> BadShape(0)
read fixed<1,fixed/8<1,u8>> - -> BadShape(0)
read fixed/8<0,u8> - -> BadShape(0)
read struct(a:u8,a:u8) - -> BadShape(0)
read tagged(a:1:u8,u8:2:u8,a:3:u8) - -> BadShape(0)
read u8{0=A,1=A} - -> BadShape(0)
read u8{1=A,0=B} - -> BadShape(0)
read u8{1=A,1=B} - -> BadShape(0)
read u8{256=A} - -> BadShape(0)
read u8{-1=A} - -> BadShape(0)
read i8{-129=A} - -> BadShape(0)
read i8{-128=A,127=B} - -> Truncated(0)
# Names count only within their own structure.
read struct(a:u8,struct(a:u8)) 01 -> Truncated(1)"#;

/// Values that are not written.
pub(super) const REFUSED: &str = r#"
# Mark, letter and terminator are five bytes.
refuse utf8fix<4> utf8/8 024100 -> TooLong(0)
refuse utf16fix<4> utf8/8 024100 -> TooLong(0)
# The text ends at its first U+0000 when it is read.
refuse utf8fix<8> utf8/8 03410000 -> NotOfShape(0)
refuse fixed/8<2,u8> fixed/8<1,u8> 0107 -> NotOfShape(0)
refuse fixed/8<256,u8> fixed<256,u8> 00000000000000000000000000000000000000000000000000000000000000000000000000000000000000000000000000000000000000000000000000000000000000000000000000000000000000000000000000000000000000000000000000000000000000000000000000000000000000000000000000000000000000000000000000000000000000000000000000000000000000000000000000000000000000000000000000000000000000000000000000000000000000000000000000000000000000000000000000000000000000000000000000000000000000000000000000000000000000000000000000000000000000000000000000000000 -> TooLong(0)
refuse union/8/8(1:u8) union(256:u8) 000000010000010007 -> UnknownVariant(0)
refuse u16le u32 00010000 -> NotOfShape(0)"#;
