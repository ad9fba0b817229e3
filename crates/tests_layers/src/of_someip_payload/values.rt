//! Values of each kind: what is read, of how many bytes, and whether it is written as they are.

/// Both ways where it says `same`.
pub(super) const READ: &str = "
read bool fe -> 1 false other
read bool 03 -> 1 true other
read bool 01 -> 1 true same
read bool 00 -> 1 false same
read u8 ffff -> 1 255 same
read u16 ffffff -> 2 65535 same
read u32 ffffffff -> 4 4294967295 same
read u64 ffffffffffffffff -> 8 18446744073709551615 same
read u64 0000000000000000 -> 8 0 same
read i8 80 -> 1 -128 same
read i8 7f -> 1 127 same
read i8 ff -> 1 -1 same
read i16 8000 -> 2 -32768 same
read i16 7fff -> 2 32767 same
read i16 ffff -> 2 -1 same
read i32 80000000 -> 4 -2147483648 same
read i32 7fffffff -> 4 2147483647 same
read i64 8000000000000000 -> 8 -9223372036854775808 same
read i64 7fffffffffffffff -> 8 9223372036854775807 same
read i64 ffffffffffffffff -> 8 -1 same
read i64 0000000000000000 -> 8 0 same
read utf8 00000005efbbbf4100 -> 9 \"A\" same
read utf8 000000024100 -> 6 \"A\" other
read utf8/8 07efbbbf61006200 -> 8 \"a\\u{0}b\" same
read utf8/8 07efbbbfefbbbf00 -> 8 \"\u{feff}\" same
read utf16/8 08feffd83dde000000 -> 9 \"😀\" same
read utf16/8 08fffe3dd800de0000 -> 9 \"😀\" other
read array<2,u16> 0000000400010002 -> 8 [1,2] same
read fixed<3,u8> 01020304 -> 3 [1,2,3] same
read struct/16(u8,utf16) 000b0700000006feff00410000 -> 13 (7,\"A\") same
read struct/16(u8,utf16) 000d0700000006feff00410000aabb -> 15 (7,\"A\") other
read struct/16(u8,utf16) 000b0700000006fffe41000000 -> 13 (7,\"A\") other
read struct/16(u8,utf16) 000c0700000007feff0041000055 -> 14 (7,\"A\") other
read union(1:u8) 0000000000000000 -> 8 none same
read union(1:u8) 000000010000000107 -> 9 1:7 same
read union(1:u8) 000000030000000107aabb -> 11 1:7 other";

/// The texts of texts, with what is escaped in them and what is not.
pub(super) const TEXTS: &str = "
read utf8/8 04efbbbf00 -> 5 \"\" same
read utf8/8 05efbbbf4100 -> 6 \"A\" same
read utf8/8 07efbbbf61206200 -> 8 \"a b\" same
read utf8/8 0cefbbbf736179202268692200 -> 13 \"say \\\"hi\\\"\" same
read utf8/8 08efbbbf633a5c6400 -> 9 \"c:\\\\d\" same
read utf8/8 05efbbbf2700 -> 6 \"'\" same
read utf8/8 05efbbbf0000 -> 6 \"\\u{0}\" same
read utf8/8 07efbbbf0a0d0900 -> 8 \"\\u{a}\\u{d}\\u{9}\" same
read utf8/8 06efbbbf0f1000 -> 7 \"\\u{f}\\u{10}\" same
read utf8/8 08efbbbf1f207e7f00 -> 9 \"\\u{1f} ~\\u{7f}\" same
read utf8/8 0aefbbbfc280c29fc2a000 -> 11 \"\u{80}\u{9f}\u{a0}\" same
read utf8/8 0fefbbbfc3a4c39fe282acf09d849e00 -> 16 \"äß€𝄞\" same
read utf8/8 0aefbbbfefbbbfefbfbd00 -> 11 \"\u{feff}�\" same
read utf8/8 0befbbbf7b7d5c757b307d00 -> 12 \"{}\\\\u{0}\" same";

/// The texts of what has parts.
pub(super) const PARTS: &str = r#"
read array/8<2,u8> 00 -> 1 [] same
read struct(u8) 01 -> 1 (1) same
read union(3:u8) 000000010000000308 -> 9 3:8 same
read union(3:union(1:u8)) 00000008000000030000000000000000 -> 16 3:none same
read struct(u8,struct(utf8/8,union(1:u8)),union(4294967295:array/8<2,i8>),array/8<2,u8>,array/8<2,bool>) 0707efbbbf412c2200000000000000000000000003ffffffff02fe1e000101 -> 31 (7,("A,\"",none),4294967295:[-2,30],[],[true]) same"#;

/// A value that is none of the shape, as bytes of another one: why it is not written.
pub(super) const REFUSED: &str = r#"
refuse array/8<2,u8> array/8<2,bool> 0101 -> NotOfShape(0)
refuse array/8<2,u8> array/8<2,u16> 020100 -> NotOfShape(0)
refuse array/8<2,u8> array/8<2,i8> 0101 -> NotOfShape(0)
refuse array/8<2,i8> array/8<2,i16> 02ff7f -> NotOfShape(0)
refuse array/8<2,i8> array/8<2,i16> 020080 -> NotOfShape(0)
refuse struct(u8,fixed<2,u8>) struct(u8,fixed<1,u8>) 0701 -> NotOfShape(0)
refuse struct(u8,u8) struct(u8,u8,u8) 070101 -> NotOfShape(0)
refuse struct(u8,union(1:u8)) struct(u8,union(2:u8)) 07000000010000000201 -> UnknownVariant(0)
refuse struct(u8,array/8<1,u8>) struct(u8,array/8<2,u16>) 070400010100 -> TooMany(0)
refuse fixed<0,u8> u8 00 -> BadShape(0)"#;
