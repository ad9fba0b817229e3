//! Values' texts: what is printed of a value is read as it, the other texts that say a value, and where a text says none.

/// The texts that are printed.
pub(super) const AGAIN: &str = r#"
say bool true -> 01
read bool 01 -> 1 true same
say bool false -> 00
read bool 00 -> 1 false same
say u8 0 -> 00
read u8 00 -> 1 0 same
say u8 255 -> ff
read u8 ff -> 1 255 same
say u16le 258 -> 0201
read u16le 0201 -> 2 258 same
say u64 18446744073709551615 -> ffffffffffffffff
read u64 ffffffffffffffff -> 8 18446744073709551615 same
say i8 -128 -> 80
read i8 80 -> 1 -128 same
say i16 7 -> 0007
read i16 0007 -> 2 7 same
say i64 -9223372036854775808 -> 8000000000000000
read i64 8000000000000000 -> 8 -9223372036854775808 same
say u8{0=PARK,3=DRIVE} DRIVE -> 03
read u8{0=PARK,3=DRIVE} 03 -> 1 DRIVE same
say u8{0=PARK,3=DRIVE} 2 -> 02
read u8{0=PARK,3=DRIVE} 02 -> 1 2 same
say i8{-1=NONE,1=ONE} NONE -> ff
read i8{-1=NONE,1=ONE} ff -> 1 NONE same
say i8{-1=NONE,1=ONE} -2 -> fe
read i8{-1=NONE,1=ONE} fe -> 1 -2 same
say f32 20.5 -> 41a40000
read f32 41a40000 -> 4 20.5 same
say f32le -0.0 -> 00000080
read f32le 00000080 -> 4 -0.0 same
say f32 inf -> 7f800000
read f32 7f800000 -> 4 inf same
say f64 -inf -> fff0000000000000
read f64 fff0000000000000 -> 8 -inf same
say f64 5e-324 -> 0000000000000001
read f64 0000000000000001 -> 8 5e-324 same
say f32 nan(7fc00001) -> 7fc00001
read f32 7fc00001 -> 4 nan(7fc00001) same
say f64 nan(fff800000000000d) -> fff800000000000d
read f64 fff800000000000d -> 8 nan(fff800000000000d) same
say utf8/8 "" -> 04efbbbf00
read utf8/8 04efbbbf00 -> 5 "" same
say utf8/8 "a\"\\\u{0}\u{1f}\u{7f}b" -> 0befbbbf61225c001f7f6200
read utf8/8 0befbbbf61225c001f7f6200 -> 12 "a\"\\\u{0}\u{1f}\u{7f}b" same
say utf16/8 "😀,é" -> 0cfeffd83dde00002c00e90000
read utf16/8 0cfeffd83dde00002c00e90000 -> 13 "😀,é" same
say utf8fix<6> "A" -> efbbbf410000
read utf8fix<6> efbbbf410000 -> 6 "A" same
say array/8<3,u8> [] -> 00
read array/8<3,u8> 00 -> 1 [] same
say array/8<3,u8> [1,2] -> 020102
read array/8<3,u8> 020102 -> 3 [1,2] same
say fixed<2,bool> [true,false] -> 0100
read fixed<2,bool> 0100 -> 2 [true,false] same
say fixed/8<1,utf8/8> ["]"] -> 0605efbbbf5d00
read fixed/8<1,utf8/8> 0605efbbbf5d00 -> 7 ["]"] same
say struct(u8) (7) -> 07
read struct(u8) 07 -> 1 (7) same
say struct(speed:f32,gear:u8{0=P,3=D},bool) (speed=20.5,gear=D,true) -> 41a400000301
read struct(speed:f32,gear:u8{0=P,3=D},bool) 41a400000301 -> 6 (speed=20.5,gear=D,true) same
say struct/8(a:struct(b:u8,c:i8),d:array/8<2,u8>) (a=(b=1,c=-1),d=[2]) -> 0401ff0102
read struct/8(a:struct(b:u8,c:i8),d:array/8<2,u8>) 0401ff0102 -> 5 (a=(b=1,c=-1),d=[2]) same
say union/8/8(1:u8,2:bool) none -> 0000
read union/8/8(1:u8,2:bool) 0000 -> 2 none same
say union/8/8(1:u8,2:bool) 2:true -> 010201
read union/8/8(1:u8,2:bool) 010201 -> 3 2:true same
say union/8/8(7:struct(n:u8,union/8/8(1:i8))) 7:(n=5,1:-1) -> 0407050101ff
read union/8/8(7:struct(n:u8,union/8/8(1:i8))) 0407050101ff -> 6 7:(n=5,1:-1) same
say tagged/8(1:u8,2?:bool) {9,-} -> 03000109
read tagged/8(1:u8,2?:bool) 03000109 -> 4 {9,-} same
say tagged/8(a:1:u8,b:2?:bool,c:3:i8) {a=9,b=true,c=-3} -> 090001090002010003fd
read tagged/8(a:1:u8,b:2?:bool,c:3:i8) 090001090002010003fd -> 10 {a=9,b=true,c=-3} same
say tagged/8(a:1?:u8,b:2?:i8) {a=-,b=-4} -> 030002fc
read tagged/8(a:1?:u8,b:2?:i8) 030002fc -> 4 {a=-,b=-4} same"#;

/// Other texts of values.
pub(super) const ALSO: &str = r#"
# A value that has a name may be written by its number.
say u8{0=PARK,3=DRIVE} 3 -> 03
say i8{-1=NONE,1=ONE} -1 -> ff
# Any decimal is read as the nearest float.
say f32 20.50 -> 41a40000
say f32 205e-1 -> 41a40000
say f32 1 -> 3f800000
say f32 16777217 -> 4b800000
say f64 1e400 -> 7ff0000000000000
say f64 -1e400 -> fff0000000000000
say f32 1e39 -> 7f800000
say f64 1e39 -> 48078287f49c4a1d
say f64 1e-400 -> 0000000000000000
# Names may be left out.
say struct(speed:f32,gear:u8{0=P,3=D},bool) (20.5,D,true) -> 41a400000301
say struct(a:u8,b:u8) (1,b=2) -> 0102
say tagged/8(a:1?:u8,b:2?:i8) {-,-4} -> 030002fc
say union/8/8(1:struct(a:u8)) 1:(5) -> 010105
# A member's name may be one of its values' names too.
say struct(D:u8{3=D}) (D) -> 03
say struct(D:u8{3=D}) (D=D) -> 03"#;

/// How many elements, and which numbers, a shape has is not looked at.
pub(super) const REFUSED: &str = r#"
say array<2,u8> [1,2,3] -> TooMany(0)
say fixed<2,u8> [1] -> NotOfShape(0)
say fixed<2,u8> [] -> NotOfShape(0)
say u8 256 -> NotOfShape(0)
say u8 18446744073709551615 -> NotOfShape(0)
say i8 128 -> NotOfShape(0)
say i8 9223372036854775807 -> NotOfShape(0)
say u8{0=PARK,3=DRIVE} 256 -> NotOfShape(0)
say tagged(1:u8) {-} -> NotOfShape(0)
say utf8fix<4> "A" -> TooLong(0)"#;

/// Texts, and the place at which no text of a value of the shape goes on.
pub(super) const BAD: &str = "
say bool  -> BadValue(0)
say bool 1 -> BadValue(0)
say bool tru -> BadValue(3)
say bool true  -> BadValue(4)
say bool truth -> BadValue(3)
say bool True -> BadValue(0)
say bool falsey -> BadValue(5)
say u8  -> BadValue(0)
say u8 +1 -> BadValue(0)
say u8 -1 -> BadValue(0)
say u8 01 -> BadValue(1)
say u8 1  -> BadValue(1)
say u8 1.0 -> BadValue(1)
say u8 0x1 -> BadValue(1)
say u64 18446744073709551616 -> BadValue(19)
say u64 99999999999999999999 -> BadValue(19)
say i8 - -> BadValue(1)
say i8 -0 -> BadValue(1)
say i8 +1 -> BadValue(0)
say i64 9223372036854775808 -> BadValue(18)
say i64 -9223372036854775809 -> BadValue(19)
say i8 --1 -> BadValue(1)
say u8{0=PARK,3=DRIVE} DRIVER -> BadValue(5)
say u8{0=PARK,3=DRIVE} DRI -> BadValue(3)
say u8{0=PARK,3=DRIVE} park -> BadValue(0)
say u8{0=PARK,3=DRIVE} 3x -> BadValue(1)
say u8 DRIVE -> BadValue(0)
say f32  -> BadValue(0)
say f32 nan -> BadValue(3)
say f64 NaN -> BadValue(0)
say f64 -nan -> BadValue(1)
say f32 nan() -> BadValue(4)
say f32 nan(7fc0001) -> BadValue(11)
say f32 nan(7FC00001) -> BadValue(5)
say f32 nan(7fc000010) -> BadValue(12)
say f32 nan(7fc00001 -> BadValue(12)
say f32 nan(7fc00001)1 -> BadValue(13)
say f32 1.5x -> BadValue(3)
say f32 1..2 -> BadValue(2)
say f32 1e -> BadValue(2)
say f32 1e+ -> BadValue(3)
say f32 . -> BadValue(1)
say f32 - -> BadValue(1)
say f32 in -> BadValue(2)
say f32 infx -> BadValue(3)
say f32 1,5 -> BadValue(1)
say utf8  -> BadValue(0)
say utf8 A -> BadValue(0)
say utf8 \" -> BadValue(1)
say utf8 \"A -> BadValue(2)
say utf8 \"A\"B -> BadValue(3)
say utf8 \"\u{9}\" -> BadValue(1)
say utf8 \"\\n\" -> BadValue(2)
say utf8 \"\\u0\" -> BadValue(3)
say utf8 \"\\u{41}\" -> BadValue(5)
say utf8 \"\\u{20}\" -> BadValue(5)
say utf8 \"\\u{00}\" -> BadValue(5)
say utf8 \"\\u{1F}\" -> BadValue(5)
say utf8 \"\\u{7f\" -> BadValue(6)
say utf8 \"\\ -> BadValue(2)
say array<2,u8>  -> BadValue(0)
say array<2,u8> [ -> BadValue(1)
say array<2,u8> [1 -> BadValue(2)
say array<2,u8> [1, -> BadValue(3)
say array<2,u8> [1,] -> BadValue(3)
say array<2,u8> [,1] -> BadValue(1)
say array<2,u8> [1 ] -> BadValue(2)
say array<2,u8> [1]] -> BadValue(3)
say array<2,u8> (1) -> BadValue(0)
say array<2,u8> [true] -> BadValue(1)
say struct(u8,u8) () -> BadValue(1)
say struct(u8,u8) (1) -> BadValue(2)
say struct(u8,u8) (1,2,3) -> BadValue(4)
say struct(u8,u8) (1,2 -> BadValue(4)
say struct(u8,u8) [1,2] -> BadValue(0)
say struct(u8,u8) (1,2)) -> BadValue(5)
say struct(a:u8,b:u8) (b=1,a=2) -> BadValue(1)
say struct(a:u8,b:u8) (a=1,a=2) -> BadValue(5)
say struct(a:u8,b:u8) (a1,2) -> BadValue(2)
say struct(speed:u8) (spin=1) -> BadValue(3)
say struct(speed:u8) (speed:1) -> BadValue(6)
say struct(speed:u8) (speed=) -> BadValue(7)
say struct(u8) (a=1) -> BadValue(1)
say union(1:u8,2:bool)  -> BadValue(0)
say union(1:u8,2:bool) 3:true -> BadValue(0)
say union(1:u8,2:bool) 0:1 -> BadValue(0)
say union(1:u8,2:bool) 2 -> BadValue(1)
say union(1:u8,2:bool) 2=true -> BadValue(1)
say union(1:u8,2:bool) 2:1 -> BadValue(2)
say union(1:u8,2:bool) nonesuch -> BadValue(4)
say union(1:u8,2:bool) none:1 -> BadValue(4)
say union(1:u8,2:bool) no -> BadValue(2)
say union(1:u8,2:bool) 12:1 -> BadValue(1)
say union(1:u8,2:bool) 1x:1 -> BadValue(1)
say union(1:u8,2:bool) 01:1 -> BadValue(0)
say union(1:u8,2:bool) -1:1 -> BadValue(0)
say union(1:u8,2:bool) 18446744073709551617:1 -> BadValue(1)
say union(1:u8,3:u8) 300:5 -> BadValue(1)
say union/8/32(300:u8) 3 -> BadValue(1)
say union/8/32(300:u8) 30:5 -> BadValue(2)
say union/8/32(300:u8) 3000:5 -> BadValue(3)
say union/8/32(300:u8) 310:5 -> BadValue(1)
say union/8/32(31:u8,300:u8) 305:5 -> BadValue(2)
say tagged(1:u8,2?:bool) {1} -> BadValue(2)
say tagged(1:u8,2?:bool) {1,-,-} -> BadValue(4)
say tagged(1:u8,2?:bool) {1,} -> BadValue(3)
say tagged(1:u8,2?:bool) {1,--} -> BadValue(4)
say tagged(1:u8,2?:bool) {-1,-} -> BadValue(2)
say tagged(a:1:u8,b:2?:bool) {a=1,a=-} -> BadValue(5)
say tagged(1:u8) (1) -> BadValue(0)
say tagged(1:u8) {1}} -> BadValue(3)";
