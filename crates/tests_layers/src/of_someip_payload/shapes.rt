//! The texts of shapes. The places of faults, which no clause states in full, are rows here and of the sweep `texts`.

/// How a shape is printed for a programmer.
pub(super) const SHAPED: &str = r#"
shape bool -> Bool
shape u8 -> U8
shape u16 -> U16
shape u32 -> U32
shape u64 -> U64
shape i8 -> I8
shape i16 -> I16
shape i32 -> I32
shape i64 -> I64
shape f32 -> F32
shape f64 -> F64
shape f32le -> F32Le
shape f64le -> F64Le
shape utf8 -> Text(Utf8, W32)
shape utf8/8 -> Text(Utf8, W8)
shape utf8/16 -> Text(Utf8, W16)
shape utf8/32 -> Text(Utf8, W32)
shape utf16 -> Text(Utf16, W32)
shape utf16/8 -> Text(Utf16, W8)
shape array<5,bool> -> Array(W32, 5, Bool)
shape array<0,utf16/16> -> Array(W32, 0, Text(Utf16, W16))
shape array/8<4294967295,i64> -> Array(W8, 4294967295, I64)
shape array/16<10,array/32<20,u8>> -> Array(W16, 10, Array(W32, 20, U8))
shape fixed<3,u16> -> Fixed(3, U16)
shape fixed<0,fixed<1,u8>> -> Fixed(0, Fixed(1, U8))
shape struct(u8) -> Struct(None, [U8])
shape struct/8(u8,i8) -> Struct(Some(W8), [U8, I8])
shape struct/16(bool,struct/32(utf8,struct(i16)),fixed<2,u32>) -> Struct(Some(W16), [Bool, Struct(Some(W32), [Text(Utf8, W32), Struct(None, [I16])]), Fixed(2, U32)])
shape union(1:u8) -> Union([(1, U8)])
shape union(0:bool,4294967295:union(7:u8,7:i32),30:array<1,u8>) -> Union([(0, Bool), (4294967295, Union([(7, U8), (7, I32)])), (30, Array(W32, 1, U8))])
shape tagged(1:u8) -> Tagged(W32, [Member { id: 1, is_optional: false, shape: U8 }])
shape tagged/8(4095?:tagged/16(0:i8),4095:bool) -> Tagged(W8, [Member { id: 4095, is_optional: true, shape: Tagged(W16, [Member { id: 0, is_optional: false, shape: I8 }]) }, Member { id: 4095, is_optional: false, shape: Bool }])
shape u16le -> U16Le
shape u32le -> U32Le
shape u64le -> U64Le
shape i16le -> I16Le
shape i32le -> I32Le
shape i64le -> I64Le
shape utf8fix<16> -> FixedText(Utf8, 16)
shape utf16fix<4294967295> -> FixedText(Utf16, 4294967295)
shape utf8fix<0> -> FixedText(Utf8, 0)
shape fixed/8<2,u16> -> FramedFixed(W8, 2, U16)
shape fixed/32<0,utf8fix<4>> -> FramedFixed(W32, 0, FixedText(Utf8, 4))
shape fixed/16<3,fixed<1,u16le>> -> FramedFixed(W16, 3, Fixed(1, U16Le))
shape union/8/16(1:u8) -> SizedUnion(W8, W16, [(1, U8)])
shape union/32/32(0:bool,4294967295:union/16/8(7:i64le)) -> SizedUnion(W32, W32, [(0, Bool), (4294967295, SizedUnion(W16, W8, [(7, I64Le)]))])
shape struct(speed:u16le,_:bool,u8) -> Struct(None, [Named("speed", U16Le), Named("_", Bool), U8])
shape struct/8(u8:u8,bool,u16le:utf8,Z9_:struct(a:u8)) -> Struct(Some(W8), [Named("u8", U8), Bool, Named("u16le", Text(Utf8, W32)), Named("Z9_", Struct(None, [Named("a", U8)]))])
shape tagged(a:1:u8,2:bool,tagged:4095?:utf8/8,0?:u64le) -> Tagged(W32, [Member { id: 1, is_optional: false, shape: Named("a", U8) }, Member { id: 2, is_optional: false, shape: Bool }, Member { id: 4095, is_optional: true, shape: Named("tagged", Text(Utf8, W8)) }, Member { id: 0, is_optional: true, shape: U64Le }])
shape u8{0=PARK,3=DRIVE} -> Enum(U8, [(0, "PARK"), (3, "DRIVE")])
shape i64le{-9223372036854775808=LOW,-1=_,0=a1} -> Enum(I64Le, [(-9223372036854775808, "LOW"), (-1, "_"), (0, "a1")])
shape u64{18446744073709551615=TOP,0=TOP} -> Enum(U64, [(18446744073709551615, "TOP"), (0, "TOP")])
shape struct(gear:u8{0=P},i16{-5=LESS}) -> Struct(None, [Named("gear", Enum(U8, [(0, "P")])), Enum(I16, [(-5, "LESS")])])
shape array/8<4,u16le{1=ONE}> -> Array(W8, 4, Enum(U16Le, [(1, "ONE")]))
shape struct(aaaaaaaaaaaaaaaaaaaaaaaaaaaaaaaaaaaaaaaaaaaaaaaaaaaaaaaaaaaaaaaa:u8) -> Struct(None, [Named("aaaaaaaaaaaaaaaaaaaaaaaaaaaaaaaaaaaaaaaaaaaaaaaaaaaaaaaaaaaaaaaa", U8)])"#;

/// Texts of no shape, and the places of their faults.
pub(super) const REFUSED: &str = r#"
shape  -> BadShape(0)
shape u -> BadShape(1)
shape u16l -> BadShape(4)
shape u16lex -> BadShape(5)
shape i64l -> BadShape(4)
shape utf8f -> BadShape(5)
shape utf16fi -> BadShape(7)
shape utf8fix -> BadShape(7)
shape utf8fix< -> BadShape(8)
shape utf8fix<04> -> BadShape(9)
shape utf8fix/8<4> -> BadShape(7)
shape utf16fix<4294967296> -> BadShape(18)
shape u8{ -> BadShape(3)
shape u16le, -> BadShape(5)
shape bool{0=A} -> BadShape(4)
shape utf8{0=A} -> BadShape(4)
shape fixed/9<1,u8> -> BadShape(6)
shape fixed/8(1,u8) -> BadShape(7)
shape union/8(1:u8) -> BadShape(7)
shape union/8/4(1:u8) -> BadShape(8)
shape union/8/16/8(1:u8) -> BadShape(10)
shape union/8/16<1:u8> -> BadShape(10)
shape struct(bool,u8x) -> BadShape(15)
shape struct(bool,u8 ) -> BadShape(14)
shape struct(u16lex) -> BadShape(13)
shape struct(u16l) -> BadShape(11)
shape struct(x) -> BadShape(8)
shape struct(x:) -> BadShape(9)
shape struct(x:b:u8) -> BadShape(10)
shape struct(x:u8x) -> BadShape(11)
shape struct(x:u8:u8) -> BadShape(11)
shape struct(:u8) -> BadShape(7)
shape struct(9a:u8) -> BadShape(7)
shape struct(x-y:u8) -> BadShape(8)
shape struct(utf8/9) -> BadShape(12)
shape struct( -> BadShape(7)
shape struct(x:y -> BadShape(9)
shape struct(aaaaaaaaaaaaaaaaaaaaaaaaaaaaaaaaaaaaaaaaaaaaaaaaaaaaaaaaaaaaaaaaa:u8) -> BadShape(71)
shape struct(aaaaaaaaaaaaaaaaaaaaaaaaaaaaaaaaaaaaaaaaaaaaaaaaaaaaaaaaaaaaaaaa -> BadShape(71)
shape struct(x, -> BadShape(8)
shape tagged(u8) -> BadShape(9)
shape tagged(x) -> BadShape(8)
shape tagged(x:u8) -> BadShape(9)
shape tagged(x:1) -> BadShape(10)
shape tagged(x:1:y:u8) -> BadShape(11)
shape tagged(1:x:u8) -> BadShape(9)
shape tagged(x:4096:u8) -> BadShape(12)
shape tagged(-:1:u8) -> BadShape(7)
shape tagged(bbbbbbbbbbbbbbbbbbbbbbbbbbbbbbbbbbbbbbbbbbbbbbbbbbbbbbbbbbbbbbbbb:1:u8) -> BadShape(71)
shape u8{} -> BadShape(3)
shape u8{0} -> BadShape(4)
shape u8{0=} -> BadShape(5)
shape u8{0=9} -> BadShape(5)
shape u8{0=A -> BadShape(6)
shape u8{0=A,} -> BadShape(7)
shape u8{0=A) -> BadShape(6)
shape u8{00=A} -> BadShape(4)
shape u8{-0=A} -> BadShape(4)
shape i8{-} -> BadShape(4)
shape i8{-01=A} -> BadShape(4)
shape i8{--1=A} -> BadShape(4)
shape i8{+1=A} -> BadShape(3)
shape u64{18446744073709551616=A} -> BadShape(23)
shape i64{-9223372036854775809=A} -> BadShape(23)
shape u8{0=A}{1=B} -> BadShape(7)
shape u8{0=nnnnnnnnnnnnnnnnnnnnnnnnnnnnnnnnnnnnnnnnnnnnnnnnnnnnnnnnnnnnnnnnn} -> BadShape(69)"#;

/// A byte that no words of a command can hold.
pub(super) const REFUSED_BYTE: &str = "
shape u8\u{0} -> BadShape(2)";
