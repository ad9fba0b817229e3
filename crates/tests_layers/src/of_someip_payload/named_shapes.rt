//! Shapes that refer to shapes by their names.

/// A text that refers to shapes, and a text of the same shape that refers to none. A later shape of a name takes the place
/// of the earlier one.
pub(super) const SAME: &str = r#"
name speed bool
name speed u16
name spee u32
name a i8
name gear u8{0=PARK,3=DRIVE}
name point struct(x:f32,y:f32)
name _p1 array/8<2,@point>
name deep array<0,array<0,array<0,array<0,array<0,array<0,array<0,array<0,array<0,array<0,array<0,array<0,array<0,array<0,array<0,array<0,array<0,array<0,array<0,array<0,array<0,array<0,array<0,array<0,array<0,array<0,array<0,array<0,array<0,array<0,array<0,array<0,array<0,array<0,array<0,array<0,array<0,array<0,array<0,array<0,array<0,array<0,array<0,array<0,array<0,array<0,array<0,array<0,array<0,array<0,array<0,array<0,array<0,array<0,array<0,array<0,array<0,array<0,array<0,array<0,array<0,array<0,u8>>>>>>>>>>>>>>>>>>>>>>>>>>>>>>>>>>>>>>>>>>>>>>>>>>>>>>>>>>>>>>
name deeper array<0,@deep>
name nnnnnnnnnnnnnnnnnnnnnnnnnnnnnnnnnnnnnnnnnnnnnnnnnnnnnnnnnnnnnnnn utf8
same @speed u16 -> true
same @spee u32 -> true
same @a i8 -> true
same @gear u8{0=PARK,3=DRIVE} -> true
same @point struct(x:f32,y:f32) -> true
same @_p1 array/8<2,struct(x:f32,y:f32)> -> true
same @nnnnnnnnnnnnnnnnnnnnnnnnnnnnnnnnnnnnnnnnnnnnnnnnnnnnnnnnnnnnnnnn utf8 -> true
same array<4,@speed> array<4,u16> -> true
same fixed/8<2,@gear> fixed/8<2,u8{0=PARK,3=DRIVE}> -> true
same struct(@speed) struct(u16) -> true
same struct(@a,x:@speed,@spee) struct(i8,x:u16,u32) -> true
same struct(speed:@speed,u8) struct(speed:u16,u8) -> true
same union(1:@a,2:@_p1) union(1:i8,2:array/8<2,struct(x:f32,y:f32)>) -> true
same tagged(1:@a,x:2?:@speed,3:u8) tagged(1:i8,x:2?:u16,3:u8) -> true
same u8 u8 -> true
same @deep array<0,array<0,array<0,array<0,array<0,array<0,array<0,array<0,array<0,array<0,array<0,array<0,array<0,array<0,array<0,array<0,array<0,array<0,array<0,array<0,array<0,array<0,array<0,array<0,array<0,array<0,array<0,array<0,array<0,array<0,array<0,array<0,array<0,array<0,array<0,array<0,array<0,array<0,array<0,array<0,array<0,array<0,array<0,array<0,array<0,array<0,array<0,array<0,array<0,array<0,array<0,array<0,array<0,array<0,array<0,array<0,array<0,array<0,array<0,array<0,array<0,array<0,u8>>>>>>>>>>>>>>>>>>>>>>>>>>>>>>>>>>>>>>>>>>>>>>>>>>>>>>>>>>>>>> -> true"#;

/// Texts that refer to shapes and are of no shape, and the places of their faults.
pub(super) const REFUSED: &str = r#"
name speed bool
name speed u16
name spee u32
name a i8
name gear u8{0=PARK,3=DRIVE}
name point struct(x:f32,y:f32)
name _p1 array/8<2,@point>
name deep array<0,array<0,array<0,array<0,array<0,array<0,array<0,array<0,array<0,array<0,array<0,array<0,array<0,array<0,array<0,array<0,array<0,array<0,array<0,array<0,array<0,array<0,array<0,array<0,array<0,array<0,array<0,array<0,array<0,array<0,array<0,array<0,array<0,array<0,array<0,array<0,array<0,array<0,array<0,array<0,array<0,array<0,array<0,array<0,array<0,array<0,array<0,array<0,array<0,array<0,array<0,array<0,array<0,array<0,array<0,array<0,array<0,array<0,array<0,array<0,array<0,array<0,u8>>>>>>>>>>>>>>>>>>>>>>>>>>>>>>>>>>>>>>>>>>>>>>>>>>>>>>>>>>>>>>
name deeper array<0,@deep>
name nnnnnnnnnnnnnnnnnnnnnnnnnnnnnnnnnnnnnnnnnnnnnnnnnnnnnnnnnnnnnnnn utf8
shape  -> BadShape(0)
shape @ -> BadShape(0)
shape @9 -> BadShape(0)
shape @@a -> BadShape(0)
shape @ a -> BadShape(0)
shape @spe -> BadShape(0)
shape @speedy -> BadShape(0)
shape @SPEED -> BadShape(0)
shape @u8 -> BadShape(0)
shape @nnnnnnnnnnnnnnnnnnnnnnnnnnnnnnnnnnnnnnnnnnnnnnnnnnnnnnnnnnnnnnnnn -> BadShape(65)
shape @a{0=P} -> BadShape(2)
shape @a/8 -> BadShape(2)
shape @a@a -> BadShape(2)
shape @a  -> BadShape(2)
shape @a, -> BadShape(2)
shape @gear{0=PARK} -> BadShape(5)
shape @speed:u8 -> BadShape(6)
shape struct(@speed:u8) -> BadShape(13)
shape struct(x@a) -> BadShape(8)
shape struct(x:@) -> BadShape(9)
shape struct(x:@b) -> BadShape(9)
shape struct(x:@a:u8) -> BadShape(11)
shape struct(@a -> BadShape(9)
shape struct(u8,@) -> BadShape(10)
shape array<@a,u8> -> BadShape(6)
shape array<1,@b> -> BadShape(8)
shape array<1,@a) -> BadShape(10)
shape fixed<2,@none> -> BadShape(8)
shape union(@a:u8) -> BadShape(6)
shape union(1:@b,2:@a) -> BadShape(8)
shape tagged(@a:1:u8) -> BadShape(7)
shape tagged(1:@b) -> BadShape(9)
shape u8@a -> BadShape(2)
shape utf8@a -> BadShape(4)
shape array@a<1,u8> -> BadShape(5)
shape array<0,@deeper> -> BadShape(8)
shape array<0,array<0,@deep>> -> BadShape(16)
shape struct(u8,x:@deeper) -> BadShape(12)"#;

/// The same where no shape has a name.
pub(super) const REFUSED_ALONE: &str = r#"
shape @ -> BadShape(0)
shape @a -> BadShape(0)
shape struct(@a) -> BadShape(7)
shape struct(x:@a) -> BadShape(9)
shape array<1,@a> -> BadShape(8)
shape union(1:@a) -> BadShape(8)
shape tagged(x:1:@a) -> BadShape(11)"#;

/// How many shapes lie inside each other, and how many a shape is made of.
pub(super) const SIZED: &str = r#"
name speed bool
name speed u16
name spee u32
name a i8
name gear u8{0=PARK,3=DRIVE}
name point struct(x:f32,y:f32)
name _p1 array/8<2,@point>
name deep array<0,array<0,array<0,array<0,array<0,array<0,array<0,array<0,array<0,array<0,array<0,array<0,array<0,array<0,array<0,array<0,array<0,array<0,array<0,array<0,array<0,array<0,array<0,array<0,array<0,array<0,array<0,array<0,array<0,array<0,array<0,array<0,array<0,array<0,array<0,array<0,array<0,array<0,array<0,array<0,array<0,array<0,array<0,array<0,array<0,array<0,array<0,array<0,array<0,array<0,array<0,array<0,array<0,array<0,array<0,array<0,array<0,array<0,array<0,array<0,array<0,array<0,u8>>>>>>>>>>>>>>>>>>>>>>>>>>>>>>>>>>>>>>>>>>>>>>>>>>>>>>>>>>>>>>
name deeper array<0,@deep>
name nnnnnnnnnnnnnnnnnnnnnnnnnnnnnnnnnnnnnnnnnnnnnnnnnnnnnnnnnnnnnnnn utf8
size u8 -> 1 1
size @gear -> 1 1
size @point -> 2 3
size array<1,@point> -> 3 4
size fixed/8<1,utf8fix<8>> -> 2 2
size struct(a:u8,b:@point,fixed<2,@_p1>) -> 5 10
size union(1:@point,2:@gear) -> 3 5
size union/8/16(1:f32le) -> 2 2
size tagged(1:@point,x:2?:utf16) -> 3 5
size @deeper -> 64 64"#;

/// From a place on, the place of the next `@` and that after its name.
pub(super) const REFERS: &str = r#"
refers 0  -> None
refers 0 u8 -> None
refers 9 u8 -> None
refers 0 @a -> Some((0, 2))
refers 1 @a -> None
refers 0 @ -> Some((0, 1))
refers 0 @9 -> Some((0, 1))
refers 0 @a1_,@b -> Some((0, 4))
refers 1 @a1_,@b -> Some((5, 7))
refers 0 struct(x:@speed,@@a) -> Some((9, 15))
refers 15 struct(x:@speed,@@a) -> Some((16, 17))
refers 17 struct(x:@speed,@@a) -> Some((17, 19))
refers 0 @nnnnnnnnnnnnnnnnnnnnnnnnnnnnnnnnnnnnnnnnnnnnnnnnnnnnnnnnnnnnnnnnn -> Some((0, 65))"#;
