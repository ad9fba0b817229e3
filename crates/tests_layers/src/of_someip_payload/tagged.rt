//! Tagged structures: what is read and written of them, and what is refused.

/// Both ways where the last is true: a value is written with its members in the order of the shape,
/// basic ones with wire types 0 to 3, and others with 5, 6 or 7 after the shape's own width.
pub(super) const READ: &str = r#"
read tagged(1:u8,2?:utf8/8) 0000000b000107500205efbbbf4100 -> 15 {7,"A"} same
read tagged(1:u8,2?:utf8/8) 00000003000107 -> 7 {7,-} same
read tagged(1:u8,2?:utf8/8) 0000000c1009ffff4002024100800107 -> 16 {7,"A"} other
read tagged(1:u8,2?:utf8/8) 0000000b7002000000024100000107 -> 15 {7,"A"} other
read tagged/8(4095?:bool) 00 -> 1 {-} same
read tagged/8(4095?:bool) 030fff01 -> 4 {true} same
read tagged/8(2:i16,1:u32,0:i64) 141002fffe2001000000093000ffffffffffffffff -> 21 {-2,9,-1} same
read tagged/8(1:array/16<2,u8>) 06600100020708 -> 7 {[7,8]} same
read tagged/8(1:struct/8(u8,u8)) 055001020708 -> 6 {(7,8)} same
read tagged/8(1:union(3:u8)) 0b7001000000010000000307 -> 12 {3:7} same
read tagged/8(1:union(3:u8)) 09600100010000000307 -> 10 {3:7} other
read tagged/16(1:tagged(2?:u8),5?:u8) 0009700100000003000207 -> 11 {{7},-} same"#;

/// The length of the list is judged before its members, and each member at its turn.
pub(super) const REFUSED: &str = r#"
refuse tagged/8(1:u8,2?:u8) tagged/8(1:u8) 03000107 -> NotOfShape(0)
refuse tagged/8(1:array/8<1,u8>,2?:u8) tagged/8(1:array/8<2,u8>) 055001020708 -> NotOfShape(0)
refuse tagged/8(1:u8) tagged/8(1?:u8) 00 -> NotOfShape(0)
refuse tagged/8(1:array/8<1,u8>,2:u8) tagged/8(1:array/8<2,u8>,2?:u8) 055001020708 -> TooMany(0)
refuse tagged/8(2:u8,1:array/8<1,u8>) tagged/8(2?:u8,1:array/8<2,u8>) 055001020708 -> NotOfShape(0)
refuse tagged/8(1:u8) struct(u8) 07 -> NotOfShape(0)
refuse tagged(1:u8,1:u8) u8 07 -> BadShape(0)"#;
