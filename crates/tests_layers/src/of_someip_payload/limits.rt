//! How long texts may be, and how deep shapes.

/// So many letters, and how many bytes they have, if their length fits its field.
pub(super) const SIZED: &str = r#"
letters utf8/8 251 -> 256
letters utf8/8 252 -> TooLong(0)
letters utf8/16 65531 -> 65537
letters utf8/16 65532 -> TooLong(0)
letters utf8 65532 -> 65540"#;

/// So many arrays, one in the other, around a shape.
pub(super) const NESTED: &str = r#"
nested 15 u8
nested 16 u8 -> TooDeep(0)
nested 15 fixed<0,u8> -> TooDeep(0)
nested 0 fixed<0,u8> -> BadShape(0)
nested 0 union(2:u8,1:u16)"#;

/// Shapes that no text says. The largest Data ID is 4095.
pub(super) const UNTOLD: &str = r#"
untold members -> BadShape(0)
untold variants -> BadShape(0)
untold tagged -> BadShape(0)
untold 4095
untold 4096 -> BadShape(0)
untold float -> BadShape(0)"#;
