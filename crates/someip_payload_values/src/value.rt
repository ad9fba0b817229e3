//! What a payload says.

/// A value of a shape.
#[derive(Debug, Drop, PartialEq)]
pub enum Value {
    Bool(bool),
    /// A number of an unsigned shape.
    Uint(u64),
    /// A number of a signed shape.
    Int(i64),
    /// The bits of a float in 32 bits.
    F32(u32),
    /// The bits of a float in 64 bits.
    F64(u64),
    /// A text, whatever its encoding is.
    Text(String),
    /// The elements of an array, or of a fixed number of elements.
    List(Vec<Value>),
    /// The members of a structure.
    Struct(Vec<Value>),
    /// The variant of a union with its type number, or none.
    Union(Option<(u32, Box<Value>)>),
    /// The members of a tagged structure in the order of its shape, of which some may be absent.
    Tagged(Vec<Option<Value>>),
}
