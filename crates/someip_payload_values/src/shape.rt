//! What a payload may look like.
//!
//! `Member` is a struct of its own, and not a tuple as the variants of a union are: it has three parts, one
//! of them a `bool`.

/// How many bits a length field has.
#[derive(Clone, Copy, Debug, PartialEq, Eq)]
pub enum Width {
    W8,
    W16,
    W32,
}

/// How the characters of a text are written.
#[derive(Clone, Copy, Debug, PartialEq, Eq)]
pub enum Encoding {
    Utf8,
    Utf16,
}

/// A shape of payload: which values it has and how each is written (SOME/IP Protocol, payload
/// serialization). Numbers are big-endian where a name does not end in `Le`, and signed ones in two's
/// complement.
#[derive(Debug, Drop)]
#[cycle(shape)]
pub enum Shape {
    /// One byte, of which the lowest bit counts.
    Bool,
    U8,
    U16,
    U32,
    U64,
    I8,
    I16,
    I32,
    I64,
    /// Little-endian, as the numbers that follow.
    U16Le,
    U32Le,
    U64Le,
    I16Le,
    I32Le,
    I64Le,
    /// A float of IEEE 754 (binary32 and binary64). Its bits are kept, also those of a NaN.
    F32,
    F64,
    /// Little-endian, as the float that follows.
    F32Le,
    F64Le,
    /// A text after a length field in bytes, with a byte order mark and a terminator.
    Text(Encoding, Width),
    /// A text in exactly so many bytes, which must be from 4 to 1,048,576, and even in UTF-16: with a byte
    /// order mark, which may be absent in UTF-8, and a terminator. What comes after the first
    /// terminator is not looked at; when written, it is zeros.
    FixedText(Encoding, u32),
    /// At most so many elements, after a length field in bytes.
    Array(Width, u32, Box<Shape>),
    /// Exactly so many elements, without a length field.
    Fixed(u32, Box<Shape>),
    /// Exactly so many elements, after a length field in bytes. What comes after them in it is
    /// skipped.
    FramedFixed(Width, u32, Box<Shape>),
    /// Members in order, perhaps after a length field in bytes.
    Struct(Option<Width>, Vec<Shape>),
    /// One of several variants, each with its type number, after a length field in bytes and a
    /// type field, each of 32 bits. Type number 0 stands for no value.
    Union(Vec<(u32, Shape)>),
    /// A union whose length field and type field have these widths.
    SizedUnion(Width, Width, Vec<(u32, Shape)>),
    /// Members that are told apart by their Data IDs, after a length field in bytes: they stand in
    /// any order, and what has another Data ID is skipped. The tag of an item may give its value a
    /// length field of another width than its shape has; when written, it has the shape's.
    Tagged(Width, Vec<Member>),
    /// A member of a structure with its name: a letter or `_`, then letters, digits and `_` of ASCII,
    /// at most 64 bytes in all. It changes nothing of bytes, values and faults, only of texts.
    Named(String, Box<Shape>),
    /// An integer with names for some of its values, by rising value. Numbers without a name are
    /// values as well: names change nothing but texts.
    Enum(Box<Shape>, Vec<(i128, String)>),
}

/// A member of a tagged structure (SOME/IP Protocol, "Structured Datatypes and Arguments with
/// Identifier and optional Members").
#[derive(Debug, Drop)]
#[cycle(shape)]
pub struct Member {
    /// The Data ID, from 0 to 4095.
    pub id: u16,
    /// Whether a value may be without it.
    pub is_optional: bool,
    /// What it looks like. A Fixed, or a Struct without a width, cannot be a member, since no
    /// wire type tells where it ends. Whoever reads without knowing the member skips it, which goes wrong for a
    /// Union: its type field is no part of its length.
    pub shape: Shape,
}
