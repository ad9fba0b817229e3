//! The rows of payloads: bytes, and the values that they are read as. Bytes that are no payload are rows of the sweep
//! `texts` too.
//!
//! `read SHAPE HEX` tells how many bytes a value has, its text, and whether it is written as these bytes, or the fault.
//! `refuse SHAPE OTHER HEX` writes a value of the other shape, and `say SHAPE TEXT` the value with this text. `plain SHAPE
//! HEX` tells the text of a value without names. `letters SHAPE COUNT` tells how many bytes a text of so many letters has.
//! `nested COUNT SHAPE` checks a shape inside so many arrays, `untold WHAT` one that no text says. `shape TEXT` tells the
//! shape that a text says, `size TEXT` how deep it is and of how many shapes; `name NAME TEXT` gives it a name, and `same
//! TEXT OTHER` compares two. `refers FROM TEXT` tells the next reference.
use crate::acts::{Act, Subject, Told, tell, tell_bytes, tell_refusal};
use crate::judging::try_tables;
use someip_payload::{
    Member, NamedShapes, Shape, Told as ToldValue, Value, Width, check_shape, decode, depth_of,
    encode, next_reference, read_shape, read_shape_in, read_value, shapes_in,
};
use std::alloc::{AllocError, Global};
use std::fmt;
use std::fmt::Write;

mod floats;
mod limits;
mod more_forms;
mod named_shapes;
mod shapes;
mod tagged;
mod value_texts;
mod values;

/// Calls each of which takes memory.
const MEMORY: &str = "
read struct/16(u8,bool,i16,utf8/8,utf16/8,array/8<4,u16>,fixed<3,u8>,union(1:u8,2:utf8/8)) 00290701fffe06efbbbf68690006feff004100000400010002010203000000070000000206efbbbf686900 -> 43 (7,true,-2,\"hi\",\"A\",[1,2],[1,2,3],2:\"hi\") same
read struct/16(u8,bool,i16,utf8/8,utf16/8,array/8<4,u16>,fixed<3,u8>,union(1:u8,2:utf8/8)) 00290701fffe06efbbbf68690006feff004100000400010002010203000000070000000206efbbbf686901 -> NoTerminator(36)
read array/8<2,array/8<2,u8>> 050201020103 -> 6 [[1,2],[3]] same
read tagged/8(1:u8,2?:array/8<2,u8>) 0b1009ffff50020108000107 -> 12 {7,[8]} other
read tagged/8(1:u8,2?:array/8<2,u8>) 0450020108 -> MissingMember(0)
shape struct(u8,array/8<2,utf8/8> -> BadShape(27)
shape union/8/16(1:u8,2:utf8fix<8>) -> SizedUnion(W8, W16, [(1, U8), (2, FixedText(Utf8, 8))])
nested 3 u8{0=PARK,3=DRIVE}
say struct(a:u8,b:array/8<2,utf8/8>) (a=1,b=[\"x\"]) -> 010605efbbbf7800
say struct(a:u8,b:array/8<2,utf8/8>) (a=1,b=[\"x\"]] -> BadValue(12)
name speed u16
name place struct(x:f32,y:f32)
same array<2,@place> array<2,struct(x:f32,y:f32)> -> true
size struct(a:@speed,b:@place) -> 3 5";

/// The names of shapes.
#[derive(Drop)]
struct Payloads {
    alloc: Global,
    names: NamedShapes,
}

impl Subject for Payloads {
    fn make(alloc: Global) -> Result<Payloads, AllocError> {
        Ok(Payloads {
            alloc,
            names: NamedShapes::new(alloc),
        })
    }

    fn perform(&mut self, act: &Act<'_>, told: &mut Told) -> fmt::Result {
        let (first, second) = act.rest.split_once(' ').unwrap_or((act.rest, ""));
        match act.verb {
            "read" | "plain" => read(self.alloc, first, second, act.verb == "plain", told),
            "refuse" => refuse(self.alloc, first, second, told),
            "say" => say(self.alloc, first, second, told),
            "letters" => letters(self.alloc, first, act.word(1), told),
            "nested" => nested(self.alloc, act.word(0), second, told),
            "untold" => untold(self.alloc, act, told),
            "shape" => tell(told, &read_shape_in(self.alloc, &self.names, act.rest)),
            "size" => match read_shape_in(self.alloc, &self.names, act.rest) {
                Ok(shape) => write!(told, "{} {}", depth_of(&shape), shapes_in(&shape)),
                Err(refusal) => write!(told, "{refusal:?}"),
            },
            "name" => self.name(first, second, told),
            "same" => self.compare(first, second, told),
            "refers" => write!(told, "{:?}", next_reference(second, act.word(0) as usize)),
            _ => Err(fmt::Error),
        }
    }
}

impl Payloads {
    /// Gives a name to a shape.
    fn name(&mut self, name: &str, text: &str, told: &mut Told) -> fmt::Result {
        match read_shape_in(self.alloc, &self.names, text) {
            Ok(shape) => match String::from_str(self.alloc, name) {
                Ok(name) => tell_refusal(told, &self.names.insert(name, shape)),
                Err(refusal) => write!(told, "{refusal:?}"),
            },
            Err(refusal) => write!(told, "{refusal:?}"),
        }
    }

    /// Whether two texts say shapes that are printed alike for a programmer.
    fn compare(&self, text: &str, plain: &str, told: &mut Told) -> fmt::Result {
        match (
            read_shape_in(self.alloc, &self.names, text),
            read_shape(self.alloc, plain),
        ) {
            (Ok(shape), Ok(other)) => are_alike(self.alloc, &shape, &other, told),
            (Err(refusal), _) | (_, Err(refusal)) => write!(told, "{refusal:?}"),
        }
    }
}

fn are_alike(alloc: Global, shape: &Shape, other: &Shape, told: &mut Told) -> fmt::Result {
    let shape = format!(in alloc; "{shape:?}");
    let other = format!(in alloc; "{other:?}");
    match (shape, other) {
        (Ok(shape), Ok(other)) => write!(told, "{}", shape == other),
        _ => write!(told, "OutOfMemory"),
    }
}

/// The bytes of hex digits, which are `-` for none.
fn bytes_of(alloc: Global, digits: &str) -> Option<Vec<u8>> {
    let digits = if digits == "-" { "" } else { digits };
    hex::decode(alloc, digits).ok()
}

/// Reads a value, and tells it, with names and whether it is written so, or without.
fn read(alloc: Global, shape: &str, digits: &str, is_plain: bool, told: &mut Told) -> fmt::Result {
    let Some(bytes) = bytes_of(alloc, digits) else {
        return write!(told, "OutOfMemory");
    };
    let shape = match read_shape(alloc, shape) {
        Ok(shape) => shape,
        Err(refusal) => return write!(told, "{refusal:?}"),
    };
    match decode(alloc, &shape, &bytes) {
        Ok((value, _)) if is_plain => write!(told, "{value}"),
        Ok((value, count)) => {
            let front = bytes.get(..count).unwrap_or(&[]);
            tell_value(alloc, &shape, &value, front, told)
        }
        Err(fault) => write!(told, "{fault:?}"),
    }
}

/// Tells a value that was read from these bytes.
fn tell_value(
    alloc: Global,
    shape: &Shape,
    value: &Value,
    bytes: &[u8],
    told: &mut Told,
) -> fmt::Result {
    let mut text = String::new(alloc);
    let said = ToldValue { shape, value };
    if said.put(&mut text).is_err() {
        return write!(told, "OutOfMemory");
    }
    let mut out = Vec::new(alloc);
    match encode(shape, value, &mut out) {
        Ok(()) => {
            let is_same = if out.as_slice() == bytes {
                "same"
            } else {
                "other"
            };
            write!(told, "{} {text} {is_same}", bytes.len())
        }
        Err(refusal) => write!(told, "{refusal:?}"),
    }
}

/// Writes a value of another shape, and tells the refusal. What stands before it stays.
fn refuse(alloc: Global, shape: &str, other: &str, told: &mut Told) -> fmt::Result {
    let (other, digits) = other.split_once(' ').unwrap_or((other, ""));
    let (Ok(shape), Ok(other), Some(bytes)) = (
        read_shape(alloc, shape),
        read_shape(alloc, other),
        bytes_of(alloc, digits),
    ) else {
        return write!(told, "OutOfMemory");
    };
    match decode(alloc, &other, &bytes) {
        Ok((value, _)) => tell_encoded(alloc, &shape, &value, told),
        Err(fault) => write!(told, "{fault:?}"),
    }
}

/// Writes a value behind a byte, and tells its bytes, or the refusal, which leaves that byte.
fn tell_encoded(alloc: Global, shape: &Shape, value: &Value, told: &mut Told) -> fmt::Result {
    let mut out = Vec::new(alloc);
    if out.push(9u8).is_err() {
        return write!(told, "OutOfMemory");
    }
    match (encode(shape, value, &mut out), out.as_slice()) {
        (Ok(()), [9, bytes @ ..]) => tell_bytes(told, bytes),
        (Err(refusal), [9]) => write!(told, "{refusal:?}"),
        _ => Err(fmt::Error),
    }
}

/// The bytes of the value with a text.
fn say(alloc: Global, shape: &str, text: &str, told: &mut Told) -> fmt::Result {
    let shape = match read_shape(alloc, shape) {
        Ok(shape) => shape,
        Err(refusal) => return write!(told, "{refusal:?}"),
    };
    match read_value(alloc, &shape, text) {
        Ok(value) => tell_encoded(alloc, &shape, &value, told),
        Err(refusal) => write!(told, "{refusal:?}"),
    }
}

/// A text of so many letters.
fn text_of(alloc: Global, count: u32) -> Result<Value, AllocError> {
    let mut text = String::new(alloc);
    for _ in 0..count {
        text.push('a')?;
    }
    Ok(Value::Text(text))
}

fn letters(alloc: Global, shape: &str, count: u32, told: &mut Told) -> fmt::Result {
    let (Ok(shape), Ok(value)) = (read_shape(alloc, shape), text_of(alloc, count)) else {
        return write!(told, "OutOfMemory");
    };
    let mut out = Vec::new(alloc);
    match encode(&shape, &value, &mut out) {
        Ok(()) => write!(told, "{}", out.len()),
        Err(refusal) => write!(told, "{refusal:?}"),
    }
}

/// So many arrays, one in the other, around a shape.
fn nested_text(alloc: Global, count: u32, shape: &str) -> Result<String, AllocError> {
    let mut text = String::new(alloc);
    for _ in 0..count {
        text.push_str("array/8<1,")?;
    }
    text.push_str(shape)?;
    for _ in 0..count {
        text.push('>')?;
    }
    Ok(text)
}

fn nested(alloc: Global, count: u32, shape: &str, told: &mut Told) -> fmt::Result {
    let Ok(text) = nested_text(alloc, count, shape) else {
        return write!(told, "OutOfMemory");
    };
    match read_shape(alloc, text.as_str()) {
        Ok(shape) => tell_refusal(told, &check_shape(alloc, &shape)),
        Err(refusal) => write!(told, "{refusal:?}"),
    }
}

/// Checks a shape that has no text: without members, without variants, a tagged structure with a Data ID, or a float
/// with a name for its value 0.
fn untold(alloc: Global, act: &Act<'_>, told: &mut Told) -> fmt::Result {
    let shape = match act.rest {
        "members" => Some(Shape::Struct(None, Vec::new(alloc))),
        "variants" => Some(Shape::Union(Vec::new(alloc))),
        "tagged" => Some(Shape::Tagged(Width::W8, Vec::new(alloc))),
        "float" => named_float(alloc),
        _ => tagged_of(alloc, act.short(0)),
    };
    match shape {
        Some(shape) => tell_refusal(told, &check_shape(alloc, &shape)),
        None => write!(told, "OutOfMemory"),
    }
}

/// A tagged structure of one member, which may be absent.
fn tagged_of(alloc: Global, id: u16) -> Option<Shape> {
    let mut members = Vec::new(alloc);
    let member = Member {
        id,
        is_optional: true,
        shape: Shape::U8,
    };
    members.push(member).ok()?;
    Some(Shape::Tagged(Width::W8, members))
}

fn named_float(alloc: Global) -> Option<Shape> {
    let mut labels = Vec::new(alloc);
    let name = String::from_str(alloc, "A").ok()?;
    labels.push((0, name)).ok()?;
    Some(Shape::Enum(Box::new(alloc, Shape::F32).ok()?, labels))
}

#[test]
fn calls_that_take_memory(rt: HostRuntime) {
    try_tables::<Payloads>(&rt, &[MEMORY]);
}

#[test]
fn bytes_and_values(rt: HostRuntime) {
    let tables = [
        values::READ,
        values::TEXTS,
        values::PARTS,
        values::REFUSED,
        floats::READ,
        floats::NANS,
        floats::FAULTY,
        floats::REFUSED,
        floats::SINGLES,
        floats::DOUBLES,
        more_forms::READ,
        more_forms::NAMED,
        more_forms::FAULTY,
        more_forms::REFUSED,
        tagged::READ,
        tagged::REFUSED,
        limits::SIZED,
    ];
    try_tables::<Payloads>(&rt, &tables);
}

#[test]
fn texts_of_shapes_and_values(rt: HostRuntime) {
    let tables = [
        limits::NESTED,
        limits::UNTOLD,
        shapes::SHAPED,
        shapes::REFUSED,
        shapes::REFUSED_BYTE,
        named_shapes::SAME,
        named_shapes::REFUSED,
        named_shapes::REFUSED_ALONE,
        named_shapes::SIZED,
        named_shapes::REFERS,
        value_texts::AGAIN,
        value_texts::ALSO,
        value_texts::REFUSED,
        value_texts::BAD,
    ];
    try_tables::<Payloads>(&rt, &tables);
}
