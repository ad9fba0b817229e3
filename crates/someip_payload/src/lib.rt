//! SOME/IP payloads: values of a shape, as bytes (SOME/IP Protocol, "Serialization of Parameters and
//! Data Structures").
//!
//! - [`Shape`], with [`Width`], [`Encoding`] and [`Member`]: what a payload is read by; [`Value`]: what it says;
//! - [`check_shape`]: whether payloads can have a shape; [`MAX_DEPTH`]: how deep it may be;
//! - [`decode`]: bytes as a value; [`encode`]: a value as bytes; [`PayloadError`]: the first fault;
//! - [`read_shape`]: a shape from its text; [`ShapeTextError`]: where it is none;
//! - [`read_shape_in`]: a shape from a text that refers to [`NamedShapes`]; [`next_reference`]: the names that
//!   a text refers to;
//! - [`depth_of`] and [`shapes_in`]: how deep a shape is, and how many shapes it is made of;
//! - [`read_value`]: a value from its text; [`ValueTextError`]: where it is none;
//! - [`laws`]: what the definitions behind the contracts promise.
#![tactic(auto)]

mod copies;
mod labels;
pub mod laws;
mod named_shapes;
mod names;
mod references;
mod shape_sizes;
mod shape_text;
mod shape_text_error;
mod text_parts;
mod value_faults;
mod value_floats;
mod value_reading;
mod value_strings;
mod value_text_error;
mod value_tokens;
mod words;

pub use named_shapes::NamedShapes;
pub use references::next_reference;
pub use shape_sizes::{depth_of, shapes_in};
pub use shape_text::{read_shape, read_shape_in};
pub use shape_text_error::ShapeTextError;
pub use someip_payload_codec::{
    Encoding, MAX_DEPTH, Member, PayloadError, Shape, Told, Value, Width, check_shape, decode,
    encode,
};
pub use value_reading::read_value;
pub use value_text_error::ValueTextError;
