//! SOME/IP payloads: shapes, values, and the bytes that are written of a value (SOME/IP Protocol,
//! "Serialization of Parameters and Data Structures"). `someip_payload_codec` reads them again.
//!
//! - [`Shape`], with [`Width`], [`Encoding`] and [`Member`]: what a payload is read by; [`Value`]: what it says;
//! - [`check_shape`]: whether payloads can have a shape; [`MAX_DEPTH`]: how deep it may be;
//! - [`encode`]: a value as bytes; [`Told`]: its text; [`PayloadError`]: the first fault;
//! - [`laws`]: what the definitions behind the contracts promise;
//! - what reading needs as well: the [`Order`] and [`Size`] of a number, with [`size_of`]; the [`Tag`] and the
//!   [`WireType`] of an item of a tagged structure, with [`tag_in`], [`has_wire_type`], [`own_width`]
//!   and [`width_in`].
#![tactic(auto)]

mod check;
mod error;
mod float_text;
pub mod laws;
mod names;
mod number;
mod shape;
mod tag;
mod text;
mod value;
mod value_text;
mod writing;

pub use check::{MAX_DEPTH, check_shape};
pub use error::PayloadError;
pub use number::{Order, Size, size_of};
pub use shape::{Encoding, Member, Shape, Width};
pub use tag::{Tag, WireType, has_wire_type, own_width, tag_in, width_in};
pub use value::Value;
pub use value_text::Told;
pub use writing::encode;
