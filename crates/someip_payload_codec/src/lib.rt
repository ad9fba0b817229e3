//! The codec of SOME/IP payloads: values of a shape, as bytes (SOME/IP Protocol, "Serialization of
//! Parameters and Data Structures"). What is read stands here, and what is written in
//! `someip_payload_values`. `someip_payload` shows all of both, with the texts of shapes.
//!
//! - [`Shape`], with [`Width`], [`Encoding`] and [`Member`]: what a payload is read by; [`Value`]: what it says;
//! - [`check_shape`]: whether payloads can have a shape; [`MAX_DEPTH`]: how deep it may be;
//! - [`decode`]: bytes as a value; [`encode`]: a value as bytes; [`PayloadError`]: the first fault;
//! - [`laws`]: what the definitions behind the contracts promise.
//!
//! The width of a length field comes from outside a form (`ReadsBy width f`), since an item of a tagged
//! structure may have another one than its shape; `Reads f` is with the form's own. A union, too, has its
//! length field narrowed so, and its type field stays at 32 bits.
#![tactic(auto)]

mod basic;
mod fields;
pub mod laws;
mod members;
mod reading;
mod text;
mod window;

pub use reading::decode;
pub use someip_payload_values::{
    Encoding, MAX_DEPTH, Member, PayloadError, Shape, Told, Value, Width, check_shape, encode,
};
