//! A SOME/IP node for C: a static library, with `include/someip.h`.
//!
//! Each export is a call of `someip_c_node`, through a [`Handle`] that C keeps; its number tells the
//! outcome. What the header says of pointers and lengths is the caller's to keep: nothing can check it.
#![tactic(auto)]

mod applying;
mod asking;
mod handle;
pub mod laws;
mod lives;
mod on_node;
mod place;
mod receiving;
mod texts;
mod version;

pub use handle::Handle;
pub use place::Place;
