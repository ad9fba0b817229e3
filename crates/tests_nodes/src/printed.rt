//! How values are printed.
use std::alloc::Global;
use std::fmt::Display;

/// Whether a value is printed so.
pub(crate) fn is_printed<D: Display>(alloc: Global, value: &D, text: &str) -> Option<bool> {
    let printed = value.to_string(alloc).ok()?;
    Some(printed.as_str() == text)
}
