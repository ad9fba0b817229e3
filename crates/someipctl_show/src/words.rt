//! The words of a text.
ghost use Rattle.std.specs.Prelude.{◌≡◌, IfOk, map};
ghost use Rattle.someipctl_show.specs.Words.{comma_words};

use std::alloc::{AllocError, Global};

/// The words of a text with commas between them. The only error is that memory ran out.
pub fn comma_words<'t>(alloc: Global, text: &'t str) -> Result<Vec<&'t str>, AllocError>
    ensures { IfOk result (λ words. map (λ w. w.now) words.items ≡ comma_words text.now) }
{
    text.split(',').collect(alloc)
}
