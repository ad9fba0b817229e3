//! The lines of a text.
ghost use Rattle.std.specs.Prelude.{◌≡◌};
ghost use Rattle.someip_texts.specs.Lines.{is_left_out};

/// Whether a line is left out: it is empty, or a comment, which begins with `#`.
pub fn is_left_out(line: &[u8]) -> bool
    ensures { result ≡ is_left_out line.now }
{
    match line {
        [] => true,
        [first, ..] => *first == b'#',
    }
}
