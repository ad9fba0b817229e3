//! The forms in which lines are printed.
ghost use Rattle.std.specs.Prelude.{◌≡◌};
ghost use Rattle.someipctl_io.specs.ToldLines.{end_text};

/// How lines are printed.
#[derive(Clone, Copy, Debug, PartialEq, Eq)]
pub enum Form {
    /// Words, for whoever reads them.
    Plain,
    /// One JSON object a line, for programs.
    Json,
}

impl Form {
    /// What ends a line.
    pub(crate) fn end(self) -> &'static str
        ensures { result.now ≡ end_text self }
    {
        match self {
            Form::Plain => "\n",
            Form::Json => "}\n",
        }
    }
}
