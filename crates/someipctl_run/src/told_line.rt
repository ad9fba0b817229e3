//! A line of a trace as a value: what it tells, field by field.
ghost use Rattle.std.specs.Prelude.{◌≤◌};

use someipctl_io::{Field, Line, Said};

/// The most fields of a line.
const MOST_FIELDS: usize = 5;

/// What a line tells.
#[derive(Clone, Copy)]
pub(crate) struct TraceLine<'l> {
    /// Its kind, which is its first word where it is plain.
    kind: &'static str,
    /// The fields behind that, and after them some that nobody reads.
    fields: [Field<'l>; MOST_FIELDS],
    /// How many fields there are.
    count: usize,
    ghost fits: { count ≤ 5 },
}

impl<'l> TraceLine<'l> {
    ghost use Rattle.std.specs.Prelude.{◌≡◌, map};
    ghost use Rattle.someipctl_io.specs.ToldItems.{told};
    ghost use Rattle.someipctl_io.specs.ToldViews.{view_field, view_line};
    ghost use Rattle.someipctl_run.specs.TraceViews.{view_trace_line};

    /// The line as it is printed.
    pub(crate) fn as_line(&self) -> Line<'_>
        ensures { view_line result ≡ view_trace_line self.now }
    {
        Line {
            kind: self.kind,
            word: Some(self.kind),
            fields: &self.fields[..self.count],
        }
    }

    /// A line with one field.
    pub(crate) fn one(kind: &'static str, fields: [Field<'l>; 1]) -> TraceLine<'l>
        ensures { view_trace_line result ≡ told kind.now (map view_field fields.entry) }
    {
        let [a] = fields;
        let none = no_field();
        TraceLine {
            kind,
            fields: [a, none, none, none, none],
            count: 1,
        }
    }

    /// A line with two fields.
    pub(crate) fn two(kind: &'static str, fields: [Field<'l>; 2]) -> TraceLine<'l>
        ensures { view_trace_line result ≡ told kind.now (map view_field fields.entry) }
    {
        let [a, b] = fields;
        let none = no_field();
        TraceLine {
            kind,
            fields: [a, b, none, none, none],
            count: 2,
        }
    }

    /// A line with three fields.
    pub(crate) fn three(kind: &'static str, fields: [Field<'l>; 3]) -> TraceLine<'l>
        ensures { view_trace_line result ≡ told kind.now (map view_field fields.entry) }
    {
        let [a, b, c] = fields;
        let none = no_field();
        TraceLine {
            kind,
            fields: [a, b, c, none, none],
            count: 3,
        }
    }

    /// A line with four fields.
    pub(crate) fn four(kind: &'static str, fields: [Field<'l>; 4]) -> TraceLine<'l>
        ensures { view_trace_line result ≡ told kind.now (map view_field fields.entry) }
    {
        let [a, b, c, d] = fields;
        let none = no_field();
        TraceLine {
            kind,
            fields: [a, b, c, d, none],
            count: 4,
        }
    }

    /// A line with five fields.
    pub(crate) fn five(kind: &'static str, fields: [Field<'l>; MOST_FIELDS]) -> TraceLine<'l>
        ensures { view_trace_line result ≡ told kind.now (map view_field fields.entry) }
    {
        TraceLine {
            kind,
            fields,
            count: MOST_FIELDS,
        }
    }
}

/// What stands where there is no field.
fn no_field() -> Field<'static> {
    Field {
        lead: "",
        key: "",
        said: Said::Nothing,
    }
}
