//! The lines of what is counted.
ghost use Rattle.std.specs.Prelude.{◌≡◌, OnErr, OnOk, map};
ghost use Rattle.someipctl_io.specs.Sending.{Sends, Stops};
ghost use Rattle.someipctl_io.specs.ToldLines.{line_text};
ghost use Rattle.someipctl_io.specs.ToldViews.{view_field};
ghost use Rattle.someipctl_show.specs.VerdictForms.{no_head};
ghost use Rattle.someipctl_stats.specs.StatsLines.{discovery_fields, discovery_line, event_fields, event_line, full_fields};
ghost use Rattle.someipctl_stats.specs.StatsLines.{full_line, full_name, method_fields, method_line, view_times};

use crate::times::{Times, said_of_time, times_of};
use audit_stats::{DiscoveryFigures, EventFigures, Flow, Full, MethodFigures, Way};
use someipctl_audit::put_headless;
use someipctl_io::{Buffer, CannotWrite, Field, Form, Said};
use someipctl_recordings::heads::field_of;
use std::io::Write;

/// Prints the line of a method.
pub(crate) fn put_method<W: Write>(
    buffer: &mut Buffer,
    writer: &mut W,
    form: Form,
    flow: &Flow,
    figures: &MethodFigures,
) -> Result<(), CannotWrite>
    ensures ok { OnOk result (Sends (W.contents writer.old) buffer.old (W.contents writer.new) buffer.new
        (line_text form no_head (method_line flow.now figures.now))) }
    ensures err { OnErr result (Stops (W.contents writer.old) buffer.old (W.contents writer.new)
        (line_text form no_head (method_line flow.now figures.now))) }
{
    let times = times_of(figures.latency.summary());
    let fields = method_fields(flow, figures, &times);
    put_headless(buffer, writer, form, "method", &fields)
}

/// Prints the line of an event.
pub(crate) fn put_event<W: Write>(
    buffer: &mut Buffer,
    writer: &mut W,
    form: Form,
    flow: &Flow,
    figures: &EventFigures,
) -> Result<(), CannotWrite>
    ensures ok { OnOk result (Sends (W.contents writer.old) buffer.old (W.contents writer.new) buffer.new
        (line_text form no_head (event_line flow.now figures.now))) }
    ensures err { OnErr result (Stops (W.contents writer.old) buffer.old (W.contents writer.new)
        (line_text form no_head (event_line flow.now figures.now))) }
{
    let times = times_of(figures.cycle.summary());
    let fields = event_fields(flow, figures, &times);
    put_headless(buffer, writer, form, "event", &fields)
}

/// Prints the line of a way of Service Discovery.
pub(crate) fn put_discovery<W: Write>(
    buffer: &mut Buffer,
    writer: &mut W,
    form: Form,
    way: &Way,
    figures: &DiscoveryFigures,
) -> Result<(), CannotWrite>
    ensures ok { OnOk result (Sends (W.contents writer.old) buffer.old (W.contents writer.new) buffer.new
        (line_text form no_head (discovery_line way.now figures.now))) }
    ensures err { OnErr result (Stops (W.contents writer.old) buffer.old (W.contents writer.new)
        (line_text form no_head (discovery_line way.now figures.now))) }
{
    put_headless(
        buffer,
        writer,
        form,
        "discovery",
        &discovery_fields(way, figures),
    )
}

/// Prints the line of something for which there is no room.
pub(crate) fn put_full<W: Write>(
    buffer: &mut Buffer,
    writer: &mut W,
    form: Form,
    full: Full,
) -> Result<(), CannotWrite>
    ensures ok { OnOk result (Sends (W.contents writer.old) buffer.old (W.contents writer.new) buffer.new
        (line_text form no_head (full_line full))) }
    ensures err { OnErr result (Stops (W.contents writer.old) buffer.old (W.contents writer.new)
        (line_text form no_head (full_line full))) }
{
    put_headless(buffer, writer, form, "full", &full_fields(full))
}

/// What is told of a method.
fn method_fields<'t>(flow: &Flow, figures: &MethodFigures, times: &'t Times) -> [Field<'t>; 12]
    ensures { map view_field result ≡ method_fields flow.now figures.now (view_times times.now) }
{
    [
        field_of("method ", "service", Said::Id(flow.service)),
        field_of(".", "method", Said::Id(flow.method)),
        field_of(" ", "client", Said::Endpoint(flow.from)),
        field_of(" ", "server", Said::Endpoint(flow.to)),
        field_of(" calls ", "calls", Said::Number(figures.calls as usize)),
        field_of(
            " answers ",
            "answers",
            Said::Number(figures.answers as usize),
        ),
        field_of(" errors ", "errors", Said::Number(figures.errors as usize)),
        field_of(
            " unanswered ",
            "unanswered",
            Said::Number(figures.unanswered() as usize),
        ),
        field_of(" latency ", "least", said_of_time(&times.least)),
        field_of(" ", "p50", said_of_time(&times.p50)),
        field_of(" ", "p99", said_of_time(&times.p99)),
        field_of(" ", "greatest", said_of_time(&times.greatest)),
    ]
}

/// What is told of an event.
fn event_fields<'t>(flow: &Flow, figures: &EventFigures, times: &'t Times) -> [Field<'t>; 11]
    ensures { map view_field result ≡ event_fields flow.now figures.now (view_times times.now) }
{
    [
        field_of("event ", "service", Said::Id(flow.service)),
        field_of(".", "event", Said::Id(flow.method)),
        field_of(" ", "from", Said::Endpoint(flow.from)),
        field_of(" ", "to", Said::Endpoint(flow.to)),
        field_of(" count ", "count", Said::Number(figures.count as usize)),
        field_of(" bytes ", "bytes", Said::Number(figures.bytes as usize)),
        field_of(" cycle ", "least", said_of_time(&times.least)),
        field_of(" ", "p50", said_of_time(&times.p50)),
        field_of(" ", "p99", said_of_time(&times.p99)),
        field_of(" ", "greatest", said_of_time(&times.greatest)),
        field_of(" gaps ", "gaps", Said::Number(figures.gaps as usize)),
    ]
}

/// What is told of a way of Service Discovery.
fn discovery_fields(way: &Way, figures: &DiscoveryFigures) -> [Field<'static>; 4]
    ensures { map view_field result ≡ discovery_fields way.now figures.now }
{
    [
        field_of("discovery ", "from", Said::Endpoint(way.from)),
        field_of(" ", "to", Said::Endpoint(way.to)),
        field_of(
            " messages ",
            "messages",
            Said::Number(figures.messages as usize),
        ),
        field_of(
            " reboots ",
            "reboots",
            Said::Number(figures.reboots as usize),
        ),
    ]
}

/// What is told where there is no room for more.
fn full_fields(full: Full) -> [Field<'static>; 1]
    ensures { map view_field result ≡ full_fields full }
{
    [field_of("full ", "name", Said::Text(full_name(full)))]
}

/// What is full, in a word.
fn full_name(full: Full) -> &'static str
    ensures { result.now ≡ full_name full }
{
    match full {
        Full::Methods => "methods",
        Full::Events => "events",
        Full::Discovery => "discovery",
        Full::Calls => "calls",
    }
}
