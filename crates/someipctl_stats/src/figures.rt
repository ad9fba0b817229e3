//! The lines of all figures.
ghost use Rattle.std.specs.Prelude.{◌≡◌, OnErr, OnOk};
ghost use Rattle.someipctl_io.specs.Sending.{Sends, Stops};
ghost use Rattle.someipctl_stats.specs.StatsText.{all_full_text, discovery_text, events_text, figures_text, methods_text, one_full_text};

use crate::lines::{put_discovery, put_event, put_full, put_method};
use audit_stats::{Figures, Full};
use someipctl_io::{Buffer, CannotWrite, Form};
use std::io::Write;

/// Prints a line for each method, then for each event, then for each way of Service Discovery, each by rising key,
/// and at last one for each thing of which there was more than is kept.
pub fn put_figures<W: Write>(
    buffer: &mut Buffer,
    writer: &mut W,
    form: Form,
    figures: &Figures,
) -> Result<(), CannotWrite>
    ensures ok { OnOk result (Sends (W.contents writer.old) buffer.old (W.contents writer.new) buffer.new
        (figures_text form figures.now)) }
    ensures err { OnErr result (Stops (W.contents writer.old) buffer.old (W.contents writer.new)
        (figures_text form figures.now)) }
{
    put_methods(buffer, writer, form, figures)?;
    put_events(buffer, writer, form, figures)?;
    put_each_discovery(buffer, writer, form, figures)?;
    put_all_full(buffer, writer, form, figures)
}

/// Prints the lines of methods.
fn put_methods<W: Write>(
    buffer: &mut Buffer,
    writer: &mut W,
    form: Form,
    figures: &Figures,
) -> Result<(), CannotWrite>
    ensures ok { OnOk result (Sends (W.contents writer.old) buffer.old (W.contents writer.new) buffer.new
        (methods_text form figures.now)) }
    ensures err { OnErr result (Stops (W.contents writer.old) buffer.old (W.contents writer.new)
        (methods_text form figures.now)) }
{
    for (flow, method) in figures.methods() {
        put_method(buffer, writer, form, flow, method)?;
    }
    Ok(())
}

/// Prints the lines of events.
fn put_events<W: Write>(
    buffer: &mut Buffer,
    writer: &mut W,
    form: Form,
    figures: &Figures,
) -> Result<(), CannotWrite>
    ensures ok { OnOk result (Sends (W.contents writer.old) buffer.old (W.contents writer.new) buffer.new
        (events_text form figures.now)) }
    ensures err { OnErr result (Stops (W.contents writer.old) buffer.old (W.contents writer.new)
        (events_text form figures.now)) }
{
    for (flow, event) in figures.events() {
        put_event(buffer, writer, form, flow, event)?;
    }
    Ok(())
}

/// Prints the lines of the ways of Service Discovery.
fn put_each_discovery<W: Write>(
    buffer: &mut Buffer,
    writer: &mut W,
    form: Form,
    figures: &Figures,
) -> Result<(), CannotWrite>
    ensures ok { OnOk result (Sends (W.contents writer.old) buffer.old (W.contents writer.new) buffer.new
        (discovery_text form figures.now)) }
    ensures err { OnErr result (Stops (W.contents writer.old) buffer.old (W.contents writer.new)
        (discovery_text form figures.now)) }
{
    for (way, discovery) in figures.discovery() {
        put_discovery(buffer, writer, form, way, discovery)?;
    }
    Ok(())
}

/// Prints a line for each thing that was told as full.
fn put_all_full<W: Write>(
    buffer: &mut Buffer,
    writer: &mut W,
    form: Form,
    figures: &Figures,
) -> Result<(), CannotWrite>
    ensures ok { OnOk result (Sends (W.contents writer.old) buffer.old (W.contents writer.new) buffer.new
        (all_full_text form figures.now)) }
    ensures err { OnErr result (Stops (W.contents writer.old) buffer.old (W.contents writer.new)
        (all_full_text form figures.now)) }
{
    put_one_full(buffer, writer, form, figures, Full::Methods)?;
    put_one_full(buffer, writer, form, figures, Full::Events)?;
    put_one_full(buffer, writer, form, figures, Full::Discovery)?;
    put_one_full(buffer, writer, form, figures, Full::Calls)
}

/// Prints that something is full, if it was told as that.
fn put_one_full<W: Write>(
    buffer: &mut Buffer,
    writer: &mut W,
    form: Form,
    figures: &Figures,
    full: Full,
) -> Result<(), CannotWrite>
    ensures ok { OnOk result (Sends (W.contents writer.old) buffer.old (W.contents writer.new) buffer.new
        (one_full_text form figures.now full)) }
    ensures err { OnErr result (Stops (W.contents writer.old) buffer.old (W.contents writer.new)
        (one_full_text form figures.now full)) }
{
    if figures.has_told(full) {
        return put_full(buffer, writer, form, full);
    }
    Ok(())
}
