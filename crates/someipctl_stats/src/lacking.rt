//! The lines of what figures lack.
ghost use Rattle.std.specs.Prelude.{◌≡◌, OnErr, OnOk, map};
ghost use Rattle.someipctl_io.specs.Sending.{Sends, Stops};
ghost use Rattle.someipctl_io.specs.ToldViews.{view_field};
ghost use Rattle.someipctl_stats.specs.LackLines.{lack_fields, lack_name, lack_text, lacks_text};

use crate::lacks::Lacks;
use crate::shown::Lack;
use someipctl_audit::put_headless;
use someipctl_io::{Buffer, CannotWrite, Field, Form, Said};
use someipctl_recordings::heads::field_of;
use std::io::Write;

/// Prints a line for each thing that lacks.
pub(crate) fn put_lacks<W: Write>(
    buffer: &mut Buffer,
    writer: &mut W,
    form: Form,
    lacks: &Lacks,
) -> Result<(), CannotWrite>
    ensures ok { OnOk result (Sends (W.contents writer.old) buffer.old (W.contents writer.new) buffer.new
        (lacks_text form lacks.now)) }
    ensures err { OnErr result (Stops (W.contents writer.old) buffer.old (W.contents writer.new)
        (lacks_text form lacks.now)) }
{
    put_lack(buffer, writer, form, lacks, Lack::Endpoints)?;
    put_lack(buffer, writer, form, lacks, Lack::Gaps)?;
    put_lack(buffer, writer, form, lacks, Lack::Reboots)
}

/// Prints a line, if this lacks.
fn put_lack<W: Write>(
    buffer: &mut Buffer,
    writer: &mut W,
    form: Form,
    lacks: &Lacks,
    lack: Lack,
) -> Result<(), CannotWrite>
    ensures ok { OnOk result (Sends (W.contents writer.old) buffer.old (W.contents writer.new) buffer.new
        (lack_text form lacks.now lack)) }
    ensures err { OnErr result (Stops (W.contents writer.old) buffer.old (W.contents writer.new)
        (lack_text form lacks.now lack)) }
{
    if lacks.lacks(lack) {
        return put_headless(buffer, writer, form, "full", &lack_fields(lack));
    }
    Ok(())
}

/// What is told where something lacks.
fn lack_fields(lack: Lack) -> [Field<'static>; 1]
    ensures { map view_field result ≡ lack_fields lack }
{
    [field_of("full ", "name", Said::Text(lack_name(lack)))]
}

/// What lacks, in a word.
fn lack_name(lack: Lack) -> &'static str
    ensures { result.now ≡ lack_name lack }
{
    match lack {
        Lack::Endpoints => "endpoints",
        Lack::Gaps => "gaps",
        Lack::Reboots => "reboots",
    }
}
