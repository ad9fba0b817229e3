//! The account of offers and subscriptions.
ghost use Rattle.std.specs.Prelude.{◌≡◌, ◌<◌, IfErr, IfOk, OnErr, OnOk, length, map};
ghost use Rattle.recording_packets.specs.View.{view_chosen};
ghost use Rattle.someipctl_io.specs.declared.Fault.TheVariants.{CannotRead};
ghost use Rattle.someipctl_io.specs.Sending.{Sends, Stops};
ghost use Rattle.someipctl_services.specs.ServiceText.{BeginsServices, ShowsServices, one_text, told_text, view_asked};

use crate::asked::ServicesAsked;
use crate::chosen::is_chosen;
use crate::lines::put_told;
use someip_services::{HistoryRules, ServiceHistory, Told};
use someip_tables::Moment;
use someipctl_accounts::{Account, give_account};
use someipctl_audit::SeenDatagram;
use someipctl_io::{Buffer, CannotWrite, PrintFault};
use someipctl_recordings::{ShownRecording, StoppedAt};
use std::alloc::Global;
use std::io::{Read, Write};
use std::marker::Model;

/// How many offers are held at most, how many subscriptions, and the sessions of how many pairs of addresses.
const LIMIT: usize = 65_536;

/// How many milliseconds after a message of Service Discovery one may come that it overtook.
const OVERTAKE_MS: u32 = 100;

/// What is known of offers and subscriptions, and what is asked for.
#[derive(Drop)]
pub(crate) struct ServiceAccount<'a> {
    alloc: Global,
    asked: ServicesAsked<'a>,
    history: ServiceHistory,
}

impl<'a> Model for ServiceAccount<'a> {
    ghost use Rattle.std.specs.Coded.{codes};
    ghost use Rattle.someip_services.specs.Codes.{coded_known};
    ghost use Rattle.someipctl_services.specs.ServiceText.{ServiceState, view_asked};

    ghost Value = { ServiceState };

    ghost coded = { Prim.hlevel (codes, coded_known) };

    ghost view = { λ s. record { asked = view_asked s.asked; known = s.history.known } };
}

impl<'a> Account for ServiceAccount<'a> {
    ghost use Rattle.someipctl_services.specs.ServiceText.{EndsServices, TakesServices};

    ghost takes = { TakesServices };

    ghost ends = { EndsServices };

    fn take<W: Write>(
        &mut self,
        buffer: &mut Buffer,
        writer: &mut W,
        seen: &SeenDatagram<'_>,
    ) -> Result<(), PrintFault> {
        self.history
            .saw(self.alloc, seen.now, &seen.origin, seen.bytes)?;
        put_all(buffer, writer, &self.asked, self.history.told())?;
        Ok(())
    }

    fn end<W: Write>(
        &mut self,
        buffer: &mut Buffer,
        writer: &mut W,
        last: Moment,
    ) -> Result<(), PrintFault> {
        self.history.end(self.alloc, last)?;
        put_all(buffer, writer, &self.asked, self.history.told())?;
        Ok(())
    }
}

/// Writes who offered what in recordings and when, and which client was subscribed to what, as they are read, one
/// after the other as one recording: a line for each interval, where it ends, and at the end one for each that is
/// still open.
///
/// One packet or block of a recording is held at a time, and what stands: at most 65,536 offers, as many
/// subscriptions, and the sessions of as many pairs of addresses.
pub fn show_services<R: Read, W: Write>(
    alloc: Global,
    sources: &mut [R],
    asked: &ServicesAsked<'_>,
    writer: &mut W,
) -> Result<ShownRecording, StoppedAt>
    // The intervals of what comes before the fault were written, or of all, and what is told is so.
    ensures shown { IfOk result (λ shown. ShowsServices (map R.remaining sources.old) (view_asked asked.now)
        shown (W.contents writer.old) (W.contents writer.new)) }
    // Else a beginning of that text was.
    ensures begun { OnErr result (BeginsServices (map R.remaining sources.old) (view_asked asked.now)
        (W.contents writer.old) (W.contents writer.new)) }
    // Only one of the files can be a file that could not be read.
    ensures unread { IfErr result (λ stopped. stopped.fault ≡ CannotRead → stopped.file < length sources.old) }
{
    let rules = HistoryRules {
        limit: LIMIT,
        overtake_ms: OVERTAKE_MS,
    };
    let mut account = ServiceAccount {
        alloc,
        asked: *asked,
        history: ServiceHistory::new(alloc, rules),
    };
    give_account(alloc, sources, &asked.wanted.packets, &mut account, writer)
}

/// Prints a line for each of these that is asked for.
fn put_all<W: Write>(
    buffer: &mut Buffer,
    writer: &mut W,
    asked: &ServicesAsked<'_>,
    told: &[Told],
) -> Result<(), CannotWrite>
    ensures ok { OnOk result (Sends (W.contents writer.old) buffer.old (W.contents writer.new) buffer.new
        (told_text (view_asked asked.now) told.now)) }
    ensures err { OnErr result (Stops (W.contents writer.old) buffer.old (W.contents writer.new)
        (told_text (view_asked asked.now) told.now)) }
{
    for one in told {
        put_one(buffer, writer, asked, one)?;
    }
    Ok(())
}

/// Prints a line, if it is asked for.
fn put_one<W: Write>(
    buffer: &mut Buffer,
    writer: &mut W,
    asked: &ServicesAsked<'_>,
    told: &Told,
) -> Result<(), CannotWrite>
    ensures ok { OnOk result (Sends (W.contents writer.old) buffer.old (W.contents writer.new) buffer.new
        (one_text (view_asked asked.now) told.now)) }
    ensures err { OnErr result (Stops (W.contents writer.old) buffer.old (W.contents writer.new)
        (one_text (view_asked asked.now) told.now)) }
{
    if is_chosen(&asked.wanted, told) {
        return put_told(buffer, writer, asked.form, told);
    }
    Ok(())
}
