//! The lines of what is told.
ghost use Rattle.std.specs.Prelude.{◌≡◌, OnErr, OnOk, map};
ghost use Rattle.someipctl_io.specs.Sending.{Sends, Stops};
ghost use Rattle.someipctl_io.specs.ToldLines.{line_text};
ghost use Rattle.someipctl_io.specs.ToldViews.{view_field, view_said};
ghost use Rattle.someipctl_show.specs.VerdictForms.{no_head};
ghost use Rattle.someipctl_services.specs.ServiceLines.{book_name, full_fields, moment_told, offer_fields};
ghost use Rattle.someipctl_services.specs.ServiceLines.{subscription_fields, told_line, why_name};

use audit_services::{Ended, NoTerms, OfferTerms, Offered, Subscribed, Why};
use someip_services::{FullBook, Told};
use someipctl_audit::{put_headless, time_at};
use someipctl_io::{Buffer, CannotWrite, Field, Form, Said};
use someipctl_recordings::heads::field_of;
use std::io::Write;

/// Prints the line of what is told.
pub(crate) fn put_told<W: Write>(
    buffer: &mut Buffer,
    writer: &mut W,
    form: Form,
    told: &Told,
) -> Result<(), CannotWrite>
    ensures ok { OnOk result (Sends (W.contents writer.old) buffer.old (W.contents writer.new) buffer.new
        (line_text form no_head (told_line told.now))) }
    ensures err { OnErr result (Stops (W.contents writer.old) buffer.old (W.contents writer.new)
        (line_text form no_head (told_line told.now))) }
{
    match told {
        Told::Offer(ended) => put_headless(buffer, writer, form, "offer", &offer_fields(ended)),
        Told::Subscription(ended) => {
            put_headless(
                buffer,
                writer,
                form,
                "subscription",
                &subscription_fields(ended),
            )
        }
        Told::Full(book) => put_headless(buffer, writer, form, "full", &full_fields(*book)),
    }
}

/// What is told of an offer.
fn offer_fields(ended: &Ended<Offered, OfferTerms>) -> [Field<'static>; 8]
    ensures { map view_field result ≡ offer_fields ended.now }
{
    let terms = &ended.interval.value;
    [
        field_of("offer ", "service", Said::Id(ended.key.service)),
        field_of(".", "instance", Said::Id(ended.key.instance)),
        field_of(" major ", "major", Said::Byte(ended.key.major)),
        field_of(" minor ", "minor", Said::Number(terms.minor as usize)),
        field_of(" ", "endpoint", Said::Endpoint(terms.endpoint)),
        field_of(" from ", "since", said_of_moment(ended.interval.from)),
        field_of(" until ", "until", said_of_moment(ended.interval.until)),
        field_of(" ", "why", Said::Text(why_name(ended.interval.why))),
    ]
}

/// What is told of a subscription.
fn subscription_fields(ended: &Ended<Subscribed, NoTerms>) -> [Field<'static>; 9]
    ensures { map view_field result ≡ subscription_fields ended.now }
{
    let key = &ended.key;
    [
        field_of("subscription ", "service", Said::Id(key.service)),
        field_of(".", "instance", Said::Id(key.instance)),
        field_of(" major ", "major", Said::Byte(key.major)),
        field_of(" group ", "group", Said::Id(key.eventgroup)),
        field_of(" ", "endpoint", Said::Endpoint(key.endpoint)),
        field_of(" at ", "server", Said::Address(key.server)),
        field_of(" from ", "since", said_of_moment(ended.interval.from)),
        field_of(" until ", "until", said_of_moment(ended.interval.until)),
        field_of(" ", "why", Said::Text(why_name(ended.interval.why))),
    ]
}

/// What is told where there is no room for more.
fn full_fields(book: FullBook) -> [Field<'static>; 1]
    ensures { map view_field result ≡ full_fields book }
{
    [field_of("full ", "name", Said::Text(book_name(book)))]
}

/// A moment, in milliseconds since 1970, as a time.
fn said_of_moment(millis: u64) -> Said<'static>
    ensures { view_said result ≡ moment_told millis }
{
    let time = time_at(millis);
    Said::Time {
        seconds: time.seconds,
        nanoseconds: time.nanoseconds,
    }
}

/// Why an interval ended, in a word.
fn why_name(why: Why) -> &'static str
    ensures { result.now ≡ why_name why }
{
    match why {
        Why::Open => "open",
        Why::Stopped => "stopped",
        Why::Expired => "expired",
        Why::Reboot => "reboot",
        Why::Moved => "moved",
        Why::Refused => "refused",
        Why::Offer => "offer",
    }
}

/// What is full, in a word.
fn book_name(book: FullBook) -> &'static str
    ensures { result.now ≡ book_name book }
{
    match book {
        FullBook::Offers => "offers",
        FullBook::Subscriptions => "subscriptions",
        FullBook::Sessions => "sessions",
    }
}
