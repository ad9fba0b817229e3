//! Which intervals are told.
ghost use Rattle.std.specs.Prelude.{◌≡◌, option_map};
ghost use Rattle.someipctl_recordings.specs.Wanted.{view_wanted};
ghost use Rattle.someipctl_services.specs.ChosenLines.{is_at, is_chosen, is_in_span, is_offer_chosen, is_of_service, is_subscription_chosen, number_of};

use audit_services::{Ended, Interval, NoTerms, OfferTerms, Offered, Subscribed};
use someip_services::Told;
use someipctl_audit::subject::{Subject, is_of_client, is_of_services};
use someipctl_audit::time_at;
use someipctl_recordings::{Wanted, is_in_span as is_time_in_span};
use std::net::Ipv4Addr;

/// Whether what is told is asked for. That something is full always is.
pub(crate) fn is_chosen(wanted: &Wanted<'_>, told: &Told) -> bool
    ensures { result ≡ is_chosen (view_wanted wanted.now) told.now }
{
    match told {
        Told::Offer(ended) => is_offer_chosen(wanted, ended),
        Told::Subscription(ended) => is_subscription_chosen(wanted, ended),
        Told::Full(_) => true,
    }
}

/// Whether an offer is asked for: by its service, by its sender or its endpoint, and by its times.
fn is_offer_chosen(wanted: &Wanted<'_>, ended: &Ended<Offered, OfferTerms>) -> bool
    ensures { result ≡ is_offer_chosen (view_wanted wanted.now) ended.now }
{
    is_of_service(wanted, ended.key.service)
        && (is_at(wanted.addresses, ended.key.sender)
            || is_at(wanted.addresses, *ended.interval.value.endpoint.ip()))
        && is_in_span(wanted, &ended.interval)
}

/// Whether a subscription is asked for: by its service, by its server, its client or its endpoint, and by its times.
fn is_subscription_chosen(wanted: &Wanted<'_>, ended: &Ended<Subscribed, NoTerms>) -> bool
    ensures { result ≡ is_subscription_chosen (view_wanted wanted.now) ended.now }
{
    is_of_service(wanted, ended.key.service)
        && (is_at(wanted.addresses, ended.key.server)
            || (is_at(wanted.addresses, ended.key.client)
                || is_at(wanted.addresses, *ended.key.endpoint.ip())))
        && is_in_span(wanted, &ended.interval)
}

/// Whether a service is asked for. None is where a Client ID is named.
fn is_of_service(wanted: &Wanted<'_>, service: u16) -> bool
    ensures { result ≡ is_of_service (view_wanted wanted.now) service }
{
    let subject = Subject::service(service);
    is_of_services(wanted.services, &subject) && is_of_client(wanted.client, &subject)
}

/// Whether an address is one of those that are named.
fn is_at(addresses: Option<&[u32]>, address: Ipv4Addr) -> bool
    ensures { result ≡ is_at (option_map (λ a. a.now) addresses.entry) address }
{
    match addresses {
        Some(addresses) => addresses.contains(&number_of(address)),
        None => true,
    }
}

/// An address as a number, whose highest byte stands first.
fn number_of(address: Ipv4Addr) -> u32
    ensures { result ≡ number_of address }
{
    u32::from_be_bytes(address.octets())
}

/// Whether an interval ends at or after the first time that is named, and begins before the last.
fn is_in_span<V: Copy>(wanted: &Wanted<'_>, interval: &Interval<V>) -> bool
    ensures { result ≡ is_in_span (view_wanted wanted.now) interval.now.from interval.now.until }
{
    is_time_in_span(wanted.from, None, Some(time_at(interval.until)))
        && is_time_in_span(None, wanted.until, Some(time_at(interval.from)))
}
