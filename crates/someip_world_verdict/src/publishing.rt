//! The events that steps publish.
ghost use Rattle.std.specs.Prelude.{◌≡◌};
ghost use Rattle.someip_world_verdict.specs.Booking.{publication_by, publication_in, publication_of};
ghost use Rattle.someip_world_verdict.specs.Views.{view_life, view_publication};
ghost use Rattle.std.specs.Option.{option_map};

use crate::life::Life;
use sd_core::InstanceId;
use someip_node_rules::{Config, OfferedService};
use someip_rpc::{EventId, MessageId};
use someip_tables::{session_after_last, value_at};
use someip_world_rules::exchanges::{EventExchange, ExchangeKey};
use someip_world_schedule::Step;

/// An event that a step publishes.
#[derive(Clone, Copy)]
pub(crate) struct Publication {
    /// The event.
    pub(crate) event: EventId,
    /// Its session.
    pub(crate) session: u16,
    /// The key of the publication.
    pub(crate) key: ExchangeKey,
}

/// The event that a step publishes, if it does.
pub(crate) fn publication_in(config: &Config, life: &Life, step: &Step) -> Option<Publication>
    ensures { option_map view_publication result ≡ publication_in config.now (view_life life.now) step.now }
{
    match step {
        Step::Publish {
            instance,
            event,
            ..
        } => publication_of(config, life, *instance, *event),
        Step::PublishTo {
            eventgroup,
            event,
            ..
        } => publication_of(config, life, eventgroup.instance, *event),
        _ => None,
    }
}

/// An event of an instance.
fn publication_of(
    config: &Config,
    life: &Life,
    instance: InstanceId,
    event: u16,
) -> Option<Publication>
    ensures { option_map view_publication result
        ≡ publication_of config.now (view_life life.now) instance event }
{
    let service = config.offers.get(&instance)?;
    Some(publication_by(life, service, event))
}

/// The next publication of an event.
fn publication_by(life: &Life, service: &OfferedService, event: u16) -> Publication
    ensures { view_publication result ≡ publication_by (view_life life.now) service.now event }
{
    let id = EventId {
        service: service.rules.service,
        instance: service.rules.instance,
        event,
    };
    let session = session_after_last(value_at(&life.sessions, id));
    let key = ExchangeKey::Event(EventExchange {
        server: service.rules.endpoint,
        message: MessageId {
            service: service.rules.service,
            method: event,
        },
        client_id: 0,
        session,
    });
    Publication {
        event: id,
        session,
        key,
    }
}
