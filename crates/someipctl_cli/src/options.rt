//! What the options of commands ask for, once their texts are right.
ghost use Rattle.std.specs.Prelude.{◌≡◌, true, false};
ghost use Rattle.someipctl_cli.specs.SettingsAsked.{stats_texts_of, texts_of};

use crate::failure::{Failure, OptionName};
use recording::Time;
use recording_packets::ChosenPackets;
use someipctl_audit::SettingTexts;
use someipctl_io::Form;
use someipctl_recordings::choice::{client_in, time_in};
use someipctl_recordings::lists::{addresses_in, numbers_in};
use someipctl_recordings::{Wanted, WholeLimits, limits_in, number_within};
use someipctl_show::services::{AskedService, services_in};
use someipctl_words::{
    ChoiceOptions, PacketOptions, RecordingOptions, SettingOptions, StatsOptions,
};

/// The interfaces and the VLAN IDs whose packets are looked at, if they are named.
#[derive(Drop)]
struct PacketLists {
    interfaces: Option<Vec<u16>>,
    vlans: Option<Vec<u16>>,
    window_ns: Option<u64>,
}

impl PacketLists {
    fn chosen(&self) -> ChosenPackets<'_> {
        ChosenPackets {
            interfaces: self.interfaces.as_deref(),
            vlans: self.vlans.as_deref(),
            window_ns: self.window_ns,
        }
    }
}

/// The addresses, the client and the times that are asked for, if they are named, and whether endpoints are
/// learned.
#[derive(Drop)]
struct Choice {
    addresses: Option<Vec<u32>>,
    client: Option<u16>,
    from: Option<Time>,
    until: Option<Time>,
    learned: bool,
}

/// What of recordings is asked for by the options that the commands over recordings share.
#[derive(Drop)]
pub(crate) struct Selection {
    ports: Option<Vec<u16>>,
    services: Option<Vec<AskedService>>,
    packets: PacketLists,
    choice: Choice,
}

impl Selection {
    /// The datagrams, or findings, that are asked for.
    pub(crate) fn wanted(&self) -> Wanted<'_> {
        Wanted {
            packets: self.packets.chosen(),
            learned: self.choice.learned,
            ports: self.ports.as_deref(),
            addresses: self.choice.addresses.as_deref(),
            services: self.services.as_deref(),
            client: self.choice.client,
            from: self.choice.from,
            until: self.choice.until,
        }
    }
}

/// The texts of the options that the commands over recordings share, of a command that is used so.
#[derive(Clone, Copy)]
pub(crate) struct SharedOptions<'p> {
    pub(crate) usage: &'static str,
    pub(crate) ports: Option<&'p str>,
    pub(crate) service: Option<&'p str>,
    pub(crate) packets: PacketOptions<'p>,
    pub(crate) choice: ChoiceOptions<'p>,
}

/// What they ask for. The first that is wrong is told: the ports, the services, the packets, and then the rest.
pub(crate) fn selection_of<'p, R: AllocGlobal>(
    rt: &R,
    options: SharedOptions<'p>,
) -> Result<Selection, Failure<'p>> {
    let usage = options.usage;
    let ports = numbers_of(rt, OptionName::Ports, options.ports, (1, 65535), usage)?;
    let services = services_of(rt, options.service, usage)?;
    let packets = packet_lists(rt, options.packets, usage)?;
    let choice = choice_of(rt, options.choice, usage)?;
    Ok(Selection {
        ports,
        services,
        packets,
        choice,
    })
}

/// The numbers of an option that lie between these, if it is given, of a command that is used so.
fn numbers_of<'p, R: AllocGlobal>(
    rt: &R,
    option: OptionName,
    text: Option<&'p str>,
    (low, high): (u16, u16),
    usage: &'static str,
) -> Result<Option<Vec<u16>>, Failure<'p>> {
    let Some(text) = text else {
        return Ok(None);
    };
    match numbers_in(rt.alloc(), text, low, high) {
        Ok(numbers) => Ok(Some(numbers)),
        Err(error) => Err(Failure::of_list(error, option, text, usage)),
    }
}

/// The interfaces and the VLAN IDs whose packets are looked at, of a command that is used so.
fn packet_lists<'p, R: AllocGlobal>(
    rt: &R,
    options: PacketOptions<'p>,
    usage: &'static str,
) -> Result<PacketLists, Failure<'p>> {
    let interface = options.interface;
    let interfaces = numbers_of(rt, OptionName::Interface, interface, (0, 65535), usage)?;
    let vlans = numbers_of(rt, OptionName::Vlan, options.vlan, (0, 4095), usage)?;
    let window_ns = window_of(options.dedup, usage)?;
    Ok(PacketLists {
        interfaces,
        vlans,
        window_ns,
    })
}

/// The nanoseconds within which an equal packet is a copy, if they are named, of a command that is used so.
fn window_of<'p>(text: Option<&'p str>, usage: &'static str) -> Result<Option<u64>, Failure<'p>> {
    let Some(text) = text else {
        return Ok(None);
    };
    match number_within(text, 1, 60_000) {
        Some(millis) => Ok(Some(millis.saturating_mul(1_000_000))),
        None => Err(Failure::BadOption(OptionName::Dedup, text, usage)),
    }
}

/// The addresses, the client and the times that are asked for, of a command that is used so.
fn choice_of<'p, R: AllocGlobal>(
    rt: &R,
    options: ChoiceOptions<'p>,
    usage: &'static str,
) -> Result<Choice, Failure<'p>> {
    let addresses = addresses_of(rt, options.address, usage)?;
    let client = client_of(options.client, usage)?;
    let from = time_of(OptionName::From, options.from, usage)?;
    let until = time_of(OptionName::Until, options.until, usage)?;
    Ok(Choice {
        addresses,
        client,
        from,
        until,
        learned: options.learned,
    })
}

/// The addresses that are asked for, if they are named, of a command that is used so.
fn addresses_of<'p, R: AllocGlobal>(
    rt: &R,
    text: Option<&'p str>,
    usage: &'static str,
) -> Result<Option<Vec<u32>>, Failure<'p>> {
    let Some(text) = text else {
        return Ok(None);
    };
    match addresses_in(rt.alloc(), text) {
        Ok(addresses) => Ok(Some(addresses)),
        Err(error) => Err(Failure::of_list(error, OptionName::Address, text, usage)),
    }
}

/// The client that is asked for, if it is named, of a command that is used so.
fn client_of<'p>(text: Option<&'p str>, usage: &'static str) -> Result<Option<u16>, Failure<'p>> {
    let Some(text) = text else {
        return Ok(None);
    };
    match client_in(text) {
        Some(client) => Ok(Some(client)),
        None => Err(Failure::BadOption(OptionName::Client, text, usage)),
    }
}

/// The time that an option names, if it is given, of a command that is used so.
fn time_of<'p>(
    option: OptionName,
    text: Option<&'p str>,
    usage: &'static str,
) -> Result<Option<Time>, Failure<'p>> {
    let Some(text) = text else {
        return Ok(None);
    };
    match time_in(text) {
        Some(time) => Ok(Some(time)),
        None => Err(Failure::BadOption(option, text, usage)),
    }
}

/// The services that are asked for, if they are named, of a command that is used so.
pub(crate) fn services_of<'p, R: AllocGlobal>(
    rt: &R,
    text: Option<&'p str>,
    usage: &'static str,
) -> Result<Option<Vec<AskedService>>, Failure<'p>> {
    let Some(text) = text else {
        return Ok(None);
    };
    match services_in(rt.alloc(), text) {
        Ok(services) => Ok(Some(services)),
        Err(error) => Err(Failure::of_services(error, text, usage)),
    }
}

/// The limits of messages that are put together, if they are.
pub(crate) fn whole_of<'p>(
    options: &RecordingOptions<'p>,
) -> Result<Option<WholeLimits>, Failure<'p>> {
    if !options.whole {
        if options.limit.is_some() || options.slots.is_some() || options.timeout.is_some() {
            return Err(Failure::LimitAlone);
        }
        return Ok(None);
    }
    match limits_in(options.limit, options.slots, options.timeout) {
        Ok(limits) => Ok(Some(limits)),
        Err(error) => Err(Failure::BadLimits(error)),
    }
}

/// The form of lines, by whether JSON objects are asked for.
pub(crate) fn line_form(json: bool) -> Form
    ensures objects { json ≡ true → result ≡ Form.Json }
    ensures plain { json ≡ false → result ≡ Form.Plain }
{
    if json { Form::Json } else { Form::Plain }
}

/// The texts of the settings of an audit that its options say.
pub(crate) fn texts_of<'w>(options: &SettingOptions<'w>) -> SettingTexts<'w>
    ensures { result ≡ texts_of options.now }
{
    SettingTexts {
        answer_ms: options.answer_ms,
        settle_ms: options.settle_ms,
        overtake_ms: options.overtake_ms,
        sessions: options.sessions,
    }
}

/// The texts of the settings of the audit behind figures that the options of `stats` say.
pub(crate) fn stats_texts_of<'w>(options: &StatsOptions<'w>) -> SettingTexts<'w>
    ensures { result ≡ stats_texts_of options.now }
{
    SettingTexts {
        answer_ms: None,
        settle_ms: None,
        overtake_ms: options.overtake_ms,
        sessions: options.sessions,
    }
}
